ghost use Rattle.std.specs.Prelude.{◌≡◌, ◌↔◌, ◌<◌, IsTrue, IsSomeAnd, length, slice_get};
ghost use Rattle.std.specs.List.{AllByRecursion, AllZip};
ghost use Rattle.desk_values.specs.Good.{Ascend};
ghost use Rattle.desk_schema.specs.Draft.{place_of_last};
ghost use Rattle.desk_schema.specs.Line.{with_name};
ghost use Rattle.desk_schema.specs.Name.{IsName};
ghost use Rattle.desk_schema.specs.Schema.{columns_of};
ghost use Rattle.desk_schema.specs.Rules.{AreBelow, ColumnMayFollow, IsAllowed, IsKind, IsOfKind, NextRowMayFollow, RowFits, SequenceMayFollow, ServiceMayFollow, TableMayFollow};

use crate::lookup::contains_name;
use crate::names::is_name;
use crate::schema::{Column, Kind, Service, Table, columns_of};
use desk_values::{Image, TABLE_LIMIT, Txt, Value};

/// The kind of the last line so far, in the order of a start's lines.
#[derive(Clone, Copy, Debug, PartialEq, Eq, PartialOrd, Ord)]
pub(crate) enum Last {
    Level,
    Sequence,
    Service,
    Table,
    Column,
    Row,
}

/// The greatest number of sequences.
const SEQUENCE_LIMIT: usize = 16;

/// The greatest number of services.
const SERVICE_LIMIT: usize = 16;

/// The greatest number of columns of a table.
const COLUMN_LIMIT: usize = 16;

/// The greatest number of rows.
const ROW_LIMIT: usize = 100_000;

/// The greatest length of a text column, in bytes.
const LENGTH_LIMIT: u32 = 1000;

/// The greatest next value of a sequence, and the greatest number of a next row.
const NEXT_LIMIT: u64 = 549_755_813_888;

/// Whether a sequence may be declared next.
pub(crate) fn may_add_sequence(last: Last, sequences: &[Txt], name: &Txt, next: u64) -> bool
    ensures { IsTrue result ↔ SequenceMayFollow (place_of_last last) sequences.now name.now next }
{
    last <= Last::Sequence
        && sequences.len() < SEQUENCE_LIMIT
        && is_name(name.as_str())
        && !contains_name(sequences, name)
        && (1..=NEXT_LIMIT).contains(&next)
}

/// Whether a service may be declared next.
pub(crate) fn may_add_service(last: Last, services: &[Service], name: &Txt) -> bool
    ensures { IsTrue result ↔ ServiceMayFollow (place_of_last last) services.now name.now }
{
    last <= Last::Service
        && services.len() < SERVICE_LIMIT
        && is_name(name.as_str())
        && !contains_name(services, name)
}

/// Whether a table may be declared next.
pub(crate) fn may_add_table(last: Last, tables: &[Table], name: &Txt) -> bool
    ensures { IsTrue result ↔ TableMayFollow (place_of_last last) tables.now name.now }
{
    last <= Last::Column
        && last != Last::Table
        && tables.len() < TABLE_LIMIT as usize
        && is_name(name.as_str())
        && !contains_name(tables, name)
}

/// Whether a column may be declared next.
pub(crate) fn may_add_column(
    last: Last,
    sequences: &[Txt],
    columns: &[Column],
    name: &Txt,
    kind: Kind,
    not_null: bool,
) -> bool
    requires { AllByRecursion IsName sequences.now }
    ensures { IsTrue result
        ↔ ColumnMayFollow (place_of_last last) sequences.now columns.now name.now (with_name sequences.now kind) not_null }
{
    matches!(last, Last::Table | Last::Column)
        && columns.len() < COLUMN_LIMIT
        && is_name(name.as_str())
        && !contains_name(columns, name)
        && is_kind(sequences, kind)
        && (not_null || !columns.is_empty())
}

/// Whether a kind is within the limits, of a sequence that is there.
fn is_kind(sequences: &[Txt], kind: Kind) -> bool
    requires { AllByRecursion IsName sequences.now }
    ensures { IsTrue result ↔ IsKind sequences.now (with_name sequences.now kind) }
{
    match kind {
        Kind::Int(low, high) => low <= high,
        Kind::Text(most) => (1..=LENGTH_LIMIT).contains(&most),
        Kind::Seq(sequence) => (sequence as usize) < sequences.len(),
    }
}

/// Whether a row may come next but for its key.
pub(crate) fn fits_row(
    last: Last,
    tables: &[Table],
    next_values: &[u64],
    rows: &[Image],
    row: u64,
    table: u32,
    values: &[Value],
) -> bool
    requires { Ascend rows.now }
    ensures { IsTrue result ↔ RowFits (place_of_last last) tables.now next_values.now rows.now row table values.now }
{
    last >= Last::Column
        && rows.len() < ROW_LIMIT
        && 1 <= row
        && are_below(rows, row)
        && fits_table(tables, next_values, table, values)
}

/// Whether each row has a number below this one.
fn are_below(rows: &[Image], number: u64) -> bool
    requires { Ascend rows.now }
    ensures { IsTrue result ↔ AreBelow number rows.now }
{
    match rows.last() {
        Some(last) => last.row < number,
        None => true,
    }
}

/// Whether there is such a table, and the values are allowed in its columns.
fn fits_table(tables: &[Table], next_values: &[u64], table: u32, values: &[Value]) -> bool
    ensures { IsTrue result ↔ (table < length tables.now) × AllZip (IsAllowed next_values.now) (columns_of tables.now table) values.now }
{
    (table as usize) < tables.len() && are_allowed(next_values, columns_of(tables, table), values)
}

/// Whether there is one value for each column, each allowed there.
fn are_allowed(next_values: &[u64], columns: &[Column], values: &[Value]) -> bool
    ensures { IsTrue result ↔ AllZip (IsAllowed next_values.now) columns.now values.now }
{
    if columns.len() != values.len() {
        return false;
    }
    for (i, column) in columns.iter().enumerate() {
        if !is_allowed(next_values, column, &values[i]) {
            return false;
        }
    }
    true
}

/// Whether a value may stand in a column.
fn is_allowed(next_values: &[u64], column: &Column, value: &Value) -> bool
    ensures { IsTrue result ↔ IsAllowed next_values.now column.now value.now }
{
    match value {
        Value::Null => !column.not_null,
        other => is_of_kind(next_values, column.kind, other),
    }
}

/// Whether a value that is there is of a kind.
fn is_of_kind(next_values: &[u64], kind: Kind, value: &Value) -> bool
    ensures { IsTrue result ↔ IsOfKind next_values.now kind value.now }
{
    match (kind, value) {
        (Kind::Int(low, high), Value::Int(number)) => (low..=high).contains(number),
        (Kind::Text(most), Value::Text(text)) => text.as_str().len() <= most as usize,
        (Kind::Seq(sequence), Value::Draw(drawn, number)) => {
            *drawn == sequence && 1 <= *number && is_drawn(next_values, sequence, *number)
        }
        _ => false,
    }
}

/// Whether a sequence's next value is above this one.
fn is_drawn(next_values: &[u64], sequence: u32, number: u64) -> bool
    ensures { IsTrue result ↔ IsSomeAnd (slice_get next_values.now sequence) (λ next. number < next) }
{
    match next_values.get(sequence as usize) {
        Some(next) => number < *next,
        None => false,
    }
}

/// Whether the number of the next row may come next.
pub(crate) fn may_finish(last: Last, rows: &[Image], next_row: u64) -> bool
    requires { Ascend rows.now }
    ensures { IsTrue result ↔ NextRowMayFollow (place_of_last last) rows.now next_row }
{
    last != Last::Table && (1..=NEXT_LIMIT).contains(&next_row) && are_below(rows, next_row)
}
