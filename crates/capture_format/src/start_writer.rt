//! Start files, written as bytes.

ghost use Rattle.std.specs.Prelude.{◌≡◌, ◌≤◌, ◌++◌, ◌∷◌, [], map, IfOk, OnOk};
ghost use Rattle.std.specs.List.{flat_map};
ghost use Rattle.std.specs.Fmt.{decimal};
ghost use Rattle.desk_values.specs.Limits.{session_limit};
ghost use Rattle.desk_schema.specs.declared.line.StartLine.TheVariants.{Head, Level, Table as TableLine, NextRow, Sessions, End};
ghost use Rattle.desk_schema.specs.Line.{kind_text, line_text, lines_text, nulls_text, with_name};
ghost use Rattle.desk_schema.specs.Start.{column_line, part_lines, row_line, sequence_lines, service_line, table_lines, values_left};
ghost use Rattle.desk_values.specs.Text.{values_text};
ghost use Rattle.capture_format.specs.StartFile.{start_text};

use desk_schema::{Column, Kind, Service, Start, Table};
use desk_values::fields::{append_i64, append_u64};
use desk_values::{Bytes, Image, List, Memory, Txt, Values, Word, write_values};
use std::alloc::Global;

/// The one start file of a start and a number of sessions, as [`read_start`](crate::read_start) reads it. It fails for
/// want of memory alone.
pub fn write_start(alloc: Global, start: &Start, sessions: u32) -> Result<Bytes, Memory>
    requires { sessions ≤ session_limit }
    ensures { IfOk result (λ bytes. bytes ≡ start_text start.now sessions) }
{
    let mut text = List::new(alloc);
    push_parts(start, &mut text)?;
    push_number(b"nextrow ", start.next_row(), &mut text)?;
    push_number(b"sessions ", u64::from(sessions), &mut text)?;
    text.append(b"end\n")?;
    Ok(text)
}

// The lines up to the rows.
fn push_parts(start: &Start, to: &mut Bytes) -> Result<(), Memory>
    ensures { OnOk result (to.new ≡ to.old ++ lines_text (part_lines start.now)) }
{
    let schema = start.schema();
    push_number(b"start ", u64::from(schema.version()), to)?;
    push_number(b"level ", u64::from(schema.level()), to)?;
    push_sequences(schema.sequences(), start.next_values(), to)?;
    push_services(schema.services(), to)?;
    push_tables(schema.sequences(), schema.tables(), to)?;
    push_rows(start.rows().as_slice(), to)?;
    Ok(())
}

// A word with a space, and a number.
fn push_number(word: &[u8], number: u64, to: &mut Bytes) -> Result<(), Memory>
    ensures { OnOk result (to.new ≡ to.old ++ (word.now ++ (decimal number ++ 10 ∷ []))) }
{
    to.append(word)?;
    append_u64(number, to)?;
    to.push(b'\n')
}

fn push_sequences(names: &[Txt], nexts: &[u64], to: &mut Bytes) -> Result<(), Memory>
    ensures { OnOk result (to.new ≡ to.old ++ lines_text (sequence_lines names.now nexts.now)) }
{
    for (name, next) in names.iter().zip(nexts) {
        to.append(b"seq ")?;
        to.append(name.as_str().as_bytes())?;
        push_number(b" ", *next, to)?;
    }
    Ok(())
}

fn push_services(services: &[Service], to: &mut Bytes) -> Result<(), Memory>
    ensures { OnOk result (to.new ≡ to.old ++ lines_text (map service_line services.now)) }
{
    for service in services {
        to.append(b"svc ")?;
        to.append(service.name.as_str().as_bytes())?;
        to.push(b' ')?;
        to.append(service.rights.word().as_bytes())?;
        to.push(b'\n')?;
    }
    Ok(())
}

fn push_tables(sequences: &[Txt], tables: &[Table], to: &mut Bytes) -> Result<(), Memory>
    ensures { OnOk result (to.new ≡ to.old ++ lines_text (flat_map (table_lines sequences.now) tables.now)) }
{
    for table in tables {
        push_table(sequences, table, to)?;
    }
    Ok(())
}

fn push_table(sequences: &[Txt], table: &Table, to: &mut Bytes) -> Result<(), Memory>
    ensures { OnOk result (to.new ≡ to.old ++ lines_text (table_lines sequences.now table.now)) }
{
    to.append(b"table ")?;
    to.append(table.name.as_str().as_bytes())?;
    to.push(b'\n')?;
    push_columns(sequences, table.columns.as_slice(), to)?;
    Ok(())
}

fn push_columns(sequences: &[Txt], columns: &[Column], to: &mut Bytes) -> Result<(), Memory>
    ensures { OnOk result (to.new ≡ to.old ++ lines_text (map (column_line sequences.now) columns.now)) }
{
    for column in columns {
        push_column(sequences, column, to)?;
    }
    Ok(())
}

fn push_column(sequences: &[Txt], column: &Column, to: &mut Bytes) -> Result<(), Memory>
    ensures { OnOk result (to.new ≡ to.old ++ (line_text (column_line sequences.now column.now) ++ 10 ∷ [])) }
{
    to.append(b"col ")?;
    to.append(column.name.as_str().as_bytes())?;
    to.push(b' ')?;
    push_kind(sequences, column.kind, to)?;
    to.append(nulls_word(column.not_null))?;
    to.push(b'\n')
}

fn nulls_word(not_null: bool) -> &'static [u8]
    ensures { result.now ≡ 32 ∷ nulls_text not_null }
{
    if not_null { b" notnull" } else { b" null" }
}

fn push_kind(sequences: &[Txt], kind: Kind, to: &mut Bytes) -> Result<(), Memory>
    ensures { OnOk result (to.new ≡ to.old ++ kind_text (with_name sequences.now kind)) }
{
    match kind {
        Kind::Int(low, high) => {
            to.append(b"int ")?;
            append_i64(low, to)?;
            to.push(b' ')?;
            append_i64(high, to)
        }
        Kind::Text(most) => {
            to.append(b"text ")?;
            append_u64(u64::from(most), to)
        }
        Kind::Seq(sequence) => {
            to.append(b"seq ")?;
            match sequences.get(sequence as usize) {
                Some(name) => to.append(name.as_str().as_bytes()),
                None => Ok(()),
            }
        }
    }
}

fn push_rows(rows: &[Image], to: &mut Bytes) -> Result<(), Memory>
    ensures { OnOk result (to.new ≡ to.old ++ lines_text (map row_line rows.now)) }
{
    for row in rows {
        push_row(row, to)?;
    }
    Ok(())
}

fn push_row(row: &Image, to: &mut Bytes) -> Result<(), Memory>
    ensures { OnOk result (to.new ≡ to.old ++ (line_text (row_line row.now) ++ 10 ∷ [])) }
{
    to.append(b"row ")?;
    append_u64(row.row, to)?;
    to.push(b' ')?;
    append_u64(u64::from(row.table), to)?;
    to.push(b' ')?;
    push_left(&row.left, to)?;
    to.push(b'\n')
}

// The values that are left, none where the row is deleted.
fn push_left(left: &Option<Values>, to: &mut Bytes) -> Result<(), Memory>
    ensures { OnOk result (to.new ≡ to.old ++ values_text (values_left left.now)) }
{
    match left {
        Some(values) => write_values(values.as_slice(), to),
        None => to.append(b"[]"),
    }
}
