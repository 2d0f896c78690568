//! What a record of a change file edits in a start.

ghost use Rattle.std.specs.Prelude.{◌≡◌, ℕ, List, [], ◌∷◌, map, IfOk};
ghost use Rattle.desk_values.specs.Reading.{txt_in};
ghost use denote.Ref.{Bor};
ghost use Rattle.desk_schema.specs.Change.{edit_of, level_edit, new_shape, next_edit, nulls_in, rights_edit, service_edit, shape_edit, with_length, with_range};

use crate::schema::{Kind, Rights, Schema};
use crate::start::Start;
use desk_values::fields::{read_i64, read_u32, read_u64};
use desk_values::{Memory, Txt, TxtErr, find_word};
use std::alloc::Global;

/// What is edited in a start, at its place there.
#[derive(Drop)]
pub(crate) enum Edit {
    /// The level of the SQL rules.
    Level(u32),
    /// What a column of a table holds, and whether it is not null.
    Shape(u32, u32, Kind, bool),
    /// The next value of a sequence.
    Next(u32, u64),
    /// The rights of a service.
    Grant(u32, Rights),
    /// A service behind the others.
    Add(Txt, Rights),
    /// A service that goes.
    Withdraw(u32),
}

/// What a record edits, `None` where it is a bad one.
pub(crate) fn edit_of(
    alloc: Global,
    start: &Start,
    fields: &[&[u8]],
) -> Result<Option<Edit>, Memory>
    ensures { IfOk result (λ edit. edit ≡ edit_of start.now (map (λ (field : Bor (List ℕ)). field.now) fields.now)) }
{
    match fields {
        [word, field] => Ok(level_edit(word, field)),
        [word, name, field] => named_edit(alloc, start, word, name, field),
        [word, table, column, field] => {
            Ok(shape_edit(start.schema(), word, table, column, &[*field]))
        }
        [word, table, column, low, high] => {
            let fields = [*low, *high];
            Ok(shape_edit(start.schema(), word, table, column, &fields))
        }
        _ => Ok(None),
    }
}

fn level_edit(word: &[u8], field: &[u8]) -> Option<Edit>
    ensures { result ≡ level_edit word.now field.now }
{
    if word != b"level".as_slice() {
        return None;
    }
    Some(Edit::Level(read_u32(field)?))
}

/// A record of a sequence or of a service.
fn named_edit(
    alloc: Global,
    start: &Start,
    word: &[u8],
    name: &[u8],
    field: &[u8],
) -> Result<Option<Edit>, Memory>
    ensures { IfOk result (λ edit. edit ≡ edit_of start.now (word.now ∷ name.now ∷ field.now ∷ [])) }
{
    if word == b"next".as_slice() {
        Ok(next_edit(start, name, field))
    } else if word == b"service".as_slice() {
        service_edit(alloc, start.schema(), name, field)
    } else {
        Ok(None)
    }
}

fn next_edit(start: &Start, name: &[u8], field: &[u8]) -> Option<Edit>
    ensures { result ≡ next_edit start.now name.now field.now }
{
    let sequence = start.schema().sequence_place(name)?;
    let old = start.next_value(sequence)?;
    let next = read_u64(field)?;
    if old <= next {
        Some(Edit::Next(sequence, next))
    } else {
        None
    }
}

fn service_edit(
    alloc: Global,
    schema: &Schema,
    name: &[u8],
    field: &[u8],
) -> Result<Option<Edit>, Memory>
    ensures { IfOk result (λ edit. edit ≡ service_edit schema.now.services name.now field.now) }
{
    let place = schema.service_place(name);
    if field == b"none".as_slice() {
        return Ok(place.map(Edit::Withdraw));
    }
    match find_word(field) {
        Some(rights) => rights_edit(alloc, place, name, rights),
        None => Ok(None),
    }
}

fn rights_edit(
    alloc: Global,
    place: Option<u32>,
    name: &[u8],
    rights: Rights,
) -> Result<Option<Edit>, Memory>
    ensures { IfOk result (λ edit. edit ≡ rights_edit place name.now rights) }
{
    match place {
        Some(place) => Ok(Some(Edit::Grant(place, rights))),
        None => match text(alloc, name)? {
            Some(name) => Ok(Some(Edit::Add(name, rights))),
            None => Ok(None),
        },
    }
}

/// The text of these bytes, if they are one.
fn text(alloc: Global, bytes: &[u8]) -> Result<Option<Txt>, Memory>
    ensures { IfOk result (λ text. text ≡ txt_in bytes.now) }
{
    match Txt::from_bytes(alloc, bytes) {
        Ok(text) => Ok(Some(text)),
        Err(TxtErr::Memory) => Err(Memory),
        Err(TxtErr::TooLong) => Ok(None),
        Err(TxtErr::NotUtf8) => Ok(None),
    }
}

/// A record of a column.
fn shape_edit(
    schema: &Schema,
    word: &[u8],
    table: &[u8],
    column: &[u8],
    fields: &[&[u8]],
) -> Option<Edit>
    ensures { result ≡ shape_edit schema.now word.now table.now column.now (map (λ (field : Bor (List ℕ)). field.now) fields.now) }
{
    let table = schema.table_place(table)?;
    let column = schema.column_place(table, column)?;
    let (kind, not_null) = schema.column(table, column)?;
    let (kind, not_null) = new_shape(word, fields, kind, not_null)?;
    Some(Edit::Shape(table, column, kind, not_null))
}

/// What a record of a column makes of the column.
fn new_shape(word: &[u8], fields: &[&[u8]], kind: Kind, not_null: bool) -> Option<(Kind, bool)>
    ensures { result ≡ new_shape word.now (map (λ (field : Bor (List ℕ)). field.now) fields.now) kind not_null }
{
    match fields {
        [field] => {
            if word == b"length".as_slice() {
                Some((with_length(read_u32(field)?, kind)?, not_null))
            } else if word == b"null".as_slice() {
                Some((kind, read_nulls(field)?))
            } else {
                None
            }
        }
        [low, high] => {
            if word == b"range".as_slice() {
                Some((with_range(read_i64(low)?, read_i64(high)?, kind)?, not_null))
            } else {
                None
            }
        }
        _ => None,
    }
}

fn with_length(most: u32, kind: Kind) -> Option<Kind>
    ensures { result ≡ with_length most kind }
{
    match kind {
        Kind::Text(_) => Some(Kind::Text(most)),
        _ => None,
    }
}

fn with_range(low: i64, high: i64, kind: Kind) -> Option<Kind>
    ensures { result ≡ with_range low high kind }
{
    match kind {
        Kind::Int(_, _) => Some(Kind::Int(low, high)),
        _ => None,
    }
}

fn read_nulls(field: &[u8]) -> Option<bool>
    ensures { result ≡ nulls_in field.now }
{
    if field == b"notnull".as_slice() {
        Some(true)
    } else if field == b"null".as_slice() {
        Some(false)
    } else {
        None
    }
}
