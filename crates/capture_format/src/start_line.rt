//! A line of a start file, read from its bytes.

ghost use Rattle.std.specs.Prelude.{◌≡◌, ◌^◌};
ghost use Rattle.std.specs.Option.{option_map};
ghost use Rattle.desk_values.specs.Reading.{Reads, number_of, number_below, integer_of, values_of};
ghost use Rattle.capture_format.specs.Inside.Fields.{two_of};
ghost use Rattle.capture_format.specs.Inside.NameReading.{as_name};
ghost use Rattle.capture_format.specs.Inside.StartReading.{rights_of, nulls_of, shape_behind, shape_of, line_behind, worded_of, start_line_of};

use crate::name::read_name;
use desk_schema::{ColumnKind, StartLine};
use desk_values::fields::{cut, cut_near, read_i64, read_u32, read_u64};
use desk_values::{ReadErr, find_word, read_values};
use std::alloc::Global;

/// The line that the bytes spell, without its line feed. `Bad` where they spell none.
#[tactic(auto, unfolding(crate::specs::Inside::StartReading::start_line_of))]
pub(crate) fn read_start_line(alloc: Global, bytes: &[u8]) -> Result<StartLine, ReadErr>
    ensures { Reads result (start_line_of bytes.now) }
{
    if bytes == b"end".as_slice() {
        return Ok(StartLine::End);
    }
    read_worded(alloc, bytes)
}

#[tactic(auto, unfolding(crate::specs::Inside::StartReading::worded_of))]
fn read_worded(alloc: Global, bytes: &[u8]) -> Result<StartLine, ReadErr>
    ensures { Reads result (worded_of bytes.now) }
{
    let (word, rest) = cut_near(bytes, b' ').ok_or(ReadErr::Bad)?;
    read_behind(alloc, word, rest)
}

// The line with this first field.
#[tactic(auto, unfolding(crate::specs::Inside::StartReading::line_behind))]
fn read_behind(alloc: Global, word: &[u8], rest: &[u8]) -> Result<StartLine, ReadErr>
    ensures { Reads result (line_behind word.now rest.now) }
{
    if word == b"start".as_slice() {
        Ok(StartLine::Head(read_u32(rest).ok_or(ReadErr::Bad)?))
    } else if word == b"level".as_slice() {
        Ok(StartLine::Level(read_u32(rest).ok_or(ReadErr::Bad)?))
    } else if word == b"seq".as_slice() {
        read_sequence(alloc, rest)
    } else if word == b"svc".as_slice() {
        read_service(alloc, rest)
    } else if word == b"table".as_slice() {
        Ok(StartLine::Table(read_name(alloc, rest)?))
    } else if word == b"col".as_slice() {
        read_column(alloc, rest)
    } else if word == b"row".as_slice() {
        read_row(alloc, rest)
    } else if word == b"nextrow".as_slice() {
        Ok(StartLine::NextRow(read_u64(rest).ok_or(ReadErr::Bad)?))
    } else if word == b"sessions".as_slice() {
        Ok(StartLine::Sessions(read_u32(rest).ok_or(ReadErr::Bad)?))
    } else {
        Err(ReadErr::Bad)
    }
}

#[tactic(auto, unfolding(crate::specs::Inside::Fields::two_of))]
fn read_sequence(alloc: Global, bytes: &[u8]) -> Result<StartLine, ReadErr>
    ensures { Reads result (option_map (λ p. StartLine.Seq p.0 p.1) (two_of 32 as_name number_of bytes.now)) }
{
    let (name, next) = cut(bytes, b' ').ok_or(ReadErr::Bad)?;
    let name = read_name(alloc, name)?;
    Ok(StartLine::Seq(name, read_u64(next).ok_or(ReadErr::Bad)?))
}

#[tactic(auto, unfolding(crate::specs::Inside::Fields::two_of))]
fn read_service(alloc: Global, bytes: &[u8]) -> Result<StartLine, ReadErr>
    ensures { Reads result (option_map (λ p. StartLine.Service p.0 p.1) (two_of 32 as_name rights_of bytes.now)) }
{
    let (name, rights) = cut(bytes, b' ').ok_or(ReadErr::Bad)?;
    let name = read_name(alloc, name)?;
    Ok(StartLine::Service(name, find_word(rights).ok_or(ReadErr::Bad)?))
}

#[tactic(auto, unfolding(crate::specs::Inside::Fields::two_of))]
fn read_column(alloc: Global, bytes: &[u8]) -> Result<StartLine, ReadErr>
    ensures { Reads result (option_map (λ p. StartLine.Column p.0 p.1.0 p.1.1) (two_of 32 as_name shape_of bytes.now)) }
{
    let (name, rest) = cut(bytes, b' ').ok_or(ReadErr::Bad)?;
    let name = read_name(alloc, name)?;
    let (kind, not_null) = read_shape(alloc, rest)?;
    Ok(StartLine::Column(name, kind, not_null))
}

// What a column holds, and whether it is not null.
#[tactic(auto, unfolding(crate::specs::Inside::StartReading::shape_of))]
fn read_shape(alloc: Global, bytes: &[u8]) -> Result<(ColumnKind, bool), ReadErr>
    ensures { Reads result (shape_of bytes.now) }
{
    let (word, rest) = cut(bytes, b' ').ok_or(ReadErr::Bad)?;
    read_shape_behind(alloc, word, rest)
}

#[tactic(auto, unfolding(crate::specs::Inside::StartReading::shape_behind))]
fn read_shape_behind(alloc: Global, word: &[u8], rest: &[u8]) -> Result<(ColumnKind, bool), ReadErr>
    ensures { Reads result (shape_behind word.now rest.now) }
{
    match word {
        b"int" => read_range(rest).ok_or(ReadErr::Bad),
        b"text" => read_length(rest).ok_or(ReadErr::Bad),
        b"seq" => read_drawn(alloc, rest),
        _ => Err(ReadErr::Bad),
    }
}

#[tactic(auto, unfolding(crate::specs::Inside::Fields::two_of))]
fn read_range(bytes: &[u8]) -> Option<(ColumnKind, bool)>
    ensures { result ≡ option_map
        (λ p. (ColumnKind.Int p.0 p.1.0, p.1.1)) (two_of 32 integer_of (two_of 32 integer_of nulls_of) bytes.now) }
{
    let (low, rest) = cut(bytes, b' ')?;
    let (high, nulls) = cut(rest, b' ')?;
    let low = read_i64(low)?;
    let high = read_i64(high)?;
    Some((ColumnKind::Int(low, high), read_nulls(nulls)?))
}

#[tactic(auto, unfolding(crate::specs::Inside::Fields::two_of))]
fn read_length(bytes: &[u8]) -> Option<(ColumnKind, bool)>
    ensures { result ≡ option_map (λ p. (ColumnKind.Text p.0, p.1)) (two_of 32 (number_below (2 ^ 32)) nulls_of bytes.now) }
{
    let (most, nulls) = cut(bytes, b' ')?;
    let most = read_u32(most)?;
    Some((ColumnKind::Text(most), read_nulls(nulls)?))
}

#[tactic(auto, unfolding(crate::specs::Inside::Fields::two_of))]
fn read_drawn(alloc: Global, bytes: &[u8]) -> Result<(ColumnKind, bool), ReadErr>
    ensures { Reads result (option_map (λ p. (ColumnKind.Seq p.0, p.1)) (two_of 32 as_name nulls_of bytes.now)) }
{
    let (name, nulls) = cut(bytes, b' ').ok_or(ReadErr::Bad)?;
    let name = read_name(alloc, name)?;
    Ok((
        ColumnKind::Seq(name),
        read_nulls(nulls).ok_or(ReadErr::Bad)?,
    ))
}

#[tactic(auto, unfolding(crate::specs::Inside::StartReading::nulls_of))]
fn read_nulls(bytes: &[u8]) -> Option<bool>
    ensures { result ≡ nulls_of bytes.now }
{
    if bytes == b"notnull".as_slice() {
        Some(true)
    } else if bytes == b"null".as_slice() {
        Some(false)
    } else {
        None
    }
}

#[tactic(auto, unfolding(crate::specs::Inside::Fields::two_of))]
fn read_row(alloc: Global, bytes: &[u8]) -> Result<StartLine, ReadErr>
    ensures { Reads result
        (option_map (λ p. StartLine.Row p.0 p.1.0 p.1.1) (two_of 32 number_of (two_of 32 (number_below (2 ^ 32)) values_of) bytes.now)) }
{
    let (row, rest) = cut_near(bytes, b' ').ok_or(ReadErr::Bad)?;
    let (table, values) = cut_near(rest, b' ').ok_or(ReadErr::Bad)?;
    let row = read_u64(row).ok_or(ReadErr::Bad)?;
    let table = read_u32(table).ok_or(ReadErr::Bad)?;
    Ok(StartLine::Row(row, table, read_values(alloc, values)?))
}
