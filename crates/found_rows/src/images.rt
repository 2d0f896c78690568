//! The keys of rows, and what is kept of new values and tested of new images.

ghost use Rattle.std.specs.Prelude.{◌≡◌, ◌||◌};
ghost use Rattle.desk_values.specs.Comparison.{same_key};
ghost use Rattle.server_words.specs.Rows.{row_key};
ghost use Rattle.server_words.specs.Writes.{any_column, any_value, exceeds, exceeds_length, is_empty_text, leaves, leaves_range, stored, violates_not_null};

use crate::evaluation::Evaluation;
use crate::found::values_of;
use desk_schema::{Column, Kind};
use desk_values::{Image, Value, same_key};
use server_words::{Causes, first_value};

/// The first value of a row, Null where there is none.
pub fn row_key<'a>(with: Evaluation<'a>, image: &'a Image) -> &'a Value
    ensures { result.now ≡ row_key image.now }
{
    match first_value(image) {
        Some(key) => key,
        None => with.null,
    }
}

/// Whether two rows have one key.
pub fn same_row_key(with: Evaluation<'_>, a: &Image, b: &Image) -> bool
    ensures { result ≡ same_key with.entry.level (row_key a.now) (row_key b.now) }
{
    same_key(with.level, row_key(with, a), row_key(with, b))
}

fn is_empty_text(value: &Value) -> bool
    ensures { result ≡ is_empty_text value.now }
{
    match value {
        Value::Text(text) => text.as_str().is_empty(),
        _ => false,
    }
}

/// A value as a row keeps it: at level 2 a text of no bytes is Null.
pub fn stored(level: u32, new: Value) -> Value
    ensures { result ≡ stored level new }
{
    if is_empty_text(&new) && level == 2 {
        Value::Null
    } else {
        new
    }
}

/// The causes with those that new images bring, column by column.
pub fn tested(with: Evaluation<'_>, columns: &[Column], images: &[Image], causes: Causes) -> Causes
    ensures { result
        ≡ record causes {
          null = causes.null
              || any_value violates_not_null columns.now images.now;
          too_long = causes.too_long
              || any_value exceeds columns.now images.now;
          out_of_range = causes.out_of_range
              || any_value leaves columns.now images.now;
        } }
{
    let mut causes = causes;
    for image in images {
        let values = values_of(with, image).as_slice();
        causes.null = causes.null || some_missing(columns, values);
        causes.too_long = causes.too_long || some_too_long(columns, values);
        causes.out_of_range = causes.out_of_range || some_out_of_range(columns, values);
    }
    causes
}

fn some_missing(columns: &[Column], values: &[Value]) -> bool
    ensures { result ≡ any_column violates_not_null columns.now values.now }
{
    let [column, columns @ ..] = columns else {
        return false;
    };
    let [value, values @ ..] = values else {
        return false;
    };
    violates_not_null(column, value) || some_missing(columns, values)
}

fn some_too_long(columns: &[Column], values: &[Value]) -> bool
    ensures { result ≡ any_column exceeds columns.now values.now }
{
    let [column, columns @ ..] = columns else {
        return false;
    };
    let [value, values @ ..] = values else {
        return false;
    };
    exceeds_length(column.kind, value) || some_too_long(columns, values)
}

fn some_out_of_range(columns: &[Column], values: &[Value]) -> bool
    ensures { result ≡ any_column leaves columns.now values.now }
{
    let [column, columns @ ..] = columns else {
        return false;
    };
    let [value, values @ ..] = values else {
        return false;
    };
    leaves_range(column.kind, value) || some_out_of_range(columns, values)
}

fn violates_not_null(column: &Column, value: &Value) -> bool
    ensures { result ≡ violates_not_null column.now value.now }
{
    column.not_null && matches!(value, Value::Null)
}

fn exceeds_length(kind: Kind, value: &Value) -> bool
    ensures { result ≡ exceeds_length kind value.now }
{
    match (kind, value) {
        (Kind::Text(most), Value::Text(text)) => text.as_str().len() > most as usize,
        _ => false,
    }
}

fn leaves_range(kind: Kind, value: &Value) -> bool
    ensures { result ≡ leaves_range kind value.now }
{
    match (kind, value) {
        (Kind::Int(low, high), Value::Int(number)) => *number < low || high < *number,
        _ => false,
    }
}
