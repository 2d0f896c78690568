//! Which replies have a text.

ghost use Rattle.std.specs.Prelude.{◌≡◌, ◌↔◌, IsTrue};
ghost use Rattle.std.specs.List.{AllByRecursion};
ghost use Rattle.desk_values.specs.Good.{IsValue, IsValues, IsGoodRow, IsGoodImage, IsGoodDraw, IsGoodOutcome, Ascend};
ghost use Rattle.desk_values.specs.Good.{HasValues, IsDraw, IsShapedImage, IsShapedOutcome};
ghost use Rattle.desk_values.specs.Good.{rows_ascend, is_draw, all_draws};

use crate::call::Outcome;
use crate::value::{Image, TABLE_LIMIT, Value, Values};

/// Whether each row is below the next.
pub fn rows_ascend(images: &[Image]) -> bool
    ensures value { result ≡ rows_ascend images.now }
    ensures fact { IsTrue result ↔ Ascend images.now }
{
    is_ascending(images)
}

fn is_ascending(images: &[Image]) -> bool
    ensures { result ≡ rows_ascend images.now }
{
    let [first, others @ ..] = images else {
        return true;
    };
    let mut row = first.row;
    for image in others {
        if image.row <= row {
            return false;
        }
        row = image.row;
    }
    true
}

/// Whether there are only draws.
pub fn all_draws(values: &[Value]) -> bool
    ensures value { result ≡ all_draws values.now }
    ensures fact { IsTrue result ↔ AllByRecursion IsGoodDraw values.now }
    ensures shape { IsTrue result ↔ AllByRecursion IsDraw values.now }
{
    for value in values {
        if !is_draw(value) {
            return false;
        }
    }
    true
}

fn is_draw(value: &Value) -> bool
    ensures value { result ≡ is_draw value.now }
    ensures fact { IsTrue result ↔ IsGoodDraw value.now }
    ensures shape { IsTrue result ↔ IsDraw value.now }
{
    match value {
        Value::Draw(sequence, drawn) => {
            // Read, so that they are known to be within the limits of their types.
            let _sequence = *sequence;
            let _drawn = *drawn;
            true
        }
        _ => false,
    }
}

// Reads a value, so that its parts are known to be within the limits of their types.
fn know_value(value: &Value)
    ensures { IsValue value.now }
{
    match value {
        Value::Null => {}
        Value::Int(number) => {
            let _number = *number;
        }
        Value::Text(text) => {
            let _text = text.as_str();
        }
        Value::Row(row) => {
            let _row = *row;
        }
        Value::Draw(sequence, drawn) => {
            let _sequence = *sequence;
            let _drawn = *drawn;
        }
    }
}

fn know_values(values: &[Value])
    ensures { IsValues values.now }
{
    for value in values {
        know_value(value);
    }
}

fn is_good_row(row: &Values) -> bool
    ensures text { IsTrue result ↔ IsGoodRow row.now }
    ensures shape { IsTrue result ↔ HasValues row.now }
{
    know_values(row.as_slice());
    !row.is_empty()
}

fn are_good_rows(rows: &[Values]) -> bool
    ensures text { IsTrue result ↔ AllByRecursion IsGoodRow rows.now }
    ensures shape { IsTrue result ↔ AllByRecursion HasValues rows.now }
{
    for row in rows {
        if !is_good_row(row) {
            return false;
        }
    }
    true
}

fn is_good_image(image: &Image) -> bool
    ensures text { IsTrue result ↔ IsGoodImage image.now }
    ensures shape { IsTrue result ↔ IsShapedImage image.now }
{
    let _row = image.row;
    if image.table >= TABLE_LIMIT {
        return false;
    }
    match &image.left {
        Some(values) => is_good_row(values),
        None => true,
    }
}

fn are_good_images(images: &[Image]) -> bool
    ensures text { IsTrue result ↔ AllByRecursion IsGoodImage images.now }
    ensures shape { IsTrue result ↔ AllByRecursion IsShapedImage images.now }
{
    for image in images {
        if !is_good_image(image) {
            return false;
        }
    }
    true
}

/// Whether an outcome can be written as a text.
pub fn is_good_outcome(outcome: &Outcome) -> bool
    ensures text { IsTrue result ↔ IsGoodOutcome outcome.now }
    ensures shape { IsTrue result ↔ IsShapedOutcome outcome.now }
{
    match outcome {
        Outcome::Rows(rows) => are_good_rows(rows.as_slice()),
        Outcome::Count(count) => {
            let _count = *count;
            true
        }
        Outcome::Committed(images) => {
            are_good_images(images.as_slice()) && rows_ascend(images.as_slice())
        }
        Outcome::RolledBack
        | Outcome::Marked
        | Outcome::Connected
        | Outcome::Disconnected
        | Outcome::Refused(_) => true,
    }
}
