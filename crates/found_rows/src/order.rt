//! The order of rows.

ghost use Rattle.std.specs.Prelude.{◌≡◌, IfOk};
ghost use Rattle.sql_eval.specs.Totals.{looked_at};
ghost use Rattle.server_words.specs.Found.{column_order, key_order, kind_place, ordered, row_order, value_at};

use crate::evaluation::Evaluation;
use crate::found::values_of;
use desk_values::{Image, Memory, Value, value_order};
use sql_eval::ReadyKey;
use std::cmp::Ordering;

/// The rows in the order of these columns, those that are equal in them by their numbers.
pub fn ordered<'a>(
    with: Evaluation<'_>,
    keys: &[ReadyKey],
    found: Vec<&'a Image>,
) -> Result<Vec<&'a Image>, Memory>
    ensures { IfOk result (λ rows. looked_at rows.items ≡ ordered with.entry.level keys.now (looked_at found.entry.items)) }
{
    let mut rows = found;
    rows.sort_by(|a, b| row_order(with, keys, a, b))?;
    Ok(rows)
}

/// The order of two rows.
fn row_order(with: Evaluation<'_>, keys: &[ReadyKey], a: &Image, b: &Image) -> Ordering
    ensures { result ≡ row_order with.entry.level keys.now a.now b.now }
{
    for key in keys {
        let order = key_order(with, key, a, b);
        if order.is_ne() {
            return order;
        }
    }
    a.row.cmp(&b.row)
}

/// The order of two rows by one column.
fn key_order(with: Evaluation<'_>, key: &ReadyKey, a: &Image, b: &Image) -> Ordering
    ensures { result ≡ key_order with.entry.level key.now a.now b.now }
{
    let a = value_at(with, a, key.column);
    let b = value_at(with, b, key.column);
    let order = column_order(with.level, a, b);
    if key.desc { order.reverse() } else { order }
}

/// The value of a row in a column, Null where it has none.
fn value_at<'a>(with: Evaluation<'a>, image: &'a Image, column: u32) -> &'a Value
    ensures { result.now ≡ value_at image.now column }
{
    match values_of(with, image).get(column as usize) {
        Some(value) => value,
        None => with.null,
    }
}

/// The place of a value of this kind where two values have no order: Null is the last.
fn kind_place(value: &Value) -> u8
    ensures { result ≡ kind_place value.now }
{
    match value {
        Value::Int(_) => 0,
        Value::Text(_) => 1,
        Value::Row(_) => 2,
        Value::Draw(_, _) => 3,
        Value::Null => 4,
    }
}

/// The order of two values of a column.
pub fn column_order(level: u32, a: &Value, b: &Value) -> Ordering
    ensures { result ≡ column_order level a.now b.now }
{
    match value_order(level, a, b) {
        Some(order) => order,
        None => kind_place(a).cmp(&kind_place(b)),
    }
}
