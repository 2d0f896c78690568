//! Whether rows have one key.

ghost use Rattle.std.specs.Prelude.{◌≡◌, ◌∷◌, map, IfOk};
ghost use Rattle.std.specs.List.{list_any};
ghost use denote.Ref.{Bor};
ghost use Rattle.desk_values.specs.declared.value.Value.{Value as AnyValue};
ghost use Rattle.desk_values.specs.Comparison.{same_key};
ghost use Rattle.sql_eval.specs.Totals.{looked_at};
ghost use Rattle.server_words.specs.Rows.{row_key};
ghost use Rattle.server_words.specs.Writes.{repeats_key};
ghost use Rattle.server_words.specs.Inside.Repeats.{id_number, id_sequence, keys_rise, order_of_keys, same_neighbours};

use crate::evaluation::Evaluation;
use crate::images::row_key;
use crate::order::column_order;
use desk_values::{Image, Memory, Value, same_key};
use std::cmp::Ordering;

/// Whether two of the rows have one key.
pub fn repeats_key(with: Evaluation<'_>, rows: &[&Image]) -> Result<bool, Memory>
    ensures { IfOk result (λ repeats. repeats ≡ repeats_key with.entry.level (map row_key (looked_at rows.now))) }
{
    let keys = keys_of(with, rows)?;
    repeat(with.level, keys)
}

/// Whether the new row has the key of another, or two others have one.
#[tactic(auto, unfolding(server_words::specs::Writes::repeats_key))]
pub fn makes_key_twice(with: Evaluation<'_>, new: &Image, rows: &[&Image]) -> Result<bool, Memory>
    ensures { IfOk result (λ b. b ≡ repeats_key with.entry.level (map row_key (new.now ∷ looked_at rows.now))) }
{
    let keys = keys_of(with, rows)?;
    if stands_among(with.level, row_key(with, new), &keys) {
        return Ok(true);
    }
    repeat(with.level, keys)
}

/// Whether two of the keys are one. Keys that rise, as those of rows mostly do, are not sorted.
fn repeat(level: u32, keys: Vec<&Value>) -> Result<bool, Memory>
    ensures { IfOk result (λ repeats. repeats ≡ repeats_key level (map (λ (key : Bor AnyValue). key.now) keys.entry.items)) }
{
    if keys_rise(level, &keys) {
        return Ok(false);
    }
    let mut keys = keys;
    keys.sort_by(|a, b| order_of_keys(level, a, b))?;
    Ok(same_neighbours(level, &keys))
}

/// Whether one of the keys is this one.
fn stands_among(level: u32, key: &Value, keys: &[&Value]) -> bool
    ensures { result ≡ list_any (same_key level key.now) (map (λ (key : Bor AnyValue). key.now) keys.now) }
{
    for other in keys {
        if same_key(level, key, *other) {
            return true;
        }
    }
    false
}

fn keys_of<'a>(with: Evaluation<'a>, rows: &[&'a Image]) -> Result<Vec<&'a Value>, Memory>
    ensures { IfOk result (λ keys. map (λ (key : Bor AnyValue). key.now) keys.items ≡ map row_key (looked_at rows.now)) }
{
    let mut keys = Vec::new(with.alloc);
    for image in rows {
        keys.push(row_key(with, image))?;
    }
    Ok(keys)
}

fn id_sequence(value: &Value) -> u32
    ensures { result ≡ id_sequence value.now }
{
    match value {
        Value::Draw(sequence, _) => *sequence,
        _ => 0,
    }
}

fn id_number(value: &Value) -> u64
    ensures { result ≡ id_number value.now }
{
    match value {
        Value::Row(number) | Value::Draw(_, number) => *number,
        _ => 0,
    }
}

/// An order in which those that are one key are equal.
fn order_of_keys(level: u32, a: &Value, b: &Value) -> Ordering
    ensures { result ≡ order_of_keys level a.now b.now }
{
    column_order(level, a, b)
        .then(id_sequence(a).cmp(&id_sequence(b)))
        .then(id_number(a).cmp(&id_number(b)))
}

/// Whether each key comes before the next.
fn keys_rise(level: u32, keys: &[&Value]) -> bool
    ensures { result ≡ keys_rise level (map (λ (key : Bor AnyValue). key.now) keys.now) }
{
    let mut rest = keys;
    while let [first, second, ..] = rest {
        if !order_of_keys(level, first, second).is_lt() {
            return false;
        }
        rest = &rest[1..];
    }
    true
}

/// Whether two keys side by side are one.
fn same_neighbours(level: u32, keys: &[&Value]) -> bool
    ensures { result ≡ same_neighbours level (map (λ (key : Bor AnyValue). key.now) keys.now) }
{
    let mut rest = keys;
    while let [first, second, ..] = rest {
        if same_key(level, first, second) {
            return true;
        }
        rest = &rest[1..];
    }
    false
}
