//! Values from JSON values.

ghost use Rattle.std.specs.Prelude.{◌≡◌, option_and_then};
ghost use Rattle.serde_json.specs.Find.{as_array, as_str};
ghost use Rattle.serde_json.specs.View.{items_view, members_view, number_view, view};
ghost use Rattle.call_json.specs.Inside.Reading.{Reads, each_in, id_in, integer_in, small_in, text_in, value_in, values_in, short_text};

use crate::json_err::JsonErr;
use crate::members::{both, only};
use desk_values::{List, Txt, TxtErr, Value, Values};
use serde_json::{Map, Number, Value as Json};
use std::alloc::Global;

// A text of at most 1,000 bytes.
fn short_text(alloc: Global, text: &str) -> Result<Txt, JsonErr>
    ensures { Reads result (short_text text.now) }
{
    match Txt::from_bytes(alloc, text.as_bytes()) {
        Ok(text) => Ok(text),
        Err(TxtErr::Memory) => Err(JsonErr::Memory),
        Err(_) => Err(JsonErr::NotOne),
    }
}

/// The text that a JSON value is.
pub(crate) fn text_in(alloc: Global, json: &Json) -> Result<Txt, JsonErr>
    ensures { Reads result (text_in (view json.now)) }
{
    let text = json.as_str().ok_or(JsonErr::NotOne)?;
    short_text(alloc, text)
}

// A whole number of 64 bits with sign.
fn integer_in(number: &Number) -> Option<i64>
    ensures { result ≡ integer_in (number_view number.now) }
{
    number.as_i64()
}

/// A whole number below 2^32.
pub(crate) fn small_in(json: &Json) -> Option<u32>
    ensures { result ≡ small_in (view json.now) }
{
    u32::try_from(json.as_u64()?).ok()
}

// An id: a row, or a value drawn from a sequence.
fn id_in(members: &Map<String, Json>) -> Option<Value>
    ensures { result ≡ id_in (members_view members.now.entries) }
{
    if let Some(row) = only(members, "row") {
        return Some(Value::Row(row.as_u64()?));
    }
    let (drawn, sequence) = both(members, "draw", "seq")?;
    Some(Value::Draw(small_in(sequence)?, drawn.as_u64()?))
}

/// The value that a JSON value is.
pub(crate) fn value_in(alloc: Global, json: &Json) -> Result<Value, JsonErr>
    ensures { Reads result (value_in (view json.now)) }
{
    match json {
        Json::Null => Ok(Value::Null),
        Json::Number(number) => Ok(Value::Int(integer_in(number).ok_or(JsonErr::NotOne)?)),
        Json::String(text) => Ok(Value::Text(short_text(alloc, text.as_str())?)),
        Json::Object(members) => id_in(members).ok_or(JsonErr::NotOne),
        Json::Bool(_) | Json::Array(_) => Err(JsonErr::NotOne),
    }
}

/// The values that the items of an array are.
pub(crate) fn values_in(alloc: Global, json: &Json) -> Result<Values, JsonErr>
    ensures { Reads result (values_in (view json.now)) }
{
    let items = json.as_array().ok_or(JsonErr::NotOne)?;
    each_value(alloc, items.as_slice())
}

fn each_value(alloc: Global, items: &[Json]) -> Result<Values, JsonErr>
    ensures { Reads result (each_in value_in (items_view items.now)) }
{
    let mut values = List::with_capacity(alloc, items.len())?;
    for json in items {
        values.push(value_in(alloc, json)?)?;
    }
    Ok(values)
}
