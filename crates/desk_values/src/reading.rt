//! Values from their texts.

ghost use Rattle.std.specs.Prelude.{◌≡◌, ◌≤◌, List, Some, IfOk};
ghost use Rattle.std.specs.Option.{option_copied};
ghost use Rattle.desk_values.specs.declared.value.Value.{Value};
ghost use Rattle.desk_values.specs.Good.{IsValue, IsValues};
ghost use Rattle.desk_values.specs.Text.{value_text, values_text};
ghost use Rattle.desk_values.specs.Reading.{Reads, draw_of, value_of, items_of, inside_of, values_of};

use crate::escape::read_escaped;
use crate::fields::{cut, cut_near, read_i64, read_u32, read_u64};
use crate::list::List;
use crate::read_err::ReadErr;
use crate::value::{Value, Values};
use std::alloc::Global;

/// The value that all the bytes spell. `Bad` where they spell none.
pub fn read_value(alloc: Global, bytes: &[u8]) -> Result<Value, ReadErr>
    ensures ok { IfOk result (λ value. IsValue value × (bytes.now ≡ value_text value)) }
    ensures only { (value : Value) → IsValue value → bytes.now ≡ value_text value → Reads result (Some value) }
    ensures value { Reads result (value_of bytes.now) }
{
    value(alloc, bytes)
}

#[tactic(auto, unfolding(crate::specs::Reading::value_of))]
fn value(alloc: Global, bytes: &[u8]) -> Result<Value, ReadErr>
    ensures { Reads result (value_of bytes.now) }
{
    match bytes {
        b"-" => Ok(Value::Null),
        [b'i', rest @ ..] => Ok(Value::Int(read_i64(rest).ok_or(ReadErr::Bad)?)),
        [b't', rest @ ..] => Ok(Value::Text(read_escaped(alloc, rest)?)),
        [b'r', rest @ ..] => Ok(Value::Row(read_u64(rest).ok_or(ReadErr::Bad)?)),
        [b'd', rest @ ..] => draw(rest).ok_or(ReadErr::Bad),
        _ => Err(ReadErr::Bad),
    }
}

#[tactic(auto, unfolding(crate::specs::Reading::draw_of))]
fn draw(bytes: &[u8]) -> Option<Value>
    ensures { result ≡ draw_of bytes.now }
{
    let (sequence, drawn) = cut_near(bytes, b'.')?;
    Some(Value::Draw(read_u32(sequence)?, read_u64(drawn)?))
}

/// The values that all the bytes spell: `[`, values with a comma between, `]`. `Bad` where they spell none.
pub fn read_values(alloc: Global, bytes: &[u8]) -> Result<Values, ReadErr>
    ensures ok { IfOk result (λ values. IsValues values × (bytes.now ≡ values_text values)) }
    ensures only { (values : List Value) → IsValues values → bytes.now ≡ values_text values → Reads result (Some values) }
    ensures value { Reads result (values_of bytes.now) }
{
    values(alloc, bytes)
}

#[tactic(auto, unfolding(crate::specs::Reading::values_of))]
fn values(alloc: Global, bytes: &[u8]) -> Result<Values, ReadErr>
    ensures { Reads result (values_of bytes.now) }
{
    let inside = inside(bytes).ok_or(ReadErr::Bad)?;
    if inside.is_empty() {
        return Ok(List::new(alloc));
    }
    let mut values = items(alloc, inside)?;
    values.fit();
    Ok(values)
}

// What stands in the brackets.
#[tactic(auto, unfolding(crate::specs::Reading::inside_of))]
fn inside(bytes: &[u8]) -> Option<&[u8]>
    ensures { option_copied result ≡ inside_of bytes.now }
{
    let [b'[', rest @ ..] = bytes else {
        return None;
    };
    let (inside, rest) = cut(rest, b']')?;
    if rest.is_empty() { Some(inside) } else { None }
}

// Values with a comma between, at least one.
fn items(alloc: Global, bytes: &[u8]) -> Result<Values, ReadErr>
    ensures { Reads result (items_of bytes.now) }
{
    let mut values = List::with_capacity(alloc, room_for(bytes))?;
    let mut rest = bytes;
    while let Some((item, after)) = cut_near(rest, b',') {
        values.push(value(alloc, item)?)?;
        rest = after;
    }
    values.push(value(alloc, rest)?)?;
    Ok(values)
}

// The room to begin with: that of all values, but never more than 16, so that a field of many commas takes little.
fn room_for(bytes: &[u8]) -> usize
    ensures { result ≤ 16 }
{
    let commas = bytes.iter().filter(|byte| **byte == b',').take(15).count();
    commas + 1
}
