//! Values as their texts.

ghost use Rattle.std.specs.Prelude.{◌≡◌, ◌++◌, ◌∷◌, map, OnOk, OnErr};
ghost use Rattle.std.specs.List.{flat_map, join_with_byte};
ghost use Rattle.desk_values.specs.Inside.{IsKept};
ghost use Rattle.desk_values.specs.Text.{value_text, values_text};

use crate::escape::push_text;
use crate::fields::{append_i64, append_u64};
use crate::memory::Memory;
use crate::value::{Bytes, Value};

/// Appends the one text of a value. An `Err` changes nothing.
pub fn write_value(v: &Value, to: &mut Bytes) -> Result<(), Memory>
    ensures ok { OnOk result (to.new ≡ to.old ++ value_text v.now) }
    ensures err { OnErr result (to.new ≡ to.old) }
{
    let len = to.len();
    let written = push_value(v, to);
    to.cut_back_on_err(len, written)
}

/// Appends the one text of a list of values. An `Err` changes nothing.
pub fn write_values(values: &[Value], to: &mut Bytes) -> Result<(), Memory>
    ensures ok { OnOk result (to.new ≡ to.old ++ values_text values.now) }
    ensures err { OnErr result (to.new ≡ to.old) }
{
    let len = to.len();
    let written = push_values(values, to);
    to.cut_back_on_err(len, written)
}

#[tactic(auto, using(crate::proofs::Keeping::kept_further))]
fn push_value(value: &Value, to: &mut Bytes) -> Result<(), Memory>
    ensures ok { OnOk result (to.new ≡ to.old ++ value_text value.now) }
    ensures kept { OnErr result (IsKept to.old to.new) }
{
    match value {
        Value::Null => to.push(b'-'),
        Value::Int(number) => {
            to.push(b'i')?;
            append_i64(*number, to)
        }
        Value::Text(text) => push_text(text, to),
        Value::Row(row) => {
            to.push(b'r')?;
            append_u64(*row, to)
        }
        Value::Draw(sequence, drawn) => {
            to.push(b'd')?;
            append_u64(u64::from(*sequence), to)?;
            to.push(b'.')?;
            append_u64(*drawn, to)
        }
    }
}

#[tactic(auto, using(crate::proofs::Keeping::kept_further))]
fn push_values(values: &[Value], to: &mut Bytes) -> Result<(), Memory>
    ensures ok { OnOk result (to.new ≡ to.old ++ values_text values.now) }
    ensures kept { OnErr result (IsKept to.old to.new) }
{
    to.push(b'[')?;
    push_items(values, to)?;
    to.push(b']')
}

// The values with a comma between.
#[tactic(auto, using(crate::proofs::Keeping::kept_further))]
fn push_items(values: &[Value], to: &mut Bytes) -> Result<(), Memory>
    ensures ok { OnOk result (to.new ≡ to.old ++ join_with_byte 44 (map value_text values.now)) }
    ensures kept { OnErr result (IsKept to.old to.new) }
{
    let [first, others @ ..] = values else {
        return Ok(());
    };
    push_value(first, to)?;
    push_more(others, to)?;
    Ok(())
}

// Each value behind a comma.
#[tactic(auto, using(crate::proofs::Keeping::kept_further))]
fn push_more(values: &[Value], to: &mut Bytes) -> Result<(), Memory>
    ensures ok { OnOk result (to.new ≡ to.old ++ flat_map (λ value. 44 ∷ value_text value) values.now) }
    ensures kept { OnErr result (IsKept to.old to.new) }
{
    for value in values {
        to.push(b',')?;
        push_value(value, to)?;
    }
    Ok(())
}
