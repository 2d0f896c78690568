//! Values as tokens of JSON.

ghost use Rattle.std.specs.Prelude.{◌≡◌, true, ◌++◌, OnOk};
ghost use Rattle.std.specs.List.{flat_map};
ghost use Rattle.serde_json.specs.Data.{boolean, string};
ghost use Rattle.call_json.specs.Forms.{count_data, object_of_one, value_data, values_data};
ghost use Rattle.call_json.specs.Inside.Tokens.{data_tokens, member_tokens, value_tokens};

use desk_values::{Txt, Value};
use json::{Token, Writer};
use std::alloc::AllocError;

/// The room that a text begins with: most take no more.
pub(crate) const ROOM: usize = 128;

/// A key and the number there.
pub(crate) fn push_count(key: &str, count: u64, to: &mut Writer) -> Result<(), AllocError>
    ensures tokens { OnOk result (to.new.tokens ≡ to.old.tokens ++ member_tokens key.now (count_data count)) }
    ensures before { OnOk result (to.new.before ≡ to.old.before) }
{
    to.key(key)?;
    to.u64(count)
}

/// A key and the text there.
pub(crate) fn push_text(key: &str, text: &Txt, to: &mut Writer) -> Result<(), AllocError>
    ensures tokens { OnOk result (to.new.tokens ≡ to.old.tokens ++ member_tokens key.now (string text.now)) }
    ensures before { OnOk result (to.new.before ≡ to.old.before) }
{
    to.key(key)?;
    to.string(text.as_str())
}

/// A key and the values there.
pub(crate) fn push_list(key: &str, values: &[Value], to: &mut Writer) -> Result<(), AllocError>
    ensures tokens { OnOk result (to.new.tokens ≡ to.old.tokens ++ member_tokens key.now (values_data values.now)) }
    ensures before { OnOk result (to.new.before ≡ to.old.before) }
{
    to.key(key)?;
    push_values(values, to)
}

/// An object of one key, which is so.
pub(crate) fn push_yes(key: &str, to: &mut Writer) -> Result<(), AllocError>
    ensures tokens { OnOk result (to.new.tokens ≡ to.old.tokens ++ data_tokens (object_of_one key.now (boolean true))) }
    ensures before { OnOk result (to.new.before ≡ to.old.before) }
{
    to.begin_object()?;
    to.key(key)?;
    to.token(Token::Bool(true))?;
    to.end_object()
}

/// A value.
pub(crate) fn push_value(value: &Value, to: &mut Writer) -> Result<(), AllocError>
    ensures tokens { OnOk result (to.new.tokens ≡ to.old.tokens ++ data_tokens (value_data value.now)) }
    ensures before { OnOk result (to.new.before ≡ to.old.before) }
{
    match value {
        Value::Null => to.token(Token::Null),
        Value::Int(number) => to.i64(*number),
        Value::Text(text) => to.string(text.as_str()),
        Value::Row(row) => {
            to.begin_object()?;
            push_count("row", *row, to)?;
            to.end_object()
        }
        Value::Draw(sequence, drawn) => {
            to.begin_object()?;
            push_count("draw", *drawn, to)?;
            push_count("seq", u64::from(*sequence), to)?;
            to.end_object()
        }
    }
}

/// A list of values.
pub(crate) fn push_values(values: &[Value], to: &mut Writer) -> Result<(), AllocError>
    ensures tokens { OnOk result (to.new.tokens ≡ to.old.tokens ++ data_tokens (values_data values.now)) }
    ensures before { OnOk result (to.new.before ≡ to.old.before) }
{
    to.begin_array()?;
    push_items(values, to)?;
    to.end_array()?;
    Ok(())
}

// One after the other.
fn push_items(values: &[Value], to: &mut Writer) -> Result<(), AllocError>
    ensures tokens { OnOk result (to.new.tokens ≡ to.old.tokens ++ flat_map value_tokens values.now) }
    ensures before { OnOk result (to.new.before ≡ to.old.before) }
{
    for value in values {
        push_value(value, to)?;
    }
    Ok(())
}
