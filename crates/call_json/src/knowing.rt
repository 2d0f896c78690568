//! What the types of a call say of its parts, for clauses. Reading them costs nothing where it is done to prove.

ghost use Rattle.std.specs.Prelude.{IsTrue};
ghost use Rattle.desk_values.specs.Good.{IsCall, IsTxt, IsValue, IsValues};

use desk_values::{Call, Txt, Value};

fn has_text(text: &Txt) -> bool
    ensures holds { IsTrue result }
    ensures limits { IsTxt text.now }
{
    let _text = text.as_str();
    true
}

fn has_value(value: &Value) -> bool
    ensures holds { IsTrue result }
    ensures limits { IsValue value.now }
{
    match value {
        Value::Null => true,
        Value::Int(number) => {
            let _number = *number;
            true
        }
        Value::Text(text) => has_text(text),
        Value::Row(row) => {
            let _row = *row;
            true
        }
        Value::Draw(sequence, drawn) => {
            let _sequence = *sequence;
            let _drawn = *drawn;
            true
        }
    }
}

fn has_values(values: &[Value]) -> bool
    ensures holds { IsTrue result }
    ensures limits { IsValues values.now }
{
    for value in values {
        has_value(value);
    }
    true
}

/// A call is within the limits of its types.
pub(crate) fn has_limits(call: &Call) -> bool
    ensures holds { IsTrue result }
    ensures limits { IsCall call.now }
{
    match call {
        Call::Connect(service) => has_text(service),
        Call::Sql(text, binds) => has_text(text) && has_values(binds.as_slice()),
        Call::Disconnect => true,
    }
}

/// A call is within the limits of its types. It does nothing: its contract is a law.
pub fn know_limits(call: &Call)
    ensures { IsCall call.now }
{
    prove!(has_limits(call));
}
