ghost use Rattle.std.specs.Prelude.{IsTrue, ◌↔◌};
ghost use Rattle.std.specs.List.{AllByRecursion};
ghost use Rattle.remap_ids.specs.Sent.{HasLowIds, IsLow};

use desk_values::{Call, Value};

/// What is added to an id that has no image, so that it is none that a server gives out: those are below it.
pub const UNKNOWN_FROM: u64 = 1 << 40;

/// Whether each id among the call's binds is below [`UNKNOWN_FROM`], as every id is that a server gives out.
pub fn has_low_ids(call: &Call) -> bool
    ensures { IsTrue result ↔ HasLowIds call.now }
{
    match call {
        Call::Sql(_, binds) => are_low(binds.as_slice()),
        Call::Connect(_) | Call::Disconnect => true,
    }
}

fn are_low(values: &[Value]) -> bool
    ensures { IsTrue result ↔ AllByRecursion IsLow values.now }
{
    for value in values {
        if !is_low(value) {
            return false;
        }
    }
    true
}

fn is_low(value: &Value) -> bool
    ensures { IsTrue result ↔ IsLow value.now }
{
    match value {
        Value::Row(number) | Value::Draw(_, number) => *number < UNKNOWN_FROM,
        Value::Null | Value::Int(_) | Value::Text(_) => true,
    }
}
