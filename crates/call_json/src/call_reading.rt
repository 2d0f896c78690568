//! Calls from JSON values.

ghost use Rattle.std.specs.Prelude.{◌≡◌};
ghost use Rattle.serde_json.specs.View.{members_view, view};
ghost use Rattle.call_json.specs.Inside.Reading.{Reads, is_yes};
ghost use Rattle.call_json.specs.Inside.CallReading.{binds_in, bound_in, call_in, members_in};

use crate::json_err::JsonErr;
use crate::members::{both, sole};
use crate::value_reading::{text_in, values_in};
use desk_values::{BIND_LIMIT, Binds, Call};
use serde_json::{Map, Value as Json};
use std::alloc::Global;

/// Whether a JSON value is `true`.
pub(crate) fn is_yes(json: &Json) -> bool
    ensures { result ≡ is_yes (view json.now) }
{
    json.as_bool().unwrap_or(false)
}

// At most 16 values.
fn binds_in(alloc: Global, json: &Json) -> Result<Binds, JsonErr>
    ensures { Reads result (binds_in (view json.now)) }
{
    let values = values_in(alloc, json)?;
    if values.len() > BIND_LIMIT {
        return Err(JsonErr::NotOne);
    }
    Ok(Binds::from_values(values))
}

// A statement and the values of its binds.
fn bound_in(alloc: Global, members: &Map<String, Json>) -> Result<Call, JsonErr>
    ensures { Reads result (bound_in (members_view members.now.entries)) }
{
    let (binds, text) = both(members, "binds", "sql").ok_or(JsonErr::NotOne)?;
    let text = text_in(alloc, text)?;
    Ok(Call::Sql(text, binds_in(alloc, binds)?))
}

fn members_in(alloc: Global, members: &Map<String, Json>) -> Result<Call, JsonErr>
    ensures { Reads result (members_in (members_view members.now.entries)) }
{
    let Some((key, json)) = sole(members) else {
        return bound_in(alloc, members);
    };
    match key {
        "connect" => Ok(Call::Connect(text_in(alloc, json)?)),
        "sql" => Ok(Call::Sql(text_in(alloc, json)?, Binds::new(alloc))),
        "disconnect" => {
            if is_yes(json) {
                Ok(Call::Disconnect)
            } else {
                Err(JsonErr::NotOne)
            }
        }
        _ => Err(JsonErr::NotOne),
    }
}

/// The call that a JSON value is.
pub(crate) fn call_in(alloc: Global, json: &Json) -> Result<Call, JsonErr>
    ensures { Reads result (call_in (view json.now)) }
{
    let members = json.as_object().ok_or(JsonErr::NotOne)?;
    members_in(alloc, members)
}
