ghost use Rattle.std.specs.Prelude.{◌≡◌, ℕ, IfOk, IsErrOf};
ghost use Rattle.desk_values.specs.declared.call.Call.{Call};
ghost use Rattle.call_json.specs.Forms.{call_text};
ghost use Rattle.call_json.specs.Spellings.{IsCallJson};

use crate::call_reading::call_in;
use crate::call_writing::push_call;
use crate::json_err::JsonErr;
use crate::knowing::has_limits;
use crate::spelled_call::statement_as_written;
use crate::writing::ROOM;
use desk_values::{Bytes, Call, Memory};
use json::Writer;
use serde_json::Value as Json;
use std::alloc::Global;

/// The JSON text of a call, with no blanks and with ascending keys: `{"connect":"main"}`,
/// `{"binds":[1],"sql":"COMMIT"}`, `{"disconnect":true}`. It fails for want of memory alone.
pub fn call_to_json(alloc: Global, call: &Call) -> Result<Bytes, Memory>
    ensures text { IfOk result (λ bytes. bytes ≡ call_text call.now) }
    ensures reads_back { IfOk result (λ bytes. IsCallJson bytes call.now) }
{
    prove!(has_limits(call));
    let room = Vec::with_capacity(alloc, ROOM)?;
    let mut text = Writer::new(room);
    push_call(call, &mut text)?;
    Ok(Bytes::from_vec(text.into_inner()))
}

/// The call that all the bytes are a JSON text of, in any order and spacing of its keys; `binds` may be left out where there
/// are none. Numbers have no point and no exponent. `NotOne` exactly where the bytes are a text of no call.
pub fn call_from_json(alloc: Global, bytes: &[u8]) -> Result<Call, JsonErr>
    ensures ok { IfOk result (λ call. IsCallJson bytes.now call) }
    ensures not_one { IsErrOf result JsonErr.NotOne → (call : Call) → ¬ IsCallJson bytes.now call }
{
    match statement_as_written(alloc, bytes) {
        Some(call) => {
            prove!(has_limits(&call));
            Ok(call)
        }
        None => call_of_value(alloc, bytes),
    }
}

// The same, by way of the JSON value.
fn call_of_value(alloc: Global, bytes: &[u8]) -> Result<Call, JsonErr>
    ensures ok { IfOk result (λ call. IsCallJson bytes.now call) }
    ensures not_one { IsErrOf result JsonErr.NotOne → (call : Call) → ¬ IsCallJson bytes.now call }
{
    match Json::from_slice(alloc, bytes) {
        Ok(json) => {
            let call = call_in(alloc, &json)?;
            prove!(has_limits(&call));
            Ok(call)
        }
        Err(error) => {
            if error.is_memory() {
                Err(JsonErr::Memory)
            } else {
                Err(JsonErr::NotOne)
            }
        }
    }
}
