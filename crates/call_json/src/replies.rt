ghost use Rattle.std.specs.Prelude.{◌≡◌, ℕ, IfOk, IsErrOf};
ghost use Rattle.desk_values.specs.declared.call.Reply.{Reply};
ghost use Rattle.desk_values.specs.Good.{IsGoodReply};
ghost use Rattle.call_json.specs.Forms.{reply_text};
ghost use Rattle.call_json.specs.Spellings.{IsReplyJson};

use crate::json_err::JsonErr;
use crate::reply_reading::reply_in;
use crate::reply_writing::push_reply;
use crate::spelled_reply::reply_as_written;
use crate::writing::ROOM;
use desk_values::{Bytes, Memory, Reply};
use json::Writer;
use serde_json::Value as Json;
use std::alloc::Global;

/// The JSON text of a reply, with no blanks and with ascending keys: `{"draws":[],"made":null,"outcome":{"count":1}}`. It
/// fails for want of memory alone. That of a good reply is read back as that reply.
pub fn reply_to_json(alloc: Global, reply: &Reply) -> Result<Bytes, Memory>
    ensures text { IfOk result (λ bytes. bytes ≡ reply_text reply.now) }
    ensures reads_back { IfOk result (λ bytes. IsGoodReply reply.now → IsReplyJson bytes reply.now) }
{
    let room = Vec::with_capacity(alloc, ROOM)?;
    let mut text = Writer::new(room);
    push_reply(reply, &mut text)?;
    Ok(Bytes::from_vec(text.into_inner()))
}

/// The reply that all the bytes are a JSON text of, in any order and spacing of its keys. Numbers have no point and no
/// exponent. `NotOne` exactly where the bytes are a text of no good reply.
pub fn reply_from_json(alloc: Global, bytes: &[u8]) -> Result<Reply, JsonErr>
    ensures ok { IfOk result (λ reply. IsReplyJson bytes.now reply) }
    ensures not_one { IsErrOf result JsonErr.NotOne → (reply : Reply) → ¬ IsReplyJson bytes.now reply }
{
    if let Some(reply) = reply_as_written(alloc, bytes) {
        if reply.good() {
            return Ok(reply);
        }
    }
    reply_of_value(alloc, bytes)
}

// The same, by way of the JSON value.
fn reply_of_value(alloc: Global, bytes: &[u8]) -> Result<Reply, JsonErr>
    ensures ok { IfOk result (λ reply. IsReplyJson bytes.now reply) }
    ensures not_one { IsErrOf result JsonErr.NotOne → (reply : Reply) → ¬ IsReplyJson bytes.now reply }
{
    match Json::from_slice(alloc, bytes) {
        Ok(json) => {
            let reply = reply_in(alloc, &json)?;
            if reply.good() {
                Ok(reply)
            } else {
                Err(JsonErr::NotOne)
            }
        }
        Err(error) => {
            if error.is_memory() {
                Err(JsonErr::Memory)
            } else {
                Err(JsonErr::NotOne)
            }
        }
    }
}
