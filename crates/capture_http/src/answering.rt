//! What comes of a request.

ghost use Rattle.std.specs.Prelude.{◌≡◌, ℕ, false, true, [], IfOk};
ghost use Rattle.call_json.specs.Forms.{reply_text};
ghost use Rattle.http_requests.specs.declared.decision.Verdict.TheVariants.{Call as Asking};
ghost use Rattle.capture_http.specs.Answers.{response, session_text};
ghost use Rattle.capture_http.specs.Inside.{IsAnswer, Reacts};

use crate::response::{response, session_text};
use call_json::{JsonErr, call_from_json, reply_to_json};
use capture_recorder::{CallDoor, CallErr};
use desk_values::{Bytes, Memory, Reply};
use http::StatusCode;
use http_requests::{Decision, Verdict};
use std::alloc::Global;
use std::sync::Wait;
use std::time::Clock;

/// What is answered to a request.
#[derive(Drop)]
pub(crate) struct Reaction {
    /// The bytes of the answer.
    pub(crate) text: Bytes,
    /// Whether a call was answered 200.
    pub(crate) replied: bool,
}

/// What comes of a request of which this was decided, after `count` calls that were answered 200.
pub(crate) fn react<R: Clock + Wait, B: CallDoor>(
    rt: &R,
    alloc: Global,
    calls: &mut B,
    decision: &Decision,
    body: &[u8],
    count: u32,
) -> Result<Reaction, Memory>
    ensures reacts { Reacts (B.seat calls.old) count decision.now body.now result
        (B.said calls.old) (B.said calls.new) (B.turned calls.old) (B.turned calls.new) }
    ensures seat { B.seat calls.new ≡ B.seat calls.old }
{
    match &decision.verdict {
        Verdict::Refused(status) => plain(alloc, *status, decision.closes),
        Verdict::Session => tell_session(alloc, decision.closes, count, calls.session()),
        Verdict::Call => ask(rt, alloc, calls, decision, body),
    }
}

// What comes of a body that is to be a call.
fn ask<R: Clock + Wait, B: CallDoor>(
    rt: &R,
    alloc: Global,
    calls: &mut B,
    decision: &Decision,
    body: &[u8],
) -> Result<Reaction, Memory>
    requires { decision.now.verdict ≡ Asking }
    ensures reacts { (count : ℕ) → Reacts (B.seat calls.old) count decision.now body.now result
        (B.said calls.old) (B.said calls.new) (B.turned calls.old) (B.turned calls.new) }
    ensures seat { B.seat calls.new ≡ B.seat calls.old }
{
    let closes = decision.closes;
    let call = match call_from_json(alloc, body) {
        Ok(call) => call,
        Err(JsonErr::NotOne) => return plain(alloc, StatusCode::BAD_REQUEST, closes),
        Err(JsonErr::Memory) => return Err(Memory),
    };
    match calls.call(rt, &call) {
        Ok(reply) => tell_reply(alloc, closes, &reply),
        Err(CallErr::Stranger) => plain(alloc, StatusCode::BAD_REQUEST, closes),
        Err(CallErr::Full) => plain(alloc, StatusCode::CONFLICT, closes),
        Err(CallErr::Memory) => Err(Memory),
    }
}

// An answer with no body.
fn plain(alloc: Global, status: StatusCode, closes: bool) -> Result<Reaction, Memory>
    ensures { IfOk result (IsAnswer (response status closes []) false) }
{
    Ok(Reaction {
        text: response(alloc, status, closes, b"")?,
        replied: false,
    })
}

// The session's number, and how many of its calls were answered 200.
fn tell_session(alloc: Global, closes: bool, count: u32, session: u32) -> Result<Reaction, Memory>
    ensures { IfOk result (IsAnswer (response 200 closes (session_text count session)) false) }
{
    let body = session_text(alloc, count, session)?;
    Ok(Reaction {
        text: response(alloc, StatusCode::OK, closes, body.as_slice())?,
        replied: false,
    })
}

// The server's reply.
fn tell_reply(alloc: Global, closes: bool, reply: &Reply) -> Result<Reaction, Memory>
    ensures { IfOk result (IsAnswer (response 200 closes (reply_text reply.now)) true) }
{
    let body = reply_to_json(alloc, reply)?;
    Ok(Reaction {
        text: response(alloc, StatusCode::OK, closes, body.as_slice())?,
        replied: true,
    })
}
