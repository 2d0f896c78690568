//! A connection from its first request to its end.

ghost use Rattle.std.specs.Prelude.{◌≡◌, ◌≢◌, ◌≤◌, ◌+◌, ◌^◌, ◌<◌, true, [], length, if◌then◌else◌};
ghost use Rattle.capture_http.specs.declared.conn_end.ConnEnd.TheVariants.{Memory};
ghost use Rattle.capture_http.specs.Ends.{Finishes, Serves, ends_told};
ghost use Rattle.capture_http.specs.Inside.{Halts, Refuses, TurnEnds, request_bytes};

use crate::answering::react;
use crate::conn_end::ConnEnd;
use crate::limits::REQUEST_LIMIT;
use crate::reader::Reader;
use crate::response::shortage;
use capture_recorder::CallDoor;
use desk_files::{Sink, Source};
use std::alloc::Global;
use std::sync::Wait;
use std::time::Clock;

/// Answers the requests of a connection one after another, and closes its session in the end. `Ended` after a request that
/// closes the connection, or where the input ends before a whole one; `Spent` after [`REQUEST_LIMIT`] requests; `SourceFault`
/// and `SinkFault` where the input or the output failed; `Memory` for want of memory, which is answered 503.
pub fn serve_connection<R: Clock + Wait, B: CallDoor, I: Source, O: Sink>(
    rt: &R,
    alloc: Global,
    calls: &mut B,
    input: &mut I,
    output: &mut O,
) -> ConnEnd
    ensures serves { Serves result (B.seat calls.old)
        (ends_told (I.account input.old) (O.account output.old) (B.said calls.old) (B.turned calls.old))
        (ends_told (I.account input.new) (O.account output.new) (B.said calls.new) (B.turned calls.new)) }
    ensures seat { B.seat calls.new ≡ B.seat calls.old }
    ensures closed { result ≢ Memory → B.closed calls.new ≡ true }
    ensures asked { B.asked calls.new ≡ true }
{
    let end = converse(rt, alloc, calls, input, output);
    match calls.close(rt) {
        Ok(()) => end,
        Err(_) => ConnEnd::Memory,
    }
}

// The same, but for closing the session.
fn converse<R: Clock + Wait, B: CallDoor, I: Source, O: Sink>(
    rt: &R,
    alloc: Global,
    calls: &mut B,
    input: &mut I,
    output: &mut O,
) -> ConnEnd
    ensures ends { Finishes result (B.seat calls.old)
        (ends_told (I.account input.old) (O.account output.old) (B.said calls.old) (B.turned calls.old))
        (ends_told (I.account input.new) (O.account output.new) (B.said calls.new) (B.turned calls.new)) }
    ensures seat { B.seat calls.new ≡ B.seat calls.old }
{
    match answer_requests(rt, alloc, calls, input, output) {
        ConnEnd::Memory => {
            refuse(output);
            ConnEnd::Memory
        }
        end => end,
    }
}

// Writes the answer where memory is short. The connection ends in any case, so that a fault changes nothing.
#[tactic(auto, using(crate::proofs::Halting::refuses))]
fn refuse<O: Sink>(output: &mut O)
    ensures { Refuses (O.account output.old).content (O.account output.new).content (O.account output.old).faults (O.account output.new).faults }
{
    let _written = output.write(shortage());
}

// The same, but for the answer where memory is short.
fn answer_requests<R: Clock + Wait, B: CallDoor, I: Source, O: Sink>(
    rt: &R,
    alloc: Global,
    calls: &mut B,
    input: &mut I,
    output: &mut O,
) -> ConnEnd
    ensures ends { Halts result (B.seat calls.old)
        (ends_told (I.account input.old) (O.account output.old) (B.said calls.old) (B.turned calls.old))
        (ends_told (I.account input.new) (O.account output.new) (B.said calls.new) (B.turned calls.new)) }
    ensures seat { B.seat calls.new ≡ B.seat calls.old }
{
    match Reader::new(alloc) {
        Ok(mut reader) => answer_each(rt, alloc, calls, input, output, &mut reader),
        Err(_) => ConnEnd::Memory,
    }
}

// The same, where nothing was read yet.
fn answer_each<R: Clock + Wait, B: CallDoor, I: Source, O: Sink>(
    rt: &R,
    alloc: Global,
    calls: &mut B,
    input: &mut I,
    output: &mut O,
    reader: &mut Reader,
) -> ConnEnd
    requires { reader.old ≡ [] }
    ensures ends { Halts result (B.seat calls.old)
        (ends_told (I.account input.old) (O.account output.old) (B.said calls.old) (B.turned calls.old))
        (ends_told (I.account input.new) (O.account output.new) (B.said calls.new) (B.turned calls.new)) }
    ensures seat { B.seat calls.new ≡ B.seat calls.old }
{
    let mut count = 0;
    for _n in 0..REQUEST_LIMIT - 1 {
        match answer_next(rt, alloc, calls, input, output, reader, &mut count) {
            Ok(true) => return ConnEnd::Ended,
            Ok(false) => {}
            Err(end) => return end,
        }
    }
    match answer_next(rt, alloc, calls, input, output, reader, &mut count) {
        Ok(_) => ConnEnd::Spent,
        Err(end) => end,
    }
}

// Answers the next request, and says whether the connection closes then. `count` is how many calls were answered 200.
fn answer_next<R: Clock + Wait, B: CallDoor, I: Source, O: Sink>(
    rt: &R,
    alloc: Global,
    calls: &mut B,
    input: &mut I,
    output: &mut O,
    reader: &mut Reader,
    count: &mut u32,
) -> Result<bool, ConnEnd>
    requires room { count.old + 1 < 2 ^ 32 }
    requires few { length reader.old ≤ request_bytes }
    ensures turn { TurnEnds result (B.seat calls.old) count.old count.new reader.old reader.new
        (ends_told (I.account input.old) (O.account output.old) (B.said calls.old) (B.turned calls.old))
        (ends_told (I.account input.new) (O.account output.new) (B.said calls.new) (B.turned calls.new)) }
    ensures seat { B.seat calls.new ≡ B.seat calls.old }
{
    let request = match reader.next_request(input) {
        Ok(request) => request,
        Err(end) => return Err(end),
    };
    let body = &reader.bytes()[request.head..request.len()];
    let reaction = match react(rt, alloc, calls, &request.decision, body, *count) {
        Ok(reaction) => reaction,
        Err(_) => return Err(ConnEnd::Memory),
    };
    let written = output.write(reaction.text.as_slice());
    reader.take(request.len());
    if written.is_err() {
        return Err(ConnEnd::SinkFault);
    }
    *count = counted(*count, reaction.replied);
    Ok(request.decision.closes)
}

// The number of calls that were answered 200, after one more answer.
fn counted(count: u32, replied: bool) -> u32
    requires { count + 1 < 2 ^ 32 }
    ensures { result ≡ count + (if replied then 1 else 0) }
{
    if replied { count + 1 } else { count }
}
