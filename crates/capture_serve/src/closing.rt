//! Sessions that are still connected are closed.

ghost use Rattle.std.specs.Prelude.{◌≡◌, ◌≤◌, ◌<◌, ℕ, false, length, IfOk, OnOk};
ghost use Rattle.server_words.specs.State.{is_connected};
ghost use Rattle.capture_recorder.specs.Gathering.{lists_of};
ghost use Rattle.capture_serve.specs.Connections.{is_closed, is_disconnect};
ghost use Rattle.capture_serve.specs.Inside.Passing.{AreClosed, IsClosedBy};

use capture_recorder::{Recorder, Said, SaidList, SaidLists};
use desk_files::Door;
use desk_values::{Call, List, Memory, SESSION_LIMIT};
use std::alloc::Global;
use std::sync::Wait;
use std::time::Clock;

/// Closes each session that is still connected, ascending, and notes its disconnect behind what was said in it.
pub(crate) fn close_all<R: Clock + Wait, D: Door>(
    rt: &R,
    alloc: Global,
    recorder: &mut Recorder,
    clock: &D,
    said: SaidLists,
) -> Result<SaidLists, Memory>
    requires { length said ≤ 64 }
    ensures closed { IfOk result (λ closed. AreClosed (lists_of said) (lists_of closed)) }
    ensures off { OnOk result ((session : ℕ) → session < 64 → is_connected recorder.new.state session ≡ false) }
{
    let mut closed = List::new(alloc);
    let mut session: u32 = 0;
    for list in said.into_vec() {
        closed.push(close(rt, recorder, clock, session, list)?)?;
        session += 1;
    }
    close_others(rt, recorder, clock, session)?;
    Ok(closed)
}

// Closes a session, where it is connected, and notes that behind what was said in it.
fn close<R: Clock + Wait, D: Door>(
    rt: &R,
    recorder: &mut Recorder,
    clock: &D,
    session: u32,
    mut said: SaidList,
) -> Result<SaidList, Memory>
    requires { session < 64 }
    ensures closed { IfOk result (λ list. IsClosedBy said.items list.items) }
    ensures off { OnOk result (is_connected recorder.new.state session ≡ false) }
    ensures others { (other : ℕ) → is_connected recorder.old.state other ≡ false → OnOk result (is_connected recorder.new.state other ≡ false) }
{
    let at = clock.now(rt);
    let Some(reply) = recorder.close(session, at)? else {
        return Ok(said);
    };
    // Behind a disconnect no session is connected. Where one is, it differs from what was said, as the recorder now shows.
    if is_closed(&said) {
        return Ok(said);
    }
    let call = Call::Disconnect;
    said.reserve(1)?;
    said.push(Said { call, reply })?;
    Ok(said)
}

// Whether the last call that was said is a disconnect.
fn is_closed(said: &SaidList) -> bool
    ensures { result ≡ is_closed said.now.items }
{
    match said.as_slice() {
        [.., last] => is_disconnect(&last.call),
        [] => false,
    }
}

fn is_disconnect(call: &Call) -> bool
    ensures { result ≡ is_disconnect call.now }
{
    match call {
        Call::Disconnect => true,
        Call::Connect(_) => false,
        Call::Sql(_, _) => false,
    }
}

// Closes the sessions from this one on. They are of no connection.
fn close_others<R: Clock + Wait, D: Door>(
    rt: &R,
    recorder: &mut Recorder,
    clock: &D,
    first: u32,
) -> Result<(), Memory>
    requires { (session : ℕ) → session < first → is_connected recorder.old.state session ≡ false }
    ensures { OnOk result ((session : ℕ) → session < 64 → is_connected recorder.new.state session ≡ false) }
{
    for session in first..SESSION_LIMIT as u32 {
        recorder.close(session, clock.now(rt))?;
    }
    Ok(())
}
