//! The calls of each session.

ghost use Rattle.std.specs.Prelude.{◌≡◌, ◌++◌, ℕ, List as Items, drop, IfOk, OnOk, map};
ghost use Rattle.desk_values.specs.declared.capture.Captured.{Captured as Recorded};
ghost use Rattle.std.specs.List.{AllByRecursion};
ghost use Rattle.capture_format.specs.SessionFile.{MayTellAll};
ghost use Rattle.capture_recorder.specs.Listed.{HaveJust};
ghost use Rattle.capture_recorder.specs.Recording.{IsRecording, Recording};
ghost use Rattle.captured_calls.specs.Sessions.{AreSessionsFrom, calls_of, session_lists};

use desk_values::{CallList, Captured, Copied, List, Memory, SessionLists};
use std::alloc::Global;

/// The calls of each session below `count`, in their order. Where they are those of a recorder, each list can be written
/// as the file of its session, of its start's version. Where no call is of a session beyond them, the lists have just these calls, and put by
/// stamp again they are the calls where these stand at their stamps.
pub fn sessions_of(alloc: Global, calls: &CallList, count: u32) -> Result<SessionLists, Memory>
    ensures lists { IfOk result (λ lists. map (λ list. list.items) lists ≡ session_lists count calls.now.items) }
    ensures just { IfOk result (λ lists. HaveJust count calls.now.items (map (λ list. list.items) lists)) }
    ensures files { IfOk result
        (λ lists. (r : Recording) → IsRecording r → r.calls ≡ calls.now.items
        → AreSessionsFrom 0 (map (λ list. list.items) lists)) }
    ensures told { IfOk result
        (λ lists. (r : Recording) → IsRecording r → r.calls ≡ calls.now.items
        → AllByRecursion (MayTellAll r.start.schema.version) (map (λ list. list.items) lists)) }
{
    know_lists();
    let mut lists = List::new(alloc);
    for session in 0..count {
        lists.push(session_calls(alloc, calls.as_slice(), session)?)?;
    }
    Ok(lists)
}

/// The calls of a session, in their order.
pub(crate) fn session_calls(
    alloc: Global,
    calls: &[Captured],
    session: u32,
) -> Result<CallList, Memory>
    ensures { IfOk result (λ list. list.items ≡ calls_of session calls.now) }
{
    let mut list = CallList::new(alloc);
    for call in calls {
        if call.session == session {
            list.push(call.copy()?)?;
        }
    }
    Ok(list)
}

/// The calls of each session of a recorder have a file, and the lists of the sessions have just the calls. It costs nothing.
fn know_lists()
    ensures files { (r : Recording) (count : ℕ) → IsRecording r → AreSessionsFrom 0 (session_lists count r.calls) }
    ensures told { (r : Recording) (count : ℕ) → IsRecording r
        → AllByRecursion (MayTellAll r.start.schema.version) (session_lists count r.calls) }
    ensures just { (count : ℕ) (calls : Items Recorded) → HaveJust count calls (session_lists count calls) }
{}
