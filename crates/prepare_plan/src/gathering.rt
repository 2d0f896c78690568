//! The calls of all sessions as one list; no call is copied.

ghost use Rattle.std.specs.Prelude.{◌≡◌, ◌++◌, IfOk, OnOk};
ghost use Rattle.captured_calls.specs.Stamps.{all_calls};
ghost use Rattle.prepare_plan.specs.Lists.{lists_of};

use desk_values::{CallList, Captured, Memory, SessionLists};
use std::alloc::Global;

/// The calls of all sessions, one session after the other.
pub(crate) fn gathered(alloc: Global, sessions: SessionLists) -> Result<Vec<Captured>, Memory>
    ensures { IfOk result (λ calls. calls.items ≡ all_calls (lists_of sessions)) }
{
    let mut calls = Vec::new(alloc);
    for session in sessions.into_vec() {
        append(&mut calls, session)?;
    }
    Ok(calls)
}

fn append(calls: &mut Vec<Captured>, session: CallList) -> Result<(), Memory>
    ensures { OnOk result (calls.new.items ≡ calls.old.items ++ session.items) }
{
    let mut session = session.into_vec();
    calls.append(&mut session)?;
    Ok(())
}
