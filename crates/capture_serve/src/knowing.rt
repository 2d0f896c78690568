//! The calls of sessions are read from their files again. Reading them here costs nothing, since it is done to prove.

ghost use Rattle.std.specs.Prelude.{IsTrue};
ghost use Rattle.std.specs.List.{AllByRecursion};
ghost use Rattle.capture_format.specs.SessionFile.{MayTellAll};
ghost use Rattle.captured_calls.specs.Sessions.{AreSessionsFrom};
ghost use Rattle.capture_recorder.specs.Gathering.{lists_of};
ghost use Rattle.capture_serve.specs.Inside.Knowing.{HasLimits};
ghost use Rattle.capture_serve.specs.Service.{AreReadFrom};

use call_json::know_limits;
use desk_schema::Start;
use desk_values::{CallList, Captured, SessionLists};

fn has_limits(call: &Captured) -> bool
    ensures holds { IsTrue result }
    ensures limits { HasLimits call.now }
{
    let _stamp = call.stamp;
    let _seen = call.seen;
    let _number = call.number;
    know_limits(&call.call);
    true
}

fn have_limits(calls: &[Captured]) -> bool
    ensures holds { IsTrue result }
    ensures limits { AllByRecursion HasLimits calls.now }
{
    for call in calls {
        has_limits(call);
    }
    true
}

fn all_have_limits(lists: &[CallList]) -> bool
    ensures holds { IsTrue result }
    ensures limits { AllByRecursion (AllByRecursion HasLimits) (lists_of lists.now) }
{
    for calls in lists {
        have_limits(calls.as_slice());
    }
    true
}

/// Of calls of sessions that have files of the start's version, each session's file is read as its calls. It does nothing: its
/// contract is a law.
pub(crate) fn know_files(start: &Start, sessions: &SessionLists)
    requires lists { AreSessionsFrom 0 (lists_of sessions.now) }
    requires told { AllByRecursion (MayTellAll start.now.schema.version) (lists_of sessions.now) }
    ensures { AreReadFrom start.now.schema.version 0 (lists_of sessions.now) }
{
    let _schema = start.schema();
    prove!(all_have_limits(sessions.as_slice()));
}
