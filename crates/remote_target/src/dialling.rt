//! Lines as they are dialled, and as they are given back.

ghost use Rattle.std.specs.Prelude.{◌≡◌, ◌≤◌, ◌+◌, ◌&&◌, [], is_ok, length, map, take, IfOk, OnOk, OnErr, Some};
ghost use Rattle.std.specs.Vec.{vec_capacity};
ghost use Rattle.std.specs.List.{AllByRecursion};
ghost use Rattle.desk_files.specs.Outside.{Counts, raised, risen_by};
ghost use Rattle.desk_files.specs.Hosts.{accept_ending};
ghost use Rattle.remote_target.specs.Dialled.{asked_for};
ghost use Rattle.remote_target.specs.Ends.{AddsUnbroken};
ghost use Rattle.remote_target.specs.Inside.{CountsLines, GivesLines, IsFresh, refusal_on, said_on, session_on};

use crate::line::Line;
use crate::spoken::Spoken;
use desk_files::Failed;
use desk_values::Memory;
use remote_link::Dial;
use std::alloc::Global;

/// No items, with room for so many.
pub(crate) fn room_for<T>(alloc: Global, count: usize) -> Result<Vec<T>, Memory>
    ensures items { IfOk result (λ room. room.items ≡ []) }
    ensures capacity { IfOk result (λ room. count ≤ vec_capacity room) }
{
    let room = Vec::with_capacity(alloc, count)?;
    Ok(room)
}

/// Dials a line for each of these sessions, in order, up to the first dial that fails.
pub(crate) fn dial_each<D: Dial>(
    alloc: Global,
    dial: &mut D,
    port: u16,
    sessions: &[u32],
    lines: &mut Vec<Line<D::Line>>,
) -> Result<(), Failed>
    requires none { lines.old.items ≡ [] }
    requires room { length sessions.now ≤ vec_capacity lines.old }
    ensures sessions { map session_on lines.new.items ≡ take (length lines.new.items) sessions.now }
    ensures all { OnOk result (map session_on lines.new.items ≡ sessions.now) }
    ensures fresh { AllByRecursion IsFresh (map said_on lines.new.items) }
    ensures content { (D.account dial.new).content ≡ (D.account dial.old).content }
    ensures counts { Counts (accept_ending result) (D.account dial.old).faults (D.account dial.new).faults }
    ensures dialled { OnOk result ((D.account dial.new).dials ≡ risen_by (length sessions.now) (D.account dial.old).dials) }
    ensures few { OnErr result (length lines.new.items + 1 ≤ length sessions.now) }
    ensures failed { OnErr result ((D.account dial.new).dials ≡ risen_by (length lines.new.items + 1) (D.account dial.old).dials) }
    ensures backs { (D.account dial.new).backs ≡ (D.account dial.old).backs }
    ensures unrefused { OnOk result ((D.account dial.new).failed ≡ (D.account dial.old).failed) }
    ensures refused { OnErr result ((D.account dial.new).failed ≡ raised (D.account dial.old).failed) }
    ensures asked { OnOk result ((D.account dial.new).port ≡ asked_for (length sessions.now) port (D.account dial.old).port) }
    ensures port { OnErr result ((D.account dial.new).port ≡ Some port) }
{
    for session in sessions {
        let line = dial.dial(port)?;
        let spoken = Spoken::new(alloc, line);
        let session = *session;
        lines.push_reserved(Line { session, spoken });
    }
    Ok(())
}

/// Gives each line back, in order, also where memory was short for one before it.
pub(crate) fn give_back<D: Dial>(dial: &mut D, lines: Vec<Line<D::Line>>) -> Result<(), Memory>
    ensures gives { GivesLines (map said_on lines.items) result (D.account dial.old).content (D.account dial.new).content }
    ensures unbroken { AddsUnbroken (D.account dial.old).content (D.account dial.new).content }
    ensures counts { CountsLines (map refusal_on lines.items) (D.account dial.old).faults (D.account dial.new).faults }
    ensures dialled { (D.account dial.new).dials ≡ (D.account dial.old).dials }
    ensures backs { (D.account dial.new).backs ≡ risen_by (length lines.items) (D.account dial.old).backs }
    ensures failed { (D.account dial.new).failed ≡ (D.account dial.old).failed }
    ensures port { (D.account dial.new).port ≡ (D.account dial.old).port }
{
    let mut whole = true;
    for line in lines {
        let given = dial.back(line.spoken.into_line());
        whole = is_whole(whole, given);
    }
    if whole { Ok(()) } else { Err(Memory) }
}

fn is_whole(whole: bool, given: Result<(), Memory>) -> bool
    ensures { result ≡ (whole && is_ok given) }
{
    whole && given.is_ok()
}
