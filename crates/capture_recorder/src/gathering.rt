//! The recorder and the doors of all sessions, put together.

ghost use Rattle.std.specs.Prelude.{◌≡◌, ◌≤◌, ◌<◌, ◌^◌, OnOk, OnErr, IfOk, length, take, Ok};
ghost use Rattle.capture_recorder.specs.Agreement.{Agrees, IsOkJust};
ghost use Rattle.capture_recorder.specs.Gathering.{Gathers, lists_of};
ghost use Rattle.capture_recorder.specs.Inside.Answered.{IsEvidence, IsJudged};
ghost use Rattle.capture_recorder.specs.declared.gathering.GatherErr.TheVariants.{Memory as OutOfMemory};

use crate::door::{Said, SaidLists, Turned, TurnedLists};
use crate::evidence::Evidence;
use crate::recorder::Recorder;
use crate::sessions::sessions_of;
use desk_schema::Start;
use desk_values::{CallList, Copied, List, Memory, SESSION_LIMIT, SessionLists};
use known_ids::KnownIds;
use std::alloc::Global;
use std::fmt;
use thiserror::Error;

/// Where the recorder and the doors do not agree. They are compared in this order.
#[derive(Drop, Error)]
pub enum GatherErr {
    /// The recorder has another start.
    #[error("another start")]
    OtherStart {
        /// The recorder's.
        kept: Start,
    },
    /// A session's door has not said what the recorder kept of the session.
    #[error("session {session} differs at place {place}")]
    Mismatch {
        /// The first such session.
        session: u32,
        /// The first place where they differ.
        place: u32,
        /// What the recorder has there.
        kept: Option<Said>,
        /// What the door has there.
        answered: Option<Said>,
    },
    /// An entry of what a door turned away is not borne out.
    #[error("session {session} was not to be refused entry {n}")]
    Refusal {
        /// The first such session.
        session: u32,
        /// The first such entry, counted from 0.
        n: u32,
        /// The entry.
        entry: Turned,
    },
    /// Want of memory.
    #[error("out of memory")]
    Memory,
}

impl fmt::Debug for GatherErr {
    fn fmt<W: fmt::Write>(&self, f: &mut fmt::Formatter<W>) -> fmt::Result {
        fmt::Display::fmt(self, f)
    }
}

impl From<Memory> for GatherErr {
    ghost from_gives = { λ _ e. e ≡ OutOfMemory };

    fn from(_error: Memory) -> GatherErr {
        GatherErr::Memory
    }
}

/// The calls of each session that has a list, where the start is the recorder's, each list is what the recorder kept of its
/// session, and each call that was turned away had its cause. A session beyond the lists counts as one that said nothing.
/// It grows as n log n in the calls, the entries and the ids of the start.
pub fn gather(
    alloc: Global,
    start: &Start,
    recorder: &Recorder,
    lists: &SaidLists,
    turned: &TurnedLists,
) -> Result<SessionLists, GatherErr>
    ensures answer { Gathers start.now recorder.now (lists_of lists.now) (lists_of turned.now) result }
    ensures agrees { IsOkJust (Agrees start.now recorder.now (lists_of lists.now) (lists_of turned.now)) result }
{
    if !recorder.start().same(start) {
        return Err(GatherErr::OtherStart {
            kept: recorder.start().copy()?,
        });
    }
    compared(alloc, recorder, lists, turned)
}

// The same where the starts are equal.
fn compared(
    alloc: Global,
    recorder: &Recorder,
    lists: &SaidLists,
    turned: &TurnedLists,
) -> Result<SessionLists, GatherErr>
    ensures { Gathers recorder.now.start recorder.now (lists_of lists.now) (lists_of turned.now) result }
{
    let count = count_of(lists.len())?.max(SESSION_LIMIT as u32);
    let sessions = sessions_of(alloc, recorder.calls(), count)?;
    let rows = recorder.start().rows().as_slice();
    let known = KnownIds::of_calls(alloc, rows, recorder.calls().as_slice())?;
    match borne_out(recorder, sessions.as_slice(), &known, lists, turned) {
        Ok(()) => Ok(first_sessions(sessions, lists.len())),
        Err(refusal) => Err(refusal),
    }
}

// Whether what the doors say is borne out by the recorder's calls, which stand by session, with their ids.
fn borne_out(
    recorder: &Recorder,
    sessions: &[CallList],
    known: &KnownIds,
    lists: &SaidLists,
    turned: &TurnedLists,
) -> Result<(), GatherErr>
    requires { IsEvidence recorder.now sessions.now known.now }
    ensures { IsJudged recorder.now (lists_of lists.now) (lists_of turned.now) result }
{
    let evidence = Evidence::new(recorder, sessions, known);
    match evidence.compare(lists.as_slice()) {
        Ok(()) => evidence.judge(turned.as_slice()),
        Err(mismatch) => Err(mismatch),
    }
}

// A number that has to be told. Where it is too large for that, there is no memory for what it counts.
pub(crate) fn count_of(count: usize) -> Result<u32, Memory>
    ensures { IfOk result (λ told. told ≡ count) }
{
    u32::try_from(count).map_err(|_| Memory)
}

// The first so many sessions.
fn first_sessions(sessions: SessionLists, count: usize) -> SessionLists
    ensures { result ≡ take count sessions }
{
    let mut sessions = sessions.into_vec();
    sessions.truncate(count);
    List::from_vec(sessions)
}
