//! What the recorder has, as evidence of what the doors say.

ghost use Rattle.std.specs.Prelude.{◌≡◌, ◌≤◌, ◌<◌, ◌^◌, nat_le, length, map, slice_get, IfOk};
ghost use Rattle.std.specs.Option.{option_copied, option_map};
ghost use Rattle.desk_values.specs.Answers.{Answers};
ghost use Rattle.captured_calls.specs.Same.{same_reply};
ghost use Rattle.captured_calls.specs.Sessions.{calls_of};
ghost use Rattle.known_ids.specs.Knowing.{KnowsCalls};
ghost use Rattle.capture_recorder.specs.Gathering.{call_before, difference, first_difference, is_below, is_borne_out, is_cause, lists_of, mismatch, refusal, refusal_in, said_in, said_of, same_call, same_said};
ghost use Rattle.capture_recorder.specs.Inside.Answered.{IsEvidence, passed, told};

use crate::door::{Said, SaidList, Turned, TurnedList};
use crate::gathering::{GatherErr, count_of};
use crate::recorder::{ACCEPTED_LIMIT, Recorder};
use desk_values::{Call, CallList, Captured, Copied, Memory, Reply, SESSION_LIMIT, Same};
use known_ids::KnownIds;
use std::marker::Model;

/// The recorder's calls by session, and when each id was known. Contracts see the recorder.
#[derive(Drop)]
pub(crate) struct Evidence<'a> {
    recorder: &'a Recorder,
    sessions: &'a [CallList],
    known: &'a KnownIds,
}

impl<'a> Model for Evidence<'a> {
    ghost use Rattle.capture_recorder.specs.Recording.{Recording};
    ghost use Rattle.capture_recorder.specs.Inside.Answered.{IsEvidence};

    ghost Value = { Recording };

    ghost view = { λ a. a.recorder.now };

    ghost invariant = { λ a. IsEvidence a.recorder.now a.sessions.now a.known.now };
}

impl<'a> Evidence<'a> {
    pub(crate) fn new(
        recorder: &'a Recorder,
        sessions: &'a [CallList],
        known: &'a KnownIds,
    ) -> Evidence<'a>
        requires { IsEvidence recorder.now sessions.now known.now }
        ensures { result ≡ recorder.now }
    {
        Evidence {
            recorder,
            sessions,
            known,
        }
    }

    /// Whether each session's door has said what the recorder kept.
    pub(crate) fn compare(&self, lists: &[SaidList]) -> Result<(), GatherErr>
        ensures { Answers passed told result (mismatch self.now.calls (lists_of lists.now)) }
    {
        let count = count_of(lists.len())?.max(SESSION_LIMIT as u32);
        for session in 0..count {
            compare_in(session, self.own(session), said_in(lists, session))?;
        }
        Ok(())
    }

    /// Whether each call that was turned away had its cause.
    pub(crate) fn judge(&self, turned: &[TurnedList]) -> Result<(), GatherErr>
        ensures { Answers passed told result (refusal self.now.start.rows self.now.calls 0 (lists_of turned.now)) }
    {
        let count = count_of(turned.len())?;
        for session in 0..count {
            self.judge_in(session, turned[session as usize].as_slice())?;
        }
        Ok(())
    }

    fn judge_in(&self, session: u32, entries: &[Turned]) -> Result<(), GatherErr>
        ensures { Answers passed told result (refusal_in self.now.start.rows self.now.calls session 0 entries.now) }
    {
        let count = count_of(entries.len())?;
        for n in 0..count {
            let entry = &entries[n as usize];
            if !self.is_borne_out(session, entry) {
                return Err(GatherErr::Refusal {
                    session,
                    n,
                    entry: entry.copy()?,
                });
            }
        }
        Ok(())
    }

    fn is_borne_out(&self, session: u32, entry: &Turned) -> bool
        ensures { result ≡ is_borne_out self.now.start.rows self.now.calls session entry.now }
    {
        let own = self.own(session);
        entry.place as usize <= own.len()
            && entry.held as usize <= self.recorder.calls().len()
            && is_below(entry.held, call_before(own, entry.place))
            && self.is_cause(entry)
    }

    fn is_cause(&self, entry: &Turned) -> bool
        ensures { result ≡ is_cause self.now.start.rows self.now.calls entry.now }
    {
        let held = entry.held as usize;
        if entry.full {
            held >= ACCEPTED_LIMIT
        } else {
            held < ACCEPTED_LIMIT && self.known.has_stranger(&entry.call, held)
        }
    }

    /// The calls of a session.
    fn own(&self, session: u32) -> &'a [Captured]
        ensures { result.now ≡ calls_of session self.now.calls }
    {
        match self.sessions.get(session as usize) {
            Some(list) => list.as_slice(),
            None => &[],
        }
    }
}

// What the door of a session has said.
fn said_in<'b>(lists: &'b [SaidList], session: u32) -> &'b [Said]
    ensures { result.now ≡ said_in (lists_of lists.now) session }
{
    match lists.get(session as usize) {
        Some(list) => list.as_slice(),
        None => &[],
    }
}

// Whether a session's door has said what was kept.
fn compare_in(session: u32, kept: &[Captured], said: &[Said]) -> Result<(), GatherErr>
    ensures { Answers passed told result (difference session (map said_of kept.now) said.now) }
{
    match first_difference(kept, said) {
        None => Ok(()),
        Some(place) => Err(GatherErr::Mismatch {
            session,
            place: count_of(place)?,
            kept: kept_at(kept, place)?,
            answered: said_at(said, place)?,
        }),
    }
}

fn kept_at(kept: &[Captured], place: usize) -> Result<Option<Said>, Memory>
    ensures { IfOk result (λ found. found ≡ slice_get (map said_of kept.now) place) }
{
    match kept.get(place) {
        Some(call) => Ok(Some(Said {
            call: call.call.copy()?,
            reply: call.reply.copy()?,
        })),
        None => Ok(None),
    }
}

fn said_at(said: &[Said], place: usize) -> Result<Option<Said>, Memory>
    ensures { IfOk result (λ found. found ≡ slice_get said.now place) }
{
    match said.get(place) {
        Some(one) => Ok(Some(one.copy()?)),
        None => Ok(None),
    }
}

// The first place at which the two differ.
fn first_difference(kept: &[Captured], said: &[Said]) -> Option<usize>
    ensures place { result ≡ first_difference 0 (map said_of kept.now) said.now }
{
    let both = kept.len().min(said.len());
    for place in 0..both {
        if !is_said(&kept[place], &said[place]) {
            return Some(place);
        }
    }
    if kept.len() == said.len() {
        None
    } else {
        Some(both)
    }
}

fn is_said(kept: &Captured, said: &Said) -> bool
    ensures { result ≡ same_said (said_of kept.now) said.now }
{
    is_same_call(&kept.call, &said.call) && is_same_reply(&kept.reply, &said.reply)
}

fn is_same_call(kept: &Call, said: &Call) -> bool
    ensures { result ≡ same_call kept.now said.now }
{
    kept.same(said)
}

fn is_same_reply(kept: &Reply, said: &Reply) -> bool
    ensures { result ≡ same_reply kept.now said.now }
{
    kept.same(said)
}

fn call_before(own: &[Captured], place: u32) -> Option<&Captured>
    ensures { option_copied result ≡ call_before own.now place }
{
    if place == 0 {
        None
    } else {
        own.get(place as usize - 1)
    }
}

fn is_below(held: u32, call: Option<&Captured>) -> bool
    ensures { result ≡ is_below held (option_copied call.entry) }
{
    match call {
        Some(call) => call.stamp < held,
        None => true,
    }
}
