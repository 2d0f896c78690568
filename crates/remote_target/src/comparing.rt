//! What the desk keeps, compared with what the lines heard.

ghost use Rattle.std.specs.Prelude.{◌≡◌, ◌<◌, ◌+◌, ◌++◌, ◌↔◌, ◌==◌, ◌&&◌, IfErr, IfOk, IsTrue, None, OnOk, Some, is_none, length, map, slice_get, slice_index_or};
ghost use Rattle.std.specs.Option.{option_copied};
ghost use Rattle.remote_link.specs.Heard.{AreGood};
ghost use Rattle.remote_desk.specs.Said.{is_of, reply_to, said_at, said_in};
ghost use Rattle.remote_target.specs.declared.remote_err.RemoteErr.TheVariants.{Mismatch as Differing};
ghost use Rattle.remote_target.specs.Agreement.{Compares, heard_on};
ghost use Rattle.remote_target.specs.Ends.{HasGoodReplies};
ghost use Rattle.remote_target.specs.Inside.{Agrees, ArePlaces, ComparesIn, DiffersFirst, Lacks, noted, noted_by, reply_of};

use crate::line::Line;
use crate::remote_err::RemoteErr;
use desk_values::{Captured, Copied, List, Memory, Reply, Same};
use remote_desk::{RemoteDesk, RemoteEvent};
use remote_link::{Heard, HeardList, Link};
use std::alloc::Global;

/// Whether each line heard what the desk keeps of its session. Of a stopped desk it is no difference that it lacks the reply to a
/// line's last call.
pub fn compare<L: Link + Drop>(
    alloc: Global,
    desk: &RemoteDesk,
    lines: &[Line<L>],
) -> Result<(), RemoteErr>
    ensures compares { Compares desk.now (map heard_on lines.now) result }
    ensures good { IfErr result HasGoodReplies }
{
    desk.history_is_kept();
    let replies = replies_of(alloc, desk)?;
    for line in lines {
        let kept = said_in(alloc, desk, replies.as_slice(), line.session)?;
        compare_in(
            desk.stopped(),
            line.session,
            kept.as_slice(),
            line.spoken.heard(),
        )?;
    }
    Ok(())
}

// By stamp the place of the first event that answers the call.
#[tactic(auto, using(crate::proofs::Places::none_placed))]
fn replies_of(alloc: Global, desk: &RemoteDesk) -> Result<Vec<Option<usize>>, Memory>
    ensures { IfOk result (λ places. ArePlaces desk.now.events (length desk.now.job.calls) places.items) }
{
    let mut places = vec![in alloc; None; desk.job().calls.len()]?;
    let events = desk.events().as_slice();
    for place in 0..events.len() {
        note(places.as_mut_slice(), &events[place], place);
    }
    Ok(places)
}

// Notes the place of an event, where it is the first answer to its call.
fn note(places: &mut [Option<usize>], event: &RemoteEvent, place: usize)
    ensures { places.new ≡ noted_by event.now places.old place }
{
    match event {
        RemoteEvent::Answer(k, _) => note_at(places, *k as usize, place),
        RemoteEvent::Start(_, _) | RemoteEvent::Sent(_, _) => {}
    }
}

// Notes a place at a stamp where none is noted.
fn note_at(places: &mut [Option<usize>], stamp: usize, place: usize)
    ensures { places.new ≡ noted places.old stamp place }
{
    let count = places.len();
    if count <= stamp {
        return;
    }
    if is_free(places, stamp) {
        places[stamp] = Some(place);
    }
}

// Whether none is noted at a stamp.
fn is_free(places: &[Option<usize>], stamp: usize) -> bool
    ensures { result ≡ is_none (slice_index_or places.now stamp (Some 0)) }
{
    match places.get(stamp) {
        Some(place) => place.is_none(),
        None => false,
    }
}

// What was sent in a session, and what came back, by the events of a desk.
fn said_in(
    alloc: Global,
    desk: &RemoteDesk,
    replies: &[Option<usize>],
    session: u32,
) -> Result<HeardList, Memory>
    requires { ArePlaces desk.now.events (length desk.now.job.calls) replies.now }
    ensures { IfOk result (λ list. list ≡ said_in desk.now.job.calls desk.now.events session) }
{
    let calls = desk.job().calls.as_slice();
    let events = desk.events().as_slice();
    let mut list = List::new(alloc);
    for event in events {
        push_said(calls, events, replies, session, event, &mut list)?;
    }
    Ok(list)
}

// Adds what an event says of a session.
fn push_said(
    calls: &[Captured],
    events: &[RemoteEvent],
    replies: &[Option<usize>],
    session: u32,
    event: &RemoteEvent,
    to: &mut HeardList,
) -> Result<(), Memory>
    requires { ArePlaces events.now (length calls.now) replies.now }
    ensures { OnOk result (to.new ≡ to.old ++ said_at calls.now events.now session event.now) }
{
    match event {
        RemoteEvent::Sent(k, call) => {
            if is_of(session, calls, *k) {
                let call = call.copy()?;
                let reply = reply_at(events, replies, *k)?;
                to.push(Heard { call, reply })
            } else {
                Ok(())
            }
        }
        RemoteEvent::Start(_, _) | RemoteEvent::Answer(_, _) => Ok(()),
    }
}

// Whether the call with this stamp, where there is one, is of this session.
fn is_of(session: u32, calls: &[Captured], k: u32) -> bool
    ensures { result ≡ is_of session (slice_get calls.now k) }
{
    match calls.get(k as usize) {
        Some(call) => call.session == session,
        None => false,
    }
}

// A copy of the reply to a call, where it is answered.
fn reply_at(
    events: &[RemoteEvent],
    replies: &[Option<usize>],
    k: u32,
) -> Result<Option<Reply>, Memory>
    requires places { ArePlaces events.now (length replies.now) replies.now }
    requires stamp { k < length replies.now }
    ensures { IfOk result (λ reply. reply ≡ reply_to k events.now) }
{
    match place_at(replies, k as usize) {
        Some(place) => reply_in(events, place),
        None => Ok(None),
    }
}

// A copy of the reply that the event at a place tells.
fn reply_in(events: &[RemoteEvent], place: usize) -> Result<Option<Reply>, Memory>
    ensures { IfOk result (λ reply. reply ≡ reply_of (slice_get events.now place)) }
{
    copied_reply(events.get(place))
}

// The place that stands at a stamp.
fn place_at(replies: &[Option<usize>], stamp: usize) -> Option<usize>
    ensures { result ≡ slice_index_or replies.now stamp None }
{
    match replies.get(stamp) {
        Some(place) => *place,
        None => None,
    }
}

// A copy of the reply that an event tells.
fn copied_reply(event: Option<&RemoteEvent>) -> Result<Option<Reply>, Memory>
    ensures { IfOk result (λ reply. reply ≡ reply_of (option_copied event.entry)) }
{
    match event {
        Some(RemoteEvent::Answer(_, reply)) => Ok(Some(reply.copy()?)),
        _ => Ok(None),
    }
}

// Whether a session's line heard what the desk keeps.
fn compare_in(
    stopped: bool,
    session: u32,
    kept: &[Heard],
    answered: &[Heard],
) -> Result<(), RemoteErr>
    requires kept { AreGood kept.now }
    requires answered { AreGood answered.now }
    ensures compares { ComparesIn stopped session kept.now answered.now result }
    ensures good { IfErr result HasGoodReplies }
{
    match first_difference(stopped, kept, answered) {
        None => Ok(()),
        Some(place) => Err(mismatch(session, place, kept, answered)?),
    }
}

// What tells that the two differ at a place.
fn mismatch(
    session: u32,
    place: usize,
    kept: &[Heard],
    answered: &[Heard],
) -> Result<RemoteErr, Memory>
    ensures { IfOk result (λ error. error ≡ Differing session place (slice_get kept.now place) (slice_get answered.now place)) }
{
    let number = number_of(place)?;
    let one = copied_at(kept, place)?;
    let other = copied_at(answered, place)?;
    Ok(RemoteErr::Mismatch {
        session,
        place: number,
        kept: one,
        answered: other,
    })
}

// A place as it is told. As many calls as that have no room in memory.
fn number_of(place: usize) -> Result<u32, Memory>
    ensures { IfOk result (λ number. number ≡ place) }
{
    u32::try_from(place).map_err(|_| Memory)
}

fn copied_at(list: &[Heard], place: usize) -> Result<Option<Heard>, Memory>
    ensures { IfOk result (λ found. found ≡ slice_get list.now place) }
{
    match list.get(place) {
        Some(one) => Ok(Some(one.copy()?)),
        None => Ok(None),
    }
}

// The first place at which the two differ.
fn first_difference(stopped: bool, kept: &[Heard], answered: &[Heard]) -> Option<usize>
    ensures { DiffersFirst stopped kept.now answered.now result }
{
    let own = kept.len();
    let count = answered.len();
    let both = own.min(count);
    for place in 0..both {
        let lax = may_lack(stopped, place, count);
        if !agrees(lax, &kept[place], &answered[place]) {
            return Some(place);
        }
    }
    if own == count { None } else { Some(both) }
}

// Whether the reply at a place may be missing: of a stopped desk that to the last call.
fn may_lack(stopped: bool, place: usize, count: usize) -> bool
    requires { place < count }
    ensures { result ≡ (stopped && (place + 1 == count)) }
{
    stopped && place + 1 == count
}

// Whether the two are one, or the first lacks the reply and may.
fn agrees(lax: bool, kept: &Heard, answered: &Heard) -> bool
    ensures { IsTrue result ↔ Agrees lax kept.now answered.now }
{
    kept.same(answered) || lacks(lax, kept, answered)
}

// Whether the first lacks the reply, and may, and has the same call.
fn lacks(lax: bool, kept: &Heard, answered: &Heard) -> bool
    ensures { IsTrue result ↔ Lacks lax kept.now answered.now }
{
    lax && kept.reply.is_none() && kept.call.same(&answered.call)
}
