//! The lines while lanes have them, and what a lane does with a call under a line's own lock.

ghost use Rattle.std.specs.Prelude.{◌≡◌, ◌≤◌, [], length, map, OnOk, OnErr, IfOk, IfSome, IfNone};
ghost use Rattle.std.specs.Vec.{vec_capacity};
ghost use Rattle.remote_target.specs.Inside.{seat_session, session_on};
ghost use Rattle.desk_values.specs.Good.{IsGoodReply};
ghost use Rattle.remote_desk.specs.Desk.{IsDispatched, IsHeard, MayAnswer};

use crate::line::Line;
use crate::spoken::Spoken;
use desk_values::{Call, Captured, Memory, Reply};
use remote_desk::RemoteDesk;
use remote_link::{Link, LinkErr};
use replay_lanes::Target;
use std::sync::{Mutex, Wait};

/// A session's line, behind a lock that its lane alone takes.
#[derive(Drop)]
pub(crate) struct Seat<L: Link + Drop> {
    /// The session.
    pub(crate) session: u32,
    /// The line, with what was said on it.
    pub(crate) spoken: Mutex<Spoken<L>>,
}

/// Puts each line behind a lock, for the lanes.
pub(crate) fn seat_each<L: Link + Drop>(lines: Vec<Line<L>>, seats: &mut Vec<Seat<L>>)
    requires none { seats.old.items ≡ [] }
    requires room { length lines.items ≤ vec_capacity seats.old }
    ensures { map seat_session seats.new.items ≡ map session_on lines.items }
{
    for line in lines {
        let Line { session, spoken } = line;
        seats.push_reserved(Seat {
            session,
            spoken: Mutex::new(spoken),
        });
    }
}

/// Takes each line from behind its lock, once no lane has it any more. What was said on it is known by what its type keeps.
pub(crate) fn free_each<L: Link + Drop>(seats: Vec<Seat<L>>, lines: &mut Vec<Line<L>>)
    requires none { lines.old.items ≡ [] }
    requires room { length seats.items ≤ vec_capacity lines.old }
    ensures { map session_on lines.new.items ≡ map seat_session seats.items }
{
    for seat in seats {
        let Seat { session, spoken } = seat;
        lines.push_reserved(Line {
            session,
            spoken: spoken.into_inner(),
        });
    }
}

/// The server that runs elsewhere, as a target of lanes: each call goes out by the line of its session.
#[derive(Drop)]
pub(crate) struct Elsewhere<'a, L: Link + Drop> {
    /// The calls by stamp.
    pub(crate) calls: &'a [Captured],
    /// The lines by session.
    pub(crate) seats: &'a [Seat<L>],
}

impl<L: Link + Send + Drop> Target<RemoteDesk> for Elsewhere<'_, L> {
    type Refusal = LinkErr;

    fn answer<R: Wait>(&self, rt: &R, desk: &Mutex<RemoteDesk>, k: u32) -> Result<(), LinkErr> {
        let answered = self.send(rt, desk, k);
        if answered.is_err() {
            desk.lock(rt).halt();
        }
        answered
    }
}

impl<L: Link + Drop> Elsewhere<'_, L> {
    // Sends a call by the line of its session, and notes its reply. No lock of the desk is held while the line is called.
    fn send<R: Wait>(&self, rt: &R, desk: &Mutex<RemoteDesk>, k: u32) -> Result<(), LinkErr> {
        let Some(seat) = self.seat_of(k) else {
            return Err(LinkErr::Memory);
        };
        let mut spoken = seat.spoken.lock(rt);
        spoken.make_room()?;
        let sent = dispatched(&mut desk.lock(rt), k)?;
        let Some(call) = sent else {
            return Ok(());
        };
        spoken.say(call)?;
        if let Some(reply) = spoken.last_reply() {
            heard(&mut desk.lock(rt), k, reply)?;
        }
        Ok(())
    }

    // The line of a call's session.
    fn seat_of(&self, k: u32) -> Option<&Seat<L>> {
        let call = self.calls.get(k as usize)?;
        self.seats.iter().find(|seat| seat.session == call.session)
    }
}

// What is sent in the place of a call, where it is started and not sent.
fn dispatched(desk: &mut RemoteDesk, k: u32) -> Result<Option<Call>, Memory>
    ensures some { IfOk result (λ sent. IfSome sent (λ call. IsDispatched desk.old k call desk.new)) }
    ensures none { IfOk result (λ sent. IfNone sent (desk.new ≡ desk.old)) }
    ensures err { OnErr result (desk.new ≡ desk.old) }
{
    if desk.unsent(k) {
        Ok(Some(desk.dispatch(k)?))
    } else {
        Ok(None)
    }
}

// Notes a reply, where the call is sent and not answered.
fn heard(desk: &mut RemoteDesk, k: u32, reply: &Reply) -> Result<(), Memory>
    requires { IsGoodReply reply.now }
    ensures ok { OnOk result (MayAnswer desk.old.events k → IsHeard desk.old k reply.now desk.new) }
    ensures none { (MayAnswer desk.old.events k → ⊥) → desk.new ≡ desk.old }
    ensures err { OnErr result (desk.new ≡ desk.old) }
{
    if desk.awaits(k) {
        desk.answer(k, reply)
    } else {
        Ok(())
    }
}
