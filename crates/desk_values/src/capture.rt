ghost use Rattle.std.specs.Prelude.{◌≡◌, IfOk};

use crate::call::{Call, Reply};
use crate::list::List;
use crate::memory::{Copied, Memory};
use crate::reserved::Reserved;

/// A call that was captured, with its place and what it was answered.
#[derive(Drop)]
pub struct Captured {
    /// The session's number.
    pub session: u32,
    /// How many calls of the session stand before it.
    pub place: u32,
    /// Where it stands among all calls of the capture, from 0.
    pub stamp: u32,
    /// How many numbered commits stand before it.
    pub seen: u64,
    /// Its own number among the commits that wrote something, from 1, or 0 where it is none.
    pub number: u64,
    /// When it began, in microseconds from the capture's start.
    pub began: u64,
    /// When it ended, in microseconds from the capture's start.
    pub ended: u64,
    /// What was asked.
    pub call: Call,
    /// What was answered.
    pub reply: Reply,
}

impl Copied for Captured {
    fn copy(&self) -> Result<Captured, Memory> {
        Ok(Captured {
            session: self.session,
            place: self.place,
            stamp: self.stamp,
            seen: self.seen,
            number: self.number,
            began: self.began,
            ended: self.ended,
            call: self.call.copy()?,
            reply: self.reply.copy()?,
        })
    }
}

/// Captured calls, with room to spare.
pub type CallList = Reserved<Captured>;

/// The captured calls of each session, by its number.
pub type SessionLists = List<CallList>;

/// One step of a replay.
#[derive(Drop)]
pub enum Event {
    /// The call with this stamp is taken, and pauses for so many microseconds.
    Start(u32, u64),
    /// The call with this stamp is executed, with this reply.
    Answer(u32, Reply),
}

impl Copied for Event {
    fn copy(&self) -> Result<Event, Memory> {
        match self {
            Event::Start(stamp, pause) => Ok(Event::Start(*stamp, *pause)),
            Event::Answer(stamp, reply) => Ok(Event::Answer(*stamp, reply.copy()?)),
        }
    }
}

/// The events of a replay in order, with room to spare.
pub type History = Reserved<Event>;
