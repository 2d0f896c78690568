//! The server as one session's calls see it.

ghost use Rattle.std.specs.Prelude.{◌≡◌, ℕ, Bool, true, false, List as Items, OnOk};
ghost use Rattle.capture_recorder.specs.Doors.{AreGood, Notes, Closes};
ghost use Rattle.capture_recorder.specs.declared.door.Said.{Said as SaidCall};
ghost use Rattle.capture_recorder.specs.declared.door.Turned.{Turned as TurnedCall};

use crate::refusal::CallErr;
use desk_values::{Call, Copied, List, Memory, Reply, Reserved};
use std::sync::Wait;
use std::time::Clock;

/// A call and its reply.
#[derive(Drop)]
pub struct Said {
    /// The call.
    pub call: Call,
    /// Its reply.
    pub reply: Reply,
}

impl Copied for Said {
    fn copy(&self) -> Result<Said, Memory> {
        Ok(Said {
            call: self.call.copy()?,
            reply: self.reply.copy()?,
        })
    }
}

/// A call that was turned away.
#[derive(Drop)]
pub struct Turned {
    /// How many calls its door had said.
    pub place: u32,
    /// How many calls the recorder held.
    pub held: u32,
    /// Whether it was for want of room; else a bind was an id that was never given.
    pub full: bool,
    /// The call.
    pub call: Call,
}

impl Copied for Turned {
    fn copy(&self) -> Result<Turned, Memory> {
        Ok(Turned {
            place: self.place,
            held: self.held,
            full: self.full,
            call: self.call.copy()?,
        })
    }
}

/// Calls and their replies in order, with room to spare.
pub type SaidList = Reserved<Said>;

/// Calls that were turned away in order, with room to spare.
pub type TurnedList = Reserved<Turned>;

/// What was said in each session, by its number.
pub type SaidLists = List<SaidList>;

/// What was turned away in each session, by its number.
pub type TurnedLists = List<TurnedList>;

/// The server as one session's calls see it. It notes the calls that it answered and those that it turned away.
pub trait CallDoor {
    /// The number of the session.
    ghost seat: { Self → ℕ };

    /// The calls that were answered.
    ghost said: { Self → Items SaidCall };

    /// The calls that were turned away.
    ghost turned: { Self → Items TurnedCall };

    /// Whether no call went through it since the session was closed.
    ghost closed: { Self → Bool };

    /// Whether none did since it was asked to close the session, whatever came of that.
    ghost asked: { Self → Bool };

    /// The session's number.
    fn session(&self) -> u32
        ensures { result ≡ seat self.now };

    /// The calls that were answered, with their replies, in order. Each reply can be written.
    fn said(&self) -> &SaidList
        ensures value { result.now.items ≡ said self.now }
        ensures good { AreGood (said self.now) };

    /// The calls that were turned away, in order.
    fn turned(&self) -> &TurnedList
        ensures { result.now.items ≡ turned self.now };

    /// The server's reply to a call, which is noted with it. `Full` and `Stranger` note the call as turned away; want of
    /// memory notes nothing.
    fn call<R: Clock + Wait>(&mut self, rt: &R, call: &Call) -> Result<Reply, CallErr>
        ensures notes { Notes call.now result (said self.old) (said self.new) (turned self.old) (turned self.new) }
        ensures opens { closed self.new ≡ false }
        ensures reopens { asked self.new ≡ false }
        ensures seat { seat self.new ≡ seat self.old };

    /// Disconnects the session where it is connected, and notes the call with its reply then. Want of memory notes nothing.
    fn close<R: Clock + Wait>(&mut self, rt: &R) -> Result<(), Memory>
        ensures notes { Closes result (said self.old) (said self.new) (turned self.old) (turned self.new) }
        ensures closes { OnOk result (closed self.new ≡ true) }
        ensures asks { asked self.new ≡ true }
        ensures seat { seat self.new ≡ seat self.old };
}
