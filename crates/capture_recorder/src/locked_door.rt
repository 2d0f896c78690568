//! A door to the recorder behind its one lock.

ghost use Rattle.std.specs.Prelude.{◌≡◌, ◌<◌, ◌++◌, ◌∷◌, [], false, length, IfOk, IfSome, OnOk, OnErr};
ghost use Rattle.desk_values.specs.Good.{IsGoodReply};
ghost use Rattle.server_words.specs.State.{is_connected};
ghost use Rattle.capture_recorder.specs.Doors.{AreGood};
ghost use Rattle.capture_recorder.specs.Inside.Answered.{IsAnswer, closing};
ghost use Rattle.capture_recorder.specs.Recording.{closed as with_disconnect, closing_reply, recorded};
ghost use Rattle.capture_recorder.specs.declared.door.Said.{Said as SaidCall};

use crate::door::{CallDoor, Said, SaidList, Turned, TurnedList};
use crate::recorder::{Recorder, Twice};
use crate::refusal::CallErr;
use desk_files::Door;
use desk_values::{Call, Copied, Memory, Reply, Reserved};
use std::alloc::Global;
use std::marker::Model;
use std::sync::{Mutex, Wait};
use std::time::Clock;

/// One session's door to a recorder that others share by its lock. It holds the lock once for each call. Contracts see the
/// session's number, the two lists, whether the session was closed, and whether it was asked to close it.
#[derive(Drop)]
pub struct LockedDoor<'a, D: Door> {
    session: u32,
    recorder: &'a Mutex<Recorder>,
    door: &'a D,
    said: SaidList,
    turned: TurnedList,
    // These are for contracts alone.
    closed: bool,
    asked: bool,
}

impl<'a, D: Door> Model for LockedDoor<'a, D> {
    ghost use Rattle.std.specs.Prelude.{◌<◌};
    ghost use Rattle.capture_recorder.specs.Doors.{AreGood, DoorView};

    ghost Value = { DoorView };

    ghost view = { λ a. record { session = a.session; said = a.said.items; turned = a.turned.items; closed = a.closed; asked = a.asked } };

    ghost invariant = { λ a. (a.session < 64) × AreGood a.said.items };
}

impl<'a, D: Door> LockedDoor<'a, D> {
    /// A door through which nothing has gone yet. The time is that of `door`.
    pub fn new(
        alloc: Global,
        session: u32,
        recorder: &'a Mutex<Recorder>,
        door: &'a D,
    ) -> LockedDoor<'a, D>
        requires { session < 64 }
        ensures session { result.session ≡ session }
        ensures said { result.said ≡ [] }
        ensures turned { result.turned ≡ [] }
    {
        LockedDoor {
            session,
            recorder,
            door,
            said: Reserved::new(alloc),
            turned: Reserved::new(alloc),
            closed: false,
            asked: false,
        }
    }

    /// Its two lists. It takes no memory.
    pub fn into_lists(self) -> (SaidList, TurnedList)
        ensures said { result.0.items ≡ self.entry.said }
        ensures turned { result.1.items ≡ self.entry.turned }
        ensures good { AreGood self.entry.said }
    {
        (self.said, self.turned)
    }
}

impl<'a, D: Door> CallDoor for LockedDoor<'a, D> {
    ghost seat = { λ d. d.session };

    ghost said = { λ d. d.said };

    ghost turned = { λ d. d.turned };

    ghost closed = { λ d. d.closed };

    ghost asked = { λ d. d.asked };

    fn session(&self) -> u32 {
        self.session
    }

    fn said(&self) -> &SaidList {
        &self.said
    }

    fn turned(&self) -> &TurnedList {
        &self.turned
    }

    fn call<R: Clock + Wait>(&mut self, rt: &R, call: &Call) -> Result<Reply, CallErr> {
        self.closed = false;
        self.asked = false;
        let place = u32::try_from(self.said.len()).map_err(|_| CallErr::Memory)?;
        self.said.reserve(1)?;
        self.turned.reserve(1)?;
        let kept = call.copy()?;
        let asked = call.copy()?;
        let began = self.door.now(rt);
        let (held, answer) = {
            let mut recorder = self.recorder.lock(rt);
            let ended = self.door.now(rt);
            answered(&mut recorder, self.session, asked, began, ended)
        };
        match answer {
            Ok(twice) => {
                say(&mut self.said, kept, twice.same);
                Ok(twice.reply)
            }
            Err(CallErr::Full) => {
                turn_away(&mut self.turned, place, held, true, kept);
                Err(CallErr::Full)
            }
            Err(CallErr::Stranger) => {
                turn_away(&mut self.turned, place, held, false, kept);
                Err(CallErr::Stranger)
            }
            Err(CallErr::Memory) => Err(CallErr::Memory),
        }
    }

    fn close<R: Clock + Wait>(&mut self, rt: &R) -> Result<(), Memory> {
        self.asked = true;
        self.said.reserve(1)?;
        let at = self.door.now(rt);
        let reply = disconnected(&mut self.recorder.lock(rt), self.session, at)?;
        say_closing(&mut self.said, reply);
        self.closed = true;
        Ok(())
    }
}

// What a call asks of the recorder under one hold of its lock: its answer, and how many calls were held.
fn answered(
    recorder: &mut Recorder,
    session: u32,
    call: Call,
    began: u64,
    ended: u64,
) -> (u32, Result<Twice, CallErr>)
    requires { session < 64 }
    ensures answer { IsAnswer call result.0 result.1 }
    ensures held { result.0 ≡ length recorder.old.calls }
    ensures ok { OnOk result.1 (recorder.new ≡ recorded recorder.old session call began ended) }
    ensures err { OnErr result.1 (recorder.new ≡ recorder.old) }
{
    let held = recorder.calls().len() as u32;
    (held, recorder.accept(session, call, began, ended))
}

// What closing a session asks of the recorder under one hold of its lock: the reply to its disconnect, where it was connected.
fn disconnected(recorder: &mut Recorder, session: u32, at: u64) -> Result<Option<Reply>, Memory>
    requires { session < 64 }
    ensures ok { OnOk result (recorder.new ≡ with_disconnect recorder.old session at) }
    ensures off { OnOk result (is_connected recorder.new.state session ≡ false) }
    ensures reply { IfOk result (λ reply. reply ≡ closing_reply recorder.old session) }
    ensures good { IfOk result (λ reply. IfSome reply (λ r. IsGoodReply r)) }
    ensures err { OnErr result (recorder.new ≡ recorder.old) }
{
    recorder.close(session, at)
}

// Notes a call that was answered. There is room for it.
fn say(said: &mut SaidList, call: Call, reply: Reply)
    requires { 0 < said.old.spare }
    ensures { said.new.items ≡ said.old.items ++ record { call = call; reply = reply } ∷ [] }
{
    let _ = said.push(Said { call, reply });
}

// Notes that the session was disconnected, where it was, with the reply to that. There is room for it.
fn say_closing(said: &mut SaidList, reply: Option<Reply>)
    requires { 0 < said.old.spare }
    ensures { said.new.items ≡ said.old.items ++ closing reply }
{
    if let Some(reply) = reply {
        say(said, Call::Disconnect, reply);
    }
}

// Notes a call that was turned away. There is room for it.
fn turn_away(turned: &mut TurnedList, place: u32, held: u32, full: bool, call: Call)
    requires { 0 < turned.old.spare }
    ensures { turned.new.items ≡ turned.old.items ++ record { place = place; held = held; full = full; call = call } ∷ [] }
{
    let _ = turned.push(Turned {
        place,
        held,
        full,
        call,
    });
}
