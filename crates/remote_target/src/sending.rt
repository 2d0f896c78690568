//! A desk with its lines, when no lane has them any more.

ghost use Rattle.std.specs.Prelude.{◌≡◌, nat_eq, map, IfSome};
ghost use Rattle.std.specs.List.{position};
ghost use Rattle.desk_values.specs.declared.capture.Captured.{Captured};
ghost use Rattle.replay_history.specs.Gap.{IsCallAt};
ghost use Rattle.replay_history.specs.History.{IsWaiting};
ghost use Rattle.replay_lanes.specs.Sessions.{sessions};
ghost use Rattle.remote_desk.specs.History.{plain};
ghost use Rattle.remote_target.specs.Agreement.{heard_on};
ghost use Rattle.remote_target.specs.Inside.{AreAgreed, Exchanges, IsPlaceOf, session_on};

use crate::line::Line;
use crate::spoken::Spoken;
use remote_desk::RemoteDesk;
use remote_link::{Link, LinkErr};
use replay_schedule::{Answering, Course, Schedule};
use std::marker::Model;

/// A desk with its lines, one for each session with a call. What the lines heard is what the desk keeps, but that it may lack the reply to
/// a line's last call. Contracts see the desk and the lines.
#[derive(Drop)]
pub(crate) struct Sending<L: Link + Drop> {
    desk: RemoteDesk,
    lines: Vec<Line<L>>,
}

impl<L: Link + Drop> Model for Sending<L> {
    ghost use Rattle.std.specs.Prelude.{◌≡◌, map};
    ghost use Rattle.remote_target.specs.Agreement.{heard_on};
    ghost use Rattle.replay_lanes.specs.Sessions.{sessions};
    ghost use Rattle.remote_target.specs.Inside.{AreAgreed, SendingView, session_on};

    ghost Value = { SendingView L };

    ghost view = { λ a. record { desk = a.desk; lines = a.lines.items } };

    ghost invariant = { λ a. AreAgreed a.desk (map heard_on a.lines.items) × (map session_on a.lines.items ≡ sessions a.desk.job.calls) };
}

impl<L: Link + Drop> Sending<L> {
    /// A desk with its lines, where they agree.
    pub(crate) fn new(desk: RemoteDesk, lines: Vec<Line<L>>) -> Sending<L>
        requires agreed { AreAgreed desk (map heard_on lines.items) }
        requires sessions { map session_on lines.items ≡ sessions desk.job.calls }
        ensures desk { result.desk ≡ desk }
        ensures lines { result.lines ≡ lines.items }
    {
        Sending { desk, lines }
    }

    /// The desk, and the lines.
    pub(crate) fn into_parts(self) -> (RemoteDesk, Vec<Line<L>>)
        ensures desk { result.0 ≡ self.desk }
        ensures agree { AreAgreed result.0 (map heard_on result.1.items) }
        ensures sessions { map session_on result.1.items ≡ sessions result.0.job.calls }
    {
        (self.desk, self.lines)
    }

    // Where the line of a call's session stands.
    fn place_of(&self, k: u32) -> Option<usize>
        requires { (call : Captured) × IsCallAt self.now.desk.job.calls k call }
        ensures { IfSome result (IsPlaceOf self.now.desk.job.calls (map session_on self.now.lines) k) }
    {
        let call = &self.desk.job().calls.as_slice()[k as usize];
        place_in(self.lines.as_slice(), call.session)
    }
}

// Where the line of a session stands.
fn place_in<L: Link + Drop>(lines: &[Line<L>], session: u32) -> Option<usize>
    ensures { result ≡ position (λ line. nat_eq line.session session) lines.now }
{
    lines.iter().position(|line| line.session == session)
}

impl<L: Link + Drop> Course for Sending<L> {
    ghost job = { λ sending. sending.desk.job };

    ghost history = { λ sending. plain sending.desk.events };

    ghost stopped = { λ sending. sending.desk.stopped };

    fn schedule(&self) -> &Schedule {
        self.desk.schedule()
    }

    fn start(&mut self, k: u32) -> u64 {
        self.desk.start(k)
    }

    fn halt(&mut self) {
        self.desk.halt();
    }
}

impl<L: Link + Drop> Answering for Sending<L> {
    type Refusal = LinkErr;

    fn answer(&mut self, k: u32) -> Result<(), LinkErr> {
        self.desk.history_is_kept();
        match self.place_of(k) {
            Some(place) => exchange(&mut self.desk, &mut self.lines[place].spoken, k),
            None => Err(LinkErr::Memory),
        }
    }
}

// Sends a call that is started by this line, and notes its reply. What was sent before a failure stays noted on both sides.
fn exchange<L: Link + Drop>(
    desk: &mut RemoteDesk,
    spoken: &mut Spoken<L>,
    k: u32,
) -> Result<(), LinkErr>
    requires { IsWaiting (plain desk.old.events) k }
    ensures { Exchanges k desk.old spoken.old.heard result desk.new spoken.new.heard }
{
    spoken.make_room()?;
    if !desk.unsent(k) {
        return Err(LinkErr::Memory);
    }
    let call = desk.dispatch(k)?;
    spoken.say(call)?;
    match spoken.last_reply() {
        Some(reply) => Ok(desk.answer(k, reply)?),
        None => Err(LinkErr::Memory),
    }
}
