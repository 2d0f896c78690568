ghost use Rattle.std.specs.Prelude.{◌≡◌, ◌⊎◌, [], IfOk, IsErrOf, None};
ghost use Rattle.desk_files.specs.Outside.{AppendsPart, HasRisen, Told, counted};
ghost use Rattle.desk_values.specs.Good.{IsGoodReply};
ghost use Rattle.remote_link.specs.declared.link_err.LinkErr.TheVariants.{Failed as LineFailed};
ghost use Rattle.remote_link.specs.Heard.{link_ending};
ghost use Rattle.remote_link.specs.Inside.{Reads};
ghost use Rattle.remote_link.specs.Talk.{Converses, GivesNone, left_of, never_given, request_text};

use crate::inbox::Inbox;
use crate::link::Link;
use crate::link_err::LinkErr;
use crate::request::request_of;
use call_json::{JsonErr, reply_from_json};
use desk_files::{Sink, Source};
use desk_values::{Call, Fault, List, Outcome, Reply};
use std::alloc::Global;
use std::marker::Model;

/// A line by HTTP/1 over a source and a sink, which does not tell what was said. Contracts see the bytes that came and were
/// not taken, its two ends, and how many calls failed.
#[derive(Drop)]
pub struct HttpLink<I: Source + Drop, O: Sink + Drop> {
    alloc: Global,
    input: I,
    output: O,
    inbox: Inbox,
    faults: u64,
}

impl<I: Source + Drop, O: Sink + Drop> Model for HttpLink<I, O> {
    ghost use Rattle.remote_link.specs.Lines.{HttpView};

    ghost Value = { HttpView I O };

    ghost view = { λ a. record { held = a.inbox; input = a.input; output = a.output; faults = a.faults } };
}

impl<I: Source + Drop, O: Sink + Drop> HttpLink<I, O> {
    /// A line over these two ends. Nothing came yet.
    pub fn new(alloc: Global, input: I, output: O) -> HttpLink<I, O>
        ensures { result ≡ record { held = []; input = input; output = output; faults = 0 } }
    {
        HttpLink {
            alloc,
            input,
            output,
            inbox: Inbox::new(alloc),
            faults: 0,
        }
    }

    // Sends the request of a call by one write, and takes its answer. Whatever comes of it, no more is sent than the one request.
    fn ask(&mut self, call: &Call) -> Result<Reply, LinkErr>
        ensures good { IfOk result IsGoodReply }
        ensures ok { IfOk result (λ reply. Converses call.now reply
            (left_of self.old.held (I.account self.old.input).content) (left_of self.new.held (I.account self.new.input).content)
            (O.account self.old.output).content (O.account self.new.output).content) }
        ensures failed { IsErrOf result LineFailed → HasRisen (I.account self.old.input).faults (I.account self.new.input).faults
            ⊎ HasRisen (O.account self.old.output).faults (O.account self.new.output).faults
            ⊎ Told (left_of self.old.held (I.account self.old.input).content) GivesNone }
        ensures sent { AppendsPart (request_text call.now) (O.account self.old.output).content (O.account self.new.output).content }
        ensures count { self.new.faults ≡ self.old.faults }
    {
        let request = request_of(self.alloc, call)?;
        self.output.write(request.as_slice())?;
        let answer = self.inbox.next_answer(&mut self.input)?;
        let body = &self.inbox.bytes()[answer.head..answer.len()];
        let reply = reply_of(self.alloc, answer.status, body);
        self.inbox.take(answer.len());
        reply
    }
}

impl<I: Source + Drop, O: Sink + Drop> Link for HttpLink<I, O> {
    ghost account = { λ s. record { content = None; faults = s.faults } };

    fn call(&mut self, call: &Call) -> Result<Reply, LinkErr>
        ensures good { IfOk result IsGoodReply }
        ensures ok { IfOk result (λ reply. Converses call.now reply
            (left_of self.old.held (I.account self.old.input).content) (left_of self.new.held (I.account self.new.input).content)
            (O.account self.old.output).content (O.account self.new.output).content) }
        ensures failed { IsErrOf result LineFailed → HasRisen (I.account self.old.input).faults (I.account self.new.input).faults
            ⊎ HasRisen (O.account self.old.output).faults (O.account self.new.output).faults
            ⊎ Told (left_of self.old.held (I.account self.old.input).content) GivesNone }
        ensures sent { AppendsPart (request_text call.now) (O.account self.old.output).content (O.account self.new.output).content }
        ensures count { self.new.faults ≡ counted (link_ending result) self.old.faults }
    {
        let reply = self.ask(call);
        if let Err(LinkErr::Failed) = reply {
            self.faults = self.faults.saturating_add(1);
        }
        reply
    }

    fn faults(&self) -> u64 {
        self.faults
    }
}

// The reply that an answer with this status and this body gives.
fn reply_of(alloc: Global, status: u16, body: &[u8]) -> Result<Reply, LinkErr>
    ensures reads { Reads status body.now result }
    ensures good { IfOk result IsGoodReply }
{
    match status {
        200 => match reply_from_json(alloc, body) {
            Ok(reply) => Ok(reply),
            Err(JsonErr::NotOne) => Err(LinkErr::Failed),
            Err(JsonErr::Memory) => Err(LinkErr::Memory),
        },
        400 => Ok(never_given(alloc)),
        _ => Err(LinkErr::Failed),
    }
}

// The refusal of a call with an id that the server never gave.
fn never_given(alloc: Global) -> Reply
    ensures { result ≡ never_given }
{
    Reply {
        outcome: Outcome::Refused(Fault::BindMissing),
        draws: List::new(alloc),
        made: None,
    }
}
