//! A line, with what was said on it.

ghost use Rattle.std.specs.Prelude.{◌≡◌, ◌<◌, [], None, IfErr, IfSome, OnOk};
ghost use Rattle.std.specs.Option.{option_copied};
ghost use Rattle.desk_values.specs.Good.{IsGoodReply};
ghost use Rattle.remote_link.specs.Dials.{IsNew};
ghost use Rattle.remote_link.specs.Heard.{AreGood, heard};
ghost use Rattle.remote_target.specs.Spoken.{IsLastReply, IsSpoken, RefusesRoom, Says};

use desk_values::{Call, Reply, Reserved};
use remote_link::{Heard, Link, LinkErr};
use std::alloc::Global;
use std::marker::Model;

/// A line, with what was said on it, as its lane keeps it: just what the line tells, or that and one call without a reply. Each reply
/// can be written, and none is missing but to the last call, where the line refused it. Contracts see the line, the calls, the room
/// for more, and whether it refused. It does not call a line that refused.
#[derive(Drop)]
pub struct Spoken<L: Link + Drop> {
    line: L,
    heard: Reserved<Heard>,
    refusal: Option<LinkErr>,
}

impl<L: Link + Drop> Model for Spoken<L> {
    ghost use Rattle.remote_target.specs.Spoken.{IsSpoken, SpokenView};

    ghost Value = { SpokenView L };

    ghost view = { λ a. record { line = a.line; heard = a.heard.items; spare = a.heard.spare; refusal = a.refusal } };

    ghost invariant = { λ a. IsSpoken (L.account a.line).content (L.account a.line).faults a.heard.items a.refusal };
}

impl<L: Link + Drop> Spoken<L> {
    /// A line on which nothing was said.
    pub fn new(alloc: Global, line: L) -> Spoken<L>
        requires { IsNew (L.account line).content (L.account line).faults }
        ensures line { result.line ≡ line }
        ensures heard { result.heard ≡ [] }
        ensures refusal { result.refusal ≡ None }
    {
        Spoken {
            line,
            heard: Reserved::new(alloc),
            refusal: None,
        }
    }

    /// What was said.
    pub fn heard(&self) -> &[Heard]
        ensures value { result.now ≡ self.now.heard }
        ensures good { AreGood self.now.heard }
    {
        self.heard.as_slice()
    }

    /// Why the line refused, where it did.
    pub fn refusal(&self) -> Option<LinkErr>
        ensures { result ≡ self.now.refusal }
    {
        self.refusal
    }

    /// The line.
    pub fn into_line(self) -> L
        ensures line { result ≡ self.line }
        ensures spoken { IsSpoken (L.account result).content (L.account result).faults self.heard self.refusal }
    {
        self.line
    }

    /// Makes room for one more call. A line that refused refuses again, and one that did not has no room only where memory is short.
    pub fn make_room(&mut self) -> Result<(), LinkErr>
        ensures ok { OnOk result ((0 < self.new.spare) × (self.new.refusal ≡ None)) }
        ensures err { IfErr result (RefusesRoom self.old.refusal) }
        ensures line { self.new.line ≡ self.old.line }
        ensures heard { self.new.heard ≡ self.old.heard }
        ensures refusal { self.new.refusal ≡ self.old.refusal }
    {
        if let Some(refusal) = self.refusal {
            return Err(refusal);
        }
        self.heard.reserve(1)?;
        Ok(())
    }

    /// Calls the line, once, and keeps the call with its reply, or without one where the line refused it.
    pub fn say(&mut self, call: Call) -> Result<(), LinkErr>
        requires room { 0 < self.old.spare }
        requires fair { self.old.refusal ≡ None }
        ensures says { Says call result self.old.heard self.new.heard self.old.refusal self.new.refusal }
    {
        match self.line.call(&call) {
            Ok(reply) => {
                let reply = Some(reply);
                let _ = self.heard.push(Heard { call, reply });
                Ok(())
            }
            Err(refusal) => {
                let _ = self.heard.push(Heard { call, reply: None });
                self.refusal = Some(refusal);
                Err(refusal)
            }
        }
    }

    /// The reply to the last call.
    pub fn last_reply(&self) -> Option<&Reply>
        ensures value { IsLastReply self.now.heard (option_copied result) }
        ensures good { IfSome result (λ reply. IsGoodReply reply.now) }
    {
        match self.heard.as_slice() {
            [.., last] => last.reply.as_ref(),
            [] => None,
        }
    }
}
