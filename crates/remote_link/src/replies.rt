ghost use Rattle.std.specs.Prelude.{◌≡◌, ◌++◌, ◌∷◌, [], length, slice_get, IfSome, OnOk, OnErr};
ghost use Rattle.std.specs.List.{AllByRecursion};
ghost use Rattle.std.specs.Option.{option_copied};
ghost use Rattle.desk_values.specs.Good.{IsGoodReply};

use desk_values::{Copied, List, Memory, Reply};
use std::alloc::Global;
use std::marker::Model;

/// Replies that can be written, in order. Contracts see the list.
#[derive(Drop)]
pub struct ReplyList {
    items: List<Reply>,
}

impl Model for ReplyList {
    ghost use Rattle.std.specs.Prelude.{List as Sequence};
    ghost use Rattle.std.specs.List.{AllByRecursion};
    ghost use Rattle.desk_values.specs.declared.call.Reply.{Reply as Replied};
    ghost use Rattle.desk_values.specs.Good.{IsGoodReply};

    ghost Value = { Sequence Replied };

    ghost view = { λ a. a.items };

    ghost invariant = { λ a. AllByRecursion IsGoodReply a.items };
}

impl ReplyList {
    /// An empty list.
    pub fn new(alloc: Global) -> ReplyList
        ensures { result ≡ [] }
    {
        ReplyList {
            items: List::new(alloc),
        }
    }

    /// How many there are.
    pub fn len(&self) -> usize
        ensures { result ≡ length self.now }
    {
        self.items.len()
    }

    /// The reply at a place from 0.
    pub fn get(&self, i: usize) -> Option<&Reply>
        ensures value { option_copied result ≡ slice_get self.now i }
        ensures good { IfSome result (λ reply. IsGoodReply reply.now) }
    {
        self.items.get(i)
    }

    /// The replies in order.
    pub fn as_slice(&self) -> &[Reply]
        ensures value { result.now ≡ self.now }
        ensures good { AllByRecursion IsGoodReply self.now }
    {
        self.items.as_slice()
    }

    /// Adds a reply at the end. An `Err` changes nothing.
    pub fn push(&mut self, reply: Reply) -> Result<(), Memory>
        requires { IsGoodReply reply }
        ensures ok { OnOk result (self.new ≡ self.old ++ reply ∷ []) }
        ensures err { OnErr result (self.new ≡ self.old) }
    {
        self.items.push(reply)
    }
}

impl Copied for ReplyList {
    fn copy(&self) -> Result<ReplyList, Memory> {
        Ok(ReplyList {
            items: self.items.copy()?,
        })
    }
}
