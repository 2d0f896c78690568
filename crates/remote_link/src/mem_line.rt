ghost use Rattle.std.specs.Prelude.{◌≡◌, ◌++◌, ◌∷◌, [], ◌+◌, IfOk, IfSome, IsErrOf, None, Some, OnOk, OnErr};
ghost use Rattle.desk_values.specs.Good.{IsGoodReply};
ghost use Rattle.desk_files.specs.Outside.{raised};
ghost use Rattle.remote_link.specs.declared.link_err.LinkErr.TheVariants.{Failed as LineFailed, Memory as OutOfMemory};
ghost use Rattle.remote_link.specs.Heard.{heard};
ghost use Rattle.remote_link.specs.Lines.{is_failing, line_of, next_reply};

use crate::heard::{Heard, HeardList};
use crate::link::Link;
use crate::link_err::LinkErr;
use crate::replies::ReplyList;
use desk_values::{Call, Copied, List, Memory, Reply, Stamps};
use std::alloc::Global;
use std::marker::Model;

/// What a line in memory is to answer.
#[derive(Drop)]
pub struct MemScript {
    /// Its replies, in order.
    pub replies: ReplyList,
    /// The numbers of the calls that are to fail.
    pub fails: Stamps,
}

impl Copied for MemScript {
    fn copy(&self) -> Result<MemScript, Memory> {
        Ok(MemScript {
            replies: self.replies.copy()?,
            fails: self.fails.copy()?,
        })
    }
}

/// A line in memory, which tells what was said. It answers with the replies of its script, in order. Its calls are numbered from 0;
/// those whose numbers the script has fail, and so do those past its replies. A call that fails stands in the list without a
/// reply.
#[derive(Drop)]
pub struct MemLine {
    replies: ReplyList,
    given: usize,
    fails: Stamps,
    made: u64,
    faults: u64,
    said: HeardList,
}

impl Model for MemLine {
    ghost use Rattle.std.specs.Prelude.{◌≤◌, length};
    ghost use Rattle.remote_link.specs.Lines.{MemoryLine};

    ghost Value = { MemoryLine };

    ghost view = { λ a. record { replies = a.replies; given = a.given; fails = a.fails; made = a.made; faults = a.faults; said = a.said } };

    ghost invariant = { λ a. a.given ≤ length a.replies };
}

impl MemLine {
    /// A line on which nothing was said.
    pub(crate) fn new(alloc: Global, script: MemScript) -> MemLine
        ensures { result ≡ line_of script }
    {
        MemLine {
            replies: script.replies,
            given: 0,
            fails: script.fails,
            made: 0,
            faults: 0,
            said: List::new(alloc),
        }
    }

    /// What was said.
    pub fn said(&self) -> &[Heard]
        ensures { result.now ≡ self.now.said }
    {
        self.said.as_slice()
    }

    // A copy of the next reply; `None` where the next call is to fail, or there is none.
    fn next_reply(&self) -> Result<Option<Reply>, Memory>
        ensures value { IfOk result (λ found. found ≡ next_reply self.now) }
        ensures good { IfOk result (λ found. IfSome found IsGoodReply) }
    {
        if is_failing(&self.fails, self.made) {
            return Ok(None);
        }
        match self.replies.get(self.given) {
            Some(reply) => Ok(Some(reply.copy()?)),
            None => Ok(None),
        }
    }

    // Notes a call that fails.
    fn fail(&mut self, call: Call) -> Result<(), Memory>
        ensures ok { OnOk result (self.new ≡ record self.old {
          made = raised self.old.made;
          faults = raised self.old.faults;
          said = self.old.said ++ heard call None ∷ [];
        }) }
        ensures err { OnErr result (self.new ≡ self.old) }
    {
        self.said.push(Heard { call, reply: None })?;
        self.made = self.made.saturating_add(1);
        self.faults = self.faults.saturating_add(1);
        Ok(())
    }

    // Notes a call that is given the next reply.
    fn give(&mut self, call: Call, reply: Reply) -> Result<(), Memory>
        requires { next_reply self.old ≡ Some reply }
        ensures ok { OnOk result (self.new ≡ record self.old {
          given = self.old.given + 1;
          made = raised self.old.made;
          said = self.old.said ++ heard call (Some reply) ∷ [];
        }) }
        ensures err { OnErr result (self.new ≡ self.old) }
    {
        self.said.push(Heard {
            call,
            reply: Some(reply),
        })?;
        // As many as there are fit a `usize`, so one more than were given does.
        let _ = self.replies.len();
        self.given += 1;
        self.made = self.made.saturating_add(1);
        Ok(())
    }
}

impl Link for MemLine {
    ghost account = { λ s. record { content = Some s.said; faults = s.faults } };

    fn call(&mut self, call: &Call) -> Result<Reply, LinkErr>
        ensures good { IfOk result IsGoodReply }
        ensures ok { IfOk result (λ reply. (next_reply self.old ≡ Some reply) × (self.new ≡ record self.old {
          given = self.old.given + 1;
          made = raised self.old.made;
          said = self.old.said ++ heard call.now (Some reply) ∷ [];
        })) }
        ensures failed { IsErrOf result LineFailed → (next_reply self.old ≡ None) × (self.new ≡ record self.old {
          made = raised self.old.made;
          faults = raised self.old.faults;
          said = self.old.said ++ heard call.now None ∷ [];
        }) }
        ensures memory { IsErrOf result OutOfMemory → self.new ≡ self.old }
    {
        let kept = call.copy()?;
        let Some(reply) = self.next_reply()? else {
            self.fail(kept)?;
            return Err(LinkErr::Failed);
        };
        let again = reply.copy()?;
        self.give(kept, again)?;
        Ok(reply)
    }

    fn faults(&self) -> u64 {
        self.faults
    }
}

/// Whether a number is one of those that are to fail.
pub(crate) fn is_failing(fails: &Stamps, number: u64) -> bool
    ensures { result ≡ is_failing fails.now number }
{
    fails
        .as_slice()
        .iter()
        .any(|other| u64::from(*other) == number)
}
