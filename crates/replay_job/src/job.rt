ghost use Rattle.std.specs.Prelude.{◌≡◌, ◌↔◌, IfOk, IsTrue};
ghost use Rattle.replay_job.specs.Job.{seen};

use desk_schema::Start;
use desk_values::{CallList, Copied, Memory, Same, same_items};
use object_depends::{FactList, Mode};
use remap_ids::Remap;

/// What is to be replayed, and how. Oracle's Database Testing Guide has the two percentages as `think_time_scale` and
/// `connect_time_scale`, and the services that are sent in the place of others as the remapping of connections.
pub struct Job {
    /// The start of the capture.
    pub start: Start,
    /// The start that the replay begins with.
    pub target: Start,
    /// The calls of the capture by stamp.
    pub calls: CallList,
    /// What is known of each of them, by stamp.
    pub facts: FactList,
    /// What the captured services are sent as.
    pub remap: Remap,
    /// Which calls each call waits for.
    pub mode: Mode,
    /// How many hundredths of the time before a call, but for a session's first one, are its pause.
    pub think: u32,
    /// How many hundredths of the time before a session's first call are its pause.
    pub connect: u32,
}

// Written out: a caller then drops it by one call, which keeps the caller's proof small.
impl Drop for Job {
    fn drop(self) {
        let Job {
            start: _start,
            target: _target,
            calls: _calls,
            facts: _facts,
            remap: _remap,
            mode: _mode,
            think: _think,
            connect: _connect,
        } = self;
    }
}

impl Job {
    /// An equal job.
    pub fn copy(&self) -> Result<Job, Memory>
        ensures { IfOk result (λ copy. seen copy ≡ seen self.now) }
    {
        Ok(Job {
            start: self.start.copy()?,
            target: self.target.copy()?,
            calls: self.calls.copy()?,
            facts: self.facts.copy()?,
            remap: self.remap.copy()?,
            mode: self.mode,
            think: self.think,
            connect: self.connect,
        })
    }

    /// Whether the two are equal. Room to spare is no part of a job.
    pub fn same(&self, other: &Job) -> bool
        ensures { IsTrue result ↔ (seen self.now ≡ seen other.now) }
    {
        self.start.same(&other.start)
            && self.target.same(&other.target)
            && same_items(self.calls.as_slice(), other.calls.as_slice())
            && self.facts.same(&other.facts)
            && self.remap.same(&other.remap)
            && self.mode == other.mode
            && self.think == other.think
            && self.connect == other.connect
    }
}
