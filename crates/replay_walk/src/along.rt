//! A replay again, along its history: what is told of its answers.

ghost use Rattle.std.specs.Prelude.{◌≡◌, ◌<◌, ◌&&◌, ◌||◌, not, true, IfOk, OnOk, length};
ghost use Rattle.std.specs.List.{list_any};
ghost use Rattle.desk_values.specs.declared.capture.Captured.{Captured as CapturedCall};
ghost use Rattle.divergence.specs.Class.{is_write_divergence};
ghost use Rattle.remap_ids.specs.Sent.{sent as sent_call};
ghost use Rattle.replay_job.specs.Job.{seen};
ghost use Rattle.replay_job.specs.Replays.{IsReplay, IsSoundJob};
ghost use Rattle.replay_job.specs.Runs.{IsCompleteFor, Stage};
ghost use Rattle.replay_walk.specs.Walked.{AreOpen, AreTold, marked_at};
ghost use Rattle.replay_walk.specs.Inside.Walking.{HasAnswered, HasBegun, HasCome, HasPassed, HasTold, IsWalkedTo, MayAnswer, MayAsk, MayPass, MayTwin, is_open_next, tables_asked};

use crate::servers::Servers;
use desk_values::{Call, Captured, Event, History, Memory, Reply};
use replay_job::Job;
use std::alloc::Global;

/// What is asked of the answers of a replay.
#[derive(Clone, Copy)]
pub struct Asks<'a> {
    /// Whether it is asked which calls nothing stood before.
    pub reads: bool,
    /// Of each call whether it is asked if it met what it met in the capture.
    pub twins: &'a [bool],
}

/// What is told of them.
#[derive(Drop)]
pub struct Walked {
    /// Of each call whether nothing stood before it: no commit differed so far, its session had changed nothing, in the capture and in
    /// the replay, and each id among its binds has an image.
    pub open_calls: Vec<bool>,
    /// Of each call that is asked for whether it met what it met in the capture, but for ids.
    pub twins: Vec<bool>,
}

/// Goes along a whole replay.
pub fn walk(alloc: Global, job: &Job, history: &History, asks: Asks<'_>) -> Result<Walked, Memory>
    requires sound { IsSoundJob (seen job.now) }
    requires complete { (last : Stage) × IsCompleteFor (seen job.now) history.now.items last }
    requires twins { length asks.twins.now ≡ length (seen job.now).calls }
    ensures open_calls { IfOk result
        (λ walked. asks.entry.reads ≡ true → AreOpen (seen job.now) history.now.items walked.open_calls.items) }
    ensures twins { IfOk result
        (λ walked. AreTold (seen job.now) history.now.items asks.entry.twins.now walked.twins.items) }
{
    let walk = gone_along(alloc, job, asks, history.as_slice())?;
    Ok(walk.told())
}

// Behind these events.
fn gone_along(
    alloc: Global,
    job: &Job,
    asks: Asks<'_>,
    events: &[Event],
) -> Result<Progress, Memory>
    requires replay { (last : Stage) × IsReplay (seen job.now) events.now last }
    requires twins { length asks.twins.now ≡ length (seen job.now).calls }
    ensures { IfOk result (IsWalkedTo (seen job.now) asks.entry events.now (length events.now)) }
{
    let mut walk = Progress::new(alloc, job, tables_asked(job, asks.twins))?;
    for event in events {
        walk.pass(alloc, job, asks, event)?;
    }
    Ok(walk)
}

// How many tables are looked at: none where no call is asked for.
fn tables_asked(job: &Job, twins: &[bool]) -> usize
    ensures { result ≡ tables_asked (seen job.now) twins.now }
{
    if is_some_asked(twins) {
        job.start.schema().tables().len()
    } else {
        0
    }
}

fn is_some_asked(twins: &[bool]) -> bool
    ensures { result ≡ list_any (λ asked. asked) twins.now }
{
    twins.iter().any(|asked| *asked)
}

// Whether something is asked of a call.
fn is_asked(asks: Asks<'_>, stamp: u32) -> bool
    requires { stamp < length asks.twins.now }
    ensures { result ≡ (asks.entry.reads || marked_at asks.entry.twins.now stamp) }
{
    asks.reads || asks.twins[stamp as usize]
}

/// How far a replay is gone along its history.
#[derive(Drop)]
struct Progress {
    servers: Servers,
    // whether no commit differed so far
    quiet: bool,
    open_calls: Vec<bool>,
    twins: Vec<bool>,
}

impl Progress {
    // Before the first event, where so many tables are looked at.
    fn new(alloc: Global, job: &Job, tables: usize) -> Result<Progress, Memory>
        ensures { IfOk result (HasBegun (seen job.now) tables) }
    {
        Ok(Progress {
            servers: Servers::new(alloc, job, tables)?,
            quiet: true,
            open_calls: vec![in alloc; false; job.calls.len()]?,
            twins: vec![in alloc; false; job.calls.len()]?,
        })
    }

    // What is told.
    fn told(self) -> Walked
        ensures open_calls { result.open_calls ≡ self.open_calls }
        ensures twins { result.twins ≡ self.twins }
    {
        Walked {
            open_calls: self.open_calls,
            twins: self.twins,
        }
    }

    // Goes past an event.
    fn pass(
        &mut self,
        alloc: Global,
        job: &Job,
        asks: Asks<'_>,
        event: &Event,
    ) -> Result<(), Memory>
        requires twins { length asks.twins.now ≡ length (seen job.now).calls }
        requires may { MayPass (seen job.now) asks event.now self.old }
        ensures { OnOk result (HasPassed (seen job.now) asks.entry event.now self.old self.new) }
    {
        match event {
            Event::Start(_, _) => Ok(()),
            Event::Answer(stamp, reply) => self.answer(alloc, job, asks, *stamp, reply),
        }
    }

    // Goes past the answer to the call with this stamp.
    fn answer(
        &mut self,
        alloc: Global,
        job: &Job,
        asks: Asks<'_>,
        stamp: u32,
        reply: &Reply,
    ) -> Result<(), Memory>
        requires twins { length asks.twins.now ≡ length (seen job.now).calls }
        requires may { (call : CapturedCall) × MayAnswer (seen job.now) asks stamp reply.now call self.old }
        ensures { OnOk result
            ((call : CapturedCall) × HasAnswered (seen job.now) asks.entry stamp reply.now call self.old self.new) }
    {
        let call = &job.calls.as_slice()[stamp as usize];
        let sent = self.servers.send(job, &call.call)?;
        self.come_along(alloc, job, asks, stamp)?;
        let is_open = self.is_open(asks, call);
        let twin = self.is_twin(alloc, job, asks, call, &sent)?;
        self.servers.execute(job, call, &sent, reply)?;
        let quiet = self.stays_quiet(alloc, &call.reply, reply)?;
        self.open_calls[stamp as usize] = is_open;
        self.twins[stamp as usize] = twin;
        self.quiet = quiet;
        Ok(())
    }

    // The captured server goes past a call that is answered next, where something is asked of it.
    fn come_along(
        &mut self,
        alloc: Global,
        job: &Job,
        asks: Asks<'_>,
        stamp: u32,
    ) -> Result<(), Memory>
        requires twins { length asks.twins.now ≡ length (seen job.now).calls }
        requires may { MayAsk (seen job.now) stamp self.old }
        ensures { OnOk result (HasCome (seen job.now) asks.entry stamp self.old self.new) }
    {
        if !is_asked(asks, stamp) {
            return Ok(());
        }
        self.servers.come_past(alloc, job, asks.twins, stamp)?;
        Ok(())
    }

    // Whether nothing stood before a call that is answered next, where that is asked.
    fn is_open(&self, asks: Asks<'_>, call: &Captured) -> bool
        ensures { result ≡ (asks.entry.reads && (self.now.quiet && is_open_next self.now.servers call.now)) }
    {
        asks.reads && self.quiet && self.servers.is_open(call)
    }

    // Whether a call that is answered next meets what it met, where that is asked.
    fn is_twin(
        &mut self,
        alloc: Global,
        job: &Job,
        asks: Asks<'_>,
        call: &Captured,
        sent: &Call,
    ) -> Result<bool, Memory>
        requires twins { length asks.twins.now ≡ length (seen job.now).calls }
        requires may { MayTwin (seen job.now) asks call.now self.old }
        requires sent { sent.now ≡ sent_call self.old.servers.map.pairs (seen job.now).remap call.now.call }
        ensures { IfOk result (HasTold (seen job.now) asks.entry call.now self.old self.new) }
    {
        let asked = asks.twins[call.stamp as usize];
        if !asked {
            return Ok(false);
        }
        self.servers.is_twin(alloc, job, call, sent)
    }

    // Whether no commit differed so far, this call included.
    fn stays_quiet(&self, alloc: Global, captured: &Reply, replayed: &Reply) -> Result<bool, Memory>
        ensures { IfOk result
            (λ quiet. quiet ≡ (self.now.quiet && not (is_write_divergence self.now.servers.map.pairs captured.now replayed.now))) }
    {
        Ok(self.quiet && !self.servers.diverges(alloc, captured, replayed)?)
    }
}
