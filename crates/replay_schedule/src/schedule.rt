ghost use Rattle.std.specs.Prelude.{EachIndex, ◌≡◌, ◌<◌, ◌⊎◌, ◌↔◌, ◌++◌, ◌∷◌, [], false, true, length, replicate, slice_index, IfOk, IfSome, IsTrue, MatchOption, if◌then◌else◌};
ghost use Rattle.desk_values.specs.declared.call.Reply.{Reply};
ghost use Rattle.desk_values.specs.declared.capture.Captured.{Captured};
ghost use Rattle.desk_values.specs.declared.capture.Event.TheVariants.{Start as Starts, Answer as Answers};
ghost use Rattle.commit_gate.specs.Gates.{new_gate};
ghost use Rattle.replay_clock.specs.Gaps.{gaps_in};
ghost use Rattle.replay_history.specs.Gap.{IsCallAt};
ghost use Rattle.replay_history.specs.History.{AnswersAll, IsWaiting};
ghost use Rattle.replay_job.specs.Job.{IsReplayable, seen};
ghost use Rattle.replay_job.specs.Runs.{IsSessionDone, IsFirstOpen, IsPauseIn, IsPick, MayStart, NoneMayStart};
ghost use Rattle.replay_schedule.specs.Schedule.{Behind, BehindSome, Follows};

use commit_gate::Gate;
use desk_values::Memory;
use replay_clock::{Gaps, gaps_of, pause};
use replay_job::Job;
use std::alloc::Global;
use std::marker::Model;

/// What is started and answered of a job. Contracts see the job, the gate, the calls that are started and not answered, and whether it
/// is stopped; what it answers, they say of each history that it follows.
pub struct Schedule {
    job: Job,
    gaps: Gaps,
    gate: Gate,
    waiting: Vec<bool>,
    stopped: bool,
}

// Written out: a caller then drops it by one call, which keeps the caller's proof small.
impl Drop for Schedule {
    fn drop(self) {
        let Schedule {
            job: _job,
            gaps: _gaps,
            gate: _gate,
            waiting: _waiting,
            stopped: _stopped,
        } = self;
    }
}

impl Model for Schedule {
    ghost use Rattle.replay_schedule.specs.Schedule.{ScheduleView};

    ghost Value = { ScheduleView };

    ghost use Rattle.replay_schedule.specs.Inside.{IsSchedule};
    ghost use Rattle.replay_schedule.specs.View.{view_of};

    ghost view = { view_of };

    ghost invariant = { IsSchedule };
}

// How many hundredths of the time before a call are its pause, where it is its session's first and where not.
fn percentage(job: &Job, first: bool) -> u32
    ensures { result ≡ (if first then job.now.connect else job.now.think) }
{
    if first { job.connect } else { job.think }
}

// None of so many calls.
fn none_of(alloc: Global, calls: usize) -> Result<Vec<bool>, Memory>
    ensures { IfOk result (λ none. none.items ≡ replicate calls false) }
{
    let none = vec![in alloc; false; calls]?;
    Ok(none)
}

// The times before the calls of a job.
fn gaps_before(alloc: Global, job: &Job) -> Result<Gaps, Memory>
    requires { IsReplayable (seen job.now) }
    ensures { IfOk result (λ gaps. gaps ≡ gaps_in job.now.calls.items) }
{
    gaps_of(alloc, &job.calls)
}

// The gate of a job, where none is started.
fn gate_of(alloc: Global, job: &Job) -> Result<Gate, Memory>
    requires { IsReplayable (seen job.now) }
    ensures { IfOk result (λ gate. gate ≡ new_gate job.now.facts job.now.mode) }
{
    Gate::new(alloc, &job.facts, job.mode)
}

impl Schedule {
    /// The schedule of a job of which nothing is started.
    pub fn setup(alloc: Global, job: Job) -> Result<Schedule, Memory>
        requires { IsReplayable (seen job) }
        ensures job { IfOk result (λ schedule. schedule.job ≡ seen job) }
        ensures follows { IfOk result (λ schedule. Follows schedule []) }
        ensures going { IfOk result (λ schedule. schedule.stopped ≡ false) }
    {
        let gaps = gaps_before(alloc, &job)?;
        let gate = gate_of(alloc, &job)?;
        let waiting = none_of(alloc, job.calls.len())?;
        Ok(Schedule {
            job,
            gaps,
            gate,
            waiting,
            stopped: false,
        })
    }

    /// Whether a call may be started: the history with its start would be a legal one.
    pub fn ready(&self, k: u32) -> bool
        ensures { Behind self.now (λ history. IsTrue result ↔ MayStart self.now.job history k) }
    {
        self.gate.ready(k)
    }

    /// Whether a call is started and not answered.
    pub fn waiting(&self, k: u32) -> bool
        ensures { Behind self.now (λ history. IsTrue result ↔ IsWaiting history k) }
    {
        let stamp = k as usize;
        if stamp < self.waiting.len() {
            self.waiting[stamp]
        } else {
            false
        }
    }

    /// A call that may be started, of the first session of a lane that has one, or `None` where none of them has one.
    pub fn pick(&self, lane: &[u32]) -> Option<u32>
        ensures { Behind self.now (λ history. MatchOption result
            (EachIndex lane.now (λ i. NoneMayStart self.now.job history (slice_index lane.now i)))
            (IsPick self.now.job history lane.now)) }
    {
        self.gate.pick(lane)
    }

    /// The least stamp of a call that is not answered, or `None` where all are. It is started or may be.
    pub fn first_open(&self) -> Option<u32>
        ensures least { Behind self.now (λ history. MatchOption result (AnswersAll self.now.job.calls history) (IsFirstOpen self.now.job history)) }
        ensures never_stuck { Behind self.now (λ history. IfSome result (λ k. IsWaiting history k ⊎ MayStart self.now.job history k)) }
    {
        self.gate.first_open()
    }

    /// Whether every call of a lane's sessions is answered.
    pub fn done(&self, lane: &[u32]) -> bool
        ensures { Behind self.now (λ history. IsTrue result ↔ EachIndex lane.now (λ i. IsSessionDone self.now.job history (slice_index lane.now i))) }
    {
        self.gate.done(lane)
    }

    // The pause before a call.
    fn pause_before(&self, k: u32) -> u64
        requires replayable { IsReplayable self.now.job }
        requires stamp { k < length self.now.job.calls }
        ensures { (call : Captured) → IsCallAt self.now.job.calls k call → IsPauseIn self.now.job call result }
    {
        let gap = self.gaps.as_slice()[k as usize];
        pause(gap.micros, percentage(&self.job, gap.first))
    }

    /// Starts a call, and gives the pause before it.
    pub fn start(&mut self, k: u32) -> u64
        requires { BehindSome self.old (λ history. MayStart self.old.job history k) }
        ensures follows { Behind self.old (λ history. MayStart self.old.job history k → Follows self.new (history ++ Starts k result ∷ [])) }
        ensures pause { (call : Captured) → IsCallAt self.old.job.calls k call → IsPauseIn self.old.job call result }
        ensures job { self.new.job ≡ self.old.job }
        ensures stopped { self.new.stopped ≡ self.old.stopped }
    {
        let pause = self.pause_before(k);
        self.gate.start(k);
        self.waiting[k as usize] = true;
        pause
    }

    /// Notes that a call is answered, with whatever reply.
    pub fn answer(&mut self, k: u32)
        requires { BehindSome self.old (λ history. IsWaiting history k) }
        ensures follows { Behind self.old (λ history. IsWaiting history k → (reply : Reply) → Follows self.new (history ++ Answers k reply ∷ [])) }
        ensures job { self.new.job ≡ self.old.job }
        ensures stopped { self.new.stopped ≡ self.old.stopped }
    {
        self.gate.answer(k);
        self.waiting[k as usize] = false;
    }

    /// Stops it: no lane is to start a call any more.
    pub fn halt(&mut self)
        ensures { self.new ≡ record self.old { stopped = true } }
    {
        self.stopped = true;
    }

    /// Whether it is stopped.
    pub fn stopped(&self) -> bool
        ensures { result ≡ self.now.stopped }
    {
        self.stopped
    }

    /// What is replayed, and how.
    pub fn job(&self) -> &Job
        ensures { seen result.now ≡ self.now.job }
    {
        &self.job
    }
}
