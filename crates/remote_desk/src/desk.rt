ghost use Rattle.std.specs.Prelude.{EachIndex, ◌≡◌, ◌≤◌, ◌⊎◌, ◌↔◌, ◌*◌, ◌++◌, [], true, false, length, slice_index, replicate, IfOk, IfSome, IsTrue, MatchOption, OnErr, OnOk};
ghost use Rattle.desk_values.specs.Good.{IsGoodReply};
ghost use Rattle.desk_values.specs.declared.capture.Captured.{Captured};
ghost use Rattle.replay_history.specs.Gap.{IsCallAt};
ghost use Rattle.replay_history.specs.History.{AnswersAll, IsWaiting};
ghost use Rattle.remap_ids.specs.IdMap.{start_pairs};
ghost use Rattle.replay_job.specs.Job.{IsReplayable, seen};
ghost use Rattle.replay_job.specs.Runs.{IsSessionDone, IsFirstOpen, IsPauseIn, IsPick, MayStart, NoneMayStart};
ghost use Rattle.remote_desk.specs.Desk.{IsDispatched, IsHeard, IsKept, MayAnswer, MayDispatch, new_desk, with_start};
ghost use Rattle.remote_desk.specs.History.{IsSent, plain, plain_of};
ghost use Rattle.remap_ids.specs.Sent.{HasLowIds, sent};
ghost use Rattle.remote_desk.specs.Inside.{AreParts};

use crate::event::{RemoteEvent, RemoteHistory};
use desk_values::{Call, Copied, Event, History, Memory, Reply};
use remap_ids::IdMap;
use replay_job::Job;
use replay_schedule::{Course, Schedule};
use std::alloc::Global;
use std::marker::Model;

/// A replay under way whose calls are answered elsewhere. Contracts see its job, its history, the pairs of ids that this leads to,
/// and whether it is stopped. The history is always a legal remote history of the job, and each start and each answer of it has a
/// text.
pub struct RemoteDesk {
    alloc: Global,
    schedule: Schedule,
    map: IdMap,
    sent: Vec<bool>,
    events: RemoteHistory,
}

// Written out: a caller then drops it by one call, which keeps the caller's proof small.
impl Drop for RemoteDesk {
    fn drop(self) {
        let RemoteDesk {
            alloc: _alloc,
            schedule: _schedule,
            map: _map,
            sent: _sent,
            events: _events,
        } = self;
    }
}

impl Model for RemoteDesk {
    ghost use Rattle.remote_desk.specs.Desk.{RemoteView};

    ghost Value = { RemoteView };

    ghost use Rattle.remote_desk.specs.Inside.{IsDesk};
    ghost use Rattle.remote_desk.specs.View.{view_of};

    ghost view = { view_of };

    ghost invariant = { IsDesk };
}

// What a desk begins with beside its schedule.
#[derive(Drop)]
struct Parts {
    map: IdMap,
    sent: Vec<bool>,
    events: RemoteHistory,
}

impl Parts {
    // The parts of a desk of which nothing is started.
    fn of(alloc: Global, job: &Job) -> Result<Parts, Memory>
        requires { IsReplayable (seen job.now) }
        ensures { IfOk result (AreParts job.now) }
    {
        let map = IdMap::from_start(alloc, &job.start)?;
        let (events, sent) = sheet_of(alloc, job.calls.len())?;
        Ok(Parts { map, sent, events })
    }
}

// A history without events, with room for three of each of so many calls, and which of them are sent: none.
fn sheet_of(alloc: Global, calls: usize) -> Result<(RemoteHistory, Vec<bool>), Memory>
    requires { calls ≤ 100000 }
    ensures events { IfOk result (λ made. made.0.items ≡ []) }
    ensures room { IfOk result (λ made. 3 * calls ≤ made.0.spare) }
    ensures sent { IfOk result (λ made. made.1.items ≡ replicate calls false) }
{
    let sent = vec![in alloc; false; calls]?;
    let mut events = RemoteHistory::new(alloc);
    events.reserve(3 * calls as u32)?;
    Ok((events, sent))
}

impl RemoteDesk {
    /// The desk of a job of which nothing is started. It has room for a start, a sent call and an answer of each call.
    pub fn setup(alloc: Global, job: Job) -> Result<RemoteDesk, Memory>
        requires { IsReplayable (seen job) }
        ensures { IfOk result (λ desk. desk ≡ new_desk (seen job)) }
    {
        let Parts { map, sent, events } = Parts::of(alloc, &job)?;
        let schedule = Schedule::setup(alloc, job)?;
        Ok(RemoteDesk {
            alloc,
            schedule,
            map,
            sent,
            events,
        })
    }

    /// What a desk keeps: its history is a legal remote one of its job, and leads to its pairs. It does nothing: its contract is
    /// a law.
    pub fn history_is_kept(&self)
        ensures { IsKept self.now }
    {
        let _ = self.events.len();
    }

    /// A call that may be started, of the first session of a lane that has one, or `None` where none of them has one.
    pub fn pick(&self, lane: &[u32]) -> Option<u32>
        ensures { MatchOption result
            (EachIndex lane.now (λ i. NoneMayStart self.now.job (plain self.now.events) (slice_index lane.now i)))
            (IsPick self.now.job (plain self.now.events) lane.now) }
    {
        self.schedule.pick(lane)
    }

    /// The least stamp of a call that is not answered, or `None` where all are. It is started or may be.
    pub fn first_open(&self) -> Option<u32>
        ensures least { MatchOption result (AnswersAll self.now.job.calls (plain self.now.events)) (IsFirstOpen self.now.job (plain self.now.events)) }
        ensures never_stuck { IfSome result (λ k. IsWaiting (plain self.now.events) k ⊎ MayStart self.now.job (plain self.now.events) k) }
    {
        self.schedule.first_open()
    }

    /// Whether every call of a lane's sessions is answered.
    pub fn done(&self, lane: &[u32]) -> bool
        ensures { IsTrue result ↔ EachIndex lane.now (λ i. IsSessionDone self.now.job (plain self.now.events) (slice_index lane.now i)) }
    {
        self.schedule.done(lane)
    }

    /// Whether a call is started and not sent.
    pub fn unsent(&self, k: u32) -> bool
        ensures { IsTrue result ↔ MayDispatch self.now.events k }
    {
        self.schedule.waiting(k) && !self.is_sent(k)
    }

    /// Whether a call is sent and not answered.
    pub fn awaits(&self, k: u32) -> bool
        ensures { IsTrue result ↔ MayAnswer self.now.events k }
    {
        self.schedule.waiting(k) && self.is_sent(k)
    }

    // Whether a call of the job is sent.
    fn is_sent(&self, k: u32) -> bool
        ensures { IsTrue result ↔ IsSent self.now.events k }
    {
        match self.sent.get(k as usize) {
            Some(sent) => *sent,
            None => false,
        }
    }

    /// Starts a call, and gives the pause before it.
    pub fn start(&mut self, k: u32) -> u64
        requires ready { MayStart self.old.job (plain self.old.events) k }
        requires going { self.old.stopped ≡ false }
        ensures appended { self.new ≡ with_start self.old k result }
        ensures pause { (call : Captured) → IsCallAt self.old.job.calls k call → IsPauseIn self.old.job call result }
        ensures waiting { IsWaiting (plain self.new.events) k }
    {
        let pause = self.schedule.start(k);
        self.events.push(RemoteEvent::Start(k, pause)).unwrap();
        pause
    }

    /// Notes that a call is sent, and gives what is sent in its place by the pairs so far. An `Err` changes nothing.
    pub fn dispatch(&mut self, k: u32) -> Result<Call, Memory>
        requires { MayDispatch self.old.events k }
        ensures ok { IfOk result (λ call. IsDispatched self.old k call self.new) }
        ensures err { OnErr result (self.new ≡ self.old) }
    {
        let call = sent_call(self.schedule.job(), &self.map, k)?;
        let kept = call.copy()?;
        self.sent[k as usize] = true;
        self.events.push(RemoteEvent::Sent(k, kept)).unwrap();
        Ok(call)
    }

    /// Notes the reply that came to a call, and learns its ids. An `Err` changes nothing.
    pub fn answer(&mut self, k: u32, reply: &Reply) -> Result<(), Memory>
        requires sent { MayAnswer self.old.events k }
        requires good { IsGoodReply reply.now }
        ensures ok { OnOk result (IsHeard self.old k reply.now self.new) }
        ensures err { OnErr result (self.new ≡ self.old) }
    {
        let kept = reply.copy()?;
        let captured = &self.schedule.job().calls.as_slice()[k as usize];
        self.map.learn_fresh(&captured.reply, reply)?;
        self.schedule.answer(k);
        self.events.push(RemoteEvent::Answer(k, kept)).unwrap();
        Ok(())
    }

    /// Stops the desk: no lane is to start a call any more.
    pub fn halt(&mut self)
        ensures { self.new ≡ record self.old { stopped = true } }
    {
        self.schedule.halt();
    }

    /// Whether it is stopped.
    pub fn stopped(&self) -> bool
        ensures { result ≡ self.now.stopped }
    {
        self.schedule.stopped()
    }

    /// What is replayed, and how.
    pub fn job(&self) -> &Job
        ensures { seen result.now ≡ self.now.job }
    {
        self.schedule.job()
    }

    /// What was started, sent and answered so far.
    pub fn events(&self) -> &RemoteHistory
        ensures { result.now.items ≡ self.now.events }
    {
        &self.events
    }

    /// Which replayed id stands for which captured one.
    pub fn map(&self) -> &IdMap
        ensures pairs { result.now.pairs ≡ self.now.pairs }
        ensures own { result.now.own ≡ length (start_pairs self.now.job.start) }
    {
        &self.map
    }

    /// The starts and the answers alone.
    pub fn history(&self) -> Result<History, Memory>
        ensures { IfOk result (λ history. history.items ≡ plain self.now.events) }
    {
        let mut history = History::new(self.alloc);
        for event in self.events.as_slice() {
            push_plain(event, &mut history)?;
        }
        Ok(history)
    }
}

impl Course for RemoteDesk {
    ghost job = { λ desk. desk.job };

    ghost history = { λ desk. plain desk.events };

    ghost stopped = { λ desk. desk.stopped };

    fn schedule(&self) -> &Schedule {
        &self.schedule
    }

    fn start(&mut self, k: u32) -> u64 {
        RemoteDesk::start(self, k)
    }

    fn halt(&mut self) {
        RemoteDesk::halt(self);
    }
}

// What is sent in the place of a call by these pairs.
fn sent_call(job: &Job, map: &IdMap, k: u32) -> Result<Call, Memory>
    requires { (captured : Captured) × IsCallAt (seen job.now).calls k captured × HasLowIds captured.call }
    ensures { IfOk result (λ call. (captured : Captured) × IsCallAt (seen job.now).calls k captured × (call ≡ sent map.now.pairs (seen job.now).remap captured.call)) }
{
    let captured = &job.calls.as_slice()[k as usize];
    map.send(&job.remap, &captured.call)
}

// Adds an event that a plain history has too.
fn push_plain(event: &RemoteEvent, to: &mut History) -> Result<(), Memory>
    ensures { OnOk result (to.new.items ≡ to.old.items ++ plain_of event.now) }
{
    match event {
        RemoteEvent::Start(k, pause) => to.push(Event::Start(*k, *pause)),
        RemoteEvent::Sent(_, _) => Ok(()),
        RemoteEvent::Answer(k, reply) => to.push(Event::Answer(*k, reply.copy()?)),
    }
}
