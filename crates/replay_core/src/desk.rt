ghost use Rattle.std.specs.Prelude.{EachIndex, ◌≡◌, ◌<◌, ◌≤◌, ◌↔◌, ◌⊎◌, ◌+◌, ℕ, [], true, false, length, slice_index, IfOk, IfSome, IsTrue, MatchOption, OnErr, OnOk};
ghost use Rattle.desk_values.specs.Good.{IsGoodReply};
ghost use Rattle.desk_values.specs.declared.capture.Captured.{Captured};
ghost use Rattle.server_words.specs.Sound.{AreStanding};
ghost use Rattle.server_words.specs.State.{tables};
ghost use Rattle.replay_history.specs.Gap.{IsCallAt};
ghost use Rattle.replay_history.specs.History.{AnswersAll, IsWaiting};
ghost use Rattle.remap_ids.specs.IdMap.{start_pairs};
ghost use Rattle.replay_job.specs.Job.{IsReplayable, seen};
ghost use Rattle.replay_job.specs.Runs.{Executes, IsSessionDone, IsFirstOpen, IsPauseIn, IsPick, MayStart, NoneMayStart};
ghost use Rattle.replay_core.specs.Desk.{IsAnswer, IsKept, new_desk, with_start};
ghost use Rattle.replay_core.specs.Inside.{AreParts, HasOpened, MayExecute};

use desk_schema::Start;
use desk_values::{Event, History, Images, Memory, Reply};
use remap_ids::IdMap;
use replay_job::Job;
use replay_schedule::{Answering, Course, Schedule};
use std::alloc::Global;
use std::marker::Model;
use txn_engine::Engine;

/// How many pairs of ids the replies to one call bring at most: a draw of each sequence, and a row.
const MOST_LEARNT: u32 = 17;

/// A replay under way. Contracts see its job, its history, how far that leads, and whether it is stopped. The history is
/// always a legal and truthful one of the job, and each of its events has a text.
pub struct Desk {
    schedule: Schedule,
    engine: Engine,
    map: IdMap,
    history: History,
}

// Written out: a caller then drops it by one call, which keeps the caller's proof small.
impl Drop for Desk {
    fn drop(self) {
        let Desk {
            schedule: _schedule,
            engine: _engine,
            map: _map,
            history: _history,
        } = self;
    }
}

impl Model for Desk {
    ghost use Rattle.replay_core.specs.Desk.{DeskView};

    ghost Value = { DeskView };

    ghost use Rattle.replay_core.specs.Inside.{IsDesk};
    ghost use Rattle.replay_core.specs.View.{view_of};

    ghost view = { view_of };

    ghost invariant = { IsDesk };
}

// What a desk begins with beside its schedule.
#[derive(Drop)]
struct Parts {
    engine: Engine,
    map: IdMap,
    history: History,
}

impl Parts {
    // The parts of a desk of which nothing is started.
    fn of(alloc: Global, job: &Job) -> Result<Parts, Memory>
        requires { IsReplayable (seen job.now) }
        ensures { IfOk result (AreParts job.now) }
    {
        let (engine, map) = server_of(alloc, job)?;
        let history = sheet_of(alloc, job.calls.len())?;
        Ok(Parts {
            engine,
            map,
            history,
        })
    }
}

// The server that has just begun, and the ids of the start.
fn server_of(alloc: Global, job: &Job) -> Result<(Engine, IdMap), Memory>
    ensures engine { IfOk result (λ made. HasOpened job.now.target made.0) }
    ensures pairs { IfOk result (λ made. made.1.pairs ≡ start_pairs job.now.start) }
    ensures own { IfOk result (λ made. made.1.own ≡ length made.1.pairs) }
{
    let engine = opened(alloc, &job.target)?;
    let map = IdMap::from_start(alloc, &job.start)?;
    Ok((engine, map))
}

// A server that has just begun.
fn opened(alloc: Global, start: &Start) -> Result<Engine, Memory>
    ensures { IfOk result (HasOpened start.now) }
{
    Engine::load(alloc, start)
}

// A history without events, with room for a start and an answer of so many calls.
fn sheet_of(alloc: Global, calls: usize) -> Result<History, Memory>
    requires { calls ≤ 100000 }
    ensures history { IfOk result (λ made. made.items ≡ []) }
    ensures room { IfOk result (λ made. calls + calls ≤ made.spare) }
{
    let mut history = History::new(alloc);
    history.reserve(2 * calls as u32)?;
    Ok(history)
}

impl Desk {
    /// The desk of a job of which nothing is started. It has room for a start and an answer of each call.
    pub fn setup(alloc: Global, job: Job) -> Result<Desk, Memory>
        requires { IsReplayable (seen job) }
        ensures { IfOk result (λ desk. desk ≡ new_desk (seen job)) }
    {
        let Parts {
            engine,
            map,
            history,
        } = Parts::of(alloc, &job)?;
        job.target.know_rules();
        let schedule = Schedule::setup(alloc, job)?;
        Ok(Desk {
            schedule,
            engine,
            map,
            history,
        })
    }

    /// What a desk keeps: its history is a legal and truthful one of its job, and each event has a text. It does nothing:
    /// its contract is a law.
    pub fn history_is_kept(&self)
        ensures { IsKept self.now }
    {
        let _ = self.history.len();
    }

    /// Whether a call may be started: the history with its start would be a legal one.
    pub fn ready(&self, k: u32) -> bool
        ensures { IsTrue result ↔ MayStart self.now.job self.now.history k }
    {
        self.schedule.ready(k)
    }

    /// Whether a call is started and not answered.
    pub fn waiting(&self, k: u32) -> bool
        ensures { IsTrue result ↔ IsWaiting self.now.history k }
    {
        self.schedule.waiting(k)
    }

    /// A call that may be started, of the first session of a lane that has one, or `None` where none of them has one.
    pub fn pick(&self, lane: &[u32]) -> Option<u32>
        ensures { MatchOption result
            (EachIndex lane.now (λ i. NoneMayStart self.now.job self.now.history (slice_index lane.now i)))
            (IsPick self.now.job self.now.history lane.now) }
    {
        self.schedule.pick(lane)
    }

    /// The least stamp of a call that is not answered, or `None` where all are. It is started or may be.
    pub fn first_open(&self) -> Option<u32>
        ensures least { MatchOption result (AnswersAll self.now.job.calls self.now.history) (IsFirstOpen self.now.job self.now.history) }
        ensures never_stuck { IfSome result (λ k. IsWaiting self.now.history k ⊎ MayStart self.now.job self.now.history k) }
    {
        self.schedule.first_open()
    }

    /// Whether every call of a lane's sessions is answered.
    pub fn done(&self, lane: &[u32]) -> bool
        ensures { IsTrue result ↔ EachIndex lane.now (λ i. IsSessionDone self.now.job self.now.history (slice_index lane.now i)) }
    {
        self.schedule.done(lane)
    }

    /// Starts a call, and gives the pause before it.
    pub fn start(&mut self, k: u32) -> u64
        requires ready { MayStart self.old.job self.old.history k }
        requires going { self.old.stopped ≡ false }
        ensures appended { self.new ≡ with_start self.old k result }
        ensures pause { (call : Captured) → IsCallAt self.old.job.calls k call → IsPauseIn self.old.job call result }
        ensures waiting { IsWaiting self.new.history k }
    {
        let pause = self.schedule.start(k);
        self.history.push(Event::Start(k, pause)).unwrap();
        pause
    }

    /// Answers a call: the server executes what is sent in its place, and the ids of its reply are learnt. An `Err` changes
    /// nothing.
    pub fn answer(&mut self, k: u32) -> Result<(), Memory>
        requires { IsWaiting self.old.history k }
        ensures ok { OnOk result (IsAnswer self.old k self.new) }
        ensures err { OnErr result (self.new ≡ self.old) }
    {
        let reply = executed(self.schedule.job(), &mut self.engine, &mut self.map, k)?;
        self.schedule.answer(k);
        self.history.push(Event::Answer(k, reply)).unwrap();
        Ok(())
    }

    /// Stops the desk: no lane is to start a call any more.
    pub fn halt(&mut self)
        ensures { self.new ≡ record self.old { stopped = true } }
    {
        self.schedule.halt();
    }

    /// Whether it is stopped.
    pub fn stopped(&self) -> bool
        ensures { result ≡ self.now.stopped }
    {
        self.schedule.stopped()
    }

    /// What is replayed, and how.
    pub fn job(&self) -> &Job
        ensures { seen result.now ≡ self.now.job }
    {
        self.schedule.job()
    }

    /// What was started and answered so far.
    pub fn history(&self) -> &History
        ensures { result.now.items ≡ self.now.history }
    {
        &self.history
    }

    /// Which replayed id stands for which captured one.
    pub fn map(&self) -> &IdMap
        ensures pairs { result.now.pairs ≡ self.now.stage.pairs }
        ensures own { result.now.own ≡ length (start_pairs self.now.job.start) }
    {
        &self.map
    }

    /// The committed rows of all tables, by ascending row.
    pub fn tables(&self) -> Result<Images, Memory>
        ensures value { IfOk result (λ rows. rows ≡ tables self.now.stage.state (length self.now.stage.state.commits)) }
        ensures standing { IfOk result (λ rows. AreStanding rows) }
    {
        self.engine.tables()
    }

    /// How many numbered commits there are.
    pub fn commits(&self) -> u64
        ensures { result ≡ length self.now.stage.state.commits }
    {
        self.engine.commits()
    }
}

impl Course for Desk {
    ghost job = { λ desk. desk.job };

    ghost history = { λ desk. desk.history };

    ghost stopped = { λ desk. desk.stopped };

    fn schedule(&self) -> &Schedule {
        &self.schedule
    }

    fn start(&mut self, k: u32) -> u64 {
        Desk::start(self, k)
    }

    fn halt(&mut self) {
        Desk::halt(self);
    }
}

impl Answering for Desk {
    type Refusal = Memory;

    fn answer(&mut self, k: u32) -> Result<(), Memory> {
        Desk::answer(self, k)
    }
}

// Executes a call on the server, and learns the ids of its reply. Room for these is taken first, so that a step of the
// server is always learnt.
fn executed(job: &Job, engine: &mut Engine, map: &mut IdMap, k: u32) -> Result<Reply, Memory>
    requires call { (call : Captured) × MayExecute (seen job.now) (record { state = engine.old.state; pairs = map.old.pairs }) k call }
    requires steps { engine.old.steps < 1048576 }
    ensures ok { IfOk result
        (λ reply. Executes (seen job.now) (record { state = engine.old.state; pairs = map.old.pairs }) k reply
        (record { state = engine.new.state; pairs = map.new.pairs })) }
    ensures good { IfOk result (λ reply. IsGoodReply reply) }
    ensures steps { OnOk result (engine.new.steps ≡ engine.old.steps + 1) }
    ensures engine { OnErr result (engine.new ≡ engine.old) }
    ensures map { OnErr result (map.new.pairs ≡ map.old.pairs) }
    ensures own { map.new.own ≡ map.old.own }
{
    let captured = &job.calls.as_slice()[k as usize];
    map.reserve(MOST_LEARNT)?;
    let sent = map.send(&job.remap, &captured.call)?;
    let reply = engine.step(captured.session, &sent)?;
    map.learn(&captured.reply, &reply).unwrap();
    Ok(reply)
}
