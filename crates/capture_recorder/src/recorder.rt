//! The recorder of calls.

ghost use Rattle.std.specs.Prelude.{◌≡◌, ◌≢◌, ℕ, ◌+◌, ◌<◌, ◌≤◌, false, if◌then◌else◌, length, IfOk, IfSome, OnOk, OnErr, IsSomeAnd, Some};
ghost use Rattle.desk_values.specs.Good.{IsGoodReply};
ghost use Rattle.capture_format.specs.SessionFile.{AreCallsOf, MayTellAll};
ghost use Rattle.server_words.specs.State.{is_connected, is_given, session_at};
ghost use Rattle.server_words.specs.Step.{reply_in, step};
ghost use Rattle.capture_recorder.specs.Limits.{accepted_limit};
ghost use Rattle.capture_recorder.specs.Recording.{IsRecording, Turns, captured, closed, closing_reply, connected_count, cut, is_stranger, kept_ended, opened, recorded, turned_away};
ghost use Rattle.captured_calls.specs.Sessions.{calls_of};

use crate::counters::Counters;
use crate::progress::Progress;
use crate::refusal::CallErr;
use crate::sessions::session_calls;
use desk_schema::Start;
use desk_values::{Call, CallList, Captured, Copied, LAST_MOMENT, Memory, Reply, Value};
use known_ids::KnownIds;
use replay_history::commits;
use std::alloc::Global;
use std::marker::Model;
use txn_engine::Engine;

/// How many calls are accepted; what is left of 100,000 is kept for the disconnects of 64 sessions.
pub const ACCEPTED_LIMIT: usize = 99_936;

/// A reply twice.
#[derive(Drop)]
pub struct Twice {
    /// The reply.
    pub reply: Reply,
    /// The same.
    pub same: Reply,
}

/// A server whose calls are recorded. Contracts see the start, the calls by stamp and the state of the server. The calls
/// are always a legal capture from the start.
pub struct Recorder {
    alloc: Global,
    start: Start,
    engine: Engine,
    calls: CallList,
    numbered: u64,
    sessions: Vec<Progress>,
    /// The ids of the start's rows.
    known: KnownIds,
    /// What the engine gives out next.
    counters: Counters,
}

// Written out: a caller then drops it by one call, which keeps the caller's proof small.
impl Drop for Recorder {
    fn drop(self) {
        let Recorder {
            alloc: _alloc,
            start: _start,
            engine: _engine,
            calls: _calls,
            numbered: _numbered,
            sessions: _sessions,
            known: _known,
            counters: _counters,
        } = self;
    }
}

impl Model for Recorder {
    ghost use Rattle.capture_recorder.specs.Limits.{accepted_limit};
    ghost use Rattle.capture_recorder.specs.Recording.{Recording};
    ghost use Rattle.capture_recorder.specs.Inside.Keeping.{Keeps};

    ghost Value = { Recording };

    ghost view = { λ a. record { start = a.start; calls = a.calls.items; state = a.engine.state } };

    ghost invariant = { λ a. Keeps
        (record { start = a.start; calls = a.calls.items; state = a.engine.state }) a.engine a.numbered a.sessions.items a.known a.counters };
}

impl Recorder {
    /// A recorder of a server with nothing committed and nobody connected.
    pub fn load(alloc: Global, start: &Start) -> Result<Recorder, Memory>
        ensures { IfOk result (λ recorder. recorder ≡ opened start.now) }
    {
        let engine = Engine::load(alloc, start)?;
        let start = start.copy()?;
        let sessions = vec![in alloc; Progress { calls: 0, ended: 0 }; 64]?;
        let known = KnownIds::of_calls(alloc, start.rows().as_slice(), &[])?;
        let counters = Counters::of_start(alloc, &start)?;
        Ok(Recorder {
            alloc,
            start,
            engine,
            calls: CallList::new(alloc),
            numbered: 0,
            sessions,
            known,
            counters,
        })
    }

    /// The start.
    pub fn start(&self) -> &Start
        ensures value { result.now ≡ self.now.start }
        ensures valid { IsRecording self.now }
    {
        &self.start
    }

    /// The calls by stamp.
    pub fn calls(&self) -> &CallList
        ensures value { result.now.items ≡ self.now.calls }
        ensures valid { IsRecording self.now }
    {
        &self.calls
    }

    /// The calls of a session, in their order. They can be written as the session's file.
    pub fn session(&self, session: u32) -> Result<CallList, Memory>
        ensures value { IfOk result (λ list. list.items ≡ calls_of session self.now.calls) }
        ensures file { IfOk result (λ list. AreCallsOf session list.items) }
        ensures told { IfOk result (λ list. MayTellAll self.now.start.schema.version list.items) }
    {
        self.know_recording();
        let list = session_calls(self.alloc, self.calls.as_slice(), session)?;
        Ok(list)
    }

    /// Records a session's call that began and ended at these moments, and gives the server's reply twice. `Full` where it
    /// holds 99,936 calls or more, else `Stranger` where a bind is an id that stands neither in the start nor in what the
    /// server gave. The call is kept as beginning no earlier than its session's last call ended, and as ending no earlier
    /// than it began; both moments are at most the greatest of a capture. An `Err` changes nothing.
    pub fn call(
        &mut self,
        session: u32,
        call: &Call,
        began: u64,
        ended: u64,
    ) -> Result<Twice, CallErr>
        requires { session < 64 }
        ensures ok { OnOk result (self.new ≡ recorded self.old session call.now began ended) }
        ensures reply { IfOk result (λ twice. twice.reply ≡ reply_in self.old.state session call.now) }
        ensures same { IfOk result (λ twice. twice.same ≡ twice.reply) }
        ensures good { IfOk result (λ twice. IsGoodReply twice.reply) }
        ensures turned { Turns result (turned_away self.old call.now) }
        ensures err { OnErr result (self.new ≡ self.old) }
    {
        match self.refusal(call) {
            Some(refusal) => Err(refusal),
            None => Ok(self.record(session, call, began, ended)?),
        }
    }

    /// The same with a call that is handed over, so that it is not copied.
    pub(crate) fn accept(
        &mut self,
        session: u32,
        call: Call,
        began: u64,
        ended: u64,
    ) -> Result<Twice, CallErr>
        requires { session < 64 }
        ensures ok { OnOk result (self.new ≡ recorded self.old session call began ended) }
        ensures reply { IfOk result (λ twice. twice.reply ≡ reply_in self.old.state session call) }
        ensures same { IfOk result (λ twice. twice.same ≡ twice.reply) }
        ensures good { IfOk result (λ twice. IsGoodReply twice.reply) }
        ensures turned { Turns result (turned_away self.old call) }
        ensures err { OnErr result (self.new ≡ self.old) }
    {
        match self.refusal(&call) {
            Some(refusal) => Err(refusal),
            None => Ok(self.record_own(session, call, began, ended)?),
        }
    }

    /// Disconnects a session that is connected at this moment: it records the call and gives its reply. For another
    /// session it does nothing and gives `None`. Afterwards the session is not connected. The others are as they were, and
    /// so is all that is committed. An `Err` changes nothing.
    pub fn close(&mut self, session: u32, at: u64) -> Result<Option<Reply>, Memory>
        requires { session < 64 }
        ensures ok { OnOk result (self.new ≡ closed self.old session at) }
        ensures off { OnOk result (is_connected self.new.state session ≡ false) }
        ensures others { (other : ℕ) → other ≢ session → session_at self.new.state other ≡ session_at self.old.state other }
        ensures their_calls { (other : ℕ) → other ≢ session → calls_of other self.new.calls ≡ calls_of other self.old.calls }
        ensures commits { self.new.state.commits ≡ self.old.state.commits }
        ensures reply { IfOk result (λ reply. reply ≡ closing_reply self.old session) }
        ensures good { IfOk result (λ reply. IfSome reply (λ r. IsGoodReply r)) }
        ensures err { OnErr result (self.new ≡ self.old) }
    {
        if !self.engine.connected(session) {
            return Ok(None);
        }
        self.know_recording();
        let twice = self.append(session, Call::Disconnect, at, at)?;
        Ok(Some(twice.reply))
    }

    /// Why a call is turned away, if it is.
    fn refusal(&self, call: &Call) -> Option<CallErr>
        ensures { result ≡ turned_away self.now call.now }
    {
        if self.calls.len() >= ACCEPTED_LIMIT {
            return Some(CallErr::Full);
        }
        if self.is_stranger(call) {
            return Some(CallErr::Stranger);
        }
        None
    }

    /// Whether some bind is an id that was never given.
    fn is_stranger(&self, call: &Call) -> bool
        ensures { result ≡ is_stranger self.now.state call.now }
    {
        match call {
            Call::Sql(_, binds) => binds.as_slice().iter().any(|bind| !self.is_given(bind)),
            _ => false,
        }
    }

    /// Whether a client can know a value. It looks at no row.
    fn is_given(&self, value: &Value) -> bool
        ensures { result ≡ is_given self.now.state value.now }
    {
        !value.is_id() || self.known.knows(value, 0) || self.counters.has_given(&self.start, value)
    }

    /// Records a call that is not turned away.
    pub(crate) fn record(
        &mut self,
        session: u32,
        call: &Call,
        began: u64,
        ended: u64,
    ) -> Result<Twice, Memory>
        requires session { session < 64 }
        requires given { is_stranger self.old.state call.now ≡ false }
        requires room { length self.old.calls < accepted_limit }
        ensures ok { OnOk result (self.new ≡ recorded self.old session call.now began ended) }
        ensures reply { IfOk result (λ twice. twice.reply ≡ reply_in self.old.state session call.now) }
        ensures same { IfOk result (λ twice. twice.same ≡ twice.reply) }
        ensures good { IfOk result (λ twice. IsGoodReply twice.reply) }
        ensures err { OnErr result (self.new ≡ self.old) }
    {
        let call = call.copy()?;
        self.record_own(session, call, began, ended)
    }

    /// The same with a call that is handed over.
    fn record_own(
        &mut self,
        session: u32,
        call: Call,
        began: u64,
        ended: u64,
    ) -> Result<Twice, Memory>
        requires session { session < 64 }
        requires given { is_stranger self.old.state call ≡ false }
        requires room { length self.old.calls < accepted_limit }
        ensures ok { OnOk result (self.new ≡ recorded self.old session call began ended) }
        ensures reply { IfOk result (λ twice. twice.reply ≡ reply_in self.old.state session call) }
        ensures same { IfOk result (λ twice. twice.same ≡ twice.reply) }
        ensures good { IfOk result (λ twice. IsGoodReply twice.reply) }
        ensures err { OnErr result (self.new ≡ self.old) }
    {
        self.know_recording();
        self.append(session, call, began, ended)
    }

    /// A recorder holds what it promises. It costs nothing.
    fn know_recording(&self)
        ensures { IsRecording self.now }
    {
        let _numbered = self.numbered;
    }

    /// Records a call for which there is room, also for the disconnects that may follow. The room is taken before the
    /// server's step.
    pub(crate) fn append(
        &mut self,
        session: u32,
        call: Call,
        began: u64,
        ended: u64,
    ) -> Result<Twice, Memory>
        requires session { session < 64 }
        requires given { is_stranger self.old.state call ≡ false }
        requires room { length self.old.calls + connected_count (step self.old.state session call) < 100000 }
        ensures ok { OnOk result (self.new ≡ recorded self.old session call began ended) }
        ensures reply { IfOk result (λ twice. twice.reply ≡ reply_in self.old.state session call) }
        ensures same { IfOk result (λ twice. twice.same ≡ twice.reply) }
        ensures good { IfOk result (λ twice. IsGoodReply twice.reply) }
        ensures err { OnErr result (self.new ≡ self.old) }
    {
        self.start.know_rules();
        self.calls.reserve(1)?;
        let copies = self.engine.step_copies(session, &call)?;
        let place = self.sessions[session as usize];
        let began = cut(began.max(place.ended));
        let ended = cut(ended.max(began));
        let is_numbered = commits(&copies.first.outcome);
        self.calls.push(Captured {
            session,
            place: place.calls,
            stamp: self.calls.len() as u32,
            seen: self.numbered,
            number: commit_number(is_numbered, self.numbered),
            began,
            ended,
            call,
            reply: copies.third,
        })?;
        self.numbered = commits_after(is_numbered, self.numbered);
        self.sessions[session as usize] = Progress {
            calls: place.calls + 1,
            ended,
        };
        self.counters.note(&copies.first);
        Ok(Twice {
            reply: copies.first,
            same: copies.second,
        })
    }
}

/// A moment as it is kept.
fn cut(moment: u64) -> u64
    ensures { result ≡ cut moment }
{
    moment.min(LAST_MOMENT)
}

/// The number of a call after so many numbered commits.
fn commit_number(is_numbered: bool, commits: u64) -> u64
    requires { commits < 100000 }
    ensures { result ≡ (if is_numbered then commits + 1 else 0) }
{
    if is_numbered { commits + 1 } else { 0 }
}

/// How many numbered commits there are after it.
fn commits_after(is_numbered: bool, commits: u64) -> u64
    requires { commits < 100000 }
    ensures { result ≡ commits + (if is_numbered then 1 else 0) }
{
    if is_numbered { commits + 1 } else { commits }
}
