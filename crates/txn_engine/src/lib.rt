//! The SQL engine: sessions' calls in, their replies out, one step for each call.
//!
//! Enters: a start, calls of 64 sessions. Leaves: replies, the committed rows, and which ids were given. It touches
//! nothing but memory.
//!
//! Its clauses speak of the state and the step of `server_words` alone, so that what stands behind them can change. It knows what
//! `law_keys` says of each state that calls lead to, so its machine need not look for keys that stand twice.
#![tactic(auto)]

ghost use Rattle.std.specs.Prelude.{◌≡◌, ◌+◌, ◌<◌, length, take, IfOk, OnOk, OnErr};
ghost use Rattle.desk_values.specs.Good.{IsGoodReply};
ghost use Rattle.server_words.specs.Clean.{is_clean};
ghost use Rattle.server_words.specs.State.{is_connected, is_given, opening, tables};
ghost use Rattle.server_words.specs.Step.{Gives};
ghost use Rattle.server_words.specs.Sound.{AreStanding};
ghost use Rattle.machine_model.specs.Footing.{IsFootingOf};
ghost use Rattle.server_words.specs.Rows.{IsRising};
ghost use Rattle.txn_engine.specs.Reached.{IsReached};

use desk_schema::Start;
use desk_values::{Call, Images, Memory, Reply, Value};
use law_keys::no_key_stands_twice;
use machine_model::{Copies, Footing, PlainMachine};
use std::alloc::Global;
use std::marker::Model;

/// The engine. Contracts see the state of the server, and how many steps it has taken.
#[derive(Drop)]
pub struct Engine {
    machine: PlainMachine,
}

impl Model for Engine {
    ghost use Rattle.server_words.specs.Machine.{Running};
    ghost use Rattle.txn_engine.specs.Reached.{IsReached};

    ghost Value = { Running };

    ghost view = { λ a. a.machine };

    ghost invariant = { λ a. IsReached a.machine.state };
}

impl Engine {
    /// An engine with nothing committed and nobody connected.
    pub fn load(alloc: Global, start: &Start) -> Result<Engine, Memory>
        ensures { IfOk result (λ engine. engine ≡ record { state = opening start.now; steps = 0 }) }
    {
        start.know_rules();
        let machine = PlainMachine::load(alloc, start)?;
        Ok(Engine { machine })
    }

    /// Executes a call of a session. Every fault is inside the reply. An `Err` changes nothing.
    pub fn step(&mut self, session: u32, call: &Call) -> Result<Reply, Memory>
        requires session { session < 64 }
        requires steps { self.old.steps < 1048576 }
        ensures ok { IfOk result (λ reply. Gives self.old.state session call.now reply self.new.state) }
        ensures good { IfOk result (λ reply. IsGoodReply reply) }
        ensures steps { OnOk result (self.new.steps ≡ self.old.steps + 1) }
        ensures err { OnErr result (self.new ≡ self.old) }
    {
        no_key_stands_twice();
        self.machine.note_apart();
        self.machine.step(session, call)
    }

    /// The same step, with its reply three times.
    pub fn step_copies(&mut self, session: u32, call: &Call) -> Result<Copies, Memory>
        requires session { session < 64 }
        requires steps { self.old.steps < 1048576 }
        ensures ok { IfOk result (λ copies. Gives self.old.state session call.now copies.first self.new.state) }
        ensures second { IfOk result (λ copies. copies.second ≡ copies.first) }
        ensures third { IfOk result (λ copies. copies.third ≡ copies.first) }
        ensures good { IfOk result (λ copies. IsGoodReply copies.first) }
        ensures steps { OnOk result (self.new.steps ≡ self.old.steps + 1) }
        ensures err { OnErr result (self.new ≡ self.old) }
    {
        no_key_stands_twice();
        self.machine.note_apart();
        self.machine.step_copies(session, call)
    }

    /// What an engine keeps: calls led to its state, from a start that keeps the rules. So the laws of such states hold of it. It does
    /// nothing: its contract is a law.
    pub fn know_reached(&self)
        ensures { IsReached self.now.state }
    {
        let _machine = &self.machine;
    }

    /// How many steps it has taken.
    pub fn steps(&self) -> u64
        ensures { result ≡ self.now.steps }
    {
        self.machine.steps()
    }

    /// How many numbered commits there are.
    pub fn commits(&self) -> u64
        ensures { result ≡ length self.now.state.commits }
    {
        self.machine.commits()
    }

    /// Whether a session is connected.
    pub fn connected(&self, session: u32) -> bool
        ensures { result ≡ is_connected self.now.state session }
    {
        self.machine.connected(session)
    }

    /// Whether what a session sees of a table is what is committed: it is connected, its transaction reads the latest commit,
    /// and it has changed nothing.
    pub fn clean(&self, session: u32) -> bool
        ensures { result ≡ is_clean self.now.state session }
    {
        self.machine.clean(session)
    }

    /// What a call of a session can depend on whose table is this one, or that has none, but for the rows of the table.
    pub fn footing(&self, session: u32, table: Option<u32>) -> Result<Footing, Memory>
        requires { session < 64 }
        ensures footing { IfOk result (IsFootingOf self.now.state session table) }
        ensures changes_rise { IfOk result (λ footing. IsRising footing.own.changes) }
    {
        self.machine.footing(session, table)
    }

    /// Whether a client can know the value: it is no id, or the start or a step has given it out.
    pub fn given(&self, v: &Value) -> bool
        ensures { result ≡ is_given self.now.state v.now }
    {
        self.machine.given(v)
    }

    /// The committed rows of all tables, by ascending row.
    pub fn tables(&self) -> Result<Images, Memory>
        ensures value { IfOk result (λ rows. rows ≡ tables self.now.state (length self.now.state.commits)) }
        ensures standing { IfOk result (λ rows. AreStanding rows) }
    {
        self.machine.tables()
    }
}
