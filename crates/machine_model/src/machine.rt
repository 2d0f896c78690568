//! The plain machine: a server of 64 sessions on one thread.

ghost use Rattle.std.specs.Prelude.{◌≡◌, ◌+◌, ◌-◌, ◌<◌, ◌^◌, All, ◌++◌, [], length, replicate, IfOk, OnOk, OnErr};
ghost use Rattle.std.specs.List.{AllByRecursion};
ghost use Rattle.sql_eval.specs.Totals.{looked_at};
ghost use Rattle.server_words.specs.Draws.{moved};
ghost use Rattle.server_words.specs.Apart.{KeysAreApart};
ghost use Rattle.server_words.specs.Clean.{is_clean};
ghost use Rattle.server_words.specs.Views.{IsViewOf, KeepsRising};
ghost use Rattle.server_words.specs.State.{disconnected, is_connected, is_given, opening, session_at, tables};
ghost use Rattle.server_words.specs.View.{others, plain_view, rows_seen, view_of};
ghost use Rattle.server_words.specs.Request.{request_of};
ghost use Rattle.server_words.specs.Step.{Gives, after, after_made, answer_in, committed_in, view_for};
ghost use Rattle.server_words.specs.Decision.{Decides, committed_by, done_so};
ghost use Rattle.machine_stores.specs.Holds.{IsBeside};
ghost use Rattle.desk_values.specs.Good.{IsGoodReply};
ghost use Rattle.server_words.specs.Sound.{AreStanding, IsSoundState};
ghost use Rattle.server_words.specs.Rows.{IsRising};

mod calls;
mod executing;
mod footing;

use crate::giving::{is_between, stands_in};
use crate::viewing::{copied, held_by_others, keys_of_others, table_of_call, view_without_table};
use call_deeds::enact;
use desk_schema::Start;
use desk_values::{Call, Copied, Image, Images, List, Memory, Reply, SESSION_LIMIT, Value, Values};
use found_rows::all_laid;
use hold_index::HoldIndex;
use machine_stores::{
    Others, Stores, beside, forget_unread, indexes_of, note_commit, rows_seen, tables_of,
};
use server_words::laws::tables_stand;
use server_words::{Decision, Session, View};
use statement_acts::move_sequences;
use statement_cache::Statements;
use std::alloc::Global;
use std::marker::Model;

/// A reply three times.
#[derive(Drop)]
pub struct Copies {
    /// The reply.
    pub first: Reply,
    /// The same.
    pub second: Reply,
    /// The same.
    pub third: Reply,
}

/// The plain machine. Contracts see its state, and how many steps it has taken.
pub struct PlainMachine {
    alloc: Global,
    start: Start,
    stores: Stores,
    next_row: u64,
    next_values: Vec<u64>,
    keys_differ: bool,
    statements: Statements,
    steps: u64,
    no_values: Values,
    null: Value,
}

// Written out: a caller then drops it by one call, which keeps the caller's proof small.
impl Drop for PlainMachine {
    fn drop(self) {
        let PlainMachine {
            alloc: _alloc,
            start: _start,
            stores: _stores,
            next_row: _next_row,
            next_values: _next_values,
            keys_differ: _keys_differ,
            statements: _statements,
            steps: _steps,
            no_values: _no_values,
            null: _null,
        } = self;
    }
}

impl Model for PlainMachine {
    ghost use Rattle.std.specs.Prelude.{◌≡◌, true, [], length};
    ghost use Rattle.desk_values.specs.declared.value.Value.TheVariants.{Null as NoValue};
    ghost use Rattle.server_words.specs.Apart.{KeysAreApart};
    ghost use Rattle.server_words.specs.Machine.{Running};
    ghost use Rattle.machine_stores.specs.Holds.{AreHeld};
    ghost use Rattle.machine_stores.specs.Index.{AreIndexes};
    ghost use Rattle.machine_model.specs.Inside.Machine.{Keeps};
    ghost use Rattle.statement_cache.specs.Kept.{AreRight};

    ghost Value = { Running };

    ghost view = { λ a.
        record {
          state = record {
            start = a.start;
            commits = a.stores.commits.items;
            next_row = a.next_row;
            next_values = a.next_values.items;
            sessions = a.stores.sessions.items;
          };
          steps = a.steps;
        } };

    ghost invariant = { λ a. Keeps
        (record {
          state = record {
            start = a.start;
            commits = a.stores.commits.items;
            next_row = a.next_row;
            next_values = a.next_values.items;
            sessions = a.stores.sessions.items;
          };
          steps = a.steps;
        })
        a.stores.versions.items
        × (a.no_values ≡ []) × (a.null ≡ NoValue) × AreIndexes a.stores.indexes.items a.stores.versions.items (length a.stores.commits.items) []
        × AreRight a.start.schema a.statements × AreHeld a.stores.holds a.stores.sessions.items
        × (a.keys_differ ≡ true → KeysAreApart
        (record {
          start = a.start;
          commits = a.stores.commits.items;
          next_row = a.next_row;
          next_values = a.next_values.items;
          sessions = a.stores.sessions.items;
        })) };
}

impl PlainMachine {
    /// A machine with nothing committed and nobody connected.
    pub fn load(alloc: Global, start: &Start) -> Result<PlainMachine, Memory>
        ensures { IfOk result (λ machine. machine ≡ record { state = opening start.now; steps = 0 }) }
    {
        let start = start.copy()?;
        let count = start.schema().tables().len();
        let versions = tables_of(alloc, start.rows().as_slice(), count)?;
        let indexes = indexes_of(alloc, &versions, 0)?;
        let next_row = start.next_row();
        let next_values = start.next_values().to_vec(alloc)?;
        let sessions = nobody(alloc)?;
        Ok(PlainMachine {
            alloc,
            start,
            stores: Stores {
                commits: Vec::new(alloc),
                sessions,
                versions,
                indexes,
                holds: HoldIndex::new(alloc),
            },
            next_row,
            next_values,
            keys_differ: false,
            statements: Statements::new(alloc),
            steps: 0,
            no_values: List::new(alloc),
            null: Value::Null,
        })
    }

    /// How many steps it has taken.
    pub fn steps(&self) -> u64
        ensures { result ≡ self.now.steps }
    {
        self.steps
    }

    /// How many numbered commits there are.
    pub fn commits(&self) -> u64
        ensures { result ≡ length self.now.state.commits }
    {
        self.stores.commits.len() as u64
    }

    /// Whether a session is connected.
    pub fn connected(&self, session: u32) -> bool
        ensures { result ≡ is_connected self.now.state session }
    {
        match self.stores.sessions.get(session as usize) {
            Some(session) => session.rights.is_some(),
            None => false,
        }
    }

    /// Whether what a session sees of a table is what is committed: it is connected, its transaction reads the latest commit,
    /// and it has changed nothing.
    pub fn clean(&self, session: u32) -> bool
        ensures { result ≡ is_clean self.now.state session }
    {
        match self.stores.sessions.get(session as usize) {
            Some(mine) => {
                mine.rights.is_some() && mine.snapshot.is_none() && mine.own.changes.len() == 0
            }
            None => false,
        }
    }

    /// What a call of a session can depend on.
    pub fn view(&self, session: u32, call: &Call) -> Result<View, Memory>
        requires { session < 64 }
        ensures view { IfOk result
            (λ view. IsViewOf (view_for self.now.state session (request_of self.now.state.start.schema call.now)) view) }
        ensures changes_rise { IfOk result (λ view. IsRising view.changes) }
        ensures rows_rise { IfOk result (λ view. IsRising view.rows) }
        ensures points_rise { IfOk result (λ view. AllByRecursion KeepsRising view.points) }
    {
        self.know_sound();
        let session = session as usize;
        let view = view_without_table(self.alloc, self.session(session))?;
        match table_of_call(self.alloc, self.start.schema(), call)? {
            Some(table) => self.with_table(session, table, view),
            None => Ok(view),
        }
    }

    // The view with the rows of a table, and what others hold there.
    fn with_table(&self, session: usize, table: u32, mut view: View) -> Result<View, Memory>
        requires session { session < 64 }
        requires view { IsViewOf (view_of self.now.state session None) view }
        ensures { IfOk result (λ view. IsViewOf (view_of self.now.state session (Some table)) view) }
    {
        let rows = self.rows(session, table)?;
        let others = self.others(session);
        view.rows = copied(self.alloc, &rows)?;
        view.others_rows = held_by_others(self.alloc, others, &rows)?;
        view.others_keys = keys_of_others(self.alloc, others, table)?;
        Ok(view)
    }

    /// Whether a client can know the value: it is no id, or the start or a step has given it out.
    pub fn given(&self, v: &Value) -> bool
        ensures { result ≡ is_given self.now.state v.now }
    {
        let rows = self.start.rows().as_slice();
        match v {
            Value::Row(row) => {
                stands_in(rows, v)
                    || is_between(Some(self.start.next_row()), Some(self.next_row), *row)
            }
            Value::Draw(sequence, drawn) => {
                let first = self.start.next_value(*sequence);
                let end = self.next_values.get(*sequence as usize).copied();
                stands_in(rows, v) || is_between(first, end, *drawn)
            }
            _ => true,
        }
    }

    /// The committed rows of all tables, by ascending row.
    pub fn tables(&self) -> Result<Images, Memory>
        ensures value { IfOk result (λ rows. rows ≡ tables self.now.state (length self.now.state.commits)) }
        ensures standing { IfOk result (λ rows. AreStanding rows) }
    {
        self.know_sound();
        tables_stand();
        let start = self.start.rows().as_slice();
        let rows = all_laid(self.alloc, start, &self.stores.commits)?;
        copied(self.alloc, &rows)
    }

    /// Executes a call of a session. Every fault is inside the reply. An `Err` changes nothing.
    pub fn step(&mut self, session: u32, call: &Call) -> Result<Reply, Memory>
        requires session { session < 64 }
        requires steps { self.old.steps < 1048576 }
        ensures ok { IfOk result (λ reply. Gives self.old.state session call.now reply self.new.state) }
        ensures good { IfOk result (λ reply. IsGoodReply reply) }
        ensures steps { OnOk result (self.new.steps ≡ self.old.steps + 1) }
        ensures err { OnErr result (self.new ≡ self.old) }
    {
        let decision = self.decision(session as usize, call)?;
        let reply = self.follow(session as usize, decision)?;
        reply.know_good();
        Ok(reply)
    }

    /// Executes a call of a session. Its reply is given three times: the copies are made before anything changes.
    pub fn step_copies(&mut self, session: u32, call: &Call) -> Result<Copies, Memory>
        requires session { session < 64 }
        requires steps { self.old.steps < 1048576 }
        ensures ok { IfOk result (λ copies. Gives self.old.state session call.now copies.first self.new.state) }
        ensures second { IfOk result (λ copies. copies.second ≡ copies.first) }
        ensures third { IfOk result (λ copies. copies.third ≡ copies.first) }
        ensures good { IfOk result (λ copies. IsGoodReply copies.first) }
        ensures steps { OnOk result (self.new.steps ≡ self.old.steps + 1) }
        ensures err { OnErr result (self.new ≡ self.old) }
    {
        let decision = self.decision(session as usize, call)?;
        let second = decision.reply.copy()?;
        let third = decision.reply.copy()?;
        let first = self.follow(session as usize, decision)?;
        first.know_good();
        Ok(Copies {
            first,
            second,
            third,
        })
    }

    /// No session sees two rows with one key: until something changes an INSERT looks for its key alone.
    pub fn note_apart(&mut self)
        requires { KeysAreApart self.old.state }
        ensures { self.new ≡ self.old }
    {
        self.keys_differ = true;
    }

    /// What a call is answered, and what it does. Its text is kept, if memory is there for that.
    fn decision(&mut self, session: usize, call: &Call) -> Result<Decision, Memory>
        requires { session < 64 }
        ensures same { self.new ≡ self.old }
        ensures sound { IsSoundState self.new.state }
        ensures decides { IfOk result
            (λ decision. Decides (view_for self.new.state session (request_of self.new.state.start.schema call.now))
            (answer_in self.new.state session call.now) decision) }
    {
        self.learn(call);
        self.know_sound();
        self.decided(session, call)
    }

    /// A machine's state is sound. It costs nothing.
    fn know_sound(&self)
        ensures { IsSoundState self.now.state }
    {
        let _steps = self.steps;
    }

    /// The session of this number.
    fn session(&self, session: usize) -> &Session
        requires { session < 64 }
        ensures { result.now ≡ session_at self.now.state session }
    {
        &self.stores.sessions[session]
    }

    /// The sessions beside it.
    fn others(&self, session: usize) -> Others<'_>
        requires { session < 64 }
        ensures others { result.before.now ++ result.after.now ≡ others self.now.state.sessions session }
        ensures beside { IsBeside result }
    {
        beside(&self.stores.sessions, session, &self.stores.holds)
    }

    /// Reads the text of a call, unless it is kept.
    fn learn(&mut self, call: &Call)
        ensures { self.new ≡ self.old }
    {
        if let Call::Sql(text, binds) = call {
            self.statements.learn(self.start.schema(), text, binds);
        }
    }

    /// A table's rows as a session sees them.
    fn rows(&self, session: usize, table: u32) -> Result<Vec<&Image>, Memory>
        requires { session < 64 }
        ensures { IfOk result
            (λ seen. looked_at seen.items
            ≡ rows_seen self.now.state.start.rows self.now.state.commits (session_at self.now.state session) table) }
    {
        rows_seen(
            self.alloc,
            self.start.rows().as_slice(),
            &self.stores.commits,
            &self.stores.versions,
            self.session(session),
            table,
        )
    }

    /// Does what was decided.
    fn follow(&mut self, session: usize, decision: Decision) -> Result<Reply, Memory>
        requires session { session < 64 }
        requires steps { self.old.steps < 1048576 }
        requires commits { committed_in decision.reply.outcome
            ≡ committed_by (plain_view (session_at self.old.state session)) decision.deed }
        requires sound { IsSoundState
            (after self.old.state session (done_so (plain_view (session_at self.old.state session)) decision.reply decision.deed)) }
        ensures reply { IfOk result (λ reply. reply ≡ decision.reply) }
        ensures ok { OnOk result
            (self.new ≡ record {
              state = after self.old.state session
                  (done_so (plain_view (session_at self.old.state session)) decision.reply decision.deed);
              steps = self.old.steps + 1;
            }) }
        ensures err { OnErr result (self.new ≡ self.old) }
    {
        let Decision { reply, deed } = decision;
        self.keys_differ = false;
        enact(
            self.alloc,
            &mut self.stores.commits,
            &mut self.stores.versions,
            &mut self.stores.sessions[session],
            &mut self.stores.holds,
            session as u32,
            deed,
        )?;
        note_commit(
            &self.stores.versions,
            self.stores.commits.len() as u64,
            &mut self.stores.indexes,
            &reply.outcome,
        );
        forget_unread(
            &mut self.stores.versions,
            &self.stores.sessions,
            self.stores.commits.len() as u64,
            &reply.outcome,
        );
        self.next_row = row_after(reply.made, self.next_row);
        move_all(&mut self.next_values, reply.draws.as_slice());
        self.steps += 1;
        Ok(reply)
    }
}

/// The number of the next row, where a row was made or none.
fn row_after(made: Option<u64>, next_row: u64) -> u64
    requires { next_row < 2 ^ 63 }
    ensures { result ≡ after_made made next_row }
{
    match made {
        Some(_) => next_row + 1,
        None => next_row,
    }
}

/// Each sequence that was drawn from moves by 1.
fn move_all(next_values: &mut Vec<u64>, draws: &[Value])
    requires { All (λ next. next < 2 ^ 64 - 1) next_values.old.items }
    ensures { next_values.new.items ≡ moved draws.now 0 next_values.old.items }
{
    move_sequences(next_values, draws);
}

/// Sessions of which none is connected.
fn nobody(alloc: Global) -> Result<Vec<Session>, Memory>
    ensures { IfOk result (λ sessions. sessions.items ≡ replicate 64 disconnected) }
{
    let mut sessions = Vec::new(alloc);
    for _ in 0..SESSION_LIMIT {
        sessions.push(Session::new(alloc))?;
    }
    Ok(sessions)
}
