//! What calls are answered, and what they do.

ghost use Rattle.std.specs.Prelude.{◌≡◌, ◌<◌, IfOk, ℕ, List, Option};
ghost use Rattle.sql_tree.specs.Plain.{plan_of};
ghost use Rattle.desk_schema.specs.Schema.{rights_of};
ghost use Rattle.server_words.specs.View.{view_of};
ghost use Rattle.server_words.specs.Request.{connect as connect_request, disconnect as disconnect_request, read, names_savepoint, request_of, statement as statement_request, statement_in, unsound};
ghost use Rattle.server_words.specs.Answer.{answer};
ghost use Rattle.server_words.specs.Step.{answer_in, answer_to, view_for};
ghost use Rattle.server_words.specs.Decision.{Decides};
ghost use Rattle.machine_model.specs.Inside.Machine.{Executes};
ghost use Rattle.machine_model.specs.Inside.Machine.{known_request};
ghost use Rattle.statement_cache.specs.Kept.{outcome_of, outcome_of_text};

use super::PlainMachine;
use desk_values::{Binds, Call, Fault, Memory, Outcome, Txt};
use server_words::{Decision, Deed};
use sql_eval::Ready;
use statement_acts::{answered, draws_of, refused, statement_fault};
use statement_cache::{Kept, read_kept};

impl PlainMachine {
    /// What a call is answered, and what it does.
    pub(super) fn decided(&self, session: usize, call: &Call) -> Result<Decision, Memory>
        requires { session < 64 }
        ensures { IfOk result
            (λ decision. Decides (view_for self.now.state session (request_of self.now.state.start.schema call.now))
            (answer_in self.now.state session call.now) decision) }
    {
        match call {
            Call::Connect(service) => Ok(self.connect(session, service)),
            Call::Disconnect => Ok(self.disconnect(session)),
            Call::Sql(text, binds) => self.sql(session, text, binds),
        }
    }

    fn connect(&self, session: usize, service: &Txt) -> Decision
        requires { session < 64 }
        ensures { Decides (view_of self.now.state session None)
            (answer self.now.state.start.schema
            (view_of self.now.state session None) self.now.state.next_values self.now.state.next_row
            (connect_request (rights_of self.now.state.start.schema.services service.now))) result }
    {
        let mine = self.session(session);
        if mine.rights.is_some() {
            return refused(self.alloc, Fault::AlreadyConnected);
        }
        match self.start.schema().service_named(service) {
            Some(rights) => answered(self.alloc, Outcome::Connected, Deed::Connects(rights)),
            None => refused(self.alloc, Fault::UnknownService),
        }
    }

    fn disconnect(&self, session: usize) -> Decision
        requires { session < 64 }
        ensures { Decides (view_of self.now.state session None)
            (answer self.now.state.start.schema
            (view_of self.now.state session None) self.now.state.next_values self.now.state.next_row disconnect_request) result }
    {
        let mine = self.session(session);
        match mine.rights {
            Some(_) => answered(self.alloc, Outcome::Disconnected, Deed::Disconnects),
            None => refused(self.alloc, Fault::NotConnected),
        }
    }

    /// What a text of SQL is answered, and what it does.
    fn sql(&self, session: usize, text: &Txt, binds: &Binds) -> Result<Decision, Memory>
        requires { session < 64 }
        ensures { IfOk result
            (λ decision. let request = read self.now.state.start.schema binds.now
            (statement_in self.now.state.start.schema.version text.now) in
            Decides (view_for self.now.state session request) (answer_to self.now.state session request) decision) }
    {
        match self.statements.find(text, binds) {
            Some(kept) => self.kept(session, kept, binds),
            None => {
                let kept = read_kept(self.alloc, self.start.schema(), text, binds)?;
                self.kept(session, &kept, binds)
            }
        }
    }

    /// What a text is answered that is this to a server.
    fn kept(&self, session: usize, kept: &Kept, binds: &Binds) -> Result<Decision, Memory>
        requires { session < 64 }
        ensures { (text : List ℕ) → outcome_of_text self.now.state.start.schema text binds.now ≡ outcome_of kept.now → IfOk result
            (λ decision. let request = read self.now.state.start.schema binds.now
            (statement_in self.now.state.start.schema.version text) in
            Decides (view_for self.now.state session request) (answer_to self.now.state session request) decision) }
    {
        match kept {
            Kept::Checked(ready) => self.known(session, ready, binds),
            Kept::Refused(fault) => Ok(self.unsound(session, *fault)),
            Kept::Unreadable => Ok(refused(self.alloc, Fault::Syntax)),
        }
    }

    /// What a checked statement is answered that this server has, or has not.
    fn known(&self, session: usize, ready: &Ready, binds: &Binds) -> Result<Decision, Memory>
        requires { session < 64 }
        ensures { IfOk result
            (λ decision. let request = known_request self.now.state.start.schema.version (plan_of ready.now) binds.now in
            Decides (view_for self.now.state session request) (answer_to self.now.state session request) decision) }
    {
        if self.start.schema().version() == 1 && names_savepoint(ready) {
            return Ok(refused(self.alloc, Fault::Syntax));
        }
        self.checked(session, ready, binds)
    }

    /// A statement that a check refuses.
    fn unsound(&self, session: usize, fault: Fault) -> Decision
        requires { session < 64 }
        ensures { (table : Option ℕ)
            → Decides (view_for self.now.state session (unsound table fault))
            (answer_to self.now.state session (unsound table fault)) result }
    {
        match self.session(session).rights {
            Some(_) => refused(self.alloc, fault),
            None => refused(self.alloc, Fault::NotConnected),
        }
    }

    /// What a checked statement is answered, and what it does.
    fn checked(&self, session: usize, ready: &Ready, binds: &Binds) -> Result<Decision, Memory>
        requires { session < 64 }
        ensures { IfOk result
            (λ decision. Decides (view_for self.now.state session (statement_request (plan_of ready.now) binds.now))
            (answer_to self.now.state session (statement_request (plan_of ready.now) binds.now)) decision) }
    {
        match statement_fault(self.session(session), ready) {
            Some(fault) => Ok(refused(self.alloc, fault)),
            None => self.executed(session, ready, binds),
        }
    }

    /// What a statement is answered that nothing forbids, and what it does.
    fn executed(&self, session: usize, ready: &Ready, binds: &Binds) -> Result<Decision, Memory>
        requires { session < 64 }
        ensures { IfOk result (λ decision. Executes self.now.state session binds.now (plan_of ready.now) decision) }
    {
        match ready {
            Ready::Select(table, items, condition, keys, for_update) => {
                self.select(session, *table, items, condition, keys, *for_update, binds)
            }
            Ready::Next(_) => self.next(ready),
            Ready::Insert(table, named, inputs) => {
                let draws = draws_of(self.alloc, ready, &self.next_values)?;
                self.insert(session, *table, draws, named, inputs, binds)
            }
            Ready::Update(table, settings, condition) => {
                self.update(session, *table, settings, condition, binds)
            }
            Ready::Delete(table, condition) => self.delete(session, *table, condition, binds),
            Ready::Commit => self.commit(session),
            Ready::Rollback => Ok(answered(self.alloc, Outcome::RolledBack, Deed::RollsBack)),
            Ready::SetReadOnly => Ok(answered(self.alloc, Outcome::Marked, Deed::ReadsOnly)),
            Ready::Savepoint(name) => self.savepoint(session, name),
            Ready::RollbackTo(name) => self.rollback_to(session, name),
        }
    }
}

/// Whether the statement is one on savepoints.
fn names_savepoint(ready: &Ready) -> bool
    ensures { result ≡ names_savepoint (plan_of ready.now) }
{
    matches!(ready, Ready::Savepoint(_) | Ready::RollbackTo(_))
}
