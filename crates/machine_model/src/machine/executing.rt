//! What statements are answered that nothing forbids, and what they do.

ghost use Rattle.std.specs.Prelude.{◌≡◌, ◌<◌, ◌∷◌, [], map, IfOk};
ghost use Rattle.server_words.specs.Draws.{draws_of};
ghost use Rattle.sql_tree.specs.Plain.{asked_of, change_of, condition_of, entry_of, plan_of, select as select_plan, insert as insert_plan, update as update_plan, delete as delete_plan};
ghost use Rattle.desk_schema.specs.Schema.{columns_of};
ghost use Rattle.server_words.specs.State.{session_at};
ghost use Rattle.server_words.specs.View.{view_of};
ghost use Rattle.server_words.specs.Answer.{gone_back, reply_of};
ghost use Rattle.server_words.specs.Decision.{Decides};
ghost use Rattle.machine_model.specs.Inside.Machine.{Executes};
ghost use Rattle.visited_rows.specs.Basis.{view_of_basis};
ghost use Rattle.found_rows.specs.Evaluation.{env_of};
ghost use Rattle.visited_rows.specs.Basis.{IsBasis};

use super::PlainMachine;
use desk_schema::Column;
use desk_values::{Binds, Copied, List, Memory, Outcome, Reply, Txt, Values};
use found_rows::Evaluation;
use server_words::{Decision, Deed, Savepoint};
use sql_eval::{Checked, Columns, Ready, ReadyInputs, ReadyItems, ReadyKeys, ReadySets};
use statement_acts::{answered, delete, draws_of, insert, select, update};
use visited_rows::Basis;

impl PlainMachine {
    /// What expressions are evaluated with.
    fn evaluation<'a>(&'a self, binds: &'a Binds) -> Evaluation<'a>
        ensures { env_of result ≡ record { level = self.now.state.start.schema.level; binds = binds.now } }
    {
        Evaluation {
            alloc: self.alloc,
            level: self.start.schema().level(),
            binds,
            no_values: &self.no_values,
            null: &self.null,
        }
    }

    /// What the session's transaction has is kept under this name.
    pub(super) fn savepoint(&self, session: usize, name: &Txt) -> Result<Decision, Memory>
        requires { session < 64 }
        ensures { IfOk result
            (λ decision. decision
            ≡ record {
              reply = reply_of Outcome.Marked [] None;
              deed = Deed.Marks (record { name = name.now; own = (session_at self.now.state session).own });
            }) }
    {
        let name = name.copy()?;
        let own = self.session(session).own.copied(self.alloc)?;
        let savepoint = Savepoint { name, own };
        Ok(answered(self.alloc, Outcome::Marked, Deed::Marks(savepoint)))
    }

    /// The session's transaction has again what it had at the savepoint of this name.
    pub(super) fn rollback_to(&self, session: usize, name: &Txt) -> Result<Decision, Memory>
        requires { session < 64 }
        ensures { IfOk result
            (λ decision. Decides (view_of self.now.state session None)
            (gone_back (view_of self.now.state session None) name.now) decision) }
    {
        let savepoints = &self.session(session).savepoints;
        match savepoints.place_of(name) {
            Some(place) => {
                let savepoint = &savepoints.as_slice()[place];
                let own = savepoint.own.copied(self.alloc)?;
                let deed = Deed::RollsBackTo(place + 1, own);
                Ok(answered(self.alloc, Outcome::RolledBack, deed))
            }
            None => Ok(answered(self.alloc, Outcome::RolledBack, Deed::Nothing)),
        }
    }

    /// A `SELECT`, on the table as the session sees it.
    pub(super) fn select(
        &self,
        session: usize,
        table: u32,
        items: &ReadyItems,
        condition: &Option<Checked>,
        keys: &ReadyKeys,
        for_update: bool,
        binds: &Binds,
    ) -> Result<Decision, Memory>
        requires { session < 64 }
        ensures { IfOk result
            (λ decision. Executes self.now.state session binds.now
            (select_plan table (asked_of items.now) (condition_of condition.now) keys.now for_update) decision) }
    {
        select(
            self.evaluation(binds),
            self.basis(session, table),
            items,
            condition,
            keys,
            for_update,
        )
    }

    /// An `INSERT`, whose row takes the next number.
    pub(super) fn insert(
        &self,
        session: usize,
        table: u32,
        draws: Values,
        named: &Option<Columns>,
        inputs: &ReadyInputs,
        binds: &Binds,
    ) -> Result<Decision, Memory>
        requires session { session < 64 }
        requires draws { draws ≡ draws_of (insert_plan table named.now (map entry_of inputs.now)) self.now.state.next_values }
        ensures { IfOk result
            (λ decision. Executes self.now.state session binds.now (insert_plan table named.now (map entry_of inputs.now)) decision) }
    {
        let columns = self.columns(table);
        insert(
            self.evaluation(binds),
            self.basis(session, table),
            columns,
            draws,
            self.next_row(),
            named,
            inputs,
        )
    }

    /// An `UPDATE`, of the rows that the session sees and the condition picks.
    pub(super) fn update(
        &self,
        session: usize,
        table: u32,
        settings: &ReadySets,
        condition: &Option<Checked>,
        binds: &Binds,
    ) -> Result<Decision, Memory>
        requires { session < 64 }
        ensures { IfOk result
            (λ decision. Executes self.now.state session binds.now
            (update_plan table (map change_of settings.now) (condition_of condition.now)) decision) }
    {
        let columns = self.columns(table);
        update(
            self.evaluation(binds),
            self.basis(session, table),
            columns,
            settings,
            condition,
        )
    }

    /// A `DELETE`, of the rows that the session sees and the condition picks.
    pub(super) fn delete(
        &self,
        session: usize,
        table: u32,
        condition: &Option<Checked>,
        binds: &Binds,
    ) -> Result<Decision, Memory>
        requires { session < 64 }
        ensures { IfOk result
            (λ decision. Executes self.now.state session binds.now (delete_plan table (condition_of condition.now)) decision) }
    {
        delete(
            self.evaluation(binds),
            self.basis(session, table),
            condition,
        )
    }

    /// The columns of a table.
    fn columns(&self, table: u32) -> &[Column]
        ensures { result.now ≡ columns_of self.now.state.start.schema.tables table }
    {
        self.start.schema().columns(table)
    }

    /// The number of the next row.
    fn next_row(&self) -> u64
        ensures { result ≡ self.now.state.next_row }
    {
        self.next_row
    }

    /// What a statement on a table can depend on.
    fn basis(&self, session: usize, table: u32) -> Basis<'_>
        requires { session < 64 }
        ensures is_basis { IsBasis result }
        ensures view { view_of_basis result ≡ view_of self.now.state session (Some table) }
        ensures table { result.table ≡ table }
    {
        Basis {
            session: self.session(session),
            others: self.others(session),
            table,
            start: self.start.rows().as_slice(),
            commits: &self.stores.commits,
            versions: &self.stores.versions,
            indexes: &self.stores.indexes,
            level: self.start.schema().level(),
            keys_differ: self.keys_differ,
        }
    }

    /// The next value of a sequence.
    pub(super) fn next(&self, ready: &Ready) -> Result<Decision, Memory>
        ensures reply { IfOk result
            (λ decision. decision.reply
            ≡ record {
              outcome = Outcome.Rows (draws_of (plan_of ready.now) self.now.state.next_values ∷ []);
              draws = draws_of (plan_of ready.now) self.now.state.next_values;
              made = None;
            }) }
        ensures deed { IfOk result (λ decision. decision.deed ≡ Deed.Nothing) }
    {
        let draws = draws_of(self.alloc, ready, &self.next_values)?;
        let mut rows = List::new(self.alloc);
        rows.push(draws.copy()?)?;
        Ok(Decision {
            reply: Reply {
                outcome: Outcome::Rows(rows),
                draws,
                made: None,
            },
            deed: Deed::Nothing,
        })
    }

    /// The session's changes are committed.
    pub(super) fn commit(&self, session: usize) -> Result<Decision, Memory>
        requires { session < 64 }
        ensures { IfOk result
            (λ decision. decision
            ≡ record {
              reply = reply_of (Outcome.Committed (session_at self.now.state session).own.changes) [] None;
              deed = Deed.Commits;
            }) }
    {
        let changes = self.session(session).own.changes.images(self.alloc)?;
        Ok(answered(
            self.alloc,
            Outcome::Committed(List::from_vec(changes)),
            Deed::Commits,
        ))
    }
}
