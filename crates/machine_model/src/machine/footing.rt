//! What calls stand on, but for rows of tables.

ghost use Rattle.std.specs.Prelude.{◌<◌, IfOk};
ghost use Rattle.machine_model.specs.Footing.{IsFootingOf};
ghost use Rattle.server_words.specs.Rows.{IsRising};

use super::PlainMachine;
use crate::footing::{Footing, keys_on, rows_of_others};
use crate::viewing::view_without_table;
use desk_values::Memory;
use machine_stores::count_seen;

impl PlainMachine {
    /// What a call of a session can depend on whose table is this one, or that has none, but for the rows of the table. No row of a table is
    /// looked at.
    pub fn footing(&self, session: u32, table: Option<u32>) -> Result<Footing, Memory>
        requires { session < 64 }
        ensures footing { IfOk result (IsFootingOf self.now.state session table) }
        ensures changes_rise { IfOk result (λ footing. IsRising footing.own.changes) }
    {
        self.know_sound();
        let session = session as usize;
        let beside = self.others(session);
        let mine = self.session(session);
        let own = view_without_table(self.alloc, mine)?;
        let held_rows = rows_of_others(self.alloc, beside)?;
        let held_keys = keys_on(self.alloc, beside, table)?;
        let commits = count_seen(mine.snapshot, self.stores.commits.len());
        Ok(Footing {
            own,
            commits: commits as u64,
            held_rows,
            held_keys,
        })
    }
}
