//! What a call stands on, but for the rows of its table.

ghost use Rattle.std.specs.Prelude.{◌++◌, IfOk};
ghost use Rattle.std.specs.Ordering.{nat_cmp};
ghost use Rattle.desk_values.specs.Sorting.{kind_then_value};
ghost use Rattle.machine_model.specs.Footing.{keys_held_in, rows_held};
ghost use Rattle.server_words.specs.Views.{AreOnce};

use crate::viewing::{add_rows, keys_of_others, rows_once};
use desk_values::{List, Memory, Values};
use machine_stores::Others;
use server_words::{RowIds, View};
use std::alloc::Global;

/// What a call of a session can depend on beside the schema and the counters, but for the rows of its table: these are told by the commits that
/// the session reads and by its own changes.
#[derive(Drop)]
pub struct Footing {
    /// What the session has of its own: its view where a call is on no table.
    pub own: View,
    /// How many commits it reads.
    pub commits: u64,
    /// The rows that other sessions hold, of any table, ascending.
    pub held_rows: RowIds,
    /// The keys of the call's table that other sessions hold, as rows are sorted.
    pub held_keys: Values,
}

/// The rows that other sessions hold, each once.
pub fn rows_of_others(alloc: Global, others: Others<'_>) -> Result<RowIds, Memory>
    ensures { IfOk result
        (λ rows. AreOnce nat_cmp (rows_held (others.entry.before.now ++ others.entry.after.now)) rows) }
{
    let mut held = Vec::new(alloc);
    add_rows(others.before, &mut held)?;
    add_rows(others.after, &mut held)?;
    rows_once(alloc, held.as_slice())
}

/// The keys that they hold of a table, each once; none where there is no table.
pub fn keys_on(alloc: Global, others: Others<'_>, table: Option<u32>) -> Result<Values, Memory>
    ensures { IfOk result
        (λ keys. AreOnce kind_then_value (keys_held_in (others.entry.before.now ++ others.entry.after.now) table) keys) }
{
    match table {
        Some(table) => keys_of_others(alloc, others, table),
        None => Ok(List::new(alloc)),
    }
}
