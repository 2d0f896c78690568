//! What is one in a replay and in its capture but for ids: lists as sets, and tables of the two servers as they move on.
//!
//! Enters: a map of ids, lists, and what the commits of both servers wrote to a table. Leaves: whether the second list is, as a set, the
//! first with each id replaced by its image; and whether a table has the same rows at two commits. Of a table just the rows are looked at
//! that a commit wrote. It touches nothing but memory.
#![tactic(auto)]

mod differences;
mod judging;
mod ledger;
mod sets;

pub use differences::Differences;
pub use judging::{Sides, Suspect};
pub use ledger::{Change, Ledger};
pub use sets::{Member, twin_sets};
