//! What a machine keeps to answer by: the versions of rows, where keys stand, and who holds what.
//!
//! Enters: the rows of a start, commits, sessions. Leaves: rows as a session sees them, by reference, the row that has a key, and
//! whether a row or a key is held by another. It touches nothing but memory.
#![tactic(auto)]

mod holds;
mod index;
mod seeing;
mod stores;
mod tables;

pub use holds::{Others, beside, hold_key, hold_some_row, stands_among};
pub use index::{KeyIndex, indexes_of, note_commit};
pub use seeing::{count_seen, laid, looked, of_table, rows_seen, shown_of};
pub use stores::Stores;
pub use tables::{forget_unread, put_commit, row_at, tables_of};
