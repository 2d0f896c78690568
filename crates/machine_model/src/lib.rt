//! A plain machine that answers every call to the SQL server as `server_words` says.
//!
//! Enters: a start, calls of 64 sessions. Leaves: replies, the committed rows. It touches nothing but memory.
//!
//! `PlainMachine` decides a call on what it borrows (`statement_acts`, by the rows of `visited_rows`), and then does what was
//! decided (`call_deeds`); want of memory comes before anything changes. What it keeps to answer by is of `machine_stores`.
#![tactic(auto)]

mod footing;
mod giving;
mod machine;
mod viewing;

pub use footing::Footing;
pub use machine::{Copies, PlainMachine};
pub use server_words::{KeyId, KeyIds, Point, Points, RowIds, View};
pub use viewing::table_of_call;
