//! The schema of a database and the start of a replay: tables, columns, sequences, services, and rows.
//!
//! Enters: the lines of a start, one call each, and the bytes of a change file. Leaves: a start that keeps every rule of
//! its lines, and what a change makes of it.
//! It touches nothing but memory.
#![tactic(auto)]

mod additions;
mod change;
mod declaring;
mod draft;
mod edit;
mod editing;
mod keys;
pub mod laws;
mod line;
mod lookup;
mod names;
mod rules;
mod schema;
mod start;

pub use change::ChangeErr;
pub use draft::{Draft, DraftErr};
pub use line::{ColumnKind, StartLine};
pub use names::is_name;
pub use schema::{Column, Kind, Rights, Schema, Service, Table, is_version};
pub use start::Start;
