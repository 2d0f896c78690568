//! What every call to the SQL server means.
//!
//! Enters and leaves: nothing but words. `specs` says what a call is answered and what it leaves (`Step`), by what it can depend
//! on (`View`); the types are those that these definitions speak of, sessions with their transactions, and the laws are of the
//! states and replies that the server comes to. It touches nothing but memory.
#![tactic(auto)]

mod causes;
mod effect;
pub mod laws;
mod row_keys;
mod rows;
mod savepoints;
mod session;
mod views;

pub use causes::Causes;
pub use effect::{Decision, Deed, Effect, Writing};
pub use row_keys::first_value;
pub use rows::Rows;
pub use savepoints::Savepoints;
pub use session::{HeldKey, Savepoint, Session, Transaction};
pub use views::{KeyId, KeyIds, Point, Points, RowIds, View};
