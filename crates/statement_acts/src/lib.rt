//! What statements are answered and do: SELECT, INSERT, UPDATE, DELETE, and what forbids them.
//!
//! Enters: a checked statement, and what it can depend on (`Basis`). Leaves: its decision, a reply and a deed; nothing is done yet.
//! It touches nothing but memory.
#![tactic(auto)]

mod answering;
mod deciding;
mod deleting;
mod draws;
mod inserting;
mod permission;
mod selecting;
mod updating;

pub use answering::{answered, refused};
pub use deleting::delete;
pub use draws::{draws_of, move_sequences};
pub use inserting::insert;
pub use permission::statement_fault;
pub use selecting::select;
pub use updating::update;
