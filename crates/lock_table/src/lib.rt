//! Which session holds which rows and which keys of tables, until its transaction ends or goes back to a mark.
//!
//! Enters: sessions, rows and keys. Leaves: who holds them. It touches nothing but memory.
#![tactic(auto)]

mod holds;
mod locks;

pub use holds::{LockErr, Mark};
pub use locks::Locks;
