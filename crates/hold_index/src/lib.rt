//! Which session holds a row or a key of a table, found by maps, so that mostly nobody looks through what is held.
//!
//! Enters: sessions, rows and keys. Leaves: who holds them. It touches nothing but memory.
#![tactic(auto)]

mod index;
mod numbers;

pub use index::HoldIndex;
