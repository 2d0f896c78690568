//! Which rows have a key.
//!
//! Enters: tables, keys and rows. Leaves: the rows of a key. It touches nothing but memory.
#![tactic(auto)]

mod keys;
mod rows;
mod shelf;
mod stock;

pub use keys::Keys;
