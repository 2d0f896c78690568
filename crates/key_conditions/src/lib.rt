//! Which conditions let only rows of one key match, whatever the rows are.
//!
//! Enters: a condition that was checked, and its binds. Leaves: the key that it asks for, if it asks for one and can give no row a
//! fault. It touches nothing but memory. A statement with such a condition is answered by the rows of that key.
#![tactic(auto)]

mod parts;
mod sought;

ghost use Rattle.key_conditions.specs.Laws.{SoughtKeysMatch};

pub use sought::key_sought;

/// A condition that asks for a key has no fault at any row, and is true only of rows of that key.
pub fn sought_keys_match()
    ensures { SoughtKeysMatch }
{}
