//! Which calls a call of a replay waits for, beside those before it in its own session: the meaning of each mode.
//!
//! Enters: what was found out about the calls of a capture (`FactList`), and a mode. Leaves: of a call the stamps that it
//! requires, how many they are and the last of them, and the file `requires.csv`. It touches nothing but memory.
#![tactic(auto)]

mod csv;
mod fact;
pub mod laws;
mod needs;
mod tally;

pub use csv::requires_csv;
pub use fact::{Fact, FactList, are_sound, has_table};
pub use needs::Needs;
pub use replay_history::Mode;
