//! The register of runs: reports kept by name, divergences that were accepted, and what differs between two runs.
//!
//! Enters: names, reports, and the lines of two runs. Leaves: whether a report is new, what is kept, and the differences.
//! It touches nothing but the keeper that it is given.
#![tactic(auto)]

mod comparison;
mod keeper;
mod kept;
pub mod laws;
mod mem_keeper;
mod registering;

pub use comparison::{Difference, Differences, compare};
pub use keeper::Keeper;
pub use kept::{Accept, AcceptList, KeepErr, Kept, KeptList};
pub use mem_keeper::MemKeeper;
pub use registering::{RegErr, Registered, register};
pub use replay_history::{Line as RunLine, Lines as RunLines};
