//! The versions of rows by the commits that wrote them, from which readers of an earlier commit are answered.
//!
//! Enters: numbers of commits and images of rows. Leaves: what a row was at a commit, and which rows there are. It touches nothing
//! but memory.
#![tactic(auto)]

mod versions;

pub use versions::Versions;
