//! What is asked of a register of runs: to register a run, to list all, to accept a divergence, to compare two runs.
//!
//! Enters: an errand, and a keeper of runs. Leaves: what is printed and whether it tells of something new, or the cause why
//! it is not done, with its line and its status. It touches nothing but the keeper that it is given.
#![tactic(auto)]

mod doing;
mod errand;
mod lines;
mod reading;
mod unkept;

pub use doing::do_errand;
pub use errand::{Answer, Errand, ErrandErr};
pub use lines::bad_report_line;
pub use unkept::Unkept;
