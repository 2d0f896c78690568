//! The schedule of a replay: which calls of a job may start, and which are started and answered.
//!
//! Enters: a job, and the stamps of calls that are started and answered. Leaves: which calls may start, the pause before a call,
//! and what is left. It touches nothing but memory. Who answers the calls is no matter here: a desk of this house and one whose
//! calls are answered elsewhere both go by a schedule, and lanes see either as a [`Course`].
#![tactic(auto)]

mod course;
pub mod gate_laws;
mod schedule;

pub use course::{Answering, Course};
pub use schedule::Schedule;
