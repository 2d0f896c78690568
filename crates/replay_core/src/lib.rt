//! The desk of a replay: what is started and answered, on one server, by the rules of its job.
//!
//! Enters: a job, and the stamps of calls that are started and answered. Leaves: which calls may start, the pause before a
//! call, the history of starts and answers, the map of ids and the committed rows. It touches nothing but memory.
#![tactic(auto)]

mod desk;
pub mod laws;

pub use desk::Desk;
pub use replay_job::Job;
