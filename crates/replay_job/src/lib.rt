//! What is to be replayed and how, and which histories a replay of it may have.
//!
//! Enters: a capture, the start that it is replayed on, and the ways of the replay. Leaves: a job, its copies, and the
//! definitions of its legal, truthful and complete histories, from which every mode, percentage and map is read. It touches
//! nothing but memory.
#![tactic(auto)]

mod job;
pub mod laws;

pub use job::Job;
