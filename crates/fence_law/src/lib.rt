//! Plain reads of a fenced replay: SELECTs that hold nothing, of sessions that have changed nothing. Until a commit differs each of
//! them finds what it found when it was captured, ids exchanged.
//!
//! Enters: a job and a whole replay of it, or what is told of a replay along which was gone. Leaves: the stamps of these reads. It touches
//! nothing but memory.
#![tactic(auto)]

pub mod laws;
mod reads;
mod selects;
mod texts;

pub use reads::{plain_reads, reads_in};
pub use texts::fence_text;
