//! The pauses of a replay: how long each call waited in its capture, and how much of that a replay keeps.
//!
//! Enters: the calls of a capture by stamp, a time and a percentage. Leaves: by stamp the time before each call, and so
//! many hundredths of a time. It touches nothing but memory, and no clock.
#![tactic(auto)]

mod gap;

pub use gap::{Gap, Gaps, gaps_of, pause};
