//! A whole replay again, along its history, with the captured server beside it.
//!
//! Enters: a job, a whole replay of it, and what is asked of its answers. Leaves: which of them nothing stood before, and which met what they
//! met in the capture, but for ids; whether two views are one but for ids. Its laws say what is known where an answer or a call comes
//! next. It touches nothing but memory.
#![tactic(auto)]

mod along;
mod behind;
pub mod laws;
mod quiet;
mod server;
mod servers;
mod standing;
mod twins;

pub use along::{Asks, Walked, walk};
pub use twins::twin_views;
