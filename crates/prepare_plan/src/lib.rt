//! The legality of a capture, and what a replay needs of it: its calls by stamp, and what is known of each.
//!
//! Enters: a start, and the calls of its sessions as their files have them. Leaves: the calls by stamp with their facts,
//! or the first test that they fail and where. It touches nothing but memory.
//!
//! Each test is put to the whole capture before the next. Numbers, moments and ids are judged by the recorded replies;
//! the replies are judged by the SQL engine.
#![tactic(auto)]

mod facts;
mod gathering;
mod known;
mod prepared;
mod recorded;
mod replies;
mod seats;

pub use captured_calls::Refusal;
pub use prepared::{Prepared, prepare, prepare_owned};
pub use replay_history::CALL_LIMIT;
