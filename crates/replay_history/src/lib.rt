//! What a replay is: its modes, its history of events, what makes a history legal and truthful, and
//! the report on one.
//!
//! The definitions stand in `specs/`, apart from any machine, lock or thread: whoever replays calls
//! cites them. Enters: nothing but the captured calls and the events that its definitions speak of.
//! Leaves: the words of modes and classes, and whether a reply is that of a numbered commit. It
//! touches nothing.
#![tactic(auto)]

mod commit;
mod limits;
mod mode;
mod report;

pub use commit::commits;
pub use limits::{CALL_LIMIT, PERCENT_LIMIT};
pub use mode::Mode;
pub use report::{Class, Line, Lines, Report};
