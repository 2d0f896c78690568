//! The files of a capture, as bytes.
//!
//! A capture is a start file, and a file of calls for each session. What is captured, and what a replay keeps of it, is
//! that of Oracle's Database Testing Guide and of Galanis et al., "Oracle Database Replay", SIGMOD 2008; the texts are
//! this repository's own.
//!
//! Enters: bytes of files, calls and replies, and starts, calls and replies to be written. Leaves: what the bytes spell, or
//! the one text of what is written. It touches nothing but memory.
#![tactic(auto)]

mod call;
mod known_texts;
pub mod laws;
mod name;
mod reply;
mod separated;
mod session;
mod session_line;
mod session_writer;
mod start;
mod start_line;
mod start_writer;

pub use call::{append_call, read_call, write_call};
pub use file_lines::FormErr;
pub use reply::{append_left, append_reply, read_reply, write_reply};
pub use session::read_session;
pub use session_line::{CallLine, SessionLine};
pub use session_writer::write_session;
pub use start::{StartFile, read_start};
pub use start_writer::write_start;
