//! The recorder: calls of up to 64 sessions in, a legal capture out; and a capture that is generated.
//!
//! Enters: a start, calls of sessions with their moments. Leaves: the server's replies, and all calls as they were
//! captured. It touches nothing but memory.
//!
//! `specs` says what a recorder holds (`Recording`) and by one function what a call adds to it (`recorded`). Which calls
//! are turned away, what closing a session does and what the generated capture is are said by the same function.
#![tactic(auto)]

mod counters;
mod door;
mod evidence;
mod gathering;
mod generated;
mod locked_door;
mod progress;
mod recorder;
mod refusal;
mod sessions;

pub use door::{CallDoor, Said, SaidList, SaidLists, Turned, TurnedList, TurnedLists};
pub use gathering::{GatherErr, gather};
pub use generated::{GENERATED_SESSIONS, generate};
pub use locked_door::LockedDoor;
pub use recorder::{ACCEPTED_LIMIT, Recorder, Twice};
pub use refusal::CallErr;
pub use sessions::sessions_of;
