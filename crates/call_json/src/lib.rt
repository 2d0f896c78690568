//! Calls and replies as JSON texts, as clients of the server write and read them.
//!
//! Enters: a call or a reply, or the bytes of a text. Leaves: the one text that is written for it, or the call or reply
//! that the bytes are a text of. What a JSON text is, and which value it has, `serde_json` says; `json` writes its tokens. It
//! touches nothing but memory.
#![tactic(auto)]

mod call_reading;
mod call_writing;
mod calls;
mod json_err;
mod knowing;
pub mod laws;
mod members;
mod replies;
mod reply_reading;
mod reply_writing;
mod spelled;
mod spelled_call;
mod spelled_reply;
mod value_reading;
mod writing;

pub use calls::{call_from_json, call_to_json};
pub use json_err::JsonErr;
pub use knowing::know_limits;
pub use replies::{reply_from_json, reply_to_json};
