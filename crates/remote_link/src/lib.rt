//! Lines to a server that runs elsewhere: a call goes out, its reply comes back.
//!
//! Enters: calls, and a port. Leaves: replies, or that a line failed. What is in memory touches nothing but memory; the real
//! dial touches the system's network, and an `HttpLink` the source and the sink that it is handed. Nothing is claimed of
//! what a server does with a call.
//!
//! `specs` says what a line tells of its calls (`Heard`), what a dial tells of its lines (`Dials`), and which bytes are sent
//! for a call and which give its reply (`Talk`).
#![tactic(auto)]

mod dial;
mod heard;
mod http_link;
mod inbox;
mod link;
mod link_err;
mod mem_dial;
mod mem_line;
mod real_dial;
mod replies;
mod request;

pub use dial::Dial;
pub use heard::{Heard, HeardList};
pub use http_link::HttpLink;
pub use link::Link;
pub use link_err::LinkErr;
pub use mem_dial::{MemDial, MemScripts};
pub use mem_line::{MemLine, MemScript};
pub use real_dial::RealDial;
pub use replies::ReplyList;
