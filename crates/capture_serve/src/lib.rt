//! A server whose calls are captured: connections in, a legal capture out.
//!
//! Enters: a start, and a host whose connections are sessions. Leaves: the calls of each session, of a legal capture from the
//! start, and the connections, which are given back. It touches the host, the clock and the threads that it is handed: each
//! connection is served by a thread of its own, over one recorder under one lock.
//!
//! `specs` says what stands of a connection that was served (`Connections`), and what of all of them and of the capture
//! (`Service`). What is written and printed of it is said elsewhere.
#![tactic(auto)]

mod accepting;
mod closing;
mod connection;
mod failing;
mod halt;
mod knowing;
pub mod laws;
mod returning;
mod seating;
mod serving;
mod stream;

pub use failing::{Finding, ServeErr};
pub use serving::{Capture, serve};
