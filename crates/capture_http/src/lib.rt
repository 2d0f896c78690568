//! One connection of HTTP/1: the bytes of its requests in, the bytes of the answers out.
//!
//! Enters: the bytes of a connection, and the server's replies through a door. Leaves: the bytes of the answers, the calls
//! that went through the door, and how the connection ended. It touches its input, its output and its door, and keeps at
//! most a request and as many bytes as are read at a time.
//!
//! `specs` says what an answer's bytes are (`Answers`), what comes of a request and what requests one after another come to
//! (`Conversation`), and what stands at each end (`Ends`).
#![tactic(auto)]

mod answering;
mod conn_end;
mod connection;
mod limits;
mod reader;
mod response;

pub use conn_end::ConnEnd;
pub use connection::serve_connection;
pub use limits::REQUEST_LIMIT;
