//! Requests of HTTP/1 (RFC 9112): which bytes are one, and what is decided of it before the server is asked.
//!
//! Enters: the bytes that came. Leaves: where the request at their front ends, whether the connection closes after it, and
//! whether it is refused, asks for its session or brings a call. It touches nothing but memory. `httparse` reads heads,
//! `matchit` finds targets, methods and statuses are those of `http`.
//!
//! `specs` says where a head ends and what is read of it (`Heads`), what a head decides (`Decisions`), and which bytes are a
//! request (`Requests`). That bytes are cut into requests in one way alone is a law of `laws`. `Fields` says what is found of one
//! field; answers are read by it too.
#![tactic(auto)]

mod deciding;
mod decision;
mod fields;
mod head_end;
pub mod laws;
mod limits;
mod request;
mod routes;

pub use decision::{Decision, Verdict};
pub use fields::{Sole, length_of, sole_field};
pub use limits::{BODY_LIMIT, DIGIT_LIMIT, FIELD_LIMIT, HEAD_LIMIT};
pub use request::{Request, begun_request};
pub use routes::Routes;
