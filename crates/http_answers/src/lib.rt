//! Answers of HTTP/1 (RFC 9112): which bytes are one, with the status and the body that it carries.
//!
//! Enters: the bytes that came. Leaves: where the answer at their front ends, its status and its body, or that no answer can
//! begin so. It touches nothing but memory. `httparse` reads heads; limits and fields are those of `http_requests`.
//!
//! `specs` says which bytes are an answer (`Answers`). That bytes begin with at most one answer is a law of `laws`.
#![tactic(auto)]

mod answer;
pub mod laws;
mod limits;

pub use answer::{Answer, Front, front_of};
pub use limits::BODY_LIMIT;
