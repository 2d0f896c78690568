//! Why calls of a replay differ: because their sessions met something else than in the capture, or because another server answers
//! otherwise.
//!
//! Enters: a job and a whole replay of it, or its report and what is told of a replay along which was gone; or a map of ids and what two calls
//! can depend on. Leaves: of each call that differs its cause, the text of these; whether two views are one but for ids. It touches
//! nothing but memory.
#![tactic(auto)]

mod cause;
mod finding;
pub mod laws;
mod texts;
mod twins;

pub use cause::{Cause, CauseLine, CauseList};
pub use finding::{causes, causes_in, differing};
pub use texts::causes_csv;
pub use twins::twin_views;
