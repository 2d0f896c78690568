//! What a call does to its session and to what is committed, and how it is taken back.
//!
//! Enters: a deed, the session, the commits and what is kept of rows and holds. Leaves: these as the deed leaves them; want of memory
//! leaves all as it was. It touches nothing but memory.
#![tactic(auto)]

mod following;
mod holding;

pub use following::enact;
