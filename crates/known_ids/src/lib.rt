//! Which ids a client can know after so many calls of a capture.
//!
//! Enters: a start's rows, and calls by stamp with their replies. Leaves: for an id and a number of calls, whether it
//! stands in the rows or one of so many first calls gave it. It touches nothing but memory. Making it grows as n log n in
//! the ids, and each look-up as log n.
#![tactic(auto)]

mod known;

pub use known::KnownIds;
