//! How a replayed reply differs from the captured one.
//!
//! Enters: a map of ids, a captured reply and the reply that a replay got in its place. Leaves: the class of the call, the
//! first line that fits in a table of them (`specs/Class`). It touches nothing but memory, and that only where rows or
//! images are to be compared.
//!
//! A captured id counts as the replayed one that stands for it. Rows are compared as bags and images as maps from rows: their
//! order is no part of the comparison: laws say how bags and maps are told by counts and by rows (`bag_laws`).
#![tactic(auto)]

pub mod bag_laws;
mod carry;
mod class;
mod equality;
pub mod laws;

pub use class::class_of;
pub use replay_history::Class;
