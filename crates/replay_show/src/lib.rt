//! A replay told in lines for a terminal: one call of it, or all that differ.
//!
//! Enters: a legal capture, and what the files of a run of it say. Leaves: lines. Texts are told as people read them, and each stays in its
//! line. It touches nothing but memory.
#![tactic(auto)]

mod differing;
mod ids;
mod journal;
mod one_call;
mod readable;
mod replies;
mod shown;
mod texts;
mod transactions;
mod values;

pub use differing::differing_lines;
pub use one_call::call_lines;
pub use shown::Shown;
