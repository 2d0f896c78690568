//! Rows that are looked at: which match a condition, what their expressions come to, their order, and whether two have one key.
//!
//! Enters: rows by reference, checked conditions, expressions and columns. Leaves: rows, values and faults, as `server_words` says
//! what they are. It touches nothing but memory.
#![tactic(auto)]

mod evaluation;
mod found;
mod images;
mod latest;
mod order;
mod repeats;

pub use evaluation::Evaluation;
pub use found::{evaluated, sifted, total_value, values_for, values_of};
pub use images::{row_key, same_row_key, stored, tested};
pub use latest::all_laid;
pub use order::ordered;
pub use repeats::{makes_key_twice, repeats_key};
