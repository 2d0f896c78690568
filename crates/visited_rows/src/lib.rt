//! The rows that a statement visits, and whether it leaves a key twice.
//!
//! Enters: what a statement can depend on as it is kept (`Basis`), and its condition or its new images. Leaves: rows by reference,
//! and whether two of them have one key. It touches nothing but memory.
#![tactic(auto)]

mod basis;
mod visiting;

pub use basis::{Basis, keys_differ, leaves_twice, makes_twice, visit};
pub use visiting::visited_rows_answer;
