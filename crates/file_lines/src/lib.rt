//! Files that are lines: one reader for every format.
//!
//! Enters: the bytes of a file, and what its lines have said so far, as [`LineFile`] keeps it. Leaves: what they all say,
//! or the number of the first bad line. It touches nothing but memory.
#![tactic(auto)]

mod file;
pub mod laws;
mod reader;

pub use file::LineFile;
pub use reader::{FormErr, read_lines};
