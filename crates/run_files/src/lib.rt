//! The files that a run left, read again beside its capture: whether they are of one replay.
//!
//! Enters: the bytes of the plain reads and of the causes, and what the other files of a run say, with the calls of a capture. Leaves:
//! the reads and the causes, or that the bytes are none; and the first thing in which the files do not go together. It touches nothing
//! but memory.
#![tactic(auto)]

mod causes;
mod fitting;
pub mod laws;
mod misfit;
mod reads;
mod reads_line;
mod times;

pub use causes::read_causes;
pub use file_lines::FormErr;
pub use fitting::{RunFiles, misfit_of};
pub use misfit::{Kind, Misfit};
pub use reads::read_reads;
pub use reads_line::ReadsLine;
