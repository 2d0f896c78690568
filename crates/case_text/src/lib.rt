//! Parts of the lines of files of cases, and what they stand for.
//!
//! Enters: lines. Leaves: words, numbers, bytes, calls, and texts on one line. It touches memory alone.
#![tactic(auto)]

mod calls;
mod escape;
mod shown;
mod words;

pub use calls::call_of;
pub use escape::line_of_bytes;
pub use shown::{numbers_text, stamp_text};
pub use words::{first_word, number_of, small_number, stamps_of, txt, unescaped};
