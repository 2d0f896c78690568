//! The page of a replay: one file that a browser opens, with the files of the capture and of the run in it.
//!
//! Enters: the names of two folders, and the files of each as texts. Leaves: the bytes of the page: a fixed front, the files as one JSON
//! value in which no byte `<` stands, and a fixed end. It touches nothing but memory. What the front and the end do with the
//! files is the viewer's: a browser runs it, and no contract speaks of it.
#![tactic(auto)]

mod building;
mod captured;
mod page;
mod viewer;

pub use captured::captured_files;
pub use page::{NamedText, Page, named, page_text};
