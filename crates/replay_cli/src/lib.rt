//! The commands of the desk: words and files to a replay, its texts and a status.
//!
//! Enters: the words of a command, and the outside as traits. Leaves: files, what is printed, and a status. It touches the
//! files, the host, the keeper, the dial, the threads, the clock and the sink that it is handed, and nothing else. What a call is
//! answered is the engine's alone, or with a target the server's that runs there.
#![tactic(auto)]

mod arguments;
mod capture;
mod errands;
mod failure;
mod file_names;
pub mod laws;
mod main_call;
mod pages;
mod plan;
mod reading;
mod replay;
mod running;
mod sending;
mod serving;
mod showing;
mod told;
mod unsent;
mod unshown;
mod work;

pub use arguments::{Arguments, Called, arguments_of, word_of};
pub use capture::{Legal, Opened, Read};
pub use desk_words::{Command, Ways};
pub use failure::{Failure, Refusal};
pub use main_call::{replay_main, report_want_of_memory};
pub use plan::Plan;
pub use showing::{Left, Together};
pub use told::Told;
pub use unsent::Unsent;
pub use unshown::Unshown;
pub use work::Work;
