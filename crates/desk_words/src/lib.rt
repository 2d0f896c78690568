//! The words of a command line: which words are a command of the desk, and which command.
//!
//! Enters: the words behind the program's name. Leaves: the command that they are, if they are one, with the value of each
//! option that they do not say. It touches nothing but memory. Which words `clap` takes and which values it finds in them,
//! its own contract says; here stand what it is told of the desk (`specs/Desk`), and which values are good and what they make
//! (`specs/Command`).
#![tactic(auto)]

mod desk;
pub mod laws;
mod limits;
mod subcommands;
mod table;
mod values;
mod ways;
mod words;

pub use limits::{
    CONNECTION_LIMIT, DEFAULT_PORT, GENERATED_LIMIT, LANE_LIMIT, PATH_LIMIT, RUN_LIMIT,
};
pub use table::{Form, forms};
pub use ways::Ways;
pub use words::{Command, command_of};
