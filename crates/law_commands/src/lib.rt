//! Laws of the commands: which words and files a command does its work on.
//!
//! Enters and leaves: nothing but what its laws speak of. They say that the verdict takes every legal capture and refuses each
//! other at the least stamp that a test fails (`legality_laws`), when a command is done (`command_laws`), what an errand to a
//! register comes to (`register_laws`), and that the generated start keeps the rules of starts (`generated_laws`). It touches nothing.
#![tactic(auto)]

pub mod command_laws;
pub mod generated_laws;
pub mod legality_laws;
pub mod register_laws;
