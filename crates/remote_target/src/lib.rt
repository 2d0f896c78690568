//! A replay against a server that runs elsewhere, to its end.
//!
//! Enters: a job, how many lanes, a door, and a dial. Leaves: the desk on which every call is answered, or why there is none; and every
//! line that was dialled, given back. It touches the lock, the threads, the door and the dial that it is handed.
//!
//! `specs` says when the desk and the lines agree (`Agreement`), what is known of the lines that are given back (`Lines`), and
//! what comes where they do not (`Ends`).
#![tactic(auto)]

mod comparing;
mod dialling;
mod line;
mod remote_err;
mod running;
mod seats;
mod sending;
mod spoken;

pub use comparing::compare;
pub use line::Line;
pub use remote_desk::{RemoteDesk, RemoteEvent, RemoteHistory};
pub use remote_err::RemoteErr;
pub use remote_link::{
    Dial, Heard, HeardList, HttpLink, Link, LinkErr, MemDial, MemLine, MemScript, MemScripts,
    RealDial, ReplyList,
};
pub use running::run_remote;
pub use spoken::Spoken;
