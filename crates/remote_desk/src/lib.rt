//! The desk of a replay whose calls are answered elsewhere: what is started, sent and answered, by the rules of its job.
//!
//! Enters: a job, the stamps of calls that are started and sent, and the replies that came. Leaves: which calls may start, the pause
//! before a call, the call that is sent in its place, the history of starts, sent calls and answers, and the map of ids. It
//! touches nothing but memory: who sends the calls is no matter here.
//!
//! `specs` says what a remote history is (`History`), and what was sent in a session and what came back (`Said`).
#![tactic(auto)]

mod desk;
mod event;

pub use desk::RemoteDesk;
pub use event::{RemoteEvent, RemoteHistory};
pub use replay_job::Job;
