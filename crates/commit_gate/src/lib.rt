//! Which calls of a replay may be started: its gate. A call is ready once the call of its session before it and the calls
//! that it requires are answered.
//!
//! Enters: what was found out about the calls of a capture, a mode, and then which calls are started and which are answered.
//! Leaves: which calls are ready, a ready call of some sessions, what is done. Only the making of a gate takes memory; after
//! that it touches nothing but itself.
#![tactic(auto)]

mod gate;
mod heads;
mod mark;

pub use gate::Gate;
