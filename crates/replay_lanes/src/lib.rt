//! The lanes of a replay: threads that each serve some sessions, over one desk under one lock.
//!
//! Enters: a desk, whatever answers its calls, which sessions each lane has, and a door. Leaves: the desk as the lanes leave it, and
//! one whose every call is answered where the rest is finished. It touches the lock, the threads and the door that it is handed.
//! What a lane takes from a desk under one hold of the lock is in `turns`, over the desk by itself; the threads are in `lanes`
//! alone.
#![tactic(auto)]

mod finishing;
mod lanes;
mod seats;
mod target;
mod turns;

pub use finishing::{finish, run_alone};
pub use lanes::{run_lane, run_lanes};
pub use seats::{seats_of, sessions_of};
pub use target::Target;
