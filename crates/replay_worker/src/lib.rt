//! A replay on the desk's own server, to its end.
//!
//! Enters: a job, how many lanes, and a door. Leaves: the desk that has answered every call of the job. It touches the lock, the threads
//! and the door that it is handed. What a lane does under the hold of the lock in which its call is answered is in `turns`, over the
//! desk by itself; the lanes are those of `replay_lanes`.
#![tactic(auto)]

mod lanes;
mod turns;

pub use desk_files::{Door, SleepDoor};
pub use lanes::{finish, run_all, run_lane};
