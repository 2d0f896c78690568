//! Where the time between the start of a call and its answer passes.

use std::sync::Wait;
use std::thread;
use std::time::{Clock, Duration, Instant};

/// Lets the time pass between the start of a call and its answer, and tells the time. Threads share a
/// door. It has no faults, and no clause says how long anything takes.
pub trait Door: Sync {
    /// Lets the pause before the call with stamp `k` pass, of so many microseconds.
    fn pass<R: Clock + Wait>(&self, rt: &R, k: u32, micros: u64);

    /// The time in microseconds.
    fn now<R: Clock + Wait>(&self, rt: &R) -> u64;
}

/// The real door: its pauses are slept, and it is as old as it tells the time. Where the clock fails it tells 0.
#[derive(Drop)]
pub struct SleepDoor {
    made: Option<Instant>,
}

impl SleepDoor {
    /// A door that counts from now.
    pub fn new<R: Clock>(rt: &R) -> SleepDoor {
        SleepDoor {
            made: Instant::now(rt).ok(),
        }
    }
}

impl Door for SleepDoor {
    fn pass<R: Clock + Wait>(&self, rt: &R, _k: u32, micros: u64) {
        if 0 < micros {
            thread::sleep(rt, Duration::from_micros(micros));
        }
    }

    fn now<R: Clock + Wait>(&self, rt: &R) -> u64 {
        let Some(made) = self.made else {
            return 0;
        };
        match made.elapsed(rt) {
            Ok(time) => u64::try_from(time.as_micros()).unwrap_or(u64::MAX),
            Err(_) => 0,
        }
    }
}
