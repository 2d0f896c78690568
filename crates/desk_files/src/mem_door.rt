//! A door in memory.

use crate::door::Door;
use desk_values::Memory;
use std::alloc::Global;
use std::sync::{Mutex, Wait};
use std::time::Clock;

/// A call that passed a door.
#[derive(Clone, Copy, PartialEq, Eq)]
pub struct Passed {
    /// Its stamp.
    pub stamp: u32,
    /// The pause before it, in microseconds.
    pub micros: u64,
}

/// A door that keeps what passes it, in that order, and holds nothing. Its time stands still. Where memory
/// is wanting a call passes and is not kept.
#[derive(Drop)]
pub struct MemDoor {
    alloc: Global,
    kept: Mutex<Vec<Passed>>,
}

impl MemDoor {
    /// A door that no call has passed.
    pub fn new(alloc: Global) -> MemDoor {
        MemDoor {
            alloc,
            kept: Mutex::new(Vec::new(alloc)),
        }
    }

    /// The calls that have passed.
    pub fn passed<R: Wait>(&self, rt: &R) -> Result<Vec<Passed>, Memory> {
        let kept = self.kept.lock(rt);
        let mut passed = Vec::new(self.alloc);
        passed.extend_from_slice(kept.as_slice())?;
        Ok(passed)
    }
}

impl Door for MemDoor {
    fn pass<R: Clock + Wait>(&self, rt: &R, k: u32, micros: u64) {
        let mut kept = self.kept.lock(rt);
        let _ = kept.push(Passed { stamp: k, micros });
    }

    fn now<R: Clock + Wait>(&self, _rt: &R) -> u64 {
        0
    }
}
