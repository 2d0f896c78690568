//! A door that holds calls.

ghost use Rattle.std.specs.Prelude.{◌<◌};

use desk_files::Door;
use std::sync::Wait;
use std::sync::atomic::{AtomicU64, Ordering};
use std::thread;
use std::time::{Clock, Duration};

/// How many turns of one millisecond it holds calls at most, all together.
const TURNS: u64 = 20_000;

/// Holds each of a pair of calls, an even stamp and the next one, until the other one passes too. Once its turns are spent it holds
/// nothing any more. It is for stamps below 64.
#[derive(Drop)]
pub struct PairDoor {
    // a bit for each stamp that has come
    seen: AtomicU64,
    turns: AtomicU64,
}

impl PairDoor {
    /// A door to which no call has come.
    pub fn new() -> PairDoor {
        PairDoor {
            seen: AtomicU64::new(0),
            turns: AtomicU64::new(0),
        }
    }

    /// How many calls have come.
    pub fn came(&self) -> u32 {
        self.seen.load(Ordering::SeqCst).count_ones()
    }

    /// Whether its turns are spent.
    pub fn is_spent(&self) -> bool {
        TURNS <= self.turns.load(Ordering::SeqCst)
    }

    // Whether both calls of a pair have come.
    fn has_both(&self, pair: u32) -> bool
        requires { pair < 32 }
    {
        (self.seen.load(Ordering::SeqCst) >> (2 * pair)) & 3 == 3
    }
}

impl Door for PairDoor {
    fn pass<R: Clock + Wait>(&self, rt: &R, k: u32, _micros: u64) {
        let pair = (k / 2) % 32;
        self.seen.fetch_or(1u64 << (k % 64), Ordering::SeqCst);
        for _turn in 0..TURNS {
            if self.has_both(pair) || self.is_spent() {
                return;
            }
            self.turns.fetch_add(1, Ordering::SeqCst);
            thread::sleep(rt, Duration::from_millis(1));
        }
    }

    fn now<R: Clock + Wait>(&self, _rt: &R) -> u64 {
        0
    }
}

/// Holds its first caller for the time until another one comes for it. Once its turns are spent it holds nobody any more.
#[derive(Drop)]
pub struct FirstDoor {
    came: AtomicU64,
    turns: AtomicU64,
}

impl FirstDoor {
    /// A door to which nobody has come.
    pub fn new() -> FirstDoor {
        FirstDoor {
            came: AtomicU64::new(0),
            turns: AtomicU64::new(0),
        }
    }

    /// How often somebody came for the time.
    pub fn came(&self) -> u64 {
        self.came.load(Ordering::SeqCst)
    }

    /// Whether its turns are spent.
    pub fn is_spent(&self) -> bool {
        TURNS <= self.turns.load(Ordering::SeqCst)
    }
}

impl Door for FirstDoor {
    fn pass<R: Clock + Wait>(&self, _rt: &R, _k: u32, _micros: u64) {}

    fn now<R: Clock + Wait>(&self, rt: &R) -> u64 {
        if self.came.fetch_add(1, Ordering::SeqCst) > 0 {
            return 0;
        }
        for _turn in 0..TURNS {
            if 1 < self.came.load(Ordering::SeqCst) {
                return 0;
            }
            self.turns.fetch_add(1, Ordering::SeqCst);
            thread::sleep(rt, Duration::from_millis(1));
        }
        0
    }
}
