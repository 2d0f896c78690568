ghost use Rattle.std.specs.Prelude.{◌≡◌};
ghost use Rattle.captured_calls.specs.declared.refusal.Refusal.TheVariants.{Memory as OutOfMemory};

use desk_values::{Memory, Reply};
use std::alloc::{AllocError, AllocFailed};
use std::fmt;
use thiserror::Error;

/// Why calls are no capture that can be replayed. The tests are tried in this order, each over the whole capture, and
/// each but the first tells the least stamp where it fails.
#[derive(Drop, Error)]
pub enum Refusal {
    /// There are too many calls.
    #[error("{calls} calls")]
    TooMany {
        /// How many there are.
        calls: u64,
    },
    /// A number below that of the calls is not the stamp of exactly one of them.
    #[error("stamp {stamp}")]
    Stamp {
        /// That number.
        stamp: u32,
    },
    /// A call's number is not that of its commit.
    #[error("stamp {stamp} has number {written}, not {right}")]
    Number {
        /// Its stamp.
        stamp: u32,
        /// The number that stands there.
        written: u64,
        /// The number that is right.
        right: u64,
    },
    /// A call did not see just the numbered commits before it.
    #[error("stamp {stamp} saw {written}, not {right}")]
    Seen {
        /// Its stamp.
        stamp: u32,
        /// How many it says it saw.
        written: u64,
        /// How many there are.
        right: u64,
    },
    /// A call whose end is before its beginning, or its beginning before the end of its session's last call.
    #[error("times at stamp {stamp}")]
    Times {
        /// Its stamp.
        stamp: u32,
    },
    /// A bind is an id that nobody has given yet.
    #[error("unknown id at stamp {stamp}")]
    Stranger {
        /// The call's stamp.
        stamp: u32,
    },
    /// The machine gives another reply.
    #[error("another reply at stamp {stamp}")]
    Reply {
        /// The call's stamp.
        stamp: u32,
        /// The reply that stands there.
        written: Reply,
        /// The machine's.
        right: Reply,
    },
    /// Want of memory.
    #[error("out of memory")]
    Memory,
}

impl fmt::Debug for Refusal {
    fn fmt<W: fmt::Write>(&self, f: &mut fmt::Formatter<W>) -> fmt::Result {
        fmt::Display::fmt(self, f)
    }
}

impl From<Memory> for Refusal {
    ghost from_gives = { λ _ e. e ≡ OutOfMemory };

    fn from(_error: Memory) -> Refusal {
        Refusal::Memory
    }
}

impl From<AllocError> for Refusal {
    ghost from_gives = { λ _ e. e ≡ OutOfMemory };

    fn from(_error: AllocError) -> Refusal {
        Refusal::Memory
    }
}

impl<T: Drop> From<AllocFailed<T>> for Refusal {
    ghost from_gives = { λ _ e. e ≡ OutOfMemory };

    fn from(_error: AllocFailed<T>) -> Refusal {
        Refusal::Memory
    }
}
