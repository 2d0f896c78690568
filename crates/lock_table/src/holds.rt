//! What a session holds, and why it is not given it.

ghost use Rattle.std.specs.Prelude.{◌≡◌};
ghost use Rattle.lock_table.specs.declared.holds.LockErr.TheVariants.{Memory as OutOfMemory};

use desk_values::{Memory, Value};
use thiserror::Error;

/// A key that a session holds.
#[derive(Drop)]
pub struct KeyHold {
    /// Who holds it.
    pub session: u32,
    /// The number of its table.
    pub table: u32,
    /// The key itself.
    pub key: Value,
}

/// How much a session holds at some time. It can go back to that.
#[derive(Clone, Copy, Debug, PartialEq, Eq)]
pub struct Mark {
    /// How many rows.
    pub rows: u32,
    /// How many keys.
    pub keys: u32,
}

/// Why something is not held.
#[derive(Clone, Copy, Debug, PartialEq, Eq, Error)]
pub enum LockErr {
    /// Another session holds it: this one.
    #[error("held by session {0}")]
    Held(u32),
    /// Want of memory.
    #[error("out of memory")]
    Memory,
}

impl From<Memory> for LockErr {
    ghost from_gives = { λ _ e. e ≡ OutOfMemory };

    fn from(_error: Memory) -> LockErr {
        LockErr::Memory
    }
}
