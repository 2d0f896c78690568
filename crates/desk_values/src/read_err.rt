ghost use Rattle.std.specs.Prelude.{◌≡◌};
ghost use Rattle.desk_values.specs.declared.read_err.ReadErr.TheVariants.{Memory as OutOfMemory};

use crate::memory::Memory;
use std::alloc::{AllocError, AllocFailed};
use thiserror::Error;

/// Why nothing was read.
#[derive(Clone, Copy, Debug, PartialEq, Eq, Error)]
pub enum ReadErr {
    /// The bytes are not the text of what is read.
    #[error("not the text of what is read")]
    Bad,
    /// Want of memory.
    #[error("out of memory")]
    Memory,
}

impl From<Memory> for ReadErr {
    ghost from_gives = { λ _ e. e ≡ OutOfMemory };

    fn from(_error: Memory) -> ReadErr {
        ReadErr::Memory
    }
}

impl From<AllocError> for ReadErr {
    ghost from_gives = { λ _ e. e ≡ OutOfMemory };

    fn from(_error: AllocError) -> ReadErr {
        ReadErr::Memory
    }
}

impl<T: Drop> From<AllocFailed<T>> for ReadErr {
    ghost from_gives = { λ _ e. e ≡ OutOfMemory };

    fn from(_error: AllocFailed<T>) -> ReadErr {
        ReadErr::Memory
    }
}
