ghost use Rattle.std.specs.Prelude.{◌≡◌, IfOk};

use std::alloc::{AllocError, AllocFailed};
use thiserror::Error;

/// Want of memory.
#[derive(Clone, Copy, Debug, PartialEq, Eq, Error)]
#[error("out of memory")]
pub struct Memory;

impl From<AllocError> for Memory {
    fn from(_error: AllocError) -> Memory {
        Memory
    }
}

impl<T: Drop> From<AllocFailed<T>> for Memory {
    fn from(_error: AllocFailed<T>) -> Memory {
        Memory
    }
}

/// A value that can be copied where memory allows.
pub trait Copied: Drop {
    /// An equal value.
    fn copy(&self) -> Result<Self, Memory>
    where
        Self: Sized,
        ensures { IfOk result (λ copy. copy ≡ self.now) };
}

impl Copied for u8 {
    fn copy(&self) -> Result<u8, Memory> {
        Ok(*self)
    }
}

impl Copied for u32 {
    fn copy(&self) -> Result<u32, Memory> {
        Ok(*self)
    }
}

impl Copied for u64 {
    fn copy(&self) -> Result<u64, Memory> {
        Ok(*self)
    }
}
