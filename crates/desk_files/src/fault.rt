ghost use Rattle.std.specs.Prelude.{◌≡◌};
ghost use Rattle.desk_files.specs.declared.fault.FileErr.TheVariants.{Memory as ReadMemory};
ghost use Rattle.desk_files.specs.declared.fault.WriteErr.TheVariants.{Memory as WriteMemory};

use desk_values::Memory;
use thiserror::Error;

/// A call of the outside failed.
#[derive(Clone, Copy, Debug, Error, PartialEq, Eq)]
#[error("the device failed")]
pub struct Failed;

/// Why a file was not read.
#[derive(Clone, Copy, Debug, Error, PartialEq, Eq)]
pub enum FileErr {
    /// There is no file of that name.
    #[error("there is no such file")]
    Missing,
    /// It has more than [`FILE_LIMIT`](crate::FILE_LIMIT) bytes.
    #[error("the file is too long")]
    TooLong,
    /// The device failed.
    #[error("the device failed")]
    Failed,
    /// Want of memory.
    #[error("out of memory")]
    Memory,
}

impl From<Memory> for FileErr {
    ghost from_gives = { λ _ e. e ≡ ReadMemory };

    fn from(_error: Memory) -> FileErr {
        FileErr::Memory
    }
}

/// Why a file was not written.
#[derive(Clone, Copy, Debug, Error, PartialEq, Eq)]
pub enum WriteErr {
    /// The device failed.
    #[error("the device failed")]
    Failed,
    /// Want of memory.
    #[error("out of memory")]
    Memory,
}

impl From<Memory> for WriteErr {
    ghost from_gives = { λ _ e. e ≡ WriteMemory };

    fn from(_error: Memory) -> WriteErr {
        WriteErr::Memory
    }
}
