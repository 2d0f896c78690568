ghost use Rattle.std.specs.Prelude.{◌≡◌};
ghost use Rattle.sql_reader.specs.declared.error.SqlErr.TheVariants.{Memory as OutOfMemory};

use desk_values::{Memory, TxtErr};
use std::alloc::{AllocError, AllocFailed};
use thiserror::Error;

/// Why a text gave no statement.
#[derive(Clone, Copy, Debug, PartialEq, Eq, Error)]
pub enum SqlErr {
    /// The text spells no statement.
    #[error("the text is no statement")]
    Syntax,
    /// Memory ran out.
    #[error("out of memory")]
    Memory,
}

impl From<Memory> for SqlErr {
    ghost from_gives = { λ _ e. e ≡ OutOfMemory };

    fn from(_error: Memory) -> SqlErr {
        SqlErr::Memory
    }
}

impl From<AllocError> for SqlErr {
    ghost from_gives = { λ _ e. e ≡ OutOfMemory };

    fn from(_error: AllocError) -> SqlErr {
        SqlErr::Memory
    }
}

impl<T: Drop> From<AllocFailed<T>> for SqlErr {
    ghost from_gives = { λ _ e. e ≡ OutOfMemory };

    fn from(_error: AllocFailed<T>) -> SqlErr {
        SqlErr::Memory
    }
}

impl From<TxtErr> for SqlErr {
    ghost use Rattle.sql_reader.specs.Spelling.{sql_err};

    ghost from_gives = { λ from error. error ≡ sql_err from };

    fn from(error: TxtErr) -> SqlErr {
        match error {
            TxtErr::Memory => SqlErr::Memory,
            TxtErr::TooLong => SqlErr::Syntax,
            TxtErr::NotUtf8 => SqlErr::Syntax,
        }
    }
}
