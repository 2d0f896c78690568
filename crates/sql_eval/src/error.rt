ghost use Rattle.std.specs.Prelude.{◌≡◌};
ghost use Rattle.sql_eval.specs.declared.error.CheckErr.TheVariants.{Memory as CheckMemory};
ghost use Rattle.sql_eval.specs.declared.error.EvalErr.TheVariants.{Memory as EvalMemory};

use desk_values::{Fault, Memory};
use thiserror::Error;

/// Why a statement did not pass the checks.
#[derive(Clone, Copy, Debug, PartialEq, Eq, Error)]
pub enum CheckErr {
    /// The fault of the first check that fails, in the order of [`check`](crate::check).
    #[error("refused {}", .0.number())]
    Refused(Fault),
    /// Want of memory.
    #[error("out of memory")]
    Memory,
}

impl From<Memory> for CheckErr {
    ghost from_gives = { λ _ e. e ≡ CheckMemory };

    fn from(_error: Memory) -> CheckErr {
        CheckErr::Memory
    }
}

/// Why an expression has no value.
#[derive(Clone, Copy, Debug, PartialEq, Eq, Error)]
pub enum EvalErr {
    /// `ZeroDivisor` where some part divides by zero, else `Overflow` where the result of some part leaves 64 bits.
    #[error("refused {}", .0.number())]
    Refused(Fault),
    /// Want of memory.
    #[error("out of memory")]
    Memory,
}

impl From<Memory> for EvalErr {
    ghost from_gives = { λ _ e. e ≡ EvalMemory };

    fn from(_error: Memory) -> EvalErr {
        EvalErr::Memory
    }
}
