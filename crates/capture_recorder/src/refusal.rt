ghost use Rattle.std.specs.Prelude.{◌≡◌};
ghost use Rattle.capture_recorder.specs.declared.refusal.CallErr.TheVariants.{Memory as OutOfMemory};

use desk_values::Memory;
use thiserror::Error;

/// Why a call was not recorded.
#[derive(Clone, Copy, Debug, PartialEq, Eq, Error)]
pub enum CallErr {
    /// A bind is an id that was never given.
    #[error("an id that was never given")]
    Stranger,
    /// The recorder holds all the calls that it takes.
    #[error("as many calls as are recorded")]
    Full,
    /// Want of memory.
    #[error("out of memory")]
    Memory,
}

impl From<Memory> for CallErr {
    ghost from_gives = { λ _ e. e ≡ OutOfMemory };

    fn from(_error: Memory) -> CallErr {
        CallErr::Memory
    }
}
