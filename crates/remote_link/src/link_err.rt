ghost use Rattle.std.specs.Prelude.{◌≡◌};
ghost use Rattle.remote_link.specs.declared.link_err.LinkErr.TheVariants.{Failed as LineFailed, Memory as OutOfMemory};

use desk_files::Failed;
use desk_values::Memory;
use thiserror::Error;

/// Why no reply came to a call.
#[derive(Clone, Copy, Debug, PartialEq, Eq, Error)]
pub enum LinkErr {
    /// The line failed.
    #[error("the line failed")]
    Failed,
    /// Want of memory.
    #[error("out of memory")]
    Memory,
}

impl From<Memory> for LinkErr {
    ghost from_gives = { λ _ e. e ≡ OutOfMemory };

    fn from(_error: Memory) -> LinkErr {
        LinkErr::Memory
    }
}

impl From<Failed> for LinkErr {
    ghost from_gives = { λ _ e. e ≡ LineFailed };

    fn from(_error: Failed) -> LinkErr {
        LinkErr::Failed
    }
}
