ghost use Rattle.std.specs.Prelude.{◌≡◌};
ghost use Rattle.call_json.specs.declared.json_err.JsonErr.TheVariants.{Memory as OutOfMemory};

use desk_values::Memory;
use thiserror::Error;

/// Why bytes were not read as JSON.
#[derive(Clone, Copy, Debug, PartialEq, Eq, Error)]
pub enum JsonErr {
    /// They are no JSON text of what was to be read.
    #[error("not the JSON text of one")]
    NotOne,
    /// Want of memory.
    #[error("out of memory")]
    Memory,
}

impl From<Memory> for JsonErr {
    ghost from_gives = { λ _ e. e ≡ OutOfMemory };

    fn from(_error: Memory) -> JsonErr {
        JsonErr::Memory
    }
}
