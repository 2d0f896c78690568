ghost use Rattle.std.specs.Prelude.{◌≡◌};
ghost use Rattle.run_register.specs.declared.kept.KeepErr.TheVariants.{Memory as OutOfMemory};

use desk_values::{Bytes, Copied, List, Memory, Txt};
use thiserror::Error;

/// A report that is kept.
#[derive(Drop)]
pub struct Kept {
    /// The run's name.
    pub name: Txt,
    /// The bytes of its report.
    pub report: Bytes,
}

impl Copied for Kept {
    fn copy(&self) -> Result<Kept, Memory> {
        let name = self.name.copy()?;
        let report = self.report.copy()?;
        Ok(Kept { name, report })
    }
}

/// Reports that are kept.
pub type KeptList = List<Kept>;

/// A divergence that was accepted.
#[derive(Clone, Copy, Debug, PartialEq, Eq)]
pub struct Accept {
    /// The call's stamp.
    pub stamp: u32,
    /// The number of its class: the place in their list, from 0 for `Same`.
    pub class: u32,
}

/// Divergences that were accepted.
pub type AcceptList = List<Accept>;

/// Why a keeper refused.
#[derive(Clone, Copy, Debug, Error, PartialEq, Eq)]
pub enum KeepErr {
    /// The keeper failed.
    #[error("the keeper failed")]
    Failed,
    /// Want of memory.
    #[error("out of memory")]
    Memory,
}

impl From<Memory> for KeepErr {
    ghost from_gives = { λ _ e. e ≡ OutOfMemory };

    fn from(_error: Memory) -> KeepErr {
        KeepErr::Memory
    }
}
