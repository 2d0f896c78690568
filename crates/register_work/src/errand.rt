ghost use Rattle.std.specs.Prelude.{◌≡◌};
ghost use Rattle.register_work.specs.declared.errand.ErrandErr.TheVariants.{Memory as OutOfMemory};
ghost use Rattle.register_work.specs.Errand.{of_keeper};

use crate::unkept::Unkept;
use desk_values::{Bytes, Memory, Txt};
use replay_history::{Class, Report};
use run_register::KeepErr;

/// What is asked of a keeper.
#[derive(Drop)]
pub enum Errand {
    /// To keep under this name these bytes, which are the text of this report.
    Register(Txt, Bytes, Report),
    /// To list all runs.
    Runs,
    /// To accept, of this run, a divergence of the call with this stamp, of this class.
    Accept(Txt, u64, Class),
    /// To compare the second of these runs with the first.
    Compare(Txt, Txt),
}

/// What an errand comes to.
#[derive(Drop)]
pub struct Answer {
    /// What is printed.
    pub text: Bytes,
    /// Whether a comparison found something new or changed.
    pub news: bool,
}

/// Why an errand is not done.
#[derive(Drop)]
pub enum ErrandErr {
    /// For what is kept, or for what is asked.
    NotDone(Unkept),
    /// The keeper failed.
    Failed,
    /// Want of memory.
    Memory,
}

impl From<Memory> for ErrandErr {
    ghost from_gives = { λ _ e. e ≡ OutOfMemory };

    fn from(_error: Memory) -> ErrandErr {
        ErrandErr::Memory
    }
}

impl From<KeepErr> for ErrandErr {
    ghost from_gives = { λ error e. e ≡ of_keeper error };

    fn from(error: KeepErr) -> ErrandErr {
        match error {
            KeepErr::Failed => ErrandErr::Failed,
            KeepErr::Memory => ErrandErr::Memory,
        }
    }
}
