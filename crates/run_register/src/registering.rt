ghost use Rattle.std.specs.Prelude.{◌≡◌};
ghost use Rattle.std.specs.Option.{option_map};
ghost use Rattle.std.specs.FinMap as runs_by_name;
ghost use Rattle.desk_files.specs.Outside.{Counts, Told};
ghost use Rattle.run_register.specs.Register.{RegisterSays, after_adding, register_ending};

use crate::keeper::Keeper;
use crate::kept::KeepErr;
use desk_values::{Bytes, Txt};

/// What came of a registration.
#[derive(Clone, Copy, Debug, PartialEq, Eq)]
pub enum Registered {
    /// The name was new.
    New,
    /// Just this report was kept under it.
    Again,
}

/// Why a report was not registered.
#[derive(Drop)]
pub enum RegErr {
    /// Another report is kept under that name.
    Other {
        /// It.
        kept: Bytes,
    },
    /// The keeper failed.
    Failed,
    /// Want of memory.
    Memory,
}

/// Keeps a report under the name of its run. The first report of a name stays.
pub fn register<K: Keeper>(keeper: &mut K, name: &Txt, report: &[u8]) -> Result<Registered, RegErr>
    ensures says { Told (K.account keeper.old).runs (λ kept. RegisterSays (runs_by_name.get kept name.now) report.now result) }
    ensures runs { (K.account keeper.new).runs ≡ option_map (after_adding (register_ending result) (name.now, report.now)) (K.account keeper.old).runs }
    ensures divergences { (K.account keeper.new).divergences ≡ (K.account keeper.old).divergences }
    ensures faults { Counts (register_ending result) (K.account keeper.old).faults (K.account keeper.new).faults }
    ensures closes { (K.account keeper.new).closes ≡ (K.account keeper.old).closes }
{
    match keeper.add(name, report) {
        Ok(None) => Ok(Registered::New),
        Ok(Some(kept)) => {
            if kept.as_slice() == report {
                Ok(Registered::Again)
            } else {
                Err(RegErr::Other { kept })
            }
        }
        Err(KeepErr::Failed) => Err(RegErr::Failed),
        Err(KeepErr::Memory) => Err(RegErr::Memory),
    }
}
