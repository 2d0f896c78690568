ghost use Rattle.std.specs.Prelude.{◌≡◌, IfOk, map};
ghost use Rattle.std.specs.Option.{option_map};
ghost use Rattle.std.specs.FinMap as runs_by_name;
ghost use Rattle.desk_files.specs.Outside.{Counts, Told, raised};
ghost use Rattle.run_register.specs.Register.{KeeperAccount, accepts_of, after_accepting, after_adding, entry_of, keeper_ending};

use crate::kept::{AcceptList, KeepErr, KeptList};
use desk_values::{Bytes, Txt};

/// Reports by the names of their runs, and the divergences that were accepted of each run. An object may tell them; every
/// object counts its faults, and that count never falls. `Failed` is answered only where it rose.
pub trait Keeper {
    /// The reports and the accepted divergences, where the object tells them, how many calls failed, and how often it was closed.
    ghost account: { Self → KeeperAccount };

    /// The report of a run; `None` where there is no run of that name.
    fn get(&mut self, name: &Txt) -> Result<Option<Bytes>, KeepErr>
        ensures says { Told (account self.old).runs (λ kept. IfOk result (λ found. found ≡ runs_by_name.get kept name.now)) }
        ensures runs { (account self.new).runs ≡ (account self.old).runs }
        ensures divergences { (account self.new).divergences ≡ (account self.old).divergences }
        ensures faults { Counts (keeper_ending result) (account self.old).faults (account self.new).faults }
        ensures closes { (account self.new).closes ≡ (account self.old).closes };

    /// Keeps a report under a name that is new, and answers `None`. Of a name that is there it changes nothing, and answers
    /// what is kept.
    fn add(&mut self, name: &Txt, report: &[u8]) -> Result<Option<Bytes>, KeepErr>
        ensures says { Told (account self.old).runs (λ kept. IfOk result (λ found. found ≡ runs_by_name.get kept name.now)) }
        ensures runs { (account self.new).runs ≡ option_map (after_adding (keeper_ending result) (name.now, report.now)) (account self.old).runs }
        ensures divergences { (account self.new).divergences ≡ (account self.old).divergences }
        ensures faults { Counts (keeper_ending result) (account self.old).faults (account self.new).faults }
        ensures closes { (account self.new).closes ≡ (account self.old).closes };

    /// All runs, ascending by name.
    fn all(&mut self) -> Result<KeptList, KeepErr>
        ensures says { Told (account self.old).runs (λ kept. IfOk result (λ list. map entry_of list ≡ runs_by_name.entries kept)) }
        ensures runs { (account self.new).runs ≡ (account self.old).runs }
        ensures divergences { (account self.new).divergences ≡ (account self.old).divergences }
        ensures faults { Counts (keeper_ending result) (account self.old).faults (account self.new).faults }
        ensures closes { (account self.new).closes ≡ (account self.old).closes };

    /// Accepts a divergence of a run's call: its stamp, and the number of its class. One that was accepted stays so.
    fn accept(&mut self, name: &Txt, stamp: u32, class: u32) -> Result<(), KeepErr>
        ensures runs { (account self.new).runs ≡ (account self.old).runs }
        ensures divergences { (account self.new).divergences
            ≡ option_map (after_accepting (keeper_ending result) (name.now, (stamp, class))) (account self.old).divergences }
        ensures faults { Counts (keeper_ending result) (account self.old).faults (account self.new).faults }
        ensures closes { (account self.new).closes ≡ (account self.old).closes };

    /// What was accepted of a run, by stamp, then class.
    fn accepted(&mut self, name: &Txt) -> Result<AcceptList, KeepErr>
        ensures says { Told (account self.old).divergences (λ all. IfOk result (λ list. list ≡ accepts_of name.now all)) }
        ensures runs { (account self.new).runs ≡ (account self.old).runs }
        ensures divergences { (account self.new).divergences ≡ (account self.old).divergences }
        ensures faults { Counts (keeper_ending result) (account self.old).faults (account self.new).faults }
        ensures closes { (account self.new).closes ≡ (account self.old).closes };

    /// Says that nothing more is asked of it for now: what it has by then may be put in one place. A later call may open it again.
    fn close(&mut self) -> Result<(), KeepErr>
        ensures runs { (account self.new).runs ≡ (account self.old).runs }
        ensures divergences { (account self.new).divergences ≡ (account self.old).divergences }
        ensures faults { Counts (keeper_ending result) (account self.old).faults (account self.new).faults }
        ensures closes { (account self.new).closes ≡ raised (account self.old).closes };
}
