ghost use Rattle.std.specs.Prelude.{◌≡◌, ℕ, List, OnOk};
ghost use Rattle.desk_files.specs.Outside.{Account, Appends, AppendsPart, Leaves};
ghost use Rattle.desk_files.specs.Answers.{print_ending};

use crate::fault::Failed;

/// Where bytes are written one after the other. An object may tell the bytes so far; every object
/// counts its faults, and that count never falls.
pub trait Sink {
    /// The bytes so far, where the object tells them, and how many calls failed.
    ghost account: { Self → Account (List ℕ) };

    /// Appends all bytes. After `Failed` the first few of them may have been appended.
    fn write(&mut self, bytes: &[u8]) -> Result<(), Failed>
        ensures ok { OnOk result (Appends bytes.now (account self.old).content (account self.new).content) }
        ensures part { AppendsPart bytes.now (account self.old).content (account self.new).content }
        ensures leaves { Leaves (print_ending result) (account self.old).content (account self.new).content (account self.old).faults (account self.new).faults };

    /// Says that nothing more is written. The object may let go of what it writes to; what it tells stays.
    fn close(&mut self)
        ensures content { (account self.new).content ≡ (account self.old).content }
        ensures faults { (account self.new).faults ≡ (account self.old).faults };
}
