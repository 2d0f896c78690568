ghost use Rattle.std.specs.Prelude.{◌≡◌, ◌≤◌, ℕ, List, IfOk, length};
ghost use Rattle.desk_files.specs.Outside.{Account, Counts};
ghost use Rattle.desk_files.specs.Sources.{Reads, source_ending};

use crate::fault::Failed;

/// Where bytes are read one after the other. An object may tell the bytes left; every object counts its
/// faults, and that count never falls.
pub trait Source {
    /// The bytes left, where the object tells them, and how many calls failed.
    ghost account: { Self → Account (List ℕ) };

    /// Takes some of the bytes left into the front of the buffer, and answers how many. 0 comes where none
    /// are left, or none were asked for. `Failed` takes nothing.
    fn read(&mut self, buffer: &mut [u8]) -> Result<usize, Failed>
        ensures fits { IfOk result (λ n. n ≤ length buffer.new) }
        ensures reads { Reads result buffer.new (account self.old).content (account self.new).content }
        ensures counts { Counts (source_ending result) (account self.old).faults (account self.new).faults };

    /// Says that nothing more is read. The object may let go of what it reads from; what it tells stays.
    fn close(&mut self)
        ensures content { (account self.new).content ≡ (account self.old).content }
        ensures faults { (account self.new).faults ≡ (account self.old).faults };
}
