ghost use Rattle.std.specs.Prelude.{◌≡◌, ◌≤◌, Some, length, IfOk, OnOk, IsSomeAnd};
ghost use Rattle.std.specs.FinMap as map;
ghost use Rattle.desk_files.specs.Outside.{Account, FileMap, Told, KeepsOthers, Leaves};
ghost use Rattle.desk_files.specs.Answers.{ReadSays, read_ending, write_ending};
ghost use Rattle.desk_files.specs.Limits.{file_limit};

use crate::fault::{FileErr, WriteErr};
use desk_values::{Bytes, Txt};

/// The greatest number of bytes of a file that is read.
pub const FILE_LIMIT: usize = 67_108_864;

/// Files by name. An object may tell its content; every object counts its faults, and that count
/// never falls.
pub trait Files {
    /// The files, where the object tells them, and how many calls failed.
    ghost account: { Self → Account FileMap };

    /// The bytes of a file.
    fn read(&mut self, name: &Txt) -> Result<Bytes, FileErr>
        ensures says { Told (account self.old).content (λ files. ReadSays (map.get files name.now) result) }
        ensures limit { IfOk result (λ bytes. length bytes ≤ file_limit) }
        ensures content { (account self.new).content ≡ (account self.old).content }
        ensures leaves { Leaves (read_ending result) (account self.old).content (account self.new).content (account self.old).faults (account self.new).faults };

    /// Sets the bytes of a file. After `Failed` the file of that name may hold anything, or be
    /// absent; `Memory` comes before anything is changed.
    fn write(&mut self, name: &Txt, bytes: &[u8]) -> Result<(), WriteErr>
        ensures ok { OnOk result (Told (account self.old).content (λ files.
            (account self.new).content ≡ Some (map.insert files name.now bytes.now))) }
        ensures others { Told (account self.old).content (λ files.
            IsSomeAnd (account self.new).content (KeepsOthers name.now files)) }
        ensures leaves { Leaves (write_ending result) (account self.old).content (account self.new).content (account self.old).faults (account self.new).faults };
}
