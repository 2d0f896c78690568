ghost use Rattle.std.specs.Prelude.{IsSomeAnd};
ghost use Rattle.desk_files.specs.Answers.{write_ending};
ghost use Rattle.desk_files.specs.Outside.{Counts, Told};
ghost use Rattle.desk_files.specs.Writes.{LeavesOfWrites};

use crate::fault::WriteErr;
use crate::files::Files;
use desk_values::{Bytes, Txt};

/// A file that is to be written.
#[derive(Drop)]
pub struct Write {
    /// Its name.
    pub name: Txt,
    /// Its bytes.
    pub bytes: Bytes,
}

/// Writes these files in order, and stops at the first that is not written.
pub fn write_all<F: Files>(writes: &[Write], files: &mut F) -> Result<(), WriteErr>
    ensures left { Told (F.account files.old).content (λ before. IsSomeAnd (F.account files.new).content (LeavesOfWrites writes.now before result)) }
    ensures faults { Counts (write_ending result) (F.account files.old).faults (F.account files.new).faults }
{
    for write in writes {
        files.write(&write.name, write.bytes.as_slice())?;
    }
    Ok(())
}
