//! The plain reads of a replay, read from their bytes.

ghost use Rattle.std.specs.Prelude.{◌≡◌};
ghost use Rattle.file_lines.specs.File.{ReadsFile};
ghost use Rattle.file_lines.specs.Inside.{AddsLine};
ghost use Rattle.run_files.specs.ReadsFile.{AreReads, IsBadReads, new_reads, reads_form};

use crate::reads_line::{ReadsLine, read_reads_line};
use desk_values::{List, ReadErr, Stamps};
use file_lines::{FormErr, LineFile, read_lines};
use std::alloc::Global;
use std::marker::Model;

// How far the lines have come.
#[derive(Clone, Copy)]
enum Stage {
    Empty,
    Headed,
    Ended,
}

/// The lines so far.
#[derive(Drop)]
struct ReadsDraft {
    stage: Stage,
    stamps: Stamps,
    least: u64,
}

impl Model for ReadsDraft {
    ghost use Rattle.run_files.specs.ReadsView.{ReadsView};

    ghost Value = { ReadsView };

    ghost view = { λ a. record { stage = a.stage; stamps = a.stamps; least = a.least } };
}

impl LineFile for ReadsDraft {
    ghost use Rattle.run_files.specs.ReadsView.{ReadsView};
    ghost use Rattle.run_files.specs.ReadsFile.{is_ended, reads_form};
    ghost use Rattle.file_lines.specs.Form.{Comes};

    ghost State = { ReadsView };

    ghost state = { λ draft. draft };

    ghost comes = { Comes reads_form };

    ghost done = { is_ended };

    fn add(mut self, line: &[u8]) -> Result<ReadsDraft, ReadErr> {
        let line = read_reads_line(line)?;
        self.add_line(line)?;
        Ok(self)
    }

    fn is_done(&self) -> bool {
        matches!(self.stage, Stage::Ended)
    }
}

impl ReadsDraft {
    fn new(alloc: Global) -> ReadsDraft
        ensures { result ≡ new_reads }
    {
        ReadsDraft {
            stage: Stage::Empty,
            stamps: List::new(alloc),
            least: 0,
        }
    }

    fn add_line(&mut self, line: ReadsLine) -> Result<(), ReadErr>
        ensures { AddsLine reads_form result self.old line self.new }
    {
        match line {
            ReadsLine::Head => self.add_head(),
            ReadsLine::Stamp(stamp) => self.add_stamp(stamp),
            ReadsLine::End => self.add_end(),
        }
    }

    fn add_head(&mut self) -> Result<(), ReadErr>
        ensures { AddsLine reads_form result self.old ReadsLine.Head self.new }
    {
        let Stage::Empty = self.stage else {
            return Err(ReadErr::Bad);
        };
        self.stage = Stage::Headed;
        Ok(())
    }

    fn add_stamp(&mut self, stamp: u32) -> Result<(), ReadErr>
        ensures { AddsLine reads_form result self.old (ReadsLine.Stamp stamp) self.new }
    {
        let Stage::Headed = self.stage else {
            return Err(ReadErr::Bad);
        };
        if u64::from(stamp) < self.least {
            return Err(ReadErr::Bad);
        }
        self.stamps.push(stamp)?;
        self.least = u64::from(stamp) + 1;
        Ok(())
    }

    fn add_end(&mut self) -> Result<(), ReadErr>
        ensures { AddsLine reads_form result self.old ReadsLine.End self.new }
    {
        let Stage::Headed = self.stage else {
            return Err(ReadErr::Bad);
        };
        self.stage = Stage::Ended;
        Ok(())
    }

    // What the lines said.
    fn into_stamps(self) -> Stamps
        ensures { result ≡ self.stamps }
    {
        self.stamps
    }
}

/// The plain reads that the bytes spell, as `fence_text` of `fence_law` writes them: `fence 1`, a line for each stamp, which
/// rise, and `end`. `Bad` exactly where the bytes are no such file, with the first line that is not whole or may not come where it
/// stands; `Memory` for want of memory.
pub fn read_reads(alloc: Global, bytes: &[u8]) -> Result<Stamps, FormErr>
    ensures { ReadsFile result (AreReads bytes.now) (IsBadReads bytes.now) }
{
    let draft = ReadsDraft::new(alloc);
    match read_lines(bytes, draft) {
        Ok(read) => Ok(read.into_stamps()),
        Err(error) => Err(error),
    }
}
