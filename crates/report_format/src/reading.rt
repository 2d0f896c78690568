ghost use Rattle.file_lines.specs.File.{ReadsFile};
ghost use Rattle.report_format.specs.ReportFile.{IsBadReport, IsReport};

use crate::draft::Draft;
use file_lines::{FormErr, read_lines};
use replay_history::Report;
use std::alloc::Global;

/// The report that the bytes spell: lines, each with a line feed. `report 1` comes first, then `calls` with their number, at most
/// 100,000, and the word of each class with its count. A line for each call that differs follows, `STAMP SESSION PLACE CLASS`,
/// by rising stamp below the number of calls, and `end` comes last. `Bad` exactly where the bytes are no report, with the
/// first line that is not whole or may not come where it stands; a count that is not that of the lines is found at `end`.
/// `Memory` for want of memory.
pub fn read_report(alloc: Global, bytes: &[u8]) -> Result<Report, FormErr>
    ensures { ReadsFile result (IsReport bytes.now) (IsBadReport bytes.now) }
{
    let draft = Draft::new(alloc);
    match read_lines(bytes, draft) {
        Ok(read) => Ok(read.into_report()),
        Err(error) => Err(error),
    }
}
