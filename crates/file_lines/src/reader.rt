ghost use Rattle.file_lines.specs.File.{Says};

use crate::file::LineFile;
use desk_values::ReadErr;
use desk_values::fields::cut;
use thiserror::Error;

/// Why a file was not read.
#[derive(Clone, Copy, Debug, PartialEq, Eq, Error)]
pub enum FormErr {
    /// The number of the first line, from 1, that is not a whole line that may come after those before it.
    #[error("line {line} is not whole or may not come there")]
    Bad { line: u64 },
    /// Want of memory.
    #[error("out of memory")]
    Memory,
}

/// Reads the lines of a file, each ended by a line feed, up to the last one, behind which nothing may stand. `Bad` with
/// the first line that is not whole or may not come where it stands; where the file stops too early, with the line that
/// is wanting. Bytes without a line feed behind them are such a line. A refusal leaves nothing of the file: it is taken by
/// value, and only `Ok` gives it back.
pub fn read_lines<F: LineFile + Drop>(bytes: &[u8], mut file: F) -> Result<F, FormErr>
    ensures { Says result F.state F.comes F.done (F.state file) bytes.now }
{
    let mut rest = bytes;
    let mut line: u64 = 1;
    'lines: while let Some((text, after)) = cut(rest, b'\n') {
        if file.is_done() {
            return Err(FormErr::Bad { line });
        }
        file = match file.add(text) {
            Ok(added) => added,
            Err(ReadErr::Bad) => return Err(FormErr::Bad { line }),
            Err(ReadErr::Memory) => return Err(FormErr::Memory),
        };
        line += 1;
        rest = after;
    }
    if rest.is_empty() && file.is_done() {
        Ok(file)
    } else {
        Err(FormErr::Bad { line })
    }
}
