//! A line of the plain reads, read from its bytes.

ghost use Rattle.std.specs.Prelude.{◌≡◌};
ghost use Rattle.desk_values.specs.Reading.{Reads};
ghost use Rattle.run_files.specs.Inside.Reading.{reads_line_of};

use desk_values::ReadErr;
use desk_values::fields::read_u32;

/// A line of the plain reads, without its line feed.
#[derive(Clone, Copy)]
pub enum ReadsLine {
    /// The first line.
    Head,
    /// The stamp of a read.
    Stamp(u32),
    /// The last line.
    End,
}

/// The line that the bytes spell, without its line feed. `Bad` where they spell none.
pub(crate) fn read_reads_line(bytes: &[u8]) -> Result<ReadsLine, ReadErr>
    ensures { Reads result (reads_line_of bytes.now) }
{
    line_in(bytes).ok_or(ReadErr::Bad)
}

#[tactic(auto, unfolding(crate::specs::Inside::Reading::reads_line_of))]
fn line_in(bytes: &[u8]) -> Option<ReadsLine>
    ensures { result ≡ reads_line_of bytes.now }
{
    if bytes == b"fence 1".as_slice() {
        Some(ReadsLine::Head)
    } else if bytes == b"end".as_slice() {
        Some(ReadsLine::End)
    } else {
        Some(ReadsLine::Stamp(read_u32(bytes)?))
    }
}
