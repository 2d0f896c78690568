//! The causes of a report's lines, read from their bytes.

ghost use Rattle.std.specs.Prelude.{◌≡◌, IfOk, IsErrOf, List as Items, option_map};
ghost use Rattle.desk_values.specs.Reading.{Reads};
ghost use Rattle.divergence_cause.specs.declared.cause.CauseLine.{CauseLine as OneCause};
ghost use Rattle.run_files.specs.CausesFile.{AreCausesFor, stamps_of};
ghost use Rattle.run_files.specs.Inside.Reading.{cause_at, cause_in, causes_behind, causes_of};

use desk_values::fields::{cut, read_u32};
use desk_values::{List, ReadErr, find_word};
use divergence_cause::{Cause, CauseLine, CauseList};
use replay_history::Line;
use std::alloc::Global;

/// The causes that the bytes spell, as `causes_csv` of `divergence_cause` writes them: a head, and a record for each of the lines
/// of a report, in their order. `Bad` exactly where the bytes spell no causes of these lines.
pub fn read_causes(alloc: Global, lines: &[Line], bytes: &[u8]) -> Result<CauseList, ReadErr>
    ensures ok { IfOk result (AreCausesFor lines.now bytes.now) }
    ensures bad { IsErrOf result ReadErr.Bad → (causes : Items OneCause) → ¬ AreCausesFor lines.now bytes.now causes }
{
    causes_of(alloc, lines, bytes)
}

#[tactic(auto, unfolding(crate::specs::Inside::Reading::causes_of))]
fn causes_of(alloc: Global, lines: &[Line], bytes: &[u8]) -> Result<CauseList, ReadErr>
    ensures { Reads result (causes_of (stamps_of lines.now) bytes.now) }
{
    let (head, rest) = cut(bytes, b'\n').ok_or(ReadErr::Bad)?;
    if head != b"stamp,cause".as_slice() {
        return Err(ReadErr::Bad);
    }
    causes_behind(alloc, lines, rest)
}

// A cause for each of the lines, and nothing behind the last.
#[tactic(auto, using(crate::proofs::CausesFiles::one_more, crate::proofs::CausesFiles::no_more, crate::proofs::CausesFiles::at_last, crate::proofs::CausesFiles::too_many))]
fn causes_behind(alloc: Global, lines: &[Line], bytes: &[u8]) -> Result<CauseList, ReadErr>
    ensures { Reads result (causes_behind (stamps_of lines.now) bytes.now) }
{
    let mut causes = List::new(alloc);
    let mut rest = bytes;
    for line in lines {
        let (cause, behind) = cause_at(line.stamp, rest).ok_or(ReadErr::Bad)?;
        causes.push(CauseLine {
            stamp: line.stamp,
            cause,
        })?;
        rest = behind;
    }
    if rest.is_empty() {
        Ok(causes)
    } else {
        Err(ReadErr::Bad)
    }
}

// The cause in the first line, which is one of this stamp, and what stands behind the line.
#[tactic(auto, unfolding(crate::specs::Inside::Reading::cause_at))]
fn cause_at(stamp: u32, bytes: &[u8]) -> Option<(Cause, &[u8])>
    ensures { option_map (λ found. (found.0, found.1.now)) result ≡ cause_at stamp bytes.now }
{
    let (fields, rest) = cut(bytes, b'\n')?;
    Some((cause_in(stamp, fields)?, rest))
}

#[tactic(auto, unfolding(crate::specs::Inside::Reading::cause_in, capture_format::specs::Inside::Fields::two_of))]
fn cause_in(stamp: u32, bytes: &[u8]) -> Option<Cause>
    ensures { result ≡ cause_in stamp bytes.now }
{
    let (first, word) = cut(bytes, b',')?;
    let found = read_u32(first)?;
    let cause = find_word(word)?;
    if found == stamp { Some(cause) } else { None }
}
