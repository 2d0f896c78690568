//! The file of the causes.

ghost use Rattle.std.specs.Prelude.{◌≡◌, ◌++◌, IfOk, OnOk};
ghost use Rattle.std.specs.List.{flat_map};
ghost use Rattle.divergence_cause.specs.Text.{cause_line, causes_text};

use crate::cause::{CauseLine, CauseList};
use desk_values::fields::append_u64;
use desk_values::{Bytes, List, Memory, Word};
use std::alloc::Global;

/// The text of `causes.csv`: a record for each line.
pub fn causes_csv(alloc: Global, lines: &CauseList) -> Result<Bytes, Memory>
    ensures { IfOk result (λ text. text ≡ causes_text lines.now) }
{
    let mut text = List::new(alloc);
    text.append(b"stamp,cause\n")?;
    append_lines(lines.as_slice(), &mut text)?;
    Ok(text)
}

fn append_lines(lines: &[CauseLine], to: &mut Bytes) -> Result<(), Memory>
    ensures { OnOk result (to.new ≡ to.old ++ flat_map cause_line lines.now) }
{
    for line in lines {
        append_line(line, to)?;
    }
    Ok(())
}

fn append_line(line: &CauseLine, to: &mut Bytes) -> Result<(), Memory>
    ensures { OnOk result (to.new ≡ to.old ++ cause_line line.now) }
{
    append_u64(u64::from(line.stamp), to)?;
    to.push(b',')?;
    to.append(line.cause.word().as_bytes())?;
    to.push(b'\n')
}
