//! The calls that differ, a line each.

ghost use Rattle.std.specs.Prelude.{◌≡◌, ◌++◌, IfOk, OnOk, slice_get};
ghost use Rattle.replay_show.specs.Lines.{cause_of_place, differing_line, differing_lines, place_shown, text_shown};
ghost use Rattle.replay_show.specs.Shown.{seen};

use crate::replies::append_call;
use crate::shown::Shown;
use desk_values::fields::append_u64;
use desk_values::{Bytes, Captured, List, Memory, Word};
use divergence_cause::CauseList;
use replay_history::Line;
use std::alloc::Global;

/// A line for each call that differs, by stamp: `STAMP SESSION.PLACE CLASS CAUSE TEXT`. The cause is `-` where it is not told.
#[tactic(auto, using(crate::proofs::Going::differing_more, crate::proofs::Going::differing_all))]
pub fn differing_lines(alloc: Global, shown: &Shown) -> Result<Bytes, Memory>
    ensures { IfOk result (λ lines. lines ≡ differing_lines (seen shown.now)) }
{
    let mut lines = List::new(alloc);
    for (n, line) in shown.run.report.lines.as_slice().iter().enumerate() {
        append_line(shown, n, line, &mut lines)?;
    }
    Ok(lines)
}

#[tactic(auto, unfolding(crate::specs::Lines::differing_line))]
fn append_line(shown: &Shown, n: usize, line: &Line, to: &mut Bytes) -> Result<(), Memory>
    ensures { OnOk result (to.new ≡ to.old ++ differing_line (seen shown.now) n line.now) }
{
    append_place(line, to)?;
    to.append(b" ")?;
    to.append(line.class.word().as_bytes())?;
    to.append(b" ")?;
    append_cause(&shown.run.causes, n, to)?;
    to.append(b" ")?;
    append_text(shown.calls.as_slice(), line.stamp, to)?;
    to.append(b"\n")
}

// Which call it is.
#[tactic(auto, unfolding(crate::specs::Lines::place_shown))]
fn append_place(line: &Line, to: &mut Bytes) -> Result<(), Memory>
    ensures { OnOk result (to.new ≡ to.old ++ place_shown line.now) }
{
    append_u64(u64::from(line.stamp), to)?;
    to.append(b" ")?;
    append_u64(u64::from(line.session), to)?;
    to.append(b".")?;
    append_u64(u64::from(line.place), to)
}

// The cause of the line at a place.
#[tactic(auto, unfolding(crate::specs::Lines::cause_of_place))]
fn append_cause(causes: &Option<CauseList>, n: usize, to: &mut Bytes) -> Result<(), Memory>
    ensures { OnOk result (to.new ≡ to.old ++ cause_of_place causes.now n) }
{
    match causes {
        Some(causes) => match causes.get(n) {
            Some(line) => to.append(line.cause.word().as_bytes()),
            None => to.append(b"-"),
        },
        None => to.append(b"-"),
    }
}

// What the call with a stamp asks.
#[tactic(auto, unfolding(crate::specs::Lines::text_shown))]
fn append_text(calls: &[Captured], stamp: u32, to: &mut Bytes) -> Result<(), Memory>
    ensures { OnOk result (to.new ≡ to.old ++ text_shown (slice_get calls.now stamp)) }
{
    match calls.get(stamp as usize) {
        Some(call) => append_call(&call.call, to),
        None => Ok(()),
    }
}
