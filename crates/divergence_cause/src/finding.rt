//! The causes of the divergence of a replay.

ghost use Rattle.std.specs.Prelude.{◌≡◌, length, map, slice_set, true, List as Sequence, IfOk};
ghost use Rattle.desk_values.specs.declared.capture.Event.{Event as Told};
ghost use Rattle.replay_job.specs.Job.{JobView, seen};
ghost use Rattle.replay_job.specs.Replays.{IsReplay, IsSoundJob};
ghost use Rattle.replay_job.specs.Runs.{IsCompleteFor, Stage};
ghost use Rattle.replay_report.specs.Report.{report_in};
ghost use Rattle.replay_walk.specs.Walked.{AreTold};
ghost use Rattle.divergence_cause.specs.Causes.{AllAreTiming, AreCauses, marked_by};
ghost use Rattle.divergence_cause.specs.Inside.{cause_at, line_with};

use crate::cause::{Cause, CauseLine, CauseList};
use desk_values::{History, List, Memory};
use replay_history::{Line, Report};
use replay_job::Job;
use replay_report::report_of;
use replay_walk::{Asks, Walked, walk};
use std::alloc::Global;

/// The causes of a whole replay: of each call that differs, by stamp, `Upgrade` where its session met what it met in the capture,
/// but for ids, else `Timing`. Where the replay has the captured schema, none is `Upgrade`.
pub fn causes(alloc: Global, job: &Job, history: &History) -> Result<CauseList, Memory>
    requires sound { IsSoundJob (seen job.now) }
    requires complete { (last : Stage) × IsCompleteFor (seen job.now) history.now.items last }
    ensures causes { IfOk result (λ lines. AreCauses (seen job.now) history.now.items lines) }
    ensures timing { (seen job.now).target.schema ≡ (seen job.now).start.schema → IfOk result (λ lines. AllAreTiming lines) }
{
    let report = report_of(alloc, job, history)?;
    let differs = differing(alloc, job, &report)?;
    let asks = Asks {
        reads: false,
        twins: differs.as_slice(),
    };
    let walked = walk(alloc, job, history, asks)?;
    causes_in(alloc, &report, &walked)
}

/// Of each call whether a line of the report names it.
pub fn differing(alloc: Global, job: &Job, report: &Report) -> Result<Vec<bool>, Memory>
    ensures marks { IfOk result (λ marks. marks.items ≡ marked_by (length (seen job.now).calls) report.now.lines) }
    ensures count { IfOk result (λ marks. length marks.items ≡ length (seen job.now).calls) }
{
    marks(alloc, job.calls.len(), report.lines.as_slice())
}

/// The same causes of a replay along which was gone, with this report, where it was asked of just the calls that differ whether they met what they
/// met in the capture.
pub fn causes_in(alloc: Global, report: &Report, walked: &Walked) -> Result<CauseList, Memory>
    ensures { IfOk result
        (λ lines. (job : JobView) (history : Sequence Told) (last : Stage) → IsReplay job history last → report.now ≡ report_in job history
        → AreTold job history (marked_by (length job.calls) report.now.lines) walked.now.twins.items → AreCauses job history lines) }
{
    lines_of(alloc, report.lines.as_slice(), walked.twins.as_slice())
}

// Of each of so many calls whether a line names it.
fn marks(alloc: Global, calls: usize, lines: &[Line]) -> Result<Vec<bool>, Memory>
    ensures { IfOk result (λ marks. marks.items ≡ marked_by calls lines.now) }
{
    let mut marks = vec![in alloc; false; calls]?;
    for line in lines {
        mark(&mut marks, line.stamp as usize);
    }
    Ok(marks)
}

// Marks a place, where there is such a one.
fn mark(marks: &mut Vec<bool>, place: usize)
    ensures { marks.new.items ≡ slice_set marks.old.items place true }
{
    if place < marks.len() {
        marks[place] = true;
    }
}

// A line for each line of the report, with its cause.
fn lines_of(alloc: Global, lines: &[Line], twins: &[bool]) -> Result<CauseList, Memory>
    ensures { IfOk result (λ list. list ≡ map (line_with twins.now) lines.now) }
{
    let mut list = List::new(alloc);
    for line in lines {
        list.push(line_with(twins, *line))?;
    }
    Ok(list)
}

// A line of the report, with the cause of its call.
fn line_with(twins: &[bool], line: Line) -> CauseLine
    ensures { result ≡ line_with twins.now line }
{
    CauseLine {
        stamp: line.stamp,
        cause: cause_at(twins, line.stamp),
    }
}

fn cause_at(twins: &[bool], stamp: u32) -> Cause
    ensures { result ≡ cause_at twins.now stamp }
{
    match twins.get(stamp as usize) {
        Some(true) => Cause::Upgrade,
        Some(false) => Cause::Timing,
        None => Cause::Timing,
    }
}
