//! The stamps of the plain reads of a replay.

ghost use Rattle.std.specs.Prelude.{◌≡◌, ◌≤◌, ◌&&◌, length, List as Sequence, IfOk};
ghost use Rattle.desk_values.specs.declared.capture.Event.{Event as Told};
ghost use Rattle.replay_history.specs.declared.mode.Mode.TheVariants.{Fence};
ghost use Rattle.replay_job.specs.Job.{seen};
ghost use Rattle.replay_job.specs.Replays.{IsReplay, IsSoundJob};
ghost use Rattle.replay_job.specs.Runs.{IsCompleteFor, Stage};
ghost use Rattle.replay_walk.specs.Walked.{AreOpen, marked_at};
ghost use Rattle.fence_law.specs.Inside.{AreReadMarks, stamps_in};
ghost use Rattle.fence_law.specs.Laws.{AreSame};
ghost use Rattle.fence_law.specs.Plain.{ArePlainReads, is_plain_select};

use crate::selects::is_plain_select;
use desk_values::{Captured, History, List, Memory, Stamps};
use replay_job::Job;
use replay_walk::{Asks, Walked, walk};
use std::alloc::Global;

/// The stamps of the plain reads of a whole replay in the mode `Fence`, on the captured start, ascending. Each of them is the
/// same.
pub fn plain_reads(alloc: Global, job: &Job, history: &History) -> Result<Stamps, Memory>
    requires sound { IsSoundJob (seen job.now) }
    requires fence { (seen job.now).mode ≡ Fence }
    requires target { (seen job.now).target ≡ (seen job.now).start }
    requires complete { (last : Stage) × IsCompleteFor (seen job.now) history.now.items last }
    ensures reads { IfOk result (λ stamps. ArePlainReads (seen job.now) history.now.items stamps) }
    ensures same { IfOk result (λ stamps. AreSame (seen job.now) history.now.items stamps) }
{
    let none = vec![in alloc; false; job.calls.len()]?;
    let asks = Asks {
        reads: true,
        twins: none.as_slice(),
    };
    let walked = walk(alloc, job, history, asks)?;
    reads_in(alloc, job, &walked)
}

/// The same of a replay along which was gone, where it was asked which calls nothing stood before.
pub fn reads_in(alloc: Global, job: &Job, walked: &Walked) -> Result<Stamps, Memory>
    requires { IsSoundJob (seen job.now) }
    ensures reads { IfOk result
        (λ stamps. (history : Sequence Told) → AreOpen (seen job.now) history walked.now.open_calls.items → ArePlainReads (seen job.now) history stamps) }
    ensures same { IfOk result
        (λ stamps. (history : Sequence Told) (last : Stage) → IsReplay (seen job.now) history last → (seen job.now).mode ≡ Fence
        → (seen job.now).target ≡ (seen job.now).start → AreOpen (seen job.now) history walked.now.open_calls.items → AreSame (seen job.now) history stamps) }
{
    let marks = read_marks(alloc, job.calls.as_slice(), walked.open_calls.as_slice())?;
    stamps_of(alloc, marks.as_slice())
}

// Of each call whether nothing stood before it and its text spells a plain SELECT.
fn read_marks(alloc: Global, calls: &[Captured], open_calls: &[bool]) -> Result<Vec<bool>, Memory>
    ensures { IfOk result (λ marks. AreReadMarks calls.now open_calls.now (length calls.now) marks.items) }
{
    let mut marks = Vec::new(alloc);
    for place in 0..calls.len() {
        marks.push(is_read(alloc, open_calls, place, &calls[place])?)?;
    }
    Ok(marks)
}

// The same of the call at a place.
fn is_read(
    alloc: Global,
    open_calls: &[bool],
    place: usize,
    call: &Captured,
) -> Result<bool, Memory>
    ensures { IfOk result (λ read. read ≡ (marked_at open_calls.now place && is_plain_select call.now.call)) }
{
    if is_open(open_calls, place) {
        is_plain_select(alloc, &call.call)
    } else {
        Ok(false)
    }
}

fn is_open(marks: &[bool], place: usize) -> bool
    ensures { result ≡ marked_at marks.now place }
{
    match marks.get(place) {
        Some(mark) => *mark,
        None => false,
    }
}

// The stamps that are marked.
fn stamps_of(alloc: Global, marks: &[bool]) -> Result<Stamps, Memory>
    requires { length marks.now ≤ 100000 }
    ensures { IfOk result (λ stamps. stamps ≡ stamps_in 0 marks.now) }
{
    let mut stamps = List::new(alloc);
    for stamp in 0..marks.len() {
        if marks[stamp] {
            stamps.push(stamp as u32)?;
        }
    }
    Ok(stamps)
}
