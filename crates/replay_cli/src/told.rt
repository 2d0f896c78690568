//! What is told of a replay beside its report: its plain reads, and why calls differ.

ghost use Rattle.std.specs.Prelude.{◌≡◌, ◌↔◌, ◌++◌, ◌≤◌, ◌&&◌, nat_eq, not, length, true, List as Sequence, IfOk, IsTrue, OnOk};
ghost use Rattle.desk_values.specs.declared.capture.Event.{Event};
ghost use Rattle.replay_job.specs.Job.{seen};
ghost use Rattle.replay_job.specs.Replays.{IsReplay, IsSoundJob, IsToldReplay};
ghost use Rattle.replay_job.specs.Runs.{Stage};
ghost use Rattle.replay_report.specs.Report.{report_in};
ghost use Rattle.replay_walk.specs.Walked.{AreOpen};
ghost use Rattle.replay_cli.specs.Done.{AreReadsOf, IsFenced, IsToldOf, fence_files, told_files};

use crate::file_names::write_in;
use desk_files::Write;
use desk_values::{History, List, Memory, Stamps, Txt};
use divergence_cause::{CauseList, causes_csv, causes_in, differing};
use fence_law::{fence_text, reads_in};
use replay_core::Desk;
use replay_history::{Mode, Report};
use replay_job::Job;
use replay_walk::{Asks, Walked, walk};
use std::alloc::Global;

/// What is told of a replay beside its report.
#[derive(Drop)]
pub struct Told {
    /// The stamps of the plain reads, where numbered commits wait for all calls before them and the replay begins with the captured
    /// start.
    pub reads: Option<Stamps>,
    /// Why calls differ.
    pub causes: CauseList,
}

/// What is told of the replay of a desk, of which this is the report.
pub fn told_on(alloc: Global, desk: &Desk, report: &Report) -> Result<Told, Memory>
    requires report { report.now ≡ report_in desk.now.job desk.now.history }
    requires replay { IsToldReplay desk.now.job desk.now.history desk.now.stage }
    ensures { IfOk result (λ told. IsToldOf desk.now.job desk.now.history told) }
{
    told_of(alloc, desk.job(), desk.history(), report)
}

fn told_of(alloc: Global, job: &Job, history: &History, report: &Report) -> Result<Told, Memory>
    requires report { report.now ≡ report_in (seen job.now) history.now.items }
    requires replay { (last : Stage) × IsReplay (seen job.now) history.now.items last }
    ensures { IfOk result (λ told. IsToldOf (seen job.now) history.now.items told) }
{
    let fenced = is_fenced(job);
    if is_untold(fenced, report) {
        return Ok(Told {
            reads: None,
            causes: List::new(alloc),
        });
    }
    told_along(alloc, job, history, report, fenced)
}

// The same along the replay once more, where something is to be told.
fn told_along(
    alloc: Global,
    job: &Job,
    history: &History,
    report: &Report,
    fenced: bool,
) -> Result<Told, Memory>
    requires report { report.now ≡ report_in (seen job.now) history.now.items }
    requires replay { (last : Stage) × IsReplay (seen job.now) history.now.items last }
    requires fenced { IsTrue fenced ↔ IsFenced (seen job.now) }
    ensures { IfOk result (λ told. IsToldOf (seen job.now) history.now.items told) }
{
    let differs = differing(alloc, job, report)?;
    let asks = Asks {
        reads: fenced,
        twins: differs.as_slice(),
    };
    let walked = walk(alloc, job, history, asks)?;
    let reads = reads_of(alloc, job, &walked, fenced)?;
    let causes = causes_in(alloc, report, &walked)?;
    Ok(Told { reads, causes })
}

// Whether nothing is to be told.
fn is_untold(fenced: bool, report: &Report) -> bool
    ensures { result ≡ (not fenced && nat_eq (length report.now.lines) 0) }
{
    !fenced && report.lines.is_empty()
}

// The plain reads, where the job is fenced.
fn reads_of(
    alloc: Global,
    job: &Job,
    walked: &Walked,
    fenced: bool,
) -> Result<Option<Stamps>, Memory>
    requires sound { IsSoundJob (seen job.now) }
    requires fenced { IsTrue fenced ↔ IsFenced (seen job.now) }
    ensures { IfOk result
        (λ reads. (history : Sequence Event) → (fenced ≡ true → AreOpen (seen job.now) history walked.now.open_calls.items) → AreReadsOf (seen job.now) history reads) }
{
    if fenced {
        Ok(Some(reads_in(alloc, job, walked)?))
    } else {
        Ok(None)
    }
}

// Whether numbered commits wait for all calls before them, and the replay begins with the captured start.
fn is_fenced(job: &Job) -> bool
    ensures { IsTrue result ↔ IsFenced (seen job.now) }
{
    job.mode == Mode::Fence && job.target.same(&job.start)
}

/// Appends what is written of what is told.
pub fn append_told(
    alloc: Global,
    out: &Txt,
    told: &Told,
    writes: &mut List<Write>,
) -> Result<(), Memory>
    requires { length out.now ≤ 900 }
    ensures { OnOk result (writes.new ≡ writes.old ++ told_files out.now told.now) }
{
    append_reads(alloc, out, &told.reads, writes)?;
    let text = causes_csv(alloc, &told.causes)?;
    writes.push(write_in(alloc, out, "/causes.csv", text)?)?;
    Ok(())
}

// Appends what is written of the plain reads, where they are told.
fn append_reads(
    alloc: Global,
    out: &Txt,
    reads: &Option<Stamps>,
    writes: &mut List<Write>,
) -> Result<(), Memory>
    requires { length out.now ≤ 900 }
    ensures { OnOk result (writes.new ≡ writes.old ++ fence_files out.now reads.now) }
{
    if let Some(stamps) = reads {
        let text = fence_text(alloc, stamps)?;
        writes.push(write_in(alloc, out, "/fence.txt", text)?)?;
    }
    Ok(())
}
