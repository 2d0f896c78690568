//! What is to be shown of a replay: its capture and what a run left, read and put together.

ghost use Rattle.std.specs.Prelude.{◌≡◌, ◌<◌, ◌≤◌, ◌++◌, ◌∷◌, [], ◌⊎◌, IfErr, IfOk, IfSome, None, OnOk, length};
ghost use Rattle.std.specs.FinMap.{get};
ghost use Rattle.desk_words.specs.declared.words.Command.TheVariants.{Page as ThePage, Show as TheShow};
ghost use Rattle.replay_page.specs.Quiet.{AreQuiet};
ghost use Rattle.run_files.specs.Fitting.{misfit_of, seen as run_seen};
ghost use Rattle.replay_cli.specs.Decision.{CausesOf, FiledIn, IsTaskOf, JournalOf, LeftIn, MayBeRefused, MayRefuseCapture, MayRefuseLeft, PageIn, PerhapsIn, PerhapsSaid, ReadsOf, ReportOf, ShowIn, TogetherIn, fitting, left_of, perhaps, perhaps_named, perhaps_value, stamp_in};
ghost use Rattle.replay_cli.specs.FileNames as file_name;
ghost use Rattle.replay_cli.specs.Inside.Showing.{IsQuietLeft, IsWhole, journal_seen, left_seen, together_seen};
ghost use Rattle.replay_cli.specs.Inside.Steps.{Answered, FaultFree, IsOverlong, MayFail, Step, seen_as};
ghost use Rattle.replay_cli.specs.Inside.Work.{IsWork, task_of};
ghost use Rattle.replay_cli.specs.Steps.{Is};

use crate::capture::{Legal, read_capture, test};
use crate::failure::{Failure, Refusal};
use crate::file_names::name_in;
use crate::reading::{parse_report, read_file};
use crate::unshown::Unshown;
use crate::work::Work;
use capture_format::FormErr;
use desk_files::{FILE_LIMIT, FileErr, Files};
use desk_values::{Bytes, Captured, Copied, List, Memory, ReadErr, Stamps, Txt};
use divergence_cause::CauseList;
use replay_history::{Line, Report};
use replay_page::{NamedText, Page, captured_files, named};
use replay_report::{Journal, read_journal};
use replay_show::Shown;
use run_files::{Misfit, RunFiles, misfit_of, read_causes, read_reads};
use std::alloc::Global;

/// What the files of a run say, and the files themselves.
#[derive(Drop)]
pub struct Left {
    run: RunFiles,
    files: List<NamedText>,
}

/// A legal capture, what a run of it left, and the capture's files.
#[derive(Drop)]
pub struct Together {
    legal: Legal,
    left: Left,
    captured: List<NamedText>,
}

/// A page of what is in these folders.
pub(crate) fn decide_page<F: Files>(
    alloc: Global,
    capture: Txt,
    out: Txt,
    files: &mut F,
) -> Result<Work, Failure>
    requires capture { length capture ≤ 900 }
    requires out { length out ≤ 900 }
    ensures work { IfOk result IsWork }
    ensures task { IfOk result (λ work. IsTaskOf (ThePage capture out) (task_of work)) }
    ensures refused { IfErr result (MayFail (MayBeRefused (ThePage capture out))) }
    ensures step { Step (λ map. PageIn map capture out)
        (F.account files.old).content (F.account files.new).content
        (F.account files.old).faults (F.account files.new).faults (seen_as task_of result) }
{
    let found = read_together(alloc, &capture, &out, files)?;
    let calls = found.legal.calls.len() as u64;
    let captured = found.captured;
    let left = found.left;
    let divergent = left.run.report.lines.len() as u64;
    let page = Page {
        capture,
        out,
        captured,
        replayed: left.files,
    };
    Ok(Work::Paging(page, calls, divergent))
}

/// The calls of what is in these folders that differ, or the one with this stamp.
pub(crate) fn decide_show<F: Files>(
    alloc: Global,
    capture: &Txt,
    out: &Txt,
    stamp: Option<u64>,
    files: &mut F,
) -> Result<Work, Failure>
    requires capture { length capture.now ≤ 900 }
    requires out { length out.now ≤ 900 }
    ensures work { IfOk result IsWork }
    ensures task { IfOk result (λ work. IsTaskOf (TheShow capture.now out.now stamp) (task_of work)) }
    ensures refused { IfErr result (MayFail (MayBeRefused (TheShow capture.now out.now stamp))) }
    ensures step { Step (λ map. ShowIn map capture.now out.now stamp)
        (F.account files.old).content (F.account files.new).content
        (F.account files.old).faults (F.account files.new).faults (seen_as task_of result) }
{
    let found = read_together(alloc, capture, out, files)?;
    stamp_in(stamp, found.legal.calls.as_slice())?;
    let shown = Shown {
        start: found.legal.start,
        calls: found.legal.calls,
        facts: found.legal.facts,
        run: found.left.run,
    };
    Ok(Work::Showing(shown, stamp))
}

/// Whether there is a call with the stamp, if one is said.
fn stamp_in(stamp: Option<u64>, calls: &[Captured]) -> Result<(), Failure>
    ensures says { Answered (Is (stamp_in stamp calls.now)) result }
    ensures free { FaultFree result }
    ensures within { IfOk result (λ one. IfSome stamp (λ k. k < length calls.now)) }
{
    match stamp {
        Some(stamp) if stamp >= calls.len() as u64 => {
            Err(Failure::Refused(Refusal::Unshown(Unshown::NoCall(stamp))))
        }
        _ => Ok(()),
    }
}

/// Reads the capture and what the run left, tests the capture, and whether they go together.
fn read_together<F: Files>(
    alloc: Global,
    capture: &Txt,
    out: &Txt,
    files: &mut F,
) -> Result<Together, Failure>
    requires capture { length capture.now ≤ 900 }
    requires out { length out.now ≤ 900 }
    ensures step { Step (λ map. TogetherIn map capture.now out.now)
        (F.account files.old).content (F.account files.new).content
        (F.account files.old).faults (F.account files.new).faults (seen_as together_seen result) }
    ensures whole { IfOk result IsWhole }
    ensures kind { IfErr result (MayFail (λ refusal. MayRefuseCapture capture.now refusal ⊎ MayRefuseLeft out.now None refusal)) }
{
    let read = read_capture(alloc, capture, files)?;
    let captured = captured_files(alloc, &read.start, read.sessions.as_slice())?;
    let left = read_left(alloc, out, files)?;
    let legal = test(alloc, read)?;
    fit(alloc, &legal, &left.run)?;
    Ok(Together {
        legal,
        left,
        captured,
    })
}

/// Whether what a run left goes together with the calls.
fn fit(alloc: Global, legal: &Legal, run: &RunFiles) -> Result<(), Failure>
    requires { length legal.now.calls.items ≤ 100000 }
    ensures says { Answered (Is (fitting (misfit_of legal.now.calls.items (run_seen run.now)))) result }
    ensures free { FaultFree result }
{
    match misfit_of(alloc, legal.calls.as_slice(), run)? {
        Some(found) => Err(Failure::Refused(Refusal::Unshown(Unshown::Unfit(found)))),
        None => Ok(()),
    }
}

/// What a run left in a folder: its journal, its report, and its causes and plain reads where they are there.
fn read_left<F: Files>(alloc: Global, out: &Txt, files: &mut F) -> Result<Left, Failure>
    requires { length out.now ≤ 900 }
    ensures step { Step (λ map. LeftIn map out.now)
        (F.account files.old).content (F.account files.new).content
        (F.account files.old).faults (F.account files.new).faults (seen_as left_seen result) }
    ensures quiet { IfOk result IsQuietLeft }
    ensures kind { IfErr result (MayFail (MayRefuseLeft out.now None)) }
{
    let (journal_bytes, journal) = journal_in(alloc, out, files)?;
    let (report_bytes, report) = report_in(alloc, out, files)?;
    let causes = causes_in(alloc, out, report.lines.as_slice(), files)?;
    let reads = reads_in(alloc, out, files)?;
    let left = left_of(
        alloc,
        journal_bytes,
        journal,
        report_bytes,
        report,
        causes,
        reads,
    )?;
    Ok(left)
}

/// What the files of a run say, and the files under their names.
fn left_of(
    alloc: Global,
    journal_bytes: Bytes,
    journal: Journal,
    report_bytes: Bytes,
    report: Report,
    causes: Option<(Bytes, CauseList)>,
    reads: Option<(Bytes, Stamps)>,
) -> Result<Left, Memory>
    requires journal { AreQuiet journal_bytes }
    requires report { AreQuiet report_bytes }
    requires causes { IfSome causes (λ filed. AreQuiet filed.0) }
    requires reads { IfSome reads (λ filed. AreQuiet filed.0) }
    ensures left { IfOk result (λ left. left_seen left ≡ left_of (journal_bytes, journal_seen journal) (report_bytes, report) causes reads) }
    ensures quiet { IfOk result IsQuietLeft }
{
    let mut all = List::new(alloc);
    let said_causes = keep(alloc, "causes.csv", causes, &mut all)?;
    let said_reads = keep(alloc, "fence.txt", reads, &mut all)?;
    add(alloc, "journal.txt", journal_bytes, &mut all)?;
    add(alloc, "report.txt", report_bytes, &mut all)?;
    Ok(Left {
        run: RunFiles {
            mode: journal.mode,
            history: journal.history,
            report,
            causes: said_causes,
            reads: said_reads,
        },
        files: all,
    })
}

/// Adds a file under its name.
fn add(alloc: Global, name: &str, bytes: Bytes, to: &mut List<NamedText>) -> Result<(), Memory>
    requires { length name.now ≤ 1000 }
    ensures { OnOk result (to.new ≡ to.old ++ record { name = name.now; bytes = bytes } ∷ []) }
{
    to.push(named(alloc, name, bytes)?)
}

/// Adds a file under its name, where it is there, and gives what it says.
fn keep<T: Drop>(
    alloc: Global,
    name: &str,
    filed: Option<(Bytes, T)>,
    to: &mut List<NamedText>,
) -> Result<Option<T>, Memory>
    requires { length name.now ≤ 1000 }
    ensures value { IfOk result (λ value. value ≡ perhaps_value filed) }
    ensures file { OnOk result (to.new ≡ to.old ++ perhaps_named name.now filed) }
{
    match filed {
        Some((bytes, value)) => {
            to.push(named(alloc, name, bytes)?)?;
            Ok(Some(value))
        }
        None => Ok(None),
    }
}

/// The journal in a folder.
fn journal_in<F: Files>(
    alloc: Global,
    out: &Txt,
    files: &mut F,
) -> Result<(Bytes, Journal), Failure>
    requires { length out.now ≤ 900 }
    ensures step { Step (λ map. FiledIn (JournalOf (file_name.journal_name out.now)) map (file_name.journal_name out.now))
        (F.account files.old).content (F.account files.new).content
        (F.account files.old).faults (F.account files.new).faults (seen_as (λ filed. (filed.0, journal_seen filed.1)) result) }
    ensures quiet { IfOk result (λ filed. AreQuiet filed.0) }
    ensures kind { IfErr result (MayFail (MayRefuseLeft out.now None)) }
{
    let name = name_in(alloc, out, "/journal.txt")?;
    let bytes = read_file(&name, FILE_LIMIT, files)?;
    let journal = parse_journal(alloc, &name, &bytes)?;
    Ok((bytes, journal))
}

/// The journal that the bytes of the file of this name are.
fn parse_journal(alloc: Global, name: &Txt, bytes: &Bytes) -> Result<Journal, Failure>
    ensures says { Answered (JournalOf name.now bytes.now) (seen_as journal_seen result) }
    ensures quiet { IfOk result (λ said. AreQuiet bytes.now) }
    ensures free { FaultFree result }
{
    match read_journal(alloc, bytes.as_slice()) {
        Ok(journal) => Ok(journal),
        Err(FormErr::Bad { line }) => Err(Failure::Refused(Refusal::Unshown(Unshown::BadJournal(
            name.copy()?,
            line,
        )))),
        Err(FormErr::Memory) => Err(Failure::OutOfMemory),
    }
}

/// The report in a folder.
fn report_in<F: Files>(alloc: Global, out: &Txt, files: &mut F) -> Result<(Bytes, Report), Failure>
    requires { length out.now ≤ 900 }
    ensures step { Step (λ map. FiledIn (ReportOf (file_name.report_name out.now)) map (file_name.report_name out.now))
        (F.account files.old).content (F.account files.new).content
        (F.account files.old).faults (F.account files.new).faults result }
    ensures quiet { IfOk result (λ filed. AreQuiet filed.0) }
    ensures kind { IfErr result (MayFail (MayRefuseLeft out.now None)) }
{
    let name = name_in(alloc, out, "/report.txt")?;
    let bytes = read_file(&name, FILE_LIMIT, files)?;
    let report = parse_report(alloc, &name, &bytes)?;
    Ok((bytes, report))
}

/// The causes of these lines in a folder, where they are there.
fn causes_in<F: Files>(
    alloc: Global,
    out: &Txt,
    lines: &[Line],
    files: &mut F,
) -> Result<Option<(Bytes, CauseList)>, Failure>
    requires { length out.now ≤ 900 }
    ensures step { Step (λ map. PerhapsIn (CausesOf lines.now) map (file_name.causes_name out.now))
        (F.account files.old).content (F.account files.new).content
        (F.account files.old).faults (F.account files.new).faults result }
    ensures quiet { IfOk result (λ found. IfSome found (λ filed. AreQuiet filed.0)) }
    ensures kind { IfErr result (MayFail (MayRefuseLeft out.now None)) }
{
    let name = name_in(alloc, out, "/causes.csv")?;
    let found = read_perhaps(&name, files)?;
    said_causes(alloc, lines, found)
}

/// The causes that the bytes are, where there are some.
fn said_causes(
    alloc: Global,
    lines: &[Line],
    found: Option<Bytes>,
) -> Result<Option<(Bytes, CauseList)>, Failure>
    ensures says { Answered (PerhapsSaid (CausesOf lines.now) found) result }
    ensures quiet { IfOk result (λ said. IfSome said (λ filed. AreQuiet filed.0)) }
    ensures free { FaultFree result }
{
    match found {
        Some(bytes) => {
            let causes = parse_causes(alloc, lines, &bytes)?;
            Ok(Some((bytes, causes)))
        }
        None => Ok(None),
    }
}

/// The causes of these lines that the bytes are.
fn parse_causes(alloc: Global, lines: &[Line], bytes: &Bytes) -> Result<CauseList, Failure>
    ensures says { Answered (CausesOf lines.now bytes.now) result }
    ensures quiet { IfOk result (λ said. AreQuiet bytes.now) }
    ensures free { FaultFree result }
{
    match read_causes(alloc, lines, bytes.as_slice()) {
        Ok(causes) => Ok(causes),
        Err(ReadErr::Bad) => Err(Failure::Refused(Refusal::Unshown(Unshown::Unfit(
            Misfit::Causes,
        )))),
        Err(ReadErr::Memory) => Err(Failure::OutOfMemory),
    }
}

/// The plain reads in a folder, where they are there.
fn reads_in<F: Files>(
    alloc: Global,
    out: &Txt,
    files: &mut F,
) -> Result<Option<(Bytes, Stamps)>, Failure>
    requires { length out.now ≤ 900 }
    ensures step { Step (λ map. PerhapsIn (ReadsOf (file_name.fence_name out.now)) map (file_name.fence_name out.now))
        (F.account files.old).content (F.account files.new).content
        (F.account files.old).faults (F.account files.new).faults result }
    ensures quiet { IfOk result (λ found. IfSome found (λ filed. AreQuiet filed.0)) }
    ensures kind { IfErr result (MayFail (MayRefuseLeft out.now None)) }
{
    let name = name_in(alloc, out, "/fence.txt")?;
    let found = read_perhaps(&name, files)?;
    said_reads(alloc, &name, found)
}

/// The plain reads that the bytes of the file of this name are, where there are some.
fn said_reads(
    alloc: Global,
    name: &Txt,
    found: Option<Bytes>,
) -> Result<Option<(Bytes, Stamps)>, Failure>
    ensures says { Answered (PerhapsSaid (ReadsOf name.now) found) result }
    ensures quiet { IfOk result (λ said. IfSome said (λ filed. AreQuiet filed.0)) }
    ensures free { FaultFree result }
{
    match found {
        Some(bytes) => {
            let reads = parse_reads(alloc, name, &bytes)?;
            Ok(Some((bytes, reads)))
        }
        None => Ok(None),
    }
}

/// The plain reads that the bytes of the file of this name are.
fn parse_reads(alloc: Global, name: &Txt, bytes: &Bytes) -> Result<Stamps, Failure>
    ensures says { Answered (ReadsOf name.now bytes.now) result }
    ensures quiet { IfOk result (λ said. AreQuiet bytes.now) }
    ensures free { FaultFree result }
{
    match read_reads(alloc, bytes.as_slice()) {
        Ok(reads) => Ok(reads),
        Err(FormErr::Bad { line }) => Err(Failure::Refused(Refusal::Unshown(Unshown::BadReads(
            name.copy()?,
            line,
        )))),
        Err(FormErr::Memory) => Err(Failure::OutOfMemory),
    }
}

/// The bytes of a file that may be missing.
fn read_perhaps<F: Files>(name: &Txt, files: &mut F) -> Result<Option<Bytes>, Failure>
    ensures step { Step (λ map. Is (perhaps (get map name.now) name.now))
        (F.account files.old).content (F.account files.new).content
        (F.account files.old).faults (F.account files.new).faults result }
    ensures kind { IfErr result (MayFail (IsOverlong name.now)) }
{
    match files.read(name) {
        Ok(bytes) => Ok(Some(bytes)),
        Err(FileErr::Missing) => Ok(None),
        Err(FileErr::TooLong) => Err(Failure::Refused(Refusal::TooLong(name.copy()?))),
        Err(FileErr::Failed) => Err(Failure::DeviceFault),
        Err(FileErr::Memory) => Err(Failure::OutOfMemory),
    }
}
