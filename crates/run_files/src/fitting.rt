//! Whether the files of a run go together with the calls of a capture.

ghost use Rattle.std.specs.Prelude.{◌≡◌, ◌≤◌, length, IfOk};
ghost use Rattle.run_files.specs.Fitting.{count_in, journal_misfit, kind_misfit, misfit_of, misplaced, reads_misfit, report_misfit, seen, stands, stray};

use crate::misfit::{Kind, Misfit};
use crate::times::{not_once, stamp_in};
use desk_values::{Captured, Event, History, Memory, Stamps};
use divergence_cause::CauseList;
use replay_history::{Line, Mode, Report};
use std::alloc::Global;

/// What the files of a run say.
#[derive(Drop)]
pub struct RunFiles {
    /// Which calls each call waited for, by the journal.
    pub mode: Mode,
    /// What happened, by the journal.
    pub history: History,
    /// What differs.
    pub report: Report,
    /// Why, where that is told.
    pub causes: Option<CauseList>,
    /// Which reads are plain, where that is told.
    pub reads: Option<Stamps>,
}

/// The first thing in which the files of a run do not go together with these calls, by stamp: the journal starts and answers each call just once,
/// the report is on so many calls and each of its lines is that of the call which stands there, and plain reads are told of the mode `fence` alone,
/// and each is a call. The causes are read by the report's lines, and so fit them.
pub fn misfit_of(
    alloc: Global,
    calls: &[Captured],
    run: &RunFiles,
) -> Result<Option<Misfit>, Memory>
    requires { length calls.now ≤ 100000 }
    ensures { IfOk result (λ found. found ≡ misfit_of calls.now (seen run.now)) }
{
    if let Some(found) = journal_misfit(alloc, calls.len(), run.history.as_slice())? {
        return Ok(Some(found));
    }
    if let Some(found) = report_misfit(calls, &run.report) {
        return Ok(Some(found));
    }
    Ok(reads_misfit(run.mode, calls.len(), &run.reads))
}

/// The journal starts each of so many calls just once, and answers it just once.
fn journal_misfit(alloc: Global, calls: usize, history: &[Event]) -> Result<Option<Misfit>, Memory>
    requires { calls ≤ 100000 }
    ensures { IfOk result (λ found. found ≡ journal_misfit calls history.now) }
{
    if let Some(found) = kind_misfit(alloc, Kind::Start, calls, history)? {
        return Ok(Some(found));
    }
    kind_misfit(alloc, Kind::Answer, calls, history)
}

/// There are as many events of a kind as calls, and one of each.
fn kind_misfit(
    alloc: Global,
    kind: Kind,
    calls: usize,
    history: &[Event],
) -> Result<Option<Misfit>, Memory>
    requires { calls ≤ 100000 }
    ensures { IfOk result (λ found. found ≡ kind_misfit kind calls history.now) }
{
    let events = count_in(kind, history);
    if events != calls {
        return Ok(Some(Misfit::Events {
            kind,
            events: events as u64,
            calls: calls as u64,
        }));
    }
    match not_once(alloc, kind, calls, history)? {
        Some(stamp) => Ok(Some(Misfit::Event { kind, stamp })),
        None => Ok(None),
    }
}

/// How many events there are of a kind.
fn count_in(kind: Kind, history: &[Event]) -> usize
    ensures { result ≡ count_in kind history.now }
{
    history
        .iter()
        .filter(|event| stamp_in(kind, event).is_some())
        .count()
}

/// The report is on these calls, and each of its lines is that of the call which stands there.
fn report_misfit(calls: &[Captured], report: &Report) -> Option<Misfit>
    ensures { result ≡ report_misfit calls.now report.now }
{
    let count = calls.len() as u64;
    if report.calls != count {
        return Some(Misfit::Calls {
            reported: report.calls,
            calls: count,
        });
    }
    let line = misplaced(calls, report.lines.as_slice())?;
    Some(Misfit::Place { stamp: line.stamp })
}

/// The first line whose call stands elsewhere.
fn misplaced(calls: &[Captured], lines: &[Line]) -> Option<Line>
    ensures { result ≡ misplaced calls.now lines.now }
{
    lines.iter().copied().find(|line| !stands(calls, line))
}

// Whether the call with the line's stamp stands where the line says.
fn stands(calls: &[Captured], line: &Line) -> bool
    ensures { result ≡ stands calls.now line.now }
{
    match calls.get(line.stamp as usize) {
        Some(call) => call.session == line.session && call.place == line.place,
        None => false,
    }
}

/// Each of the plain reads is one of so many calls, and they are told of the mode `fence` alone.
fn reads_misfit(mode: Mode, calls: usize, reads: &Option<Stamps>) -> Option<Misfit>
    ensures { result ≡ reads_misfit mode calls reads.now }
{
    match (mode, reads) {
        (_, None) => None,
        (Mode::Fence, Some(stamps)) => {
            let stamp = stray(calls, stamps.as_slice())?;
            Some(Misfit::Read { stamp })
        }
        (_, Some(_)) => Some(Misfit::Reads),
    }
}

/// The first stamp that is not below this number of calls.
fn stray(calls: usize, stamps: &[u32]) -> Option<u32>
    ensures { result ≡ stray calls stamps.now }
{
    stamps
        .iter()
        .copied()
        .find(|stamp| *stamp as usize >= calls)
}
