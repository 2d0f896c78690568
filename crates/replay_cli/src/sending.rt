//! What is replayed against another server, and its files.

ghost use Rattle.std.specs.Prelude.{◌≡◌, ◌≤◌, length, IfErr, IfOk, Ok};
ghost use Rattle.replay_history.specs.History.{AnswersAll};
ghost use Rattle.replay_job.specs.Job.{seen};
ghost use Rattle.replay_job.specs.Replays.{IsSoundJob};
ghost use Rattle.replay_report.specs.Report.{heard_report_in};
ghost use Rattle.desk_words.specs.Within.{IsLaneCount};
ghost use Rattle.remote_desk.specs.Desk.{IsKept};
ghost use Rattle.remote_desk.specs.History.{plain};
ghost use Rattle.remote_target.specs.Dialled.{IsHandedBack};
ghost use Rattle.replay_cli.specs.declared.failure.Failure.TheVariants.{OutOfMemory};
ghost use Rattle.replay_cli.specs.Done.{IsSent, sent_files};
ghost use Rattle.replay_cli.specs.Hosting.{dialling};
ghost use Rattle.replay_cli.specs.Inside.Serving.{DialFaults, IsToldSent, SendFails, failed_as};

use crate::failure::Failure;
use crate::file_names::write_in;
use crate::plan::{Plan, replayed_line};
use crate::unsent::Unsent;
use desk_files::{Door, Write};
use desk_values::{History, List, Memory, Txt};
use remote_desk::RemoteDesk;
use remote_link::Dial;
use remote_target::{RemoteErr, run_remote};
use replay_history::Report;
use replay_job::Job;
use replay_report::{journal_text, report_csv, report_heard, report_text};
use std::alloc::Global;
use std::sync::Wait;
use std::thread::Threads;
use std::time::Clock;

/// Replays a job against the server at a port.
pub(crate) fn sending<R: Clock + Wait + Threads + Sync, D: Door, L: Dial>(
    rt: &R,
    alloc: Global,
    out: &Txt,
    job: Job,
    lanes: u32,
    port: u16,
    door: &D,
    dial: &mut L,
) -> Result<Plan, Failure>
    requires out { length out.now ≤ 900 }
    requires job { IsSoundJob (seen job) }
    requires lanes { IsLaneCount lanes }
    ensures done { IfOk result (λ plan. IsSent out.now (seen job) plan (dialling (L.account dial.old) (L.account dial.new))) }
    ensures dial { DialFaults result (dialling (L.account dial.old) (L.account dial.new)) }
    ensures fails { IfErr result (SendFails (seen job) (dialling (L.account dial.old) (L.account dial.new))) }
    ensures handed { IsHandedBack (seen job).calls port (L.account dial.old) (L.account dial.new) }
{
    match run_remote(rt, alloc, job, door, dial, port, lanes) {
        Ok(desk) => planned(told_of(alloc, out, desk)),
        Err(error) => Err(failed_as(error)),
    }
}

// Want of memory for what is told is a failure.
fn planned(told: Result<Plan, Memory>) -> Result<Plan, Failure>
    ensures done { IfOk result (λ plan. told ≡ Ok plan) }
    ensures short { IfErr result (λ failure. failure ≡ OutOfMemory) }
{
    match told {
        Ok(plan) => Ok(plan),
        Err(Memory) => Err(Failure::OutOfMemory),
    }
}

// What an error of it is told as.
fn failed_as(error: RemoteErr) -> Failure
    ensures { result ≡ failed_as error }
{
    match error {
        RemoteErr::Link => Failure::NotSent(Unsent::Link),
        RemoteErr::OtherJob { .. } => Failure::NotSent(Unsent::Job),
        RemoteErr::Mismatch {
            session,
            place,
            kept,
            answered,
        } => Failure::NotSent(Unsent::Mismatch {
            session,
            place,
            kept,
            answered,
        }),
        RemoteErr::Memory => Failure::OutOfMemory,
    }
}

// What is told of a replay to its end, of which nothing else is needed.
fn told_of(alloc: Global, out: &Txt, desk: RemoteDesk) -> Result<Plan, Memory>
    requires out { length out.now ≤ 900 }
    requires all { AnswersAll desk.job.calls (plain desk.events) }
    ensures kept { IsKept desk }
    ensures told { IfOk result (IsToldSent out.now desk) }
{
    desk.history_is_kept();
    sent(alloc, out, &desk)
}

// What is told of a replay against another server.
fn sent(alloc: Global, out: &Txt, desk: &RemoteDesk) -> Result<Plan, Memory>
    requires out { length out.now ≤ 900 }
    requires kept { IsKept desk.now }
    requires all { AnswersAll desk.now.job.calls (plain desk.now.events) }
    ensures { IfOk result (IsToldSent out.now desk.now) }
{
    let history = desk.history()?;
    let report = report_on(alloc, desk, &history)?;
    let divergent = report.lines.len() as u64;
    let line = replayed_line(alloc, call_count(desk), divergent)?;
    let writes = sent_files(alloc, out, desk, &history, &report)?;
    Ok(Plan {
        line,
        differs: divergent > 0,
        writes,
    })
}

// The report on it.
fn report_on(alloc: Global, desk: &RemoteDesk, history: &History) -> Result<Report, Memory>
    requires kept { IsKept desk.now }
    requires all { AnswersAll desk.now.job.calls (plain desk.now.events) }
    requires history { history.now.items ≡ plain desk.now.events }
    ensures { IfOk result (λ report. report ≡ heard_report_in desk.now.job (plain desk.now.events)) }
{
    report_heard(alloc, desk.job(), history)
}

// How many calls were replayed.
fn call_count(desk: &RemoteDesk) -> u64
    ensures { result ≡ length desk.now.job.calls }
{
    desk.job().calls.len() as u64
}

// What is written of it.
fn sent_files(
    alloc: Global,
    out: &Txt,
    desk: &RemoteDesk,
    history: &History,
    report: &Report,
) -> Result<List<Write>, Memory>
    requires out { length out.now ≤ 900 }
    requires kept { IsKept desk.now }
    requires history { history.now.items ≡ plain desk.now.events }
    requires report { report.now ≡ heard_report_in desk.now.job (plain desk.now.events) }
    ensures { IfOk result (λ writes. writes ≡ sent_files out.now desk.now.job desk.now.events) }
{
    let job = desk.job();
    let journal = journal_text(alloc, job.mode, history)?;
    let text = report_text(alloc, report)?;
    let table = report_csv(alloc, job, history, report)?;
    let maps = desk.map().maps_csv()?;
    let mut writes = List::new(alloc);
    writes.push(write_in(alloc, out, "/journal.txt", journal)?)?;
    writes.push(write_in(alloc, out, "/report.txt", text)?)?;
    writes.push(write_in(alloc, out, "/report.csv", table)?)?;
    writes.push(write_in(alloc, out, "/maps.csv", maps)?)?;
    Ok(writes)
}
