//! What a command has to do, by its words and the files.

ghost use Rattle.std.specs.Option.{unwrap_or};
ghost use Rattle.std.specs.Prelude.{◌≡◌, ◌≤◌, IfOk, IfErr, length, max, min};
ghost use Rattle.desk_files.specs.Outside.{Told};
ghost use Rattle.replay_job.specs.Job.{AreKnownOf, HasMoments, seen};
ghost use Rattle.replay_job.specs.Replays.{IsSoundJob};
ghost use Rattle.desk_words.specs.declared.words.Command.TheVariants.{Run as TheRun, Prepare as ThePrepare, Serve as TheServe, Register as TheRegister};
ghost use Rattle.desk_words.specs.Limits.{lane_limit};
ghost use Rattle.desk_words.specs.Within.{HasWays, IsLaneCount, IsWithinLimits};
ghost use Rattle.replay_cli.specs.Decision.{Decides, IsTaskOf, MayBeRefused, MayRunOn, PrepareIn, RegisterIn, RunIn, ServeIn, run_job, run_task};
ghost use Rattle.replay_cli.specs.Inside.Work.{IsWork, legal_of, task_of};
ghost use Rattle.captured_calls.specs.Verdict.{IsLegal};
ghost use Rattle.replay_cli.specs.Inside.Steps.{MayFail, Step, seen_as};

use crate::capture::{Legal, read_capture, test};
use crate::failure::Failure;
use crate::file_names::name_in;
use crate::reading::{parse_report, read_file, read_remap, read_start_file, read_target};
use crate::showing::{decide_page, decide_show};
use desk_files::{FILE_LIMIT, Files};
use desk_schema::Start;
use desk_values::Txt;
use desk_words::{Command, LANE_LIMIT, Ways};
use object_depends::FactList;
use register_work::Errand;
use remap_ids::Remap;
use replay_job::Job;
use replay_page::Page;
use replay_show::Shown;
use std::alloc::Global;

/// What a command has to do.
#[derive(Drop)]
pub enum Work {
    /// Replay the job by so many lanes, and write the replay into the folder.
    Replaying(Txt, Job, u32),
    /// Replay the job by so many lanes against the server at this port, and write the replay into the folder.
    Sending(Txt, Job, u32, u16),
    /// Write into the folder which calls wait for which.
    Telling(Txt, FactList),
    /// Serve at most so many connections at this port, and write into the folder what they say of the start.
    Serving(Txt, Start, u32, u16),
    /// Write a capture of so many calls into the folder.
    Making(u32, Txt),
    /// Make that capture and replay it.
    Trying(u32),
    /// Do this errand to the keeper.
    Keeping(Errand),
    /// Write a page of so many calls, of which so many differ.
    Paging(Page, u64, u64),
    /// Print the calls that differ, or the one with this stamp.
    Showing(Shown, Option<u64>),
}

/// What the command has to do.
pub fn decide<F: Files>(alloc: Global, command: Command, files: &mut F) -> Result<Work, Failure>
    requires { IsWithinLimits command }
    ensures work { IfOk result IsWork }
    ensures task { IfOk result (λ work. IsTaskOf command (task_of work)) }
    ensures refused { IfErr result (MayFail (MayBeRefused command)) }
    ensures step { Step (λ map. Decides command map)
        (F.account files.old).content (F.account files.new).content
        (F.account files.old).faults (F.account files.new).faults (seen_as task_of result) }
{
    match command {
        Command::Run(capture, out, ways) => decide_run(alloc, &capture, out, ways, files),
        Command::Prepare(capture, out) => decide_prepare(alloc, &capture, out, files),
        Command::Serve(capture, start, connections, port) => {
            decide_serve(alloc, capture, &start, connections, port, files)
        }
        Command::Generate(calls, out) => Ok(Work::Making(calls, out)),
        Command::Trial(calls) => Ok(Work::Trying(calls)),
        Command::Register(out, run) => decide_register(alloc, &out, run, files),
        Command::Runs => Ok(Work::Keeping(Errand::Runs)),
        Command::Accept(run, stamp, class) => {
            Ok(Work::Keeping(Errand::Accept(run, stamp, class)))
        }
        Command::Compare(base, other) => Ok(Work::Keeping(Errand::Compare(base, other))),
        Command::Page(capture, out) => decide_page(alloc, capture, out, files),
        Command::Show(capture, out, stamp) => decide_show(alloc, &capture, &out, stamp, files),
    }
}

fn decide_run<F: Files>(
    alloc: Global,
    capture: &Txt,
    out: Txt,
    ways: Ways,
    files: &mut F,
) -> Result<Work, Failure>
    requires capture { length capture.now ≤ 900 }
    requires out { length out ≤ 900 }
    requires ways { HasWays ways }
    ensures work { IfOk result IsWork }
    ensures task { IfOk result (λ work. IsTaskOf (TheRun capture.now out ways) (task_of work)) }
    ensures refused { IfErr result (MayFail (MayBeRefused (TheRun capture.now out ways))) }
    ensures step { Step (λ map. RunIn map capture.now out ways)
        (F.account files.old).content (F.account files.new).content
        (F.account files.old).faults (F.account files.new).faults (seen_as task_of result) }
{
    let read = read_capture(alloc, capture, files)?;
    let lanes = lanes_of(&ways, read.sessions.len());
    let remap = read_remap(alloc, &ways.remap, files)?;
    let target = read_target(&read.start, &ways.change, files)?;
    let legal = test(alloc, read)?;
    let job = job_of(legal, target, remap, &ways);
    Ok(run_of(out, job, lanes, ways.target))
}

// The replay of a job on the desk's own server, or against the one at a port.
fn run_of(out: Txt, job: Job, lanes: u32, target: Option<u16>) -> Work
    requires out { length out ≤ 900 }
    requires job { IsSoundJob (seen job) }
    requires lanes { IsLaneCount lanes }
    ensures task { task_of result ≡ run_task out (seen job) target }
    ensures work { IsWork result }
{
    match target {
        Some(port) => Work::Sending(out, job, lanes, port),
        None => Work::Replaying(out, job, lanes),
    }
}

/// How many lanes there are: as many as sessions where that is not said, and at least one.
fn lanes_of(ways: &Ways, sessions: usize) -> u32
    requires { HasWays ways.now }
    ensures limits { IsLaneCount result }
    ensures value { result ≡ unwrap_or ways.now.lanes (max 1 (min sessions lane_limit)) }
{
    match ways.lanes {
        Some(lanes) => lanes,
        None => sessions.clamp(1, LANE_LIMIT as usize) as u32,
    }
}

/// The job of a legal capture that is replayed so, on this target.
fn job_of(legal: Legal, target: Start, remap: Remap, ways: &Ways) -> Job
    requires legal { IsLegal legal.start legal.calls.items }
    requires known { AreKnownOf legal.calls.items legal.facts }
    requires moments { HasMoments legal.calls.items }
    requires ways { HasWays ways.now }
    requires target { MayRunOn ways.now.change legal.start target }
    ensures job { seen result ≡ run_job (legal_of legal) target remap ways.now }
    ensures sound { IsSoundJob (seen result) }
{
    legal.start.know_rules();
    target.know_rules();
    Job {
        start: legal.start,
        target,
        calls: legal.calls,
        facts: legal.facts,
        remap,
        mode: ways.mode,
        think: ways.think,
        connect: ways.connect,
    }
}

fn decide_prepare<F: Files>(
    alloc: Global,
    capture: &Txt,
    out: Txt,
    files: &mut F,
) -> Result<Work, Failure>
    requires capture { length capture.now ≤ 900 }
    requires out { length out ≤ 900 }
    ensures work { IfOk result IsWork }
    ensures task { IfOk result (λ work. IsTaskOf (ThePrepare capture.now out) (task_of work)) }
    ensures refused { IfErr result (MayFail (MayBeRefused (ThePrepare capture.now out))) }
    ensures step { Step (λ map. PrepareIn map capture.now out)
        (F.account files.old).content (F.account files.new).content
        (F.account files.old).faults (F.account files.new).faults (seen_as task_of result) }
{
    let read = read_capture(alloc, capture, files)?;
    let legal = test(alloc, read)?;
    Ok(Work::Telling(out, legal.facts))
}

fn decide_serve<F: Files>(
    alloc: Global,
    capture: Txt,
    start: &Txt,
    connections: u32,
    port: u16,
    files: &mut F,
) -> Result<Work, Failure>
    requires capture { length capture ≤ 900 }
    requires connections { connections ≤ 64 }
    ensures work { IfOk result IsWork }
    ensures task { IfOk result (λ work. IsTaskOf (TheServe capture start.now connections port) (task_of work)) }
    ensures refused { IfErr result (MayFail (MayBeRefused (TheServe capture start.now connections port))) }
    ensures step { Step (λ map. ServeIn map capture start.now connections port)
        (F.account files.old).content (F.account files.new).content
        (F.account files.old).faults (F.account files.new).faults (seen_as task_of result) }
{
    let file = read_start_file(alloc, start, files)?;
    Ok(Work::Serving(capture, file.start, connections, port))
}

fn decide_register<F: Files>(
    alloc: Global,
    out: &Txt,
    run: Txt,
    files: &mut F,
) -> Result<Work, Failure>
    requires { length out.now ≤ 900 }
    ensures work { IfOk result IsWork }
    ensures task { IfOk result (λ work. IsTaskOf (TheRegister out.now run) (task_of work)) }
    ensures refused { IfErr result (MayFail (MayBeRefused (TheRegister out.now run))) }
    ensures step { Step (λ map. RegisterIn map out.now run)
        (F.account files.old).content (F.account files.new).content
        (F.account files.old).faults (F.account files.new).faults (seen_as task_of result) }
{
    let name = name_in(alloc, out, "/report.txt")?;
    let bytes = read_file(&name, FILE_LIMIT, files)?;
    let report = parse_report(alloc, &name, &bytes)?;
    Ok(Work::Keeping(Errand::Register(run, bytes, report)))
}
