//! What a command's work comes to: its files and its line.

ghost use Rattle.std.specs.Prelude.{◌≡◌, ◌++◌, ◌∷◌, [], ◌≤◌, List as Sequence, length, IfErr, IfOk, OnOk};
ghost use Rattle.desk_values.specs.declared.value.Image.{Image};
ghost use Rattle.desk_values.specs.declared.capture.Event.{Event};
ghost use Rattle.std.specs.List.{AllByRecursion};
ghost use Rattle.desk_schema.specs.Schema.{IsVersion};
ghost use Rattle.capture_format.specs.SessionFile.{MayTellAll};
ghost use Rattle.captured_calls.specs.Sessions.{AreSessionsFrom};
ghost use Rattle.prepare_plan.specs.Lists.{lists_of};
ghost use Rattle.desk_words.specs.Within.{IsCallCount, IsLaneCount};
ghost use Rattle.replay_cli.specs.Decision.{ToMake, ToReplay, ToTell, ToTry};
ghost use Rattle.replay_cli.specs.Done.{HandsBack, IsDone, IsDoneAlone, IsQuiet, IsTried, IsWritten, capture_files, history_files, made_calls, made_lists, made_start, session_files};
ghost use Rattle.replay_cli.specs.Hosting.{dialling, hosting};
ghost use Rattle.replay_cli.specs.Inside.Serving.{AsksFor, DialFaults, PlanFails, WorkFaults};
ghost use Rattle.replay_cli.specs.Inside.Work.{IsWork, task_of};
ghost use Rattle.replay_cli.specs.Lines.{counted, counted_line, done_status, generated_line, replayed_line, trial_line};
ghost use Rattle.replay_history.specs.Capture.{commits_in};
ghost use Rattle.replay_job.specs.Job.{HasMoments, seen};
ghost use Rattle.replay_job.specs.Replays.{IsSoundJob, IsToldReplay};
ghost use Rattle.replay_report.specs.Report.{report_in};
ghost use Rattle.captured_calls.specs.Verdict.{IsLegal};
ghost use Rattle.capture_recorder.specs.Limits.{generated_sessions};

use crate::errands::keeping;
use crate::failure::Failure;
use crate::file_names::{session_name, write_in};
use crate::pages::{paging, showing};
use crate::replay::trial_of;
use crate::sending::sending;
use crate::serving::serving;
use crate::told::{append_told, told_on};
use crate::work::Work;
use capture_format::{write_session, write_start};
use capture_recorder::{GENERATED_SESSIONS, Recorder, generate, sessions_of};
use desk_files::{Door, Host, Write};
use desk_schema::Start;
use desk_values::fields::append_u64;
use desk_values::{Bytes, CallList, Captured, List, Memory, SessionLists, Txt};
use object_depends::{FactList, requires_csv};
use remote_link::Dial;
use replay_core::Desk;
use replay_history::{Report, commits};
use replay_job::Job;
use replay_report::{journal_text, report_csv, report_of, report_text, tables_text};
use replay_worker::run_all;
use run_register::Keeper;
use std::alloc::Global;
use std::sync::Wait;
use std::thread::Threads;
use std::time::Clock;

/// What a command's work comes to.
#[derive(Drop)]
pub struct Plan {
    /// What is printed: a line, or several of the register of runs.
    pub line: Bytes,
    /// Whether a replay found calls that differ, or a comparison something new or changed.
    pub differs: bool,
    /// The files that are written, one after the other.
    pub writes: List<Write>,
}

impl Plan {
    /// The status that the program ends with.
    pub fn status(&self) -> u8
        ensures { result ≡ done_status self.now.differs }
    {
        if self.differs { 1 } else { 0 }
    }
}

/// What the work comes to.
pub fn plan_of<R: Clock + Wait + Threads + Sync, H: Host, D: Door, K: Keeper, L: Dial>(
    rt: &R,
    alloc: Global,
    work: Work,
    host: &mut H,
    door: &D,
    keeper: &mut K,
    dial: &mut L,
) -> Result<Plan, Failure>
    requires { IsWork work }
    ensures done { IfOk result (λ plan. IsDone (task_of work) plan
        (hosting (H.account host.old) (H.account host.new) (K.account keeper.old) (K.account keeper.new) (L.account dial.old) (L.account dial.new))) }
    ensures fails { IfErr result (PlanFails (task_of work)
        (hosting (H.account host.old) (H.account host.new) (K.account keeper.old) (K.account keeper.new) (L.account dial.old) (L.account dial.new))) }
    ensures faults { WorkFaults result
        (hosting (H.account host.old) (H.account host.new) (K.account keeper.old) (K.account keeper.new) (L.account dial.old) (L.account dial.new)) }
    ensures dial { DialFaults result (dialling (L.account dial.old) (L.account dial.new)) }
    ensures handed { HandsBack (task_of work)
        (hosting (H.account host.old) (H.account host.new) (K.account keeper.old) (K.account keeper.new) (L.account dial.old) (L.account dial.new))
        (K.account keeper.old).closes (K.account keeper.new).closes }
    ensures asks { AsksFor (task_of work)
        (hosting (H.account host.old) (H.account host.new) (K.account keeper.old) (K.account keeper.new) (L.account dial.old) (L.account dial.new)) }
{
    match work {
        Work::Replaying(out, job, lanes) => Ok(replaying(rt, alloc, &out, job, door, lanes)?),
        Work::Sending(out, job, lanes, port) => {
            sending(rt, alloc, &out, job, lanes, port, door, dial)
        }
        Work::Telling(out, facts) => Ok(telling(alloc, &out, &facts)?),
        Work::Serving(out, start, most, port) => {
            serving(rt, alloc, &out, &start, most, port, host, door)
        }
        Work::Making(calls, out) => Ok(making(alloc, calls, &out)?),
        Work::Trying(calls) => Ok(trying(rt, alloc, calls, door)?),
        Work::Keeping(errand) => keeping(alloc, &errand, keeper),
        Work::Paging(page, calls, divergent) => Ok(paging(alloc, page, calls, divergent)?),
        Work::Showing(shown, stamp) => Ok(showing(alloc, &shown, stamp)?),
    }
}

/// A replay, with its report.
fn replaying<R: Clock + Wait + Threads + Sync, D: Door>(
    rt: &R,
    alloc: Global,
    out: &Txt,
    job: Job,
    door: &D,
    lanes: u32,
) -> Result<Plan, Memory>
    requires out { length out.now ≤ 900 }
    requires job { IsSoundJob (seen job) }
    requires lanes { IsLaneCount lanes }
    ensures { IfOk result (λ plan. IsDoneAlone (ToReplay out.now (seen job)) plan) }
{
    let desk = run_all(rt, alloc, job, door, lanes)?;
    reported(alloc, out, &desk)
}

/// What is told of a replay.
fn reported(alloc: Global, out: &Txt, desk: &Desk) -> Result<Plan, Memory>
    requires out { length out.now ≤ 900 }
    requires replay { IsToldReplay desk.now.job desk.now.history desk.now.stage }
    ensures { IfOk result (λ plan. IsDoneAlone (ToReplay out.now desk.now.job) plan) }
{
    let report = report_on(alloc, desk)?;
    let divergent = report.lines.len() as u64;
    let line = replayed_line(alloc, call_count(desk), divergent)?;
    let writes = replayed_files(alloc, out, desk, &report)?;
    Ok(Plan {
        line,
        differs: divergent > 0,
        writes,
    })
}

/// The report on a replay.
fn report_on(alloc: Global, desk: &Desk) -> Result<Report, Memory>
    requires replay { IsToldReplay desk.now.job desk.now.history desk.now.stage }
    ensures { IfOk result (λ report. report ≡ report_in desk.now.job desk.now.history) }
{
    report_of(alloc, desk.job(), desk.history())
}

/// How many calls were replayed.
fn call_count(desk: &Desk) -> u64
    ensures { result ≡ length desk.now.job.calls }
{
    desk.job().calls.len() as u64
}

/// What is written of a replay.
fn replayed_files(
    alloc: Global,
    out: &Txt,
    desk: &Desk,
    report: &Report,
) -> Result<List<Write>, Memory>
    requires out { length out.now ≤ 900 }
    requires report { report.now ≡ report_in desk.now.job desk.now.history }
    requires replay { IsToldReplay desk.now.job desk.now.history desk.now.stage }
    ensures { IfOk result (λ writes. IsWritten out.now desk.now.job desk.now.history desk.now.stage writes) }
{
    let told = told_on(alloc, desk, report)?;
    let mut writes = history_files(alloc, out, desk, report)?;
    append_told(alloc, out, &told, &mut writes)?;
    Ok(writes)
}

/// What is written of its history, of the report on it and of what it ends in.
fn history_files(
    alloc: Global,
    out: &Txt,
    desk: &Desk,
    report: &Report,
) -> Result<List<Write>, Memory>
    requires out { length out.now ≤ 900 }
    requires report { report.now ≡ report_in desk.now.job desk.now.history }
    requires replay { IsToldReplay desk.now.job desk.now.history desk.now.stage }
    ensures { IfOk result (λ writes. writes ≡ history_files out.now desk.now.job desk.now.history desk.now.stage) }
{
    let (job, history) = (desk.job(), desk.history());
    let journal = journal_text(alloc, job.mode, history)?;
    let text = report_text(alloc, report)?;
    let table = report_csv(alloc, job, history, report)?;
    let tables = tables_text(alloc, &desk.tables()?)?;
    let maps = desk.map().maps_csv()?;
    let mut writes = List::new(alloc);
    writes.push(write_in(alloc, out, "/journal.txt", journal)?)?;
    writes.push(write_in(alloc, out, "/report.txt", text)?)?;
    writes.push(write_in(alloc, out, "/report.csv", table)?)?;
    writes.push(write_in(alloc, out, "/tables.txt", tables)?)?;
    writes.push(write_in(alloc, out, "/maps.csv", maps)?)?;
    Ok(writes)
}

/// Which calls wait for which.
fn telling(alloc: Global, out: &Txt, facts: &FactList) -> Result<Plan, Memory>
    requires out { length out.now ≤ 900 }
    requires facts { length facts.now ≤ 100000 }
    ensures { IfOk result (λ plan. IsDoneAlone (ToTell out.now facts.now) plan) }
{
    let text = requires_csv(alloc, facts)?;
    let mut writes = List::new(alloc);
    writes.push(write_in(alloc, out, "/requires.csv", text)?)?;
    Ok(Plan {
        line: counted_line(alloc, "prepared ", facts.len() as u64, " calls\n")?,
        differs: false,
        writes,
    })
}

/// The files of the generated capture: those of its sessions, and then its start.
fn making(alloc: Global, calls: u32, out: &Txt) -> Result<Plan, Memory>
    requires calls { IsCallCount calls }
    requires out { length out.now ≤ 900 }
    ensures { IfOk result (λ plan. IsDoneAlone (ToMake calls out.now) plan) }
{
    let recorder = make(alloc, calls)?;
    let lists = lists_of(alloc, calls, &recorder)?;
    written(alloc, calls, out, recorder.start(), lists.as_slice())
}

/// The files of the generated capture, and its line.
fn written(
    alloc: Global,
    n: u32,
    out: &Txt,
    start: &Start,
    lists: &[CallList],
) -> Result<Plan, Memory>
    requires out { length out.now ≤ 900 }
    requires count { length lists.now ≤ 64 }
    requires lists { AreSessionsFrom 0 (lists_of lists.now) }
    requires told { AllByRecursion (MayTellAll start.now.schema.version) (lists_of lists.now) }
    ensures line { IfOk result (λ plan. plan.line ≡ generated_line n) }
    ensures quiet { IfOk result IsQuiet }
    ensures writes { IfOk result (λ plan. plan.writes ≡ capture_files out.now start.now (lists_of lists.now) generated_sessions) }
{
    let writes = capture_writes(alloc, out, start, lists, GENERATED_SESSIONS)?;
    Ok(Plan {
        line: counted_line(alloc, "generated ", u64::from(n), " calls\n")?,
        differs: false,
        writes,
    })
}

/// The files of a capture: those of its sessions, and then its start.
pub(crate) fn capture_writes(
    alloc: Global,
    out: &Txt,
    start: &Start,
    lists: &[CallList],
    sessions: u32,
) -> Result<List<Write>, Memory>
    requires out { length out.now ≤ 900 }
    requires count { length lists.now ≤ 64 }
    requires sessions { sessions ≤ 64 }
    requires lists { AreSessionsFrom 0 (lists_of lists.now) }
    requires told { AllByRecursion (MayTellAll start.now.schema.version) (lists_of lists.now) }
    ensures { IfOk result (λ writes. writes ≡ capture_files out.now start.now (lists_of lists.now) sessions) }
{
    let mut writes = session_writes(alloc, out, start.schema().version(), lists)?;
    let start = write_start(alloc, start, sessions)?;
    writes.push(write_in(alloc, out, "/start.cap", start)?)?;
    Ok(writes)
}

/// The generated capture of so many calls.
fn make(alloc: Global, calls: u32) -> Result<Recorder, Memory>
    requires { IsCallCount calls }
    ensures start { IfOk result (λ recorder. recorder.start ≡ made_start calls) }
    ensures calls { IfOk result (λ recorder. recorder.calls ≡ made_calls calls) }
{
    generate(alloc, calls)
}

/// The calls of each session of the generated capture.
fn lists_of(alloc: Global, calls: u32, recorder: &Recorder) -> Result<SessionLists, Memory>
    requires { recorder.now.calls ≡ made_calls calls }
    ensures lists { IfOk result (λ lists. lists_of lists ≡ made_lists calls) }
    ensures files { IfOk result (λ lists. AreSessionsFrom 0 (lists_of lists)) }
    ensures told { IfOk result (λ lists. AllByRecursion (MayTellAll recorder.now.start.schema.version) (lists_of lists)) }
    ensures count { IfOk result (λ lists. length lists ≤ 64) }
{
    sessions_of(alloc, recorder.calls(), GENERATED_SESSIONS)
}

/// What is written of the files of sessions, of this version.
fn session_writes(
    alloc: Global,
    out: &Txt,
    version: u32,
    lists: &[CallList],
) -> Result<List<Write>, Memory>
    requires out { length out.now ≤ 900 }
    requires count { length lists.now ≤ 64 }
    requires lists { AreSessionsFrom 0 (lists_of lists.now) }
    requires version { IsVersion version }
    requires told { AllByRecursion (MayTellAll version) (lists_of lists.now) }
    ensures { IfOk result (λ writes. writes ≡ session_files out.now version 0 (lists_of lists.now)) }
{
    let mut writes = List::new(alloc);
    let mut session: u32 = 0;
    for calls in lists {
        let bytes = write_session(alloc, calls, session, version)?;
        let name = session_name(alloc, out, session)?;
        writes.push(Write { name, bytes })?;
        session += 1;
    }
    Ok(writes)
}

/// A replay of the generated capture without pauses.
fn trying<R: Clock + Wait + Threads + Sync, D: Door>(
    rt: &R,
    alloc: Global,
    calls: u32,
    door: &D,
) -> Result<Plan, Memory>
    requires { IsCallCount calls }
    ensures { IfOk result (λ plan. IsDoneAlone (ToTry calls) plan) }
{
    let recorder = make(alloc, calls)?;
    tried(rt, alloc, calls, recorder.start(), recorder.calls(), door)
}

/// A replay of these calls without pauses.
fn tried<R: Clock + Wait + Threads + Sync, D: Door>(
    rt: &R,
    alloc: Global,
    n: u32,
    start: &Start,
    calls: &CallList,
    door: &D,
) -> Result<Plan, Memory>
    requires legal { IsLegal start.now calls.now.items }
    requires moments { HasMoments calls.now.items }
    ensures line { IfOk result (λ plan. plan.line ≡ trial_line n (length calls.now.items) (commits_in calls.now.items)) }
    ensures replay { IfOk result (λ plan. IsTried start.now calls.now.items) }
    ensures quiet { IfOk result IsQuiet }
    ensures writes { IfOk result (λ plan. plan.writes ≡ []) }
{
    let job = trial_of(alloc, start, calls)?;
    run_all(rt, alloc, job, door, GENERATED_SESSIONS)?;
    Ok(Plan {
        line: trial_line(alloc, n, calls.len() as u64, commits_of(calls.as_slice()))?,
        differs: false,
        writes: List::new(alloc),
    })
}

/// How many of the calls are numbered commits.
fn commits_of(calls: &[Captured]) -> u64
    ensures { result ≡ commits_in calls.now }
{
    let mut count = 0;
    for call in calls {
        if commits(&call.reply.outcome) {
            count += 1;
        }
    }
    count
}

/// How many calls were replayed, and how many of them differ.
pub(crate) fn replayed_line(alloc: Global, calls: u64, divergent: u64) -> Result<Bytes, Memory>
    ensures { IfOk result (λ line. line ≡ replayed_line calls divergent) }
{
    let mut line = List::new(alloc);
    line.append(b"replayed ")?;
    append_counted(calls, " calls, ", &mut line)?;
    append_counted(divergent, " divergent\n", &mut line)?;
    Ok(line)
}

/// A word, how many calls, and what is said of them.
fn counted_line(alloc: Global, word: &str, calls: u64, rest: &str) -> Result<Bytes, Memory>
    ensures { IfOk result (λ line. line ≡ counted_line word.now calls rest.now) }
{
    let mut line = List::new(alloc);
    line.append(word.as_bytes())?;
    append_counted(calls, rest, &mut line)?;
    Ok(line)
}

fn trial_line(alloc: Global, n: u32, calls: u64, commits: u64) -> Result<Bytes, Memory>
    ensures { IfOk result (λ line. line ≡ trial_line n calls commits) }
{
    let mut line = List::new(alloc);
    line.append(b"trial ")?;
    append_counted(u64::from(n), ": ", &mut line)?;
    append_counted(calls, " calls, 0 divergent, ", &mut line)?;
    append_counted(commits, " commits\n", &mut line)?;
    Ok(line)
}

/// Appends how many, and of what.
pub(crate) fn append_counted(n: u64, words: &str, to: &mut Bytes) -> Result<(), Memory>
    ensures { OnOk result (to.new ≡ to.old ++ counted n words.now) }
{
    append_u64(n, to)?;
    to.append(words.as_bytes())
}
