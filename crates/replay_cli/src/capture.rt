//! A capture in a folder: its files, read and tested.

ghost use Rattle.std.specs.Prelude.{◌≡◌, ◌≤◌, length, IfErr, IfOk};
ghost use Rattle.std.specs.List.{AllByRecursion};
ghost use Rattle.replay_page.specs.Captured.{AreSpelled};
ghost use Rattle.desk_files.specs.Outside.{Told};
ghost use Rattle.replay_job.specs.Job.{AreKnownOf, HasMoments};
ghost use Rattle.replay_cli.specs.Decision.{MayRefuseCapture, OpenedIn, ReadIn, SessionOf, legal_from};
ghost use Rattle.replay_cli.specs.Inside.Steps.{Answered, FaultFree, MayFail, Step, seen_as};
ghost use Rattle.replay_cli.specs.Inside.Work.{legal_of, read_of};
ghost use Rattle.captured_calls.specs.Verdict.{IsLegal, verdict};
ghost use Rattle.replay_cli.specs.Steps.{Is, Reading};
ghost use Rattle.replay_cli.specs.FileNames.{session_names};
ghost use Rattle.captured_calls.specs.Sessions.{AreSessionsFrom};
ghost use Rattle.prepare_plan.specs.Lists.{lists_of};
ghost use Rattle.desk_values.specs.Limits.{session_limit};

use crate::failure::{Failure, Refusal};
use crate::file_names::{name_in, session_names};
use crate::reading::{parse_start, read_file, read_sessions};
use capture_format::StartFile;
use desk_files::Files;
use desk_schema::Start;
use desk_values::{CallList, SessionLists, Txt};
use object_depends::FactList;
use prepare_plan::{Refusal as Illegal, prepare_owned};
use std::alloc::Global;

/// The greatest number of bytes of the files of a capture together.
const ROOM: usize = 268_435_456;

/// What a start file says, and how many bytes the other files of the capture may have.
#[derive(Drop)]
pub struct Opened {
    file: StartFile,
    left: usize,
}

/// A capture that is legal: its start, and its calls by stamp with their facts.
#[derive(Drop)]
pub struct Legal {
    /// The start.
    pub start: Start,
    /// The calls.
    pub calls: CallList,
    /// Their facts.
    pub facts: FactList,
}

/// The files of a capture: its start, and the calls of its sessions.
#[derive(Drop)]
pub struct Read {
    /// The start.
    pub start: Start,
    /// The calls of each session.
    pub sessions: SessionLists,
}

/// Reads the capture in a folder: its start file, then the files of as many sessions as that says, of its version.
pub fn read_capture<F: Files>(alloc: Global, capture: &Txt, files: &mut F) -> Result<Read, Failure>
    requires { length capture.now ≤ 900 }
    ensures step { Step (λ map. ReadIn map capture.now)
        (F.account files.old).content (F.account files.new).content
        (F.account files.old).faults (F.account files.new).faults (seen_as read_of result) }
    ensures count { IfOk result (λ read. length read.sessions ≤ 64) }
    ensures lists { IfOk result (λ read. AreSessionsFrom 0 (lists_of read.sessions)) }
    ensures spelled { IfOk result (λ read. AllByRecursion (AreSpelled read.start.schema.version) (lists_of read.sessions)) }
    ensures kind { IfErr result (MayFail (MayRefuseCapture capture.now)) }
{
    let opened = open(alloc, capture, files)?;
    let sessions = load_sessions(alloc, capture, &opened, files)?;
    Ok(Read {
        start: opened.file.start,
        sessions,
    })
}

/// The start file of a capture.
fn open<F: Files>(alloc: Global, capture: &Txt, files: &mut F) -> Result<Opened, Failure>
    requires { length capture.now ≤ 900 }
    ensures step { Step (λ map. OpenedIn map capture.now)
        (F.account files.old).content (F.account files.new).content
        (F.account files.old).faults (F.account files.new).faults result }
    ensures sessions { IfOk result (λ opened. opened.file.sessions ≤ session_limit) }
    ensures kind { IfErr result (MayFail (MayRefuseCapture capture.now)) }
{
    let name = name_in(alloc, capture, "/start.cap")?;
    let bytes = read_file(&name, ROOM, files)?;
    let file = parse_start(alloc, &name, &bytes)?;
    Ok(Opened {
        file,
        left: ROOM - bytes.len(),
    })
}

/// The files of its sessions.
fn load_sessions<F: Files>(
    alloc: Global,
    capture: &Txt,
    opened: &Opened,
    files: &mut F,
) -> Result<SessionLists, Failure>
    requires capture { length capture.now ≤ 900 }
    requires sessions { opened.now.file.sessions ≤ session_limit }
    ensures step { Step
        (λ map. Reading (SessionOf opened.now.file.start.schema.version) map opened.now.left 0
        (session_names capture.now opened.now.file.sessions))
        (F.account files.old).content (F.account files.new).content
        (F.account files.old).faults (F.account files.new).faults (seen_as lists_of result) }
    ensures count { IfOk result (λ sessions. length sessions ≤ 64) }
    ensures lists { IfOk result (λ sessions. AreSessionsFrom 0 (lists_of sessions)) }
    ensures spelled { IfOk result (λ sessions. AllByRecursion (AreSpelled opened.now.file.start.schema.version) (lists_of sessions)) }
    ensures kind { IfErr result (MayFail (MayRefuseCapture capture.now)) }
{
    let names = session_names(alloc, capture, opened.file.sessions)?;
    let version = opened.file.start.schema().version();
    read_sessions(alloc, version, names.as_slice(), opened.left, files)
}

/// Tests whether the start and the calls of the sessions are a legal capture.
pub fn test(alloc: Global, read: Read) -> Result<Legal, Failure>
    requires count { length read.sessions ≤ 64 }
    requires lists { AreSessionsFrom 0 (lists_of read.sessions) }
    ensures says { Answered (Is (legal_from read.start (verdict read.start (lists_of read.sessions)))) (seen_as legal_of result) }
    ensures free { FaultFree result }
    ensures legal { IfOk result (λ legal. IsLegal legal.start legal.calls.items) }
    ensures known { IfOk result (λ legal. AreKnownOf legal.calls.items legal.facts) }
    ensures moments { IfOk result (λ legal. HasMoments legal.calls.items) }
    ensures facts { IfOk result (λ legal. length legal.facts ≤ 100000) }
{
    let sessions = read.sessions;
    match prepare_owned(alloc, &read.start, sessions) {
        Ok(prepared) => Ok(Legal {
            start: read.start,
            calls: prepared.calls,
            facts: prepared.facts,
        }),
        Err(Illegal::Memory) => Err(Failure::OutOfMemory),
        Err(cause) => Err(Failure::Refused(Refusal::NotLegal(cause))),
    }
}
