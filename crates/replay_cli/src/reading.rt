//! Reading the files of a command, one after the other.

ghost use Rattle.std.specs.Prelude.{◌≡◌, ◌≤◌, length, IfErr, IfOk, Ok};
ghost use Rattle.std.specs.List.{AllByRecursion};
ghost use Rattle.desk_files.specs.Outside.{Told};
ghost use Rattle.desk_schema.specs.Schema.{IsVersion};
ghost use Rattle.captured_calls.specs.Sessions.{AreSessionsFrom};
ghost use Rattle.prepare_plan.specs.Lists.{lists_of};
ghost use Rattle.remap_ids.specs.Services.{services_of};
ghost use Rattle.replay_cli.specs.Decision.{IsSpelled, MayRefuseChange, MayRefuseRemap, MayRefuseStart, MayRunOn, MaySend, RemapIn, ReportOf, SessionOf, StartIn, StartOf, TargetIn, TargetOf, remap_of};
ghost use Rattle.replay_page.specs.Captured.{AreSpelled};
ghost use Rattle.replay_page.specs.Quiet.{AreQuiet};
ghost use Rattle.replay_cli.specs.Inside.Steps.{Answered, FaultFree, IsUntaken, MayFail, RefusesOne, Step, seen_as};
ghost use Rattle.replay_cli.specs.Steps.{Is, Reading, file_in};

use crate::failure::{Failure, Refusal};
use capture_format::{FormErr, StartFile, read_session, read_start};
use desk_files::{FILE_LIMIT, FileErr, Files};
use desk_schema::{ChangeErr, Start};
use desk_values::{Bytes, CallList, Copied, List, SessionLists, Txt};
use remap_ids::{Remap, RemapErr};
use replay_history::Report;
use report_format::read_report;
use std::alloc::Global;

/// The bytes of a file, of which at most `room` are taken.
pub fn read_file<F: Files>(name: &Txt, room: usize, files: &mut F) -> Result<Bytes, Failure>
    ensures step { Step (λ map. Is (file_in map room name.now))
        (F.account files.old).content (F.account files.new).content
        (F.account files.old).faults (F.account files.new).faults result }
    ensures room { IfOk result (λ bytes. length bytes ≤ room) }
    ensures kind { IfErr result (MayFail (IsUntaken name.now)) }
{
    match files.read(name) {
        Ok(bytes) if bytes.len() <= room => Ok(bytes),
        Ok(_) => Err(Failure::Refused(Refusal::TooLong(name.copy()?))),
        Err(FileErr::Missing) => Err(Failure::Refused(Refusal::Missing(name.copy()?))),
        Err(FileErr::TooLong) => Err(Failure::Refused(Refusal::TooLong(name.copy()?))),
        Err(FileErr::Failed) => Err(Failure::DeviceFault),
        Err(FileErr::Memory) => Err(Failure::OutOfMemory),
    }
}

/// What the bytes of the start file of this name say.
pub fn parse_start(alloc: Global, name: &Txt, bytes: &Bytes) -> Result<StartFile, Failure>
    ensures says { Answered (StartOf name.now bytes.now) result }
    ensures free { FaultFree result }
{
    match read_start(alloc, bytes.as_slice()) {
        Ok(file) => Ok(file),
        Err(FormErr::Bad { line }) => Err(Failure::Refused(Refusal::BadLine(name.copy()?, line))),
        Err(FormErr::Memory) => Err(Failure::OutOfMemory),
    }
}

/// What the start file of this name says.
pub fn read_start_file<F: Files>(
    alloc: Global,
    name: &Txt,
    files: &mut F,
) -> Result<StartFile, Failure>
    ensures step { Step (λ map. StartIn map name.now)
        (F.account files.old).content (F.account files.new).content
        (F.account files.old).faults (F.account files.new).faults result }
    ensures spelled { IfOk result (λ file. IsSpelled file.start) }
    ensures kind { IfErr result (MayFail (MayRefuseStart name.now)) }
{
    let bytes = read_file(name, FILE_LIMIT, files)?;
    parse_start(alloc, name, &bytes)
}

/// The report that the bytes of the file of this name are.
pub fn parse_report(alloc: Global, name: &Txt, bytes: &Bytes) -> Result<Report, Failure>
    ensures says { Answered (ReportOf name.now bytes.now) result }
    ensures quiet { IfOk result (λ said. AreQuiet bytes.now) }
    ensures free { FaultFree result }
{
    match read_report(alloc, bytes.as_slice()) {
        Ok(report) => Ok(report),
        Err(FormErr::Bad { line }) => Err(Failure::Refused(Refusal::BadReport(name.copy()?, line))),
        Err(FormErr::Memory) => Err(Failure::OutOfMemory),
    }
}

/// What the bytes of the file of this name and version say of a session.
pub fn parse_session(
    alloc: Global,
    version: u32,
    session: u32,
    name: &Txt,
    bytes: &Bytes,
) -> Result<CallList, Failure>
    requires { IsVersion version }
    ensures says { Answered (SessionOf version session name.now bytes.now) (seen_as (λ calls. calls.items) result) }
    ensures spelled { IfOk result (λ calls. AreSpelled version calls.items) }
    ensures free { FaultFree result }
{
    match read_session(alloc, bytes.as_slice(), session, version) {
        Ok(calls) => Ok(calls),
        Err(FormErr::Bad { line }) => Err(Failure::Refused(Refusal::BadLine(name.copy()?, line))),
        Err(FormErr::Memory) => Err(Failure::OutOfMemory),
    }
}

/// What the file of this name says that services are sent as; nothing where none is named.
pub fn read_remap<F: Files>(
    alloc: Global,
    name: &Option<Txt>,
    files: &mut F,
) -> Result<Remap, Failure>
    ensures step { Step (λ map. RemapIn map name.now)
        (F.account files.old).content (F.account files.new).content
        (F.account files.old).faults (F.account files.new).faults result }
    ensures may { IfOk result (MaySend name.now) }
    ensures kind { IfErr result (MayFail (MayRefuseRemap name.now)) }
{
    match name {
        Some(name) => {
            let bytes = read_file(name, FILE_LIMIT, files)?;
            parse_remap(alloc, &bytes)
        }
        None => Ok(Remap::none(alloc)),
    }
}

fn parse_remap(alloc: Global, bytes: &Bytes) -> Result<Remap, Failure>
    ensures says { Answered (Is (remap_of (services_of bytes.now))) result }
    ensures may { IfOk result (λ remap. services_of bytes.now ≡ Ok remap) }
    ensures free { FaultFree result }
{
    match Remap::read(alloc, bytes.as_slice()) {
        Ok(remap) => Ok(remap),
        Err(RemapErr::BadRow { n }) => Err(Failure::Refused(Refusal::BadRemap(n))),
        Err(RemapErr::TwiceFrom { n }) => Err(Failure::Refused(Refusal::BadRemap(n))),
        Err(RemapErr::Memory) => Err(Failure::OutOfMemory),
    }
}

/// The target of a replay: what the file of this name makes of the captured start, or that itself where none is named.
pub fn read_target<F: Files>(
    start: &Start,
    name: &Option<Txt>,
    files: &mut F,
) -> Result<Start, Failure>
    ensures step { Step (λ map. TargetIn map start.now name.now)
        (F.account files.old).content (F.account files.new).content
        (F.account files.old).faults (F.account files.new).faults result }
    ensures may { IfOk result (MayRunOn name.now start.now) }
    ensures kind { IfErr result (MayFail (MayRefuseChange name.now)) }
{
    match name {
        Some(name) => {
            let bytes = read_file(name, FILE_LIMIT, files)?;
            changed(start, &bytes)
        }
        None => Ok(start.copy()?),
    }
}

/// What the bytes of a change file make of the captured start.
fn changed(start: &Start, bytes: &Bytes) -> Result<Start, Failure>
    ensures says { Answered (TargetOf start.now bytes.now) result }
    ensures free { FaultFree result }
{
    match start.change(bytes.as_slice()) {
        Ok(target) => Ok(target),
        Err(ChangeErr::BadRow { n }) => Err(Failure::Refused(Refusal::BadChange(n))),
        Err(ChangeErr::Memory) => Err(Failure::OutOfMemory),
    }
}

/// Reads the files of the sessions from 0 on, of this version, in this order, and stops at the first that is refused. Together they have at
/// most `room` bytes.
pub fn read_sessions<F: Files>(
    alloc: Global,
    version: u32,
    names: &[Txt],
    room: usize,
    files: &mut F,
) -> Result<SessionLists, Failure>
    requires names { length names.now ≤ 64 }
    requires version { IsVersion version }
    ensures step { Step (λ map. Reading (SessionOf version) map room 0 names.now)
        (F.account files.old).content (F.account files.new).content
        (F.account files.old).faults (F.account files.new).faults (seen_as lists_of result) }
    ensures count { IfOk result (λ sessions. length sessions ≡ length names.now) }
    ensures lists { IfOk result (λ sessions. AreSessionsFrom 0 (lists_of sessions)) }
    ensures spelled { IfOk result (λ sessions. AllByRecursion (AreSpelled version) (lists_of sessions)) }
    ensures kind { IfErr result (MayFail (RefusesOne names.now)) }
{
    let mut sessions = List::new(alloc);
    let mut left = room;
    let mut session: u32 = 0;
    for name in names {
        let bytes = read_file(name, left, files)?;
        left -= bytes.len();
        sessions.push(parse_session(alloc, version, session, name, &bytes)?)?;
        session += 1;
    }
    Ok(sessions)
}
