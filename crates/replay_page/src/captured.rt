//! The files of a capture, spelled again from what was read of them.

ghost use Rattle.std.specs.Prelude.{◌≡◌, ◌≤◌, ◌<◌, length, IfOk};
ghost use Rattle.std.specs.List.{AllByRecursion};
ghost use Rattle.desk_schema.specs.Schema.{IsVersion};
ghost use Rattle.capture_format.specs.SessionFile.{AreCallsOf, MayTellAll, session_text};
ghost use Rattle.captured_calls.specs.Sessions.{AreSessionsFrom};
ghost use Rattle.prepare_plan.specs.Lists.{lists_of};
ghost use Rattle.replay_page.specs.Captured.{AreSpelled, captured_files, session_files, session_name};
ghost use Rattle.replay_page.specs.Data.{IsQuietFile};

use crate::page::{NamedText, named};
use capture_format::{write_session, write_start};
use desk_schema::Start;
use desk_values::{CallList, List, Memory};
use std::alloc::Global;

/// The files of a capture: those of its sessions, and its start. A file has one spelling, so they are those that the start and the
/// sessions were read from.
pub fn captured_files(
    alloc: Global,
    start: &Start,
    sessions: &[CallList],
) -> Result<List<NamedText>, Memory>
    requires count { length sessions.now ≤ 64 }
    requires lists { AreSessionsFrom 0 (lists_of sessions.now) }
    requires spelled { AllByRecursion (AreSpelled start.now.schema.version) (lists_of sessions.now) }
    ensures files { IfOk result (λ files. files ≡ captured_files start.now (lists_of sessions.now)) }
    ensures quiet { IfOk result (λ files. AllByRecursion IsQuietFile files) }
{
    let version = start.schema().version();
    let mut files = session_files(alloc, version, sessions)?;
    let bytes = write_start(alloc, start, sessions.len() as u32)?;
    files.push(named(alloc, "start.cap", bytes)?)?;
    Ok(files)
}

/// Those of its sessions, of this version.
fn session_files(
    alloc: Global,
    version: u32,
    sessions: &[CallList],
) -> Result<List<NamedText>, Memory>
    requires version { IsVersion version }
    requires count { length sessions.now ≤ 64 }
    requires lists { AreSessionsFrom 0 (lists_of sessions.now) }
    requires spelled { AllByRecursion (AreSpelled version) (lists_of sessions.now) }
    ensures { IfOk result (λ files. files ≡ session_files version 0 (lists_of sessions.now)) }
{
    let mut files = List::new(alloc);
    let mut session: u32 = 0;
    for calls in sessions {
        files.push(session_file(alloc, version, session, calls)?)?;
        session += 1;
    }
    Ok(files)
}

/// That of one of them.
fn session_file(
    alloc: Global,
    version: u32,
    session: u32,
    calls: &CallList,
) -> Result<NamedText, Memory>
    requires version { IsVersion version }
    requires session { session < 1000 }
    requires calls { AreCallsOf session calls.now.items }
    requires told { MayTellAll version calls.now.items }
    ensures { IfOk result (λ file. file ≡ record { name = session_name session; bytes = session_text session version calls.now.items }) }
{
    let bytes = write_session(alloc, calls, session, version)?;
    let (hundreds, tens, ones) = (session / 100, session / 10 % 10, session % 10);
    let name = format!(in alloc; "session-{hundreds}{tens}{ones}.cap")?;
    named(alloc, name.as_str(), bytes)
}
