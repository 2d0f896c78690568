//! What is served, and its capture.

ghost use Rattle.std.specs.Prelude.{◌≡◌, ◌++◌, ◌≤◌, length, IfErr, IfOk, OnOk};
ghost use Rattle.std.specs.List.{AllByRecursion};
ghost use Rattle.capture_format.specs.SessionFile.{MayTellAll};
ghost use Rattle.captured_calls.specs.Sessions.{AreSessionsFrom};
ghost use Rattle.prepare_plan.specs.Lists.{lists_of};
ghost use Rattle.capture_serve.specs.Service.{IsHandedBack};
ghost use Rattle.replay_cli.specs.Done.{IsQuiet, IsServed, capture_files};
ghost use Rattle.replay_cli.specs.Inside.Serving.{HostFaults, ServeFails};
ghost use Rattle.replay_cli.specs.Lines.{served_line, short_text};

use crate::failure::Failure;
use crate::plan::{Plan, append_counted, capture_writes};
use capture_serve::{Capture, ServeErr, serve};
use desk_files::{Door, Host};
use desk_schema::Start;
use desk_values::{Bytes, List, Memory, Txt};
use std::alloc::Global;
use std::sync::Wait;
use std::thread::Threads;
use std::time::Clock;

/// Serves connections, and captures what they say.
pub(crate) fn serving<R: Clock + Wait + Threads + Sync, H: Host, D: Door>(
    rt: &R,
    alloc: Global,
    out: &Txt,
    start: &Start,
    most: u32,
    port: u16,
    host: &mut H,
    door: &D,
) -> Result<Plan, Failure>
    requires out { length out.now ≤ 900 }
    requires most { most ≤ 64 }
    ensures done { IfOk result (λ plan. IsServed out.now start.now most plan (H.account host.old).content (H.account host.new).content) }
    ensures fails { IfErr result (ServeFails start.now most (H.account host.old).content (H.account host.new).content) }
    ensures faults { HostFaults result (H.account host.old).faults (H.account host.new).faults }
    ensures handed { IsHandedBack most port (H.account host.old).handed (H.account host.new).handed }
{
    start.know_rules();
    match serve(rt, alloc, start, host, door, port, most) {
        Ok(capture) => Ok(captured(alloc, out, start, &capture)?),
        Err(ServeErr::Failed { .. }) => Err(Failure::DeviceFault),
        Err(ServeErr::Differs(finding)) => Err(Failure::Differs(finding)),
        Err(ServeErr::Memory) => Err(Failure::OutOfMemory),
    }
}

// The files and the line of what was captured.
fn captured(alloc: Global, out: &Txt, start: &Start, capture: &Capture) -> Result<Plan, Memory>
    requires out { length out.now ≤ 900 }
    requires few { capture.now.connections ≤ 64 }
    requires count { length capture.now.sessions ≡ capture.now.connections }
    requires lists { AreSessionsFrom 0 (lists_of capture.now.sessions) }
    requires told { AllByRecursion (MayTellAll start.now.schema.version) (lists_of capture.now.sessions) }
    ensures line { IfOk result (λ plan. plan.line ≡ served_line capture.now.connections capture.now.calls capture.now.short) }
    ensures quiet { IfOk result IsQuiet }
    ensures writes { IfOk result (λ plan. plan.writes ≡ capture_files out.now start.now (lists_of capture.now.sessions) capture.now.connections) }
{
    let lists = capture.sessions.as_slice();
    Ok(Plan {
        line: served_line(alloc, capture)?,
        differs: false,
        writes: capture_writes(alloc, out, start, lists, capture.connections)?,
    })
}

fn served_line(alloc: Global, capture: &Capture) -> Result<Bytes, Memory>
    ensures { IfOk result (λ line. line ≡ served_line capture.now.connections capture.now.calls capture.now.short) }
{
    let mut line = List::new(alloc);
    line.append(b"served ")?;
    append_counted(u64::from(capture.connections), " connections, ", &mut line)?;
    append_counted(u64::from(capture.calls), " calls", &mut line)?;
    append_short(capture.short, &mut line)?;
    Ok(line)
}

// Appends how many connections were short of memory, where some were.
fn append_short(short: u32, to: &mut Bytes) -> Result<(), Memory>
    ensures { OnOk result (to.new ≡ to.old ++ short_text short) }
{
    if short == 0 {
        to.append(b"\n")?;
    } else {
        to.append(b", ")?;
        append_counted(u64::from(short), " short of memory\n", to)?;
    }
    Ok(())
}
