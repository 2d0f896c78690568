//! The whole service, from its start to the capture.

ghost use Rattle.std.specs.Prelude.{◌≡◌, ◌≤◌, length, true, IfErr, IfOk, Ok};
ghost use Rattle.desk_files.specs.Outside.{Counts};
ghost use Rattle.captured_calls.specs.Sessions.{AreSessionsFrom};
ghost use Rattle.capture_serve.specs.Failing.{Fails, GivesBack, serve_ending};
ghost use Rattle.capture_serve.specs.Seen.{capture_of};
ghost use Rattle.capture_serve.specs.Service.{AreReadFrom, IsHandedBack, IsService};
ghost use Rattle.capture_serve.specs.Inside.Passing.{Connected, IsCapturedOf, IsFaultless, IsOutcome, IsPlain, halt_ending};

use crate::accepting::serve_all;
use crate::closing::close_all;
use crate::failing::{ServeErr, failed};
use crate::halt::Halt;
use crate::knowing::know_files;
use crate::returning::{Notes, give_back};
use capture_recorder::{Recorder, gather};
use desk_files::{Door, Host};
use desk_schema::Start;
use desk_values::{Memory, SessionLists};
use std::alloc::Global;
use std::sync::{Mutex, Wait};
use std::thread::Threads;
use std::time::Clock;

/// What was captured of connections.
#[derive(Drop)]
pub struct Capture {
    /// How many connections there were. Each is a session.
    pub connections: u32,
    /// How many of them ended for want of memory.
    pub short: u32,
    /// How many calls were captured.
    pub calls: u32,
    /// The calls of each session.
    pub sessions: SessionLists,
}

/// Serves so many connections at a port, or all that the host has, each as a session of a server with this start, and gives what
/// they said. Each connection that was taken is given back, whatever comes; where memory is short for that, the host may not tell it.
/// `Failed` where the host failed;
/// `Differs` where what was recorded is not what the connections were answered, which only a fault of this program can bring about.
pub fn serve<R: Clock + Wait + Threads + Sync, H: Host, D: Door>(
    rt: &R,
    alloc: Global,
    start: &Start,
    host: &mut H,
    clock: &D,
    port: u16,
    most: u32,
) -> Result<Capture, ServeErr>
    requires { most ≤ 64 }
    ensures service { IfOk result (λ capture. IsService start.now most (capture_of capture) (H.account host.old).content (H.account host.new).content) }
    ensures files { IfOk result (λ capture. AreSessionsFrom 0 (capture_of capture).sessions) }
    ensures read { IfOk result (λ capture. AreReadFrom start.now.schema.version 0 (capture_of capture).sessions) }
    ensures fails { IfErr result (Fails start.now) }
    ensures back { IfErr result (GivesBack most (H.account host.old).content (H.account host.new).content) }
    ensures counts { Counts (serve_ending result) (H.account host.old).faults (H.account host.new).faults }
    ensures handed { IsHandedBack most port (H.account host.old).handed (H.account host.new).handed }
{
    let shared = Mutex::new(Recorder::load(alloc, start)?);
    let notes = connect(rt, alloc, host, &shared, clock, port, most)?;
    captured(rt, alloc, start, shared.into_inner(), clock, notes)
}

// Serves the connections, and gives each of them back.
fn connect<R: Clock + Wait + Threads + Sync, H: Host, D: Door>(
    rt: &R,
    alloc: Global,
    host: &mut H,
    shared: &Mutex<Recorder>,
    clock: &D,
    port: u16,
    most: u32,
) -> Result<Notes, ServeErr>
    requires { most ≤ 64 }
    ensures connected { IfOk result (λ notes. Connected most notes (H.account host.old).content (H.account host.new).content) }
    ensures plain { IfErr result IsPlain }
    ensures back { IfErr result (GivesBack most (H.account host.old).content (H.account host.new).content) }
    ensures counts { Counts (serve_ending result) (H.account host.old).faults (H.account host.new).faults }
    ensures handed { IsHandedBack most port (H.account host.old).handed (H.account host.new).handed }
{
    if host.listen(port).is_err() {
        return Err(ServeErr::Failed { short: false });
    }
    let (served, halted) = serve_all(rt, alloc, host, shared, clock, most);
    let (told, notes) = give_back(alloc, host, served);
    outcome(halted, told, notes)
}

// What comes of connections that came so, were given back so, and left these notes.
fn outcome(
    halted: Result<(), Halt>,
    told: bool,
    notes: Result<Notes, Memory>,
) -> Result<Notes, ServeErr>
    ensures ok { IfOk result (λ noted. (halted ≡ Ok tt) × (told ≡ true) × (notes ≡ Ok noted)) }
    ensures fails { IfErr result (IsOutcome halted told) }
    ensures ending { serve_ending result ≡ halt_ending halted }
{
    match halted {
        Ok(()) => {
            if !told {
                return Err(ServeErr::Memory);
            }
            Ok(notes?)
        }
        Err(Halt::Failed) => Err(ServeErr::Failed { short: !told }),
        Err(Halt::Memory) => Err(ServeErr::Memory),
    }
}

// Closes the sessions, and compares what was recorded with what was said.
fn captured<R: Clock + Wait, D: Door>(
    rt: &R,
    alloc: Global,
    start: &Start,
    mut recorder: Recorder,
    clock: &D,
    notes: Notes,
) -> Result<Capture, ServeErr>
    requires { length notes.said ≤ 64 }
    ensures captured { IfOk result (λ capture. IsCapturedOf start.now notes (capture_of capture)) }
    ensures files { IfOk result (λ capture. AreSessionsFrom 0 (capture_of capture).sessions) }
    ensures read { IfOk result (λ capture. AreReadFrom start.now.schema.version 0 (capture_of capture).sessions) }
    ensures fails { IfErr result (λ error. Fails start.now error × IsFaultless error) }
{
    let said = close_all(rt, alloc, &mut recorder, clock, notes.said)?;
    let calls = recorder.calls().len();
    let sessions = match gather(alloc, start, &recorder, &said, &notes.turned) {
        Ok(sessions) => sessions,
        Err(error) => return Err(failed(error)),
    };
    let capture = Capture {
        connections: said.len() as u32,
        short: notes.short,
        calls: calls as u32,
        sessions,
    };
    know_files(start, &capture.sessions);
    Ok(capture)
}
