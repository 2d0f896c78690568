//! A replay by lanes.

ghost use Rattle.std.specs.Prelude.{◌≡◌, ◌≤◌, false, IfOk, OnOk};
ghost use Rattle.replay_history.specs.History.{AnswersAll};
ghost use Rattle.replay_job.specs.Job.{IsReplayable, seen};
ghost use Rattle.replay_job.specs.Replays.{IsToldReplay};
ghost use Rattle.replay_lanes.specs.Finishing.{GoesOn};

use crate::turns::Own;
use desk_files::Door;
use desk_values::{Memory, Reserved, SESSION_LIMIT};
use replay_core::Desk;
use replay_job::Job;
use replay_lanes::{run_alone, run_lanes, seats_of, sessions_of};
use std::alloc::Global;
use std::sync::{Condvar, Mutex, Wait};
use std::thread::Threads;
use std::time::Clock;

/// Serves the sessions of a lane, until each of their calls is answered or the desk is stopped. What was done to the desk is known by
/// what a desk keeps, and by that alone.
pub fn run_lane<R: Clock + Wait, D: Door>(
    rt: &R,
    desk: &Mutex<Desk>,
    turn: &Condvar,
    door: &D,
    lane: &[u32],
) -> Result<(), Memory> {
    replay_lanes::run_lane(rt, desk, turn, door, &Own, lane)
}

/// Replays all that the lanes have left, call by call: those first that were started and not answered.
pub fn finish<R: Clock + Wait, D: Door>(rt: &R, desk: &mut Desk, door: &D) -> Result<(), Memory>
    requires { desk.old.stopped ≡ false }
    ensures all { OnOk result (AnswersAll desk.new.job.calls desk.new.history) }
    ensures job { desk.new.job ≡ desk.old.job }
    ensures going { desk.new.stopped ≡ false }
    ensures goes_on { GoesOn desk.old.history desk.new.history }
{
    replay_lanes::finish(rt, desk, door)
}

/// Replays a job by so many lanes, each in a thread of its own: session s is served by lane s mod `lanes`. One lane is served in the
/// thread that calls.
pub fn run_all<R: Clock + Wait + Threads + Sync, D: Door>(
    rt: &R,
    alloc: Global,
    job: Job,
    door: &D,
    lanes: u32,
) -> Result<Desk, Memory>
    requires lanes { (1 ≤ lanes) × (lanes ≤ 64) }
    requires job { IsReplayable (seen job) }
    ensures job { IfOk result (λ desk. desk.job ≡ seen job) }
    ensures replay { IfOk result (λ desk. IsToldReplay desk.job desk.history desk.stage) }
{
    if lanes == 1 {
        return alone(rt, alloc, job, door);
    }
    together(rt, alloc, job, door, lanes)
}

// Replays a job in the thread that calls. Nobody shares the desk, so what it carries is known.
fn alone<R: Clock + Wait, D: Door>(
    rt: &R,
    alloc: Global,
    job: Job,
    door: &D,
) -> Result<Desk, Memory>
    requires { IsReplayable (seen job) }
    ensures job { IfOk result (λ desk. desk.job ≡ seen job) }
    ensures replay { IfOk result (λ desk. IsToldReplay desk.job desk.history desk.stage) }
{
    let lane = sessions_of(alloc, job.calls.as_slice())?;
    let mut desk = Desk::setup(alloc, job)?;
    run_alone(rt, &mut desk, door, lane.as_slice())?;
    finished(rt, desk, door)
}

// Replays a job by lanes that share the desk.
fn together<R: Clock + Wait + Threads + Sync, D: Door>(
    rt: &R,
    alloc: Global,
    job: Job,
    door: &D,
    lanes: u32,
) -> Result<Desk, Memory>
    requires lanes { (1 ≤ lanes) × (lanes ≤ 64) }
    requires job { IsReplayable (seen job) }
    ensures job { IfOk result (λ desk. desk.job ≡ seen job) }
    ensures replay { IfOk result (λ desk. IsToldReplay desk.job desk.history desk.stage) }
{
    let kept = job.copy()?;
    let seats = seats_of(alloc, job.calls.as_slice(), lanes)?;
    let mut home = Reserved::new(alloc);
    home.reserve(SESSION_LIMIT as u32)?;
    let desk = Desk::setup(alloc, job)?;
    let found = run_lanes(rt, desk, door, &Own, seats.as_slice(), home);
    let desk = own(alloc, found, kept)?;
    finished(rt, desk, door)
}

// The desk itself where it carries the job, or one of which nothing is started.
fn own(alloc: Global, desk: Desk, kept: Job) -> Result<Desk, Memory>
    requires { IsReplayable (seen kept) }
    ensures { IfOk result (λ desk. desk.job ≡ seen kept) }
{
    if desk.job().same(&kept) {
        return Ok(desk);
    }
    let fresh = Desk::setup(alloc, kept)?;
    Ok(fresh)
}

// Does what the lanes have left. A stopped desk is want of memory.
fn finished<R: Clock + Wait, D: Door>(rt: &R, desk: Desk, door: &D) -> Result<Desk, Memory>
    ensures job { IfOk result (λ done. done.job ≡ desk.job) }
    ensures replay { IfOk result (λ done. IsToldReplay done.job done.history done.stage) }
{
    if desk.stopped() {
        return Err(Memory);
    }
    let mut desk = desk;
    finish(rt, &mut desk, door)?;
    desk.history_is_kept();
    Ok(desk)
}
