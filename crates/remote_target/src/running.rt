//! The whole replay, from its dials to the lines that are given back.

ghost use Rattle.std.specs.Prelude.{◌≡◌, ◌≤◌, [], false, length, true, map, IfErr, IfOk, OnOk};
ghost use Rattle.std.specs.Vec.{vec_capacity};
ghost use Rattle.replay_history.specs.History.{AnswersAll};
ghost use Rattle.replay_job.specs.Job.{IsReplayable, seen};
ghost use Rattle.replay_lanes.specs.Sessions.{sessions};
ghost use Rattle.remote_desk.specs.History.{plain};
ghost use Rattle.remote_target.specs.Agreement.{heard_on};
ghost use Rattle.remote_target.specs.Dialled.{DialsOnce, IsHandedBack};
ghost use Rattle.desk_files.specs.Outside.{risen_by};
ghost use Rattle.remote_target.specs.Ends.{AddsUnbroken, EndsSo, GaveBack, IsDifference};
ghost use Rattle.remote_target.specs.Inside.{AreAgreed, CountsLines, IsJudged, IsOutcome, IsRefused, IsReturned, refusal_on, said_on, session_on, told};

use crate::comparing::compare;
use crate::dialling::{dial_each, give_back, room_for};
use crate::line::Line;
use crate::remote_err::RemoteErr;
use crate::seats::{Elsewhere, Seat, free_each, seat_each};
use crate::sending::Sending;
use desk_files::Door;
use desk_values::{List, Memory, Reserved, SESSION_LIMIT, Stamps};
use remote_desk::{Job, RemoteDesk};
use remote_link::{Dial, Link, LinkErr};
use replay_lanes::{finish, run_lanes, seats_of, sessions_of};
use std::alloc::Global;
use std::sync::Wait;
use std::thread::Threads;
use std::time::Clock;

/// Replays a job against the server at a port, by so many lanes, each in a thread of its own: session s is served by lane s mod `lanes`,
/// and each session with a call has a line of its own, which is dialled once. Every line that was dialled is given back, whatever comes,
/// ascending by session; where memory is short for that, the dial may not tell it. `Link` where a line failed or could not be dialled;
/// `OtherJob` and `Mismatch` where the desk does not carry the job, or keeps something else than a line heard, which only a fault of
/// this program can bring about.
pub fn run_remote<R: Clock + Wait + Threads + Sync, D: Door, L: Dial>(
    rt: &R,
    alloc: Global,
    job: Job,
    door: &D,
    dial: &mut L,
    port: u16,
    lanes: u32,
) -> Result<RemoteDesk, RemoteErr>
    requires lanes { (1 ≤ lanes) × (lanes ≤ 64) }
    requires job { IsReplayable (seen job) }
    ensures job { IfOk result (λ desk. desk.job ≡ seen job) }
    ensures all { IfOk result (λ desk. AnswersAll desk.job.calls (plain desk.events)) }
    ensures back { GaveBack (seen job) result (L.account dial.old).content (L.account dial.new).content }
    ensures unbroken { AddsUnbroken (L.account dial.old).content (L.account dial.new).content }
    ensures once { DialsOnce (seen job).calls result (L.account dial.old).content (L.account dial.new).content (L.account dial.old) (L.account dial.new) }
    ensures handed { IsHandedBack (seen job).calls port (L.account dial.old) (L.account dial.new) }
    ensures ends { EndsSo result (L.account dial.old).faults (L.account dial.new).faults }
    ensures differs { IfErr result (IsDifference (seen job)) }
{
    run_by(rt, alloc, &job, door, dial, port, lanes)
}

// The same by a job that stays where it is.
fn run_by<R: Clock + Wait + Threads + Sync, D: Door, L: Dial>(
    rt: &R,
    alloc: Global,
    job: &Job,
    door: &D,
    dial: &mut L,
    port: u16,
    lanes: u32,
) -> Result<RemoteDesk, RemoteErr>
    requires lanes { (1 ≤ lanes) × (lanes ≤ 64) }
    requires job { IsReplayable (seen job.now) }
    ensures job { IfOk result (λ desk. desk.job ≡ seen job.now) }
    ensures all { IfOk result (λ desk. AnswersAll desk.job.calls (plain desk.events)) }
    ensures back { GaveBack (seen job.now) result (L.account dial.old).content (L.account dial.new).content }
    ensures unbroken { AddsUnbroken (L.account dial.old).content (L.account dial.new).content }
    ensures once { DialsOnce (seen job.now).calls result (L.account dial.old).content (L.account dial.new).content (L.account dial.old) (L.account dial.new) }
    ensures handed { IsHandedBack (seen job.now).calls port (L.account dial.old) (L.account dial.new) }
    ensures ends { EndsSo result (L.account dial.old).faults (L.account dial.new).faults }
    ensures differs { IfErr result (IsDifference (seen job.now)) }
{
    let sessions = sessions_of(alloc, job.calls.as_slice())?;
    let mut lines = room_for(alloc, sessions.len())?;
    match dial_each(alloc, dial, port, sessions.as_slice(), &mut lines) {
        Ok(()) => {
            let (lines, outcome) = replayed(rt, alloc, job, door, lanes, lines);
            returned(dial, lines, outcome)
        }
        Err(_) => returned(dial, lines, Err(RemoteErr::Link)),
    }
}

// What came of a replay, once each line is given back, unless memory was short for that.
fn returned<L: Dial>(
    dial: &mut L,
    lines: Vec<Line<L::Line>>,
    outcome: Result<RemoteDesk, RemoteErr>,
) -> Result<RemoteDesk, RemoteErr>
    ensures returns { IsReturned outcome (map said_on lines.items) result (L.account dial.old).content (L.account dial.new).content }
    ensures unbroken { AddsUnbroken (L.account dial.old).content (L.account dial.new).content }
    ensures counts { CountsLines (map refusal_on lines.items) (L.account dial.old).faults (L.account dial.new).faults }
    ensures dialled { (L.account dial.new).dials ≡ (L.account dial.old).dials }
    ensures backs { (L.account dial.new).backs ≡ risen_by (length lines.items) (L.account dial.old).backs }
    ensures failed { (L.account dial.new).failed ≡ (L.account dial.old).failed }
    ensures port { (L.account dial.new).port ≡ (L.account dial.old).port }
{
    match give_back(dial, lines) {
        Ok(()) => outcome,
        Err(Memory) => Err(RemoteErr::Memory),
    }
}

// What the lanes go by, and the room for the lines while lanes have them and behind that.
#[derive(Drop)]
struct Plan<L: Link + Drop> {
    desk: RemoteDesk,
    lanes: List<Stamps>,
    home: Reserved<u32>,
    seats: Vec<Seat<L>>,
    back: Vec<Line<L>>,
}

impl<L: Link + Drop> Plan<L> {
    fn of(alloc: Global, job: &Job, lanes: u32, lines: usize) -> Result<Plan<L>, Memory>
        requires lanes { 1 ≤ lanes }
        requires job { IsReplayable (seen job.now) }
        ensures seats { IfOk result (λ plan. (plan.seats.items ≡ []) × (lines ≤ vec_capacity plan.seats)) }
        ensures back { IfOk result (λ plan. (plan.back.items ≡ []) × (lines ≤ vec_capacity plan.back)) }
    {
        let seats = room_for(alloc, lines)?;
        let back = room_for(alloc, lines)?;
        let lanes = seats_of(alloc, job.calls.as_slice(), lanes)?;
        let mut home = Reserved::new(alloc);
        home.reserve(SESSION_LIMIT as u32)?;
        let desk = RemoteDesk::setup(alloc, job.copy()?)?;
        Ok(Plan {
            desk,
            lanes,
            home,
            seats,
            back,
        })
    }
}

// Replays a job over these lines, and gives them with what came of it.
fn replayed<R: Clock + Wait + Threads + Sync, D: Door, L: Link + Send + Drop>(
    rt: &R,
    alloc: Global,
    job: &Job,
    door: &D,
    lanes: u32,
    lines: Vec<Line<L>>,
) -> (Vec<Line<L>>, Result<RemoteDesk, RemoteErr>)
    requires lanes { (1 ≤ lanes) × (lanes ≤ 64) }
    requires job { IsReplayable (seen job.now) }
    requires sessions { map session_on lines.items ≡ sessions (seen job.now).calls }
    ensures sessions { map session_on result.0.items ≡ sessions (seen job.now).calls }
    ensures outcome { IsOutcome (seen job.now) (map heard_on result.0.items) (map refusal_on result.0.items) result.1 }
{
    let Ok(plan) = Plan::of(alloc, job, lanes, lines.len()) else {
        return (lines, Err(RemoteErr::Memory));
    };
    let Plan {
        desk,
        lanes,
        home,
        mut seats,
        mut back,
    } = plan;
    seat_each(lines, &mut seats);
    let desk = {
        let target = Elsewhere {
            calls: job.calls.as_slice(),
            seats: seats.as_slice(),
        };
        run_lanes(rt, desk, door, &target, lanes.as_slice(), home)
    };
    free_each(seats, &mut back);
    settled(rt, alloc, desk, job, back, door)
}

// What is left is done, where the lanes left it so that it can be.
fn settled<R: Clock + Wait, D: Door, L: Link + Drop>(
    rt: &R,
    alloc: Global,
    desk: RemoteDesk,
    kept: &Job,
    lines: Vec<Line<L>>,
    door: &D,
) -> (Vec<Line<L>>, Result<RemoteDesk, RemoteErr>)
    requires { map session_on lines.items ≡ sessions (seen kept.now).calls }
    ensures sessions { map session_on result.0.items ≡ sessions (seen kept.now).calls }
    ensures outcome { IsOutcome (seen kept.now) (map heard_on result.0.items) (map refusal_on result.0.items) result.1 }
{
    match judged(alloc, &desk, kept, lines.as_slice()) {
        Ok(()) => finished(rt, desk, lines, door),
        Err(error) => (lines, Err(error)),
    }
}

// Whether the desk as the lanes left it carries the job, agrees with the lines, and none of these refused a call.
fn judged<L: Link + Drop>(
    alloc: Global,
    desk: &RemoteDesk,
    kept: &Job,
    lines: &[Line<L>],
) -> Result<(), RemoteErr>
    ensures { IsJudged (seen kept.now) desk.now (map heard_on lines.now) (map refusal_on lines.now) result }
{
    desk.history_is_kept();
    if !desk.job().same(kept) {
        return Err(RemoteErr::OtherJob {
            kept: desk.job().copy()?,
        });
    }
    compare(alloc, desk, lines)?;
    refused(lines)?;
    if desk.stopped() {
        return Err(RemoteErr::Memory);
    }
    Ok(())
}

// The refusal of the first line that refused a call.
fn refused<L: Link + Drop>(lines: &[Line<L>]) -> Result<(), RemoteErr>
    ensures { IsRefused (map refusal_on lines.now) result }
{
    for line in lines {
        match line.spoken.refusal() {
            Some(refusal) => return Err(told(refusal)),
            None => {}
        }
    }
    Ok(())
}

fn told(refusal: LinkErr) -> RemoteErr
    ensures { result ≡ told refusal }
{
    match refusal {
        LinkErr::Failed => RemoteErr::Link,
        LinkErr::Memory => RemoteErr::Memory,
    }
}

// Does what the lanes have left.
fn finished<R: Clock + Wait, D: Door, L: Link + Drop>(
    rt: &R,
    desk: RemoteDesk,
    lines: Vec<Line<L>>,
    door: &D,
) -> (Vec<Line<L>>, Result<RemoteDesk, RemoteErr>)
    requires agreed { AreAgreed desk (map heard_on lines.items) }
    requires sessions { map session_on lines.items ≡ sessions desk.job.calls }
    requires going { desk.stopped ≡ false }
    ensures sessions { map session_on result.0.items ≡ sessions desk.job.calls }
    ensures outcome { IsOutcome desk.job (map heard_on result.0.items) (map refusal_on result.0.items) result.1 }
{
    let mut sending = Sending::new(desk, lines);
    let done = finish(rt, &mut sending, door).is_ok();
    let (desk, lines) = sending.into_parts();
    desk.history_is_kept();
    match closed(done, lines.as_slice()) {
        Ok(()) => (lines, Ok(desk)),
        Err(error) => (lines, Err(error)),
    }
}

// Whether all is done and no line refused a call. What is not done was refused by a line, or memory was short.
fn closed<L: Link + Drop>(done: bool, lines: &[Line<L>]) -> Result<(), RemoteErr>
    ensures done { OnOk result (done ≡ true) }
    ensures refused { IsRefused (map refusal_on lines.now) result }
{
    refused(lines)?;
    if done { Ok(()) } else { Err(RemoteErr::Memory) }
}
