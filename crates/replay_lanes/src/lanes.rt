//! The threads of a replay, and the one lock that they share.

ghost use Rattle.std.specs.Prelude.{◌≡◌};
ghost use Rattle.std.specs.Thread.{IsSync};
ghost use Rattle.replay_lanes.specs.Inside.Seats.{taken_over};

use crate::seats::{home_of, join};
use crate::target::Target;
use crate::turns::{Turn, take};
use desk_files::Door;
use desk_values::{Reserved, Stamps};
use replay_schedule::Course;
use std::sync::{Condvar, Mutex, Wait};
use std::thread;
use std::thread::{Scope, Threads};
use std::time::Clock;

/// Serves the sessions of a lane, until each of their calls is answered or the desk is stopped. What was done to the desk is known by
/// what a desk keeps, and by that alone.
pub fn run_lane<R: Clock + Wait, C: Course, D: Door, T: Target<C>>(
    rt: &R,
    desk: &Mutex<C>,
    turn: &Condvar,
    door: &D,
    target: &T,
    lane: &[u32],
) -> Result<(), T::Refusal> {
    for _ in rt.forever() {
        let Some((k, pause)) = next(rt, desk, turn, lane) else {
            return Ok(());
        };
        door.pass(rt, k, pause);
        let answered = target.answer(rt, desk, k);
        turn.notify_all();
        answered?;
    }
    unreachable!()
}

// Starts a call of the lane, and waits while none may start. `None` where the lane has ended.
fn next<R: Wait, C: Course>(
    rt: &R,
    desk: &Mutex<C>,
    turn: &Condvar,
    lane: &[u32],
) -> Option<(u32, u64)> {
    let mut held = desk.lock(rt);
    for _ in rt.forever() {
        match take(&mut *held, lane) {
            Turn::Passes(k, pause) => return Some((k, pause)),
            Turn::Ends => return None,
            Turn::Waits => held = turn.wait(rt, held),
        }
    }
    unreachable!()
}

/// The desk as the lanes leave it, each in a thread of its own. There is to be room for all sessions in `home`.
pub fn run_lanes<
    R: Clock + Wait + Threads + Sync,
    C: Course + Send + Drop,
    D: Door,
    T: Target<C> + Sync,
>(rt: &R, desk: C, door: &D, target: &T, seats: &[Stamps], home: Reserved<u32>) -> C {
    let shared = Mutex::new(desk);
    let turn = Condvar::new();
    start_lanes(rt, &shared, &turn, door, target, seats, home);
    shared.into_inner()
}

// Runs each lane in a thread of its own. The sessions of those whose thread could not be started are served here, by a home lane.
fn start_lanes<
    R: Clock + Wait + Threads + Sync,
    C: Course + Send + Drop,
    D: Door,
    T: Target<C> + Sync,
>(
    rt: &R,
    desk: &Mutex<C>,
    turn: &Condvar,
    door: &D,
    target: &T,
    seats: &[Stamps],
    home: Reserved<u32>,
) {
    thread::scope(
        thread::scope_env(),
        rt,
        move |scope| -> ()
            requires sync { IsSync R.row }
        {
            let joined = start_each(scope, rt, desk, turn, door, target, seats);
            let home = home_of(home, &joined);
            let _ = run_lane(rt, desk, turn, door, target, home.as_slice());
        },
    );
}

// Starts a thread for each lane, and notes the sessions of those for which there is none.
fn start_each<
    's,
    E,
    R: Clock + Wait + Threads + Sync,
    C: Course + Send + Drop + 's,
    D: Door,
    T: Target<C> + Sync + 's,
>(
    scope: &'s Scope<'s, E>,
    rt: &'s R,
    desk: &'s Mutex<C>,
    turn: &'s Condvar,
    door: &'s D,
    target: &'s T,
    seats: &'s [Stamps],
) -> [bool; 64]
    requires sync { IsSync R.row }
{
    let mut joined = [false; 64];
    for lane in seats {
        let its = lane.as_slice();
        let started = start_lane(scope, rt, desk, turn, door, target, its);
        note(started, &mut joined, its);
    }
    joined
}

// Notes the sessions of a lane that no thread serves.
fn note(started: bool, joined: &mut [bool; 64], lane: &[u32])
    ensures { joined.new ≡ taken_over started joined.old lane.now }
{
    if !started {
        join(joined, lane);
    }
}

// Starts a thread that serves a lane, and says whether there is one.
fn start_lane<
    's,
    E,
    R: Clock + Wait + Threads + Sync,
    C: Course + Send + Drop + 's,
    D: Door,
    T: Target<C> + Sync + 's,
>(
    scope: &'s Scope<'s, E>,
    rt: &'s R,
    desk: &'s Mutex<C>,
    turn: &'s Condvar,
    door: &'s D,
    target: &'s T,
    lane: &'s [u32],
) -> bool
    requires sync { IsSync R.row }
{
    scope
        .spawn(move || {
            let _ = run_lane(rt, desk, turn, door, target, lane);
        })
        .is_ok()
}
