//! One call after the other on a desk that nobody shares: those of one lane, and what the lanes have left.

ghost use Rattle.std.specs.Prelude.{◌≡◌, ◌⊎◌, false, length, OnOk};
ghost use Rattle.replay_history.specs.History.{AnswersAll, IsWaiting};
ghost use Rattle.replay_job.specs.Runs.{MayStart};
ghost use Rattle.replay_lanes.specs.Inside.Courses.{course_of};
ghost use Rattle.replay_lanes.specs.Finishing.{GoesOn, NoneIsLeft, StartsArePicks};
ghost use Rattle.replay_lanes.specs.Inside.Turns.{IsBegun};

use desk_files::Door;
use replay_schedule::Answering;
use std::sync::Wait;
use std::time::Clock;

/// Serves the sessions of a lane in the thread that calls. Each call is the one that a thread of the lane would take next (`picks`). It ends where
/// none may start: then, on a desk where no call was under way, each call of the lane is answered or waits for one that is not of the lane.
pub fn run_alone<R: Clock + Wait, A: Answering, D: Door>(
    rt: &R,
    desk: &mut A,
    door: &D,
    lane: &[u32],
) -> Result<(), A::Refusal>
    requires { A.stopped desk.old ≡ false }
    ensures job { A.job desk.new ≡ A.job desk.old }
    ensures going { A.stopped desk.new ≡ false }
    ensures goes_on { GoesOn (A.history desk.old) (A.history desk.new) }
    ensures picks { StartsArePicks (A.job desk.old) lane.now (A.history desk.old) (A.history desk.new) }
    ensures ends { OnOk result (NoneIsLeft (A.job desk.old) lane.now (A.history desk.new)) }
{
    let count = count_of(desk);
    for _turn in 0..count {
        let Some(k) = desk.schedule().pick(lane) else {
            return Ok(());
        };
        begin(rt, desk, door, k);
        desk.answer(k)?;
    }
    Ok(())
}

// How many calls the job has.
fn count_of<A: Answering>(desk: &A) -> usize
    ensures { result ≡ length (A.job desk.now).calls }
{
    desk.schedule().job().calls.len()
}

/// Replays all that the lanes have left, call by call: those first that were started and not answered.
pub fn finish<R: Clock + Wait, A: Answering, D: Door>(
    rt: &R,
    desk: &mut A,
    door: &D,
) -> Result<(), A::Refusal>
    requires { A.stopped desk.old ≡ false }
    ensures all { OnOk result (AnswersAll (A.job desk.new).calls (A.history desk.new)) }
    ensures job { A.job desk.new ≡ A.job desk.old }
    ensures going { A.stopped desk.new ≡ false }
    ensures goes_on { GoesOn (A.history desk.old) (A.history desk.new) }
{
    let count = desk.schedule().job().calls.len();
    for _turn in 0..count {
        let Some(k) = desk.schedule().first_open() else {
            return Ok(());
        };
        begin(rt, desk, door, k);
        desk.answer(k)?;
    }
    Ok(())
}

// Starts a call that does not wait yet.
fn begin<R: Clock + Wait, A: Answering, D: Door>(rt: &R, desk: &mut A, door: &D, k: u32)
    requires going { A.stopped desk.old ≡ false }
    requires open { IsWaiting (A.history desk.old) k ⊎ MayStart (A.job desk.old) (A.history desk.old) k }
    ensures waits { IsWaiting (A.history desk.new) k }
    ensures begun { IsBegun (course_of (A.job desk.old) (A.history desk.old) (A.stopped desk.old)) k
        (course_of (A.job desk.new) (A.history desk.new) (A.stopped desk.new)) }
{
    if !desk.schedule().waiting(k) {
        let pause = desk.start(k);
        door.pass(rt, k, pause);
    }
}
