//! What a lane takes from a desk under one hold of the lock.

ghost use Rattle.std.specs.Prelude.{◌≡◌, false};
ghost use Rattle.replay_lanes.specs.Inside.Courses.{course_of};
ghost use Rattle.replay_lanes.specs.Inside.Turns.{IsLaneHeld, Takes};

use replay_schedule::Course;

/// What a lane does next.
#[derive(Clone, Copy)]
pub(crate) enum Turn {
    /// The call with this stamp is started, and has this pause before it.
    Passes(u32, u64),
    /// None of the lane's calls may start now.
    Waits,
    /// Every call of the lane is answered, or the desk is stopped.
    Ends,
}

/// Starts a call of the lane, where one may start.
pub(crate) fn take<C: Course>(desk: &mut C, lane: &[u32]) -> Turn
    ensures { Takes lane.now
        (course_of (C.job desk.old) (C.history desk.old) (C.stopped desk.old))
        (course_of (C.job desk.new) (C.history desk.new) (C.stopped desk.new)) result }
{
    if desk.schedule().stopped() {
        return Turn::Ends;
    }
    match desk.schedule().pick(lane) {
        Some(k) => Turn::Passes(k, desk.start(k)),
        None => rest(desk, lane),
    }
}

// What a lane does of which no call may start.
fn rest<C: Course>(desk: &C, lane: &[u32]) -> Turn
    requires going { C.stopped desk.now ≡ false }
    requires held { IsLaneHeld lane.now (course_of (C.job desk.now) (C.history desk.now) (C.stopped desk.now)) }
    ensures { Takes lane.now
        (course_of (C.job desk.now) (C.history desk.now) (C.stopped desk.now))
        (course_of (C.job desk.now) (C.history desk.now) (C.stopped desk.now)) result }
{
    if desk.schedule().done(lane) {
        Turn::Ends
    } else {
        Turn::Waits
    }
}
