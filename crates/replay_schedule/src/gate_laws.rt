//! Laws of gates. A call does nothing: its clause is the law.

ghost use Rattle.replay_schedule.specs.Gates.Laws.{AnswerIsFollowed, DoneIsAnswered, FirstOpenIsFree, FirstOpenIsLeast, NewGateFollows, OpenCallsHaveRoom, PickIsFirst, ReadyIsMayStart, StartIsFollowed, StartedCallsWait, WaitingIsBetween};

/// A call is ready exactly where the history with its start is legal, and waits exactly where it is started and not answered.
pub fn gate_says_what_may_start()
    ensures ready { ReadyIsMayStart }
    ensures waiting { WaitingIsBetween }
{}

/// What a lane is given to start, and what it has done, are what the history says.
pub fn gate_says_what_lanes_do()
    ensures pick { PickIsFirst }
    ensures done { DoneIsAnswered }
{}

/// The first open call is the least that is not answered. It waits or may start.
pub fn gate_says_what_is_open()
    ensures least { FirstOpenIsLeast }
    ensures free { FirstOpenIsFree }
{}

/// A new gate follows the history without events, and a gate that notes a start or an answer follows the history with it. A call
/// that is started waits.
pub fn gate_follows()
    ensures new { NewGateFollows }
    ensures start { StartIsFollowed }
    ensures waits { StartedCallsWait }
    ensures answer { AnswerIsFollowed }
{}

/// While a call is open, fewer events came than a start and an answer of each call.
pub fn open_calls_have_room()
    ensures { OpenCallsHaveRoom }
{}
