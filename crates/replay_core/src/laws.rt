//! Laws of desks. The functions do nothing: their contracts are the laws.

ghost use Rattle.replay_history.specs.History.{AnswersAll};
ghost use Rattle.replay_job.specs.Replays.{IsToldReplay};
ghost use Rattle.replay_core.specs.Desk.{DeskView, IsKept};

/// A desk that has answered all calls has a complete replay of its job, and each event has a text.
pub fn all_answered_is_complete()
    ensures { (desk : DeskView) → IsKept desk → AnswersAll desk.job.calls desk.history
        → IsToldReplay desk.job desk.history desk.stage }
{}
