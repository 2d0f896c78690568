ghost use Rattle.std.specs.Prelude.{◌≡◌, Bool, true, false, List, ◌++◌, ◌∷◌, [], OnOk, OnErr};
ghost use Rattle.desk_values.specs.declared.call.Reply.{Reply};
ghost use Rattle.desk_values.specs.declared.capture.Event.{Event as HistoryEvent};
ghost use Rattle.desk_values.specs.declared.capture.Event.TheVariants.{Start as Starts, Answer as Answers};
ghost use Rattle.replay_history.specs.History.{IsWaiting};
ghost use Rattle.replay_job.specs.Job.{JobView};
ghost use Rattle.replay_job.specs.Runs.{MayStart};
ghost use Rattle.replay_schedule.specs.Schedule.{Follows};

use crate::schedule::Schedule;

/// A replay under way, as its lanes see it: the schedule of its job, whoever answers the calls. Its starts and its answers so far are
/// always a legal history of the job.
pub trait Course {
    /// What is replayed, and how.
    ghost job: { Self → JobView };

    /// What was started and answered so far.
    ghost history: { Self → List HistoryEvent };

    /// Whether no lane is to start a call any more.
    ghost stopped: { Self → Bool };

    /// Which calls may start, and which are started and answered.
    fn schedule(&self) -> &Schedule
        ensures follows { Follows result.now (history self.now) }
        ensures job { result.now.job ≡ job self.now }
        ensures stopped { result.now.stopped ≡ stopped self.now };

    /// Starts a call, and gives the pause before it.
    fn start(&mut self, k: u32) -> u64
        requires ready { MayStart (job self.old) (history self.old) k }
        requires going { stopped self.old ≡ false }
        ensures history { history self.new ≡ history self.old ++ Starts k result ∷ [] }
        ensures waiting { IsWaiting (history self.new) k }
        ensures job { job self.new ≡ job self.old }
        ensures stopped { stopped self.new ≡ stopped self.old };

    /// Stops it: no lane is to start a call any more.
    fn halt(&mut self)
        ensures history { history self.new ≡ history self.old }
        ensures job { job self.new ≡ job self.old }
        ensures stopped { stopped self.new ≡ true };
}

/// A replay whose calls are answered where it is.
pub trait Answering: Course {
    /// Why a call was not answered.
    type Refusal: Drop;

    /// Answers a call that is started. After an `Err` it is not answered.
    fn answer(&mut self, k: u32) -> Result<(), Self::Refusal>
        requires { IsWaiting (Self.history self.old) k }
        ensures ok { OnOk result ((reply : Reply) × (Self.history self.new ≡ Self.history self.old ++ Answers k reply ∷ [])) }
        ensures err { OnErr result (Self.history self.new ≡ Self.history self.old) }
        ensures job { Self.job self.new ≡ Self.job self.old }
        ensures stopped { Self.stopped self.new ≡ Self.stopped self.old };
}
