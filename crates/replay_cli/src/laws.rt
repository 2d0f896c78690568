//! Laws of the definitions.

ghost use Rattle.std.specs.Prelude.{IfSome, ◌≡◌, ◌≢◌, ◌≤◌, ℕ, List, [], Ok, Result};
ghost use Rattle.desk_files.specs.Outside.{FileMap};
ghost use Rattle.desk_words.specs.Within.{HasWays};
ghost use Rattle.desk_words.specs.declared.ways.Ways.{Ways};
ghost use Rattle.replay_worker.specs.Limits.{lane_limit};
ghost use Rattle.replay_cli.specs.declared.failure.Failure.{Failure};
ghost use Rattle.captured_calls.specs.declared.refusal.Refusal.{Refusal as Illegal};
ghost use Rattle.replay_job.specs.Job.{JobView};
ghost use Rattle.replay_job.specs.Replays.{IsSoundJob};
ghost use Rattle.replay_cli.specs.declared.failure.Refusal.TheVariants.{BadChange, BadLine, BadRemap, BadReport, NotLegal, Unshown};
ghost use Rattle.replay_cli.specs.declared.unshown.Unshown.TheVariants as unshown;
ghost use Rattle.desk_words.specs.declared.words.Command.{Command};
ghost use Rattle.replay_cli.specs.Decision.{MayBeRefused, Task, ToReplay, ToSend, Verdict};
ghost use Rattle.replay_cli.specs.Lines.{cause_text};

/// The words and the files have at most one verdict.
pub fn one_verdict()
    ensures { (words : List (List ℕ)) (files : FileMap) (verdict other : Result Task Failure)
        → Verdict words files verdict → Verdict words files other → verdict ≡ other }
{}

/// A job that the words and the files come to can be replayed, on the desk's own server or against another.
pub fn jobs_can_be_replayed()
    ensures replayed { (words : List (List ℕ)) (files : FileMap) (out : List ℕ) (job : JobView)
        → Verdict words files (Ok (ToReplay out job)) → IsSoundJob job }
    ensures sent { (words : List (List ℕ)) (files : FileMap) (out : List ℕ) (job : JobView) (port : ℕ)
        → Verdict words files (Ok (ToSend out job port)) → IsSoundJob job }
{}

/// A refusal that a command may print, whatever the files are, tells of a line or of a record from 1 on, and of a cause that has
/// a text.
pub fn refusals_tell_something()
    ensures line { (command : Command) (name : List ℕ) (line : ℕ)
        → MayBeRefused command (BadLine name line) → 1 ≤ line }
    ensures report { (command : Command) (name : List ℕ) (line : ℕ)
        → MayBeRefused command (BadReport name line) → 1 ≤ line }
    ensures journal { (command : Command) (name : List ℕ) (line : ℕ)
        → MayBeRefused command (Unshown (unshown.BadJournal name line)) → 1 ≤ line }
    ensures reads { (command : Command) (name : List ℕ) (line : ℕ)
        → MayBeRefused command (Unshown (unshown.BadReads name line)) → 1 ≤ line }
    ensures row { (command : Command) (row : ℕ) → MayBeRefused command (BadRemap row) → 1 ≤ row }
    ensures change { (command : Command) (row : ℕ) → MayBeRefused command (BadChange row) → 1 ≤ row }
    ensures cause { (command : Command) (cause : Illegal)
        → MayBeRefused command (NotLegal cause) → cause_text cause ≢ [] }
{}

/// A number of lanes that words may say is one that a replay takes.
pub fn lanes_are_within_limits()
    ensures { (ways : Ways) → HasWays ways → IfSome ways.lanes (λ lanes. (1 ≤ lanes) × (lanes ≤ lane_limit)) }
{}
