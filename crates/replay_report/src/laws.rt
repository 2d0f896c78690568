//! What a report says: a class by each call's own answer, counts that add up, and lines where calls differ. And the bytes of a
//! journal are the journal of one history alone, so what was written is read back. The functions do nothing: their
//! contracts are the laws.

ghost use Rattle.std.specs.Prelude.{◌≡◌, ◌+◌, ◌↔◌, ℕ, List, Result, Some, MatchResult, length, sum, take};
ghost use Rattle.std.specs.List.{AllByRecursion, Contains};
ghost use Rattle.desk_values.specs.declared.call.Reply.{Reply};
ghost use Rattle.desk_values.specs.declared.capture.Captured.{Captured};
ghost use Rattle.desk_values.specs.declared.capture.Event.{Event};
ghost use Rattle.file_lines.specs.File.{ReadsFile};
ghost use Rattle.file_lines.specs.declared.reader.FormErr.{FormErr};
ghost use Rattle.file_lines.specs.declared.reader.FormErr.TheVariants.{Memory};
ghost use Rattle.replay_history.specs.declared.mode.Mode.{Mode};
ghost use Rattle.replay_history.specs.Texts.{journal_text};
ghost use Rattle.replay_history.specs.declared.report.Line.{Line};
ghost use Rattle.replay_history.specs.Gap.{IsCallAt, IsStamped};
ghost use Rattle.replay_history.specs.History.{AnswersAll, AnswersAt};
ghost use Rattle.replay_job.specs.Events.{IsEvent};
ghost use Rattle.replay_job.specs.Job.{IsReplayable, JobView};
ghost use Rattle.replay_job.specs.Runs.{IsCompleteFor, IsLegalFor, Stage};
ghost use Rattle.divergence.specs.Class.{class_between};
ghost use Rattle.replay_report.specs.Laws.{IsLineOf, StampsRise};
ghost use Rattle.replay_report.specs.Report.{class_of, heard_report_in, pairs_after, report_in};
ghost use Rattle.replay_report.specs.declared.journal.Journal.{Journal};
ghost use Rattle.replay_report.specs.JournalFile.{IsBadJournal, IsJournal};

/// Bytes are the journal of at most one mode and history.
pub fn one_journal()
    ensures { (bytes : List ℕ) (mode other : Mode) (history others : List Event) → IsJournal bytes mode history
        → IsJournal bytes other others → (mode ≡ other) × (history ≡ others) }
{}

/// Bytes have at most one first line that is none of a journal.
pub fn one_bad_journal()
    ensures { (bytes : List ℕ) (line other : ℕ) → IsBadJournal bytes line → IsBadJournal bytes other → line ≡ other }
{}

/// What a reader of journals answers on a written one: what was written, or want of memory.
pub fn written_is_read()
    ensures { (mode : Mode) (history : List Event) → AllByRecursion IsEvent history
        → (result : Result Journal FormErr)
        → ReadsFile result
        (λ journal. IsJournal (journal_text mode history) journal.mode journal.history.items)
        (IsBadJournal (journal_text mode history))
        → MatchResult result (λ journal. (journal.mode ≡ mode) × (journal.history.items ≡ history)) (λ error. error ≡ Memory) }
{}

/// In a legal history the class of a call is by the map of ids just behind its own answer.
pub fn class_is_by_the_own_answer()
    ensures { (job : JobView) (history : List Event) (i : ℕ) (call : Captured) (reply : Reply)
        → IsLegalFor job history → AnswersAt history i call.stamp reply
        → class_of job history call ≡ Some (class_between (pairs_after job (take (i + 1) history)) call.reply reply) }
{}

/// Where all calls are answered, each is counted in one class.
pub fn counts_add_up()
    ensures { (job : JobView) (history : List Event) → IsStamped job.calls → IsLegalFor job history
        → AnswersAll job.calls history → sum (report_in job history).counts ≡ length job.calls }
{}

/// A line stands for a call exactly where its class is not `Same`.
pub fn lines_stand_where_calls_differ()
    ensures { (job : JobView) (history : List Event) (line : Line) → IsStamped job.calls
        → Contains (report_in job history).lines line ↔ IsLineOf job history line }
{}

/// The lines stand by rising stamp.
pub fn lines_stand_by_stamp()
    ensures { (job : JobView) (history : List Event) → IsStamped job.calls → StampsRise 0 (report_in job history).lines }
{}

/// Of a whole replay on the desk's own server the report is the same, whether it goes by new pairs of ids alone or by all.
pub fn heard_reports_are_reports()
    ensures { (job : JobView) (history : List Event) → IsReplayable job
        → ((last : Stage) × IsCompleteFor job history last) → heard_report_in job history ≡ report_in job history }
{}
