//! An errand comes to one thing, where the runs are told, and what is kept stays good. The functions do nothing: their contracts are
//! the laws.

ghost use Rattle.std.specs.Prelude.{◌≡◌, ◌≤◌, ℕ, List, Option, Some};
ghost use Rattle.replay_history.specs.declared.report.Class.{Class};
ghost use Rattle.replay_history.specs.declared.report.Line.{Line};
ghost use Rattle.replay_history.specs.declared.report.Report.{Report};
ghost use Rattle.report_format.specs.ReportFile.{IsReport};
ghost use Rattle.run_register.specs.declared.comparison.Difference.{Difference};
ghost use Rattle.run_register.specs.declared.kept.Accept.{Accept};
ghost use Rattle.run_register.specs.Comparison.{AreDifferences, RiseFrom};
ghost use Rattle.run_register.specs.Register.{DivergenceSet, RunMap};
ghost use Rattle.register_work.specs.Errand.{AreGood, IsAnswered, IsCause};
ghost use Rattle.register_work.specs.Keeping.{Keeping};
ghost use Rattle.register_work.specs.declared.errand.Answer.{Answer as AnswerSeen};
ghost use Rattle.register_work.specs.declared.errand.Errand.{Errand as ErrandSeen};
ghost use Rattle.register_work.specs.declared.errand.Errand.TheVariants.{Register, Accept as Accepting};
ghost use Rattle.register_work.specs.declared.unkept.Unkept.{Unkept as UnkeptSeen};
ghost use Rattle.register_work.specs.declared.unkept.Unkept.TheVariants.{BadRun};

/// What can be answered has no cause why it is not done: so each cause comes exactly where it holds, or the keeper fails or memory
/// is short.
pub fn answered_has_no_cause()
    ensures { (errand : ErrandSeen) (answer : AnswerSeen) (k : Keeping) (cause : UnkeptSeen) (runs : RunMap)
        → k.runs_before ≡ Some runs → IsAnswered errand k answer → IsCause errand (Some runs) cause → ⊥ }
{}

/// And it has one cause at most.
pub fn one_cause()
    ensures { (errand : ErrandSeen) (runs : RunMap) (cause other : UnkeptSeen)
        → IsCause errand (Some runs) cause → IsCause errand (Some runs) other → cause ≡ other }
{}

/// What is answered is one thing too, and so is what is kept then: by what was kept before, and by nothing else.
pub fn one_answer()
    ensures answer { (errand : ErrandSeen) (k m : Keeping) (runs : RunMap) (divergences : DivergenceSet) (answer other : AnswerSeen)
        → k.runs_before ≡ Some runs → m.runs_before ≡ Some runs → k.divergences_before ≡ Some divergences → m.divergences_before ≡ Some divergences
        → IsAnswered errand k answer → IsAnswered errand m other → answer ≡ other }
    ensures left { (errand : ErrandSeen) (k m : Keeping) (answer other : AnswerSeen)
        → m.runs_before ≡ k.runs_before → m.divergences_before ≡ k.divergences_before
        → IsAnswered errand k answer → IsAnswered errand m other
        → (m.runs_after ≡ k.runs_after) × (m.divergences_after ≡ k.divergences_after) }
{}

/// Two runs whose stamps rise differ by one list alone.
pub fn one_comparison()
    ensures { (a b : List Line) (accepted : List Accept) (found other : List Difference)
        → RiseFrom 0 a → RiseFrom 0 b → AreDifferences a b accepted found → AreDifferences a b accepted other → found ≡ other }
{}

/// A divergence that is accepted once more is answered by the same line, changes nothing, and is not refused.
pub fn accepted_once_more()
    ensures same { (name : List ℕ) (stamp : ℕ) (class : Class) (k next : Keeping) (answer other : AnswerSeen)
        → next.runs_before ≡ k.runs_after → next.divergences_before ≡ k.divergences_after
        → IsAnswered (Accepting name stamp class) k answer → IsAnswered (Accepting name stamp class) next other
        → (other ≡ answer) × (next.runs_after ≡ k.runs_after) × (next.divergences_after ≡ k.divergences_after) }
    ensures taken { (name : List ℕ) (stamp : ℕ) (class : Class) (k : Keeping) (answer : AnswerSeen) (cause : UnkeptSeen) (runs : RunMap)
        → k.runs_after ≡ Some runs → IsAnswered (Accepting name stamp class) k answer → IsCause (Accepting name stamp class) (Some runs) cause → ⊥ }
{}

/// The line of a bad report that is told is one from 1 on, also of a register that tells nothing.
pub fn bad_lines_are_from_one()
    ensures { (errand : ErrandSeen) (runs : Option RunMap) (name : List ℕ) (line : ℕ)
        → IsCause errand runs (BadRun name line) → 1 ≤ line }
{}

/// Where all that is kept is reports, no cause is a bad one.
pub fn good_reports_are_taken()
    ensures { (errand : ErrandSeen) (runs : RunMap) (name : List ℕ) (line : ℕ)
        → AreGood runs → IsCause errand (Some runs) (BadRun name line) → ⊥ }
{}

/// What is registered is a report: where all that is kept is reports, all that is kept then is.
pub fn registrations_stay_good()
    ensures { (name bytes : List ℕ) (report : Report) (k : Keeping) (answer : AnswerSeen) (runs after : RunMap)
        → AreGood runs → IsReport bytes report → k.runs_before ≡ Some runs → k.runs_after ≡ Some after
        → IsAnswered (Register name bytes report) k answer → AreGood after }
{}
