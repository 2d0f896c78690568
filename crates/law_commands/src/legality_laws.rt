//! Laws of the verdict. A call does nothing: its clause is the law.

ghost use Rattle.std.specs.Prelude.{◌≡◌, ◌≤◌, ◌↔◌, ℕ, true, List, length, None, Ok, Some};
ghost use Rattle.std.specs.List.Sorted.{IsPermutation};
ghost use Rattle.desk_values.specs.Limits.{session_limit};
ghost use Rattle.desk_values.specs.declared.capture.Captured.{Captured};
ghost use Rattle.desk_schema.specs.Schema.{SchemaView};
ghost use Rattle.desk_schema.specs.Start.{StartView};
ghost use Rattle.replay_history.specs.Gap.{IsCallAt};
ghost use Rattle.captured_calls.specs.declared.refusal.Refusal.{Refusal};
ghost use Rattle.captured_calls.specs.Scan.{Test};
ghost use Rattle.captured_calls.specs.Sessions.{AreSessionsFrom};
ghost use Rattle.captured_calls.specs.Stamps.{all_calls, by_stamp};
ghost use Rattle.object_depends.specs.Facts.{has_table};
ghost use Rattle.captured_calls.specs.Facts.{fact_of};
ghost use Rattle.captured_calls.specs.Tests.{bad_stamp, first_refused};
ghost use Rattle.captured_calls.specs.Verdict.{CanBeLegal, IsLegal, verdict};
ghost use Rattle.law_commands.specs.Legality.First.{IsFirstRefused, IsNeverRefused, IsTaken, plan_of};
ghost use Rattle.law_commands.specs.Legality.Tables.{References, Writes};

/// Where some order of the calls is a legal capture, the verdict takes them. That order is the one by stamp.
pub fn legal_captures_are_taken()
    ensures taken { (start : StartView) (lists : List (List Captured)) → CanBeLegal start (all_calls lists)
        → verdict start lists ≡ Ok (plan_of start (by_stamp (all_calls lists))) }
    ensures order { (start : StartView) (lists : List (List Captured)) (ordered : List Captured)
        → IsPermutation (all_calls lists) ordered → IsLegal start ordered
        → ordered ≡ by_stamp (all_calls lists) }
{}

/// Of lists that files of sessions have, the verdict takes exactly those whose calls can be a legal capture.
pub fn taken_where_legal()
    ensures { (start : StartView) (lists : List (List Captured)) → AreSessionsFrom 0 lists → length lists ≤ session_limit
        → IsTaken start lists ↔ CanBeLegal start (all_calls lists) }
{}

/// A test that goes over calls refuses at the first of them that it fails, and nowhere where each passes. Where each number
/// is the stamp of one call, the place of a call among those by stamp is its stamp: so a refusal is at the least one.
pub fn first_refused_by_place()
    ensures refused { (test : Test Refusal) (before calls : List Captured) (refusal : Refusal)
        → (first_refused test before calls ≡ Some refusal) ↔ IsFirstRefused test before calls refusal }
    ensures passed { (test : Test Refusal) (before calls : List Captured)
        → (first_refused test before calls ≡ None) ↔ IsNeverRefused test before calls }
    ensures stamps { (calls : List Captured) (k : ℕ) (call : Captured) → bad_stamp calls ≡ None
        → IsCallAt (by_stamp calls) k call → call.stamp ≡ k }
{}

/// The tables that are known of a call are those that it speaks of: a numbered commit wrote and references those of its images, any
/// other call references the table that its statement names, where the schema has it, or all tables before reads of one moment, also
/// where it was refused.
pub fn facts_tell_tables()
    ensures writes { (schema : SchemaView) (call : Captured) (table : ℕ)
        → (has_table (fact_of schema call).writes table ≡ true) ↔ Writes call table }
    ensures references { (schema : SchemaView) (call : Captured) (table : ℕ)
        → (has_table (fact_of schema call).refs table ≡ true) ↔ References schema call table }
{}
