//! Laws of the verdict. A call does nothing: its clause is the law.

ghost use Rattle.std.specs.Prelude.{◌≡◌, ◌≤◌, List, Ok, length};
ghost use Rattle.desk_values.specs.Limits.{session_limit};
ghost use Rattle.desk_values.specs.declared.capture.Captured.{Captured};
ghost use Rattle.desk_schema.specs.Start.{StartView};
ghost use Rattle.object_depends.specs.Facts.{AreSound};
ghost use Rattle.captured_calls.specs.Sessions.{AreSessionsFrom};
ghost use Rattle.captured_calls.specs.Stamps.{all_calls, by_stamp};
ghost use Rattle.captured_calls.specs.Verdict.{IsLegal, Preparation, verdict};

/// What the verdict gives are the calls by stamp. They are a legal capture, and what is known of them is sound.
pub fn verdict_is_legal()
    ensures calls { (start : StartView) (lists : List (List Captured)) (plan : Preparation)
        → verdict start lists ≡ Ok plan → plan.calls ≡ by_stamp (all_calls lists) }
    ensures legal { (start : StartView) (lists : List (List Captured)) (plan : Preparation) → AreSessionsFrom 0 lists
        → length lists ≤ session_limit → verdict start lists ≡ Ok plan → IsLegal start plan.calls }
    ensures sound { (start : StartView) (lists : List (List Captured)) (plan : Preparation)
        → verdict start lists ≡ Ok plan → AreSound plan.facts }
{}
