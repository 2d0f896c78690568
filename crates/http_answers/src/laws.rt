//! Bytes begin with one answer at most.

ghost use Rattle.std.specs.Prelude.{◌≡◌, ℕ, List, ◌++◌};
ghost use Rattle.http_answers.specs.Answers.{IsAnswer};

/// Of two answers that the same bytes begin with, both are one: its bytes, its status and its body.
pub fn one_answer()
    ensures { (own other : List ℕ) (status code : ℕ) (body text rest more : List ℕ)
        → IsAnswer own status body → IsAnswer other code text → own ++ rest ≡ other ++ more
        → (own ≡ other) × (status ≡ code) × (body ≡ text) × (rest ≡ more) }
{}
