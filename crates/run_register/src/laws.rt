//! What the register holds after any list of registrations. The functions do nothing: their contracts are the laws.

ghost use Rattle.std.specs.Prelude.{◌≡◌, ◌∷◌, ◌++◌, ℕ, List};
ghost use Rattle.std.specs.FinMap.{find, get};
ghost use Rattle.run_register.specs.Register.{name_cmp, register_of};

/// Each name has the report of its first registration, and no other name has one.
pub fn first_report_stands()
    ensures { (pairs : List (List ℕ × List ℕ)) (name : List ℕ) → get (register_of pairs) name ≡ find name_cmp name pairs }
{}

/// A pair that is registered once more, wherever, changes nothing.
pub fn repeats_act_once()
    ensures { (front middle rest : List (List ℕ × List ℕ)) (pair : List ℕ × List ℕ)
        → register_of (front ++ pair ∷ (middle ++ pair ∷ rest)) ≡ register_of (front ++ pair ∷ (middle ++ rest)) }
{}
