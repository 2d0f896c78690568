//! What ties the lines of a start file to the start that they declare, and a change to what comes of it, for every file and
//! every start.
//!
//! Nothing enters and nothing leaves: each call does nothing, and its clauses are the laws.
ghost use Rattle.std.specs.Prelude.{ℕ, ◌≡◌, ◌≤◌, ◌↔◌, ◌++◌, ◌∷◌, [], IsTrue, List};
ghost use Rattle.desk_values.specs.Comparison.{same_key};
ghost use Rattle.desk_values.specs.declared.value.Value.{Value};
ghost use Rattle.desk_values.specs.declared.value.Value.TheVariants.{Null};
ghost use Rattle.desk_schema.specs.declared.line.StartLine.{StartLine};
ghost use Rattle.desk_values.specs.Limits.{session_limit};
ghost use Rattle.desk_schema.specs.Start.{StartView, file_lines};
ghost use Rattle.desk_schema.specs.State.{state_of};
ghost use Rattle.desk_schema.specs.Rules.{AreLines, MayFollow, counted};
ghost use Rattle.desk_schema.specs.File.{IsFile, IsFileOf, IsStart};
ghost use Rattle.desk_schema.specs.Sound.{IsSoundStart};
ghost use Rattle.desk_schema.specs.Change.{ChangesTo, IsFirstBad};
ghost use Rattle.desk_schema.specs.Target.{IsTarget};

/// A file is the lines of the start and of the number of sessions that it declares.
pub fn files_are_starts()
    ensures { (lines : List StartLine) → IsFile lines → IsFileOf lines (state_of lines).start (state_of lines).sessions }
{}

/// The lines of a start that keeps the rules are a file, which declares just that start.
pub fn starts_are_files()
    ensures file { (start : StartView) (sessions : ℕ) → IsStart start → sessions ≤ session_limit
        → IsFile (file_lines start sessions) }
    ensures start { (start : StartView) (sessions : ℕ) → IsStart start → (state_of (file_lines start sessions)).start ≡ start }
    ensures sessions { (start : StartView) (sessions : ℕ) → (state_of (file_lines start sessions)).sessions ≡ sessions }
{}

/// A start that keeps the rules has names, kinds and keys of their own, rows that fit their tables, and so on.
pub fn starts_are_sound()
    ensures { (start : StartView) → IsStart start → IsSoundStart start }
{}

/// Lines grow by a line that may follow, and what they begin with is lines too.
pub fn lines_grow()
    ensures grown { (lines : List StartLine) (line : StartLine) → AreLines lines → MayFollow (state_of lines) line
        → AreLines (lines ++ line ∷ []) }
    ensures front { (front rest : List StartLine) → AreLines (front ++ rest) → AreLines front }
{}

/// What the records of a change lead to is a target of the start: it has the version, tables, columns, kinds, sequences and
/// rows of the start, and no next value is lower. It keeps the rules of starts.
pub fn changes_are_targets()
    ensures target { (start last : StartView) (records : List (List (List ℕ))) → ChangesTo start records last
        → IsTarget start last }
    ensures start { (start last : StartView) (records : List (List (List ℕ))) → IsStart start
        → ChangesTo start records last → IsStart last }
{}

/// A change has one answer: one start that its records lead to, or else one first bad record.
pub fn changes_have_one_answer()
    ensures start { (start a b : StartView) (records : List (List (List ℕ))) → ChangesTo start records a
        → ChangesTo start records b → a ≡ b }
    ensures bad { (start : StartView) (records : List (List (List ℕ))) (m n : ℕ) → IsFirstBad start records m
        → IsFirstBad start records n → m ≡ n }
    ensures apart { (start last : StartView) (records : List (List (List ℕ))) (n : ℕ) → ChangesTo start records last
        → ¬ IsFirstBad start records n }
{}

/// At a level a key that is there is the same as another one just where what counts of the two is equal.
pub fn keys_at_a_level()
    ensures { (level : ℕ) (key other : Value) → ¬ (other ≡ Null)
        → IsTrue (same_key level key other) ↔ (counted level key ≡ counted level other) }
{}

/// At level 1 a key that is there is the same as another one just where the two are equal.
pub fn keys_at_level_one()
    ensures { (key other : Value) → ¬ (other ≡ Null) → IsTrue (same_key 1 key other) ↔ (key ≡ other) }
{}
