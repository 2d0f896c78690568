//! Laws of given ids. A call does nothing: its clause is the law.

ghost use Rattle.std.specs.Prelude.{◌≡◌, ◌≤◌, ◌+◌, ◌^◌, ◌↔◌, ◌⊎◌, ◌++◌, ℕ, true, List, length};
ghost use Rattle.desk_values.specs.declared.call.Call.{Call};
ghost use Rattle.desk_values.specs.declared.call.Reply.{Reply};
ghost use Rattle.desk_values.specs.declared.capture.Captured.{Captured};
ghost use Rattle.desk_values.specs.declared.value.Value.{Value};
ghost use Rattle.desk_schema.specs.Sound.{IsSoundStart};
ghost use Rattle.desk_schema.specs.Start.{StartView};
ghost use Rattle.id_pairs.specs.Pairs.{HasNoIdTwice, IdPair, learnt};
ghost use Rattle.server_words.specs.State.{State, is_given, opening};
ghost use Rattle.server_words.specs.Step.{Gives};
ghost use Rattle.replay_history.specs.Capture.{IsGivenBy, IsKnown, IsRun, StandsIn};
ghost use Rattle.replay_history.specs.Gap.{IsCallAt};
ghost use Rattle.law_ids.specs.Counters.{AreAtMost, IsBelow, IsPassed};
ghost use Rattle.law_ids.specs.Given.{GivesNext};
ghost use Rattle.law_ids.specs.Pairs.{AreFromElsewhere, AreGivenBy};

/// A step gives out the next numbers of the state before it. It passes just what it gives, no counter falls or rises by more
/// than one, and the start stays.
pub fn steps_give_next()
    ensures next { (old new : State) (session : ℕ) (call : Call) (reply : Reply)
        → Gives old session call reply new → GivesNext old.next_values old.next_row reply }
    ensures fresh { (old new : State) (session : ℕ) (call : Call) (reply : Reply) (id : Value)
        → Gives old session call reply new → IsGivenBy id reply → ¬ IsPassed old id }
    ensures passed { (old new : State) (session : ℕ) (call : Call) (reply : Reply) (id : Value)
        → Gives old session call reply new → IsGivenBy id reply → IsPassed new id }
    ensures kept { (old new : State) (session : ℕ) (call : Call) (reply : Reply) (id : Value)
        → Gives old session call reply new → IsPassed old id → IsPassed new id }
    ensures gave { (old new : State) (session : ℕ) (call : Call) (reply : Reply) (id : Value)
        → Gives old session call reply new → IsPassed new id → IsPassed old id ⊎ IsGivenBy id reply }
    ensures bound { (old new : State) (session : ℕ) (call : Call) (reply : Reply) (bound : ℕ)
        → Gives old session call reply new → AreAtMost bound old → AreAtMost (bound + 1) new }
    ensures start { (old new : State) (session : ℕ) (call : Call) (reply : Reply)
        → Gives old session call reply new → new.start ≡ old.start }
{}

/// The calls of a run are given ids that the first state had not passed and that the last one has, each by one call alone.
pub fn runs_give_new_ids()
    ensures fresh { (first last : State) (calls : List Captured) (k : ℕ) (call : Captured) (id : Value)
        → IsRun Gives first calls last → IsCallAt calls k call → IsGivenBy id call.reply
        → ¬ IsPassed first id }
    ensures passed { (first last : State) (calls : List Captured) (k : ℕ) (call : Captured) (id : Value)
        → IsRun Gives first calls last → IsCallAt calls k call → IsGivenBy id call.reply → IsPassed last id }
    ensures once { (first last : State) (calls : List Captured) (j k : ℕ) (call other : Captured) (id : Value)
        → IsRun Gives first calls last → IsCallAt calls j call → IsCallAt calls k other
        → IsGivenBy id call.reply → IsGivenBy id other.reply → j ≡ k }
    ensures kept { (first last : State) (calls : List Captured) (id : Value) → IsRun Gives first calls last
        → IsPassed first id → IsPassed last id }
    ensures bound { (first last : State) (calls : List Captured) (bound : ℕ) → IsRun Gives first calls last
        → AreAtMost bound first → AreAtMost (bound + length calls) last }
    ensures start { (first last : State) (calls : List Captured) → IsRun Gives first calls last → last.start ≡ first.start }
{}

/// The opening state has passed each id of the start's rows, and its numbers are at most 2^39.
pub fn openings_pass_rows()
    ensures passed { (start : StartView) (id : Value) → IsSoundStart start → StandsIn start.rows id → IsPassed (opening start) id }
    ensures bound { (start : StartView) → IsSoundStart start → AreAtMost (2 ^ 39) (opening start) }
{}

/// The ids that a client can know of at most 2^20 calls are below 2^40.
pub fn known_ids_are_low()
    ensures { (start : StartView) (calls : List Captured) (last : State) (k : ℕ) (value : Value)
        → IsSoundStart start → IsRun Gives (opening start) calls last → length calls ≤ 2 ^ 20
        → IsKnown start.rows calls k value → IsBelow (2 ^ 40) value }
{}

/// A value was given just where a client can know it.
pub fn given_where_known()
    ensures { (start : StartView) (calls : List Captured) (last : State) (value : Value)
        → IsRun Gives (opening start) calls last
        → (is_given last value ≡ true) ↔ IsKnown start.rows calls (length calls) value }
{}

/// What is learnt from two replies are ids that they give.
pub fn learnt_ids_are_given()
    ensures { (captured replayed : Reply) → AreGivenBy captured replayed (learnt captured replayed) }
{}

/// While the calls of a run are replayed in whatever order, no id comes to stand twice on one side of the pairs: where a
/// call is replied to the second time, its pairs are new on both sides.
pub fn learnt_ids_are_new()
    ensures { (start : StartView) (calls : List Captured) (last : State) (k : ℕ) (captured : Captured)
        (old new : State) (session : ℕ) (sent : Call) (reply : Reply) (pairs : List IdPair)
        → IsSoundStart start → IsRun Gives (opening start) calls last → IsCallAt calls k captured → Gives old session sent reply new
        → HasNoIdTwice pairs → AreFromElsewhere start.rows calls k old pairs → HasNoIdTwice (pairs ++ learnt captured.reply reply) }
{}
