//! Laws of the states that the server comes to, of its replies, and of the order of rows. A call does nothing: its clause is the law.

ghost use Rattle.std.specs.Prelude.{◌≡◌, ℕ, List, []};
ghost use Rattle.std.specs.List.{AllByRecursion};
ghost use Rattle.std.specs.List.Sorted.{IsPermutation, IsSorted};
ghost use Rattle.desk_values.specs.declared.value.Value.{Value};
ghost use Rattle.desk_values.specs.declared.value.Value.TheVariants.{Null, Text};
ghost use Rattle.desk_values.specs.declared.value.Image.{Image};
ghost use Rattle.desk_values.specs.declared.call.Call.{Call};
ghost use Rattle.desk_values.specs.Good.{HasGoodShape, MayTell};
ghost use Rattle.desk_schema.specs.Start.{StartView};
ghost use Rattle.desk_schema.specs.File.{IsStart};
ghost use Rattle.sql_tree.specs.declared.tree.Key.{Key};
ghost use Rattle.server_words.specs.Found.{ordered, row_order};
ghost use Rattle.server_words.specs.State.{State, opening, tables};
ghost use Rattle.server_words.specs.Step.{replies_of, reply_in, step};
ghost use Rattle.server_words.specs.Sound.{AreStanding, IsSoundState};
ghost use Rattle.server_words.specs.Writes.{stored};

/// The rows of an ORDER BY are the rows, and none comes before the one in front of it.
pub fn rows_are_ordered()
    ensures rows { (level : ℕ) (keys : List (Key ℕ)) (rows : List Image) → IsPermutation rows (ordered level keys rows) }
    ensures order { (level : ℕ) (keys : List (Key ℕ)) (rows : List Image)
        → IsSorted (row_order level keys) (ordered level keys rows) }
{}

/// The server is sound at first.
pub fn openings_are_sound()
    ensures { (start : StartView) → IsStart start → IsSoundState (opening start) }
{}

/// Each step of a sound server leaves it sound.
pub fn steps_stay_sound()
    ensures { (state : State) (session : ℕ) (call : Call) → IsSoundState state → IsSoundState (step state session call) }
{}

/// Each reply of a sound server has a good shape.
pub fn replies_have_shape()
    ensures { (state : State) (session : ℕ) (call : Call) → IsSoundState state → HasGoodShape (reply_in state session call) }
{}

/// Of the tables of a sound server no row is gone, and the rows ascend.
pub fn tables_stand()
    ensures { (state : State) (n : ℕ) → IsSoundState state → AreStanding (tables state n) }
{}

/// Each reply to calls from the first one on has a good shape.
pub fn runs_have_shape()
    ensures { (start : StartView) (calls : List (ℕ × Call)) → IsStart start
        → AllByRecursion HasGoodShape (replies_of (opening start) calls) }
{}

/// A server of version 1 has no savepoints, so it tells of none that is missing.
pub fn old_servers_miss_no_savepoint()
    ensures { (state : State) (session : ℕ) (call : Call) → MayTell state.start.schema.version (reply_in state session call) }
{}

/// A row keeps each value as it is, but for a text of no bytes at level 2, which it keeps as Null.
pub fn rows_keep_values()
    ensures level_one { (value : Value) → stored 1 value ≡ value }
    ensures others { (level : ℕ) (value : Value) → ¬ (value ≡ Text []) → stored level value ≡ value }
    ensures null { stored 2 (Text []) ≡ Null }
{}
