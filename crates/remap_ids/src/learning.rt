// Pairs that two replies to one call give.

ghost use Rattle.std.specs.Prelude.{◌≡◌, ◌+◌, ◌<◌, ◌≤◌, length, min};
ghost use Rattle.id_pairs.specs.Pairs.{all_new, drawn_pair, drawn_pairs, made_pair};

use crate::pairs::Pairs;
use desk_values::Value;
use id_pairs::Id;

/// Adds a pair for each place at which both have a draw of the same sequence.
pub(crate) fn add_drawn(pairs: &mut Pairs, captured: &[Value], replayed: &[Value])
    requires { min (length captured.now) (length replayed.now) ≤ pairs.old.spare }
    ensures pairs { pairs.new.pairs ≡ all_new pairs.old.pairs (drawn_pairs captured.now replayed.now) }
    ensures spare { pairs.old.spare ≤ pairs.new.spare + min (length captured.now) (length replayed.now) }
    ensures whole { pairs.old.spare + length pairs.old.pairs ≤ pairs.new.spare + length pairs.new.pairs }
    ensures kept { length pairs.old.pairs ≤ length pairs.new.pairs }
{
    for place in 0..captured.len().min(replayed.len()) {
        add_draw(pairs, &captured[place], &replayed[place]);
    }
}

// Adds two values, where they were drawn from one sequence.
fn add_draw(pairs: &mut Pairs, captured: &Value, replayed: &Value)
    requires { 0 < pairs.old.spare }
    ensures pairs { pairs.new.pairs ≡ all_new pairs.old.pairs (drawn_pair captured.now replayed.now) }
    ensures spare { pairs.old.spare ≤ pairs.new.spare + 1 }
    ensures whole { pairs.old.spare + length pairs.old.pairs ≤ pairs.new.spare + length pairs.new.pairs }
    ensures kept { length pairs.old.pairs ≤ length pairs.new.pairs }
{
    if let (Value::Draw(sequence, drawn), Value::Draw(other, again)) = (captured, replayed) {
        if *sequence == *other {
            pairs.add(Id::Draw(*sequence, *drawn), Id::Draw(*other, *again));
        }
    }
}

/// Adds the rows, where both were made.
pub(crate) fn add_made(pairs: &mut Pairs, captured: Option<u64>, replayed: Option<u64>)
    requires { 0 < pairs.old.spare }
    ensures pairs { pairs.new.pairs ≡ all_new pairs.old.pairs (made_pair captured replayed) }
    ensures whole { pairs.old.spare + length pairs.old.pairs ≤ pairs.new.spare + length pairs.new.pairs }
    ensures kept { length pairs.old.pairs ≤ length pairs.new.pairs }
{
    if let (Some(row), Some(other)) = (captured, replayed) {
        pairs.add(Id::Row(row), Id::Row(other));
    }
}
