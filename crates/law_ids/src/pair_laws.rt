//! Laws of pairs. A call does nothing: its clause is the law.

ghost use Rattle.law_ids.specs.Replays.Laws.{PairsAreLearnt, PairsStayOneToOne};

/// A captured id comes to stand for one replayed id of its kind, and no two for one: each server gives an id once, and each call is
/// answered once.
pub fn pairs_stay_one_to_one()
    ensures { PairsStayOneToOne }
{}

/// The pairs of a replay are those of the start, and then what each answer brought.
pub fn pairs_are_learnt()
    ensures { PairsAreLearnt }
{}
