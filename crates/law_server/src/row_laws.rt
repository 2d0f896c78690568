//! Laws of renaming. A call does nothing: its clause is the law.

ghost use Rattle.law_server.specs.Rows.Laws.{ImagesArePairs, TotalsStay, TruthsStay, ValuesAreRenamed};

/// An expression of renamed values and binds gives the renamed value or the same fault, also where its kinds do not agree.
/// A condition of them keeps its truth or its fault, where no id stands twice on one side.
pub fn expressions_under_renaming()
    ensures values { ValuesAreRenamed }
    ensures truths { TruthsStay }
{}

/// COUNT, SUM, MIN and MAX over renamed rows, in any order, give the same.
pub fn totals_under_renaming()
    ensures { TotalsStay }
{}

/// Where no id stands twice on one side, the image that a map gives for an id is the one that it is paired with.
pub fn images_are_pairs()
    ensures { ImagesArePairs }
{}
