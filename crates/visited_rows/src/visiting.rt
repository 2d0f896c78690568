//! A law of the rows that a statement visits. A call does nothing: its clause is the law.

ghost use Rattle.visited_rows.specs.ByKey.{VisitedAnswer};

/// A SELECT and a DELETE are answered by the rows that they visit as by all rows that the session sees, and so is an UPDATE, but for
/// whether a key stands twice.
pub fn visited_rows_answer()
    ensures { VisitedAnswer }
{}
