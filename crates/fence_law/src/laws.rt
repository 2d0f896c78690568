//! Laws of plain reads. A call does nothing: its clause is the law.

ghost use Rattle.fence_law.specs.Laws.{OneListOfPlainReads, PlainReadsAreSame};

/// A plain read of a replay in which a numbered commit waits for every call before it is answered the same, where both servers
/// have one schema.
pub fn plain_reads_are_same()
    ensures { PlainReadsAreSame }
{}

/// There is one ascending list of the plain reads of a replay.
pub fn one_list_of_plain_reads()
    ensures { OneListOfPlainReads }
{}
