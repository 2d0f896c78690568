//! The laws that the server tells, of the faults that apply to a call, the one of the lowest rank. `calls_by_rank` speaks of whole
//! calls, the others of one stage each; the stage of the checks has its law in `sql_eval`.

ghost use Rattle.law_server.specs.Applies.{AnswersByRank, DrawsByRank, RanksDiffer, RepliesByRank};
ghost use Rattle.law_server.specs.Ranks.{CausesByRank, ConnectionsByRank, PartsByRank, StatementsByRank};

/// Of all that may be wrong with a call, from its text to the rows that it touches: for all that an answer depends on, and
/// so for each session of each state.
pub fn calls_by_rank()
    ensures answers { AnswersByRank }
    ensures replies { RepliesByRank }
{}

/// What a call draws: nothing where it is refused for its text, its session or a check, and else all that its statement
/// draws, also where it is then refused for its rows.
pub fn draws_by_rank()
    ensures { DrawsByRank }
{}

/// Of two faults one has the lower rank, so that just one is told.
pub fn ranks_differ()
    ensures { RanksDiffer }
{}

/// Of what may be wrong with the rows that a statement touches.
pub fn causes_by_rank()
    ensures { CausesByRank }
{}

/// Of what a session's rights and its transaction have against a statement.
pub fn statements_by_rank()
    ensures { StatementsByRank }
{}

/// Of what may be wrong with a connection.
pub fn connections_by_rank()
    ensures { ConnectionsByRank }
{}

/// Of the faults of the parts of an expression.
pub fn parts_by_rank()
    ensures { PartsByRank }
{}
