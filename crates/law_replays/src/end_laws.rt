//! Laws of whole replays. A call does nothing: its clause is the law.

ghost use Rattle.law_replays.specs.End.Laws.{AgainIsAsCaptured, CapturedStatesAreOne, CarriedTablesAreOne, CommitsKeepTheirOrder, EachIsAnsweredOnce, EndTablesAreCarried, OnlyCallsAreAnswered, SeenCommitsAreAnswered, StagesAreOne, TablesSoFarAreCarried, TablesBeforeAreCarried, TwinCallsAreSame};

/// A complete replay answers each captured call once and nothing else, and what it comes to is settled by its history.
pub fn complete_runs_answer_each_call()
    ensures each { EachIsAnsweredOnce }
    ensures only { OnlyCallsAreAnswered }
    ensures stage { StagesAreOne }
    ensures captured { CapturedStatesAreOne }
{}

/// In captured order, from the captured start and by the captured services, each reply is the recorded one, no call differs, and
/// the tables at the end are the captured tables.
pub fn in_order_all_is_as_captured()
    ensures { AgainIsAsCaptured }
{}

/// In captured order, in the order of commits and in a fenced replay, the commits that wrote something are answered in the order of
/// their numbers.
pub fn commits_keep_their_order()
    ensures { CommitsKeepTheirOrder }
{}

/// In captured order and in a fenced replay a call is answered where just those of them are answered that it saw.
pub fn seen_commits_are_answered()
    ensures { SeenCommitsAreAnswered }
{}

/// Where commits keep their order a replay in which no commit differs ends in the captured tables, each row number and each id
/// replaced by the one that stands for it in the replay. That is one list of rows. So it is at each place up to which no commit
/// differs and just the commits of the calls before some call are answered, and in a fenced replay this call is the next answered.
pub fn end_tables()
    ensures carried { EndTablesAreCarried }
    ensures so_far { TablesSoFarAreCarried }
    ensures before { TablesBeforeAreCarried }
    ensures one { CarriedTablesAreOne }
{}

/// A call whose session sees in the replay what it saw in the capture, but for ids, is no divergence where both servers have one
/// schema: no line of the report names it.
pub fn twin_calls_are_same()
    ensures { TwinCallsAreSame }
{}
