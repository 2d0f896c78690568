//! Laws of reports. A call does nothing: its clause is the law.

ghost use Rattle.law_replays.specs.Reports.Laws.{AgainIsClean, EachIsClassed, LinesNameWhatDiffers, NoLineNoWriteDivergence, PairsAreOnce, TwinsAreNotNamed};

/// The pairs of ids by which answers are classed have no id twice on one side, however far a replay has come.
pub fn pairs_are_once()
    ensures { PairsAreOnce }
{}

/// The class of each call is the one by the map just after its answer.
pub fn reports_class_each_call()
    ensures { EachIsClassed }
{}

/// A line names a call exactly where its answer is not the same; so a report without lines tells that no commit differs.
pub fn lines_name_what_differs()
    ensures named { LinesNameWhatDiffers }
    ensures none { NoLineNoWriteDivergence }
{}

/// In captured order, from the captured start and by the captured services, nothing differs, so there is no line.
pub fn captured_order_has_no_line()
    ensures { AgainIsClean }
{}

/// Where both servers have one schema, no line names a call whose session sees in the replay what it saw in the capture, but for
/// ids.
pub fn twin_calls_have_no_line()
    ensures { TwinsAreNotNamed }
{}
