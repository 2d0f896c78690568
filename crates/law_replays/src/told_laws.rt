//! The law of told ids. The call does nothing: its clause is the law.

ghost use Rattle.law_replays.specs.Told.Laws.{StepsTellOwnIds};

/// A step tells and keeps only ids of the rows that were there, of the call's binds, and of what its reply gives.
pub fn steps_tell_given_ids()
    ensures { StepsTellOwnIds }
{}
