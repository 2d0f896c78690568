//! The laws of the server's steps: what a refused call leaves, what a step leaves of the other sessions, what a transaction that
//! only reads sees, what a session holds and that others are refused it, and that rows keep the rules of their columns.
//!
//! Enters and leaves nothing, and touches nothing: its calls are laws over the definitions of `server_words`. A law is a call
//! that does nothing, whose contract is the law.
#![tactic(auto)]

ghost use Rattle.law_steps.specs.Fits.{OpeningsFit, RunsFit, SeenRowsFill, SeenRowsHaveKinds, StepsKeepFit, TablesFill};
ghost use Rattle.law_steps.specs.Held.{HeldKeysAreNotInserted, HeldKeysAreNotSet, HeldRowsAreRefused, LockedMeansHeld};
ghost use Rattle.law_steps.specs.Holding.{EndedSessionsHoldNothing, HoldsStay, InsertedRowsAreHeld, MovedKeysAreHeld};
ghost use Rattle.law_steps.specs.Holding.{NoOtherKeyIsHeld, NoOtherRowIsHeld, TakenRowsAreHeld};
ghost use Rattle.law_steps.specs.Leaving.{OthersAreLeft, OthersAreLeftByRuns, RefusedLeaves, RunsAdd, StepsAdd};
ghost use Rattle.law_steps.specs.Marks.{GoingBackRestores, OldServersHaveNoSavepoint, OthersLeaveSavepoints, SavepointNamesDiffer};
ghost use Rattle.law_steps.specs.Marks.{SavepointsKeep, SavepointsLeaveTheRest, SavepointsStay, StretchesAreUndone};
ghost use Rattle.law_steps.specs.Reading.{MarkedSessionsRead, OnlyMarkedSessionsRead, ReadersAreAnsweredTheSame, ReadersAreLeft};
ghost use Rattle.law_steps.specs.Reading.{ReadersSeeTheSame, SnapshotsAreWithin};

/// A refused call leaves the state as it was, but that what it drew is drawn.
pub fn refused_leaves()
    ensures { RefusedLeaves }
{}

/// A step leaves the other sessions as they were: their rights, what they read at, and their changes, rows and keys. So do the
/// calls of a run.
pub fn others_are_left()
    ensures step { OthersAreLeft }
    ensures run { OthersAreLeftByRuns }
{}

/// A step, and a run, only adds: the start stays, the commits stay in front of new ones, and no number falls.
pub fn steps_only_add()
    ensures step { StepsAdd }
    ensures run { RunsAdd }
{}

/// A transaction only reads from the call on that is answered so, and no other begins to: it reads at the last commit there is.
/// It sees the same rows of each table as long as it goes on, also where it goes back to a savepoint, whatever the calls do: its
/// session is left as it was but for savepoints, and each SELECT that locks no row is answered the same. In each state that the
/// server comes to, a session that reads so is connected, reads at a commit that there is, and has what it had at its savepoints.
pub fn reads_stay()
    ensures begins { MarkedSessionsRead }
    ensures only { OnlyMarkedSessionsRead }
    ensures within { SnapshotsAreWithin }
    ensures session { ReadersAreLeft }
    ensures rows { ReadersSeeTheSame }
    ensures replies { ReadersAreAnsweredTheSame }
{}

/// A statement that would lock, change or delete a row that another session holds is refused as locked, or for a fault that
/// is told before. So is one that would give a row a key that another session holds. Refused as locked is nothing else.
pub fn held_is_refused()
    ensures rows { HeldRowsAreRefused }
    ensures inserted { HeldKeysAreNotInserted }
    ensures set { HeldKeysAreNotSet }
    ensures only { LockedMeansHeld }
{}

/// A session holds the rows that its statements lock, change, delete or insert, and the keys that they give and take, unless a
/// statement is refused, and no others, but where it goes back to a savepoint those that it held there. It holds them as long as
/// its transaction goes on and does not go back, and once that has ended it holds nothing.
pub fn holds_last()
    ensures taken { TakenRowsAreHeld }
    ensures inserted { InsertedRowsAreHeld }
    ensures keys { MovedKeysAreHeld }
    ensures rows_only { NoOtherRowIsHeld }
    ensures keys_only { NoOtherKeyIsHeld }
    ensures stay { HoldsStay }
    ensures ended { EndedSessionsHoldNothing }
{}

/// A savepoint keeps what its session has of its own: changes, rows and keys that it holds. It stays so until it is dropped, and
/// going back to it gives the session just that again, whatever was done since. Other statements leave the savepoints, unless
/// they end the transaction. Of a session nothing else changes, and of the other sessions and of what is committed nothing; what
/// was drawn and made since stays so.
pub fn savepoints_keep()
    ensures kept { SavepointsKeep }
    ensures restored { GoingBackRestores }
    ensures stay { SavepointsStay }
    ensures left { OthersLeaveSavepoints }
    ensures rest { SavepointsLeaveTheRest }
{}

/// From a SAVEPOINT on to the ROLLBACK TO that goes back to it: whatever was done on the way, that is not refused, and the session
/// is again what the SAVEPOINT left.
pub fn stretches_are_undone()
    ensures { StretchesAreUndone }
{}

/// No session has two savepoints of one name, and at version 1 none has any.
pub fn savepoint_names_differ()
    ensures names { SavepointNamesDiffer }
    ensures old { OldServersHaveNoSavepoint }
{}

/// In every state that the server comes to from a start file, each row and each change has as many values as its table has
/// columns, and each value is one that its column takes: of its kind, within its range or its length, and Null only where
/// that may be. So the laws on the kinds of expressions hold for each row that a session sees.
pub fn rows_fit()
    ensures opening { OpeningsFit }
    ensures step { StepsKeepFit }
    ensures run { RunsFit }
    ensures tables { TablesFill }
    ensures seen { SeenRowsFill }
    ensures kinds { SeenRowsHaveKinds }
{}
