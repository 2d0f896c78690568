//! Laws of rows and keys in each state that the server comes to: nothing is held by two sessions, and no key stands twice.
//!
//! Enters and leaves nothing, and touches nothing: its calls are laws over the definitions of `server_words`. What it is to hold
//! and to see are words of `law_steps`, and what keys that differ are is what `desk_schema` says of a start. A law is a call that
//! does nothing, whose contract is the law. Each speaks of any calls from a start that keeps the rules, as each `Start` of
//! `desk_schema` does, so each that was read.
#![tactic(auto)]

ghost use Rattle.law_keys.specs.Keys.{AfterAnyCalls, CommittedKeysDiffer, HoldKeysAlone, HoldRowsAlone, HoldTheKeysTheyGive};
ghost use Rattle.law_keys.specs.Keys.{HoldWhatTheyChange, KeysAreThere, ReadersHaveNothing, ReadersSeeTables};
ghost use Rattle.law_keys.specs.Keys.{SavepointsHoldNoMore, SeenKeysDiffer, SeesTables};

/// Whatever calls came before, no row and no key is held by two sessions.
pub fn nothing_is_held_twice()
    ensures rows { AfterAnyCalls HoldRowsAlone }
    ensures keys { AfterAnyCalls HoldKeysAlone }
{}

/// Whatever calls came before, going back to a savepoint gives a session nothing to hold that it does not hold already.
pub fn savepoints_hold_no_more()
    ensures { AfterAnyCalls SavepointsHoldNoMore }
{}

/// Whatever calls came before, a session holds each row that it changes, and each key that it gives a row and that the row had
/// not; a transaction that only reads has changed nothing and holds nothing; and what a session sees of a table are the rows of
/// that table, its own changes over those that it reads. So a transaction that only reads sees each table as it was at the
/// number of commits that it reads at.
pub fn changes_are_held_and_seen()
    ensures held { AfterAnyCalls HoldWhatTheyChange }
    ensures given { AfterAnyCalls HoldTheKeysTheyGive }
    ensures readers { AfterAnyCalls ReadersHaveNothing }
    ensures seen { AfterAnyCalls SeesTables }
    ensures moments { AfterAnyCalls ReadersSeeTables }
{}

/// Whatever calls came before, no key stands twice in a table: neither after any number of commits, nor as a session sees it.
/// And each row has a key that is not Null, which would be one with no other.
pub fn no_key_stands_twice()
    ensures committed { AfterAnyCalls CommittedKeysDiffer }
    ensures seen { AfterAnyCalls SeenKeysDiffer }
    ensures there { AfterAnyCalls KeysAreThere }
{}
