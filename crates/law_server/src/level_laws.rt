//! What stays at level 1 and at version 1. A call does nothing: its clause is the law.

ghost use Rattle.law_server.specs.Levels.{GreatestGoesByBytes, KeysCountWhole, LeastGoesByBytes, NewServersKnowAll};
ghost use Rattle.law_server.specs.Levels.{OldServersKnowNoSavepoint, OldServersKnowTheRest, QuotientsArePlain, TextsCompareByBytes, ValuesAreStored};

/// At level 1 each rule that has a level is the plain one: texts compare byte by byte, also for MIN and MAX, a quotient is that of
/// integers, all of a key counts, and a row keeps what it is given.
pub fn level_one_is_plain()
    ensures texts { TextsCompareByBytes }
    ensures least { LeastGoesByBytes }
    ensures greatest { GreatestGoesByBytes }
    ensures quotients { QuotientsArePlain }
    ensures keys { KeysCountWhole }
    ensures values { ValuesAreStored }
{}

/// At version 2 each text is the statement that it is read as. So it is at version 1, but that SAVEPOINT and ROLLBACK TO are none.
pub fn versions_differ_in_savepoints()
    ensures new { NewServersKnowAll }
    ensures rest { OldServersKnowTheRest }
    ensures savepoints { OldServersKnowNoSavepoint }
{}
