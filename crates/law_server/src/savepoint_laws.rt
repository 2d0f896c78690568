//! What reads a session's savepoints. A call does nothing: its clause is the law.

ghost use Rattle.law_server.specs.Marks.{OthersReadNoSavepoint};

/// What a call is answered that is neither SAVEPOINT nor ROLLBACK TO, and what it leaves, is the same whatever savepoints the
/// session has, but that it has some or none. It leaves them as they are, or drops all of them.
pub fn others_read_no_savepoint()
    ensures { OthersReadNoSavepoint }
{}
