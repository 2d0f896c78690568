//! What statements and calls do to their session.

use crate::session::{Savepoint, Transaction};
use desk_schema::Rights;
use desk_values::{Image, List, Outcome, Reply, Values};

/// What a statement writes and holds in its table.
#[derive(Drop)]
pub struct Writing {
    /// The images that it writes.
    pub images: List<Image>,
    /// The numbers of the rows that it holds.
    pub rows: List<u64>,
    /// The keys that it holds.
    pub keys: Values,
}

/// What a statement does where no cause applies.
#[derive(Drop)]
pub struct Effect {
    /// What it answers.
    pub outcome: Outcome,
    /// The row that it makes.
    pub made: Option<u64>,
    /// What it writes and holds.
    pub writing: Writing,
}

/// What a call does to its session.
#[derive(Drop)]
pub enum Deed {
    /// The session stays as it is.
    Nothing,
    /// It is connected with these rights.
    Connects(Rights),
    /// Its transaction is dropped, and it is no longer connected.
    Disconnects,
    /// Its transaction ends, and its changes are committed.
    Commits,
    /// Its transaction is dropped.
    RollsBack,
    /// Its transaction only reads from now on.
    ReadsOnly,
    /// It writes and holds in this table.
    Writes(u32, Writing),
    /// It gets this savepoint.
    Marks(Savepoint),
    /// Its first savepoints stay, so many, and its transaction has again what it had at the last of them.
    RollsBackTo(usize, Transaction),
}

/// What a call is answered, and what it does.
#[derive(Drop)]
pub struct Decision {
    /// The reply.
    pub reply: Reply,
    /// What becomes of the session.
    pub deed: Deed,
}
