//! Sessions, and what their transactions have of their own.

ghost use Rattle.std.specs.Prelude.{◌≡◌, [], IfOk, OnOk, OnErr};
ghost use Rattle.server_words.specs.State.{disconnected, nothing};

use crate::rows::Rows;
use crate::savepoints::Savepoints;
use desk_schema::Rights;
use desk_values::{Copied, List, Memory, Txt, Value};
use std::alloc::Global;

/// A session of the server.
pub struct Session {
    /// Its rights, `None` where it is not connected.
    pub rights: Option<Rights>,
    /// The commit number that its transaction reads at, `None` where it reads the latest commit.
    pub snapshot: Option<u64>,
    /// What its transaction has of its own.
    pub own: Transaction,
    /// The savepoints of its transaction.
    pub savepoints: Savepoints,
}

// Written out: a caller then drops it by one call, which keeps the caller's proof small.
impl Drop for Session {
    fn drop(self) {
        let Session {
            rights: _rights,
            snapshot: _snapshot,
            own: _own,
            savepoints: _savepoints,
        } = self;
    }
}

/// What a transaction had of its own when the savepoint was set.
pub struct Savepoint {
    /// The savepoint's name, in lower case.
    pub name: Txt,
    /// The transaction's changes, and the rows and keys that it held.
    pub own: Transaction,
}

// Written out: a caller then drops it by one call, which keeps the caller's proof small.
impl Drop for Savepoint {
    fn drop(self) {
        let Savepoint {
            name: _name,
            own: _own,
        } = self;
    }
}

/// What a transaction has of its own.
pub struct Transaction {
    /// Its changes, ascending by row.
    pub changes: Rows,
    /// The rows that it holds, in the order in which it came to hold them.
    pub rows: List<u64>,
    /// The keys that it holds, likewise.
    pub keys: List<HeldKey>,
}

// Written out: a caller then drops it by one call, which keeps the caller's proof small.
impl Drop for Transaction {
    fn drop(self) {
        let Transaction {
            changes: _changes,
            rows: _rows,
            keys: _keys,
        } = self;
    }
}

/// A key that a transaction holds.
#[derive(Drop)]
pub struct HeldKey {
    /// The number of the table.
    pub table: u32,
    /// The value of the key.
    pub key: Value,
}

impl Copied for HeldKey {
    fn copy(&self) -> Result<Self, Memory> {
        let key = self.key.copy()?;
        Ok(HeldKey {
            table: self.table,
            key,
        })
    }
}

impl Transaction {
    /// A transaction that is not under way.
    pub fn new(alloc: Global) -> Self
        ensures { result ≡ nothing }
    {
        Transaction {
            changes: Rows::new(alloc),
            rows: List::new(alloc),
            keys: List::new(alloc),
        }
    }

    /// A copy.
    pub fn copied(&self, alloc: Global) -> Result<Self, Memory>
        ensures { IfOk result (λ copy. copy ≡ self.now) }
    {
        let changes = self.changes.copied(alloc)?;
        let rows = self.rows.copy()?;
        let keys = self.keys.copy()?;
        Ok(Transaction {
            changes,
            rows,
            keys,
        })
    }
}

impl Session {
    /// A session that is not connected.
    pub fn new(alloc: Global) -> Self
        ensures { result ≡ disconnected }
    {
        Session {
            rights: None,
            snapshot: None,
            own: Transaction::new(alloc),
            savepoints: Savepoints::new(alloc),
        }
    }
}
