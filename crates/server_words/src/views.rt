//! What a call can depend on, as values of its own.

use desk_schema::Rights;
use desk_values::{Copied, Images, List, Memory, Same, Txt, Value, Values};

/// Numbers of rows.
pub type RowIds = List<u64>;

/// A key of a table.
#[derive(Drop)]
pub struct KeyId {
    /// The number of the table.
    pub table: u32,
    /// The value of the key.
    pub key: Value,
}

impl Copied for KeyId {
    fn copy(&self) -> Result<KeyId, Memory> {
        let key = self.key.copy()?;
        Ok(KeyId {
            table: self.table,
            key,
        })
    }
}

impl Same for KeyId {
    fn same(&self, other: &KeyId) -> bool {
        self.table == other.table && self.key.same(&other.key)
    }
}

/// Keys of tables.
pub type KeyIds = List<KeyId>;

/// What a transaction had of its own at a savepoint.
#[derive(Drop)]
pub struct Point {
    /// The savepoint's name.
    pub name: Txt,
    /// The changes, ascending by row.
    pub changes: Images,
    /// The rows that were held, ascending.
    pub held_rows: RowIds,
    /// The keys that were held, by table and then as rows are sorted.
    pub held_keys: KeyIds,
}

/// Savepoints, the oldest first.
pub type Points = List<Point>;

/// What a call of a session can depend on, beside the schema and the counters: nothing else of the server changes its answer.
#[derive(Drop)]
pub struct View {
    /// The session's rights, `None` where it is not connected.
    pub rights: Option<Rights>,
    /// Whether its transaction only reads.
    pub read_only: bool,
    /// Its own changes, ascending by row.
    pub changes: Images,
    /// The rows that it holds, ascending.
    pub held_rows: RowIds,
    /// The keys that it holds, by table and then as rows are sorted.
    pub held_keys: KeyIds,
    /// Its savepoints, the oldest first.
    pub points: Points,
    /// Where the call is a statement on a table, that table's rows as the session sees them, ascending.
    pub rows: Images,
    /// Those of them that another session holds, ascending.
    pub others_rows: RowIds,
    /// The keys of that table that another session holds, as rows are sorted.
    pub others_keys: Values,
}
