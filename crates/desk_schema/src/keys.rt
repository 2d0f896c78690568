ghost use Rattle.std.specs.Prelude.{◌≡◌, ◌==◌, if◌then◌else◌, [], IfOk, OnErr};
ghost use Rattle.desk_values.specs.Comparison.{without_trailing_spaces};
ghost use Rattle.std.specs.Bool.{OnTrue, OnFalse};
ghost use Rattle.std.specs.List.{Contains};
ghost use Rattle.desk_schema.specs.Rules.{counted, key_of};
ghost use Rattle.desk_schema.specs.Inside.Keys.{key_value, row_key, IsWith};

use desk_values::{Memory, Value, without_trailing_spaces};
use std::alloc::Global;
use std::collections::BTreeSet;
use std::marker::Model;

/// What counts of a value as the key of a row.
#[derive(PartialEq, Eq, PartialOrd, Ord, Drop)]
pub(crate) enum Key {
    Null,
    Int(i64),
    Text(Vec<u8>),
    Row(u64),
    Draw(u32, u64),
}

/// The key of a row, with its table.
#[derive(PartialEq, Eq, PartialOrd, Ord, Drop)]
pub(crate) struct RowKey {
    pub(crate) table: u32,
    pub(crate) key: Key,
}

impl Key {
    /// What counts of this value at a level.
    pub(crate) fn of(alloc: Global, level: u32, value: &Value) -> Result<Key, Memory>
        ensures { IfOk result (λ key. key_value key ≡ counted level value.now) }
    {
        match value {
            Value::Null => Ok(Key::Null),
            Value::Int(number) => Ok(Key::Int(*number)),
            Value::Text(text) => {
                let mut bytes = Vec::new(alloc);
                bytes.extend_from_slice(counted_bytes(level, text.as_str().as_bytes()))?;
                Ok(Key::Text(bytes))
            }
            Value::Row(row) => Ok(Key::Row(*row)),
            Value::Draw(sequence, number) => Ok(Key::Draw(*sequence, *number)),
        }
    }
}

/// The bytes of a text that count at a level.
fn counted_bytes(level: u32, bytes: &[u8]) -> &[u8]
    ensures { result.now ≡ (if level == 2 then without_trailing_spaces bytes.now else bytes.now) }
{
    if level == 2 {
        without_trailing_spaces(bytes)
    } else {
        bytes
    }
}

/// The key of a row of a table: what counts of its first value at a level.
pub(crate) fn row_key(
    alloc: Global,
    level: u32,
    table: u32,
    values: &[Value],
) -> Result<RowKey, Memory>
    ensures { IfOk result (λ key. row_key key ≡ (table, counted level (key_of values.now))) }
{
    let key = match values.first() {
        Some(value) => Key::of(alloc, level, value)?,
        None => Key::Null,
    };
    Ok(RowKey { table, key })
}

/// The keys of the rows of all tables. Contracts see them with their tables.
#[derive(Drop)]
pub(crate) struct KeySet {
    keys: BTreeSet<RowKey>,
}

impl Model for KeySet {
    ghost use Rattle.std.specs.Prelude.{List, ℕ, map};
    ghost use Rattle.desk_values.specs.declared.value.Value.{Value as KeyValue};

    ghost Value = { List (ℕ × KeyValue) };

    ghost use Rattle.desk_schema.specs.Rules.{key_of};
    ghost use Rattle.desk_schema.specs.Inside.Keys.{row_key};

    ghost view = { λ a. map row_key a.keys.keys };
}

impl KeySet {
    /// No keys.
    pub(crate) fn new(alloc: Global) -> KeySet
        ensures { result ≡ [] }
    {
        KeySet {
            keys: BTreeSet::new(alloc),
        }
    }

    /// Adds a key, and tells whether it is new. An `Err` changes nothing.
    pub(crate) fn insert(&mut self, key: RowKey) -> Result<bool, Memory>
        ensures added { IfOk result (λ added. OnTrue added (¬ Contains self.old (row_key key))) }
        ensures new { IfOk result (λ added. OnTrue added (IsWith self.old self.new (row_key key))) }
        ensures present { IfOk result (λ added. OnFalse added (Contains self.old (row_key key))) }
        ensures same { IfOk result (λ added. OnFalse added (self.new ≡ self.old)) }
        ensures err { OnErr result (self.new ≡ self.old) }
    {
        Ok(self.keys.insert(key)?)
    }
}
