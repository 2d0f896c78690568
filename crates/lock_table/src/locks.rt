//! Rows and keys by who holds them.

ghost use Rattle.std.specs.Prelude.{◌≡◌, ◌+◌, ◌<◌, ◌≤◌, [], ◌∷◌, ◌++◌, Bool, true, false, not, None, Some, ◌-◌, ◌^◌, ℕ, List, nat_eq, if◌then◌else◌, slice_index_or, length, vec_len, IsOk, IfOk, OnOk, OnErr};
ghost use Rattle.std.specs.List.{filter};
ghost use Rattle.std.specs.Vec.{vec_capacity};
ghost use Rattle.indexmap.specs.IndexMap.{spare};
ghost use Rattle.lock_table.specs.Holds.{another, count_of, holder_of_key, holder_of_row, is_key_of, is_of_key, is_row_of, is_text, named, with_first, with_hold};

use crate::holds::{KeyHold, LockErr, Mark};
use desk_values::{Copied, Memory, Value, same_key};
use indexmap::IndexMap;
use std::alloc::Global;
use std::marker::Model;

/// Which session holds which rows and keys. Contracts see both lists in the order of holding, the level by which keys are equal
/// as `=` compares them, and for how many rows and keys more there is room. A row or a key has one holder at most.
#[derive(Drop)]
pub struct Locks {
    level: u32,
    rows: IndexMap<u64, u32>,
    keys: Vec<KeyHold>,
}

impl Model for Locks {
    ghost use Rattle.std.specs.Prelude.{◌-◌, vec_len};
    ghost use Rattle.std.specs.Vec.{vec_capacity};
    ghost use Rattle.indexmap.specs.IndexMap.{spare};
    ghost use Rattle.lock_table.specs.Holds.{Holds};

    ghost Value = { Holds };

    ghost view = { λ a. record { level = a.level; rows = a.rows.entries; keys = a.keys.items; row_room = spare a.rows; key_room = vec_capacity a.keys - vec_len a.keys } };
}

impl Locks {
    /// Nothing is held, and there is no room. Takes no memory.
    pub fn new(alloc: Global, level: u32) -> Locks
        ensures level { result.level ≡ level }
        ensures rows { result.rows ≡ [] }
        ensures keys { result.keys ≡ [] }
    {
        Locks {
            level,
            rows: IndexMap::new(alloc),
            keys: Vec::new(alloc),
        }
    }

    /// Who holds a row. Takes no memory.
    pub fn holder_of_row(&self, row: u64) -> Option<u32>
        ensures { result ≡ holder_of_row self.now.rows row }
    {
        self.rows.get(&row).copied()
    }

    /// Who holds a key of a table. Takes no memory, and looks through the keys that are held.
    pub fn holder_of_key(&self, table: u32, key: &Value) -> Option<u32>
        ensures { result ≡ holder_of_key self.now.level self.now.keys table key.now }
    {
        holder_among(self.level, &self.keys, table, key)
    }

    /// Makes room for so many rows and keys more. Want of memory leaves the holds as they are, and no less room than there was.
    pub fn reserve(&mut self, rows: u32, keys: u32) -> Result<(), Memory>
        ensures level { self.new.level ≡ self.old.level }
        ensures rows { self.new.rows ≡ self.old.rows }
        ensures keys { self.new.keys ≡ self.old.keys }
        ensures row_room { self.old.row_room ≤ self.new.row_room }
        ensures key_room { self.old.key_room ≤ self.new.key_room }
        ensures ok_rows { OnOk result (rows ≤ self.new.row_room) }
        ensures ok_keys { OnOk result (keys ≤ self.new.key_room) }
    {
        self.rows.reserve(rows as usize)?;
        self.keys.reserve(keys as usize)?;
        Ok(())
    }

    /// The session holds a row from now on. `Held` with the holder where another session holds it; where the session does
    /// already, nothing is added. An `Err` changes no hold and spends no room. Where there is room for a row, memory is not wanting.
    pub fn hold_row(&mut self, session: u32, row: u64) -> Result<(), LockErr>
        ensures held { named result ≡ another session (holder_of_row self.old.rows row) }
        ensures ok { OnOk result (self.new.rows ≡ with_hold (holder_of_row self.old.rows row) self.old.rows (row, session)) }
        ensures err { OnErr result (self.new.rows ≡ self.old.rows) }
        ensures level { self.new.level ≡ self.old.level }
        ensures keys { self.new.keys ≡ self.old.keys }
        ensures key_room { self.new.key_room ≡ self.old.key_room }
        ensures row_room { self.old.row_room ≤ self.new.row_room + 1 }
        ensures refused { OnErr result (self.old.row_room ≤ self.new.row_room) }
        ensures succeeds { 0 < self.old.row_room → another session (holder_of_row self.old.rows row) ≡ None → IsOk result }
    {
        match self.holder_of_row(row) {
            None => {
                add(&mut self.rows, row, session)?;
                Ok(())
            }
            Some(holder) => beside(session, holder),
        }
    }

    /// The session holds a key of a table from now on. `Held` with the holder where another session holds it; where the session
    /// does already, nothing is added. An `Err` changes no hold and spends no room. Where there is room for a key, memory is not
    /// wanting but for the copy of a text.
    pub fn hold_key(&mut self, session: u32, table: u32, key: &Value) -> Result<(), LockErr>
        ensures held { named result ≡ another session (holder_of_key self.old.level self.old.keys table key.now) }
        ensures ok { OnOk result (self.new.keys ≡ with_hold (holder_of_key self.old.level self.old.keys table key.now) self.old.keys (record { session = session; table = table; key = key.now })) }
        ensures err { OnErr result (self.new.keys ≡ self.old.keys) }
        ensures level { self.new.level ≡ self.old.level }
        ensures rows { self.new.rows ≡ self.old.rows }
        ensures row_room { self.new.row_room ≡ self.old.row_room }
        ensures key_room { self.old.key_room ≤ self.new.key_room + 1 }
        ensures refused { OnErr result (self.old.key_room ≤ self.new.key_room) }
        ensures succeeds { 0 < self.old.key_room → is_text key.now ≡ false → another session (holder_of_key self.old.level self.old.keys table key.now) ≡ None → IsOk result }
    {
        match self.holder_of_key(table, key) {
            None => {
                let key = key_copy(key)?;
                let hold = KeyHold {
                    session,
                    table,
                    key,
                };
                push(&mut self.keys, hold)?;
                Ok(())
            }
            Some(holder) => beside(session, holder),
        }
    }

    /// The session holds nothing any more. Takes no memory.
    pub fn free(&mut self, session: u32)
        ensures rows { self.new.rows ≡ filter (λ hold. not (is_row_of session hold)) self.old.rows }
        ensures keys { self.new.keys ≡ filter (λ hold. not (is_key_of session hold)) self.old.keys }
        ensures level { self.new.level ≡ self.old.level }
        ensures row_room { self.old.row_room ≤ self.new.row_room }
        ensures key_room { self.old.key_room ≤ self.new.key_room }
    {
        free_rows(&mut self.rows, session);
        free_keys(&mut self.keys, session);
    }

    /// How much the session holds. Takes no memory.
    pub fn mark(&self, session: u32) -> Mark
        ensures rows { length self.now.rows < 2 ^ 32 → result.rows ≡ count_of (is_row_of session) self.now.rows }
        ensures keys { length self.now.keys < 2 ^ 32 → result.keys ≡ count_of (is_key_of session) self.now.keys }
    {
        Mark {
            rows: count_rows(&self.rows, session),
            keys: count_keys(&self.keys, session),
        }
    }

    /// The session keeps its first rows and its first keys, as many as the mark says, and all where it has no more. Takes no
    /// memory.
    pub fn free_since(&mut self, session: u32, mark: Mark)
        ensures rows { self.new.rows ≡ with_first (is_row_of session) mark.rows self.old.rows }
        ensures keys { self.new.keys ≡ with_first (is_key_of session) mark.keys self.old.keys }
        ensures level { self.new.level ≡ self.old.level }
        ensures row_room { self.old.row_room ≤ self.new.row_room }
        ensures key_room { self.old.key_room ≤ self.new.key_room }
    {
        keep_rows(&mut self.rows, session, mark.rows);
        keep_keys(&mut self.keys, session, mark.keys);
    }
}

// What a session is told of a holder: that it holds already, or who does.
fn beside(session: u32, holder: u32) -> Result<(), LockErr>
    ensures held { named result ≡ another session (Some holder) }
    ensures ok { another session (Some holder) ≡ None → IsOk result }
{
    if holder == session {
        Ok(())
    } else {
        Err(LockErr::Held(holder))
    }
}

// Adds a row that nobody holds. An `Err` changes nothing and spends no room, and does not come where there is room.
fn add(holds: &mut IndexMap<u64, u32>, row: u64, session: u32) -> Result<(), Memory>
    requires { holder_of_row holds.old.entries row ≡ None }
    ensures ok { OnOk result (holds.new.entries ≡ holds.old.entries ++ (row, session) ∷ []) }
    ensures err { OnErr result (holds.new.entries ≡ holds.old.entries) }
    ensures room { spare holds.old ≤ spare holds.new + 1 }
    ensures refused { OnErr result (spare holds.old ≤ spare holds.new) }
    ensures succeeds { 0 < spare holds.old → IsOk result }
{
    holds.reserve(1)?;
    add_within(holds, row, session);
    Ok(())
}

// Adds a row that nobody holds, where there is room for it.
fn add_within(holds: &mut IndexMap<u64, u32>, row: u64, session: u32)
    requires free { holder_of_row holds.old.entries row ≡ None }
    requires room { 0 < spare holds.old }
    ensures entries { holds.new.entries ≡ holds.old.entries ++ (row, session) ∷ [] }
    ensures room { spare holds.old ≤ spare holds.new + 1 }
{
    holds.insert(row, session).unwrap();
}

// Adds a hold. An `Err` changes nothing and spends no room, and does not come where there is room.
fn push(holds: &mut Vec<KeyHold>, hold: KeyHold) -> Result<(), Memory>
    ensures ok { OnOk result (holds.new.items ≡ holds.old.items ++ hold ∷ []) }
    ensures err { OnErr result (holds.new.items ≡ holds.old.items) }
    ensures room { vec_capacity holds.old - vec_len holds.old ≤ vec_capacity holds.new - vec_len holds.new + 1 }
    ensures refused { OnErr result (vec_capacity holds.old - vec_len holds.old ≤ vec_capacity holds.new - vec_len holds.new) }
    ensures succeeds { vec_len holds.old < vec_capacity holds.old → IsOk result }
{
    holds.push(hold)?;
    Ok(())
}

// A copy of a key. Only that of a text takes memory.
fn key_copy(key: &Value) -> Result<Value, Memory>
    ensures value { IfOk result (λ copy. copy ≡ key.now) }
    ensures succeeds { is_text key.now ≡ false → IsOk result }
{
    match key {
        Value::Text(text) => Ok(Value::Text(text.copy()?)),
        Value::Null => Ok(Value::Null),
        Value::Int(number) => Ok(Value::Int(*number)),
        Value::Row(row) => Ok(Value::Row(*row)),
        Value::Draw(sequence, drawn) => Ok(Value::Draw(*sequence, *drawn)),
    }
}

fn holder_among(level: u32, holds: &[KeyHold], table: u32, key: &Value) -> Option<u32>
    ensures { result ≡ holder_of_key level holds.now table key.now }
{
    for hold in holds {
        if is_of_key(level, table, key, hold) {
            return Some(hold.session);
        }
    }
    None
}

fn is_of_key(level: u32, table: u32, key: &Value, hold: &KeyHold) -> bool
    ensures { result ≡ is_of_key level table key.now hold.now }
{
    hold.table == table && same_key(level, &hold.key, key)
}

fn free_rows(holds: &mut IndexMap<u64, u32>, session: u32)
    ensures rows { holds.new.entries ≡ filter (λ hold. not (is_row_of session hold)) holds.old.entries }
    ensures room { spare holds.old ≤ spare holds.new }
{
    holds.retain(
        |_row: &u64, holder: &mut u32| -> bool
            ensures { (result ≡ not (nat_eq holder.old session)) × (holder.new ≡ holder.old) }
        { *holder != session },
    );
}

fn free_keys(holds: &mut Vec<KeyHold>, session: u32)
    ensures keys { holds.new.items ≡ filter (λ hold. not (is_key_of session hold)) holds.old.items }
    ensures len { vec_len holds.new ≤ vec_len holds.old }
    ensures room { vec_capacity holds.new ≡ vec_capacity holds.old }
{
    holds.retain(|hold| hold.session != session);
}

// One more, if it counts.
fn with_one(count: u32, counts: bool) -> u32
    ensures value { count + 1 < 2 ^ 32 → result ≡ (if counts then count + 1 else count) }
    ensures most { result ≤ count + 1 }
{
    if counts {
        count.saturating_add(1)
    } else {
        count
    }
}

// Who holds the row at a place.
fn holder_at(holds: &IndexMap<u64, u32>, at: usize) -> u32
    requires { at < length holds.now.entries }
    ensures { result ≡ (slice_index_or holds.now.entries at (0, 0)).1 }
{
    let (_, holder) = holds.get_index(at).unwrap();
    *holder
}

fn count_rows(holds: &IndexMap<u64, u32>, session: u32) -> u32
    ensures { length holds.now.entries < 2 ^ 32 → result ≡ count_of (is_row_of session) holds.now.entries }
{
    let mut count: u32 = 0;
    for at in 0..holds.len() {
        count = with_one(count, holder_at(holds, at) == session);
    }
    count
}

fn count_keys(holds: &[KeyHold], session: u32) -> u32
    ensures { length holds.now < 2 ^ 32 → result ≡ count_of (is_key_of session) holds.now }
{
    let mut count: u32 = 0;
    for hold in holds {
        count = with_one(count, hold.session == session);
    }
    count
}

// The session keeps its first so many rows.
#[tactic(auto, using(crate::proofs::Holding::take_own))]
fn keep_rows(holds: &mut IndexMap<u64, u32>, session: u32, most: u32)
    ensures rows { holds.new.entries ≡ with_first (is_row_of session) most holds.old.entries }
    ensures room { spare holds.old ≤ spare holds.new }
{
    let mut at = 0;
    let mut left = most;
    while at < holds.len() {
        if holder_at(holds, at) != session {
            at += 1;
        } else if left > 0 {
            left -= 1;
            at += 1;
        } else {
            holds.shift_remove_index(at);
        }
    }
}

// The session keeps its first so many keys.
fn keep_keys(holds: &mut Vec<KeyHold>, session: u32, most: u32)
    ensures keys { holds.new.items ≡ with_first (is_key_of session) most holds.old.items }
    ensures len { vec_len holds.new ≤ vec_len holds.old }
    ensures room { vec_capacity holds.new ≡ vec_capacity holds.old }
{
    let mut at = 0;
    let mut left = most;
    while at < holds.len() {
        if holds[at].session != session {
            at += 1;
        } else if left > 0 {
            left -= 1;
            at += 1;
        } else {
            holds.remove(at);
        }
    }
}
