//! The keys of one print, with their rows.

ghost use Rattle.std.specs.Prelude.{◌≡◌, [], IfOk, OnOk, OnErr};
ghost use Rattle.key_index.specs.Inside.Shelves.{dropped, is_of_key, noted, position_of, rows_in};

use crate::rows::RowNumbers;
use desk_values::{Copied, Memory, Value, same_key};
use std::alloc::Global;
use std::marker::Model;

/// The rows of a key of a table.
#[derive(Drop)]
pub struct Group {
    table: u32,
    key: Value,
    rows: RowNumbers,
}

/// The keys of one print.
#[derive(Drop)]
pub struct Shelf {
    groups: Vec<Group>,
}

impl Model for Shelf {
    ghost use Rattle.std.specs.Prelude.{List};
    ghost use Rattle.key_index.specs.declared.shelf.Group.{Group as AnyGroup};

    ghost Value = { List AnyGroup };

    ghost view = { λ a. a.groups.items };
}

impl Shelf {
    /// An empty one.
    pub fn new(alloc: Global) -> Shelf
        ensures { result ≡ [] }
    {
        Shelf {
            groups: Vec::new(alloc),
        }
    }

    /// The rows of a key.
    pub fn rows(&self, level: u32, table: u32, key: &Value) -> &[u64]
        ensures { result.now ≡ rows_in level table key.now self.now }
    {
        rows_among(&self.groups, level, table, key)
    }

    #[tactic(auto, using(crate::proofs::Placing::of_key, crate::proofs::Placing::of_none))]
    /// Notes a row of a key. An `Err` changes nothing.
    pub fn note(
        &mut self,
        alloc: Global,
        level: u32,
        table: u32,
        key: &Value,
        row: u64,
    ) -> Result<(), Memory>
        ensures ok { OnOk result (self.new ≡ noted level table key.now row self.old) }
        ensures err { OnErr result (self.new ≡ self.old) }
    {
        let at = place_among(&self.groups, level, table, key);
        if at < self.groups.len() {
            return self.groups[at].rows.add(row);
        }
        let key = key.copy()?;
        let rows = RowNumbers::of(alloc, row)?;
        self.groups.push(Group { table, key, rows })?;
        Ok(())
    }

    #[tactic(auto, using(crate::proofs::Placing::of_key_out, crate::proofs::Placing::of_none_out))]
    /// Takes a row of a key out, where it is there.
    pub fn drop_row(&mut self, level: u32, table: u32, key: &Value, row: u64)
        ensures { self.new ≡ dropped level table key.now row self.old }
    {
        let at = place_among(&self.groups, level, table, key);
        if at < self.groups.len() {
            self.groups[at].rows.take_out(row);
        }
    }
}

fn is_of_key(group: &Group, level: u32, table: u32, key: &Value) -> bool
    ensures { result ≡ is_of_key level table key.now group.now }
{
    group.table == table && same_key(level, &group.key, key)
}

fn rows_among<'a>(groups: &'a [Group], level: u32, table: u32, key: &Value) -> &'a [u64]
    ensures { result.now ≡ rows_in level table key.now groups.now }
{
    for group in groups {
        if is_of_key(group, level, table, key) {
            return group.rows.as_slice();
        }
    }
    &[]
}

/// How many groups stand in front of the key's.
fn place_among(groups: &[Group], level: u32, table: u32, key: &Value) -> usize
    ensures { result ≡ position_of level table key.now groups.now }
{
    let mut at = 0;
    while at < groups.len() && !is_of_key(&groups[at], level, table, key) {
        at += 1;
    }
    at
}
