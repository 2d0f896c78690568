//! Rows by their keys.

ghost use Rattle.std.specs.Prelude.{◌≡◌, ℕ, [], if◌then◌else◌, OnOk, OnErr};
ghost use Rattle.desk_values.specs.declared.value.Value.{Value as AnyValue};
ghost use Rattle.key_index.specs.Triples.{RisesFrom, is_one, rows_of, with_number, without_number};

use crate::stock::Stock;
use desk_values::{Memory, Value};
use std::alloc::Global;
use std::marker::Model;

/// Which rows have a key of a table. Contracts see triples of a table, a key and a row, and the level by which keys are equal as
/// `=` compares them: at level 2 without the spaces at their ends. A Null is the key of nothing.
#[derive(Drop)]
pub struct Keys {
    level: u32,
    stock: Stock,
}

impl Model for Keys {
    ghost use Rattle.key_index.specs.Triples.{Index, triples_of};
    ghost use Rattle.key_index.specs.Inside.Shelves.{AreShelves};

    ghost Value = { Index };

    ghost view = { λ a. record { level = a.level; triples = triples_of a.stock } };

    ghost invariant = { λ a. AreShelves a.level a.stock };
}

impl Keys {
    /// No triple. Takes no memory.
    pub fn new(alloc: Global, level: u32) -> Keys
        ensures level { result.level ≡ level }
        ensures triples { result.triples ≡ [] }
    {
        Keys {
            level,
            stock: Stock::new(alloc),
        }
    }

    /// The rows of a key, ascending. Takes no memory, and time that grows with the logarithm of how many keys there are.
    pub fn find(&self, table: u32, key: &Value) -> &[u64]
        ensures rows { result.now ≡ rows_of self.now.level self.now.triples table key.now }
        ensures ascend { RisesFrom 0 result.now }
    {
        self.stock.rows(self.level, table, key)
    }

    /// Adds a triple: the row is one of its key's from now on, and each other key has the rows that it had. A triple that is
    /// there, and one whose key is a Null, adds nothing. Want of memory changes nothing.
    pub fn note(&mut self, table: u32, key: &Value, row: u64) -> Result<(), Memory>
        ensures ok { OnOk result ((other : ℕ) (k : AnyValue) → rows_of self.new.level self.new.triples other k ≡ (if is_one self.old.level table key.now other k then with_number row (rows_of self.old.level self.old.triples other k) else rows_of self.old.level self.old.triples other k)) }
        ensures err { OnErr result (self.new.triples ≡ self.old.triples) }
        ensures level { self.new.level ≡ self.old.level }
    {
        if let Value::Null = key {
            return Ok(());
        }
        self.stock.note(self.level, table, key, row)?;
        Ok(())
    }

    /// Takes a triple out: the row is none of its key's from now on, and each other key has the rows that it had. One that is
    /// not there changes nothing. Takes no memory.
    pub fn drop_pair(&mut self, table: u32, key: &Value, row: u64)
        ensures rows { (other : ℕ) (k : AnyValue) → rows_of self.new.level self.new.triples other k ≡ (if is_one self.old.level table key.now other k then without_number row (rows_of self.old.level self.old.triples other k) else rows_of self.old.level self.old.triples other k) }
        ensures level { self.new.level ≡ self.old.level }
    {
        self.stock.drop_row(self.level, table, key, row);
    }
}
