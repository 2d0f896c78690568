//! Shelves of keys by their prints.

ghost use Rattle.std.specs.Prelude.{◌≡◌, ℕ, [], nat_eq, if◌then◌else◌, OnOk, OnErr};
ghost use Rattle.same_keys.specs.Print.{print_of};
ghost use Rattle.key_index.specs.Inside.Shelves.{IsInOrder, dropped, noted, rows_in, shelf_at};

use crate::shelf::Shelf;
use desk_values::{Memory, Value};
use same_keys::print_of;
use std::alloc::Global;
use std::collections::BTreeMap;
use std::marker::Model;

/// A shelf for each print that keys have.
#[derive(Drop)]
pub struct Stock {
    alloc: Global,
    shelves: BTreeMap<u64, Shelf>,
}

impl Model for Stock {
    ghost use Rattle.std.specs.Prelude.{List, ℕ};
    ghost use Rattle.key_index.specs.declared.shelf.Group.{Group as AnyGroup};

    ghost Value = { List (ℕ × List AnyGroup) };

    ghost view = { λ a. a.shelves.entries };
}

impl Stock {
    /// No shelf.
    pub fn new(alloc: Global) -> Stock
        ensures shelves { result ≡ [] }
        ensures order { IsInOrder result }
    {
        Stock {
            alloc,
            shelves: BTreeMap::new(alloc),
        }
    }

    /// The rows of a key.
    pub fn rows(&self, level: u32, table: u32, key: &Value) -> &[u64]
        ensures { result.now ≡ rows_in level table key.now (shelf_at self.now (print_of key.now)) }
    {
        match self.shelves.get(&print_of(key)) {
            Some(shelf) => shelf.rows(level, table, key),
            None => &[],
        }
    }

    /// Notes a row of a key. An `Err` changes nothing.
    pub fn note(&mut self, level: u32, table: u32, key: &Value, row: u64) -> Result<(), Memory>
        ensures ok { OnOk result ((print : ℕ) → shelf_at self.new print ≡ (if nat_eq (print_of key.now) print then noted level table key.now row (shelf_at self.old print) else shelf_at self.old print)) }
        ensures err { OnErr result (self.new ≡ self.old) }
        ensures order { IsInOrder self.new }
    {
        let print = print_of(key);
        match self.shelves.get_mut(&print) {
            Some(shelf) => shelf.note(self.alloc, level, table, key, row),
            None => {
                let mut shelf = Shelf::new(self.alloc);
                shelf.note(self.alloc, level, table, key, row)?;
                self.shelves.insert(print, shelf)?;
                Ok(())
            }
        }
    }

    /// Takes a row of a key out, where it is there.
    pub fn drop_row(&mut self, level: u32, table: u32, key: &Value, row: u64)
        ensures shelves { (print : ℕ) → shelf_at self.new print ≡ (if nat_eq (print_of key.now) print then dropped level table key.now row (shelf_at self.old print) else shelf_at self.old print) }
        ensures order { IsInOrder self.new }
    {
        if let Some(shelf) = self.shelves.get_mut(&print_of(key)) {
            shelf.drop_row(level, table, key, row);
        }
    }
}
