//! What the commits of a server wrote to a table, of which nothing is let go.

ghost use Rattle.std.specs.Prelude.{◌≡◌, ◌≤◌, All, [], ◌∷◌, ◌++◌, OnErr, OnOk};
ghost use Rattle.std.specs.Option.{option_copied};
ghost use Rattle.twin_tables.specs.Ledger.{NumbersRise, changes_of, nothing_written, told};

use desk_values::{Image, Memory};
use row_versions::Versions;
use std::alloc::Global;
use std::marker::Model;

/// That a commit wrote a row.
#[derive(Clone, Copy, Debug, PartialEq, Eq)]
pub struct Change {
    /// The number of the commit.
    pub number: u64,
    /// The number of the row.
    pub row: u64,
}

/// What commits wrote to a table. Contracts see the images in the order of writing, each with the number of its commit.
#[derive(Drop)]
pub struct Ledger {
    versions: Versions,
    changes: Vec<Change>,
}

impl Model for Ledger {
    ghost use Rattle.std.specs.Prelude.{◌≡◌};
    ghost use Rattle.row_versions.specs.History.{History};
    ghost use Rattle.twin_tables.specs.Ledger.{NumbersRise, changes_of};

    ghost Value = { History };

    ghost view = { λ a. a.versions };

    ghost invariant = { λ a. (a.changes.items ≡ changes_of a.versions.list) × NumbersRise 0 a.versions.list };
}

impl Ledger {
    /// Nothing was written. Takes no memory.
    pub fn new(alloc: Global) -> Ledger
        ensures { result ≡ nothing_written }
    {
        Ledger {
            versions: Versions::new(alloc),
            changes: Vec::new(alloc),
        }
    }

    /// Adds the image that a commit wrote, which has no lower number than any before it.
    pub fn put(&mut self, number: u64, image: Image) -> Result<(), Memory>
        requires { All (λ written. written.number ≤ number) self.old.list }
        ensures list { OnOk result (self.new.list ≡ self.old.list ++ record { number = number; image = image } ∷ []) }
        ensures err { OnErr result (self.new.list ≡ self.old.list) }
        ensures floor { self.new.floor ≡ self.old.floor }
    {
        let row = image.row;
        self.changes.reserve(1)?;
        self.versions.put(number, image)?;
        self.changes.push(Change { number, row }).unwrap();
        Ok(())
    }

    /// The row's image at a commit, where it was not gone by then.
    pub fn row_at(&self, row: u64, number: u64) -> Option<&Image>
        requires { self.now.floor ≤ number }
        ensures { option_copied result ≡ told self.now.list number row }
    {
        match self.versions.row_at(row, number) {
            Some(image) if image.left.is_some() => Some(image),
            _ => None,
        }
    }

    /// Which rows were written, in the order of writing, and by which commits. Their numbers do not fall.
    pub fn changes(&self) -> &[Change]
        ensures changes { result.now ≡ changes_of self.now.list }
        ensures rise { NumbersRise 0 self.now.list }
    {
        self.changes.as_slice()
    }

    /// The numbers of the commits do not fall. It does nothing: its contract is a law.
    pub fn know_rise(&self)
        ensures { NumbersRise 0 self.now.list }
    {
        let _changes = &self.changes;
    }
}
