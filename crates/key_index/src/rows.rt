//! Numbers of rows, ascending.

ghost use Rattle.std.specs.Prelude.{◌≡◌, ◌<◌, ◌≤◌, ◌∷◌, [], true, length, slice_get, IfOk, OnOk, OnErr};
ghost use Rattle.key_index.specs.Inside.Shelves.{is_number, place};
ghost use Rattle.key_index.specs.Triples.{with_number, without_number};

use desk_values::Memory;
use std::alloc::Global;
use std::marker::Model;

/// Numbers of rows, ascending. Contracts see the list.
#[derive(Drop)]
pub struct RowNumbers {
    rows: Vec<u64>,
}

impl Model for RowNumbers {
    ghost use Rattle.std.specs.Prelude.{List, ℕ};

    ghost Value = { List ℕ };

    ghost view = { λ a. a.rows.items };
}

impl RowNumbers {
    /// One row.
    pub fn of(alloc: Global, row: u64) -> Result<RowNumbers, Memory>
        ensures { IfOk result (λ rows. rows ≡ row ∷ []) }
    {
        let mut rows = Vec::new(alloc);
        rows.push(row)?;
        Ok(RowNumbers { rows })
    }

    /// The rows in order.
    pub fn as_slice(&self) -> &[u64]
        ensures { result.now ≡ self.now }
    {
        self.rows.as_slice()
    }

    #[tactic(auto, using(crate::proofs::Placing::there, crate::proofs::Placing::elsewhere))]
    /// Adds a row, where it is not there. An `Err` changes nothing.
    pub fn add(&mut self, row: u64) -> Result<(), Memory>
        ensures ok { OnOk result (self.new ≡ with_number row self.old) }
        ensures err { OnErr result (self.new ≡ self.old) }
    {
        let at = place_of(&self.rows, row);
        if is_at(&self.rows, at, row) {
            return Ok(());
        }
        self.rows.insert(at, row)?;
        Ok(())
    }

    #[tactic(auto, using(crate::proofs::Placing::there_out, crate::proofs::Placing::elsewhere_out))]
    /// Takes a row out, where it is there.
    pub fn take_out(&mut self, row: u64)
        ensures { self.new ≡ without_number row self.old }
    {
        let at = place_of(&self.rows, row);
        if is_at(&self.rows, at, row) {
            self.rows.remove(at);
        }
    }
}

/// Whether the row stands at this place.
fn is_at(rows: &[u64], at: usize, row: u64) -> bool
    ensures is { result ≡ is_number row (slice_get rows.now at) }
    ensures within { result ≡ true → at < length rows.now }
{
    match rows.get(at) {
        Some(number) => *number == row,
        None => false,
    }
}

/// How many rows stand in front.
fn place_of(rows: &[u64], row: u64) -> usize
    ensures place { result ≡ place row rows.now }
    ensures within { result ≤ length rows.now }
{
    let mut at = 0;
    while at < rows.len() && rows[at] < row {
        at += 1;
    }
    at
}
