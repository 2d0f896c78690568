//! Where keys stand: of each table the committed rows by their keys, so that a statement need not look at every row.

ghost use Rattle.std.specs.Prelude.{◌≡◌, ◌∷◌, [], ℕ, List, Some, IfOk, nat_eq};
ghost use Rattle.std.specs.Bool.{OnTrue};
ghost use Rattle.std.specs.HashMap.{get};
ghost use Rattle.std.specs.Option.{option_copied};
ghost use Rattle.desk_values.specs.declared.value.Image.{Image as AnyImage};
ghost use Rattle.row_versions.specs.History.{History};
ghost use Rattle.server_words.specs.Rows.{row_key};
ghost use Rattle.server_words.specs.Step.{committed_in};
ghost use Rattle.same_keys.specs.Print.{print_of};
ghost use Rattle.machine_stores.specs.Index.{AreIndexes, HasRows, row_under};
ghost use Rattle.machine_stores.specs.Inside.Index.{has_print, is_others};
ghost use Rattle.machine_stores.specs.Tables.{AreWithin, IsWithin, told_at};

use crate::tables::row_at;
use desk_values::{Image, Memory, Outcome};
use row_versions::Versions;
use same_keys::print_of;
use server_words::first_value;
use std::alloc::Global;
use std::collections::HashMap;

/// The committed rows of a table by the prints of their keys. It is kept until two rows have one print or memory is short;
/// from then on rows are looked through.
pub struct KeyIndex {
    is_kept: bool,
    prints: HashMap<u64, u64>,
}

// Written out: a caller then drops it by one call, which keeps the caller's proof small.
impl Drop for KeyIndex {
    fn drop(self) {
        let KeyIndex {
            is_kept: _is_kept,
            prints: _prints,
        } = self;
    }
}

impl KeyIndex {
    /// The index of the rows that these versions tell at a number.
    pub fn of(alloc: Global, versions: &Versions, number: u64) -> Result<KeyIndex, Memory>
        requires { IsWithin number versions.now }
        ensures { IfOk result (λ index. HasRows index (told_at versions.now.list number) []) }
    {
        let mut index = KeyIndex {
            is_kept: true,
            prints: HashMap::new(alloc),
        };
        let rows = versions.rows_at(number)?;
        for image in &rows {
            index.note(versions, number, image.row);
        }
        Ok(index)
    }

    /// Whether it is kept.
    pub fn is_kept(&self) -> bool
        ensures { result ≡ self.now.is_kept }
    {
        self.is_kept
    }

    /// The row that has a key of this print, if one has.
    pub fn row_of(&self, print: u64) -> Option<u64>
        ensures { result ≡ row_under self.now print }
    {
        self.prints.get(&print).copied()
    }

    /// Notes the row of this number. Where another has its print, or memory is short, the index is not kept.
    pub fn note(&mut self, versions: &Versions, number: u64, row: u64)
        requires { IsWithin number versions.now }
        ensures { (image : AnyImage) (rest : List AnyImage) → image.row ≡ row
            → HasRows self.old (told_at versions.now.list number) (image ∷ rest)
            → HasRows self.new (told_at versions.now.list number) rest }
    {
        if let Some(image) = row_at(versions, row, number) {
            self.note_row(versions, number, image);
        }
    }

    /// Notes this one of the rows.
    fn note_row(&mut self, versions: &Versions, number: u64, image: &Image)
        requires within { IsWithin number versions.now }
        requires among { told_at versions.now.list number image.now.row ≡ Some image.now }
        ensures { (first : AnyImage) (rest : List AnyImage) → first.row ≡ image.now.row
            → HasRows self.old (told_at versions.now.list number) (first ∷ rest)
            → HasRows self.new (told_at versions.now.list number) rest }
    {
        let row = image.row;
        let print = print_of_row(image);
        let is_alone = !is_others(versions, number, row, print, self.row_of(print));
        self.is_kept = self.is_kept && is_alone && put(&mut self.prints, print, row);
    }
}

/// Puts a row in the place of a print, and tells whether memory was there for it.
fn put(prints: &mut HashMap<u64, u64>, print: u64, row: u64) -> bool
    ensures here { OnTrue result (get nat_eq prints.new print ≡ Some row) }
    ensures others { OnTrue result
        ((other : ℕ) → (other ≡ print → ⊥) → get nat_eq prints.new other ≡ get nat_eq prints.old other) }
{
    prints.insert(print, row).is_ok()
}

/// Whether the row that is found under a print has it, and is another than this one.
fn is_others(versions: &Versions, number: u64, row: u64, print: u64, other: Option<u64>) -> bool
    requires { IsWithin number versions.now }
    ensures { result ≡ is_others row print (told_at versions.now.list number) other }
{
    match other {
        Some(other) => other != row && has_print(row_at(versions, other, number), print),
        None => false,
    }
}

fn has_print(image: Option<&Image>, print: u64) -> bool
    ensures { result ≡ has_print print (option_copied image.entry) }
{
    match image {
        Some(image) => print_of_row(image) == print,
        None => false,
    }
}

/// The print of a row's key.
fn print_of_row(image: &Image) -> u64
    ensures { result ≡ print_of (row_key image.now) }
{
    match first_value(image) {
        Some(key) => print_of(key),
        None => 0,
    }
}

/// Indexes of tables, as they are at a number.
pub fn indexes_of(alloc: Global, tables: &[Versions], number: u64) -> Result<Vec<KeyIndex>, Memory>
    requires { AreWithin number tables.now }
    ensures { IfOk result (λ indexes. AreIndexes indexes.items tables.now number []) }
{
    let mut indexes = Vec::new(alloc);
    for table in tables {
        indexes.push(KeyIndex::of(alloc, table, number)?)?;
    }
    Ok(indexes)
}

/// Notes the rows that a reply commits, where the tables have them.
pub fn note_commit(tables: &[Versions], number: u64, indexes: &mut Vec<KeyIndex>, outcome: &Outcome)
    requires { AreWithin number tables.now }
    ensures { AreIndexes indexes.old.items tables.now number (committed_in outcome.now)
        → AreIndexes indexes.new.items tables.now number [] }
{
    if let Outcome::Committed(images) = outcome {
        note_images(tables, number, indexes, images.as_slice());
    }
}

fn note_images(tables: &[Versions], number: u64, indexes: &mut Vec<KeyIndex>, images: &[Image])
    requires { AreWithin number tables.now }
    ensures { AreIndexes indexes.old.items tables.now number images.now → AreIndexes indexes.new.items tables.now number [] }
{
    for image in images {
        note_image(tables, number, indexes, image);
    }
}

/// Notes the row that this is an image of.
fn note_image(tables: &[Versions], number: u64, indexes: &mut Vec<KeyIndex>, image: &Image)
    requires { AreWithin number tables.now }
    ensures { (rest : List AnyImage) → AreIndexes indexes.old.items tables.now number (image.now ∷ rest)
        → AreIndexes indexes.new.items tables.now number rest }
{
    let table = image.table as usize;
    if table < tables.len() && table < indexes.len() {
        indexes[table].note(&tables[table], number, image.row);
    }
}
