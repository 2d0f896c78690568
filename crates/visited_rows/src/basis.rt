//! What a statement can depend on: which rows it visits, and whether it leaves a key twice.

ghost use Rattle.std.specs.Prelude.{◌≡◌, ◌∷◌, map, IfOk, IfSome, true, false};
ghost use Rattle.std.specs.List.{AllByRecursion, list_any};
ghost use Rattle.std.specs.Option.{option_and_then, option_copied};
ghost use Rattle.desk_values.specs.declared.value.Image.{Image as AnyImage};
ghost use Rattle.desk_values.specs.Comparison.{same_key};
ghost use Rattle.sql_tree.specs.Plain.{condition_of};
ghost use Rattle.sql_eval.specs.Totals.{looked_at};
ghost use Rattle.visited_rows.specs.ByKey.{is_of_key, of_key, visited};
ghost use Rattle.server_words.specs.Rows.{IsRising, is_there, lay, of_table, row_key, row_at};
ghost use Rattle.server_words.specs.Found.{matching, where_faults};
ghost use Rattle.server_words.specs.View.{commits_seen};
ghost use Rattle.server_words.specs.Writes.{is_among, repeats_key};
ghost use Rattle.found_rows.specs.Evaluation.{env_of};
ghost use Rattle.same_keys.specs.Print.{print_of};
ghost use Rattle.visited_rows.specs.Basis.{IsBasis, rows_of_basis};
ghost use Rattle.visited_rows.specs.Inside.Indexed.{IsIndexed, committed_rows, listed, staying};
ghost use Rattle.machine_stores.specs.Index.{row_under};

use desk_values::{Image, Memory, Value, same_key};
use found_rows::{Evaluation, makes_key_twice, repeats_key, row_key, sifted};
use key_conditions::key_sought;
use machine_stores::{KeyIndex, Others, laid, looked, of_table, row_at, rows_seen, shown_of};
use row_versions::Versions;
use same_keys::print_of;
use server_words::{Rows, Session};
use sql_eval::{Checked, Faults};

/// What a statement on a table can depend on; no row is looked at yet.
#[derive(Clone, Copy)]
pub struct Basis<'a> {
    /// Whose statement it is.
    pub session: &'a Session,
    /// The sessions beside it.
    pub others: Others<'a>,
    /// The number of the table.
    pub table: u32,
    /// The rows of the start.
    pub start: &'a [Image],
    /// The changes of each commit, in the order of the commits.
    pub commits: &'a [Rows],
    /// The versions of the rows of each table.
    pub versions: &'a [Versions],
    /// Where the keys of each table stand.
    pub indexes: &'a [KeyIndex],
    /// The level of the rules.
    pub level: u32,
    /// Whether it is known that no two rows that the session sees have one key.
    pub keys_differ: bool,
}

/// Committed rows of a table, what finds them by their keys, and changes of the table that are laid over them.
#[derive(Clone, Copy)]
struct Indexed<'a, 'c> {
    basis: Basis<'a>,
    versions: &'a Versions,
    index: &'a KeyIndex,
    changes: &'c [&'a Image],
}

/// The rows that match a condition, and its faults at any of the rows. Only those are looked at that are visited.
pub fn visit<'a>(
    with: Evaluation<'_>,
    basis: Basis<'a>,
    condition: &Option<Checked>,
) -> Result<(Vec<&'a Image>, Faults), Memory>
    requires { IsBasis basis }
    ensures rows { IfOk result
        (λ r. looked_at r.0.items ≡ matching (env_of with.entry) (condition_of condition.now) (rows_of_basis basis.entry)) }
    ensures faults { IfOk result
        (λ r. r.1 ≡ where_faults (env_of with.entry) (condition_of condition.now) (rows_of_basis basis.entry)) }
{
    let rows = visited(with, basis, condition)?;
    sifted(with, condition, &rows)
}

/// The rows that a statement with this condition visits: those of the key that it asks for, or else all.
fn visited<'a>(
    with: Evaluation<'_>,
    basis: Basis<'a>,
    condition: &Option<Checked>,
) -> Result<Vec<&'a Image>, Memory>
    requires { IsBasis basis }
    ensures { IfOk result
        (λ rows. looked_at rows.items ≡ visited (env_of with.entry) (condition_of condition.now) (rows_of_basis basis.entry)) }
{
    let key = key_sought(with.alloc, with.level, with.binds, condition)?;
    match key {
        None => all_rows(with, basis),
        Some(key) => rows_of_key(with, basis, &key),
    }
}

/// The table's rows as the session sees them.
fn all_rows<'a>(with: Evaluation<'_>, basis: Basis<'a>) -> Result<Vec<&'a Image>, Memory>
    requires { IsBasis basis }
    ensures { IfOk result (λ rows. looked_at rows.items ≡ rows_of_basis basis.entry) }
{
    rows_seen(
        with.alloc,
        basis.start,
        basis.commits,
        basis.versions,
        basis.session,
        basis.table,
    )
}

/// Those of them that have a key.
fn rows_of_key<'a>(
    with: Evaluation<'_>,
    basis: Basis<'a>,
    key: &Value,
) -> Result<Vec<&'a Image>, Memory>
    requires { IsBasis basis }
    ensures { IfOk result (λ rows. looked_at rows.items ≡ of_key with.entry.level key.now (rows_of_basis basis.entry)) }
{
    let rows = rows_about(with, basis, key)?;
    of_key(with, key, &rows)
}

/// Rows among which are those that have a key, by what is found of the key, or else all.
fn rows_about<'a>(
    with: Evaluation<'_>,
    basis: Basis<'a>,
    key: &Value,
) -> Result<Vec<&'a Image>, Memory>
    requires { IsBasis basis }
    ensures { IfOk result
        (λ rows. of_key with.entry.level key.now (looked_at rows.items) ≡ of_key with.entry.level key.now (rows_of_basis basis.entry)) }
{
    let changes = of_table(
        with.alloc,
        basis.session.own.changes.as_slice(),
        basis.table,
    )?;
    match indexed_rows(basis, &changes) {
        Some(indexed) => {
            let found = found_row(with, indexed, key)?;
            laid(with.alloc, &found, &changes)
        }
        None => all_rows(with, basis),
    }
}

/// Those of the rows that have a key.
fn of_key<'a>(
    with: Evaluation<'_>,
    key: &Value,
    rows: &[&'a Image],
) -> Result<Vec<&'a Image>, Memory>
    ensures { IfOk result (λ found. looked_at found.items ≡ of_key with.entry.level key.now (looked_at rows.now)) }
{
    let mut found = Vec::new(with.alloc);
    for image in rows {
        if is_of_key(with, key, image) {
            found.push(*image)?;
        }
    }
    Ok(found)
}

fn is_of_key(with: Evaluation<'_>, key: &Value, image: &Image) -> bool
    ensures { result ≡ is_of_key with.entry.level key.now image.now }
{
    same_key(with.level, row_key(with, image), key)
}

/// The committed row that the index has for a key, if it has one.
fn found_row<'a>(
    with: Evaluation<'_>,
    indexed: Indexed<'a, '_>,
    key: &Value,
) -> Result<Vec<&'a Image>, Memory>
    requires { IsIndexed indexed }
    ensures rising { IfOk result (λ found. IsRising (looked_at found.items)) }
    ensures found { IfOk result
        (λ found. of_key with.entry.level key.now (looked_at found.items) ≡ of_key with.entry.level key.now (committed_rows indexed.entry.basis)) }
{
    listed(with, row_under(indexed, key))
}

/// A row that there may be, as a list.
fn listed<'a>(with: Evaluation<'_>, row: Option<&'a Image>) -> Result<Vec<&'a Image>, Memory>
    ensures { IfOk result (λ rows. looked_at rows.items ≡ listed (option_copied row.entry)) }
{
    let mut rows = Vec::new(with.alloc);
    if let Some(image) = row {
        rows.push(image)?;
    }
    Ok(rows)
}

/// The committed row that stands under the print of a key.
fn row_under<'a>(indexed: Indexed<'a, '_>, key: &Value) -> Option<&'a Image>
    requires { IsIndexed indexed }
    ensures { option_copied result ≡ option_and_then (λ row. row_at row (committed_rows indexed.entry.basis)) (row_under indexed.entry.index.now (print_of key.now)) }
{
    let row = indexed.index.row_of(print_of(key))?;
    row_at(indexed.versions, row, indexed.basis.commits.len() as u64)
}

/// Whether the new row has the key of another, or two others have one.
pub fn makes_twice(with: Evaluation<'_>, basis: Basis<'_>, new: &Image) -> Result<bool, Memory>
    requires { IsBasis basis }
    ensures { IfOk result (λ b. b ≡ repeats_key with.entry.level (map row_key (new.now ∷ rows_of_basis basis.entry))) }
{
    if keys_differ(with, basis) {
        return stands(with, basis, row_key(with, new));
    }
    let changes = of_table(
        with.alloc,
        basis.session.own.changes.as_slice(),
        basis.table,
    )?;
    match indexed_rows(basis, &changes) {
        Some(indexed) => makes_indexed_twice(with, indexed, new),
        None => {
            let rows = all_rows(with, basis)?;
            makes_key_twice(with, new, &rows)
        }
    }
}

/// Whether it is known that no two of the rows have one key.
pub fn keys_differ(with: Evaluation<'_>, basis: Basis<'_>) -> bool
    requires { IsBasis basis }
    ensures { result ≡ true → repeats_key with.entry.level (map row_key (rows_of_basis basis.entry)) ≡ false }
{
    if basis.level != with.level {
        return false;
    }
    basis.keys_differ
}

/// Whether a row has this key.
fn stands(with: Evaluation<'_>, basis: Basis<'_>, key: &Value) -> Result<bool, Memory>
    requires { IsBasis basis }
    ensures { IfOk result
        (λ b. b ≡ list_any (same_key with.entry.level key.now) (map row_key (rows_of_basis basis.entry))) }
{
    let found = rows_of_key(with, basis, key)?;
    let found = found.as_slice();
    Ok(!found.is_empty())
}

/// Whether two rows have one key, once these images stand in the place of those of their numbers.
pub fn leaves_twice(
    with: Evaluation<'_>,
    basis: Basis<'_>,
    images: &[Image],
) -> Result<bool, Memory>
    requires is_basis { IsBasis basis }
    requires rising { IsRising images.now }
    requires there { AllByRecursion (λ (image : AnyImage). is_there image ≡ true) images.now }
    ensures { IfOk result (λ b. b ≡ repeats_key with.entry.level (map row_key (lay (rows_of_basis basis.entry) images.now))) }
{
    let own = of_table(
        with.alloc,
        basis.session.own.changes.as_slice(),
        basis.table,
    )?;
    let news = looked(with.alloc, images)?;
    let changes = laid(with.alloc, &own, &news)?;
    match indexed_rows(basis, &changes) {
        Some(indexed) => have_indexed_twice(with, indexed),
        None => {
            let rows = all_rows(with, basis)?;
            let after = laid(with.alloc, &rows, &news)?;
            repeats_key(with, &after)
        }
    }
}

/// What a table's rows are found by, with these changes over them, where the session reads all commits and an index is kept.
fn indexed_rows<'a, 'c>(basis: Basis<'a>, changes: &'c [&'a Image]) -> Option<Indexed<'a, 'c>>
    requires basis { IsBasis basis }
    requires rising { IsRising (looked_at changes.now) }
    ensures indexed { IfSome result IsIndexed }
    ensures changes { IfSome result (λ indexed. looked_at indexed.changes.now ≡ looked_at changes.now) }
    ensures rows { IfSome result
        (λ indexed. lay (committed_rows indexed.basis) (of_table basis.entry.table basis.entry.session.now.own.changes) ≡ rows_of_basis basis.entry) }
{
    if !reads_latest(basis) {
        return None;
    }
    let versions = basis.versions.get(basis.table as usize)?;
    let index = basis.indexes.get(basis.table as usize)?;
    if !index.is_kept() {
        return None;
    }
    Some(Indexed {
        basis,
        versions,
        index,
        changes,
    })
}

/// Whether the session reads all commits.
fn reads_latest(basis: Basis<'_>) -> bool
    ensures { result ≡ true → commits_seen basis.entry.session.now.snapshot basis.entry.commits.now ≡ basis.entry.commits.now }
{
    match basis.session.snapshot {
        None => true,
        Some(number) => number as usize >= basis.commits.len(),
    }
}

/// Whether the new row has the key of another, or two others have one, where rows are found by their keys.
fn makes_indexed_twice(
    with: Evaluation<'_>,
    indexed: Indexed<'_, '_>,
    new: &Image,
) -> Result<bool, Memory>
    requires { IsIndexed indexed }
    ensures { IfOk result
        (λ b. b ≡ repeats_key with.entry.level
        (map row_key (new.now ∷ lay (committed_rows indexed.entry.basis) (looked_at indexed.entry.changes.now)))) }
{
    let changed = shown_of(with.alloc, indexed.changes)?;
    if makes_key_twice(with, new, &changed)? {
        return Ok(true);
    }
    Ok(meets_staying(with, indexed, new) || some_meets_staying(with, indexed, &changed))
}

/// Whether two rows have one key, where they are found by their keys.
fn have_indexed_twice(with: Evaluation<'_>, indexed: Indexed<'_, '_>) -> Result<bool, Memory>
    requires { IsIndexed indexed }
    ensures { IfOk result
        (λ b. b ≡ repeats_key with.entry.level (map row_key (lay (committed_rows indexed.entry.basis) (looked_at indexed.entry.changes.now)))) }
{
    let changed = shown_of(with.alloc, indexed.changes)?;
    if repeats_key(with, &changed)? {
        return Ok(true);
    }
    Ok(some_meets_staying(with, indexed, &changed))
}

/// Whether one of these has the key of a row that stays.
fn some_meets_staying(with: Evaluation<'_>, indexed: Indexed<'_, '_>, images: &[&Image]) -> bool
    requires { IsIndexed indexed }
    ensures { result ≡ list_any
        (λ image. list_any (same_key with.entry.level (row_key image))
        (map row_key (staying (committed_rows indexed.entry.basis) (looked_at indexed.entry.changes.now))))
        (looked_at images.now) }
{
    for image in images {
        if meets_staying(with, indexed, *image) {
            return true;
        }
    }
    false
}

/// Whether this has the key of a row that stays.
fn meets_staying(with: Evaluation<'_>, indexed: Indexed<'_, '_>, image: &Image) -> bool
    requires { IsIndexed indexed }
    ensures { result
        ≡ list_any (same_key with.entry.level (row_key image.now))
        (map row_key (staying (committed_rows indexed.entry.basis) (looked_at indexed.entry.changes.now))) }
{
    let key = row_key(with, image);
    let Some(other) = row_under(indexed, key) else {
        return false;
    };
    !is_changed(indexed, other) && same_key(with.level, key, row_key(with, other))
}

/// Whether there is a change of this row.
fn is_changed(indexed: Indexed<'_, '_>, image: &Image) -> bool
    requires { IsIndexed indexed }
    ensures { result ≡ is_among (looked_at indexed.entry.changes.now) image.now }
{
    let changes = indexed.changes;
    match changes.binary_search_by_key(&image.row, |change| change.row) {
        Ok(_) => true,
        Err(_) => false,
    }
}
