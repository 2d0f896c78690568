//! The rows of a table as a session sees them; no row is copied.

ghost use Rattle.std.specs.Prelude.{◌≡◌, ◌≤◌, ◌++◌, length, map, IfOk, OnOk};
ghost use Rattle.server_words.specs.Rows.{IsRising, lay, lay_all, of_table, shown, all_shown};
ghost use Rattle.machine_stores.specs.Tables.{AreTold, count_seen, rows_after};
ghost use Rattle.sql_eval.specs.Totals.{looked_at};
ghost use Rattle.server_words.specs.View.{commits_seen, rows_seen};

use desk_values::{Image, Memory};
use row_versions::Versions;
use server_words::{Rows, Session};
use std::alloc::Global;

/// Shows a change behind what is seen, where the row is not gone.
fn show<'a>(seen: &mut Vec<&'a Image>, change: &'a Image) -> Result<(), Memory>
    ensures { OnOk result (looked_at seen.new.items ≡ looked_at seen.old.items ++ shown change.now) }
{
    if change.left.is_some() {
        seen.push(change)?;
    }
    Ok(())
}

/// The rows with the changes laid over them.
pub fn laid<'a>(
    alloc: Global,
    rows: &[&'a Image],
    changes: &[&'a Image],
) -> Result<Vec<&'a Image>, Memory>
    requires { IsRising (looked_at changes.now) }
    ensures { IfOk result (λ seen. looked_at seen.items ≡ lay (looked_at rows.now) (looked_at changes.now)) }
{
    let mut seen = Vec::new(alloc);
    let mut at = 0;
    for change in changes {
        while at < rows.len() && rows[at].row < change.row {
            seen.push(rows[at])?;
            at += 1;
        }
        if at < rows.len() && rows[at].row == change.row {
            at += 1;
        }
        show(&mut seen, *change)?;
    }
    while at < rows.len() {
        seen.push(rows[at])?;
        at += 1;
    }
    Ok(seen)
}

/// Those of one table.
fn picked<'a>(alloc: Global, images: &'a [Image], table: u32) -> Result<Vec<&'a Image>, Memory>
    ensures { IfOk result (λ seen. looked_at seen.items ≡ of_table table images.now) }
{
    let mut seen = Vec::new(alloc);
    for image in images {
        if image.table == table {
            seen.push(image)?;
        }
    }
    Ok(seen)
}

/// Those that are not gone.
pub fn shown_of<'a>(alloc: Global, changes: &[&'a Image]) -> Result<Vec<&'a Image>, Memory>
    ensures { IfOk result (λ seen. looked_at seen.items ≡ all_shown (looked_at changes.now)) }
{
    let mut seen = Vec::new(alloc);
    for change in changes {
        show(&mut seen, *change)?;
    }
    Ok(seen)
}

/// Those of one table, which rise too.
pub fn of_table<'a>(
    alloc: Global,
    images: &'a [Image],
    table: u32,
) -> Result<Vec<&'a Image>, Memory>
    requires { IsRising images.now }
    ensures value { IfOk result (λ seen. looked_at seen.items ≡ of_table table images.now) }
    ensures rising { IfOk result (λ seen. IsRising (looked_at seen.items)) }
{
    let seen = picked(alloc, images, table)?;
    Ok(seen)
}

/// All of them.
pub fn looked<'a>(alloc: Global, images: &'a [Image]) -> Result<Vec<&'a Image>, Memory>
    ensures { IfOk result (λ seen. looked_at seen.items ≡ images.now) }
{
    let mut seen = Vec::new(alloc);
    for image in images {
        seen.push(image)?;
    }
    Ok(seen)
}

/// A table's rows of the start with these commits laid over them.
fn committed<'a>(
    alloc: Global,
    start: &'a [Image],
    commits: &'a [Rows],
    table: u32,
) -> Result<Vec<&'a Image>, Memory>
    requires { IsRising start.now }
    ensures { IfOk result (λ seen. looked_at seen.items ≡ lay_all (of_table table start.now) (map (of_table table) commits.now)) }
{
    let mut seen = of_table(alloc, start, table)?;
    for commit in commits {
        let changes = of_table(alloc, commit.as_slice(), table)?;
        if !changes.is_empty() {
            seen = laid(alloc, &seen, &changes)?;
        }
    }
    Ok(seen)
}

/// A table's rows after the commits that a snapshot sees, which is all of them where there is none.
fn base<'a>(
    alloc: Global,
    start: &'a [Image],
    commits: &'a [Rows],
    tables: &'a [Versions],
    snapshot: Option<u64>,
    table: u32,
) -> Result<Vec<&'a Image>, Memory>
    requires rising { IsRising start.now }
    requires told { AreTold (count_seen snapshot (length commits.now)) start.now commits.now tables.now }
    ensures { IfOk result
        (λ seen. looked_at seen.items ≡ rows_after start.now (commits_seen snapshot commits.now) table) }
{
    let count = count_seen(snapshot, commits.len());
    match tables.get(table as usize) {
        Some(versions) => Ok(versions.rows_at(count as u64)?),
        None => committed(alloc, start, &commits[..count], table),
    }
}

/// How many of so many commits a snapshot sees.
pub fn count_seen(snapshot: Option<u64>, count: usize) -> usize
    ensures value { result ≡ count_seen snapshot count }
    ensures most { result ≤ count }
{
    match snapshot {
        Some(number) if number < count as u64 => number as usize,
        _ => count,
    }
}

/// A table's rows as a session sees them; no row is copied. `tables` are the versions of the rows of each table.
pub fn rows_seen<'a>(
    alloc: Global,
    start: &'a [Image],
    commits: &'a [Rows],
    tables: &'a [Versions],
    session: &'a Session,
    table: u32,
) -> Result<Vec<&'a Image>, Memory>
    requires rising { IsRising start.now }
    requires told { AreTold (count_seen session.now.snapshot (length commits.now)) start.now commits.now tables.now }
    ensures { IfOk result (λ seen. looked_at seen.items ≡ rows_seen start.now commits.now session.now table) }
{
    let rows = base(alloc, start, commits, tables, session.snapshot, table)?;
    let changes = of_table(alloc, session.own.changes.as_slice(), table)?;
    if changes.is_empty() {
        return Ok(rows);
    }
    laid(alloc, &rows, &changes)
}
