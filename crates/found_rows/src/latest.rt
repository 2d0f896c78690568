//! The rows of all tables after all commits. Each change goes to its place by the number of its row, so no row moves another.

ghost use Rattle.std.specs.Prelude.{◌≡◌, IfOk, OnOk};
ghost use Rattle.sql_eval.specs.Totals.{looked_at};
ghost use Rattle.server_words.specs.Rows.{lay, lay_all, placed, shown};
ghost use Rattle.server_words.specs.Sound.{AreStanding};
ghost use Rattle.found_rows.specs.Inside.ByRow.{IsByRow, rows_in};

use desk_values::{Image, Memory};
use server_words::Rows;
use std::alloc::Global;
use std::collections::BTreeMap;

/// The rows of a start with all commits laid over them; no row is copied.
pub fn all_laid<'a>(
    alloc: Global,
    start: &'a [Image],
    commits: &'a [Rows],
) -> Result<Vec<&'a Image>, Memory>
    requires { AreStanding start.now }
    ensures { IfOk result (λ rows. looked_at rows.items ≡ lay_all start.now commits.now) }
{
    let mut rows = BTreeMap::new(alloc);
    lay_over(&mut rows, start)?;
    for commit in commits {
        lay_over(&mut rows, commit.as_slice())?;
    }
    in_order(alloc, &rows)
}

/// Lays changes over the rows, one after another.
fn lay_over<'a>(rows: &mut BTreeMap<u64, &'a Image>, changes: &'a [Image]) -> Result<(), Memory>
    requires { IsByRow rows.old }
    ensures laid { OnOk result (rows_in rows.new ≡ lay (rows_in rows.old) changes.now) }
    ensures by_row { OnOk result (IsByRow rows.new) }
{
    for change in changes {
        lay_one(rows, change)?;
    }
    Ok(())
}

/// Lays a change over the rows: a row that is gone is taken out.
fn lay_one<'a>(rows: &mut BTreeMap<u64, &'a Image>, change: &'a Image) -> Result<(), Memory>
    requires { IsByRow rows.old }
    ensures laid { OnOk result (rows_in rows.new ≡ placed shown change.now (rows_in rows.old)) }
    ensures by_row { OnOk result (IsByRow rows.new) }
{
    if change.left.is_some() {
        rows.insert(change.row, change)?;
    } else {
        rows.remove(&change.row);
    }
    Ok(())
}

/// The rows by ascending number.
fn in_order<'a>(alloc: Global, rows: &BTreeMap<u64, &'a Image>) -> Result<Vec<&'a Image>, Memory>
    ensures { IfOk result (λ seen. looked_at seen.items ≡ rows_in rows.now) }
{
    let mut seen = Vec::new(alloc);
    for image in rows.values() {
        seen.push(*image)?;
    }
    Ok(seen)
}
