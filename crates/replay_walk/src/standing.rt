//! Whether what a call meets is what it met, but for ids: what both stand on, and then the rows of their table.

ghost use Rattle.std.specs.Prelude.{◌≡◌, ◌↔◌, ◌≤◌, is_some, IfOk, IsTrue};
ghost use Rattle.std.specs.List.{filter, find};
ghost use Rattle.std.specs.Option.{option_copied};
ghost use Rattle.law_server.specs.Renaming.Twins.{AreSets, IsRenamedRow};
ghost use Rattle.twin_tables.specs.Differences.{AreSides};
ghost use Rattle.replay_walk.specs.Inside.Standing.{HaveTwinFootings, held_captured, held_replayed, is_change, is_seen};

use crate::twins::{twin_own, twin_rows, twin_values};
use desk_values::{Image, List, Memory};
use machine_model::Footing;
use remap_ids::IdMap;
use server_words::RowIds;
use std::alloc::Global;
use twin_tables::{Ledger, Sides};

/// Whether two calls stand on the same but for ids, beside the rows that others hold: what their sessions have of their own, and the keys that others
/// hold.
pub fn twin_footings(
    alloc: Global,
    map: &IdMap,
    met: &Footing,
    meets: &Footing,
) -> Result<bool, Memory>
    ensures { IfOk result (λ twins. IsTrue twins ↔ HaveTwinFootings map.now.pairs met.now meets.now) }
{
    if !twin_own(alloc, map, &met.own, &meets.own)? {
        return Ok(false);
    }
    twin_values(alloc, map, &met.held_keys, &meets.held_keys)
}

/// Whether of the rows that two sessions see in a table others hold the same ones, but for ids.
pub fn twin_held(
    alloc: Global,
    with: Sides<'_>,
    rows: &RowIds,
    others: &RowIds,
) -> Result<bool, Memory>
    requires { AreSides with }
    ensures { IfOk result
        (λ twins. IsTrue twins ↔ AreSets (IsRenamedRow with.entry.map.now.pairs) (held_captured with.entry rows.now) (held_replayed with.entry others.now)) }
{
    let captured = captured_among(alloc, with, rows.as_slice())?;
    let replayed = replayed_among(alloc, with, others.as_slice())?;
    twin_rows(alloc, with.map, &captured, &replayed)
}

// Those of these rows that the captured session sees.
fn captured_among(alloc: Global, with: Sides<'_>, rows: &[u64]) -> Result<RowIds, Memory>
    requires { AreSides with }
    ensures { IfOk result (λ seen. seen ≡ held_captured with.entry rows.now) }
{
    let own = with.own;
    rows_among(
        alloc,
        with.captured,
        with.captured_at,
        own,
        with.table,
        rows,
    )
}

// Those that the replayed session sees.
fn replayed_among(alloc: Global, with: Sides<'_>, rows: &[u64]) -> Result<RowIds, Memory>
    requires { AreSides with }
    ensures { IfOk result (λ seen. seen ≡ held_replayed with.entry rows.now) }
{
    let own = with.others;
    rows_among(
        alloc,
        with.replayed,
        with.replayed_at,
        own,
        with.table,
        rows,
    )
}

// Those of these rows that a session sees in a table at a commit, with its own changes laid over it.
fn rows_among(
    alloc: Global,
    ledger: &Ledger,
    at: u64,
    own: &[Image],
    table: u32,
    rows: &[u64],
) -> Result<RowIds, Memory>
    requires { ledger.now.floor ≤ at }
    ensures { IfOk result (λ seen. seen ≡ filter (is_seen ledger.now.list at own.now table) rows.now) }
{
    let mut seen = List::new(alloc);
    for row in rows {
        if is_seen(ledger, at, own, table, *row) {
            seen.push(*row)?;
        }
    }
    Ok(seen)
}

// Whether it sees a row.
fn is_seen(ledger: &Ledger, at: u64, own: &[Image], table: u32, row: u64) -> bool
    requires { ledger.now.floor ≤ at }
    ensures { result ≡ is_seen ledger.now.list at own.now table row }
{
    match change_of(own, table, row) {
        Some(image) => image.left.is_some(),
        None => ledger.row_at(row, at).is_some(),
    }
}

// The change to a row of a table among changes.
fn change_of(own: &[Image], table: u32, row: u64) -> Option<&Image>
    ensures { option_copied result ≡ find (is_change table row) own.now }
{
    own.iter()
        .find(|image| image.row == row && image.table == table)
}
