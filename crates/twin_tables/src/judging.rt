//! Rows that may differ between a table of the captured server and that of the replayed one, judged one by one.

ghost use Rattle.std.specs.Prelude.{◌≡◌, ◌↔◌, ℕ, None, IfNone, IfOk, IfSome, IsTrue};
ghost use Rattle.std.specs.Option.{option_copied};
ghost use Rattle.id_pairs.specs.Carrying.Carried.{row_of};
ghost use Rattle.id_pairs.specs.Pairs.{IsIdMap};
ghost use Rattle.law_server.specs.Renaming.Twins.{IsRenamedRow};
ghost use Rattle.law_server.specs.Rows.Images.{IsRenamedImage};
ghost use Rattle.twin_tables.specs.Differences.{AreSides, both_of, captured_told, is_changed, others_of, own_of, replayed_told};
ghost use Rattle.twin_tables.specs.Inside.Judging.{AreTwinImages, CapturedAgrees, IsJudged, IsJudgedCaptured, IsJudgedReplayed, ReplayedAgrees};

use crate::ledger::Ledger;
use crate::sets::{Member, carried_number};
use desk_values::{Image, Memory, Same};
use remap_ids::{Id, IdMap};

/// A row that may differ between the two servers: by its captured or by its replayed number.
#[derive(Clone, Copy, Debug, PartialEq, Eq)]
pub enum Suspect {
    /// A row of the captured server.
    Captured(u64),
    /// A row of the replayed server.
    Replayed(u64),
}

/// What is compared: a table of the captured server at a commit and the same table of the replayed one at another, under a map of ids, but for rows
/// that a session of each has changed.
#[derive(Clone, Copy)]
pub struct Sides<'a> {
    /// The map of ids.
    pub map: &'a IdMap,
    /// The number of the table.
    pub table: u32,
    /// What was written to the captured one.
    pub captured: &'a Ledger,
    /// Up to which commit.
    pub captured_at: u64,
    /// What the captured session has changed, in any table.
    pub own: &'a [Image],
    /// What was written to the replayed one.
    pub replayed: &'a Ledger,
    /// Up to which commit.
    pub replayed_at: u64,
    /// What the replayed session has changed, in any table.
    pub others: &'a [Image],
}

/// What is known of a suspect.
#[derive(Clone, Copy, Debug, PartialEq, Eq)]
pub enum Verdict {
    /// It is the same on both sides.
    Agrees,
    /// The session's own change lies over it.
    Covered,
    /// It differs.
    Apart,
}

/// Whether a suspect differs.
pub fn judge(with: Sides<'_>, suspect: Suspect) -> Result<Verdict, Memory>
    requires { AreSides with }
    ensures { IfOk result (IsJudged (both_of with.entry) with.entry.table (own_of with.entry) (others_of with.entry) suspect) }
{
    match suspect {
        Suspect::Captured(row) => judge_captured(with, row),
        Suspect::Replayed(row) => judge_replayed(with, row),
    }
}

fn judge_captured(with: Sides<'_>, row: u64) -> Result<Verdict, Memory>
    requires { AreSides with }
    ensures { IfOk result
        (IsJudgedCaptured (both_of with.entry) with.entry.table (own_of with.entry) (others_of with.entry) row) }
{
    know_map(with.map);
    if is_changed(with.own, with.table, row) {
        return Ok(Verdict::Covered);
    }
    if captured_agrees(with, row)? {
        Ok(Verdict::Agrees)
    } else {
        Ok(Verdict::Apart)
    }
}

fn judge_replayed(with: Sides<'_>, row: u64) -> Result<Verdict, Memory>
    requires { AreSides with }
    ensures { IfOk result
        (IsJudgedReplayed (both_of with.entry) with.entry.table (own_of with.entry) (others_of with.entry) row) }
{
    know_map(with.map);
    if is_changed(with.others, with.table, row) {
        return Ok(Verdict::Covered);
    }
    if replayed_agrees(with, row)? {
        Ok(Verdict::Agrees)
    } else {
        Ok(Verdict::Apart)
    }
}

// Whether a captured row has its twin, and the row that stands for it is one.
fn captured_agrees(with: Sides<'_>, row: u64) -> Result<bool, Memory>
    requires { AreSides with }
    ensures { IfOk result (λ agrees. IsTrue agrees ↔ CapturedAgrees (both_of with.entry) row) }
{
    know_map(with.map);
    match carried_number(with.map, row) {
        Some(other) => are_alike(with, row, other),
        None => Ok(is_gone(with.captured.row_at(row, with.captured_at))),
    }
}

// Whether a replayed row is the twin of one, and that for which it stands has it.
fn replayed_agrees(with: Sides<'_>, row: u64) -> Result<bool, Memory>
    requires { AreSides with }
    ensures { IfOk result (λ agrees. IsTrue agrees ↔ ReplayedAgrees (both_of with.entry) row) }
{
    know_map(with.map);
    match row_origin(with.map, row) {
        Some(captured) => are_alike(with, captured, row),
        None => Ok(is_gone(with.replayed.row_at(row, with.replayed_at))),
    }
}

// Whether both rows are gone or the second is the first but for ids.
fn are_alike(with: Sides<'_>, row: u64, other: u64) -> Result<bool, Memory>
    requires { AreSides with }
    ensures { IfOk result
        (λ alike. IsTrue alike
        ↔ AreTwinImages with.entry.map.now.pairs (captured_told (both_of with.entry) row) (replayed_told (both_of with.entry) other)) }
{
    let image = with.captured.row_at(row, with.captured_at);
    let twin = with.replayed.row_at(other, with.replayed_at);
    are_twins(with.map, image, twin)
}

fn are_twins(map: &IdMap, image: Option<&Image>, other: Option<&Image>) -> Result<bool, Memory>
    ensures { IfOk result
        (λ twins. IsTrue twins ↔ AreTwinImages map.now.pairs (option_copied image.entry) (option_copied other.entry)) }
{
    match (image, other) {
        (None, None) => Ok(true),
        (Some(image), Some(other)) => is_twin(map, image, other),
        (None, Some(_)) => Ok(false),
        (Some(_), None) => Ok(false),
    }
}

// Whether the second image is the first with each id replaced by its image.
fn is_twin(map: &IdMap, image: &Image, other: &Image) -> Result<bool, Memory>
    ensures { IfOk result (λ twin. IsTrue twin ↔ IsRenamedImage map.now.pairs image.now other.now) }
{
    know_map(map);
    match Member::carried(image, map)? {
        Some(carried) => Ok(carried.same(other)),
        None => Ok(false),
    }
}

fn is_gone(image: Option<&Image>) -> bool
    ensures { IsTrue result ↔ (option_copied image.entry ≡ None) }
{
    match image {
        Some(_) => false,
        None => true,
    }
}

// The captured row for which a replayed one stands.
fn row_origin(map: &IdMap, row: u64) -> Option<u64>
    ensures some { IfSome result (λ captured. IsRenamedRow map.now.pairs captured row) }
    ensures none { IfNone result ((captured : ℕ) → ¬ IsRenamedRow map.now.pairs captured row) }
{
    know_map(map);
    match map.origin(Id::Row(row)) {
        Some(captured) => row_of(captured),
        None => None,
    }
}

// The number of the row that an id is.
fn row_of(id: Id) -> Option<u64>
    ensures { result ≡ row_of id }
{
    match id {
        Id::Row(row) => Some(row),
        Id::Draw(_, _) => None,
    }
}

// Whether a row of the table is among changes.
fn is_changed(changes: &[Image], table: u32, row: u64) -> bool
    ensures { result ≡ is_changed changes.now table row }
{
    changes
        .iter()
        .any(|image| image.row == row && image.table == table)
}

/// A map of ids is one-to-one.
pub fn know_map(map: &IdMap)
    ensures { IsIdMap map.now.pairs }
{
    let _image = map.image(Id::Row(0));
}
