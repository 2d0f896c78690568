//! Replies from JSON values.

ghost use Rattle.std.specs.Prelude.{◌≡◌};
ghost use Rattle.serde_json.specs.View.{items_view, members_view, view};
ghost use Rattle.call_json.specs.Inside.Reading.{Reads, each_in, values_in};
ghost use Rattle.call_json.specs.Inside.ReplyReading.{fault_in, image_in, images_in, left_in, made_in};
ghost use Rattle.call_json.specs.Inside.ReplyReading.{outcome_in, outcome_of, plain_outcome, reply_in, row_in, rows_in};

use crate::call_reading::is_yes;
use crate::json_err::JsonErr;
use crate::members::{all_three, only, sole};
use crate::value_reading::{small_in, values_in};
use desk_values::{Fault, Image, Images, List, Outcome, Reply, RowList, Values};
use serde_json::Value as Json;
use std::alloc::Global;

// The number of a row.
fn row_in(json: &Json) -> Option<u64>
    ensures { result ≡ row_in (view json.now) }
{
    only(json.as_object()?, "row")?.as_u64()
}

// The number of the row that was made, if one was.
fn made_in(json: &Json) -> Option<Option<u64>>
    ensures { result ≡ made_in (view json.now) }
{
    if json.is_null() {
        return Some(None);
    }
    Some(Some(row_in(json)?))
}

// What an image leaves.
fn left_in(alloc: Global, json: &Json) -> Result<Option<Values>, JsonErr>
    ensures { Reads result (left_in (view json.now)) }
{
    if json.is_null() {
        return Ok(None);
    }
    Ok(Some(values_in(alloc, json)?))
}

fn image_in(alloc: Global, json: &Json) -> Result<Image, JsonErr>
    ensures { Reads result (image_in (view json.now)) }
{
    let members = json.as_object().ok_or(JsonErr::NotOne)?;
    let (left, row, table) = all_three(members, "now", "row", "table").ok_or(JsonErr::NotOne)?;
    let row = row.as_u64().ok_or(JsonErr::NotOne)?;
    let table = small_in(table).ok_or(JsonErr::NotOne)?;
    let left = left_in(alloc, left)?;
    Ok(Image { row, table, left })
}

fn images_in(alloc: Global, json: &Json) -> Result<Images, JsonErr>
    ensures { Reads result (images_in (view json.now)) }
{
    let items = json.as_array().ok_or(JsonErr::NotOne)?;
    each_image(alloc, items.as_slice())
}

fn each_image(alloc: Global, items: &[Json]) -> Result<Images, JsonErr>
    ensures { Reads result (each_in image_in (items_view items.now)) }
{
    let mut images = List::with_capacity(alloc, items.len())?;
    for json in items {
        images.push(image_in(alloc, json)?)?;
    }
    Ok(images)
}

fn rows_in(alloc: Global, json: &Json) -> Result<RowList, JsonErr>
    ensures { Reads result (rows_in (view json.now)) }
{
    let items = json.as_array().ok_or(JsonErr::NotOne)?;
    each_row(alloc, items.as_slice())
}

fn each_row(alloc: Global, items: &[Json]) -> Result<RowList, JsonErr>
    ensures { Reads result (each_in values_in (items_view items.now)) }
{
    let mut rows = List::with_capacity(alloc, items.len())?;
    for json in items {
        rows.push(values_in(alloc, json)?)?;
    }
    Ok(rows)
}

fn fault_in(json: &Json) -> Option<Fault>
    ensures { result ≡ fault_in (view json.now) }
{
    Fault::from_number(small_in(json)?)
}

// An outcome that only its key tells.
fn plain_outcome(key: &str) -> Option<Outcome>
    ensures { result ≡ plain_outcome key.now }
{
    match key {
        "rolledback" => Some(Outcome::RolledBack),
        "marked" => Some(Outcome::Marked),
        "connected" => Some(Outcome::Connected),
        "disconnected" => Some(Outcome::Disconnected),
        _ => None,
    }
}

fn outcome_of(alloc: Global, key: &str, json: &Json) -> Result<Outcome, JsonErr>
    ensures { Reads result (outcome_of key.now (view json.now)) }
{
    match key {
        "rows" => Ok(Outcome::Rows(rows_in(alloc, json)?)),
        "count" => Ok(Outcome::Count(json.as_u64().ok_or(JsonErr::NotOne)?)),
        "committed" => Ok(Outcome::Committed(images_in(alloc, json)?)),
        "refused" => Ok(Outcome::Refused(fault_in(json).ok_or(JsonErr::NotOne)?)),
        _ => {
            if is_yes(json) {
                plain_outcome(key).ok_or(JsonErr::NotOne)
            } else {
                Err(JsonErr::NotOne)
            }
        }
    }
}

fn outcome_in(alloc: Global, json: &Json) -> Result<Outcome, JsonErr>
    ensures { Reads result (outcome_in (view json.now)) }
{
    let members = json.as_object().ok_or(JsonErr::NotOne)?;
    let (key, json) = sole(members).ok_or(JsonErr::NotOne)?;
    outcome_of(alloc, key, json)
}

/// The reply that a JSON value is, whatever its shape.
pub(crate) fn reply_in(alloc: Global, json: &Json) -> Result<Reply, JsonErr>
    ensures { Reads result (reply_in (view json.now)) }
{
    let members = json.as_object().ok_or(JsonErr::NotOne)?;
    let (draws, made, outcome) = all_three(members, "draws", "made", "outcome").ok_or(
        JsonErr::NotOne,
    )?;
    let draws = values_in(alloc, draws)?;
    let made = made_in(made).ok_or(JsonErr::NotOne)?;
    let outcome = outcome_in(alloc, outcome)?;
    Ok(Reply {
        outcome,
        draws,
        made,
    })
}
