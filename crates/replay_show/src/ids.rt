//! The ids of a call, and what stands for each in the replay.

ghost use Rattle.std.specs.Prelude.{◌≡◌, ◌++◌, IfOk, OnOk, option_copied, slice_get};
ghost use Rattle.std.specs.List.{find, flat_map, fold, list_any};
ghost use Rattle.id_pairs.specs.Ids.{id_of, id_value, same_id};
ghost use Rattle.remap_ids.specs.IdMap.{start_pairs};
ghost use Rattle.replay_show.specs.Ids.{gives, id_line, id_lines, ids_told, is_id, is_made, pairs_behind, sent_ids, source_shown, stands_shown, taught_by, unsent_shown, with_id, with_image, with_made, with_outcome, with_reply, with_value, with_values};
ghost use Rattle.replay_show.specs.Shown.{seen};
ghost use Rattle.replay_show.specs.Values.{value_shown};

use crate::one_call::binds_of;
use crate::readable::Readable;
use crate::shown::Shown;
use desk_schema::{Schema, Start};
use desk_values::fields::append_u64;
use desk_values::{Bytes, Captured, Event, Image, List, Memory, Outcome, Reply, Value, Values};
use id_pairs::Id;
use remap_ids::IdMap;
use std::alloc::Global;

/// Appends a line for each id of the call: what stands for it behind the call's answer.
pub(crate) fn append_ids(
    alloc: Global,
    shown: &Shown,
    call: &Captured,
    to: &mut Bytes,
) -> Result<(), Memory>
    ensures { OnOk result (to.new ≡ to.old ++ id_lines (seen shown.now) call.now) }
{
    let history = shown.run.history.as_slice();
    let calls = shown.calls.as_slice();
    let map = map_behind(alloc, &shown.start, calls, call.stamp, history)?;
    let sent = sent_ids(alloc, call)?;
    let told = ids_told(alloc, call)?;
    let schema = shown.start.schema();
    append_lines(schema, calls, &map, sent.as_slice(), told.as_slice(), to)
}

fn append_lines(
    schema: &Schema,
    calls: &[Captured],
    map: &IdMap,
    sent: &[Id],
    told: &[Id],
    to: &mut Bytes,
) -> Result<(), Memory>
    ensures { OnOk result (to.new ≡ to.old ++ flat_map (id_line schema.now calls.now map.now.pairs sent.now) told.now) }
{
    for id in told {
        append_id_line(schema, calls, map, sent, *id, to)?;
    }
    Ok(())
}

#[tactic(auto, unfolding(crate::specs::Ids::id_line))]
fn append_id_line(
    schema: &Schema,
    calls: &[Captured],
    map: &IdMap,
    sent: &[Id],
    id: Id,
    to: &mut Bytes,
) -> Result<(), Memory>
    ensures { OnOk result (to.new ≡ to.old ++ id_line schema.now calls.now map.now.pairs sent.now id) }
{
    let image = map.image(id);
    to.append(b"id          ")?;
    append_id(schema, id, to)?;
    append_stands(schema, calls, id, image, to)?;
    append_unsent(is_among(id, sent), image, to)?;
    to.append(b"\n")
}

fn append_id(schema: &Schema, id: Id, to: &mut Bytes) -> Result<(), Memory>
    ensures { OnOk result (to.new ≡ to.old ++ value_shown schema.now (id_value id)) }
{
    let value = id.to_value();
    value.append_to(schema, to)
}

// What stands for the id, and where it is from.
#[tactic(auto, unfolding(crate::specs::Ids::stands_shown))]
fn append_stands(
    schema: &Schema,
    calls: &[Captured],
    id: Id,
    image: Option<Id>,
    to: &mut Bytes,
) -> Result<(), Memory>
    ensures { OnOk result (to.new ≡ to.old ++ stands_shown schema.now calls.now id image) }
{
    let Some(other) = image else {
        return to.append(b" has nothing that stands for it");
    };
    to.append(b" stands as ")?;
    append_id(schema, other, to)?;
    to.append(b", from ")?;
    append_source(giver(calls, id), to)
}

// The first call that gave the id.
fn giver(calls: &[Captured], id: Id) -> Option<&Captured>
    ensures { option_copied result ≡ find (gives id) calls.now }
{
    calls.iter().find(|call| gives(id, call))
}

#[tactic(auto, unfolding(crate::specs::Ids::source_shown))]
fn append_source(found: Option<&Captured>, to: &mut Bytes) -> Result<(), Memory>
    ensures { OnOk result (to.new ≡ to.old ++ source_shown (option_copied found.entry)) }
{
    match found {
        Some(call) => {
            to.append(b"call ")?;
            append_u64(u64::from(call.stamp), to)
        }
        None => to.append(b"the start"),
    }
}

#[tactic(auto, unfolding(crate::specs::Ids::unsent_shown))]
fn append_unsent(sent: bool, image: Option<Id>, to: &mut Bytes) -> Result<(), Memory>
    ensures { OnOk result (to.new ≡ to.old ++ unsent_shown sent image) }
{
    if sent && image.is_none() {
        to.append(b", sent as an id that no server knows")
    } else {
        Ok(())
    }
}

// Whether the call gave the id.
fn gives(id: Id, call: &Captured) -> bool
    ensures { result ≡ gives id call.now }
{
    is_drawn(id, call.reply.draws.as_slice()) || is_made(id, call.reply.made)
}

fn is_drawn(id: Id, draws: &[Value]) -> bool
    ensures { result ≡ list_any (λ drawn. is_id id (id_of drawn)) draws.now }
{
    draws.iter().any(|drawn| is_id(id, Id::of_value(drawn)))
}

fn is_id(id: Id, other: Option<Id>) -> bool
    ensures { result ≡ is_id id other }
{
    match other {
        Some(other) => id.same(other),
        None => false,
    }
}

fn is_made(id: Id, made: Option<u64>) -> bool
    ensures { result ≡ is_made id made }
{
    match made {
        Some(row) => id.same(Id::Row(row)),
        None => false,
    }
}

fn is_among(id: Id, ids: &[Id]) -> bool
    ensures { result ≡ list_any (same_id id) ids.now }
{
    ids.iter().any(|other| id.same(*other))
}

// ---- which ids stand for which

// The map of ids behind the first answer to the call with this stamp.
#[tactic(auto, using(crate::proofs::Going::taught_here, crate::proofs::Going::taught_on, crate::proofs::Going::taught_past, crate::proofs::Going::taught_none))]
fn map_behind(
    alloc: Global,
    start: &Start,
    calls: &[Captured],
    stamp: u32,
    history: &[Event],
) -> Result<IdMap, Memory>
    ensures { IfOk result (λ map. map.pairs ≡ pairs_behind calls.now stamp (start_pairs start.now) history.now) }
{
    let mut map = IdMap::from_start(alloc, start)?;
    for event in history {
        if let Event::Answer(other, reply) = event {
            teach(calls, *other, reply, &mut map)?;
            if *other == stamp {
                return Ok(map);
            }
        }
    }
    Ok(map)
}

// What the reply to the call with this stamp teaches.
fn teach(calls: &[Captured], stamp: u32, reply: &Reply, map: &mut IdMap) -> Result<(), Memory>
    ensures { OnOk result (map.new.pairs ≡ taught_by map.old.pairs (slice_get calls.now stamp) reply.now) }
{
    match calls.get(stamp as usize) {
        Some(call) => map.learn_fresh(&call.reply, reply),
        None => Ok(()),
    }
}

// ---- which ids a call has, each once

fn sent_ids(alloc: Global, call: &Captured) -> Result<List<Id>, Memory>
    ensures { IfOk result (λ ids. ids ≡ sent_ids call.now) }
{
    let mut ids = List::new(alloc);
    add_values(binds_of(&call.call), &mut ids)?;
    Ok(ids)
}

fn ids_told(alloc: Global, call: &Captured) -> Result<List<Id>, Memory>
    ensures { IfOk result (λ ids. ids ≡ ids_told call.now) }
{
    let mut ids = sent_ids(alloc, call)?;
    add_reply(&call.reply, &mut ids)?;
    Ok(ids)
}

fn add_reply(reply: &Reply, to: &mut List<Id>) -> Result<(), Memory>
    ensures { OnOk result (to.new ≡ with_reply to.old reply.now) }
{
    add_values(reply.draws.as_slice(), to)?;
    add_made(reply.made, to)?;
    add_outcome(&reply.outcome, to)
}

fn add_made(made: Option<u64>, to: &mut List<Id>) -> Result<(), Memory>
    ensures { OnOk result (to.new ≡ with_made to.old made) }
{
    match made {
        Some(row) => add_id(Id::Row(row), to),
        None => Ok(()),
    }
}

fn add_outcome(outcome: &Outcome, to: &mut List<Id>) -> Result<(), Memory>
    ensures { OnOk result (to.new ≡ with_outcome to.old outcome.now) }
{
    match outcome {
        Outcome::Rows(rows) => add_rows(rows.as_slice(), to),
        Outcome::Committed(images) => add_images(images.as_slice(), to),
        _ => Ok(()),
    }
}

fn add_rows(rows: &[Values], to: &mut List<Id>) -> Result<(), Memory>
    ensures { OnOk result (to.new ≡ fold with_values to.old rows.now) }
{
    for row in rows {
        add_values(row.as_slice(), to)?;
    }
    Ok(())
}

fn add_images(images: &[Image], to: &mut List<Id>) -> Result<(), Memory>
    ensures { OnOk result (to.new ≡ fold with_image to.old images.now) }
{
    for image in images {
        add_image(image, to)?;
    }
    Ok(())
}

fn add_image(image: &Image, to: &mut List<Id>) -> Result<(), Memory>
    ensures { OnOk result (to.new ≡ with_image to.old image.now) }
{
    add_id(Id::Row(image.row), to)?;
    match &image.left {
        Some(values) => add_values(values.as_slice(), to),
        None => Ok(()),
    }
}

fn add_values(values: &[Value], to: &mut List<Id>) -> Result<(), Memory>
    ensures { OnOk result (to.new ≡ with_values to.old values.now) }
{
    for value in values {
        add_value(value, to)?;
    }
    Ok(())
}

fn add_value(value: &Value, to: &mut List<Id>) -> Result<(), Memory>
    ensures { OnOk result (to.new ≡ with_value to.old value.now) }
{
    match Id::of_value(value) {
        Some(id) => add_id(id, to),
        None => Ok(()),
    }
}

// One more, unless it is there.
fn add_id(id: Id, to: &mut List<Id>) -> Result<(), Memory>
    ensures { OnOk result (to.new ≡ with_id to.old id) }
{
    if is_among(id, to.as_slice()) {
        Ok(())
    } else {
        to.push(id)
    }
}
