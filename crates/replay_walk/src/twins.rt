//! Whether two views are one but for ids.

ghost use Rattle.std.specs.Prelude.{◌≡◌, ◌↔◌, IfOk, IsTrue};
ghost use Rattle.std.specs.List.{AllZip};
ghost use Rattle.id_pairs.specs.Pairs.{IsIdMap};
ghost use Rattle.id_pairs.specs.Renaming.{AreRenamed, IsRenamed};
ghost use Rattle.law_server.specs.Rows.Images.{IsRenamedImage};
ghost use Rattle.law_server.specs.Renaming.Twins.{AreSets, IsRenamedRow};
ghost use Rattle.replay_walk.specs.Inside.Calls.{AsksTheSame, ConnectsAlike, HaveTwinParts, IsEnd};
ghost use Rattle.replay_walk.specs.Inside.Standing.{HaveTwinOwn};
ghost use Rattle.twin_tables.specs.Members.{IsRenamedKeyId};
ghost use Rattle.replay_walk.specs.Twins.{AreTwinPoints, AreTwins};

use desk_schema::Schema;
use desk_values::{Call, Images, Memory, Same, Txt, Value, Values};
use remap_ids::{Id, IdMap};
use server_words::{KeyIds, Point, RowIds, View};
use std::alloc::Global;
use twin_tables::{Member, twin_sets};

/// Whether the second view is the first with each id replaced by its image: savepoints one by one, all other lists as sets.
pub fn twin_views(alloc: Global, map: &IdMap, a: &View, b: &View) -> Result<bool, Memory>
    ensures { IfOk result (λ twins. IsTrue twins ↔ AreTwins map.now.pairs a.now b.now) }
{
    if !twin_own(alloc, map, a, b)? {
        return Ok(false);
    }
    if !twin_images(alloc, map, &a.rows, &b.rows)? {
        return Ok(false);
    }
    if !twin_rows(alloc, map, &a.others_rows, &b.others_rows)? {
        return Ok(false);
    }
    twin_values(alloc, map, &a.others_keys, &b.others_keys)
}

/// Whether what a session has of its own is one in both views but for ids: its rights, its changes, what it holds and its savepoints.
pub fn twin_own(alloc: Global, map: &IdMap, a: &View, b: &View) -> Result<bool, Memory>
    ensures { IfOk result (λ twins. IsTrue twins ↔ HaveTwinOwn map.now.pairs a.now b.now) }
{
    if !same_rights(a, b) {
        return Ok(false);
    }
    if !twin_images(alloc, map, &a.changes, &b.changes)? {
        return Ok(false);
    }
    if !twin_rows(alloc, map, &a.held_rows, &b.held_rows)? {
        return Ok(false);
    }
    if !twin_keys(alloc, map, &a.held_keys, &b.held_keys)? {
        return Ok(false);
    }
    twin_points(alloc, map, a.points.as_slice(), b.points.as_slice())
}

fn same_rights(a: &View, b: &View) -> bool
    ensures { IsTrue result ↔ ((a.now.rights ≡ b.now.rights) × (a.now.read_only ≡ b.now.read_only)) }
{
    a.rights == b.rights && a.read_only == b.read_only
}

// Of savepoints, place by place.
fn twin_points(alloc: Global, map: &IdMap, a: &[Point], b: &[Point]) -> Result<bool, Memory>
    ensures { IfOk result (λ twins. IsTrue twins ↔ AllZip (AreTwinPoints map.now.pairs) a.now b.now) }
{
    if a.len() != b.len() {
        return Ok(false);
    }
    for i in 0..a.len() {
        if !twin_point(alloc, map, &a[i], &b[i])? {
            return Ok(false);
        }
    }
    Ok(true)
}

fn twin_point(alloc: Global, map: &IdMap, a: &Point, b: &Point) -> Result<bool, Memory>
    ensures { IfOk result (λ twins. IsTrue twins ↔ AreTwinPoints map.now.pairs a.now b.now) }
{
    if !a.name.same(&b.name) {
        return Ok(false);
    }
    if !twin_images(alloc, map, &a.changes, &b.changes)? {
        return Ok(false);
    }
    if !twin_rows(alloc, map, &a.held_rows, &b.held_rows)? {
        return Ok(false);
    }
    twin_keys(alloc, map, &a.held_keys, &b.held_keys)
}

fn twin_images(alloc: Global, map: &IdMap, a: &Images, b: &Images) -> Result<bool, Memory>
    ensures { IfOk result (λ twins. IsTrue twins ↔ AreSets (IsRenamedImage map.now.pairs) a.now b.now) }
{
    know_map(map);
    twin_sets(alloc, map, a.as_slice(), b.as_slice())
}

/// The same of the numbers of rows.
pub fn twin_rows(alloc: Global, map: &IdMap, a: &RowIds, b: &RowIds) -> Result<bool, Memory>
    ensures { IfOk result (λ twins. IsTrue twins ↔ AreSets (IsRenamedRow map.now.pairs) a.now b.now) }
{
    know_map(map);
    twin_sets(alloc, map, a.as_slice(), b.as_slice())
}

fn twin_keys(alloc: Global, map: &IdMap, a: &KeyIds, b: &KeyIds) -> Result<bool, Memory>
    ensures { IfOk result (λ twins. IsTrue twins ↔ AreSets (IsRenamedKeyId map.now.pairs) a.now b.now) }
{
    know_map(map);
    twin_sets(alloc, map, a.as_slice(), b.as_slice())
}

/// The same of values.
pub fn twin_values(alloc: Global, map: &IdMap, a: &Values, b: &Values) -> Result<bool, Memory>
    ensures { IfOk result (λ twins. IsTrue twins ↔ AreSets (IsRenamed map.now.pairs) a.now b.now) }
{
    know_map(map);
    twin_sets(alloc, map, a.as_slice(), b.as_slice())
}

// A map of ids is one-to-one.
fn know_map(map: &IdMap)
    ensures { IsIdMap map.now.pairs }
{
    let _image = map.image(Id::Row(0));
}

/// Whether a call and another that is sent in its place are one but for ids: both end the session, or ask the same with renamed
/// binds, or connect to services of which the schema has both or neither.
pub fn are_twin_calls(
    schema: &Schema,
    map: &IdMap,
    call: &Call,
    sent: &Call,
) -> Result<bool, Memory>
    ensures { IfOk result (λ twins. IsTrue twins ↔ HaveTwinParts schema.now map.now.pairs call.now sent.now) }
{
    match call {
        Call::Sql(text, binds) => ask_the_same(map, text, binds.as_slice(), sent),
        Call::Connect(service) => Ok(connects_alike(schema, service, sent)),
        Call::Disconnect => Ok(is_end(sent)),
    }
}

// Whether a call asks this with these binds, renamed.
fn ask_the_same(map: &IdMap, text: &Txt, binds: &[Value], sent: &Call) -> Result<bool, Memory>
    ensures { IfOk result (λ same. IsTrue same ↔ AsksTheSame map.now.pairs text.now binds.now sent.now) }
{
    match sent {
        Call::Sql(other, others) if text.same(other) => {
            are_renamed(map, binds, others.as_slice())
        }
        Call::Sql(_, _) => Ok(false),
        Call::Connect(_) => Ok(false),
        Call::Disconnect => Ok(false),
    }
}

// Whether a call connects, to a service that the schema has where it has this one too.
fn connects_alike(schema: &Schema, service: &Txt, sent: &Call) -> bool
    ensures { IsTrue result ↔ ConnectsAlike schema.now service.now sent.now }
{
    match sent {
        Call::Connect(other) => {
            schema.service_named(service).is_some() == schema.service_named(other).is_some()
        }
        Call::Sql(_, _) => false,
        Call::Disconnect => false,
    }
}

fn is_end(call: &Call) -> bool
    ensures { IsTrue result ↔ IsEnd call.now }
{
    match call {
        Call::Disconnect => true,
        Call::Sql(_, _) => false,
        Call::Connect(_) => false,
    }
}

// Whether the second values are the first with each id replaced by its image, place by place.
fn are_renamed(map: &IdMap, values: &[Value], others: &[Value]) -> Result<bool, Memory>
    ensures { IfOk result (λ renamed. IsTrue renamed ↔ AreRenamed map.now.pairs values.now others.now) }
{
    if values.len() != others.len() {
        return Ok(false);
    }
    for i in 0..values.len() {
        if !is_renamed(map, &values[i], &others[i])? {
            return Ok(false);
        }
    }
    Ok(true)
}

// Whether the second value is the first with its id replaced by the image.
fn is_renamed(map: &IdMap, value: &Value, other: &Value) -> Result<bool, Memory>
    ensures { IfOk result (λ renamed. IsTrue renamed ↔ IsRenamed map.now.pairs value.now other.now) }
{
    know_map(map);
    match Member::carried(value, map)? {
        Some(image) => Ok(image.same(other)),
        None => Ok(false),
    }
}
