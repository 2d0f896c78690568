//! What stands before a call: ids without images, and commits that differ.

ghost use Rattle.std.specs.Prelude.{◌≡◌, is_some, IfOk};
ghost use Rattle.divergence.specs.Class.{is_committed, is_write_divergence};
ghost use Rattle.id_pairs.specs.Carrying.Carried.{carried_row, carried_value};
ghost use Rattle.replay_history.specs.Capture.{binds_of};

use desk_values::{Call, Memory, Outcome, Reply, Value};
use divergence::{Class, class_of};
use remap_ids::{Id, IdMap};
use std::alloc::Global;

/// Whether each id among the binds of a call has an image.
pub fn has_images(map: &IdMap, call: &Call) -> bool
    ensures { result ≡ is_some (carried_row map.now.pairs (binds_of call.now)) }
{
    match call {
        Call::Sql(_, binds) => have_images(map, binds.as_slice()),
        Call::Connect(_) => true,
        Call::Disconnect => true,
    }
}

fn have_images(map: &IdMap, binds: &[Value]) -> bool
    ensures { result ≡ is_some (carried_row map.now.pairs binds.now) }
{
    for value in binds {
        if !has_image(map, value) {
            return false;
        }
    }
    true
}

// Whether a value is no id, or one that has an image.
fn has_image(map: &IdMap, value: &Value) -> bool
    ensures { result ≡ is_some (carried_value map.now.pairs value.now) }
{
    match Id::of_value(value) {
        Some(id) => map.image(id).is_some(),
        None => true,
    }
}

/// Whether a call differs, and is a commit in the capture or in the replay.
pub fn is_write_divergence(
    alloc: Global,
    map: &IdMap,
    captured: &Reply,
    replayed: &Reply,
) -> Result<bool, Memory>
    ensures { IfOk result (λ diverges. diverges ≡ is_write_divergence map.now.pairs captured.now replayed.now) }
{
    if !is_committed(&captured.outcome) && !is_committed(&replayed.outcome) {
        return Ok(false);
    }
    Ok(class_of(alloc, map, captured, replayed)? != Class::Same)
}

fn is_committed(outcome: &Outcome) -> bool
    ensures { result ≡ is_committed outcome.now }
{
    matches!(outcome, Outcome::Committed(_))
}
