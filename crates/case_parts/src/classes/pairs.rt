//! The pairs of ids that are known.

use crate::known::Ids;
use crate::replies;
use anyhow::anyhow;
use desk_values::{List, Memory, Reply, Value, Values, read_value};
use std::alloc::Global;

/// The pairs between the commas, or none where the text is `-`.
pub fn known(alloc: Global, pairs: &str) -> Result<Ids, anyhow::Error> {
    let mut known = Ids::none(alloc)?;
    if pairs != "-" {
        learn(alloc, pairs, &mut known)?;
    }
    Ok(known)
}

fn learn(alloc: Global, pairs: &str, known: &mut Ids) -> Result<(), anyhow::Error> {
    for pair in pairs.split(',') {
        learn_one(alloc, pair, known)?;
    }
    Ok(())
}

fn learn_one(alloc: Global, pair: &str, known: &mut Ids) -> Result<(), anyhow::Error> {
    let (captured, replayed) = pair.split_once('=').ok_or(anyhow!("no pair"))?;
    let captured = giving(alloc, captured)?;
    learn_given(alloc, &captured, replayed, known)
}

fn learn_given(
    alloc: Global,
    captured: &Reply,
    replayed: &str,
    known: &mut Ids,
) -> Result<(), anyhow::Error> {
    let replayed = giving(alloc, replayed)?;
    Ok(known.learn(captured, &replayed)?)
}

// A reply that gives just this id.
fn giving(alloc: Global, text: &str) -> Result<Reply, anyhow::Error> {
    match read_value(alloc, text.as_bytes())? {
        Value::Row(row) => Ok(replies::giving(List::new(alloc), Some(row))),
        draw => Ok(replies::giving(only(alloc, draw)?, None)),
    }
}

fn only(alloc: Global, draw: Value) -> Result<Values, Memory> {
    let mut draws = List::new(alloc);
    draws.push(draw)?;
    Ok(draws)
}
