//! Many pairs of ids.

use crate::known::Ids;
use crate::replies::giving;
use anyhow::anyhow;
use desk_values::{List, Memory, Reply};
use id_pairs::Id;
use std::alloc::Global;

/// Learns so many pairs of rows, and looks each up. It tells how many were found.
pub fn learnt(alloc: Global, number: &str) -> Result<String, anyhow::Error> {
    let number: u32 = number.parse()?;
    if learn(alloc, number)? != number {
        return Err(anyhow!("a pair is lost"));
    }
    Ok(format!(in alloc; "{number}")?)
}

// How many of so many learnt rows have an image.
fn learn(alloc: Global, number: u32) -> Result<u32, anyhow::Error> {
    let mut ids = Ids::none(alloc)?;
    for row in 0..number {
        let replayed = u64::from(number) + u64::from(row);
        learn_one(alloc, &mut ids, u64::from(row), replayed)?;
    }
    Ok(found(&ids, number))
}

fn learn_one(alloc: Global, ids: &mut Ids, captured: u64, replayed: u64) -> Result<(), Memory> {
    ids.learn(&made(alloc, captured), &made(alloc, replayed))
}

// How many of the rows have an image.
fn found(ids: &Ids, number: u32) -> u32 {
    let mut found: u32 = 0;
    for row in 0..number {
        if ids.image(Id::Row(u64::from(row))).is_some() {
            found = found.saturating_add(1);
        }
    }
    found
}

fn made(alloc: Global, row: u64) -> Reply {
    giving(List::new(alloc), Some(row))
}
