//! Cases of the stores beneath the machine: who holds which rows and keys, which rows have a key, and what a row was at a commit.
//!
//! Enters: nothing. Leaves: a line for each store, of what it answers behind a few calls. It touches the standard output alone. The expected
//! lines were worked out by hand.
#![tactic(auto)]

use desk_values::{Image, Memory, Txt, Value};
use key_index::Keys;
use lock_table::Locks;
use row_versions::Versions;
use std::alloc::Global;

fn main(rt: HostRuntime) -> Result<(), anyhow::Error> {
    let alloc = rt.alloc();
    println!(rt; "rows that are held: {}", rows_held(alloc)?)?;
    println!(rt; "keys that are held: {}", keys_held(alloc)?)?;
    println!(rt; "rows of a key: {}", rows_of_keys(alloc)?)?;
    println!(rt; "spaces at the end: {}", at_each_level(alloc)?)?;
    println!(rt; "versions of a row: {}", versions_left(alloc)?)?;
    Ok(())
}

// What is held after a mark is free once its session goes back to the mark, and what was held before is not.
fn rows_held(alloc: Global) -> Result<String, anyhow::Error> {
    let mut locks = Locks::new(alloc, 1);
    locks.hold_row(0, 1)?;
    let mark = locks.mark(0);
    locks.hold_row(0, 2)?;
    locks.free_since(0, mark);
    let (freed, held) = (locks.hold_row(1, 2), locks.hold_row(1, 1));
    Ok(format!(in alloc; "{freed:?}, {held:?}")?)
}

// A key that is held is refused to another session until it is free; so it is in no other table.
fn keys_held(alloc: Global) -> Result<String, anyhow::Error> {
    let mut locks = Locks::new(alloc, 2);
    locks.reserve(1, 1)?;
    locks.hold_key(0, 3, &Value::Int(5))?;
    let held = locks.hold_key(1, 3, &Value::Int(5));
    let elsewhere = locks.holder_of_key(4, &Value::Int(5));
    locks.free(0);
    let freed = locks.hold_key(1, 3, &Value::Int(5));
    Ok(format!(in alloc; "{held:?}, {elsewhere:?}, {freed:?}")?)
}

// A key has its rows, each once and ascending, and loses just the one that is taken out.
fn rows_of_keys(alloc: Global) -> Result<String, Memory> {
    let mut keys = Keys::new(alloc, 1);
    keys.note(0, &Value::Int(5), 9)?;
    keys.note(0, &Value::Int(5), 7)?;
    keys.note(0, &Value::Int(6), 8)?;
    keys.note(1, &Value::Int(5), 3)?;
    keys.note(0, &Value::Int(5), 9)?;
    let count = keys.find(0, &Value::Int(5)).len();
    let first = keys.find(0, &Value::Int(5)).first().copied();
    keys.drop_pair(0, &Value::Int(5), 7);
    keys.drop_pair(0, &Value::Int(6), 7);
    let left = keys.find(0, &Value::Int(5)).first().copied();
    let others = keys.find(0, &Value::Int(6)).len();
    let nulls = keys.find(0, &Value::Null).len();
    Ok(format!(in alloc; "{count}, {first:?}, {left:?}, {others}, {nulls}")?)
}

// At level 2 spaces at the end of a key do not count, and at level 1 they do.
fn at_each_level(alloc: Global) -> Result<String, Memory> {
    let (alike, apart) = (rows_without_space(alloc, 2)?, rows_without_space(alloc, 1)?);
    Ok(format!(in alloc; "{alike:?}, {apart:?}")?)
}

// The first row of a text, where one is noted of that text with a space behind it.
fn rows_without_space(alloc: Global, level: u32) -> Result<Option<u64>, Memory> {
    let (short, long) = (text(alloc, b"ab")?, text(alloc, b"ab ")?);
    let mut keys = Keys::new(alloc, level);
    keys.note(0, &long, 4)?;
    Ok(keys.find(0, &short).first().copied())
}

fn text(alloc: Global, bytes: &[u8]) -> Result<Value, Memory> {
    match Txt::from_bytes(alloc, bytes) {
        Ok(text) => Ok(Value::Text(text)),
        Err(_) => Err(Memory),
    }
}

// What is over a cut is gone, and what is read at the least commit stays.
fn versions_left(alloc: Global) -> Result<String, Memory> {
    let mut versions = Versions::new(alloc);
    versions.put(1, image(7, 1))?;
    versions.put(2, image(7, 2))?;
    versions.put(2, image(8, 3))?;
    versions.cut_above(1);
    let before = versions.row_at(7, 2).map(|image| image.table);
    let gone = versions.row_at(8, 2).map(|image| image.table);
    let (first, next) = (versions.row_after(0), versions.row_after(7));
    versions.forget_below(2);
    let left = versions.row_at(7, 2).map(|image| image.table);
    Ok(format!(in alloc; "{before:?}, {gone:?}, {first:?}, {next:?}, {left:?}")?)
}

fn image(row: u64, table: u32) -> Image {
    Image {
        row,
        table,
        left: None,
    }
}
