//! The fields of a line.

use anyhow::anyhow;
use case_text::stamps_of;
use desk_values::find_word;
use object_depends::{Fact, Mode};
use std::alloc::Global;

/// A number.
pub fn number_of(text: &str) -> Result<u32, anyhow::Error> {
    text.parse::<u32>().map_err(|_| anyhow!("no number"))
}

/// A mode by its word.
pub fn mode_of(text: &str) -> Result<Mode, anyhow::Error> {
    find_word(text.as_bytes()).ok_or(anyhow!("no mode"))
}

/// A call: its session, how many commits it saw, its number, the tables that it references and those that it wrote.
pub fn fact_of(alloc: Global, text: &str) -> Result<Fact, anyhow::Error> {
    let parts: Vec<&str> = text.split(' ').collect(alloc)?;
    fact_of_parts(alloc, parts.as_slice())
}

fn fact_of_parts(alloc: Global, parts: &[&str]) -> Result<Fact, anyhow::Error> {
    let [session, seen, number, refs, writes] = parts else {
        return Err(anyhow!("no call"));
    };
    Ok(Fact {
        session: number_of(session)?,
        seen: u64::from(number_of(seen)?),
        number: u64::from(number_of(number)?),
        refs: tables_of(alloc, refs)?,
        writes: tables_of(alloc, writes)?,
    })
}

// A set of tables.
fn tables_of(alloc: Global, text: &str) -> Result<u32, anyhow::Error> {
    if text == "all" {
        return Ok(u32::MAX);
    }
    set_of(stamps_of(alloc, text)?.as_slice()).ok_or(anyhow!("no such table"))
}

fn set_of(tables: &[u32]) -> Option<u32> {
    let mut set = 0;
    for table in tables {
        set |= 1u32.checked_shl(*table)?;
    }
    Some(set)
}
