//! Cases of parts of the program by themselves, as lines. A line `part NAME` begins the cases of a part, and is printed:
//!
//! - `part sql`: the reader of SQL
//! - `part classes`: how a replayed reply differs from the captured one
//! - `part remaps`: what a bench drives of the map of ids
//! - `part gates`: which call may go next in a replay
//!
//! Enters: lines of the standard input. Leaves: lines. It touches the standard input and output alone. What the lines of a part
//! are is told by its module.
#![tactic(auto)]

mod classes;
mod gates;
mod known;
mod remaps;
mod replies;
mod sql;

use anyhow::anyhow;
use gates::Case;
use std::alloc::Global;

/// The part whose lines are answered, with what they told so far.
#[derive(Drop)]
enum Part {
    None,
    Sql,
    Classes,
    Remaps,
    Gates(Case),
}

fn main(rt: HostRuntime) -> Result<(), anyhow::Error> {
    let alloc = rt.alloc();
    let mut part = Part::None;
    for line in rt.lines(alloc) {
        let line = line?;
        if let Some(answer) = answered(alloc, &mut part, line.as_str())? {
            println!(rt; "{answer}")?;
        }
    }
    Ok(())
}

// What a line is answered, if anything.
fn answered(alloc: Global, part: &mut Part, line: &str) -> Result<Option<String>, anyhow::Error> {
    match line.strip_prefix("part ") {
        Some(name) => {
            *part = begun(alloc, name)?;
            Ok(Some(String::from_str(alloc, line)?))
        }
        None => answered_in(alloc, part, line),
    }
}

// A part of which nothing is told.
fn begun(alloc: Global, name: &str) -> Result<Part, anyhow::Error> {
    match name {
        "sql" => Ok(Part::Sql),
        "classes" => Ok(Part::Classes),
        "remaps" => Ok(Part::Remaps),
        "gates" => Ok(Part::Gates(Case::new(alloc))),
        _ => Err(anyhow!("no such part")),
    }
}

fn answered_in(
    alloc: Global,
    part: &mut Part,
    line: &str,
) -> Result<Option<String>, anyhow::Error> {
    match part {
        Part::None => Err(anyhow!("no part")),
        Part::Sql => some(sql::answer(alloc, line)?),
        Part::Classes => some(classes::answer(alloc, line)?),
        Part::Remaps => some(remaps::answer(alloc, line)?),
        Part::Gates(case) => gates::answer(alloc, case, line),
    }
}

fn some(answer: String) -> Result<Option<String>, anyhow::Error> {
    Ok(Some(answer))
}
