//! Cases of how a replayed reply differs from the captured one, one on each line: `PAIRS CAPTURED = REPLAYED`. The pairs of
//! ids that are known by then are such as `r1=r2,d0.10=d0.11`, captured and replayed, or `-` for none; then come the texts of
//! the two replies. For each it prints the word of the class, as a copy of the report's line has it.
//!
//! The expected words were worked out by hand from the rules, and again by a program of its own.

mod pairs;

use crate::known::Ids;
use crate::replies::two_replies;
use anyhow::anyhow;
use case_text::first_word;
use desk_values::{Copied, Word};
use divergence::Class;
use replay_history::{Line, Lines};
use std::alloc::Global;

/// The word of the class of a line.
pub fn answer(alloc: Global, line: &str) -> Result<String, anyhow::Error> {
    let class = class(alloc, line)?;
    Ok(String::from_str(alloc, copied(alloc, class)?.word())?)
}

fn class(alloc: Global, line: &str) -> Result<Class, anyhow::Error> {
    let (pairs, replies) = first_word(line);
    let known = pairs::known(alloc, pairs)?;
    class_of_two(alloc, &known, replies)
}

fn class_of_two(alloc: Global, known: &Ids, replies: &str) -> Result<Class, anyhow::Error> {
    let (captured, replayed) = two_replies(alloc, replies)?;
    Ok(known.class(alloc, &captured, &replayed)?)
}

// The class of a report's line, by a copy of the lines.
fn copied(alloc: Global, class: Class) -> Result<Class, anyhow::Error> {
    let mut lines = Lines::new(alloc);
    lines.push(Line {
        stamp: 0,
        session: 0,
        place: 0,
        class,
    })?;
    match lines.copy()?.as_slice() {
        [line] => Ok(line.class),
        _ => Err(anyhow!("no one line")),
    }
}
