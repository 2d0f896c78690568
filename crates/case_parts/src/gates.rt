//! Cases of which call may go next in a replay, and what a bench drives.
//!
//! - `case NAME`: a new case, with no calls
//! - `fact SESSION SEEN NUMBER REFS WRITES`: a call more; its tables are `-`, `all`, or numbers joined by `,`
//! - `csv`: the file `requires.csv` of these calls
//! - `required MODE K`: the stamps that a call requires, how many they are and the last
//! - `gate MODE`: a gate, where no call is started; then `start K`, `answer K`, `ready` (all ready stamps), `pick S,S`,
//!   `first`, `done S,S`, `mark`, `table T`
//! - `bench MODE N`: how many events a gate of N calls took
//!
//! The expected lines were worked out by hand from what each mode means, independently of the gate.

mod bench;
mod fields;
mod play;

use crate::some;
use anyhow::anyhow;
use case_text::{first_word, numbers_text, stamp_text, stamps_of};
use desk_values::List;
use fields::{fact_of, mode_of, number_of};
use object_depends::{FactList, Needs, requires_csv};
use play::Play;
use std::alloc::Global;

/// The case that is being told.
#[derive(Drop)]
pub struct Case {
    facts: FactList,
    play: Option<Play>,
}

impl Case {
    /// A case with no calls.
    pub fn new(alloc: Global) -> Case {
        Case {
            facts: List::new(alloc),
            play: None,
        }
    }
}

/// What a line is answered; the lines of calls are not. Each word has a function of its own, so that nothing else is at
/// hand where it fails.
pub fn answer(alloc: Global, case: &mut Case, line: &str) -> Result<Option<String>, anyhow::Error> {
    let (word, rest) = first_word(line);
    match word {
        "case" => {
            *case = Case::new(alloc);
            some(String::from_str(alloc, line)?)
        }
        "fact" => noted(alloc, &mut case.facts, rest),
        "csv" => some(csv(alloc, &case.facts)?),
        "required" => some(required(alloc, &case.facts, rest)?),
        "bench" => some(bench::told(alloc, rest)?),
        "gate" => gated(alloc, case, rest),
        _ => some(played_on(alloc, &mut case.play, word, rest)?),
    }
}

fn noted(alloc: Global, facts: &mut FactList, rest: &str) -> Result<Option<String>, anyhow::Error> {
    facts.push(fact_of(alloc, rest)?)?;
    Ok(None)
}

fn gated(alloc: Global, case: &mut Case, rest: &str) -> Result<Option<String>, anyhow::Error> {
    case.play = Play::new(alloc, &case.facts, mode_of(rest)?)?;
    let made = if case.play.is_some() {
        "gate"
    } else {
        "not sound"
    };
    some(format!(in alloc; "{made} {rest}")?)
}

fn played_on(
    alloc: Global,
    play: &mut Option<Play>,
    word: &str,
    rest: &str,
) -> Result<String, anyhow::Error> {
    match play {
        Some(play) => played(alloc, play, word, rest),
        None => Err(anyhow!("no gate")),
    }
}

// The file, without its last line feed.
fn csv(alloc: Global, facts: &FactList) -> Result<String, anyhow::Error> {
    if facts.len() > 100_000 {
        return Err(anyhow!("too many calls"));
    }
    let bytes = requires_csv(alloc, facts)?;
    let text = str::from_utf8(bytes.as_slice()).map_err(|_| anyhow!("no text"))?;
    Ok(String::from_str(alloc, text.strip_suffix('\n').unwrap_or(text))?)
}

fn required(alloc: Global, facts: &FactList, rest: &str) -> Result<String, anyhow::Error> {
    let (mode, k) = rest.split_once(' ').ok_or(anyhow!("no stamp"))?;
    let k = number_of(k)?;
    if facts.len() > 100_000 || facts.len() <= k as usize {
        return Err(anyhow!("no such call"));
    }
    let needs = Needs::of(alloc, facts, mode_of(mode)?)?;
    let stamps = needs.required(k)?;
    let (count, last) = needs.count_last(k);
    let list = numbers_text(alloc, stamps.as_slice())?;
    let last = stamp_text(alloc, last)?;
    Ok(format!(in alloc; "required {mode} {k}: {list}, count {count}, last {last}")?)
}

// What becomes of a gate, or what it says.
fn played(alloc: Global, play: &mut Play, word: &str, rest: &str) -> Result<String, anyhow::Error> {
    let done = match word {
        "start" if play.start(number_of(rest)?) => "started",
        "start" => "not ready",
        "answer" if play.answer(number_of(rest)?) => "answered",
        "answer" => "not open",
        _ => return asked(alloc, play, word, rest),
    };
    Ok(format!(in alloc; "{word} {rest}: {done}")?)
}

fn asked(alloc: Global, play: &Play, word: &str, rest: &str) -> Result<String, anyhow::Error> {
    let gate = play.gate();
    let answer = match word {
        "ready" => numbers_text(alloc, play.all_ready(alloc)?.as_slice())?,
        "first" => stamp_text(alloc, gate.first_open())?,
        "pick" => stamp_text(alloc, gate.pick(stamps_of(alloc, rest)?.as_slice()))?,
        "done" => format!(in alloc; "{}", gate.done(stamps_of(alloc, rest)?.as_slice()))?,
        "mark" => format!(in alloc; "{}", gate.mark())?,
        "table" => {
            let table = number_of(rest)?;
            if table >= 32 {
                return Err(anyhow!("no such table"));
            }
            format!(in alloc; "{}", gate.table_mark(table))?
        }
        _ => return Err(anyhow!("no such line")),
    };
    Ok(format!(in alloc; "{word} {rest}: {answer}")?)
}
