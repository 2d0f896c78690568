//! A write that is cut off: what the files hold then, at many places of it.

use case_text::{first_word, txt};
use desk_values::{Bytes, Copied, List, Memory};
use run_register::{KeepErr, Keeper};
use sqlite_keeper::RegisterFile;
use std::alloc::Global;
use std::fs;

/// How many bytes lie between two places.
const STEP: usize = 947;

/// How many bytes the report has that is added.
const LENGTH: usize = 9_000;

/// What is held at the places of a write, told where it changes from one place to the next: `old` where a run is there that was
/// added before it, and `new` where the one that it adds is there too. At each place the log has what was written of it by
/// then, and behind that what it had before. The files are read under a second name.
pub fn answer(system: &HostRuntime, alloc: Global, text: &str) -> Result<String, anyhow::Error> {
    let (path, other) = first_word(text);
    let path_of_log = format!(in alloc; "{path}-wal")?;
    let mut keeper = RegisterFile::new(system, alloc, path);
    keeper.add(&txt(alloc, "base")?, b"x")?;
    keeper.close()?;
    let before = fs::read(system, path_of_log.as_str())?;
    keeper.add(&txt(alloc, "more")?, long_report(alloc)?.as_slice())?;
    let after = fs::read(system, path_of_log.as_str())?;
    told(
        system,
        alloc,
        (path, other),
        before.as_slice(),
        after.as_slice(),
    )
}

fn long_report(alloc: Global) -> Result<Bytes, Memory> {
    let mut report = List::new(alloc);
    for place in 0..LENGTH {
        report.push((place % 251) as u8)?;
    }
    Ok(report)
}

/// What a register holds.
#[derive(Clone, Copy, PartialEq, Eq)]
enum Held {
    /// The run that was added before.
    Old,
    /// That one, and the one that the write adds.
    New,
    /// Anything else.
    Other,
}

impl Held {
    fn word(self) -> &'static str {
        match self {
            Held::Old => "old ",
            Held::New => "new ",
            Held::Other => "other ",
        }
    }
}

// What is held at each place. The file itself is written when it is closed.
fn told(
    system: &HostRuntime,
    alloc: Global,
    (path, other): (&str, &str),
    before: &[u8],
    after: &[u8],
) -> Result<String, anyhow::Error> {
    let path_of_log = format!(in alloc; "{other}-wal")?;
    let mut written = List::new(alloc);
    let mut told = String::new(alloc);
    let mut last = None;
    for chunk in after.chunks(STEP) {
        written.append(chunk)?;
        let rest = before.get(written.len()..).unwrap_or(&[]);
        fs::copy(system, path, other)?;
        fs::write(system, path_of_log.as_str(), log_of(&written, rest)?)?;
        let held = held_in(system, alloc, other)?;
        if last != Some(held) {
            told.push_str(held.word())?;
            last = Some(held);
        }
    }
    Ok(told)
}

// The bytes that were written, and those behind them.
fn log_of(written: &Bytes, rest: &[u8]) -> Result<Vec<u8>, Memory> {
    let mut log = written.copy()?;
    log.append(rest)?;
    Ok(log.into_vec())
}

// What the register of this name holds.
fn held_in(system: &HostRuntime, alloc: Global, path: &str) -> Result<Held, anyhow::Error> {
    let mut keeper = RegisterFile::new(system, alloc, path);
    let base = keeper.get(&txt(alloc, "base")?);
    let more = keeper.get(&txt(alloc, "more")?);
    let report = long_report(alloc)?;
    Ok(
        match (has(&base, b"x"), has(&more, report.as_slice()), more) {
            (true, true, _) => Held::New,
            (true, false, Ok(None)) => Held::Old,
            _ => Held::Other,
        },
    )
}

fn has(found: &Result<Option<Bytes>, KeepErr>, report: &[u8]) -> bool {
    match found {
        Ok(Some(kept)) => kept.as_slice() == report,
        _ => false,
    }
}
