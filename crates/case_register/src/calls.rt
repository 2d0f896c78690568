//! Calls of a keeper, through its bound, and what they answer.

use case_text::{first_word, line_of_bytes, small_number, txt, unescaped};
use desk_values::Bytes;
use run_register::{KeepErr, Keeper, RegErr, Registered, register};
use std::alloc::Global;
use std::fmt::Write;

/// Calls of one keeper.
pub fn append_calls<K: Keeper>(
    alloc: Global,
    keeper: &mut K,
    calls: &str,
    to: &mut String,
) -> Result<(), anyhow::Error> {
    for call in calls.split('|') {
        append_call(alloc, keeper, call, to)?;
    }
    Ok(())
}

/// A call, and what it answers: `get NAME`, `add NAME REPORT`, `register NAME REPORT`, `all`, `accept NAME STAMP CLASS`, or
/// `accepted NAME`. In a REPORT `\NUMBER;` stands for the byte of that number.
pub fn append_call<K: Keeper>(
    alloc: Global,
    keeper: &mut K,
    call: &str,
    to: &mut String,
) -> Result<(), anyhow::Error> {
    let (word, rest) = first_word(call);
    let (name, rest) = first_word(rest);
    let report = unescaped(alloc, rest)?;
    match word {
        "get" => append_kept(alloc, &keeper.get(&txt(alloc, name)?), to)?,
        "add" => append_kept(
            alloc,
            &keeper.add(&txt(alloc, name)?, report.as_slice()),
            to,
        )?,
        "register" => append_registered(
            alloc,
            &register(keeper, &txt(alloc, name)?, report.as_slice()),
            to,
        )?,
        "all" => append_runs(alloc, keeper, to)?,
        "accept" => append_done(accept(alloc, keeper, name, rest)?, to)?,
        _ => append_accepted(alloc, keeper, name, to)?,
    }
    to.push_str("; ")?;
    Ok(())
}

fn accept<K: Keeper>(
    alloc: Global,
    keeper: &mut K,
    name: &str,
    rest: &str,
) -> Result<Result<(), KeepErr>, anyhow::Error> {
    let (stamp, class) = first_word(rest);
    let (stamp, class) = (small_number(stamp), small_number(class));
    Ok(keeper.accept(&txt(alloc, name)?, stamp, class))
}

/// What a call without an answer of its own came to.
pub fn append_done(done: Result<(), KeepErr>, to: &mut String) -> Result<(), anyhow::Error> {
    match done {
        Ok(()) => to.push_str("done")?,
        Err(error) => write!(to, "{error}")?,
    }
    Ok(())
}

fn append_kept(
    alloc: Global,
    kept: &Result<Option<Bytes>, KeepErr>,
    to: &mut String,
) -> Result<(), anyhow::Error> {
    match kept {
        Ok(Some(report)) => {
            let report = line_of_bytes(alloc, report.as_slice())?;
            write!(to, "[{report}]")?;
        }
        Ok(None) => to.push_str("none")?,
        Err(error) => write!(to, "{error}")?,
    }
    Ok(())
}

fn append_registered(
    alloc: Global,
    registered: &Result<Registered, RegErr>,
    to: &mut String,
) -> Result<(), anyhow::Error> {
    match registered {
        Ok(Registered::New) => to.push_str("new")?,
        Ok(Registered::Again) => to.push_str("again")?,
        Err(RegErr::Other { kept }) => {
            let kept = line_of_bytes(alloc, kept.as_slice())?;
            write!(to, "other [{kept}]")?;
        }
        Err(RegErr::Failed) => to.push_str("failed")?,
        Err(RegErr::Memory) => to.push_str("out of memory")?,
    }
    Ok(())
}

fn append_runs<K: Keeper>(
    alloc: Global,
    keeper: &mut K,
    to: &mut String,
) -> Result<(), anyhow::Error> {
    let runs = match keeper.all() {
        Ok(runs) => runs,
        Err(error) => return append_done(Err(error), to),
    };
    write!(to, "{} runs", runs.len())?;
    for run in runs.as_slice() {
        let report = line_of_bytes(alloc, run.report.as_slice())?;
        write!(to, " {}=[{report}]", run.name.as_str())?;
    }
    Ok(())
}

fn append_accepted<K: Keeper>(
    alloc: Global,
    keeper: &mut K,
    name: &str,
    to: &mut String,
) -> Result<(), anyhow::Error> {
    let accepted = match keeper.accepted(&txt(alloc, name)?) {
        Ok(accepted) => accepted,
        Err(error) => return append_done(Err(error), to),
    };
    write!(to, "{} accepted", accepted.len())?;
    for accept in accepted.as_slice() {
        write!(to, " {}:{}", accept.stamp, accept.class)?;
    }
    Ok(())
}
