//! Cases of calls that no command shows by itself, one on each line: what it is of, a word, and what the call is given.
//! For each it prints what the call gives.
//!
//! Enters: lines of the standard input. Leaves: as many lines. It touches the standard input and output and folders of
//! its own where it runs. The expected values are worked out by hand from the forms and rules.
#![tactic(auto)]

mod connections;
mod devices;
mod errors;
mod failing;
mod lists;
mod network;
mod replies;
mod system;
mod values;

use case_text::first_word;
use desk_files::{Sink, StdSink};
use desk_values::{Bytes, List, ReadErr};
use std::alloc::Global;
use std::rt;

fn main(rt: HostRuntime) -> Result<(), anyhow::Error> {
    let alloc = rt.alloc();
    let mut out = StdSink::new(&rt);
    for line in rt.lines(alloc) {
        let mut answer = List::new(alloc);
        append_answer(&rt, alloc, line?.as_str(), &mut answer)?;
        answer.push(b'\n')?;
        out.write(answer.as_slice())?;
    }
    Ok(())
}

fn append_answer<R: rt::Files>(
    system: &R,
    alloc: Global,
    line: &str,
    to: &mut Bytes,
) -> Result<(), anyhow::Error> {
    let (group, rest) = first_word(line);
    let (word, rest) = first_word(rest);
    match group {
        "system" => system::answer(system, alloc, word, rest, to),
        _ => Ok(append_plain(alloc, group, word, rest, to)?),
    }
}

fn append_plain(
    alloc: Global,
    group: &str,
    word: &str,
    rest: &str,
    to: &mut Bytes,
) -> Result<(), ReadErr> {
    match group {
        "value" => append_text(values::answer(alloc, word, rest), to),
        "error" => append_text(errors::answer(alloc, word), to),
        "reply" => append_text(replies::answer(alloc, word, rest), to),
        "network" => Ok(network::answer(rest, to)?),
        "list" => lists::answer(alloc, word, rest, to),
        "connection" => connections::answer(alloc, word, rest, to),
        _ => devices::answer(alloc, word, rest, to),
    }
}

fn append_text(text: Result<String, ReadErr>, to: &mut Bytes) -> Result<(), ReadErr> {
    Ok(to.append(text?.as_bytes())?)
}
