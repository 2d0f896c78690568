//! Cases of the register of runs, one on each line: which keeper is called, and its calls with `|` between. For each line it prints what
//! the calls answer.
//!
//! - `memory FAILS RUNS CALLS`: a keeper in memory to which these runs were added, of whose calls those with these numbers fail
//! - `faults CALLS`: one in memory, once for each of the calls, which fails
//! - `database CALLS`: one over a database in memory
//! - `file NAME CALLS`: one over a file
//! - `shared NAME CALLS`: two over one file; a call is that of the first, or of the second behind `other `
//! - `torn NAME NAME`: a file whose log is cut at many places of a write, each read by the second name
//!
//! Enters: lines of the standard input. Leaves: as many lines. It touches the standard input and output, and files of its own
//! where it runs. The expected lines were worked out by hand.
#![tactic(auto)]

mod calls;
mod databases;
mod memory;
mod torn;

use case_text::first_word;
use std::alloc::Global;

fn main(rt: HostRuntime) -> Result<(), anyhow::Error> {
    let alloc = rt.alloc();
    for line in rt.lines(alloc) {
        let answer = answer(&rt, alloc, line?.as_str())?;
        println!(rt; "{answer}")?;
    }
    Ok(())
}

fn answer(system: &HostRuntime, alloc: Global, line: &str) -> Result<String, anyhow::Error> {
    let (word, rest) = first_word(line);
    match word {
        "memory" => memory::answer(alloc, rest),
        "faults" => memory::faults(alloc, rest),
        "database" => databases::in_memory(alloc, rest),
        "file" => databases::in_file(system, alloc, rest),
        "shared" => databases::shared(system, alloc, rest),
        _ => torn::answer(system, alloc, rest),
    }
}
