//! Cases of the doors to a recorder, as lines. A case is `case NAME`, the lines of a start file, and `doors`, then the lines of a script,
//! up to `gather`: over the start, with the doors of sessions 0 to 3. For each it prints what its lines are answered, and what is gathered.
//! In a script
//!
//! - `clock`, as its first line: the clock goes on by one at each reading; `clock N,N`: it tells these moments; else it stands
//! - `N connect SERVICE`, and so `disconnect`, `sql TEXT` and `bind VALUES sql TEXT`: a call through the door of session N, which is
//!   answered by the text of the reply, or why the call was turned away
//! - `fill N`: so many commits through the door of session 0; it prints what the last is answered
//! - `close N`: the end of a door; it prints how many calls it has said then
//! - `said N CALL`: the door of N says at the end that it said this call, and was disconnected
//! - `turned N PLACE HELD full CALL`, or `stranger` for `full`: it says at the end that it turned this call away
//! - `gather`: the files of the sessions, or where the recorder and the doors differ
//!
//! Enters: lines of the standard input. Leaves: lines. It touches the standard input and output alone, and a lock. The expected
//! lines were worked out by hand and by a program of its own, from the rules of the recorder and not by it.
#![tactic(auto)]

mod doors;
mod fields;
mod shown;
mod stage;
mod together;

use stage::{Stage, told};
use std::alloc::Global;
use std::sync::Wait;
use std::time::Clock;

fn main(rt: HostRuntime) -> Result<(), anyhow::Error> {
    let alloc = rt.alloc();
    let mut stage = Stage::new(alloc);
    run(&rt, &rt, alloc, &mut stage)
}

fn run<R: Clock + Wait>(
    host: &HostRuntime,
    rt: &R,
    alloc: Global,
    stage: &mut Stage,
) -> Result<(), anyhow::Error> {
    for line in host.lines(alloc) {
        let line = line?;
        if let Some(answer) = told(rt, alloc, stage, line.as_str())? {
            println!(host; "{answer}")?;
        }
    }
    Ok(())
}
