//! Replays against a server that runs elsewhere: lines in memory that answer as captured or otherwise, that fail or can't be dialled, files
//! that fail, and answers by HTTP on lines that fail. What the built program does where its lines do not fail is shown over the loopback.
//!
//! Enters: nothing. Leaves: lines, the same whatever the schedule: the status and the line of each run, its files, and what its lines
//! heard; and what each call is given by an answer. It touches the standard output, threads and the clock alone.
#![tactic(auto)]

mod answers;
mod captures;
mod dials;
mod lines;

fn main(rt: HostRuntime) -> Result<(), anyhow::Error> {
    let alloc = rt.alloc();
    lines::as_captured(&rt, alloc)?;
    lines::otherwise(&rt, alloc)?;
    for call in 0..3 {
        lines::failing(&rt, alloc, call)?;
    }
    lines::undialled(&rt, alloc, 0)?;
    lines::undialled(&rt, alloc, 1)?;
    lines::on_failing_files(&rt, alloc)?;
    answers::ends(&rt, alloc)?;
    Ok(())
}
