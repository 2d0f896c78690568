//! Lanes at doors of their own. Each run has two sessions whose calls come in pairs, and a door that holds each call of a pair until
//! the other one comes: a run that takes one call after the other, in whatever order, does not get past it. Then a door that
//! keeps the pauses that it is told, also of one lane that serves one session after the other. And two connections to a server, of which the
//! first is held until the second comes too.
//!
//! Enters: nothing. Leaves: lines, the same whatever the schedule: the status and the line of each run, and what its door saw. It touches
//! the standard output, threads and the clock alone.
#![tactic(auto)]

mod captures;
mod doors;

use captures::{Named, PAIRS, PAUSED, files_of, guests, ran};
use desk_files::{MemDoor, MemFiles};
use doors::{FirstDoor, PairDoor};
use std::alloc::Global;
use std::sync::Wait;
use std::thread::Threads;
use std::time::Clock;

fn main(rt: HostRuntime) -> Result<(), anyhow::Error> {
    let alloc = rt.alloc();
    pairs(&rt, alloc, "run cap out --mode off")?;
    pairs(&rt, alloc, "run cap out --mode scn")?;
    pairs(&rt, alloc, "run cap out --mode object")?;
    pairs(&rt, alloc, "run cap out --mode fence")?;
    pairs(&rt, alloc, "run cap out --mode off --lanes 2")?;
    passes(
        &rt,
        alloc,
        "run cap out --mode off --think 33 --connect 0",
        &PAUSED,
    )?;
    passes(
        &rt,
        alloc,
        "run cap out --mode off --think 33 --connect 0 --lanes 64",
        &PAUSED,
    )?;
    passes(
        &rt,
        alloc,
        "run cap out --mode off --connect 0 --lanes 1",
        &PAIRS,
    )?;
    served(&rt, alloc)?;
    Ok(())
}

// Two sessions whose calls hold each other.
fn pairs<R: Clock + Wait + Threads + Sync + Print>(
    rt: &R,
    alloc: Global,
    words: &str,
) -> Result<(), anyhow::Error> {
    let mut files = files_of(alloc, &PAIRS)?;
    let door = PairDoor::new();
    let said = ran(rt, alloc, words, &mut files, guests(alloc, 0)?, &door)?;
    let (came, spent) = (door.came(), door.is_spent());
    println!(rt; "{words}: {said}, {came} came, turns spent: {spent}")?;
    shown(rt, alloc, &files, "out/fence.txt")
}

// Two connections, of which the first is held until the second comes.
fn served<R: Clock + Wait + Threads + Sync + Print>(
    rt: &R,
    alloc: Global,
) -> Result<(), anyhow::Error> {
    let mut files = files_of(alloc, &PAIRS)?;
    let door = FirstDoor::new();
    let words = "serve made cap/start.cap 2";
    let said = ran(rt, alloc, words, &mut files, guests(alloc, 2)?, &door)?;
    let (came, spent) = (door.came(), door.is_spent());
    println!(rt; "{words}: {said}, {came} came, turns spent: {spent}")?;
    Ok(())
}

// A run at a door that keeps what passes it.
fn passes<R: Clock + Wait + Threads + Sync + Print>(
    rt: &R,
    alloc: Global,
    words: &str,
    named: &[Named],
) -> Result<(), anyhow::Error> {
    let mut files = files_of(alloc, named)?;
    let door = MemDoor::new(alloc);
    let said = ran(rt, alloc, words, &mut files, guests(alloc, 0)?, &door)?;
    println!(rt; "{words}: {said}")?;
    for passed in door.passed(rt)?.as_slice() {
        let (stamp, micros) = (passed.stamp, passed.micros);
        println!(rt; "stamp {stamp} pauses {micros}")?;
    }
    shown(rt, alloc, &files, "out/journal.txt")
}

// A file of a run, where it is there.
fn shown<R: Print>(
    rt: &R,
    alloc: Global,
    files: &MemFiles,
    name: &str,
) -> Result<(), anyhow::Error> {
    let name = captures::txt(alloc, name)?;
    if let Some(bytes) = files.held(&name) {
        print!(rt; "{}", str::from_utf8(bytes.as_slice())?)?;
    }
    Ok(())
}
