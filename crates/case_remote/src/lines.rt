//! Replays over lines in memory: what each run ends with, its files, and what its lines heard.

use crate::captures::{
    DRAWS, Named, ONE, STRANGER, count_of, failing_files_of, files_of, ran, shown,
};
use crate::dials::{heard_text, scripts_of};
use desk_values::Stamps;
use remote_link::{MemDial, MemScripts};
use std::alloc::Global;
use std::sync::Wait;
use std::thread::Threads;
use std::time::Clock;

/// The words of a replay in the captured order.
const SENT: &str = "run cap out --target 7080";

/// The captured replies of the first session that draws, and of the second.
const DRAWN: [(&str, Option<u32>); 2] = [
    ("connected [] -|count 1 [d0.10] r3|rows [i5] [] -", None),
    ("connected [] -|count 1 [d0.11] r4", None),
];

/// The first session reads another number than was captured.
const READ_OTHERWISE: [(&str, Option<u32>); 2] = [
    ("connected [] -|count 1 [d0.10] r3|rows [i6] [] -", None),
    ("connected [] -|count 1 [d0.11] r4", None),
];

/// A server that gives the second session the ids that it gave the first one.
const GIVEN_TWICE: [(&str, Option<u32>); 2] = [
    ("connected [] -|count 1 [d0.10] r3|rows [i5] [] -", None),
    ("connected [] -|count 1 [d0.10] r3", None),
];

/// The first session asks for a number that was never given, which the second one draws afterwards.
const NEVER_GIVEN: [(&str, Option<u32>); 2] = [
    ("connected [] -|refused 16 [] -", None),
    (
        "connected [] -|count 1 [d0.10] r3|committed 3:1:[d0.10,i5] [] -",
        None,
    ),
];

/// How many calls of the files a replay of two sessions makes: it reads three and writes four.
const FILE_CALLS: u32 = 7;

/// Two lines that answer what was captured, in the captured order and where numbered commits wait alone.
pub fn as_captured<R: Clock + Wait + Threads + Sync + Print>(
    rt: &R,
    alloc: Global,
) -> Result<(), anyhow::Error> {
    told(rt, alloc, "as captured", SENT, &DRAWN, &DRAWS)?;
    let words = "run cap out --mode fence --lanes 1 --target 7080";
    told(rt, alloc, "in the mode fence", words, &DRAWN, &DRAWS)
}

/// Two lines that answer otherwise: another row, ids that were given already, and an id that was never given.
pub fn otherwise<R: Clock + Wait + Threads + Sync + Print>(
    rt: &R,
    alloc: Global,
) -> Result<(), anyhow::Error> {
    told(rt, alloc, "another row", SENT, &READ_OTHERWISE, &DRAWS)?;
    told(rt, alloc, "ids given twice", SENT, &GIVEN_TWICE, &DRAWS)?;
    let words = "run cap out --mode off --lanes 1 --target 7080";
    told(
        rt,
        alloc,
        "an id never given",
        words,
        &NEVER_GIVEN,
        &STRANGER,
    )
}

/// One line whose call of this number fails.
pub fn failing<R: Clock + Wait + Threads + Sync + Print>(
    rt: &R,
    alloc: Global,
    call: u32,
) -> Result<(), anyhow::Error> {
    let replies = "connected [] -|count 1 [] r3|committed 3:0:[i3,i7] [] -";
    let name = format!(in alloc; "call {call} fails")?;
    told(rt, alloc, &name, SENT, &[(replies, Some(call))], &ONE)
}

/// Two lines, of which the one with this number can't be dialled.
pub fn undialled<R: Clock + Wait + Threads + Sync + Print>(
    rt: &R,
    alloc: Global,
    number: u32,
) -> Result<(), anyhow::Error> {
    let mut fails = Stamps::new(alloc);
    fails.push(number)?;
    let mut dial = MemDial::new(alloc, scripts_of(alloc, &DRAWN)?, fails);
    let name = format!(in alloc; "dial {number} fails")?;
    told_over(rt, alloc, &name, SENT, &mut dial, &DRAWS)
}

/// Two lines that answer what was captured, and files of which each call fails in turn.
pub fn on_failing_files<R: Clock + Wait + Threads + Sync + Print>(
    rt: &R,
    alloc: Global,
) -> Result<(), anyhow::Error> {
    for call in 0..FILE_CALLS {
        on_failing_file(rt, alloc, call)?;
    }
    Ok(())
}

fn on_failing_file<R: Clock + Wait + Threads + Sync + Print>(
    rt: &R,
    alloc: Global,
    call: u32,
) -> Result<(), anyhow::Error> {
    let mut fails = Stamps::new(alloc);
    fails.push(call)?;
    let mut files = failing_files_of(alloc, &DRAWS, fails)?;
    let mut dial = MemDial::new(alloc, scripts_of(alloc, &DRAWN)?, Stamps::new(alloc));
    let said = ran(rt, alloc, SENT, &mut files, &mut dial)?;
    let (written, lines) = (count_of(alloc, &files)?, lines_in(&dial));
    println!(rt;
        "call {call} of the files fails: {said}; {written} files, {lines} lines given back"
    )?;
    Ok(())
}

// How many lines were given back, up to three.
fn lines_in(dial: &MemDial) -> usize {
    (0..3).filter(|i| dial.given_back(*i).is_some()).count()
}

// Replays the capture of these files over lines with these scripts.
fn told<R: Clock + Wait + Threads + Sync + Print>(
    rt: &R,
    alloc: Global,
    name: &str,
    words: &str,
    scripts: &[(&str, Option<u32>)],
    capture: &[Named],
) -> Result<(), anyhow::Error> {
    let scripts: MemScripts = scripts_of(alloc, scripts)?;
    let mut dial = MemDial::new(alloc, scripts, Stamps::new(alloc));
    told_over(rt, alloc, name, words, &mut dial, capture)
}

// Replays it over lines of this dial.
fn told_over<R: Clock + Wait + Threads + Sync + Print>(
    rt: &R,
    alloc: Global,
    name: &str,
    words: &str,
    dial: &mut MemDial,
    capture: &[Named],
) -> Result<(), anyhow::Error> {
    let mut files = files_of(alloc, capture)?;
    let said = ran(rt, alloc, words, &mut files, dial)?;
    println!(rt; "{name}: {said}")?;
    let (written, heard) = (shown(alloc, &files)?, heard_text(alloc, dial)?);
    println!(rt; "{written}")?;
    println!(rt; "{heard}")?;
    Ok(())
}
