//! A gate by itself, driven through many calls of 64 sessions with a window of 64 open calls.

use crate::gates::fields::{mode_of, number_of};
use crate::gates::play::Play;
use anyhow::anyhow;
use desk_values::List;
use object_depends::{Fact, FactList, Mode};
use std::alloc::Global;

const SESSIONS: u32 = 64;

const WINDOW: usize = 64;

/// How many events there were.
pub fn told(alloc: Global, rest: &str) -> Result<String, anyhow::Error> {
    let (mode, calls) = rest.split_once(' ').ok_or(anyhow!("no number of calls"))?;
    let mode = mode_of(mode)?;
    let facts = capture(alloc, number_of(calls)?)?;
    let events = events_of(alloc, &facts, mode)?;
    Ok(format!(in alloc; "{events} events")?)
}

// How many events the calls take. The gate is made last, so that nothing can fail beside it.
fn events_of(alloc: Global, facts: &FactList, mode: Mode) -> Result<u64, anyhow::Error> {
    let lane = sessions(alloc)?;
    match Play::new(alloc, facts, mode)? {
        Some(mut play) => driven(alloc, &mut play, lane.as_slice(), facts.len()),
        None => Err(anyhow!("too many calls")),
    }
}

fn sessions(alloc: Global) -> Result<Vec<u32>, anyhow::Error> {
    let mut lane = Vec::new(alloc);
    for session in 0..SESSIONS {
        lane.push(session)?;
    }
    Ok(lane)
}

// Calls of which every third is a numbered commit on one table, and the others read one table.
fn capture(alloc: Global, calls: u32) -> Result<FactList, anyhow::Error> {
    let mut facts = List::new(alloc);
    let mut commits = 0u64;
    for k in 0..calls {
        let table = 1 << (k % 32);
        let mut fact = Fact {
            session: k % SESSIONS,
            seen: commits,
            number: 0,
            refs: table,
            writes: 0,
        };
        if k % 3 == 0 {
            commits = commits.saturating_add(1);
            fact.number = commits;
            fact.writes = table;
        }
        facts.push(fact)?;
    }
    Ok(facts)
}

// Starts calls while the window has room, and answers one of the open ones where none may start.
fn driven(
    alloc: Global,
    play: &mut Play,
    lane: &[u32],
    calls: usize,
) -> Result<u64, anyhow::Error> {
    let mut open: Vec<u32> = Vec::new(alloc);
    let mut events = 0u64;
    for _ in 0..calls.saturating_mul(2) {
        let next = if open.len() < WINDOW {
            play.gate().pick(lane)
        } else {
            None
        };
        match next {
            Some(k) => {
                play.start(k);
                open.push(k)?;
            }
            None if open.is_empty() => return Ok(events),
            None => {
                let place = (events % open.len() as u64) as usize;
                let k = open.swap_remove(place);
                play.answer(k);
            }
        }
        events = events.saturating_add(1);
    }
    Ok(events)
}
