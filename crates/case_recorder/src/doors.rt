//! The doors of four sessions to one recorder.

use crate::fields::two;
use crate::shown;
use crate::together::gathered;
use anyhow::anyhow;
use capture_recorder::{
    CallDoor, CallErr, LockedDoor, Recorder, SaidList, SaidLists, TurnedList, TurnedLists,
};
use case_text::{call_of, number_of};
use desk_files::{Door, MemDoor};
use desk_schema::Start;
use desk_values::{Binds, Call, List, Memory, Reply, Txt};
use std::alloc::Global;
use std::sync::{Mutex, Wait};
use std::time::Clock;

/// A clock that tells these moments, one at each reading. Without moments it goes on by one.
#[derive(Drop)]
struct ToldDoor {
    moments: Vec<u64>,
    read: Mutex<usize>,
}

impl Door for ToldDoor {
    fn pass<R: Clock + Wait>(&self, _rt: &R, _k: u32, _micros: u64) {}

    fn now<R: Clock + Wait>(&self, rt: &R) -> u64 {
        let place = {
            let mut read = self.read.lock(rt);
            let place = *read;
            *read = place.saturating_add(1);
            place
        };
        if self.moments.is_empty() {
            return (place as u64).saturating_add(1);
        }
        self.moments.get(place).copied().unwrap_or(0)
    }
}

/// What the lines of a script are answered, and what the doors and the recorder have put together then. Behind a first line `clock`
/// the clock goes on at each reading, or tells the moments that stand there; else it stands.
pub fn played<R: Clock + Wait>(
    rt: &R,
    alloc: Global,
    start: &Start,
    script: &[String],
) -> Result<String, anyhow::Error> {
    match script {
        [first, rest @ ..] if first.as_str().starts_with("clock") => {
            let clock = clock_of(alloc, first.as_str())?;
            played_by(rt, alloc, start, rest, &clock)
        }
        _ => played_by(rt, alloc, start, script, &MemDoor::new(alloc)),
    }
}

// The clock of a line.
fn clock_of(alloc: Global, line: &str) -> Result<ToldDoor, anyhow::Error> {
    let mut moments = Vec::new(alloc);
    if let Some((_, text)) = line.split_once(' ') {
        for moment in text.split(',') {
            moments.push(number_of(moment)?)?;
        }
    }
    Ok(ToldDoor {
        moments,
        read: Mutex::new(0),
    })
}

// The recorder is let go at one place.
fn played_by<R: Clock + Wait, D: Door>(
    rt: &R,
    alloc: Global,
    start: &Start,
    script: &[String],
    clock: &D,
) -> Result<String, anyhow::Error> {
    let recorder = Mutex::new(Recorder::load(alloc, start)?);
    let said = said_by(rt, alloc, &recorder, script, clock);
    with_files(alloc, said, &recorder.into_inner(), script)
}

// The answers to the lines of a script, and the lists of the doors behind them.
#[derive(Drop)]
struct Answers {
    text: String,
    said: SaidLists,
    turned: TurnedLists,
}

fn said_by<R: Clock + Wait, D: Door>(
    rt: &R,
    alloc: Global,
    recorder: &Mutex<Recorder>,
    script: &[String],
    clock: &D,
) -> Result<Answers, anyhow::Error> {
    let mut doors = doors_of(alloc, recorder, clock)?;
    let text = answer_all(rt, alloc, doors.as_mut_slice(), script);
    answers_of(text, lists_of(alloc, doors))
}

fn answer_all<R: Clock + Wait, D: Door>(
    rt: &R,
    alloc: Global,
    doors: &mut [LockedDoor<'_, D>],
    script: &[String],
) -> Result<String, anyhow::Error> {
    let mut text = String::new(alloc);
    for line in script {
        text.push_str(answer(rt, alloc, doors, line.as_str())?.as_str())?;
    }
    Ok(text)
}

fn answers_of(
    text: Result<String, anyhow::Error>,
    lists: Result<(SaidLists, TurnedLists), Memory>,
) -> Result<Answers, anyhow::Error> {
    let text = text?;
    let (said, turned) = lists?;
    Ok(Answers { text, said, turned })
}

// The answers, and what the recorder and the doors have put together.
fn with_files(
    alloc: Global,
    said: Result<Answers, anyhow::Error>,
    recorder: &Recorder,
    script: &[String],
) -> Result<String, anyhow::Error> {
    let Answers {
        mut text,
        said,
        turned,
    } = said?;
    let files = gathered(alloc, recorder, script, said, turned)?;
    text.push_str(files.as_str())?;
    Ok(text)
}

fn doors_of<'a, D: Door>(
    alloc: Global,
    recorder: &'a Mutex<Recorder>,
    clock: &'a D,
) -> Result<Vec<LockedDoor<'a, D>>, anyhow::Error> {
    let mut doors = Vec::new(alloc);
    for session in 0..4 {
        doors.push(LockedDoor::new(alloc, session, recorder, clock))?;
    }
    Ok(doors)
}

fn lists_of<D: Door>(
    alloc: Global,
    doors: Vec<LockedDoor<'_, D>>,
) -> Result<(SaidLists, TurnedLists), Memory> {
    let mut lists = (List::new(alloc), List::new(alloc));
    for door in doors {
        keep(door.into_lists(), &mut lists)?;
    }
    Ok(lists)
}

fn keep(
    (said, turned): (SaidList, TurnedList),
    lists: &mut (SaidLists, TurnedLists),
) -> Result<(), Memory> {
    lists.0.push(said)?;
    lists.1.push(turned)
}

// What a line asks of a door, with its answer and a line feed. What is told of the lists is for later.
fn answer<R: Clock + Wait, D: Door>(
    rt: &R,
    alloc: Global,
    doors: &mut [LockedDoor<'_, D>],
    line: &str,
) -> Result<String, anyhow::Error> {
    let (word, rest) = two(line, "no word")?;
    let answer = match word {
        "said" | "turned" => return Ok(String::new(alloc)),
        "close" => closed(rt, alloc, doors, rest.parse()?)?,
        "fill" => filled(rt, alloc, doors, rest.parse()?)?,
        _ => called(rt, alloc, doors, word.parse()?, &call_of(alloc, rest)?)?,
    };
    Ok(format!(in alloc; "{answer}\n")?)
}

fn called<R: Clock + Wait, D: Door>(
    rt: &R,
    alloc: Global,
    doors: &mut [LockedDoor<'_, D>],
    session: usize,
    call: &Call,
) -> Result<String, anyhow::Error> {
    let door = doors.get_mut(session).ok_or(anyhow!("no such session"))?;
    told(alloc, door.call(rt, call))
}

fn told(alloc: Global, answer: Result<Reply, CallErr>) -> Result<String, anyhow::Error> {
    match answer {
        Ok(reply) => shown::reply(alloc, &reply),
        Err(refusal) => shown::refusal(alloc, refusal),
    }
}

// Closes a door, and tells how many calls it has said then.
fn closed<R: Clock + Wait, D: Door>(
    rt: &R,
    alloc: Global,
    doors: &mut [LockedDoor<'_, D>],
    session: usize,
) -> Result<String, anyhow::Error> {
    let door = doors.get_mut(session).ok_or(anyhow!("no such session"))?;
    door.close(rt)?;
    let (seat, said) = (door.session(), door.said().len());
    Ok(format!(in alloc; "session {seat} said {said}")?)
}

// So many commits of session 0, and what the last is answered.
fn filled<R: Clock + Wait, D: Door>(
    rt: &R,
    alloc: Global,
    doors: &mut [LockedDoor<'_, D>],
    count: u32,
) -> Result<String, anyhow::Error> {
    let commit = Call::Sql(Txt::from_bytes(alloc, b"COMMIT")?, Binds::new(alloc));
    let mut answer = String::new(alloc);
    for _ in 0..count {
        answer = called(rt, alloc, doors, 0, &commit)?;
    }
    Ok(answer)
}
