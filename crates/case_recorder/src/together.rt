//! What a recorder and the doors to it have put together.

use crate::fields::two;
use crate::shown;
use anyhow::anyhow;
use capture_format::write_session;
use capture_recorder::{
    GatherErr, Recorder, Said, SaidList, SaidLists, Turned, TurnedList, TurnedLists, gather,
};
use case_text::call_of;
use desk_values::{CallList, List, Outcome, Reply, SessionLists, same_items};
use std::alloc::Global;

/// The files of the sessions where the lists agree, each after how many calls it holds; else where they do not. Lines of
/// the script that begin with `said` and `turned` tell of more in the lists than the doors have.
pub fn gathered(
    alloc: Global,
    recorder: &Recorder,
    script: &[String],
    said: SaidLists,
    turned: TurnedLists,
) -> Result<String, anyhow::Error> {
    let said = with_said(alloc, script, said)?;
    let turned = with_turned(alloc, script, turned)?;
    agreed(alloc, recorder, &said, &turned)
}

fn agreed(
    alloc: Global,
    recorder: &Recorder,
    said: &SaidLists,
    turned: &TurnedLists,
) -> Result<String, anyhow::Error> {
    match gather(alloc, recorder.start(), recorder, said, turned) {
        Ok(sessions) => files_of(alloc, recorder, &sessions),
        Err(refusal) => difference(alloc, &refusal),
    }
}

fn with_said(
    alloc: Global,
    script: &[String],
    said: SaidLists,
) -> Result<SaidLists, anyhow::Error> {
    let mut lists = said.into_vec();
    for line in script {
        if let Some(rest) = line.as_str().strip_prefix("said ") {
            add_said(alloc, rest, lists.as_mut_slice())?;
        }
    }
    Ok(List::from_vec(lists))
}

fn add_said(alloc: Global, text: &str, lists: &mut [SaidList]) -> Result<(), anyhow::Error> {
    let (session, call) = two(text, "no session")?;
    let place: usize = session.parse()?;
    let list = lists.get_mut(place).ok_or(anyhow!("no such session"))?;
    list.push(Said {
        call: call_of(alloc, call)?,
        reply: disconnected(alloc),
    })?;
    Ok(())
}

fn disconnected(alloc: Global) -> Reply {
    Reply {
        outcome: Outcome::Disconnected,
        draws: List::new(alloc),
        made: None,
    }
}

fn with_turned(
    alloc: Global,
    script: &[String],
    turned: TurnedLists,
) -> Result<TurnedLists, anyhow::Error> {
    let mut lists = turned.into_vec();
    for line in script {
        if let Some(rest) = line.as_str().strip_prefix("turned ") {
            add_turned(alloc, rest, lists.as_mut_slice())?;
        }
    }
    Ok(List::from_vec(lists))
}

fn add_turned(alloc: Global, text: &str, lists: &mut [TurnedList]) -> Result<(), anyhow::Error> {
    let (session, entry) = two(text, "no session")?;
    let place: usize = session.parse()?;
    let list = lists.get_mut(place).ok_or(anyhow!("no such session"))?;
    list.push(entry_of(alloc, entry)?)?;
    Ok(())
}

// An entry: PLACE HELD, `full` or `stranger`, and the call.
fn entry_of(alloc: Global, text: &str) -> Result<Turned, anyhow::Error> {
    let (place, text) = two(text, "no place")?;
    let (held, text) = two(text, "no number")?;
    let (cause, call) = two(text, "no cause")?;
    Ok(Turned {
        place: place.parse()?,
        held: held.parse()?,
        full: cause == "full",
        call: call_of(alloc, call)?,
    })
}

// The file of each session, which has to hold just the calls that were gathered.
fn files_of(
    alloc: Global,
    recorder: &Recorder,
    sessions: &SessionLists,
) -> Result<String, anyhow::Error> {
    let mut text = String::new(alloc);
    for session in 0..4 {
        let list = sessions
            .get(session as usize)
            .ok_or(anyhow!("no such session"))?;
        text.push_str(file_of(alloc, recorder, list, session)?.as_str())?;
    }
    Ok(text)
}

// The file of a session; of one with many calls only their number.
fn file_of(
    alloc: Global,
    recorder: &Recorder,
    list: &CallList,
    session: u32,
) -> Result<String, anyhow::Error> {
    let count = list.len();
    if count > 100 {
        return Ok(format!(in alloc; "{count} calls\n")?);
    }
    let calls = recorder.session(session)?;
    if !same_items(calls.as_slice(), list.as_slice()) {
        return Err(anyhow!("other calls"));
    }
    let file = write_session(alloc, &calls, session, recorder.start().schema().version())?;
    shown::text(alloc, &file)
}

fn difference(alloc: Global, refusal: &GatherErr) -> Result<String, anyhow::Error> {
    match refusal {
        GatherErr::OtherStart { .. } => Ok(String::from_str(alloc, "other start\n")?),
        GatherErr::Mismatch {
            session,
            place,
            kept,
            answered,
        } => {
            let kept = shown::said(alloc, kept)?;
            let answered = shown::said(alloc, answered)?;
            Ok(format!(in alloc; "mismatch {session} {place}: {kept} / {answered}\n")?)
        }
        GatherErr::Refusal { session, n, .. } => {
            Ok(format!(in alloc; "refusal {session} {n}\n")?)
        }
        GatherErr::Memory => Err(anyhow!("out of memory")),
    }
}
