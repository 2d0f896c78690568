//! Keepers in memory, which fail where they were told to.

use crate::calls::append_calls;
use case_text::{first_word, stamps_of, txt};
use desk_values::{List, ReadErr, Stamps};
use run_register::{Keeper, Kept, KeptList, MemKeeper};
use std::alloc::Global;

/// A keeper to which these runs were added, of whose calls those with these numbers fail.
pub fn answer(alloc: Global, text: &str) -> Result<String, anyhow::Error> {
    let (fails, rest) = first_word(text);
    let (runs, calls) = first_word(rest);
    let runs = runs_of(alloc, runs)?;
    called(alloc, &runs, stamps_of(alloc, fails)?, calls)
}

/// For each of the calls a keeper of which just it fails.
pub fn faults(alloc: Global, calls: &str) -> Result<String, anyhow::Error> {
    let mut answers = String::new(alloc);
    for number in 0..u32::try_from(calls.split('|').count()).unwrap_or(0) {
        let mut fails = List::new(alloc);
        fails.push(number)?;
        let answer = called(alloc, &List::new(alloc), fails, calls)?;
        answers.push_str("/ ")?;
        answers.push_str(answer.as_str())?;
    }
    Ok(answers)
}

fn called(
    alloc: Global,
    runs: &KeptList,
    fails: Stamps,
    calls: &str,
) -> Result<String, anyhow::Error> {
    let mut keeper = MemKeeper::new(alloc, List::new(alloc), fails);
    for run in runs.as_slice() {
        let _ = keeper.add(&run.name, run.report.as_slice());
    }
    let mut answer = String::new(alloc);
    append_calls(alloc, &mut keeper, calls, &mut answer)?;
    Ok(answer)
}

// The runs `NAME=REPORT` between commas; none where the text is `-`.
fn runs_of(alloc: Global, text: &str) -> Result<KeptList, ReadErr> {
    let mut runs = List::new(alloc);
    for run in text.split(',') {
        if let Some((name, report)) = run.split_once('=') {
            runs.push(Kept {
                name: txt(alloc, name)?,
                report: List::from_slice(alloc, report.as_bytes())?,
            })?;
        }
    }
    Ok(runs)
}
