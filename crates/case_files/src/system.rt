//! The system's files: what is written is read, and what a write that is not finished leaves.

use crate::devices::append_call;
use crate::failing::{Failing, Step};
use case_text::{first_word, small_number, txt};
use desk_files::RealFiles;
use desk_values::Bytes;
use std::alloc::Global;
use std::fs::OpenFile;
use std::{fs, rt};

pub fn answer<R: rt::Files>(
    system: &R,
    alloc: Global,
    word: &str,
    text: &str,
    to: &mut Bytes,
) -> Result<(), anyhow::Error> {
    match word {
        "full" => call_files(&Failing::new(system, Step::Write), alloc, text, to),
        "unsynced" => call_files(&Failing::new(system, Step::Sync), alloc, text, to),
        "unrenamed" => call_files(&Failing::new(system, Step::Rename), alloc, text, to),
        _ => call_files(system, alloc, text, to),
    }
}

fn call_files<R: rt::Files>(
    system: &R,
    alloc: Global,
    steps: &str,
    to: &mut Bytes,
) -> Result<(), anyhow::Error> {
    let mut files = RealFiles::new(system, alloc);
    for step in steps.split('|') {
        append_step(system, alloc, &mut files, step, to)?;
        to.append(b"; ")?;
    }
    Ok(())
}

// A step: `folder NAME`, `stretch NAME COUNT` for a file of so many bytes, `remove NAME`, or a call.
fn append_step<R: rt::Files>(
    system: &R,
    alloc: Global,
    files: &mut RealFiles<'_, R>,
    step: &str,
    to: &mut Bytes,
) -> Result<(), anyhow::Error> {
    let (word, rest) = first_word(step);
    let (name, bytes) = first_word(rest);
    match word {
        "folder" => fs::create_dir(system, name)?,
        "stretch" => fs::create(system, name)?.set_len(u64::from(small_number(bytes)))?,
        "remove" => system.remove_dir_all(alloc, name)?,
        _ => append_call(alloc, files, word, &txt(alloc, name)?, bytes, to)?,
    }
    Ok(())
}
