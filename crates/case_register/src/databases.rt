//! Keepers over databases: in memory, in a file, and two over one file.

use crate::calls::{append_call, append_calls, append_done};
use case_text::first_word;
use run_register::Keeper;
use sqlite::Connection;
use sqlite_keeper::{RegisterFile, SqliteKeeper};
use std::alloc::Global;
use std::fs;
use std::rt::Files;

/// Calls of a keeper over a database in memory.
pub fn in_memory(alloc: Global, calls: &str) -> Result<String, anyhow::Error> {
    let mut keeper = SqliteKeeper::new(alloc, Connection::open_in_memory(alloc)?);
    let mut answer = String::new(alloc);
    append_calls(alloc, &mut keeper, calls, &mut answer)?;
    Ok(answer)
}

/// Calls of a keeper over a file. `close` closes it, `there` tells whether there is a file, `copy NAME` copies the file alone,
/// `folder NAME` makes a folder, and `clear NAME` takes one away with what is in it.
pub fn in_file(system: &HostRuntime, alloc: Global, text: &str) -> Result<String, anyhow::Error> {
    let (path, calls) = first_word(text);
    let mut keeper = RegisterFile::new(system, alloc, path);
    let mut answer = String::new(alloc);
    for call in calls.split('|') {
        append_file_call(system, alloc, &mut keeper, path, call, &mut answer)?;
    }
    Ok(answer)
}

fn append_file_call(
    system: &HostRuntime,
    alloc: Global,
    keeper: &mut RegisterFile<'_>,
    path: &str,
    call: &str,
    to: &mut String,
) -> Result<(), anyhow::Error> {
    match first_word(call) {
        ("close", _) => {
            append_done(keeper.close(), to)?;
            to.push_str("; ")?;
        }
        ("there", _) => to.push_str(file_word(fs::exists(system, path)?))?,
        ("copy", name) => {
            fs::copy(system, path, name)?;
        }
        ("folder", name) => fs::create_dir(system, name)?,
        ("clear", name) => system.remove_dir_all(alloc, name)?,
        _ => append_call(alloc, keeper, call, to)?,
    }
    Ok(())
}

fn file_word(is_there: bool) -> &'static str {
    if is_there { "a file; " } else { "no file; " }
}

/// Calls of two keepers over one file.
pub fn shared(system: &HostRuntime, alloc: Global, text: &str) -> Result<String, anyhow::Error> {
    let (path, calls) = first_word(text);
    let mut first = RegisterFile::new(system, alloc, path);
    let mut second = RegisterFile::new(system, alloc, path);
    let mut answer = String::new(alloc);
    for call in calls.split('|') {
        match call.strip_prefix("other ") {
            Some(call) => {
                append_file_call(system, alloc, &mut second, path, call, &mut answer)?;
            }
            None => append_file_call(system, alloc, &mut first, path, call, &mut answer)?,
        }
    }
    Ok(answer)
}
