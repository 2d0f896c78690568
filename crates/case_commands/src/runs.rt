//! Whole runs of commands.

use crate::guests::Guests;
use crate::kept::Kept;
use crate::register::Register;
use crate::watched::{Asked, Watched};
use crate::words::words_of;
use case_text::{first_word, stamps_of, txt};
use desk_files::{MemDoor, MemFiles, MemHost, MemSink};
use desk_values::fields::append_u64;
use desk_values::{Bytes, Memory, ReadErr, Stamps};
use remote_link::{MemDial, MemScripts};
use replay_cli::replay_main;
use std::alloc::Global;
use std::collections::BTreeMap;
use std::sync::Wait;
use std::thread::Threads;
use std::time::Clock;

/// Room for the line of a run.
const LINE_ROOM: u32 = 1000;

/// Runs a command over the files, after the numbers of the calls of files and of the prints that fail.
pub fn append_run<R: Clock + Wait + Threads + Sync>(
    rt: &R,
    alloc: Global,
    kept: &Kept,
    guests: &mut Guests,
    register: &mut Register,
    text: &str,
    to: &mut Bytes,
) -> Result<(), ReadErr> {
    let (calls, rest) = first_word(text);
    let (prints, words) = first_word(rest);
    let words = words_of(alloc, words)?;
    let mut files = Watched::new(alloc, kept.to_files(alloc, stamps_of(alloc, calls)?)?);
    let mut out = MemSink::new(alloc, LINE_ROOM, stamps_of(alloc, prints)?)?;
    let door = MemDoor::new(alloc);
    let mut host = Asked {
        host: guests.host()?,
        port: None,
    };
    let mut dial = MemDial::new(alloc, MemScripts::new(alloc), Stamps::new(alloc));
    let status = replay_main(
        rt,
        alloc,
        words.as_slice(),
        &mut files,
        &mut host,
        &door,
        register,
        &mut dial,
        &mut out,
    );
    register.fail_no_more();
    append_u64(u64::from(status), to)?;
    to.push(b' ')?;
    append_lines(out.held().as_slice(), to)?;
    append_changed(alloc, kept, &files, to)?;
    append_given_back(&host.host, to)?;
    append_port(host.port, to)?;
    Ok(())
}

// The files that were not there before, or had other bytes, by their names.
fn append_changed(
    alloc: Global,
    kept: &Kept,
    files: &Watched<MemFiles>,
    to: &mut Bytes,
) -> Result<(), ReadErr> {
    let mut names = kept.names(alloc)?;
    for name in files.names.as_slice() {
        names.insert(String::from_str(alloc, name.as_str())?, ())?;
    }
    for (name, _) in &names {
        if let Some(bytes) = files.files.held(&txt(alloc, name.as_str())?) {
            if !kept.holds(name.as_str(), bytes.as_slice()) {
                append_file(name.as_str(), bytes, to)?;
            }
        }
    }
    Ok(())
}

fn append_file(name: &str, bytes: &Bytes, to: &mut Bytes) -> Result<(), Memory> {
    to.push(b' ')?;
    to.append(name.as_bytes())?;
    to.push(b'=')?;
    append_lines(bytes.as_slice(), to)
}

// What each connection was answered that was given back.
fn append_given_back(host: &MemHost, to: &mut Bytes) -> Result<(), ReadErr> {
    for i in 0..usize::MAX {
        let Some(output) = host.given_back(i) else {
            return Ok(());
        };
        to.append(b" <")?;
        append_lines(output.held().as_slice(), to)?;
        to.push(b'>')?;
    }
    Ok(())
}

// The port, where there is one.
fn append_port(port: Option<u16>, to: &mut Bytes) -> Result<(), Memory> {
    if let Some(port) = port {
        to.append(b" @")?;
        append_u64(u64::from(port), to)?;
    }
    Ok(())
}

// The bytes, with `/` for a line feed and `^` for a carriage return.
fn append_lines(bytes: &[u8], to: &mut Bytes) -> Result<(), Memory> {
    for byte in bytes {
        to.push(match byte {
            b'\n' => b'/',
            b'\r' => b'^',
            other => *other,
        })?;
    }
    Ok(())
}
