//! Devices in memory: what planned failures and a full sink leave.

use case_text::{first_word, small_number, stamps_of, txt};
use desk_files::{FileErr, Files, MemFiles, MemSink, Sink, Write, WriteErr, write_all};
use desk_values::{Bytes, List, Memory, ReadErr, Txt};
use std::alloc::{AllocError, Global};

/// The most bytes of a file that are shown and not counted.
const SHOWN: usize = 100;

pub fn answer(alloc: Global, word: &str, text: &str, to: &mut Bytes) -> Result<(), ReadErr> {
    let (fails, steps) = first_word(text);
    match word {
        "sink" => Ok(write_into_sink(alloc, fails, steps, to)?),
        _ => call_files(alloc, fails, steps, to),
    }
}

// Calls of files, of which those with these numbers fail.
fn call_files(alloc: Global, fails: &str, steps: &str, to: &mut Bytes) -> Result<(), ReadErr> {
    let mut files = MemFiles::new(alloc, stamps_of(alloc, fails)?);
    for step in steps.split('|') {
        append_step(alloc, &mut files, step, to)?;
        to.append(b"; ")?;
    }
    Ok(())
}

// A step: `put NAME TEXT`, `fill NAME COUNT`, `held NAME`, `all NAMES` for writes of files that are named as what they
// hold, or a call.
fn append_step(
    alloc: Global,
    files: &mut MemFiles,
    step: &str,
    to: &mut Bytes,
) -> Result<(), ReadErr> {
    let (word, rest) = first_word(step);
    let (name, bytes) = first_word(rest);
    let name = txt(alloc, name)?;
    match word {
        "put" => files.put(&name, bytes.as_bytes())?,
        "fill" => files.put(&name, ones(alloc, small_number(bytes))?.as_slice())?,
        "held" => to.append(format!(in alloc; "{}", files.held(&name).is_some())?.as_bytes())?,
        "all" => append_written(
            alloc,
            write_all(writes_of(alloc, rest)?.as_slice(), files),
            to,
        )?,
        _ => append_call(alloc, files, word, &name, bytes, to)?,
    }
    Ok(())
}

fn ones(alloc: Global, count: u32) -> Result<Vec<u8>, AllocError> {
    vec![in alloc; b'1'; count as usize]
}

fn writes_of(alloc: Global, names: &str) -> Result<List<Write>, ReadErr> {
    let mut writes = List::new(alloc);
    for name in names.split(' ') {
        writes.push(Write {
            name: txt(alloc, name)?,
            bytes: List::from_slice(alloc, name.as_bytes())?,
        })?;
    }
    Ok(writes)
}

/// A call of files through their bound, as programs call them, and what it gives.
pub fn append_call<F: Files>(
    alloc: Global,
    files: &mut F,
    word: &str,
    name: &Txt,
    bytes: &str,
    to: &mut Bytes,
) -> Result<(), Memory> {
    match word {
        "write" => append_written(alloc, files.write(name, bytes.as_bytes()), to),
        _ => append_read(alloc, files.read(name), to),
    }
}

fn append_written(
    alloc: Global,
    written: Result<(), WriteErr>,
    to: &mut Bytes,
) -> Result<(), Memory> {
    match written {
        Ok(()) => to.append(b"written"),
        Err(error) => to.append(format!(in alloc; "{error}")?.as_bytes()),
    }
}

fn append_read(alloc: Global, read: Result<Bytes, FileErr>, to: &mut Bytes) -> Result<(), Memory> {
    match read {
        Ok(bytes) if bytes.len() > SHOWN => {
            to.append(format!(in alloc; "bytes: {}", bytes.len())?.as_bytes())
        }
        Ok(bytes) => to.append(bytes.as_slice()),
        Err(error) => to.append(format!(in alloc; "{error}")?.as_bytes()),
    }
}

// Writes into a sink with this room, of which those with these numbers fail, and what the sink holds after each.
fn write_into_sink(alloc: Global, fails: &str, steps: &str, to: &mut Bytes) -> Result<(), Memory> {
    let (room, steps) = first_word(steps);
    let mut sink = MemSink::new(alloc, small_number(room), stamps_of(alloc, fails)?)?;
    for bytes in steps.split('|') {
        to.append(sent(&mut sink, bytes.as_bytes()))?;
        to.append(sink.held().as_slice())?;
        to.append(b"; ")?;
    }
    Ok(())
}

/// What comes of a write, through the bound of sinks, as programs call them.
pub fn sent<S: Sink>(sink: &mut S, bytes: &[u8]) -> &'static [u8] {
    match sink.write(bytes) {
        Ok(()) => b"taken ",
        Err(_) => b"failed ",
    }
}
