//! Sources and hosts in memory: what is read, and which connections are given back.

use case_text::{first_word, small_number, stamps_of};
use desk_files::{Host, MemConn, MemConns, MemHost, MemSource, Sink, Source};
use desk_values::{Bytes, List, Memory, ReadErr};
use std::alloc::Global;

/// How many connections a host is asked for.
const ASKED: usize = 4;

pub fn answer(alloc: Global, word: &str, text: &str, to: &mut Bytes) -> Result<(), ReadErr> {
    let (fails, rest) = first_word(text);
    match word {
        "source" => Ok(read_source(alloc, fails, rest, to)?),
        _ => Ok(serve_connections(alloc, fails, rest, to)?),
    }
}

// `SIZES TEXT`: reads with buffers of these sizes, of which those with these numbers fail.
fn read_source(alloc: Global, fails: &str, text: &str, to: &mut Bytes) -> Result<(), Memory> {
    let (sizes, text) = first_word(text);
    let bytes = List::from_slice(alloc, text.as_bytes())?;
    let mut source = MemSource::new(bytes, stamps_of(alloc, fails)?);
    for size in sizes.split(',') {
        let mut buffer = vec![in alloc; 0; small_number(size) as usize]?;
        to.append(taken(&mut source, buffer.as_mut_slice()))?;
        to.append(b"; ")?;
    }
    Ok(())
}

/// What a read gives, through the bound of sources, as programs call them.
pub fn taken<'a, S: Source>(source: &mut S, buffer: &'a mut [u8]) -> &'a [u8] {
    match source.read(buffer) {
        Ok(read) => &buffer[..read],
        Err(_) => b"failed",
    }
}

// `CONN|CONN|..`: these connections of a host, of whose calls those with these numbers fail, and then the outputs of
// those given back.
fn serve_connections(alloc: Global, fails: &str, text: &str, to: &mut Bytes) -> Result<(), Memory> {
    let mut host = MemHost::new(alloc, conns_of(alloc, text)?, stamps_of(alloc, fails)?)?;
    to.append(listened(&mut host, 8080))?;
    for _ in 0..ASKED {
        to.append(b", ")?;
        to.append(served(&mut host))?;
    }
    for place in 0..ASKED {
        let Some(output) = host.given_back(place) else {
            return Ok(());
        };
        to.append(b"; ")?;
        to.append(output.held().as_slice())?;
    }
    Ok(())
}

// Each is `ROOM READFAILS WRITEFAILS TEXT`.
fn conns_of(alloc: Global, text: &str) -> Result<MemConns, Memory> {
    let mut conns = List::new(alloc);
    for conn in text.split('|').filter(|conn| !conn.is_empty()) {
        let (room, rest) = first_word(conn);
        let (input_fails, rest) = first_word(rest);
        let (output_fails, text) = first_word(rest);
        conns.push(MemConn {
            input: List::from_slice(alloc, text.as_bytes())?,
            room: small_number(room),
            input_fails: stamps_of(alloc, input_fails)?,
            output_fails: stamps_of(alloc, output_fails)?,
        })?;
    }
    Ok(conns)
}

fn listened<H: Host>(host: &mut H, port: u16) -> &'static [u8] {
    match host.listen(port) {
        Ok(()) => b"listens",
        Err(_) => b"failed",
    }
}

// Takes a connection, sends back the first four bytes of it, and gives it back.
fn served<H: Host>(host: &mut H) -> &'static [u8] {
    match host.accept() {
        Ok(Some((mut input, mut output))) => {
            let said = echoed(&mut input, &mut output);
            match host.back(input, output) {
                Ok(()) => said,
                Err(Memory) => b"dropped",
            }
        }
        Ok(None) => b"none",
        Err(_) => b"failed",
    }
}

fn echoed<I: Source, O: Sink>(input: &mut I, output: &mut O) -> &'static [u8] {
    let mut buffer = [0; 4];
    let Ok(read) = input.read(&mut buffer) else {
        return b"not read";
    };
    match output.write(&buffer[..read]) {
        Ok(()) => b"echoed",
        Err(_) => b"not written",
    }
}
