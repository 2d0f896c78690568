//! Answers by HTTP on lines that fail, and several that come in one read: what each call is given.

use capture_format::append_reply;
use case_text::line_of_bytes;
use desk_files::{MemSink, MemSource};
use desk_values::{Bytes, Call, Memory, Stamps};
use remote_link::{HttpLink, Link};
use std::alloc::Global;

/// Room for the requests of a line.
const ROOM: u32 = 10_000;

/// A reply, of 53 bytes.
const REPLY: &str = "{\"draws\":[],\"made\":null,\"outcome\":{\"connected\":true}}";

/// The front of an answer whose body it is.
const FRONT: &str = "HTTP/1.1 200 OK\r\nContent-Length: 53\r\n";

/// Answers that come in one read, and ends of a line that fail.
pub fn ends<R: Print>(rt: &R, alloc: Global) -> Result<(), anyhow::Error> {
    let (none, first, second) = (None, Some(0), Some(1));
    let bytes = two_answers(alloc)?;
    tell_each(rt, alloc, "two answers in one read", bytes, (none, none), 3)?;
    let bytes = two_answers(alloc)?;
    tell_each(rt, alloc, "a read that fails", bytes, (first, none), 1)?;
    let (name, bytes) = ("a second read that fails", two_answers(alloc)?);
    tell_each(rt, alloc, name, bytes, (second, none), 3)?;
    let (name, bytes) = ("a read behind the head that fails", long_head(alloc, 8192)?);
    tell_each(rt, alloc, name, bytes, (second, none), 1)?;
    let bytes = two_answers(alloc)?;
    tell_each(
        rt,
        alloc,
        "a second write that fails",
        bytes,
        (none, second),
        2,
    )
}

// Prints what each of so many calls is given on a line on which these bytes come, of which this read or this write fails.
fn tell_each<R: Print>(
    rt: &R,
    alloc: Global,
    name: &str,
    bytes: Bytes,
    fails: (Option<u32>, Option<u32>),
    calls: u32,
) -> Result<(), anyhow::Error> {
    let given = given_each(alloc, bytes, fails, calls)?;
    println!(rt; "{name}: {given}")?;
    Ok(())
}

fn given_each(
    alloc: Global,
    bytes: Bytes,
    fails: (Option<u32>, Option<u32>),
    calls: u32,
) -> Result<String, anyhow::Error> {
    let mut line = line_of(alloc, bytes, fails.0, fails.1)?;
    asked_each(alloc, &mut line, calls)
}

fn asked_each(
    alloc: Global,
    line: &mut HttpLink<MemSource, MemSink>,
    calls: u32,
) -> Result<String, anyhow::Error> {
    let mut text = asked(alloc, line)?;
    for _ in 1..calls {
        let next = asked(alloc, line)?;
        text.push_str(", ")?;
        text.push_str(&next)?;
    }
    Ok(text)
}

// The reply to a call, or why there is none.
fn asked(alloc: Global, line: &mut HttpLink<MemSource, MemSink>) -> Result<String, anyhow::Error> {
    let call = Call::Disconnect;
    match line.call(&call) {
        Ok(reply) => {
            let mut text = Bytes::new(alloc);
            append_reply(&reply, &mut text)?;
            Ok(line_of_bytes(alloc, text.as_slice())?)
        }
        Err(error) => Ok(format!(in alloc; "{error}")?),
    }
}

// A line on which these bytes come, of which a read or a write may fail.
fn line_of(
    alloc: Global,
    bytes: Bytes,
    read: Option<u32>,
    write: Option<u32>,
) -> Result<HttpLink<MemSource, MemSink>, Memory> {
    let input = MemSource::new(bytes, fails_of(alloc, read)?);
    let output = MemSink::new(alloc, ROOM, fails_of(alloc, write)?)?;
    Ok(HttpLink::new(alloc, input, output))
}

fn fails_of(alloc: Global, number: Option<u32>) -> Result<Stamps, Memory> {
    let mut fails = Stamps::new(alloc);
    if let Some(number) = number {
        fails.push(number)?;
    }
    Ok(fails)
}

fn two_answers(alloc: Global) -> Result<Bytes, Memory> {
    let mut bytes = Bytes::new(alloc);
    bytes.append(FRONT.as_bytes())?;
    bytes.append(b"\r\n")?;
    bytes.append(REPLY.as_bytes())?;
    bytes.append(b"HTTP/1.1 400 Bad Request\r\nContent-Length: 0\r\n\r\n")?;
    Ok(bytes)
}

// An answer whose head has so many bytes.
fn long_head(alloc: Global, size: usize) -> Result<Bytes, Memory> {
    let mut bytes = Bytes::new(alloc);
    bytes.append(FRONT.as_bytes())?;
    bytes.append(b"X: ")?;
    let rest = size.saturating_sub(bytes.len()).saturating_sub(4);
    for _ in 0..rest {
        bytes.push(b'a')?;
    }
    bytes.append(b"\r\n\r\n")?;
    bytes.append(REPLY.as_bytes())?;
    Ok(bytes)
}
