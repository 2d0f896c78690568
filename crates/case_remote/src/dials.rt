//! Lines that answer what they are told to, and what they heard.

use capture_format::{append_call, append_reply, read_reply};
use desk_values::{Bytes, Memory, ReadErr, Stamps};
use remote_link::{MemDial, MemLine, MemScript, MemScripts, ReplyList};
use std::alloc::Global;

/// One script for each line: its replies, and the number of a call that fails.
pub fn scripts_of(alloc: Global, lines: &[(&str, Option<u32>)]) -> Result<MemScripts, ReadErr> {
    let mut scripts = MemScripts::new(alloc);
    for (replies, failing) in lines {
        let mut fails = Stamps::new(alloc);
        if let Some(number) = failing {
            fails.push(*number)?;
        }
        scripts.push(MemScript {
            replies: replies_of(alloc, replies)?,
            fails,
        })?;
    }
    Ok(scripts)
}

fn replies_of(alloc: Global, text: &str) -> Result<ReplyList, ReadErr> {
    let mut replies = ReplyList::new(alloc);
    for reply in text.split('|') {
        replies.push(read_reply(alloc, reply.as_bytes())?)?;
    }
    Ok(replies)
}

/// What was said on each line that was given back: a call and its reply, and a dash where none came.
pub fn heard_text(alloc: Global, dial: &MemDial) -> Result<String, anyhow::Error> {
    let mut text = Bytes::new(alloc);
    for i in 0..64 {
        let Some(line) = dial.given_back(i) else {
            break;
        };
        append_said(line, &mut text)?;
    }
    Ok(String::from_str(alloc, str::from_utf8(text.as_slice())?)?)
}

fn append_said(line: &MemLine, to: &mut Bytes) -> Result<(), Memory> {
    for heard in line.said() {
        append_call(&heard.call, to)?;
        to.append(b" > ")?;
        match &heard.reply {
            Some(reply) => append_reply(reply, to)?,
            None => to.append(b"-")?,
        }
        to.append(b"\n")?;
    }
    to.append(b"given back\n")
}
