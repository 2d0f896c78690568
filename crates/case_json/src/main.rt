//! Cases of calls and replies as JSON texts, one on each line: `read call TEXT`, `read reply TEXT`, `write call CALL` or
//! `write reply REPLY`. In a TEXT `\NUMBER;` stands for the byte of that number, and `\COUNT*PART;` for the part so many
//! times. For each line it prints the call or the reply as the files of a capture spell it, or its JSON text, or why a text
//! was not read.
//!
//! Enters: lines of the standard input. Leaves: as many lines. It touches the standard input and output alone. The expected
//! values are worked out by a program of its own from the forms that JSON texts have here, by another reader of JSON.
#![tactic(auto)]

use call_json::{JsonErr, call_from_json, call_to_json, reply_from_json, reply_to_json};
use capture_format::{read_call, read_reply, write_call, write_reply};
use case_text::{first_word, line_of_bytes, unescaped};
use desk_values::{Bytes, ReadErr};
use std::alloc::Global;

fn main(rt: HostRuntime) -> Result<(), anyhow::Error> {
    let alloc = rt.alloc();
    for line in rt.lines(alloc) {
        let answer = answer(alloc, line?.as_str())?;
        println!(rt; "{answer}")?;
    }
    Ok(())
}

fn answer(alloc: Global, line: &str) -> Result<String, anyhow::Error> {
    let (word, rest) = first_word(line);
    let (kind, text) = first_word(rest);
    match word {
        "read" => spelled(
            alloc,
            &spelled_of_json(alloc, kind, unescaped(alloc, text)?.as_slice()),
        ),
        _ => Ok(line_of_bytes(
            alloc,
            json_of_spelled(alloc, kind, text.as_bytes())?.as_slice(),
        )?),
    }
}

// What was read, or why nothing was.
fn spelled(alloc: Global, read: &Result<Bytes, JsonErr>) -> Result<String, anyhow::Error> {
    match read {
        Ok(bytes) => Ok(line_of_bytes(alloc, bytes.as_slice())?),
        Err(error) => Ok(format!(in alloc; "{error}")?),
    }
}

// What a JSON text is a text of, as the files of a capture spell it.
fn spelled_of_json(alloc: Global, kind: &str, json: &[u8]) -> Result<Bytes, JsonErr> {
    match kind {
        "call" => Ok(write_call(alloc, &call_from_json(alloc, json)?)?),
        _ => Ok(write_reply(alloc, &reply_from_json(alloc, json)?)?),
    }
}

// The JSON text of what the files of a capture spell so.
fn json_of_spelled(alloc: Global, kind: &str, text: &[u8]) -> Result<Bytes, ReadErr> {
    match kind {
        "call" => Ok(call_to_json(alloc, &read_call(alloc, text)?)?),
        _ => Ok(reply_to_json(alloc, &read_reply(alloc, text)?)?),
    }
}
