//! Cases of whole runs over files in memory, some of whose calls fail, told by lines:
//!
//! - `file NAME TEXT`: from here on there is a file of that name, in whose text `/` stands for the end of a line, `\N;` for
//!   the byte N and `\N*c;` for N times c
//! - `none NAME`: there is none
//! - `case NAME`: from here on there is no file. It stands among the answers as it is
//! - `run CALLS PRINTS WORDS`: runs a command over these files, where calls of the files and of the output with these
//!   numbers fail; `-` for none. It prints the status, the line and each file that is new or has other bytes, by its name, and
//!   in brackets what each connection was answered that was given back, and behind `@` the port at which the host was asked for connections
//! - `conn READS WRITES ROOM TEXT`: the host of the next run has this connection too, which sends this text, whose reads and writes with
//!   these numbers fail, and whose output has so much room
//! - `host CALLS`: calls of that host with these numbers fail
//! - `kept NAME TEXT`: a run of that name is put into the register, which stays from one run of a command to the next
//! - `keeper CALLS`: calls of the register with these numbers fail in the next run
//! - `forget`: from here on there is no run in the register
//! - `word BYTES`, `arguments WORDS`: it prints the word, or the words after the first
//!
//! No call waits for its pause. A run of several sessions in a mode other than `order` has one lane, which takes the first
//! session that has a call that may start, since with more of them its journal is one of several.
//!
//! Enters: lines of the standard input. Leaves: lines. It touches the standard input and output and threads alone. The
//! expected texts are worked out by hand from the formats, and by a program of its own from the rules. Commands over real files
//! stand in `tests/commands.in` in the same form.
#![tactic(auto)]

mod guests;
mod kept;
mod register;
mod runs;
mod watched;
mod words;

use case_text::first_word;
use desk_values::{Bytes, List, ReadErr};
use guests::Guests;
use kept::Kept;
use register::Register;
use std::alloc::Global;
use std::sync::Wait;
use std::thread::Threads;
use std::time::Clock;

fn main(rt: HostRuntime) -> Result<(), anyhow::Error> {
    let alloc = rt.alloc();
    let mut kept = Kept::new(alloc);
    let mut guests = Guests::new(alloc);
    let mut register = Register::new(alloc);
    for line in rt.lines(alloc) {
        let answer = answer_of(
            &rt,
            alloc,
            &mut kept,
            &mut guests,
            &mut register,
            line?.as_str(),
        )?;
        if !answer.is_empty() {
            println!(rt; "{}", str::from_utf8(answer.as_slice())?)?;
        }
    }
    Ok(())
}

fn answer_of<R: Clock + Wait + Threads + Sync>(
    rt: &R,
    alloc: Global,
    kept: &mut Kept,
    guests: &mut Guests,
    register: &mut Register,
    line: &str,
) -> Result<Bytes, ReadErr> {
    let mut answer = List::new(alloc);
    let (word, rest) = first_word(line);
    match word {
        "run" => runs::append_run(rt, alloc, kept, guests, register, rest, &mut answer)?,
        "conn" => guests.add(rest)?,
        "host" => guests.fail(rest)?,
        "kept" => register.put(rest)?,
        "keeper" => register.fail(rest)?,
        "forget" => *register = Register::new(alloc),
        "case" => {
            *kept = Kept::new(alloc);
            answer.append(line.as_bytes())?;
        }
        "word" => words::append_word(alloc, rest, &mut answer)?,
        "arguments" => words::append_arguments(alloc, rest, &mut answer)?,
        _ => kept.set(alloc, word, rest)?,
    }
    Ok(answer)
}
