//! Cases of the words of a command, by lines: words between spaces, in which `\N;` is the byte N, and `\N*c;` the text `c` N
//! times. What is printed is the command that they are, with all that it says, or `bad command`. A line that begins with `#`
//! is printed, and so is, for a line `forms`, each form of a command.
//!
//! Enters: lines of the standard input. Leaves: lines. It touches the standard input and output alone. The expected lines were
//! worked out by hand from what the words mean.
#![tactic(auto)]

use case_text::unescaped;
use desk_values::{List, ReadErr, Txt, Word};
use desk_words::{Command, Form, Ways, command_of, forms};
use std::alloc::Global;
use std::fmt;
use std::fmt::Write;

fn main(rt: HostRuntime) -> Result<(), anyhow::Error> {
    let alloc = rt.alloc();
    for line in rt.lines(alloc) {
        let line = line?;
        if line.as_str() == "forms" {
            print_forms(&rt)?;
        } else if line.as_str().starts_with('#') {
            println!(rt; "{line}")?;
        } else {
            let answer = answer(alloc, line.as_str())?;
            println!(rt; "{answer}")?;
        }
    }
    Ok(())
}

fn print_forms<R: Print>(rt: &R) -> Result<(), anyhow::Error> {
    for form in forms() {
        println!(rt; "form {}", Told(form))?;
    }
    Ok(())
}

/// A form as it is told: its places in capital letters, those that may be missing and its options in brackets.
#[derive(Clone, Copy)]
struct Told<'f>(&'f Form);

impl fmt::Display for Told<'_> {
    fn fmt<W: fmt::Write>(&self, f: &mut fmt::Formatter<W>) -> fmt::Result {
        f.write_str(self.0.name)?;
        for place in self.0.places {
            f.write_str(" ")?;
            write_capital(place, f)?;
        }
        for place in self.0.further {
            f.write_str(" [")?;
            write_capital(place, f)?;
            f.write_str("]")?;
        }
        for option in self.0.options {
            write!(f, " [--{option}]")?;
        }
        Ok(())
    }
}

// A place in capital letters.
fn write_capital<W: fmt::Write>(place: &str, f: &mut fmt::Formatter<W>) -> fmt::Result {
    for letter in place.chars() {
        f.write_char(letter.to_ascii_uppercase())?;
    }
    Ok(())
}

fn answer(alloc: Global, line: &str) -> Result<String, anyhow::Error> {
    let words = words_of(alloc, line)?;
    match command_of(alloc, words.as_slice())? {
        Some(command) => shown(alloc, &command),
        None => Ok(String::from_str(alloc, "bad command")?),
    }
}

// The words between spaces; none where there is no text.
fn words_of(alloc: Global, line: &str) -> Result<List<Txt>, ReadErr> {
    let mut words = List::new(alloc);
    if line.is_empty() {
        return Ok(words);
    }
    for word in line.split(' ') {
        let bytes = unescaped(alloc, word)?;
        words.push(Txt::from_bytes(alloc, bytes.as_slice()).map_err(|_| ReadErr::Bad)?)?;
    }
    Ok(words)
}

fn shown(alloc: Global, command: &Command) -> Result<String, anyhow::Error> {
    match command {
        Command::Run(capture, out, ways) => run_shown(alloc, capture, out, ways),
        Command::Prepare(capture, out) => {
            Ok(format!(in alloc; "prepare {} {}", Path(capture), Path(out))?)
        }
        Command::Serve(capture, start, connections, port) => {
            let (capture, start) = (Path(capture), Path(start));
            Ok(format!(in alloc; "serve {capture} {start} {connections} port {port}")?)
        }
        Command::Generate(calls, out) => Ok(format!(in alloc; "generate {calls} {}", Path(out))?),
        Command::Trial(calls) => Ok(format!(in alloc; "trial {calls}")?),
        Command::Register(out, run) => {
            Ok(format!(in alloc; "register {} {}", Path(out), run.as_str())?)
        }
        Command::Runs => Ok(String::from_str(alloc, "runs")?),
        Command::Accept(run, stamp, class) => {
            Ok(format!(in alloc; "accept {} {stamp} {}", run.as_str(), class.word())?)
        }
        Command::Compare(base, other) => {
            Ok(format!(in alloc; "compare {} {}", base.as_str(), other.as_str())?)
        }
        Command::Page(capture, out) => {
            Ok(format!(in alloc; "page {} {}", Path(capture), Path(out))?)
        }
        Command::Show(capture, out, stamp) => show_shown(alloc, capture, out, *stamp),
    }
}

fn run_shown(
    alloc: Global,
    capture: &Txt,
    out: &Txt,
    ways: &Ways,
) -> Result<String, anyhow::Error> {
    let mut line = format!(in alloc; "run {} {}", Path(capture), Path(out))?;
    let (mode, think, connect) = (ways.mode.word(), ways.think, ways.connect);
    write!(line, " mode {mode} think {think} connect {connect}")?;
    if let Some(remap) = &ways.remap {
        write!(line, " remap {}", Path(remap))?;
    }
    if let Some(change) = &ways.change {
        write!(line, " change {}", Path(change))?;
    }
    if let Some(lanes) = ways.lanes {
        write!(line, " lanes {lanes}")?;
    }
    if let Some(target) = ways.target {
        write!(line, " target {target}")?;
    }
    Ok(line)
}

fn show_shown(
    alloc: Global,
    capture: &Txt,
    out: &Txt,
    stamp: Option<u64>,
) -> Result<String, anyhow::Error> {
    let mut line = format!(in alloc; "show {} {}", Path(capture), Path(out))?;
    if let Some(stamp) = stamp {
        write!(line, " stamp {stamp}")?;
    }
    Ok(line)
}

/// A path, of which only the length is printed where it is long.
#[derive(Clone, Copy)]
struct Path<'t>(&'t Txt);

impl fmt::Display for Path<'_> {
    fn fmt<W: fmt::Write>(&self, f: &mut fmt::Formatter<W>) -> fmt::Result {
        let path = self.0.as_str();
        if path.len() > 40 {
            write!(f, "({} bytes)", path.len())
        } else {
            write!(f, "[{path}]")
        }
    }
}
