//! The command that words are.

ghost use Rattle.std.specs.Prelude.{◌≡◌, ◌↔◌, map, option_map, IfOk, IfSome};
ghost use Rattle.desk_values.specs.Reading.{Reads};
ghost use Rattle.desk_values.specs.declared.read_err.ReadErr.TheVariants.{Memory as WantOfMemory};
ghost use Rattle.clap.specs.Words.{subcommand_rows_of};
ghost use Rattle.clap.specs.declared.error.kind.ErrorKind.TheVariants.{OutOfMemory};
ghost use Rattle.desk_words.specs.Command.{command_of};
ghost use Rattle.desk_words.specs.Within.{IsWithinLimits};
ghost use Rattle.desk_words.specs.Inside.Finding.{Finds, values_in};

use crate::desk::desk;
use crate::subcommands::command_in;
use crate::ways::Ways;
use clap::ArgMatches;
use clap::error::ErrorKind;
use desk_values::{Memory, ReadErr, Txt};
use replay_history::Class;
use std::alloc::{AllocError, Global};

/// A command.
#[derive(Drop)]
pub enum Command {
    /// `run CAPTURE OUT` with options: replays a capture.
    Run(Txt, Txt, Ways),
    /// `prepare CAPTURE OUT`: writes which calls wait for which.
    Prepare(Txt, Txt),
    /// `serve CAPTURE START N --port P`: serves N connections, 1 to 64, at a port from 1 on, and writes a capture.
    Serve(Txt, Txt, u32, u16),
    /// `generate N OUT`: writes a capture of N calls, 1 to 10,000.
    Generate(u32, Txt),
    /// `trial N`: makes that capture and replays it without pauses.
    Trial(u32),
    /// `register OUT RUN`: keeps the report in OUT under the name RUN.
    Register(Txt, Txt),
    /// `runs`: lists the runs that are kept.
    Runs,
    /// `accept RUN STAMP CLASS`: accepts, where RUN is the first of two, a divergence of that call of that class.
    Accept(Txt, u64, Class),
    /// `compare A B`: compares the run B with the run A.
    Compare(Txt, Txt),
    /// `page CAPTURE OUT`: writes a page of the replay of the capture in OUT.
    Page(Txt, Txt),
    /// `show CAPTURE OUT [STAMP]`: prints the call with this stamp, or those that differ.
    Show(Txt, Txt, Option<u64>),
}

/// The command that the words are. `None` where they are none: where `clap` does not take them, or a value is not good.
pub fn command_of(alloc: Global, words: &[Txt]) -> Result<Option<Command>, Memory>
    ensures value { IfOk result (λ found. found ≡ command_of words.now) }
    ensures limits { IfOk result (λ found. IfSome found IsWithinLimits) }
{
    match read(alloc, words) {
        Ok(command) => Ok(Some(command)),
        Err(ReadErr::Bad) => Ok(None),
        Err(ReadErr::Memory) => Err(Memory),
    }
}

fn read(alloc: Global, words: &[Txt]) -> Result<Command, ReadErr>
    ensures { Reads result (command_of words.now) }
{
    let texts = texts_of(alloc, words)?;
    let found = found_in(alloc, texts.as_slice())?;
    let (name, values) = behind_first(&found).ok_or(ReadErr::Bad)?;
    command_in(alloc, name, values)
}

fn texts_of<'w>(alloc: Global, words: &'w [Txt]) -> Result<Vec<&'w str>, AllocError>
    ensures { IfOk result (λ texts. map (λ text. text.now) texts.items ≡ words.now) }
{
    let mut texts = Vec::new(alloc);
    for word in words {
        texts.push(word.as_str())?;
    }
    Ok(texts)
}

// What `clap` finds in the words. `Bad` where it does not take them.
fn found_in<'w>(alloc: Global, words: &'w [&'w str]) -> Result<ArgMatches<'w>, ReadErr>
    ensures { Finds result (map (λ word. word.now) words.now) }
{
    let desk = desk(alloc)?;
    match desk.try_get_matches_from(words) {
        Ok(found) => Ok(found),
        Err(error) => Err(refusal(error.kind())),
    }
}

fn refusal(kind: ErrorKind) -> ReadErr
    ensures { (result ≡ WantOfMemory) ↔ (kind ≡ OutOfMemory) }
{
    if kind == ErrorKind::OutOfMemory {
        ReadErr::Memory
    } else {
        ReadErr::Bad
    }
}

// The first word, and the values behind it.
fn behind_first<'f, 'w>(found: &'f ArgMatches<'w>) -> Option<(&'w str, &'f ArgMatches<'w>)>
    ensures { option_map (λ p. (p.0.now, values_in p.1.now)) result ≡ subcommand_rows_of found.now }
{
    found.subcommand()
}
