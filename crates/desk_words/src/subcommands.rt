//! A command by its first word and the values behind it.

ghost use Rattle.std.specs.Prelude.{◌≡◌};
ghost use Rattle.desk_values.specs.Reading.{Reads};
ghost use Rattle.desk_words.specs.Command.{accept_in, command_in, compare_in, generate_in, page_in, prepare_in, register_in, run_in, serve_in, show_in, trial_in};
ghost use Rattle.desk_words.specs.Inside.Finding.{values_in};

use crate::limits::{CONNECTION_LIMIT, GENERATED_LIMIT};
use crate::values::{class_at, number_at, path_at, port_of, run_at, stamp_at, stamp_of};
use crate::ways::ways_in;
use crate::words::Command;
use clap::ArgMatches;
use desk_values::ReadErr;
use std::alloc::Global;

/// The command with this first word. `Bad` where there is none, or a value is not good.
pub(crate) fn command_in(
    alloc: Global,
    name: &str,
    values: &ArgMatches<'_>,
) -> Result<Command, ReadErr>
    ensures { Reads result (command_in (name.now, values_in values.now)) }
{
    match name {
        "run" => run_in(alloc, values),
        "prepare" => prepare_in(alloc, values),
        "serve" => serve_in(alloc, values),
        "generate" => generate_in(alloc, values),
        "trial" => trial_in(values),
        "register" => register_in(alloc, values),
        "runs" => Ok(Command::Runs),
        "accept" => accept_in(alloc, values),
        "compare" => compare_in(alloc, values),
        "page" => page_in(alloc, values),
        "show" => show_in(alloc, values),
        _ => Err(ReadErr::Bad),
    }
}

fn run_in(alloc: Global, values: &ArgMatches<'_>) -> Result<Command, ReadErr>
    ensures { Reads result (run_in (values_in values.now)) }
{
    let capture = path_at(alloc, values, "capture")?;
    let out = path_at(alloc, values, "out")?;
    Ok(Command::Run(capture, out, ways_in(alloc, values)?))
}

fn prepare_in(alloc: Global, values: &ArgMatches<'_>) -> Result<Command, ReadErr>
    ensures { Reads result (prepare_in (values_in values.now)) }
{
    let capture = path_at(alloc, values, "capture")?;
    Ok(Command::Prepare(capture, path_at(alloc, values, "out")?))
}

fn serve_in(alloc: Global, values: &ArgMatches<'_>) -> Result<Command, ReadErr>
    ensures { Reads result (serve_in (values_in values.now)) }
{
    let capture = path_at(alloc, values, "capture")?;
    let start = path_at(alloc, values, "start")?;
    let connections = number_at(values, "connections", CONNECTION_LIMIT)?;
    let port = port_of(values).ok_or(ReadErr::Bad)?;
    Ok(Command::Serve(capture, start, connections, port))
}

fn generate_in(alloc: Global, values: &ArgMatches<'_>) -> Result<Command, ReadErr>
    ensures { Reads result (generate_in (values_in values.now)) }
{
    let calls = number_at(values, "calls", GENERATED_LIMIT)?;
    Ok(Command::Generate(calls, path_at(alloc, values, "out")?))
}

fn trial_in(values: &ArgMatches<'_>) -> Result<Command, ReadErr>
    ensures { Reads result (trial_in (values_in values.now)) }
{
    Ok(Command::Trial(number_at(values, "calls", GENERATED_LIMIT)?))
}

fn register_in(alloc: Global, values: &ArgMatches<'_>) -> Result<Command, ReadErr>
    ensures { Reads result (register_in (values_in values.now)) }
{
    let out = path_at(alloc, values, "out")?;
    Ok(Command::Register(out, run_at(alloc, values, "run")?))
}

fn accept_in(alloc: Global, values: &ArgMatches<'_>) -> Result<Command, ReadErr>
    ensures { Reads result (accept_in (values_in values.now)) }
{
    let run = run_at(alloc, values, "run")?;
    let stamp = stamp_at(values).ok_or(ReadErr::Bad)?;
    let class = class_at(values).ok_or(ReadErr::Bad)?;
    Ok(Command::Accept(run, stamp, class))
}

fn compare_in(alloc: Global, values: &ArgMatches<'_>) -> Result<Command, ReadErr>
    ensures { Reads result (compare_in (values_in values.now)) }
{
    let base = run_at(alloc, values, "base")?;
    Ok(Command::Compare(base, run_at(alloc, values, "other")?))
}

fn page_in(alloc: Global, values: &ArgMatches<'_>) -> Result<Command, ReadErr>
    ensures { Reads result (page_in (values_in values.now)) }
{
    let capture = path_at(alloc, values, "capture")?;
    Ok(Command::Page(capture, path_at(alloc, values, "out")?))
}

fn show_in(alloc: Global, values: &ArgMatches<'_>) -> Result<Command, ReadErr>
    ensures { Reads result (show_in (values_in values.now)) }
{
    let capture = path_at(alloc, values, "capture")?;
    let out = path_at(alloc, values, "out")?;
    let stamp = stamp_of(values).ok_or(ReadErr::Bad)?;
    Ok(Command::Show(capture, out, stamp))
}
