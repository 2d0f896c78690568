//! The desk's command line, as `clap` is told it.

ghost use Rattle.std.specs.Prelude.{◌≡◌, false, IfOk};
ghost use Rattle.clap.specs.Words.{app_of, rule_of};
ghost use Rattle.clap.specs.declared.builder.command.Command.TheViews.{out-Command as fields_of};
ghost use Rattle.desk_words.specs.Desk.{choice, desk, further, place};
ghost use Rattle.desk_words.specs.Inside.Building.{form_app, with_rules};

use crate::table::{Form, forms};
use clap::{Arg, ArgAction, Command};
use std::alloc::{AllocError, Global};

/// The command line: one of the forms, with no program's name before it.
pub(crate) fn desk<'w>(alloc: Global) -> Result<Command<'w>, AllocError>
    ensures { IfOk result (λ command. app_of command ≡ desk) }
{
    let mut desk = Command::new(alloc, "replay")
        .no_binary_name(true)
        .subcommand_required(true);
    let all = forms();
    for form in all {
        desk = desk.subcommand(subcommand(alloc, form)?)?;
    }
    Ok(desk)
}

fn subcommand<'w>(alloc: Global, form: &Form) -> Result<Command<'w>, AllocError>
    ensures app { IfOk result (λ command. app_of command ≡ form_app form.now) }
    ensures local { IfOk result (λ command. (fields_of command).has_globals ≡ false) }
{
    let placed = with_places(alloc, Command::new(alloc, form.name), form.places)?;
    let widened = with_further(alloc, placed, form.further)?;
    with_options(alloc, widened, form.options)
}

fn with_places<'w>(
    alloc: Global,
    command: Command<'w>,
    names: &[&'static str],
) -> Result<Command<'w>, AllocError>
    requires { (fields_of command).has_globals ≡ false }
    ensures app { IfOk result (λ new. app_of new ≡ with_rules place names.now (app_of command.entry)) }
    ensures local { IfOk result (λ new. (fields_of new).has_globals ≡ false) }
{
    let mut command = command;
    for name in names {
        command = command.arg(place(alloc, name))?;
    }
    Ok(command)
}

fn with_further<'w>(
    alloc: Global,
    command: Command<'w>,
    names: &[&'static str],
) -> Result<Command<'w>, AllocError>
    requires { (fields_of command).has_globals ≡ false }
    ensures app { IfOk result (λ new. app_of new ≡ with_rules further names.now (app_of command.entry)) }
    ensures local { IfOk result (λ new. (fields_of new).has_globals ≡ false) }
{
    let mut command = command;
    for name in names {
        command = command.arg(further(alloc, name))?;
    }
    Ok(command)
}

fn with_options<'w>(
    alloc: Global,
    command: Command<'w>,
    names: &[&'static str],
) -> Result<Command<'w>, AllocError>
    requires { (fields_of command).has_globals ≡ false }
    ensures app { IfOk result (λ new. app_of new ≡ with_rules choice names.now (app_of command.entry)) }
    ensures local { IfOk result (λ new. (fields_of new).has_globals ≡ false) }
{
    let mut command = command;
    for name in names {
        command = command.arg(option(alloc, name))?;
    }
    Ok(command)
}

// A word that has to stand at the next place.
fn place<'w>(alloc: Global, name: &'w str) -> Arg<'w>
    ensures rule { rule_of result ≡ place name.entry.now }
    ensures local { result.global ≡ false }
{
    Arg::new(alloc, name).required(true).action(ArgAction::Set)
}

// A word that may stand at the next place.
fn further<'w>(alloc: Global, name: &'w str) -> Arg<'w>
    ensures rule { rule_of result ≡ further name.entry.now }
    ensures local { result.global ≡ false }
{
    Arg::new(alloc, name).action(ArgAction::Set)
}

// An option with one value.
fn option<'w>(alloc: Global, name: &'w str) -> Arg<'w>
    ensures rule { rule_of result ≡ choice name.entry.now }
    ensures local { result.global ≡ false }
{
    Arg::new(alloc, name).long(name).action(ArgAction::Set)
}
