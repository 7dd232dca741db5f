ghost use Rattle.std.specs.Prelude.{◌≡◌, IfOk};
ghost use Rattle.clap.specs.Words.{app_of};
ghost use Rattle.command_words.specs.Clap.{app_by, bare_app, with_value};
ghost use Rattle.command_words.specs.Forms.{entry_of};

use crate::forms::Form;
use clap::{Arg, ArgAction, Command};
use std::alloc::{AllocError, Global};

/// The names of the values that a command may have, in their order.
pub(crate) const NAMES: [&str; 4] = ["first", "second", "third", "fourth"];

/// The command of `clap` that takes what the form does. It has no flag for help, so `--help` is an unknown option.
pub(crate) fn command_by<'a>(alloc: Global, form: Form) -> Result<Command<'a>, AllocError>
    ensures { IfOk result (λ command. app_of command ≡ app_by (entry_of form)) }
{
    let command = with_value(alloc, bare_command(alloc)?, form, 0, "first")?;
    let command = with_value(alloc, command, form, 1, "second")?;
    let command = with_value(alloc, command, form, 2, "third")?;
    with_value(alloc, command, form, 3, "fourth")
}

/// The command with the flag `--json` alone.
fn bare_command<'a>(alloc: Global) -> Result<Command<'a>, AllocError>
    ensures { IfOk result (λ command. app_of command ≡ bare_app) }
{
    let json = Arg::new(alloc, "json")
        .long("json")
        .action(ArgAction::SetTrue);
    Command::new(alloc, "ccac")
        .disable_help_flag(true)
        .arg(json)
}

/// The command with the value at this place, where the form has one. Those at places below `least` have to be given.
fn with_value<'a>(
    alloc: Global,
    command: Command<'a>,
    form: Form,
    place: usize,
    name: &'a str,
) -> Result<Command<'a>, AllocError>
    ensures { IfOk result (λ next. app_of next ≡ with_value form.least form.most (app_of command.entry) place name.entry.now) }
{
    if place < form.most {
        let value = Arg::new(alloc, name).required(place < form.least);
        command.arg(value)
    } else {
        Ok(command)
    }
}
