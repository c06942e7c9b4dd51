//! The command line as a `clap` command.
ghost use Rattle.std.specs.Prelude.{IfOk};
ghost use Rattle.clap.specs.Words.{App, with_rule, with_subcommand};
ghost use Rattle.command_line.specs.Arguments.{TakesSo, app_in, rule_for};
ghost use Rattle.command_line.specs.Line.{line_app, wanting_command};

use crate::VERSION;
use crate::options::Argument;
use crate::outlines::{Outline, outlines};
use clap::Command;
use std::alloc::{AllocError, Global};

/// Adds an argument to a command.
fn with_argument<'a>(
    command: Command<'a>,
    alloc: Global,
    argument: &Argument<'static>,
) -> Result<Command<'a>, AllocError>
    ensures { IfOk result (λ c. (a : App) → TakesSo command.entry a
        → TakesSo c (with_rule a (rule_for argument.now))) }
{
    command.arg(argument.arg(alloc))
}

/// Adds a command to the program.
fn with_command<'a>(program: Command<'a>, command: Command<'a>) -> Result<Command<'a>, AllocError>
    ensures { IfOk result (λ c. (a b : App) → TakesSo program.entry a → TakesSo command.entry b
        → TakesSo c (with_subcommand a b.top)) }
{
    program.subcommand(command)
}

/// Sets the texts above and below the options in a command's help.
fn with_texts<'a>(
    command: Command<'a>,
    about: &'static str,
    after_help: &'static str,
) -> Command<'a>
    ensures { (a : App) → TakesSo command.entry a → TakesSo result a }
{
    command.about(about).after_help(after_help)
}

/// Requires one of the program's commands, and gives the program a version.
fn wanting_command<'a>(command: Command<'a>) -> Command<'a>
    ensures { (a : App) → TakesSo command.entry a → TakesSo result (wanting_command a) }
{
    command
        .version(VERSION)
        .disable_help_subcommand(true)
        .subcommand_required(true)
}

/// Returns the command of an outline.
fn command<'a>(alloc: Global, outline: &Outline<'static>) -> Result<Command<'a>, AllocError>
    ensures { IfOk result (λ c. TakesSo c (app_in outline.now)) }
{
    let mut command = Command::new(alloc, outline.name);
    for argument in outline.arguments {
        command = with_argument(command, alloc, argument)?;
    }
    Ok(with_texts(command, outline.about, outline.after_help))
}

/// Returns the program's command line: its commands, its help and its version.
pub(crate) fn line<'a>(alloc: Global) -> Result<Command<'a>, AllocError>
    ensures { IfOk result (λ c. TakesSo c line_app) }
{
    let mut program = Command::new(alloc, "natpair");
    let all = outlines();
    for outline in all {
        program = with_command(program, command(alloc, outline)?)?;
    }
    Ok(with_texts(
        wanting_command(program),
        "A pair of IPv4 NAT gateways that share an inside and an outside address by VRRP",
        "Example: natpair sim S.toml day.script\n`natpair COMMAND --help` tells a command's options.",
    ))
}
