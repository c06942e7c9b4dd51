//! The kinds of arguments that a command takes, and each as a `clap` argument.
ghost use Rattle.std.specs.Prelude.{◌≡◌, false, Some};
ghost use Rattle.clap.specs.Words.{new_rule, rule_of};
ghost use Rattle.command_line.specs.Arguments.{action_for, is_needed, rule_for};

use clap::builder::ValueParser;
use clap::{Arg, ArgAction};
use std::alloc::Global;

/// How an argument of a command is given.
#[derive(Clone, Copy)]
pub(crate) enum ArgumentKind<'a> {
    /// A required word, known by its position.
    Positional,
    /// An optional word, known by its position.
    OptionalPositional,
    /// An optional `--NAME TEXT`.
    Text,
    /// An optional `--NAME WAY`; the default is `loopback`.
    Way,
    /// A flag `--NAME`.
    Flag,
    /// An optional `--NAME N`; the parser has the limits of the number.
    Number(ValueParser<'a>),
    /// A required `--NAME N`; the parser has the limits of the number.
    RequiredNumber(ValueParser<'a>),
}

impl<'a> ArgumentKind<'a> {
    /// Whether `clap` refuses words that lack the argument.
    fn is_needed(self) -> bool
        ensures { result ≡ is_needed self.entry }
    {
        matches!(
            self,
            ArgumentKind::Positional | ArgumentKind::RequiredNumber(_)
        )
    }

    /// Returns what `clap` does with the argument: a flag is set to true, any other one to its value.
    fn action(self) -> ArgAction
        ensures { result ≡ action_for self.entry }
    {
        match self {
            ArgumentKind::Flag => ArgAction::SetTrue,
            _ => ArgAction::Set,
        }
    }
}

/// An argument of a command, with its text in the command's help.
#[derive(Clone, Copy)]
pub(crate) struct Argument<'a> {
    pub(crate) kind: ArgumentKind<'a>,
    pub(crate) name: &'a str,
    pub(crate) help: &'a str,
}

impl<'a> Argument<'a> {
    /// Returns the argument as `clap` takes it.
    pub(crate) fn arg(&self, alloc: Global) -> Arg<'a>
        ensures rule { rule_of result ≡ rule_for self.now }
        ensures local { result.global ≡ false }
    {
        self.applied_to(Arg::new(alloc, self.name))
    }

    /// Returns a new `clap` argument of this name with the help and the rules of this one.
    fn applied_to(&self, arg: Arg<'a>) -> Arg<'a>
        ensures rule { rule_of arg.entry ≡ new_rule self.now.name.now
            → rule_of result ≡ rule_for self.now }
        ensures others { result ≡ record arg.entry {
          help = Some self.now.help;
          action = Some (action_for self.now.kind);
          required = is_needed self.now.kind;
          long = result.long;
          default_vals = result.default_vals;
          value_parser = result.value_parser;
        } }
    {
        let Argument { kind, name, help } = *self;
        let arg = arg
            .help(help)
            .action(kind.action())
            .required(kind.is_needed());
        match kind {
            ArgumentKind::Positional | ArgumentKind::OptionalPositional => arg,
            ArgumentKind::Text | ArgumentKind::Flag => arg.long(name),
            ArgumentKind::Way => arg.long(name).default_value("loopback"),
            ArgumentKind::Number(parser) | ArgumentKind::RequiredNumber(parser) => {
                arg.long(name).value_parser(parser)
            }
        }
    }
}
