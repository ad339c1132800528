//! Builders of arguments and subcommands, with contracts that the parser's proofs use.

ghost use Rattle.std.specs.Prelude.{◌≡◌, IfOk, true};
ghost use Rattle.clap.specs.Words.{App, Rule, new_app, with_rule};
ghost use Rattle.cli.specs.App.{a_number, flag, given_as, named_by, repeated_by, required, required_as};
ghost use Rattle.cli.specs.App.{with_sub};
ghost use Rattle.cli.specs.internal.Built.{IsApp, IsRule};

use clap::{Arg, ArgAction, value_parser};
use std::alloc::{AllocError, Global};

/// A required positional argument.
pub(crate) fn word<'a>(alloc: Global, name: &'a str, help: &'a str) -> Arg<'a>
    ensures { IsRule (required name.entry.now) result }
{
    Arg::new(alloc, name)
        .help(help)
        .required(true)
        .action(ArgAction::Set)
}

/// A required positional integer.
pub(crate) fn number<'a>(alloc: Global, name: &'a str, help: &'a str) -> Arg<'a>
    ensures { IsRule (required_as a_number name.entry.now) result }
{
    word(alloc, name, help).value_parser(value_parser!(u64))
}

/// An option with an integer value.
pub(crate) fn number_option<'a>(
    alloc: Global,
    name: &'a str,
    long: &'a str,
    help: &'a str,
) -> Arg<'a>
    ensures { IsRule (given_as a_number name.entry.now long.entry.now) result }
{
    Arg::new(alloc, name)
        .long(long)
        .help(help)
        .action(ArgAction::Set)
        .value_parser(value_parser!(u64))
}

/// An option whose value is shown as NAME in help.
pub(crate) fn name_option<'a>(alloc: Global, name: &'a str, long: &'a str, help: &'a str) -> Arg<'a>
    ensures { IsRule (named_by name.entry.now long.entry.now) result }
{
    Arg::new(alloc, name)
        .long(long)
        .value_name("NAME")
        .help(help)
        .action(ArgAction::Set)
}

/// An option whose value is shown as NAME in help, and which may be repeated.
pub(crate) fn repeated_option<'a>(
    alloc: Global,
    name: &'a str,
    long: &'a str,
    help: &'a str,
) -> Arg<'a>
    ensures { IsRule (repeated_by name.entry.now long.entry.now) result }
{
    name_option(alloc, name, long, help).action(ArgAction::Append)
}

/// An option without a value.
pub(crate) fn flag<'a>(alloc: Global, name: &'a str, long: &'a str, help: &'a str) -> Arg<'a>
    ensures { IsRule (flag name.entry.now long.entry.now) result }
{
    Arg::new(alloc, name)
        .long(long)
        .help(help)
        .action(ArgAction::SetTrue)
}

/// A subcommand without arguments.
pub(crate) fn subcommand<'a>(alloc: Global, name: &'a str, about: &'a str) -> clap::Command<'a>
    ensures { IsApp (new_app name.entry.now) result }
{
    clap::Command::new(alloc, name).about(about)
}

/// Adds an argument to a command.
///
/// # Errors
///
/// `AllocError` if out of memory.
pub(crate) fn with_word<'a>(
    command: clap::Command<'a>,
    word: Arg<'a>,
) -> Result<clap::Command<'a>, AllocError>
    ensures { (app : App) (rule : Rule) → IsApp app command.entry → IsRule rule word.entry →
        IfOk result (IsApp (with_rule app rule)) }
{
    command.arg(word)
}

/// Adds a subcommand to a command. An error of the subcommand is passed on.
///
/// # Errors
///
/// `AllocError` if out of memory.
pub(crate) fn add_subcommand<'a>(
    command: clap::Command<'a>,
    word: Result<clap::Command<'a>, AllocError>,
) -> Result<clap::Command<'a>, AllocError>
    ensures { (app sub : App) → sub.top.is_plain ≡ true → IsApp app command.entry → IfOk word.entry (IsApp sub) →
        IfOk result (IsApp (with_sub app sub)) }
{
    match word {
        Ok(words) => command.subcommand(words),
        Err(usage_error) => Err(usage_error),
    }
}
