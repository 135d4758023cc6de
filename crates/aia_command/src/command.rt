//! The command as `clap` is told of it.

ghost use Rattle.std.specs.Prelude.{◌≡◌, false, IfOk, true};
ghost use Rattle.clap.specs.Words.{app_of, is_simple_and_free, rule_of};
ghost use Rattle.clap.specs.declared.builder.command.Command.TheViews.{out-Command};
ghost use Rattle.clap.specs.declared.builder.value_parser.ValueParser.TheVariants as parser;
ghost use Rattle.aia_command.specs.CommandLine.{audit_command, generate_command, replay_command, required_rule, the_command};

use crate::limits::MOST_LINES;
use aia_io::bare_command;
use clap::builder::ValueParser;
use clap::{Arg, Command, value_parser};
use std::alloc::{AllocError, Global};

/// Makes the command of the words. `Err`: there is no memory for it.
pub(crate) fn command<'a>(alloc: Global) -> Result<Command<'a>, AllocError>
    ensures shape { IfOk result (λ made. app_of made ≡ the_command) }
    ensures simple { IfOk result (λ made. is_simple_and_free (app_of made) ≡ true) }
{
    let with_replay = bare_command(alloc, "aia").subcommand(replay_command(alloc))?;
    let with_generate = with_replay.subcommand(generate_command(alloc)?)?;
    let whole = with_generate.subcommand(audit_command(alloc)?)?;
    Ok(whole)
}

/// Makes the subcommand `replay`.
fn replay_command<'a>(alloc: Global) -> Command<'a>
    ensures shape { app_of result ≡ replay_command }
    ensures local { (out-Command result).has_globals ≡ false }
{
    Command::new(alloc, "replay")
}

/// Makes the subcommand `gen`. `Err`: there is no memory for it.
fn generate_command<'a>(alloc: Global) -> Result<Command<'a>, AllocError>
    ensures shape { IfOk result (λ made. app_of made ≡ generate_command) }
    ensures local { IfOk result (λ made. (out-Command made).has_globals ≡ false) }
{
    let count = required_argument(alloc, "COUNT", up_to_most_lines());
    let counted = Command::new(alloc, "gen").arg(count)?;
    counted.arg(required_argument(alloc, "SEED", value_parser!(u64)))
}

/// Makes the subcommand `audit`. `Err`: there is no memory for it.
fn audit_command<'a>(alloc: Global) -> Result<Command<'a>, AllocError>
    ensures shape { IfOk result (λ made. app_of made ≡ audit_command) }
    ensures local { IfOk result (λ made. (out-Command made).has_globals ≡ false) }
{
    let kind = required_argument(alloc, "KIND", ValueParser::String);
    let named = Command::new(alloc, "audit").arg(kind)?;
    named.arg(required_argument(alloc, "W", value_parser!(u64)))
}

/// Makes an argument that must be there, with the words that `parser` takes.
fn required_argument<'a>(alloc: Global, name: &'a str, parser: ValueParser<'a>) -> Arg<'a>
    ensures rule { rule_of result ≡ required_rule name.entry.now parser.entry }
    ensures local { result.global ≡ false }
{
    Arg::new(alloc, name).required(true).value_parser(parser)
}

/// Makes the parser of numbers from 0 to [`MOST_LINES`].
fn up_to_most_lines<'a>() -> ValueParser<'a>
    ensures { result ≡ parser.Unsigned 0 MOST_LINES }
{
    value_parser!(u64).range(..=MOST_LINES as i64)
}
