//! The words of the command line.

ghost use Rattle.std.specs.Prelude.{◌≡◌, false, IfOk, true};
ghost use Rattle.clap.specs.Words.{app_of, is_simple_and_free, subcommand_rows_of};
ghost use Rattle.clap.specs.declared.builder.command.Command.TheViews.{out-Command};
ghost use Rattle.aia_io.specs.Words.{asked};
ghost use Rattle.plans_text.specs.CommandLine.{judge_command, named, subcommand_of, the_command};

use aia_io::{bare_command, match_words};
use clap::{ArgMatches, Command};
use std::alloc::{AllocError, Global};

/// What the program is to do. Profile.
#[derive(Clone, Copy, Debug, PartialEq, Eq)]
pub enum PlansSubcommand {
    /// Judge the plans of a file.
    Judge,
}

/// Makes the command of the words. `Err`: there is no memory for it.
fn command<'a>(alloc: Global) -> Result<Command<'a>, AllocError>
    ensures shape { IfOk result (λ made. app_of made ≡ the_command) }
    ensures simple { IfOk result (λ made. is_simple_and_free (app_of made) ≡ true) }
{
    bare_command(alloc, "plans").subcommand(judge_command(alloc))
}

/// Makes the subcommand `judge`.
fn judge_command<'a>(alloc: Global) -> Command<'a>
    ensures shape { app_of result ≡ judge_command }
    ensures local { (out-Command result).has_globals ≡ false }
{
    Command::new(alloc, "judge")
}

/// Reads the subcommand that was met. `None`: there is none.
fn read_matches(matches: &ArgMatches<'_>) -> Option<PlansSubcommand>
    ensures { result ≡ named (subcommand_rows_of matches.now) }
{
    let (name, _arguments) = matches.subcommand()?;
    match name {
        "judge" => Some(PlansSubcommand::Judge),
        _ => None,
    }
}

/// Reads what the words of the command line ask for, the program's name not among them. `None`: the
/// words are refused. `Err`: there is no memory to read them.
pub(crate) fn read_words(
    alloc: Global,
    words: &[&str],
) -> Result<Option<PlansSubcommand>, AllocError>
    ensures { IfOk result (λ given. given ≡ asked subcommand_of words.now) }
{
    match match_words(command(alloc)?, words)? {
        Some(found) => Ok(read_matches(&found)),
        None => Ok(None),
    }
}
