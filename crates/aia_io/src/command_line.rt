//! The words of the command line.

ghost use Rattle.std.specs.Prelude.{◌≡◌, ◌≢◌, ◌↔◌, true, false, map, Err, IfOk};
ghost use Rattle.std.specs.IoError.{error_kind};
ghost use Rattle.clap.specs.Words.{app_of, is_simple_and_free};
ghost use Rattle.clap.specs.declared.builder.command.Command.TheViews.{out-Command};
ghost use Rattle.aia_io.specs.Commands.{Finds, bare_command};
ghost use Rattle.aia_io.specs.Words.{AreNoText, AreWordsOf, words_of};

use clap::error::ErrorKind as CommandError;
use clap::{ArgMatches, Command};
use std::alloc::{AllocError, Global};
use std::io::ErrorKind;
use std::{env, io};

/// Reads the words of the command line, the program's name first. `Err`: one of them is no text,
/// or there is no memory for them.
pub fn arguments(rt: &HostRuntime) -> io::Result<Vec<String>> {
    let arguments = env::args(rt)?.collect(rt.alloc())?;
    Ok(arguments)
}

/// Why the words of the command line are not read.
#[derive(Clone, Copy, Debug, PartialEq, Eq)]
pub enum Unread {
    /// One of them is no text.
    NoText,
    /// There is no memory for them.
    Memory,
}

/// Gives the words without the program's name. `Err`: there is no memory for them.
fn words(alloc: Global, arguments: &[String]) -> Result<Vec<&str>, AllocError>
    ensures { IfOk result (λ words. map (λ word. word.now) words.items ≡ words_of arguments.now) }
{
    let mut words = Vec::new(alloc);
    let rest = arguments.get(1..).unwrap_or_default();
    for argument in rest {
        words.push(argument.as_str())?;
    }
    Ok(words)
}

/// Says why words that can't be read are not: there is no memory for them, or they are no text.
fn why_unread(error: &io::Error) -> Unread
    ensures memory { error_kind error.now ≡ ErrorKind.OutOfMemory → result ≡ Unread.Memory }
    ensures no_text { error_kind error.now ≢ ErrorKind.OutOfMemory → result ≡ Unread.NoText }
{
    if error.kind() == ErrorKind::OutOfMemory {
        Unread::Memory
    } else {
        Unread::NoText
    }
}

/// Gives the words of the command line as they were read, without the program's name. `Err`: one of
/// them is no text, or there is no memory for them.
pub fn read_arguments(
    alloc: Global,
    arguments: &io::Result<Vec<String>>,
) -> Result<Vec<&str>, Unread>
    ensures words { IfOk result (λ words. AreWordsOf arguments.now words.items) }
    ensures no_text { (result ≡ Err Unread.NoText) ↔ AreNoText arguments.now }
{
    match arguments {
        Ok(arguments) => match words(alloc, arguments) {
            Ok(words) => Ok(words),
            Err(_) => Err(Unread::Memory),
        },
        Err(error) => Err(why_unread(error)),
    }
}

/// Makes a command of this name with no subcommand yet: one is required, and it shows no help.
pub fn bare_command<'a>(alloc: Global, name: &'a str) -> Command<'a>
    ensures shape { app_of result ≡ bare_command name.entry.now }
    ensures local { (out-Command result).has_globals ≡ false }
{
    Command::new(alloc, name)
        .no_binary_name(true)
        .subcommand_required(true)
        .disable_help_flag(true)
        .disable_help_subcommand(true)
}

/// Gives what a command finds in the words of the command line, the program's name not among them:
/// the subcommand that they name, and its arguments. `Ok(None)`: they are refused. `Err`: there is
/// no memory to read them.
pub fn match_words<'a>(
    command: Command<'a>,
    words: &'a [&'a str],
) -> Result<Option<ArgMatches<'a>>, AllocError>
    requires { is_simple_and_free (app_of command) ≡ true }
    ensures { IfOk result (Finds (app_of command.entry) (map (λ word. word.now) words.now)) }
{
    match command.try_get_matches_from(words) {
        Ok(found) => Ok(Some(found)),
        Err(error) => match error.kind() {
            CommandError::OutOfMemory => Err(AllocError),
            _ => Ok(None),
        },
    }
}
