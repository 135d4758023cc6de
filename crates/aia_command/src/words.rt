ghost use Rattle.std.specs.Prelude.{◌≡◌, IfOk, option_and_then, option_map};
ghost use Rattle.clap.specs.Words.{found_of, one_of, rows_of, subcommand_rows_of};
ghost use Rattle.aia_io.specs.Words.{asked};
ghost use Rattle.aia_command.specs.CommandLine.{audit_of, generate_of, kind_at, named, number_at, subcommand_of, width_of};

use crate::command::command;
use crate::kind_word::KindWord;
use crate::subcommand::Subcommand;
use aia_io::match_words;
use aia_regs::limits::FILE_WORDS;
use clap::ArgMatches;
use std::alloc::{AllocError, Global};

/// Reads what the words of the command line ask for, the program's name not among them. `None`: the
/// words are refused. `Err`: there is no memory to read them.
pub fn read_words(alloc: Global, words: &[&str]) -> Result<Option<Subcommand>, AllocError>
    ensures { IfOk result (λ given. given ≡ asked subcommand_of words.now) }
{
    match match_words(command(alloc)?, words)? {
        Some(found) => Ok(read_matches(&found)),
        None => Ok(None),
    }
}

/// Reads the subcommand that was met. `None`: there is none, or an argument of it is no number, no
/// kind of move or no width.
fn read_matches(matches: &ArgMatches<'_>) -> Option<Subcommand>
    ensures { result ≡ named (subcommand_rows_of matches.now) }
{
    let (name, arguments) = matches.subcommand()?;
    match name {
        "replay" => Some(Subcommand::Replay),
        "gen" => read_generate(arguments),
        "audit" => read_audit(arguments),
        _ => None,
    }
}

/// Reads the arguments of `gen`. `None`: one of them is not there, or is no number.
fn read_generate(arguments: &ArgMatches<'_>) -> Option<Subcommand>
    ensures { result ≡ generate_of (rows_of (found_of arguments.now)) }
{
    let count = read_number(arguments, "COUNT")?;
    let seed = read_number(arguments, "SEED")?;
    Some(Subcommand::Generate { count, seed })
}

/// Reads the arguments of `audit`. `None`: one of them is not there, KIND is no kind of move, or W
/// is no width.
fn read_audit(arguments: &ArgMatches<'_>) -> Option<Subcommand>
    ensures { result ≡ audit_of (rows_of (found_of arguments.now)) }
{
    let kind = read_kind(arguments)?.kind;
    let number = read_number(arguments, "W")?;
    let words = width(number)?;
    Some(Subcommand::Audit { kind, words })
}

/// Reads the kind of move. `None`: it is not there, or its word names none.
fn read_kind(arguments: &ArgMatches<'_>) -> Option<KindWord>
    ensures { option_map (λ word. word.kind) result ≡ kind_at (rows_of (found_of arguments.now)) }
{
    arguments.get_one::<KindWord>("KIND")
}

/// Gives a number that is a width, how many words of 64 identities the sets of an interrupt file
/// have. `None`: it is none.
fn width(number: u64) -> Option<u32>
    ensures { result ≡ width_of number }
{
    match number {
        1 | 2 | 4 | 8 | 16 => Some(number as u32),
        _ if number == FILE_WORDS as u64 => Some(FILE_WORDS as u32),
        _ => None,
    }
}

/// Reads the number of the argument `name`. `None`: it is not there, or is no number below 2^64.
fn read_number(arguments: &ArgMatches<'_>, name: &str) -> Option<u64>
    ensures { result ≡ number_at name.now (rows_of (found_of arguments.now)) }
{
    arguments.get_one::<u64>(name)
}
