//! A run of the program.

ghost use Rattle.std.specs.Prelude.{◌≡◌, ◌≢◌, ◌↔◌, ◌≤◌, [], Some, None};
ghost use Rattle.aia_io.specs.Words.{asked};
ghost use Rattle.plans_text.specs.CommandLine.{subcommand_of};
ghost use Rattle.plans_text.specs.Runs.{EndsAsAsked};

use crate::command_line::{PlansSubcommand, read_words};
use crate::judging::judge_file;
use crate::outcome::FileOutcome;
use aia_io::{Sink, Source};
use std::alloc::Global;

/// How a run ended.
#[derive(Clone, Copy, Debug, PartialEq, Eq)]
pub enum PlansStatus {
    /// The file was read to its end, and all its answers were written; this came of its plans.
    Done(FileOutcome),

    /// The words of the command line are refused.
    Usage,

    /// The source failed.
    ReadFault,

    /// The sink failed.
    WriteFault,

    /// There was no memory for the words, for a plan or for answers.
    Memory,

    /// The file has more than [`FILE_BYTES`](crate::FILE_BYTES) bytes.
    TooLong,
}

/// Runs the command that `words` give, the command line without the program's name: `judge` reads a
/// file of plans from the source to its end, and writes to the sink what is answered of each plan
/// as it ends. What clap does not take as that word is refused.
///
/// Memory is taken for the words, for the line and the plan that are being read, for its table, and
/// for the answers of the plans that end in one piece of the file.
pub fn run<S: Source, K: Sink>(
    alloc: Global,
    words: &[&str],
    source: &mut S,
    sink: &mut K,
) -> PlansStatus
    ensures ends { EndsAsAsked (asked subcommand_of words.now) result (S.supply source.old)
        (S.supply source.new) (K.taken sink.old) (K.taken sink.new) (S.faults source.old)
        (S.faults source.new) (K.faults sink.old) (K.faults sink.new) }
    ensures usage { result ≢ PlansStatus.Memory
        → ((result ≡ PlansStatus.Usage) ↔ (asked subcommand_of words.now ≡ None)) }
    ensures nothing { result ≡ PlansStatus.Usage
        → (source.new ≡ source.old) × (sink.new ≡ sink.old) }
{
    match read_words(alloc, words) {
        Ok(Some(PlansSubcommand::Judge)) => judge_file(alloc, source, sink),
        Ok(None) => PlansStatus::Usage,
        Err(_) => PlansStatus::Memory,
    }
}
