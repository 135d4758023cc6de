//! The program over the words of its command line, and its exit status.

ghost use Rattle.std.specs.Prelude.{◌≡◌, ◌≢◌, ◌⊎◌, ◌↔◌, ℕ, Contains, Some, None};
ghost use Rattle.std.specs.Process.{exit_status};
ghost use Rattle.plans_text.specs.CommandLine.{subcommand_of};
ghost use Rattle.aia_io.specs.Words.{AreRefused, asked_by};
ghost use Rattle.plans_text.specs.Command.{exit_number, exit_numbers, outcome_number};
ghost use Rattle.plans_text.specs.Runs.{EndsAsAsked, JudgesAll};

use crate::outcome::FileOutcome;
use crate::program::{PlansStatus, run};
use aia_io::{Sink, Source, StdSink, StdSource, Unread, arguments, read_arguments};
use std::alloc::Global;
use std::io;
use std::process::ExitCode;

/// Runs the program over the standard streams by the words of its command line, and gives its exit
/// status, which `command` speaks of.
pub fn start(rt: &HostRuntime) -> ExitCode
    ensures number { Contains exit_numbers (exit_status result) }
{
    let mut source = StdSource::new(rt.stdin());
    let mut sink = StdSink::new(rt.stdout());
    command(rt.alloc(), arguments(rt), &mut source, &mut sink)
}

/// Runs the command that the words of the command line give, the program's name first, from the
/// source to the sink, and gives the exit status of the program.
pub fn command<S: Source, K: Sink>(
    alloc: Global,
    arguments: io::Result<Vec<String>>,
    source: &mut S,
    sink: &mut K,
) -> ExitCode
    // The headline: at the number of an outcome, as 0 where each plan is accepted, all was read,
    // what is written is what is answered of the whole file, and that came of its plans.
    ensures done { (outcome : FileOutcome) → exit_status result ≡ outcome_number outcome
        → JudgesAll outcome (S.supply source.old) (S.supply source.new) (K.taken sink.old)
        (K.taken sink.new) }

    // What every number promises.
    ensures ends { (status : PlansStatus) → exit_status result ≡ exit_number status
        → EndsAsAsked (asked_by subcommand_of arguments) status (S.supply source.old)
        (S.supply source.new) (K.taken sink.old) (K.taken sink.new) (S.faults source.old)
        (S.faults source.new) (K.faults sink.old) (K.faults sink.new) }

    // Where there is memory for the words, they are refused exactly by 2.
    ensures usage { exit_status result ≢ 5
        → ((exit_status result ≡ 2) ↔ AreRefused subcommand_of arguments) }
    ensures nothing { exit_status result ≡ 2
        → (source.new ≡ source.old) × (sink.new ≡ sink.old) }
    ensures number { Contains exit_numbers (exit_status result) }
{
    exit_code(run_arguments(alloc, arguments, source, sink))
}

/// Runs the command that the words of the command line give, the program's name first.
fn run_arguments<S: Source, K: Sink>(
    alloc: Global,
    arguments: io::Result<Vec<String>>,
    source: &mut S,
    sink: &mut K,
) -> PlansStatus
    ensures ends { EndsAsAsked (asked_by subcommand_of arguments) result (S.supply source.old)
        (S.supply source.new) (K.taken sink.old) (K.taken sink.new) (S.faults source.old)
        (S.faults source.new) (K.faults sink.old) (K.faults sink.new) }
    ensures usage { result ≢ PlansStatus.Memory
        → ((result ≡ PlansStatus.Usage) ↔ AreRefused subcommand_of arguments) }
    ensures nothing { result ≡ PlansStatus.Usage
        → (source.new ≡ source.old) × (sink.new ≡ sink.old) }
{
    match read_arguments(alloc, &arguments) {
        Ok(words) => run(alloc, &words, source, sink),
        Err(Unread::NoText) => PlansStatus::Usage,
        Err(Unread::Memory) => PlansStatus::Memory,
    }
}

/// Gives each status its number, by which the program ends.
fn exit_code(status: PlansStatus) -> ExitCode
    ensures by_status { exit_status result ≡ exit_number status }
    ensures number { Contains exit_numbers (exit_status result) }
{
    ExitCode::from(match status {
        PlansStatus::Done(FileOutcome::Accepted) => 0,
        PlansStatus::Done(FileOutcome::Refused) => 1,
        PlansStatus::Done(FileOutcome::BadLine) => 7,
        PlansStatus::Done(FileOutcome::NoPlan) => 8,
        PlansStatus::Usage => 2,
        PlansStatus::ReadFault => 3,
        PlansStatus::WriteFault => 4,
        PlansStatus::Memory => 5,
        PlansStatus::TooLong => 6,
    })
}
