//! What the program `aia` does: the words of the command line, the ends, the exit status.

ghost use Rattle.std.specs.Prelude.{◌≡◌, ◌≢◌, ◌+◌, ◌⊎◌, ◌↔◌, ℕ, true, Contains, Some, None};
ghost use Rattle.std.specs.Process.{exit_status};
ghost use Rattle.aia_command.specs.declared.subcommand.Subcommand.TheVariants.{Replay, Generate, Audit};
ghost use Rattle.aia_plan.specs.declared.step.Kind.{Kind};
ghost use Rattle.aia_command.specs.CommandLine.{subcommand_of};
ghost use Rattle.aia_io.specs.Ends.{Rose, TakesAll};
ghost use Rattle.aia_replay.specs.Runs.{RunEnds, FitsIn, IsDoneOrMemory, WritesAnswers, WritesVerdict, reads_source};
ghost use Rattle.aia_io.specs.Words.{AreNoText, AreRefused, asked_by};
ghost use Rattle.aia_replay.specs.Command.{exit_number, exit_numbers};

use crate::program::{Status, run};
use aia_io::limits::SOURCE_BYTES;
use aia_io::{Sink, Source, StdSink, StdSource, Unread, arguments, read_arguments};
use std::alloc::Global;
use std::io;
use std::process::ExitCode;

/// Runs the program over the standard streams by the words of its command line, and gives its exit
/// status, which `command` speaks of; the clause here says only that it is one of the program's.
pub fn start(rt: &HostRuntime) -> ExitCode
    ensures number { Contains exit_numbers (exit_status result) }
{
    let mut source = StdSource::new(rt.stdin());
    let mut sink = StdSink::new(rt.stdout());
    command(rt.alloc(), arguments(rt), &mut source, &mut sink)
}

/// Runs the command that the words of the command line give, the program's name first, from the
/// source to the sink, and gives the exit status of the program.
pub fn command<S: Source, K: Sink>(
    alloc: Global,
    arguments: io::Result<Vec<String>>,
    source: &mut S,
    sink: &mut K,
) -> ExitCode
    // The headline: at 0 what is written is the model's answers of the whole script.
    ensures done { asked_by subcommand_of arguments ≡ Some Replay → exit_status result ≡ 0
        → WritesAnswers (S.supply source.old) (K.taken sink.old) (K.taken sink.new) }
    ensures all { asked_by subcommand_of arguments ≡ Some Replay → exit_status result ≡ 0
        → TakesAll (S.supply source.old) (S.supply source.new) }

    // Of `audit`: at 0 what is written is the verdict on the whole plan, or which of its texts is
    // bad.
    ensures audits { (kind : Kind) (width : ℕ)
        → asked_by subcommand_of arguments ≡ Some (Audit kind width) → exit_status result ≡ 0
        → WritesVerdict kind width (S.supply source.old) (K.taken sink.old) (K.taken sink.new)
        × TakesAll (S.supply source.old) (S.supply source.new) }

    // What every number promises, by what the words ask for.
    ensures ends { (status : Status) → exit_status result ≡ exit_number status
        → RunEnds (asked_by subcommand_of arguments) status (S.supply source.old)
        (S.supply source.new) (K.taken sink.old) (K.taken sink.new) (S.faults source.old)
        (S.faults source.new) (K.faults sink.old) (K.faults sink.new) }
    ensures unread { (count seed : ℕ)
        → asked_by subcommand_of arguments ≡ Some (Generate count seed) → source.new ≡ source.old }

    // Where there is memory for the words, they are refused exactly by 2.
    ensures usage { exit_status result ≢ 5
        → ((exit_status result ≡ 2) ↔ AreRefused subcommand_of arguments) }
    ensures nothing { exit_status result ≡ 2
        → (source.new ≡ source.old) × (sink.new ≡ sink.old) }
    ensures no_text { AreNoText arguments → exit_status result ≡ 2 }

    // There is no other number, and where nothing is in the way, it is 0, or 5.
    ensures number { Contains exit_numbers (exit_status result) }
    ensures complete { asked_by subcommand_of arguments ≢ None
        → (¬ Rose (S.faults source.old) (S.faults source.new))
        → (¬ Rose (K.faults sink.old) (K.faults sink.new))
        → (reads_source (asked_by subcommand_of arguments) ≡ true
        → FitsIn SOURCE_BYTES (S.supply source.old) (S.supply source.new))
        → (exit_status result ≡ 0) ⊎ (exit_status result ≡ 5) }
{
    exit_code(run_arguments(alloc, arguments, source, sink))
}

/// Runs the command that the words of the command line give, the program's name first.
fn run_arguments<S: Source, K: Sink>(
    alloc: Global,
    arguments: io::Result<Vec<String>>,
    source: &mut S,
    sink: &mut K,
) -> Status
    ensures ends { RunEnds (asked_by subcommand_of arguments) result (S.supply source.old)
        (S.supply source.new) (K.taken sink.old) (K.taken sink.new) (S.faults source.old)
        (S.faults source.new) (K.faults sink.old) (K.faults sink.new) }
    ensures unread { (count seed : ℕ)
        → asked_by subcommand_of arguments ≡ Some (Generate count seed)
        → source.new ≡ source.old }
    ensures usage { result ≢ Status.Memory
        → ((result ≡ Status.Usage) ↔ AreRefused subcommand_of arguments) }
    ensures no_text { AreNoText arguments → result ≡ Status.Usage }
    ensures nothing { result ≡ Status.Usage → (source.new ≡ source.old) × (sink.new ≡ sink.old) }
    ensures complete { asked_by subcommand_of arguments ≢ None
        → (¬ Rose (S.faults source.old) (S.faults source.new))
        → (¬ Rose (K.faults sink.old) (K.faults sink.new))
        → (reads_source (asked_by subcommand_of arguments) ≡ true
        → FitsIn SOURCE_BYTES (S.supply source.old) (S.supply source.new))
        → IsDoneOrMemory result }
{
    match read_arguments(alloc, &arguments) {
        Ok(words) => run(alloc, &words, source, sink),
        Err(Unread::NoText) => Status::Usage,
        Err(Unread::Memory) => Status::Memory,
    }
}

/// Gives each status its number, by which the program ends.
fn exit_code(status: Status) -> ExitCode
    ensures by_status { exit_status result ≡ exit_number status }
    ensures number { Contains exit_numbers (exit_status result) }
{
    ExitCode::from(match status {
        Status::Done => 0,
        Status::Usage => 2,
        Status::ReadFault => 3,
        Status::WriteFault => 4,
        Status::Memory => 5,
        Status::TooLong => 6,
    })
}
