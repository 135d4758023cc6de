ghost use Rattle.std.specs.Prelude.{◌≡◌, ◌≢◌, ◌↔◌, ◌⊎◌, ◌+◌, ℕ, true, Some, None};
ghost use Rattle.aia_io.specs.Ends.{Rose, TakesAll};
ghost use Rattle.aia_command.specs.CommandLine.{subcommand_of};
ghost use Rattle.aia_io.specs.Words.{asked};
ghost use Rattle.aia_replay.specs.Runs.{reads_source, RunEnds, StopsAtMachine, WritesAnswers, WritesVerdict, FitsIn, IsDoneOrMemory};
ghost use Rattle.aia_replay.specs.Streams.{Begins};

use crate::generator::summarize;
use crate::plan_reader::audit_plan;
use crate::replayer::Replayer;
use crate::stop::Stop;
use aia_audit::Kind;
use aia_command::{Subcommand, read_words};
use aia_io::limits::SOURCE_BYTES;
use aia_io::{Sink, Source};
use std::alloc::Global;

/// How a run ended.
#[derive(Clone, Copy, Debug, PartialEq, Eq)]
pub enum Status {
    /// The script was read to its end, and all its answers were written; or the summary was; or the
    /// plan was read to its end, and the answer written.
    Done,
    /// The words of the command line are refused.
    Usage,
    /// The source failed.
    ReadFault,
    /// The sink failed.
    WriteFault,
    /// There was no memory for the words, or for the machine.
    Memory,
    /// The script or the plan has more than [`SOURCE_BYTES`] bytes.
    TooLong,
}

/// Runs the command that `words` give, the command line without the program's name: `replay` reads
/// a script from the source to its end and writes the answers of its lines to the sink; `gen COUNT
/// SEED` runs the script that the two numbers generate, reads nothing, and writes its summary;
/// `audit KIND W` reads a plan from the source to its end, and writes the verdict on it. Every
/// other list of words is refused, as clap refuses it.
///
/// It returns always. Answers are written at the latest before the next read and before it returns.
/// Memory is taken only for the words and for the machine.
pub fn run<S: Source, K: Sink>(
    alloc: Global,
    words: &[&str],
    source: &mut S,
    sink: &mut K,
) -> Status
    // The headline: what is written is the model's answers of the whole script.
    ensures done { asked subcommand_of words.now ≡ Some Subcommand.Replay → result ≡ Status.Done
        → WritesAnswers (S.supply source.old) (K.taken sink.old) (K.taken sink.new) }
    ensures all { asked subcommand_of words.now ≡ Some Subcommand.Replay → result ≡ Status.Done
        → TakesAll (S.supply source.old) (S.supply source.new) }

    // Of `audit`: what is written is the verdict on the whole plan, or which of its texts is bad.
    ensures audits { (kind : Kind) (width : ℕ)
        → asked subcommand_of words.now ≡ Some (Subcommand.Audit kind width) → result ≡ Status.Done
        → WritesVerdict kind width (S.supply source.old) (K.taken sink.old) (K.taken sink.new)
        × TakesAll (S.supply source.old) (S.supply source.new) }

    // What every ending promises, by what the words ask for: its cause, what was then written, and
    // how much was taken.
    ensures ends { RunEnds (asked subcommand_of words.now) result (S.supply source.old)
        (S.supply source.new) (K.taken sink.old) (K.taken sink.new) (S.faults source.old)
        (S.faults source.new) (K.faults sink.old) (K.faults sink.new) }
    ensures unread { (count seed : ℕ)
        → asked subcommand_of words.now ≡ Some (Subcommand.Generate count seed)
        → source.new ≡ source.old }

    // Where there is memory for them, words are refused exactly by `Usage`; nothing is touched
    // then.
    ensures usage { result ≢ Status.Memory
        → ((result ≡ Status.Usage) ↔ (asked subcommand_of words.now ≡ None)) }
    ensures nothing { asked subcommand_of words.now ≡ None
        → ((result ≡ Status.Usage) ⊎ (result ≡ Status.Memory))
        × (source.new ≡ source.old) × (sink.new ≡ sink.old) }

    // Completeness: with good words, no fault and a script or plan that fits, by what the source
    // told before or by its count of the bytes that it gave, nothing but want of memory is in the
    // way.
    ensures complete { asked subcommand_of words.now ≢ None
        → (¬ Rose (S.faults source.old) (S.faults source.new))
        → (¬ Rose (K.faults sink.old) (K.faults sink.new))
        → (reads_source (asked subcommand_of words.now) ≡ true
        → FitsIn SOURCE_BYTES (S.supply source.old) (S.supply source.new))
        → IsDoneOrMemory result }
{
    match read_words(alloc, words) {
        Ok(Some(Subcommand::Replay)) => replay(alloc, source, sink),
        Ok(Some(Subcommand::Generate { count, seed })) => summarize(alloc, count, seed, sink),
        Ok(Some(Subcommand::Audit { kind, words })) => audit_plan(kind, words, source, sink),
        Ok(None) => Status::Usage,
        Err(_) => Status::Memory,
    }
}

/// Answers the script that the source gives.
fn replay<S: Source, K: Sink>(alloc: Global, source: &mut S, sink: &mut K) -> Status
    ensures usage { result ≢ Status.Usage }
    ensures machine { result ≡ Status.Memory → StopsAtMachine (S.supply source.old)
        (S.supply source.new) (K.taken sink.old) (K.taken sink.new) }
    ensures ends { RunEnds (Some Subcommand.Replay) result (S.supply source.old)
        (S.supply source.new) (K.taken sink.old) (K.taken sink.new) (S.faults source.old)
        (S.faults source.new) (K.faults sink.old) (K.faults sink.new) }
{
    let mut replayer = Replayer::new();
    let status = replay_by(&mut replayer, alloc, source, sink);
    drop(replayer);
    status
}

/// Answers the script that the source gives, by a replayer that has read nothing. It is lent: a
/// function that lets a machine go is dear to prove, the more so the more it does.
fn replay_by<S: Source, K: Sink>(
    replayer: &mut Replayer,
    alloc: Global,
    source: &mut S,
    sink: &mut K,
) -> Status
    requires { Begins replayer.old }
    ensures usage { result ≢ Status.Usage }
    ensures machine { result ≡ Status.Memory → StopsAtMachine (S.supply source.old)
        (S.supply source.new) (K.taken sink.old) (K.taken sink.new) }
    ensures ends { RunEnds (Some Subcommand.Replay) result (S.supply source.old)
        (S.supply source.new) (K.taken sink.old) (K.taken sink.new) (S.faults source.old)
        (S.faults source.new) (K.faults sink.old) (K.faults sink.new) }
{
    match replayer.read_all(alloc, source, sink) {
        Ok(status) => status,
        Err(Stop::Sink) => Status::WriteFault,
        Err(Stop::Memory) => match replayer.write_out(sink) {
            Ok(()) => Status::Memory,
            Err(_) => Status::WriteFault,
        },
    }
}
