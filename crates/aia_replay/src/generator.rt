ghost use Rattle.std.specs.Prelude.{◌≡◌, ◌≤◌, ℕ, [], Some, IfOk, OnErr};
ghost use Rattle.aia_io.specs.Ends.{Supply};
ghost use Rattle.aia_model.specs.Answer.{after_lines};
ghost use Rattle.aia_generate.specs.Generated.{generated};
ghost use Rattle.aia_generate.specs.Tally.{Tallies};
ghost use Rattle.aia_replay.specs.Runs.{RunEnds};
ghost use Rattle.aia_replay.specs.Stands.{StandsFor};

use crate::engine::Engine;
use crate::program::Status;
use aia_command::{MOST_LINES, Subcommand};
use aia_generate::{Tally, generated_lines, summary};
use aia_io::{Sink, write_all};
use arrayvec::ArrayVec;
use std::alloc::{AllocError, Global};

/// Runs the script that two numbers generate, and writes its summary.
pub fn summarize<K: Sink>(alloc: Global, count: u64, seed: u64, sink: &mut K) -> Status
    requires { count ≤ MOST_LINES }
    ensures { (left : Supply) (faults : ℕ) → RunEnds (Some (Subcommand.Generate count seed)) result
        left left (K.taken sink.old) (K.taken sink.new) faults faults (K.faults sink.old)
        (K.faults sink.new) }
{
    let mut engine = Engine::new();
    let status = summarize_by(&mut engine, alloc, count, seed, sink);
    drop(engine);
    status
}

/// Runs the script that two numbers generate by an engine with no machine, which is lent as in
/// `replay_by`, and writes its summary.
fn summarize_by<K: Sink>(
    engine: &mut Engine,
    alloc: Global,
    count: u64,
    seed: u64,
    sink: &mut K,
) -> Status
    requires few { count ≤ MOST_LINES }
    requires stands { StandsFor engine.old [] }
    ensures { (left : Supply) (faults : ℕ) → RunEnds (Some (Subcommand.Generate count seed)) result
        left left (K.taken sink.old) (K.taken sink.new) faults faults (K.faults sink.old)
        (K.faults sink.new) }
{
    let Ok(tally) = tally_lines(alloc, count, seed, engine) else {
        return Status::Memory;
    };
    let mut text = ArrayVec::new();
    summary(&tally, engine.notices(), &mut text);
    match write_all(sink, text.as_slice()) {
        Ok(()) => Status::Done,
        Err(_) => Status::WriteFault,
    }
}

/// Answers the lines that two numbers generate, and counts what the summary tells.
fn tally_lines(
    alloc: Global,
    count: u64,
    seed: u64,
    engine: &mut Engine,
) -> Result<Tally, AllocError>
    requires { StandsFor engine.old [] }
    ensures tallies { IfOk result (λ tally. Tallies tally (generated count seed)) }
    ensures stands { IfOk result
        (λ tally. StandsFor engine.new (after_lines [] (generated count seed))) }
{
    let mut tally = Tally::new();
    for line in generated_lines(count, seed) {
        let answer = engine.line(alloc, &line)?;
        tally.count(&line, &answer);
    }
    Ok(tally)
}
