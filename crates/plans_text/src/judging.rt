//! Plans are answered as they end.

ghost use Rattle.std.specs.Prelude.{◌≡◌, ◌≤◌, ◌<◌, ◌+◌, ◌-◌, ◌^◌, ◌++◌, OnOk, OnErr, IfOk, Err, length};
ghost use Rattle.std.specs.Io.KnownBytes.{Appends};
ghost use Rattle.aia_io.specs.Ends.{Rose, CutOff};
ghost use Rattle.plans_text.specs.PlanFile.{answers, outcome};
ghost use Rattle.plans_text.specs.Streaming.{IsReady, lines_read};
ghost use Rattle.plans_text.specs.Runs.{EndsJudge, IsFront, Judged, WhateverWasJudged, stopped};

use crate::outcome::{Answered, FileOutcome};
use crate::plan_reader::PlanFileReader;
use crate::program::PlansStatus;
use aia_io::limits::PIECE_BYTES;
use aia_io::{Piece, Sink, Source, read_piece, write_all};
use std::alloc::Global;

/// Why a run stops before its source ends, where the source does not fail.
#[derive(Clone, Copy, Debug, PartialEq, Eq)]
pub(crate) enum Stop {
    /// The sink failed.
    Sink,

    /// There is no memory for a plan, or for its answer.
    Memory,
}

/// Gives the status of a run that stops.
fn stopped(stop: Stop) -> PlansStatus
    ensures { result ≡ stopped stop }
{
    match stop {
        Stop::Sink => PlansStatus::WriteFault,
        Stop::Memory => PlansStatus::Memory,
    }
}

/// Writes bytes. `Err`: the sink failed, and took a front of them.
fn give<K: Sink>(sink: &mut K, bytes: &[u8]) -> Result<(), Stop>
    ensures ok { OnOk result (Appends (K.taken sink.old) (K.taken sink.new) bytes.now) }
    ensures cut { OnErr result (CutOff (K.taken sink.old) (K.taken sink.new) bytes.now) }
    ensures fault { result ≡ Err Stop.Sink → Rose (K.faults sink.old) (K.faults sink.new) }
    ensures later { K.faults sink.old ≤ K.faults sink.new }
{
    match write_all(sink, bytes) {
        Ok(()) => Ok(()),
        Err(_) => Err(Stop::Sink),
    }
}

/// Reads a piece of the file, and writes what is answered of the plans that end in it.
fn judge_piece<K: Sink>(
    alloc: Global,
    reader: &mut PlanFileReader,
    sink: &mut K,
    piece: &[u8],
) -> Result<(), Stop>
    requires ready { IsReady reader.old }
    requires room { lines_read reader.old + length piece.now < 2 ^ 64 - 1 }
    ensures ok { OnOk result (WhateverWasJudged reader.old (K.taken sink.old)
        (λ before bytes. Judged reader.new before (K.taken sink.new) (bytes ++ piece.now))) }
    ensures cut { OnErr result (WhateverWasJudged reader.old (K.taken sink.old)
        (λ before bytes. IsFront before (K.taken sink.new) (bytes ++ piece.now))) }
    ensures fault { result ≡ Err Stop.Sink → Rose (K.faults sink.old) (K.faults sink.new) }
    ensures later { K.faults sink.old ≤ K.faults sink.new }
{
    match reader.feed(alloc, piece) {
        Ok(()) => give(sink, &reader.take_answers(alloc)),
        Err(_) => Err(Stop::Memory),
    }
}

/// Writes the last answers of a file, and gives what came of its plans.
fn give_last<K: Sink>(sink: &mut K, last: Answered) -> Result<FileOutcome, Stop>
    ensures ok { OnOk result (Appends (K.taken sink.old) (K.taken sink.new) last.text.items) }
    ensures came { IfOk result (λ came. came ≡ last.outcome) }
    ensures cut { OnErr result (CutOff (K.taken sink.old) (K.taken sink.new) last.text.items) }
    ensures fault { result ≡ Err Stop.Sink → Rose (K.faults sink.old) (K.faults sink.new) }
    ensures later { K.faults sink.old ≤ K.faults sink.new }
{
    match give(sink, &last.text) {
        Ok(()) => Ok(last.outcome),
        Err(stop) => Err(stop),
    }
}

/// Ends the file, writes what is answered of its last plan, and gives what came of all its plans.
fn judge_last<K: Sink>(
    alloc: Global,
    reader: PlanFileReader,
    sink: &mut K,
) -> Result<FileOutcome, Stop>
    requires ready { IsReady reader }
    requires room { lines_read reader < 2 ^ 64 - 1 }
    ensures ok { IfOk result (λ came. WhateverWasJudged reader (K.taken sink.old)
        (λ before bytes. Appends before (K.taken sink.new) (answers bytes)
        × (came ≡ outcome bytes))) }
    ensures cut { OnErr result (WhateverWasJudged reader (K.taken sink.old)
        (λ before bytes. CutOff before (K.taken sink.new) (answers bytes))) }
    ensures fault { result ≡ Err Stop.Sink → Rose (K.faults sink.old) (K.faults sink.new) }
    ensures later { K.faults sink.old ≤ K.faults sink.new }
{
    match reader.finish(alloc) {
        Ok(last) => give_last(sink, last),
        Err(_) => Err(Stop::Memory),
    }
}

/// Judges the plans of the file that the source gives. It never ends by `Usage`.
pub(crate) fn judge_file<S: Source, K: Sink>(
    alloc: Global,
    source: &mut S,
    sink: &mut K,
) -> PlansStatus
    ensures ends { EndsJudge result (S.supply source.old) (S.supply source.new)
        (K.taken sink.old) (K.taken sink.new) (S.faults source.old) (S.faults source.new)
        (K.faults sink.old) (K.faults sink.new) }
{
    let mut reader = PlanFileReader::new(alloc);
    let mut piece = [0; PIECE_BYTES];
    let mut taken: usize = 0;
    loop {
        match read_piece(source, &mut piece, taken) {
            Piece::Got(n) => {
                if let Err(stop) = judge_piece(alloc, &mut reader, sink, &piece[..n]) {
                    return stopped(stop);
                }
                taken += n;
            }
            Piece::End => {
                return match judge_last(alloc, reader, sink) {
                    Ok(outcome) => PlansStatus::Done(outcome),
                    Err(stop) => stopped(stop),
                };
            }
            Piece::Failed => return PlansStatus::ReadFault,
            Piece::TooLong => return PlansStatus::TooLong,
        }
    }
}
