//! Runs between ends in memory that fail where a case says.

use crate::runs::{ROOM, replay};
use crate::same;
use aia_io::{MemSink, MemSource};
use aia_replay::Status;
use std::alloc::{AllocError, Global};
use std::fmt::Debug;
use std::process::Abort;

/// The ends of a run: how many bytes a read gives, at least 1, the calls that fail, numbered from
/// 1, so that 0 is none, and how many bytes the sink has room for.
#[derive(Clone, Copy, Debug)]
pub(crate) struct Ends {
    pub piece: usize,
    pub failing_read: u64,
    pub failing_write: u64,
    pub room: usize,
}

impl Ends {
    /// Makes ends that never fail, with pieces of so many bytes.
    pub(crate) fn sound(piece: usize) -> Ends {
        Ends {
            piece,
            failing_read: 0,
            failing_write: 0,
            room: ROOM,
        }
    }
}

/// How a run ended, and what it wrote.
#[derive(Drop)]
pub(crate) struct Outcome {
    pub status: Status,
    pub written: Vec<u8>,
}

/// Replays a script between such ends, and looks that the end that failed, and no other, did so
/// once.
pub(crate) fn outcome_of(
    rt: &impl Abort,
    alloc: Global,
    script: &[u8],
    ends: Ends,
) -> Result<Outcome, AllocError> {
    let mut source = source_of(alloc, script, ends)?;
    let mut sink = sink_of(alloc, ends)?;
    let status = replay(alloc, &mut source, &mut sink);
    same!(rt; source.faults() == 1, status == Status::ReadFault; ends);
    same!(rt; source.faults() > 1, false; ends);
    same!(rt; sink.faults() == 1, status == Status::WriteFault; ends);
    same!(rt; sink.faults() > 1, false; ends);
    drop(source);
    ending(alloc, status, sink)
}

/// Makes the source of a script or a plan.
pub(crate) fn source_of(alloc: Global, script: &[u8], ends: Ends) -> Result<MemSource, AllocError> {
    let failing = vec![in alloc; ends.failing_read]?;
    let script = Vec::from_slice(alloc, script)?;
    Ok(MemSource::new(script, ends.piece.max(1), failing))
}

/// Makes the sink of a run.
pub(crate) fn sink_of(alloc: Global, ends: Ends) -> Result<MemSink, AllocError> {
    MemSink::new(alloc, ends.room, vec![in alloc; ends.failing_write]?)
}

/// Gives how a run ended, and what it wrote to a sink.
pub(crate) fn ending(alloc: Global, status: Status, sink: MemSink) -> Result<Outcome, AllocError> {
    let written = Vec::from_slice(alloc, sink.bytes())?;
    Ok(Outcome { status, written })
}

/// Gives the number of the first line, from 0 on, that is not the same in both texts.
fn first_difference(text: &[u8], other: &[u8]) -> Option<usize> {
    if text == other {
        return None;
    }
    let lines = text.split(|byte| *byte == b'\n');
    let others = other.split(|byte| *byte == b'\n');
    Some(
        lines
            .zip(others)
            .take_while(|(line, other)| line == other)
            .count(),
    )
}

/// Replays a script between such ends, and looks at how the run ends and at what it writes.
pub(crate) fn ends_with(
    rt: &impl Abort,
    alloc: Global,
    script: &[u8],
    ends: Ends,
    status: Status,
    written: &[u8],
) -> Result<(), AllocError> {
    let outcome = outcome_of(rt, alloc, script, ends)?;
    same!(rt; outcome.status, status; ends);
    same!(rt; first_difference(&outcome.written, written), None; ends);
    Ok(())
}

/// Replays a script between ends that never fail, and looks at what it writes; `case` is what to
/// name where it is something else.
pub(crate) fn answers_with<C: Copy + Debug>(
    rt: &impl Abort,
    alloc: Global,
    script: &[u8],
    piece: usize,
    written: &[u8],
    case: C,
) -> Result<(), AllocError> {
    let outcome = outcome_of(rt, alloc, script, Ends::sound(piece))?;
    same!(rt; outcome.status, Status::Done; case);
    same!(rt; first_difference(&outcome.written, written), None; case);
    Ok(())
}
