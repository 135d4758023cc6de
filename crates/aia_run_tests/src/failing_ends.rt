//! What a run makes of its words, and of ends that fail, that take little at a time or that only
//! count.

ghost use Rattle.std.specs.Prelude.{◌<◌};

use crate::looks::holds;
use crate::rows::{answers_of, script_of};
use crate::runs::replay;
use crate::same;
use aia_io::{MemSink, MemSource, QuietSink, QuietSource, StdSink, StdSource};
use aia_replay::{Status, run};
use aia_vectors::rows::files::STORE_IS_CLAIMED;
use std::alloc::{AllocError, Global};
use std::io;
use std::process::Abort;
use std::test::Fail;

/// Runs the command of these words, between ends that fail at their first call.
fn refuses(rt: &impl Abort, alloc: Global, words: &[&str]) -> Result<(), AllocError> {
    let script = script_of(alloc, &STORE_IS_CLAIMED)?;
    let mut source = MemSource::new(script, 1, vec![in alloc; 1]?);
    let mut sink = MemSink::new(alloc, 1, vec![in alloc; 1]?)?;
    same!(rt; run(alloc, words, &mut source, &mut sink), Status::Usage);
    // So neither end was called.
    same!(rt; source.faults(), 0);
    same!(rt; sink.faults(), 0);
    drop(source);
    drop(sink);
    Ok(())
}

#[test]
fn other_words_are_refused_with_nothing_read_or_written(rt: HostRuntime) -> Result<(), Fail> {
    let alloc = rt.alloc();
    let refused: [&[&str]; 14] = [
        &[],
        &["gen"],
        &["gen", "1"],
        &["gen", "x", "1"],
        &["gen", "100001", "1"],
        &["gen", "-1", "1"],
        &["--help"],
        &["replay", "replay"],
        &["audit"],
        &["audit", "leave"],
        &["audit", "x", "1"],
        &["audit", "shift", "3"],
        &["audit", "1", "leave"],
        &["audit", "leave", "1", "1"],
    ];
    for words in refused {
        refuses(&rt, alloc, words)?;
    }
    Ok(())
}

/// A run over pieces of 41 bytes, which are two lines at first, that an end cuts short.
///
/// Calls are numbered from 1, so that 0 is none.
struct CutShort {
    failing_read: u64,
    failing_write: u64,
    room: usize,
    status: Status,
    answers: &'static str,
}

const CUT_SHORT: [CutShort; 6] = [
    CutShort {
        failing_read: 1,
        failing_write: 0,
        room: 1000,
        status: Status::ReadFault,
        answers: "",
    },
    CutShort {
        failing_read: 2,
        failing_write: 0,
        room: 1000,
        status: Status::ReadFault,
        answers: "ok\n0x0000000000000000\n",
    },
    // The second piece ends within the fifth line.
    CutShort {
        failing_read: 3,
        failing_write: 0,
        room: 1000,
        status: Status::ReadFault,
        answers: "ok\n0x0000000000000000\n0x0000000000000000\nok\n",
    },
    CutShort {
        failing_read: 0,
        failing_write: 1,
        room: 1000,
        status: Status::WriteFault,
        answers: "",
    },
    CutShort {
        failing_read: 0,
        failing_write: 2,
        room: 1000,
        status: Status::WriteFault,
        answers: "ok\n0x0000000000000000\n",
    },
    CutShort {
        failing_read: 0,
        failing_write: 0,
        room: 5,
        status: Status::WriteFault,
        answers: "ok\n0x",
    },
];

fn is_cut_short(rt: &impl Abort, alloc: Global, cut: &CutShort) -> Result<(), AllocError> {
    let script = script_of(alloc, &STORE_IS_CLAIMED)?;
    let mut source = MemSource::new(script, 41, vec![in alloc; cut.failing_read]?);
    let mut sink = MemSink::new(alloc, cut.room, vec![in alloc; cut.failing_write]?)?;
    let status = replay(alloc, &mut source, &mut sink);
    same!(rt; status, cut.status);
    same!(rt; sink.bytes(), cut.answers.as_bytes());
    same!(rt; source.faults() == 1, cut.status == Status::ReadFault);
    same!(rt; sink.faults() == 1, cut.status == Status::WriteFault);
    drop(source);
    drop(sink);
    Ok(())
}

#[test]
fn a_failing_end_ends_the_run(rt: HostRuntime) -> Result<(), Fail> {
    let alloc = rt.alloc();
    for cut in &CUT_SHORT {
        is_cut_short(&rt, alloc, cut)?;
    }
    Ok(())
}

/// The bytes that a source gives at a time, and the call that fails, the first one after all of its
/// 28 bytes.
const FAILS_AT_ITS_END: [(usize, u64); 4] = [(1, 29), (26, 3), (27, 3), (28, 2)];

/// Runs a script of two lines and a half, whose source fails at one call.
fn is_cut_off(rt: &impl Abort, alloc: Global, piece: usize, failing: u64) -> Result<(), AllocError>
    requires { 0 < piece }
{
    let script = Vec::from_slice(alloc, b"machine 1 1 63 8\nwire 1 1\nwi")?;
    let mut source = MemSource::new(script, piece, vec![in alloc; failing]?);
    let mut sink = MemSink::new(alloc, 1000, Vec::new(alloc))?;
    let status = replay(alloc, &mut source, &mut sink);
    same!(rt; status, Status::ReadFault; piece);
    same!(rt; sink.bytes(), b"ok\nok\n".as_slice(); piece);
    same!(rt; source.faults(), 1; piece);
    same!(rt; sink.faults(), 0; piece);
    drop(source);
    drop(sink);
    Ok(())
}

#[test]
fn a_line_that_a_failing_source_cuts_off_is_not_answered(rt: HostRuntime) -> Result<(), Fail> {
    let alloc = rt.alloc();
    for (piece, failing) in FAILS_AT_ITS_END {
        is_cut_off(&rt, alloc, piece, failing)?;
    }
    Ok(())
}

/// What a sink took before its second call failed, by the bytes that the source gives at a time.
///
/// The answers of the lines that a piece ends are written before the next piece is read.
const SECOND_WRITE_FAILS: [(usize, &str); 3] = [
    (1, "ok\n"),
    (62, "ok\n0x0000000000000000\n0x0000000000000000\n"),
    (
        109,
        "ok\n0x0000000000000000\n0x0000000000000000\nok\n0x0000000000050005\n",
    ),
];

/// Runs the script between a source that gives such pieces and a sink whose second call fails.
fn has_a_front(rt: &impl Abort, alloc: Global, piece: usize, taken: &str) -> Result<(), AllocError>
    requires { 0 < piece }
{
    let script = script_of(alloc, &STORE_IS_CLAIMED)?;
    let all = answers_of(alloc, &STORE_IS_CLAIMED, STORE_IS_CLAIMED.len())?;
    let mut source = MemSource::new(script, piece, Vec::new(alloc));
    let mut sink = MemSink::new(alloc, 1000, vec![in alloc; 2]?)?;
    let status = replay(alloc, &mut source, &mut sink);
    same!(rt; status, Status::WriteFault; piece);
    same!(rt; sink.bytes(), taken.as_bytes(); piece);
    holds(rt, all.starts_with(sink.bytes()));
    same!(rt; source.faults(), 0; piece);
    same!(rt; sink.faults(), 1; piece);
    drop(source);
    drop(sink);
    drop(all);
    Ok(())
}

#[test]
fn a_sink_that_fails_again_has_a_front_of_the_answers(rt: HostRuntime) -> Result<(), Fail> {
    let alloc = rt.alloc();
    for (piece, taken) in SECOND_WRITE_FAILS {
        has_a_front(&rt, alloc, piece, taken)?;
    }
    Ok(())
}

/// A writer that takes at most five bytes at a time.
#[derive(Drop)]
struct TakesLittle<'a> {
    out: &'a mut Vec<u8>,
}

impl io::Write for TakesLittle<'_> {
    fn write(&mut self, buf: &[u8]) -> io::Result<usize> {
        let count = buf.len().min(5);
        match self.out.extend_from_slice(&buf[..count]) {
            Ok(()) => Ok(count),
            Err(_) => Err(io::Error::from(io::ErrorKind::OutOfMemory)),
        }
    }

    fn flush(&mut self) -> io::Result<()> {
        Ok(())
    }
}

#[test]
fn a_writer_that_takes_little_is_given_all(rt: HostRuntime) -> Result<(), Fail> {
    let alloc = rt.alloc();
    let script = script_of(alloc, &STORE_IS_CLAIMED)?;
    let mut out = Vec::new(alloc);
    let mut source = StdSource::new(script.as_slice());
    let mut sink = StdSink::new(TakesLittle { out: &mut out });
    let status = replay(alloc, &mut source, &mut sink);
    same!(rt; status, Status::Done);
    let answers = answers_of(alloc, &STORE_IS_CLAIMED, STORE_IS_CLAIMED.len())?;
    same!(rt; out.as_slice(), answers.as_slice());
    Ok(())
}

#[test]
fn a_run_between_quiet_ends_is_done(rt: HostRuntime) -> Result<(), Fail> {
    let alloc = rt.alloc();
    let script = script_of(alloc, &STORE_IS_CLAIMED)?;
    let mut source = QuietSource::new(script);
    let mut sink = QuietSink::new();
    let status = replay(alloc, &mut source, &mut sink);
    same!(rt; status, Status::Done);
    let answers = answers_of(alloc, &STORE_IS_CLAIMED, STORE_IS_CLAIMED.len())?;
    same!(rt; sink.count(), answers.len() as u64);
    Ok(())
}
