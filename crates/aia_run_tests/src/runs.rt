//! Whole runs between fakes that do not fail.

ghost use Rattle.std.specs.Prelude.{◌<◌};

use crate::same;
use aia_io::{MemSink, MemSource, Sink, Source};
use aia_replay::{Status, run};
use std::alloc::{AllocError, Global};
use std::process::Abort;
use std::test::Fail;

/// More bytes than any script here prints.
pub(crate) const ROOM: usize = 16_384;

/// The most bytes that a script has, and a plan.
pub(crate) const LIMIT: usize = 16_777_216;

/// Replays what the source gives. It has no clause, so that a test knows nothing of the run.
pub(crate) fn replay<S: Source, K: Sink>(alloc: Global, source: &mut S, sink: &mut K) -> Status {
    run(alloc, &["replay"], source, sink)
}

/// Replays a script that comes in pieces, and looks at what is printed.
pub(crate) fn replays(
    rt: &impl Abort,
    alloc: Global,
    name: &str,
    script: &[u8],
    piece: usize,
    answers: &[u8],
) -> Result<(), AllocError>
    requires { 0 < piece }
{
    let script = Vec::from_slice(alloc, script)?;
    let mut source = MemSource::new(script, piece, Vec::new(alloc));
    let mut sink = MemSink::new(alloc, ROOM, Vec::new(alloc))?;
    let status = replay(alloc, &mut source, &mut sink);
    same!(rt; status, Status::Done; (name, piece));
    same!(rt; sink.bytes(), answers; (name, piece));
    Ok(())
}

#[test]
fn lines_end_at_a_line_feed_or_with_the_script(rt: HostRuntime) -> Result<(), Fail> {
    let alloc = rt.alloc();
    let scripts = [
        ("st 0 0", "nomachine\n"),
        ("st 0 0\nst", "nomachine\nbad\n"),
        ("\n\nst 0 0\n\n", "nomachine\n"),
        (
            "machine 1 0 63 1\nh 0 csrr stopei",
            "ok\n0x0000000000000000\n",
        ),
        ("# st 0 0", ""),
        ("st 0 0\r\n", "bad\n"),
    ];
    for (script, answers) in scripts {
        replays(&rt, alloc, script, script.as_bytes(), 3, answers.as_bytes())?;
    }
    replays(&rt, alloc, "a comment", &[b'#'; 128], 100, b"")?;
    replays(&rt, alloc, "too long", &[b'#'; 129], 100, b"bad\n")?;
    let mut long = vec![in alloc; b'#'; 5000]?;
    long.extend_from_slice(b"\nst 0 0\n")?;
    replays(&rt, alloc, "too long", &long, 4096, b"bad\nnomachine\n")?;
    Ok(())
}

#[test]
fn more_answers_come_out_than_are_kept_at_a_time(rt: HostRuntime) -> Result<(), Fail> {
    let alloc = rt.alloc();
    let mut script = Vec::from_slice(alloc, b"machine 1 0 63 1\n")?;
    let mut answers = Vec::from_slice(alloc, b"ok\n")?;
    for _ in 0..400u32 {
        script.extend_from_slice(b"h 0 csrr stopei\n")?;
        answers.extend_from_slice(b"0x0000000000000000\n")?;
    }
    replays(&rt, alloc, "many answers", &script, 4096, &answers)?;
    Ok(())
}

/// A script of so many bytes: a store before any machine, and then one long line.
fn store_and_long_line(alloc: Global, bytes: usize) -> Result<Vec<u8>, AllocError> {
    let mut script = Vec::from_slice(alloc, b"st 0 0\n")?;
    script.resize(bytes, b'#')?;
    Ok(script)
}

/// Replays a script in one piece, and looks at how the run ends and at what is printed.
fn ends(
    rt: &impl Abort,
    alloc: Global,
    script: Vec<u8>,
    status: Status,
    answers: &str,
) -> Result<(), AllocError> {
    let mut source = MemSource::new(script, LIMIT, Vec::new(alloc));
    let mut sink = MemSink::new(alloc, ROOM, Vec::new(alloc))?;
    same!(rt; replay(alloc, &mut source, &mut sink), status);
    same!(rt; sink.bytes(), answers.as_bytes());
    Ok(())
}

#[test]
fn a_script_has_at_most_so_many_bytes(rt: HostRuntime) -> Result<(), Fail> {
    let alloc = rt.alloc();
    let script = store_and_long_line(alloc, LIMIT)?;
    ends(&rt, alloc, script, Status::Done, "nomachine\nbad\n")?;
    let script = store_and_long_line(alloc, LIMIT + 1)?;
    ends(&rt, alloc, script, Status::TooLong, "nomachine\n")?;
    Ok(())
}

/// A script of so many bytes: empty lines, and then one long line.
fn empty_lines_and_long_line(alloc: Global, bytes: usize) -> Result<Vec<u8>, AllocError> {
    let mut script = vec![in alloc; b'\n'; 100_000]?;
    script.resize(bytes, b'#')?;
    Ok(script)
}

#[test]
fn empty_lines_print_nothing_and_count_as_bytes(rt: HostRuntime) -> Result<(), Fail> {
    let alloc = rt.alloc();
    let script = empty_lines_and_long_line(alloc, LIMIT)?;
    ends(&rt, alloc, script, Status::Done, "bad\n")?;
    let script = empty_lines_and_long_line(alloc, LIMIT + 1)?;
    ends(&rt, alloc, script, Status::TooLong, "")?;
    Ok(())
}
