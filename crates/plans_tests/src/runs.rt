//! Runs between ends that fail, or take little at a time.

use aia_io::{MemSink, MemSource};
use plans_text::{FileOutcome, PlansStatus, run};
use std::alloc::{AllocError, Global};
use std::test::Fail;

/// A file of two plans, and what is answered of it.
const FILE: &[u8] = b"words 1\nplan\nnonsense\n";

const ANSWERS: &[u8] = b"refused routes in the end\n  run: identity 1 is pending in the old place \
at the start; in the end it is in the old place, since nothing takes its word\nbad line 3\n";

/// Which calls of a source and of a sink fail, counted from 1; 0 is none.
#[derive(Clone, Copy)]
struct Failing {
    read: u64,
    write: u64,
}

/// How a run ended, and how much was written of the answers, which are written from their begin.
#[derive(Clone, Copy)]
struct Ended {
    status: PlansStatus,
    written: usize,
    is_front: bool,
}

/// Copies bytes. `Err`: there is no memory for them.
fn copied(alloc: Global, bytes: &[u8]) -> Result<Vec<u8>, AllocError> {
    let mut copy = Vec::new(alloc);
    copy.extend_from_slice(bytes)?;
    Ok(copy)
}

/// What is answered of its first plan.
const FIRST: &[u8] =
    b"refused routes in the end\n  run: identity 1 is pending in the old place at the \
start; in the end it is in the old place, since nothing takes its word\n";

/// Judges the file, in pieces of 5 bytes.
fn judged(alloc: Global, words: &[&str], failing: Failing) -> Result<Ended, AllocError> {
    let reads = vec![in alloc; failing.read]?;
    let writes = vec![in alloc; failing.write]?;
    let mut source = MemSource::new(copied(alloc, FILE)?, 5, reads);
    let mut sink = MemSink::new(alloc, 200, writes)?;
    let status = run(alloc, words, &mut source, &mut sink);
    let written = sink.bytes();
    Ok(Ended {
        status,
        written: written.len(),
        is_front: ANSWERS.starts_with(written),
    })
}

#[test]
fn a_file_is_answered_whole(rt: HostRuntime) -> Result<(), Fail> {
    let ended = judged(rt.alloc(), &["judge"], Failing { read: 0, write: 0 })?;
    assert!(rt; ended.status == PlansStatus::Done(FileOutcome::BadLine));
    assert!(rt; ended.is_front && ended.written == ANSWERS.len());
    Ok(())
}

#[test]
fn a_source_that_fails_before_a_plan_ends_leaves_nothing_written(
    rt: HostRuntime,
) -> Result<(), Fail> {
    let ended = judged(rt.alloc(), &["judge"], Failing { read: 3, write: 0 })?;
    assert!(rt; ended.status == PlansStatus::ReadFault);
    assert!(rt; ended.written == 0);
    Ok(())
}

#[test]
fn one_that_fails_after_that_leaves_its_answer(rt: HostRuntime) -> Result<(), Fail> {
    let ended = judged(rt.alloc(), &["judge"], Failing { read: 4, write: 0 })?;
    assert!(rt; ended.status == PlansStatus::ReadFault);
    assert!(rt; ended.is_front && ended.written == FIRST.len());
    Ok(())
}

/// One that read on before it wrote would end by the source's failure.
#[test]
fn a_plan_is_answered_before_the_next_read(rt: HostRuntime) -> Result<(), Fail> {
    let ended = judged(rt.alloc(), &["judge"], Failing { read: 4, write: 1 })?;
    assert!(rt; ended.status == PlansStatus::WriteFault);
    Ok(())
}

#[test]
fn a_sink_that_fails_is_told(rt: HostRuntime) -> Result<(), Fail> {
    let ended = judged(rt.alloc(), &["judge"], Failing { read: 0, write: 1 })?;
    assert!(rt; ended.status == PlansStatus::WriteFault);
    assert!(rt; ended.is_front);
    Ok(())
}

#[test]
fn other_words_are_refused(rt: HostRuntime) -> Result<(), Fail> {
    let refused: [&[&str]; 4] = [&[], &["judge", "judge"], &["--help"], &["replay"]];
    for words in refused {
        let ended = judged(rt.alloc(), words, Failing { read: 1, write: 1 })?;
        assert!(rt; ended.status == PlansStatus::Usage);
        assert!(rt; ended.written == 0);
    }
    Ok(())
}
