//! Generated scripts: their summaries, and the same lines read as a script. The numbers are those
//! of a model that was written apart.

use crate::runs::{ROOM, replay};
use crate::same;
use aia_generate::generated_lines;
use aia_io::{MemSink, MemSource, Read, Source};
use aia_replay::{Status, run};
use aia_script::print_line;
use arrayvec::ArrayVec;
use std::alloc::{AllocError, Global};
use std::process::Abort;
use std::test::Fail;

/// Runs `gen` with a count and a seed beside a source that has bytes, and looks at what is printed,
/// and that nothing was read.
fn summarizes(
    rt: &impl Abort,
    alloc: Global,
    count: &str,
    seed: &str,
    text: &str,
) -> Result<(), AllocError> {
    let bytes = Vec::from_slice(alloc, b"machine 1 0 63 1\n")?;
    let mut source = MemSource::new(bytes, 64, Vec::new(alloc));
    let mut sink = MemSink::new(alloc, ROOM, Vec::new(alloc))?;
    let status = run(alloc, &["gen", count, seed], &mut source, &mut sink);
    same!(rt; status, Status::Done; (count, seed));
    same!(rt; sink.bytes(), text.as_bytes(); (count, seed));
    let mut left = [0; 64];
    same!(rt; source.read(&mut left), Read::Got(17); (count, seed));
    Ok(())
}

#[test]
fn summaries_of_generated_scripts(rt: HostRuntime) -> Result<(), Fail> {
    let alloc = rt.alloc();
    let summaries = [
        ("0", "7", "lines 31\nclaims 0\nnotices 0\nsum 0\n"),
        ("1", "0", "lines 32\nclaims 0\nnotices 0\nsum 0\n"),
        ("1", "1", "lines 32\nclaims 0\nnotices 0\nsum 0\n"),
        ("200", "1", "lines 231\nclaims 3\nnotices 9\nsum 7\n"),
        ("1000", "7", "lines 1031\nclaims 48\nnotices 92\nsum 274\n"),
        (
            "20000",
            "42",
            "lines 20031\nclaims 947\nnotices 1448\nsum 2641\n",
        ),
        (
            "100000",
            "1",
            "lines 100031\nclaims 4631\nnotices 7845\nsum 12317\n",
        ),
        (
            "100000",
            "1",
            "lines 100031\nclaims 4631\nnotices 7845\nsum 12317\n",
        ),
    ];
    for (count, seed, text) in summaries {
        summarizes(&rt, alloc, count, seed, text)?;
    }
    Ok(())
}

/// The generated lines as a script.
fn script_of(alloc: Global, count: u64, seed: u64) -> Result<Vec<u8>, AllocError> {
    let mut script = Vec::new(alloc);
    for line in generated_lines(count, seed) {
        let mut text = ArrayVec::new();
        print_line(&line, &mut text);
        script.extend_from_slice(text.as_slice())?;
        script.push(b'\n')?;
    }
    Ok(script)
}

/// How many claims a script made, and the sum of the identities claimed, below 256 each, by its
/// lines and their answers.
fn claims_in(script: &[u8], answers: &[u8]) -> (u32, u32) {
    let mut claims: u32 = 0;
    let mut sum: u32 = 0;
    let lines = script.split(|byte| *byte == b'\n');
    let answers = answers.split(|byte| *byte == b'\n');
    for (line, answer) in lines.zip(answers) {
        let high = digit(answer, 16).saturating_mul(16);
        let shown = high.saturating_add(digit(answer, 17));
        if line.ends_with(b"csrrw stopei 0x0") && shown != 0 {
            claims = claims.saturating_add(1);
            sum = sum.saturating_add(shown);
        }
    }
    (claims, sum)
}

/// The hexadecimal digit at a place of an answer, 0 where there is none.
fn digit(answer: &[u8], place: usize) -> u32 {
    match answer.get(place) {
        Some(byte @ b'0'..=b'9') => u32::from(*byte - b'0'),
        Some(byte @ b'a'..=b'f') => u32::from(*byte - b'a' + 10),
        _ => 0,
    }
}

#[test]
fn generated_lines_answer_the_same_as_a_script(rt: HostRuntime) -> Result<(), Fail> {
    let alloc = rt.alloc();
    let script = script_of(alloc, 200, 1)?;
    let mut source = MemSource::new(script.clone()?, 4096, Vec::new(alloc));
    let mut sink = MemSink::new(alloc, ROOM, Vec::new(alloc))?;
    same!(rt; replay(alloc, &mut source, &mut sink), Status::Done);
    let answers = sink.bytes();
    let lines = answers.iter().filter(|byte| **byte == b'\n').count();
    same!(rt; lines, 231);
    same!(rt; claims_in(&script, answers), (3, 7));
    Ok(())
}
