//! Each front of a script, cut after any of its bytes.

use crate::outcomes::answers_with;
use crate::rows::{Pairs, answers_of, lines_in, script_of};
use aia_guest_vectors::rows::stepwise_moves::REQUEST_AGAIN_WHILE_IT_IS_CARRIED;
use std::alloc::{AllocError, Global};
use std::process::Abort;
use std::test::Fail;

/// Tells whether a front of a line of the row, not an empty one, still spells a line: where its
/// last word is begun, and is not the `0x` of a number without digits. Each line of the row ends
/// with a number, whose value its answer does not depend on.
fn spells_a_line(line: &[u8], cut: &[u8]) -> bool {
    let words = line.iter().filter(|byte| **byte == b' ').count();
    let spaces = cut.iter().filter(|byte| **byte == b' ').count();
    words == spaces && !cut.ends_with(b" ") && !cut.ends_with(b"x")
}

/// Puts the answer of what is left after so many whole lines, where something is left.
fn push_cut_answer(
    answers: &mut Vec<u8>,
    row: Pairs,
    lines: usize,
    cut: &[u8],
) -> Result<(), AllocError> {
    let (false, Some((line, answer))) = (cut.is_empty(), row.get(lines)) else {
        return Ok(());
    };
    let is_line = spells_a_line(line.as_bytes(), cut);
    answers.extend_from_slice(if is_line { answer.as_bytes() } else { b"bad" })?;
    answers.push(b'\n')?;
    Ok(())
}

/// Gives what comes after the last LF.
fn rest_of(script: &[u8]) -> &[u8] {
    script.split(|byte| *byte == b'\n').last().unwrap_or(script)
}

/// Replays a front of a row, and the same with an LF after it.
fn answers_a_front(
    rt: &impl Abort,
    alloc: Global,
    row: Pairs,
    front: &[u8],
    piece: usize,
) -> Result<(), AllocError> {
    let lines = lines_in(front, front.len());
    let mut answers = answers_of(alloc, row, lines)?;
    push_cut_answer(&mut answers, row, lines, rest_of(front))?;
    answers_with(rt, alloc, front, piece, &answers, front.len())?;
    let mut ended = Vec::from_slice(alloc, front)?;
    ended.push(b'\n')?;
    answers_with(rt, alloc, &ended, piece, &answers, front.len())
}

/// Cuts a row after each of its bytes.
fn answers_each_front(
    rt: &impl Abort,
    alloc: Global,
    row: Pairs,
    piece: usize,
) -> Result<(), AllocError> {
    let script = script_of(alloc, row)?;
    for bytes in 0..=script.len() {
        let front = script.get(..bytes).unwrap_or(&[]);
        answers_a_front(rt, alloc, row, front, piece)?;
    }
    Ok(())
}

#[test]
fn each_front_of_a_script_is_answered(rt: HostRuntime) -> Result<(), Fail> {
    for piece in [1, 7, 4096] {
        answers_each_front(&rt, rt.alloc(), &REQUEST_AGAIN_WHILE_IT_IS_CARRIED, piece)?;
    }
    Ok(())
}
