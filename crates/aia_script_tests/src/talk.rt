//! A script that is built together with the answers that it has to have.

use std::alloc::{AllocError, Global};

/// Lines, each with its answer.
#[derive(Drop)]
pub(crate) struct Talk {
    pub script: Vec<u8>,
    pub answers: Vec<u8>,
}

impl Talk {
    /// Makes one without lines.
    pub(crate) fn new(alloc: Global) -> Talk {
        Talk {
            script: Vec::new(alloc),
            answers: Vec::new(alloc),
        }
    }

    /// Puts a line and its answer at the end. In the line `\t`, `\r`, `\0` and `\s` are a TAB, a
    /// CR, a NUL and a space; an answer that begins with `x` has 16 digits, of which the first
    /// ones are left out where they are 0.
    pub(crate) fn say(&mut self, line: &str, answer: &str) -> Result<(), AllocError> {
        push_line(&mut self.script, line)?;
        push_answer(&mut self.answers, answer)
    }
}

/// Puts a line at the end.
fn push_line(script: &mut Vec<u8>, line: &str) -> Result<(), AllocError> {
    let mut parts = line.split('\\');
    script.extend_from_slice(parts.next().unwrap_or("").as_bytes())?;
    for part in parts {
        let (byte, rest) = match part.as_bytes() {
            [b't', rest @ ..] => (b'\t', rest),
            [b'r', rest @ ..] => (b'\r', rest),
            [b'0', rest @ ..] => (b'\0', rest),
            [b's', rest @ ..] => (b' ', rest),
            rest => (b'\\', rest),
        };
        script.push(byte)?;
        script.extend_from_slice(rest)?;
    }
    script.push(b'\n')?;
    Ok(())
}

/// Puts an answer at the end.
fn push_answer(answers: &mut Vec<u8>, answer: &str) -> Result<(), AllocError> {
    let digits = answer.strip_prefix('x');
    if let Some(digits) = digits {
        answers.extend_from_slice(b"0x")?;
        for _ in digits.len()..16 {
            answers.push(b'0')?;
        }
    }
    answers.extend_from_slice(digits.unwrap_or(answer).as_bytes())?;
    answers.push(b'\n')?;
    Ok(())
}
