//! Worked rows as scripts, and the answers of their lines.

use std::alloc::{AllocError, Global};

/// Lines, each with its answer.
pub(crate) type Pairs = &'static [(&'static str, &'static str)];

/// Gives the script of a row: its lines, each with an LF.
pub(crate) fn script_of(alloc: Global, row: Pairs) -> Result<Vec<u8>, AllocError> {
    let mut script = Vec::new(alloc);
    for (line, _) in row {
        script.extend_from_slice(line.as_bytes())?;
        script.push(b'\n')?;
    }
    Ok(script)
}

/// Gives the answers of the first lines of a row, so many of them, each with an LF.
pub(crate) fn answers_of(alloc: Global, row: Pairs, lines: usize) -> Result<Vec<u8>, AllocError> {
    let mut answers = Vec::new(alloc);
    let mut left = lines;
    for (_, answer) in row {
        if left == 0 {
            break;
        }
        left -= 1;
        answers.extend_from_slice(answer.as_bytes())?;
        answers.push(b'\n')?;
    }
    Ok(answers)
}

/// Gives how many whole lines the first bytes of a script have.
pub(crate) fn lines_in(script: &[u8], bytes: usize) -> usize {
    let first = script.iter().take(bytes);
    first.filter(|byte| **byte == b'\n').count()
}
