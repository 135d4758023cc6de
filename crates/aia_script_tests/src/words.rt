//! Command lines, and what the program makes of them.

use crate::replays::Tally;
use aia_io::{MemSink, MemSource};
use aia_replay::command;
use std::io;
use std::process::ExitCode;

/// More bytes than any command here prints.
const ROOM: usize = 1024;

/// Runs the command of each line, and looks at the status that it ends with and at what it prints.
/// A line is `WORDS => STATUS TEXT`, or empty or a comment after `#`: the words are apart by
/// spaces, and in the text, which may be left out with its space, a `;` stands for each LF.
pub(crate) fn run_commands(rt: &HostRuntime, text: &str) -> io::Result<Tally> {
    let mut tally = Tally::new();
    for line in text.lines() {
        if !line.is_empty() && !line.starts_with('#') {
            let is_right = ends_so(rt, line)?;
            if !is_right {
                println!(rt; "the words of `{line}` come to something else")?;
            }
            tally.count(is_right);
        }
    }
    Ok(tally)
}

/// Runs the command of a line beside a source that fails when it is asked, and tells whether it
/// ends and prints so, and asked for nothing.
fn ends_so(rt: &HostRuntime, line: &str) -> io::Result<bool> {
    let Some((words, end)) = line.split_once(" => ") else {
        return Ok(false);
    };
    let (status, text) = end.split_once(' ').unwrap_or((end, ""));
    let Ok(status) = status.parse::<u8>() else {
        return Ok(false);
    };
    let alloc = rt.alloc();
    let mut source = MemSource::new(Vec::new(alloc), 1, vec![in alloc; 1]?);
    let mut sink = MemSink::new(alloc, ROOM, Vec::new(alloc))?;
    let ended = command(alloc, arguments_of(rt, words), &mut source, &mut sink);
    let printed = text.replace(alloc, ";", "\n")?;
    Ok(
        ended == ExitCode::from(status)
            && source.faults() == 0
            && sink.bytes() == printed.as_bytes(),
    )
}

/// Gives the words of a command line, apart by spaces, after the program's name.
fn arguments_of(rt: &HostRuntime, words: &str) -> io::Result<Vec<String>> {
    let mut arguments = Vec::new(rt.alloc());
    arguments.push(String::from_str(rt.alloc(), "aia")?)?;
    for word in words.split(' ').filter(|word| !word.is_empty()) {
        arguments.push(String::from_str(rt.alloc(), word)?)?;
    }
    Ok(arguments)
}
