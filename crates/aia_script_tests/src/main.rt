//! Replays all scripts of its folder in pieces of several lengths, and says of each group how many
//! are answered as they have to be: those of `examples` and of `suite`, each beside its answers,
//! and those that the tables of `moves` spell out. Of one that is not it says where. Then it runs
//! the command lines of `words`; and where all was as it has to be, it does at last what the
//! program `aia` does with the words that it was itself given.
#![tactic(auto)]

mod folder;
mod moves;
mod replays;
mod table;
mod talk;
mod words;

use crate::folder::replay_folder;
use crate::replays::Tally;
use crate::table::replay_table;
use crate::words::run_commands;
use aia_replay::start;
use std::process::ExitCode;
use std::{fs, io};

/// The folders of scripts, each beside its answers.
const FOLDERS: [&str; 2] = ["examples", "suite"];

/// The tables of moves.
const TABLES: [&str; 3] = [
    "moves/lines-between-steps",
    "moves/stores-between-steps",
    "moves/refused-lines-between-steps",
];

/// The command lines.
const WORDS: &str = "words";

fn main(rt: HostRuntime) -> io::Result<ExitCode> {
    let mut all = Tally::new();
    for folder in FOLDERS {
        let tally = replay_folder(&rt, folder)?;
        tally.tell(&rt, folder, "scripts")?;
        all.add(tally);
    }
    for table in TABLES {
        let text = fs::read_to_string(&rt, table)?;
        let tally = replay_table(&rt, &text)?;
        tally.tell(&rt, table, "scripts")?;
        all.add(tally);
    }
    let text = fs::read_to_string(&rt, WORDS)?;
    let tally = run_commands(&rt, &text)?;
    tally.tell(&rt, WORDS, "command lines")?;
    all.add(tally);
    Ok(if all.is_all_same() {
        start(&rt)
    } else {
        ExitCode::FAILURE
    })
}
