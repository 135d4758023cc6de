//! The words of the command line.

use crate::same;
use aia_command::{Subcommand, read_words};
use std::test::Fail;

#[test]
fn words_ask_for_a_subcommand(rt: HostRuntime) -> Result<(), Fail> {
    let alloc = rt.alloc();
    let most = Subcommand::Generate {
        count: 100_000,
        seed: u64::MAX,
    };
    let few = Subcommand::Generate { count: 5, seed: 7 };
    same!(rt; read_words(alloc, &["replay"])?, Some(Subcommand::Replay));
    same!(rt; read_words(alloc, &["gen", "100000", "18446744073709551615"])?, Some(most));
    same!(rt; read_words(alloc, &["gen", "+5", "007"])?, Some(few));
    Ok(())
}

#[test]
fn other_words_are_refused(rt: HostRuntime) -> Result<(), Fail> {
    let refused: [&[&str]; 6] = [
        &[],
        &["--help"],
        &["replay", "x"],
        &["gen", "100001", "0"],
        &["gen", "1"],
        &["gen", "-1", "1"],
    ];
    for words in refused {
        same!(rt; read_words(rt.alloc(), words)?, None; words);
    }
    Ok(())
}
