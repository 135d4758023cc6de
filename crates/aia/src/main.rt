//! `aia replay` reads a script from standard input and prints the answers of its lines; `aia gen
//! COUNT SEED` runs a generated script and prints its summary; `aia audit KIND W` reads a plan of a
//! move from standard input, one step a line, and prints the verdict on it.
#![tactic(auto)]

use aia_replay::start;
use std::process::ExitCode;

fn main(rt: HostRuntime) -> ExitCode {
    start(&rt)
}
