//! `plans judge` reads a file of plans from standard input, one access a line, and prints for each
//! plan whether it is safe and tells its host, or which rule it breaks, and where.
#![tactic(auto)]

use plans_text::start;
use std::process::ExitCode;

fn main(rt: HostRuntime) -> ExitCode {
    start(&rt)
}
