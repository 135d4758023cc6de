//! The script that is generated from two numbers, and the summary of its run.
#![tactic(auto)]

mod body;
mod head;
pub mod laws;
pub mod limits;
mod lines;
mod print;
mod tally;

pub use body::lcg;
pub use lines::{GeneratedLines, generate, generated_lines};
pub use print::summary;
pub use tally::Tally;
