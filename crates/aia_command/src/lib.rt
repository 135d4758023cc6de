//! The words of the command line, and what they ask for.
#![tactic(auto)]

mod command;
mod kind_word;
pub mod laws;
mod limits;
mod subcommand;
mod words;

pub use limits::MOST_LINES;
pub use subcommand::Subcommand;
pub use words::read_words;
