//! The texts of plan files: what line a text spells, which plans lines make, and what is answered;
//! and what the program `plans` does: the words of the command line, the ends, the exit status.
//! Profile.
#![tactic(auto)]

mod answer;
mod command_line;
mod draft;
mod judging;
pub mod laws;
pub mod limits;
mod line;
mod outcome;
mod parse;
mod plan_file;
mod plan_reader;
mod program;
mod shown;
mod starting;
mod untold;
mod words;

// The most bytes of a file of plans.
pub use aia_io::limits::SOURCE_BYTES as FILE_BYTES;
pub use command_line::PlansSubcommand;
pub use line::{PlanLine, Reading};
pub use outcome::{Answered, FileOutcome};
pub use parse::parse_line;
pub use plan_file::answers;
pub use plan_reader::PlanFileReader;
pub use program::{PlansStatus, run};
pub use starting::{command, start};
