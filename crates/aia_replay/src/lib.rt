//! The engine that answers lines, and the runs: from a source's bytes to a sink's, and of a
//! generated script to its summary; and what the program `aia` does with its words.
#![tactic(auto)]

mod buffered;
mod engine;
mod generator;
pub mod laws;
mod limits;
mod machine;
mod pieces;
mod plan_reader;
mod plan_so_far;
mod program;
mod replayer;
mod starting;
mod stop;
mod wires;

// What `gen` runs, for callers that run it line by line through an engine of their own.
pub use aia_generate::{generate, lcg};
// The most bytes of a script or a plan.
pub use aia_io::limits::SOURCE_BYTES as SCRIPT_BYTES;
pub use engine::Engine;
pub use program::{Status, run};
pub use starting::{command, start};
