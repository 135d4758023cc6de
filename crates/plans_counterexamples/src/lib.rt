//! Runs of a plan that lose something, or leave the host untold: which bit or number, where it
//! stands at the start, and which store comes between which steps. Profile.
#![tactic(auto)]

pub mod laws;
mod limits;
mod run;
mod search;
mod trace;
mod untold;
mod untold_search;
mod watch;

pub use limits::{SMALL_PRODUCERS, SMALL_STEPS, SMALL_WORDS};
pub use run::{Extra, Fate, Run};
pub use search::{Losing, losing_run};
pub use trace::{Begin, Case, StoreRoute};
pub use untold::{Store, UntoldRun};
pub use untold_search::untold_run;
