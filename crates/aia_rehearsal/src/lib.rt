//! Plans of moves are rehearsed: the steps of a plan that was judged are made as accesses of the
//! machine, one after another, on two places of which no core keeps a record. Profile.
#![tactic(auto)]

pub mod laws;
mod place;
mod rehearsal;

pub use aia_plan::Step;
pub use place::Place;
pub use rehearsal::Rehearsal;
