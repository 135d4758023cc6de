//! A move under way, as a value: who is moved, where that one stands, and what is carried; what
//! each access of a plan makes of the world and of the move; what the places of a virtual hart show
//! of the world, and lemmas on all that.
#![tactic(auto)]

pub mod laws;
mod turn;
mod who;

pub use turn::{Closed, Next, Outcome, Turn};
pub use who::{KeptNumbers, Pass, Who};
