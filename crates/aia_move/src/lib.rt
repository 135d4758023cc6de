//! The plans of moves, one access or one aim a step: a virtual hart leaves its guest file, arrives
//! in one, or shifts to another one. Profile: all plans.
#![tactic(auto)]

mod direction;
mod hand;
pub mod laws;
mod moves;
pub mod phase;
mod plan;
pub mod rests;
mod targets;
pub mod ways;

pub use aia_move_values::{Closed, KeptNumbers, Next, Outcome, Pass, Turn, Who};
pub use aia_vcpu::Access;
pub use direction::{Arrive, Leave, Shift, spot};
pub use hand::Hand;
pub use plan::{Plan, State};
pub use targets::Targets;
