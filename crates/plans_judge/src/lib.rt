//! A plan by which a hypervisor moves a virtual hart's interrupt file is judged: whether it is
//! safe, and whether it tells its host, whatever its producers store between its steps. Profile.
#![tactic(auto)]

mod judging;
pub mod laws;
mod lead;
mod spots;
mod standing;
mod table;
mod verdict;
mod word;

pub use judging::judge;
pub use plans_rules::{AnyPlace, AnyStep, Number, NumberSpot, RouteKind, Rule, Terms, WhichSet};
pub use verdict::Judgement;
