//! Plans of moves, as a hypervisor's author writes them down: a list of single steps, each of which
//! is one access of the hypervisor. What a plan has to keep, and when it loses no interrupt,
//! whatever devices and other virtual harts store between its steps. Profile.
#![tactic(auto)]

pub mod laws;
mod step;

pub use step::{Kind, Step};
