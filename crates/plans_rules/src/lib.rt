//! Plans by which a hypervisor moves a virtual hart's interrupt file, in any order of accesses and
//! with any producers: the machine on which a plan is tried, when it is safe, the rules that decide
//! it, and that they do. Profile.
#![tactic(auto)]

pub mod laws;
mod rule;
mod setting;
mod step;

pub use rule::Rule;
pub use setting::{NumberSpot, RouteKind, Terms};
pub use step::{AnyPlace, AnyStep, Number, WhichSet};
