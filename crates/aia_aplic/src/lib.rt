//! The APLIC of a machine: its two interrupt domains, the wired sources that they share, and the
//! MSIs that it sends.
#![tactic(auto)]

mod aplic;
mod bits;
mod controls;
mod guests;
mod sender;
mod side;
mod view;

pub use aia_model::Msi;
pub use aplic::Aplic;
pub use bits::{Bits, bits_search};
