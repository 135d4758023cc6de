//! Sets of interrupt identities kept as words of 64 bits: identity `i` is bit `i % 64` of word
//! `i / 64`.
//!
//! The words are the registers `eip` and `eie` of an interrupt file. AIA 1.0, IMSIC, "Indirectly
//! accessed interrupt-file registers".
#![tactic(auto)]

mod bank;
mod bits;
pub mod laws;
mod packed;
pub mod sets;
mod steps;
mod summary;

pub use bank::Bank;
pub use bits::least_one;
pub use packed::{deposit, extract};
pub use steps::Steps;
pub use summary::refreshed;
