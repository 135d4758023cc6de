//! The guest files of all harts, handed out and taken back.
//!
//! AIA 1.0, IMSIC. Profile: which file a virtual hart gets.
#![tactic(auto)]

pub mod laws;
mod lease;
mod pool;

pub use lease::FileLease;
pub use pool::Pool;
