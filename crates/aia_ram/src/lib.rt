//! Memory: a row of 64-bit words, kept as bytes.
#![tactic(auto)]

pub mod laws;
mod ram;

pub use ram::Ram;
