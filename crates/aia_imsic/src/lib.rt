//! All interrupt files of all harts, and which of them an address reaches.
#![tactic(auto)]

mod imsic;
pub mod laws;

pub use aia_file::Spot;
pub use imsic::Imsic;
