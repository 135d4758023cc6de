//! The addresses of the MSIs that an APLIC's domains send, and the registers that give them.
#![tactic(auto)]

mod addresses;
pub mod laws;
mod registers;

pub use addresses::{machine_address, supervisor_address};
pub use registers::Addresses;
