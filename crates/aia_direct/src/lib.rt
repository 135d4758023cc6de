//! Direct delivery: of each hart in a domain of an APLIC, what is on top for it, and whether it is
//! signalled.
#![tactic(auto)]

mod front;
mod idc;
pub mod laws;
mod view;

pub use front::{Front, front_search};
pub use idc::{Idc, claimi, signal, topi, topi_counted};
