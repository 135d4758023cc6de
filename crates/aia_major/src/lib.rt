//! The major interrupts of a virtual hart: `hvip`, `hviprio1` and `hvictl` as the hypervisor
//! writes them, and `sip`, `sie` and `stopi` as the guest reads them.
//!
//! AIA 1.0, Interrupts for Virtual Machines (VS Level).
#![tactic(auto)]

mod candidate;
mod first;
mod kept;
pub mod laws;
mod majors;
mod range;
mod vs_major;

pub use range::Range;
pub use vs_major::{VsMajor, fits_hvictl, fits_hvip, fits_hviprio};
