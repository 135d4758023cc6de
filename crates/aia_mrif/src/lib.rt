//! Memory-resident interrupt files: the pending and the enabled set of a guest that no file of a
//! hart holds.
//!
//! AIA 1.0, IOMMU Support for MSIs to Virtual Machines, "Memory-resident interrupt files".
#![tactic(auto)]

mod access;
pub mod laws;
mod slot;
mod view;

pub use aia_file::Stored;
pub use slot::{SlotMut, look};
