//! The MSI page tables of an IOMMU: what the two words of an entry say, which interrupt file of a
//! VM an address names, and which entries are in force.
//!
//! AIA 1.0, IOMMU Support for MSIs to Virtual Machines, "MSI page tables".
#![tactic(auto)]

mod entry;
mod format;
mod iommu;
pub mod laws;
mod table;

pub use entry::Entry;
pub use format::{basic, decode, mrif};
pub use iommu::Iommu;
pub use table::{Route, is_mask};
