//! All that stores reach: the interrupt files, memory, the MSI page tables of VMs, and the G-stage
//! records of virtual harts; and the stores that are in flight.
//!
//! AIA 1.0, IOMMU Support for MSIs to Virtual Machines; the hypervisor extension 1.0.
#![tactic(auto)]

mod accesses;
mod fabric;
mod flights;
mod from_memory;
mod in_flight;
mod making;
mod map;
mod stores;
mod vms;

pub use aia_fabric_values::{At, Flying, Found, Stage};
pub use fabric::Fabric;
