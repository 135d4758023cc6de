//! The world that stores reach, as values: the interrupt files, memory, the MSI page tables of VMs,
//! the stores in flight and the G-stage records of virtual harts; what each access makes of it, and
//! laws of that.
#![tactic(auto)]

mod at;
mod flying;
mod found;
pub mod laws;
mod stage;

pub use at::At;
pub use flying::Flying;
pub use found::Found;
pub use stage::Stage;
