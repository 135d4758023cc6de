//! What the hypervisor's core keeps, as a value: the record of each virtual hart and all else; when
//! that stands for a history, what each line and each MSI makes of it, and laws of that.
#![tactic(auto)]

pub mod laws;
mod passed;
mod vcpu;

pub use passed::Passed;
pub use vcpu::{Stay, VcpuRecord};
