//! The hypervisor's core: all that stores reach, what the host keeps beside it, and what each line
//! and each MSI makes of them.
#![tactic(auto)]

mod flights;
mod forwards;
mod guest;
mod hypervisor_core;
mod images;
mod loadable;
mod majors;
mod memory;
mod moves;
mod passes;
mod peers;
mod signals;
mod slot_words;

pub use aia_model::{Refusal, Want};
pub use hypervisor_core::Core;
