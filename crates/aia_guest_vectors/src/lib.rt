//! Worked scripts of VMs and guests, each line with its answer beside it, as theorems of the model.
#![tactic(auto)]

pub mod aimed;
pub mod rows;
