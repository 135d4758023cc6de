//! Worked scripts, each line with its answer beside it, as theorems of the model.
#![tactic(auto)]

pub mod rows;
