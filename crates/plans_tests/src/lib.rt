//! Tests of plans as a whole: what is answered of files, and runs between ends that fail; and uses
//! of the laws of plans.
#![tactic(auto)]

#[cfg(test)]
mod files;
#[cfg(test)]
mod runs;
pub mod uses;
