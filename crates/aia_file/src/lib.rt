//! One interrupt file: two sets of identities, a threshold and a delivery switch. And, as values,
//! all files of a machine with the map of their addresses, and those that slots of memory keep.
#![tactic(auto)]

mod file;
pub mod laws;
mod looks;
mod spot;
mod stored;
mod summary;
mod view;

pub use file::File;
pub use looks::{Looks, search};
pub use spot::Spot;
pub use stored::Stored;
