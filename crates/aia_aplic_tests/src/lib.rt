//! The tests of the parts of the APLIC: each public call of a crate about wired sources, with ample
//! memory.
#![tactic(auto)]

#[cfg(test)]
mod addresses;
#[cfg(test)]
mod aplic;
#[cfg(test)]
mod delivery_controls;
#[cfg(test)]
mod domains;
#[cfg(test)]
mod looks;
#[cfg(test)]
mod sources;
#[cfg(test)]
mod waiting;
