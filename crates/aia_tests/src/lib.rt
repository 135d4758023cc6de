//! The tests of the parts: each public call of a crate below `aia_replay`, with ample memory, but
//! for those of wired sources, which `aia_aplic_tests` calls, and those of texts, which
//! `aia_text_tests` calls.
#![tactic(auto)]

#[cfg(test)]
mod accesses;
#[cfg(test)]
mod fabric;
#[cfg(test)]
mod files;
#[cfg(test)]
mod hypervisor_core;
#[cfg(test)]
mod looks;
#[cfg(test)]
mod majors;
#[cfg(test)]
mod majors_table;
#[cfg(test)]
mod memory;
#[cfg(test)]
mod moves;
#[cfg(test)]
mod passes;
#[cfg(test)]
mod plans;
#[cfg(test)]
mod registers;
#[cfg(test)]
mod sets;
#[cfg(test)]
mod steps_in_place;
#[cfg(test)]
mod stores_in_flight;
#[cfg(test)]
mod tables;
