//! One interrupt domain of an APLIC: its registers, its sources, and what waits in it: for a hart,
//! its candidates in rising order; for MSIs, a set of sources in words of bits.
#![tactic(auto)]

mod by_number;
mod candidates;
mod domain;
mod interrupt_source;
pub mod laws;
mod ready;
mod ready_bits;
mod sources;
mod waiting;

pub use candidates::Candidates;
pub use domain::Domain;
pub use ready::Ready;
pub use ready_bits::ReadyBits;
