//! Isolation: what a virtual hart is and reads is a function only of what was said to it, which an
//! image carries to another one; a VM is answered as if it were alone, and it reaches the host by
//! nothing but its notices. Each function does nothing, and its clauses are what was proved.
#![tactic(auto)]

pub mod guests;
pub mod hosts;
pub mod images;
pub mod instances;
pub mod scripts;
