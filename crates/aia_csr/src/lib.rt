//! Which register an access to a CSR reaches, or which exception it raises.
#![tactic(auto)]

mod csr_access;

pub use aia_regs::Level;
pub use csr_access::{CsrAccess, decide};
