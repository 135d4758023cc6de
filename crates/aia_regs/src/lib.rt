//! The registers of an interrupt file and of an APLIC domain, the CSR instructions that reach them,
//! and the map of addresses.
#![tactic(auto)]

mod access;
pub mod address_map;
mod byte_order;
mod domain_registers;
mod fields;
mod file_registers;
pub mod laws;
pub mod limits;
mod request;

pub use access::{Csr, Level, Op};
pub use byte_order::swap32;
pub use domain_registers::{DomainReg, domain_reg};
pub use fields::{bit, bits, put_bits};
pub use file_registers::{FileReg, file_reg};
pub use request::requested;
