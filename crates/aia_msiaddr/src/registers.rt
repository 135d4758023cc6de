ghost use Rattle.std.specs.Prelude.{◌≡◌, ◌^◌, ◌<◌};
ghost use Rattle.aia_msiaddr.specs.Registers.{new_addresses, are_locked, address_put, address_written, address_read};
ghost use Rattle.aia_msiaddr.specs.Addresses.{machine_address, supervisor_address};

use crate::addresses::{machine_address, supervisor_address};
use aia_regs::{DomainReg, bit};
use std::marker::Model;

/// What a write of `mmsiaddrcfgh` keeps: L, HHXS, LHXS, HHXW, LHXW and the high half of the base
/// page number.
pub const MMSIADDRCFGH: u32 = 0x9f77_ffff;

/// What a write of `smsiaddrcfgh` keeps: LHXS and the high half of the base page number.
pub const SMSIADDRCFGH: u32 = 0x0070_0fff;

/// The bit of `mmsiaddrcfgh` that is L: whether all four registers are locked.
pub const L: u32 = 31;

/// The registers of MSI addresses: `mmsiaddrcfg`, `mmsiaddrcfgh`, `smsiaddrcfg` and `smsiaddrcfgh`.
///
/// AIA 1.0, APLIC, "Memory-mapped control region for an interrupt domain".
#[derive(Debug, Drop)]
pub struct Addresses {
    mmsiaddrcfg: u32,
    mmsiaddrcfgh: u32,
    smsiaddrcfg: u32,
    smsiaddrcfgh: u32,
}

impl Model for Addresses {
    ghost use Rattle.aia_msiaddr.specs.Registers.{AddressRegisters};

    ghost Value = { AddressRegisters };

    ghost view = { λ a. record {
      mmsiaddrcfg = a.mmsiaddrcfg;
      mmsiaddrcfgh = a.mmsiaddrcfgh;
      smsiaddrcfg = a.smsiaddrcfg;
      smsiaddrcfgh = a.smsiaddrcfgh;
    } };
}

impl Addresses {
    /// Makes the registers of a machine as it begins: all four are 0.
    pub fn new() -> Addresses
        ensures { result ≡ new_addresses }
    {
        Addresses {
            mmsiaddrcfg: 0,
            mmsiaddrcfgh: 0,
            smsiaddrcfg: 0,
            smsiaddrcfgh: 0,
        }
    }

    /// Reads one of them; `None` exactly for every other register.
    #[inline(always)]
    pub fn load(&self, reg: DomainReg) -> Option<u32>
        ensures { result ≡ address_read self.now reg }
    {
        match reg {
            DomainReg::MMsiAddrCfg => Some(self.mmsiaddrcfg),
            DomainReg::MMsiAddrCfgH => Some(self.mmsiaddrcfgh),
            DomainReg::SMsiAddrCfg => Some(self.smsiaddrcfg),
            DomainReg::SMsiAddrCfgH => Some(self.smsiaddrcfgh),
            _ => None,
        }
    }

    /// Writes one of them, where they are not locked; every other register is nothing here.
    pub fn store(&mut self, reg: DomainReg, value: u32)
        ensures { self.new ≡ address_written reg value self.old }
    {
        if self.is_locked() {
            return;
        }
        match reg {
            DomainReg::MMsiAddrCfg => self.mmsiaddrcfg = value,
            DomainReg::MMsiAddrCfgH => self.mmsiaddrcfgh = value & MMSIADDRCFGH,
            DomainReg::SMsiAddrCfg => self.smsiaddrcfg = value,
            DomainReg::SMsiAddrCfgH => self.smsiaddrcfgh = value & SMSIADDRCFGH,
            _ => {}
        }
    }

    fn is_locked(&self) -> bool
        ensures { result ≡ are_locked self.now }
    {
        bit(u64::from(self.mmsiaddrcfgh), L)
    }

    /// Gives what `mmsiaddrcfgh` keeps.
    pub fn mmsiaddrcfgh(&self) -> u32
        ensures { result ≡ self.now.mmsiaddrcfgh }
    {
        self.mmsiaddrcfgh
    }

    /// Gives what `smsiaddrcfg` keeps.
    pub fn smsiaddrcfg(&self) -> u32
        ensures { result ≡ self.now.smsiaddrcfg }
    {
        self.smsiaddrcfg
    }

    /// Gives what `smsiaddrcfgh` keeps.
    pub fn smsiaddrcfgh(&self) -> u32
        ensures { result ≡ self.now.smsiaddrcfgh }
    {
        self.smsiaddrcfgh
    }

    /// Gives the address of an MSI to a hart at machine level; the hart's index is below 16,384.
    pub fn machine_address(&self, hart: u32) -> u64
        requires { hart < 2 ^ 14 }
        ensures { result ≡ machine_address self.now.mmsiaddrcfg self.now.mmsiaddrcfgh hart }
    {
        machine_address(self.mmsiaddrcfg, self.mmsiaddrcfgh, hart)
    }

    /// Gives the address of an MSI to a hart at supervisor level, or to a guest of it; the hart's
    /// index is below 16,384, the guest's below 64, and 0 for the hart itself.
    pub fn supervisor_address(&self, hart: u32, guest: u32) -> u64
        requires hart { hart < 2 ^ 14 }
        requires guest { guest < 64 }
        ensures { result ≡ supervisor_address self.now.mmsiaddrcfgh self.now.smsiaddrcfg
            self.now.smsiaddrcfgh hart guest }
    {
        supervisor_address(
            self.mmsiaddrcfgh,
            self.smsiaddrcfg,
            self.smsiaddrcfgh,
            hart,
            guest,
        )
    }
}
