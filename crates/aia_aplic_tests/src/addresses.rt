//! Addresses of MSIs, and the registers that they go by.

use crate::same;
use aia_msiaddr::{Addresses, machine_address, supervisor_address};
use aia_regs::DomainReg;

#[test]
fn addresses_are_those_of_the_harts_pages(rt: HostRuntime) {
    // Machine-level files at consecutive pages: LHXW 2, LHXS 0.
    same!(rt; machine_address(0x24000, 0x2000, 3), 0x2400_3000);
    // Two groups, 2^(HHXS + 12) pages apart: HHXW 1, HHXS 1.
    same!(rt; machine_address(0x24000, 0x0101_1000, 3), 0x2600_1000);
    // The high half of the base.
    same!(rt; machine_address(0, 0xfff, 0), 0xfff_0000_0000_000);
    // Supervisor files 32 pages apart, and guests' files behind one.
    same!(rt; supervisor_address(0x2000, 0x28000, 0x50_0000, 1, 0), 0x2802_0000);
    same!(rt; supervisor_address(0x2000, 0x28000, 0x50_0000, 1, 5), 0x2802_5000);
    same!(rt; supervisor_address(0x2000, 0x28000, 0x50_0000, 3, 31), 0x2807_f000);
}

#[test]
fn registers_keep_their_fields_until_the_lock(rt: HostRuntime) {
    let written = [
        (DomainReg::MMsiAddrCfg, 0xffff_ffff),
        (DomainReg::SMsiAddrCfg, 0xffff_ffff),
        (DomainReg::SMsiAddrCfgH, 0x0070_0fff),
        (DomainReg::MMsiAddrCfgH, 0x9f77_ffff),
    ];
    let mut addresses = Addresses::new();
    for (reg, kept) in written {
        same!(rt; addresses.load(reg), Some(0));
        addresses.store(reg, 0xffff_ffff);
        same!(rt; addresses.load(reg), Some(kept));
    }
    for (reg, kept) in written {
        addresses.store(reg, 0);
        same!(rt; addresses.load(reg), Some(kept));
    }
    addresses.store(DomainReg::GenMsi, 1);
    same!(rt; addresses.load(DomainReg::GenMsi), None);
}

#[test]
fn addresses_go_by_the_registers_of_their_level(rt: HostRuntime) {
    let mut addresses = Addresses::new();
    same!(rt; addresses.machine_address(3), 0);
    addresses.store(DomainReg::MMsiAddrCfg, 0x24000);
    addresses.store(DomainReg::MMsiAddrCfgH, 0x2000);
    addresses.store(DomainReg::SMsiAddrCfg, 0x28000);
    addresses.store(DomainReg::SMsiAddrCfgH, 0x50_0000);
    same!(rt; addresses.machine_address(3), 0x2400_3000);
    same!(rt; addresses.supervisor_address(1, 0), 0x2802_0000);
    same!(rt; addresses.supervisor_address(1, 5), 0x2802_5000);
    same!(rt; addresses.mmsiaddrcfgh(), 0x2000);
    same!(rt; addresses.smsiaddrcfg(), 0x28000);
    same!(rt; addresses.smsiaddrcfgh(), 0x50_0000);
}
