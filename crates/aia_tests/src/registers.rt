//! The register maps, fields of registers, CSR instructions, and what a store asks for.

use crate::looks::holds;
use crate::same;
use aia_regs::address_map::{
    guest_page, is_in_memory, slot_address, supervisor_page, table_address,
};
use aia_regs::limits::{GUEST_FILES, HARTS, SLOTS, VMS};
use aia_regs::{
    DomainReg, FileReg, Op, bit, bits, domain_reg, file_reg, put_bits, requested, swap32,
};

#[test]
fn names_each_kind_of_register(rt: HostRuntime) {
    let kinds = [
        (0x6f, FileReg::Outside),
        (0x70, FileReg::Delivery),
        (0x72, FileReg::Threshold),
        (0x73, FileReg::Reserved),
        (0x82, FileReg::Pending(2)),
        (0xbf, FileReg::Odd),
        (0xfe, FileReg::Enable(62)),
    ];
    for (select, register) in kinds {
        same!(rt; file_reg(select), register; select);
    }
}

#[test]
fn takes_either_byte_order(rt: HostRuntime) {
    let stores = [
        (0, 5, Some(5)),
        (4, 0x0500_0000, Some(5)),
        (4, 5, None),
        (0, 0, None),
        (0, 63, Some(63)),
        (0, 64, None),
        (8, 5, None),
    ];
    for (offset, value, identity) in stores {
        same!(rt; requested(63, offset, value), identity; (value, offset));
    }
}

#[test]
fn writes_sets_and_clears(rt: HostRuntime) {
    let instructions = [
        (Op::Read, 0b1100),
        (Op::Write(0b1010), 0b1010),
        (Op::Set(0b1010), 0b1110),
        (Op::Clear(0b1010), 0b0100),
    ];
    for (op, value) in instructions {
        same!(rt; op.written(0b1100), value);
        same!(rt; op.is_writing(), op != Op::Read);
    }
    // An instruction that sets or clears no bit writes all the same.
    for op in [Op::Write(0), Op::Set(0), Op::Clear(0)] {
        holds(&rt, op.is_writing());
    }
}

/// What is at the ends of each row of the table, and just after them.
const DOMAIN_REGISTERS: [(u32, DomainReg); 36] = [
    (0x0000, DomainReg::DomainCfg),
    (0x0004, DomainReg::SourceCfg(1)),
    (0x0ffc, DomainReg::SourceCfg(1023)),
    (0x1000, DomainReg::Nothing),
    (0x1bbc, DomainReg::Nothing),
    (0x1bc0, DomainReg::MMsiAddrCfg),
    (0x1bc4, DomainReg::MMsiAddrCfgH),
    (0x1bc8, DomainReg::SMsiAddrCfg),
    (0x1bcc, DomainReg::SMsiAddrCfgH),
    (0x1bd0, DomainReg::Nothing),
    (0x1c00, DomainReg::SetIp(0)),
    (0x1c7c, DomainReg::SetIp(31)),
    (0x1c80, DomainReg::Nothing),
    (0x1cdc, DomainReg::SetIpNum),
    (0x1ce0, DomainReg::Nothing),
    (0x1d00, DomainReg::InClrIp(0)),
    (0x1d7c, DomainReg::InClrIp(31)),
    (0x1d80, DomainReg::Nothing),
    (0x1ddc, DomainReg::ClrIpNum),
    (0x1de0, DomainReg::Nothing),
    (0x1e00, DomainReg::SetIe(0)),
    (0x1e7c, DomainReg::SetIe(31)),
    (0x1e80, DomainReg::Nothing),
    (0x1edc, DomainReg::SetIeNum),
    (0x1ee0, DomainReg::Nothing),
    (0x1f00, DomainReg::ClrIe(0)),
    (0x1f7c, DomainReg::ClrIe(31)),
    (0x1f80, DomainReg::Nothing),
    (0x1fdc, DomainReg::ClrIeNum),
    (0x1fe0, DomainReg::Nothing),
    (0x2000, DomainReg::SetIpNumLe),
    (0x2004, DomainReg::SetIpNumBe),
    (0x2008, DomainReg::Nothing),
    (0x3000, DomainReg::GenMsi),
    (0x3004, DomainReg::Target(1)),
    (0x3ffc, DomainReg::Target(1023)),
];

/// The delivery controls of the first hart and of the last one, and what is no register.
const DELIVERY_CONTROLS: [(u32, DomainReg); 28] = [
    (0x4000, DomainReg::IDelivery(0)),
    (0x4004, DomainReg::IForce(0)),
    (0x4008, DomainReg::IThreshold(0)),
    (0x400c, DomainReg::Nothing),
    (0x4010, DomainReg::Nothing),
    (0x4014, DomainReg::Nothing),
    (0x4018, DomainReg::TopI(0)),
    (0x401c, DomainReg::ClaimI(0)),
    (0x4020, DomainReg::IDelivery(1)),
    (0x7fe0, DomainReg::IDelivery(511)),
    (0x7fe4, DomainReg::IForce(511)),
    (0x7fe8, DomainReg::IThreshold(511)),
    (0x7fec, DomainReg::Nothing),
    (0x7ff8, DomainReg::TopI(511)),
    (0x7ffc, DomainReg::ClaimI(511)),
    (0x8000, DomainReg::Nothing),
    (0x8004, DomainReg::Nothing),
    (0x8008, DomainReg::Nothing),
    (0x8018, DomainReg::Nothing),
    (0x801c, DomainReg::Nothing),
    (0x0001, DomainReg::Nothing),
    (0x0006, DomainReg::Nothing),
    (0x1c03, DomainReg::Nothing),
    (0x3001, DomainReg::Nothing),
    (0x3006, DomainReg::Nothing),
    (0x401e, DomainReg::Nothing),
    (0xffff_fffc, DomainReg::Nothing),
    (0xffff_ffff, DomainReg::Nothing),
];

#[test]
fn names_the_registers_of_a_domain(rt: HostRuntime) {
    for (offset, register) in &DOMAIN_REGISTERS {
        same!(rt; domain_reg(*offset), *register; *offset);
    }
    for (offset, register) in &DELIVERY_CONTROLS {
        same!(rt; domain_reg(*offset), *register; *offset);
    }
}

#[test]
fn reads_fields(rt: HostRuntime) {
    holds(&rt, bit(0x100, 8));
    holds(&rt, !bit(0x100, 7));
    holds(&rt, bit(0x8000_0000_0000_0000, 63));
    same!(rt; bits(0xffff_0a5f, 15, 8), 0x0a);
    same!(rt; bits(0x8000_0000_0000_0001, 63, 0), 0x8000_0000_0000_0001);
    same!(rt; bits(0x8000_0000_0000_0001, 63, 63), 1);
    same!(rt; bits(0x8000_0000_0000_0001, 62, 0), 1);
}

#[test]
fn writes_fields(rt: HostRuntime) {
    same!(rt; put_bits(0x1234, 7, 4, 0xa), 0x12a4);
    same!(rt; put_bits(0xffff_ffff_ffff_ffff, 11, 4, 0), 0xffff_ffff_ffff_f00f);
    same!(rt; put_bits(0x80, 8, 8, 1), 0x180);
    same!(rt; put_bits(7, 63, 0, 0xffff_ffff_ffff_ffff), 0xffff_ffff_ffff_ffff);
}

#[test]
fn reverses_bytes(rt: HostRuntime) {
    same!(rt; swap32(0x0102_0304), 0x0403_0201);
}

#[test]
fn the_map_says_where_pages_slots_and_tables_lie(rt: HostRuntime) {
    same!(rt; supervisor_page(HARTS - 1), 0x2806_0000);
    same!(rt; guest_page(1, GUEST_FILES), 0x2803_f000);
    same!(rt; slot_address(SLOTS - 1), 0x8000_3e00);
    same!(rt; table_address(VMS - 1), 0x8000_b000);
    let bytes = [
        (0x7fff_ffff, false),
        (0x8000_0000, true),
        (0x8000_bfff, true),
        (0x8000_c000, false),
    ];
    for (addr, there) in bytes {
        same!(rt; is_in_memory(addr), there; addr);
    }
}
