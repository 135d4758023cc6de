//! The registers and the sources of one domain.

use crate::looks::holds;
use crate::same;
use aia_domain::Domain;
use aia_regs::DomainReg;
use aia_source::{Mode, delegates};
use std::process::Abort;
use std::test::Fail;

/// A register of the root domain of 40 sources and two harts, a value that is written to it, and
/// what a register reads then.
const WRITES: [(DomainReg, u32, DomainReg, u32); 27] = [
    (
        DomainReg::DomainCfg,
        0xffff_fffb,
        DomainReg::DomainCfg,
        0x8000_0100,
    ),
    // Level low with a low wire, delegated, no child of that index, no such mode, level high,
    // detached, not there.
    (DomainReg::SourceCfg(1), 7, DomainReg::SourceCfg(1), 7),
    (
        DomainReg::SourceCfg(2),
        0x400,
        DomainReg::SourceCfg(2),
        0x400,
    ),
    (DomainReg::SourceCfg(3), 0x401, DomainReg::SourceCfg(3), 0),
    (DomainReg::SourceCfg(4), 3, DomainReg::SourceCfg(4), 0),
    (DomainReg::SourceCfg(33), 0x806, DomainReg::SourceCfg(33), 6),
    (DomainReg::SourceCfg(40), 1, DomainReg::SourceCfg(40), 1),
    (DomainReg::SourceCfg(41), 1, DomainReg::SourceCfg(41), 0),
    // The first target, hart 1 with a priority, a hart that isn't there, priority 0, an inactive
    // source.
    (DomainReg::Nothing, 9, DomainReg::Target(1), 1),
    (
        DomainReg::Target(1),
        0x0007_ff09,
        DomainReg::Target(1),
        0x0004_0009,
    ),
    (DomainReg::Target(33), 0x0008_0005, DomainReg::Target(33), 5),
    (
        DomainReg::Target(40),
        0x0004_0100,
        DomainReg::Target(40),
        0x0004_0001,
    ),
    (DomainReg::Target(2), 5, DomainReg::Target(2), 0),
    (DomainReg::SetIe(0), 0xffff_ffff, DomainReg::SetIe(0), 0b10),
    (DomainReg::SetIeNum, 33, DomainReg::SetIe(1), 0b10),
    (DomainReg::SetIe(1), 0x100, DomainReg::SetIe(1), 0x102),
    (DomainReg::ClrIe(1), 0b10, DomainReg::SetIe(1), 0x100),
    (DomainReg::ClrIeNum, 40, DomainReg::SetIe(1), 0),
    // What delivers directly hears no register at a level mode.
    (DomainReg::InClrIp(0), 0b10, DomainReg::SetIp(0), 0b10),
    (DomainReg::ClrIpNum, 1, DomainReg::InClrIp(0), 0b10),
    (DomainReg::SetIp(1), 0xffff_ffff, DomainReg::SetIp(1), 0x100),
    (DomainReg::InClrIp(1), 0x100, DomainReg::SetIp(1), 0),
    (DomainReg::SetIpNum, 40, DomainReg::SetIp(1), 0x100),
    (DomainReg::ClrIpNum, 40, DomainReg::SetIp(1), 0),
    (
        DomainReg::SetIpNumBe,
        0x2800_0000,
        DomainReg::SetIp(1),
        0x100,
    ),
    (
        DomainReg::SetIpNumLe,
        0x2800_0000,
        DomainReg::SetIp(0),
        0b10,
    ),
    (DomainReg::GenMsi, 0x0004_0007, DomainReg::GenMsi, 0),
];

/// Writes to a register, and looks at what a register reads then.
fn keeps(rt: &impl Abort, root: &mut Domain, write: &(DomainReg, u32, DomainReg, u32)) {
    let (written, value, read, shown) = *write;
    root.store(written, value);
    same!(rt; root.load(read), shown; (written, value));
}

#[test]
fn registers_keep_what_the_standard_lets_them(rt: HostRuntime) -> Result<(), Fail> {
    let mut root = Domain::new(rt.alloc(), 40, 2, false)?;
    same!(rt; root.load(DomainReg::DomainCfg), 0x8000_0000);
    for write in &WRITES {
        keeps(&rt, &mut root, write);
    }
    Ok(())
}

/// Stores values to registers.
fn stores(domain: &mut Domain, stores: &[(DomainReg, u32)]) {
    for (reg, value) in stores {
        domain.store(*reg, *value);
    }
}

/// Tells the mode of a source that is there.
fn mode(domain: &Domain, s: u32) -> Option<Mode> {
    if s > domain.sources() {
        return None;
    }
    Some(domain.source(s).mode())
}

/// Tells the first source that is to be sent.
fn ready(domain: &Domain) -> Option<u32> {
    domain.ready().next()
}

#[test]
fn a_domain_tells_what_it_keeps_and_what_it_sends(rt: HostRuntime) -> Result<(), Fail> {
    let mut root = Domain::new(rt.alloc(), 3, 1, false)?;
    stores(
        &mut root,
        &[
            (DomainReg::DomainCfg, 0x104),
            (DomainReg::SourceCfg(1), 4),
            (DomainReg::SetIe(0), 0b10),
            (DomainReg::Target(1), 9),
            (DomainReg::GenMsi, 5),
        ],
    );
    root.wire(1, true);
    same!(rt; root.sources(), 3);
    holds(&rt, root.is_enabled());
    holds(&rt, root.delivers_by_msi());
    holds(&rt, root.genmsi_waits());
    same!(rt; mode(&root, 1), Some(Mode::RisingEdge));
    holds(&rt, root.enabled(1));
    holds(&rt, !root.enabled(2));
    same!(rt; root.target(1), 9);
    same!(rt; root.take_genmsi(), Some(5));
    same!(rt; root.take_genmsi(), None);
    same!(rt; ready(&root), Some(1));
    same!(rt; root.ready_word(0), 0b10);
    holds(&rt, root.has_ready());
    root.forwarded(1);
    same!(rt; ready(&root), None);
    same!(rt; root.ready_word(0), 0);
    holds(&rt, !root.has_ready());
    Ok(())
}

#[test]
fn a_hart_has_its_candidates_in_order_while_msis_are_off(rt: HostRuntime) -> Result<(), Fail> {
    let mut root = Domain::new(rt.alloc(), 70, 2, false)?;
    stores(
        &mut root,
        &[
            (DomainReg::SourceCfg(3), 1),
            (DomainReg::SourceCfg(5), 1),
            (DomainReg::SourceCfg(70), 1),
            (DomainReg::Target(3), 2),
            (DomainReg::Target(5), 0x0004_0001),
            (DomainReg::SetIeNum, 3),
            (DomainReg::SetIeNum, 5),
            (DomainReg::SetIeNum, 70),
            (DomainReg::SetIpNum, 3),
            (DomainReg::SetIpNum, 5),
            (DomainReg::SetIpNum, 70),
        ],
    );
    same!(rt; root.candidate(0, 0), Some((1, 70)));
    same!(rt; root.candidate(0, 1), Some((2, 3)));
    same!(rt; root.candidate(0, 2), None);
    same!(rt; root.candidate(1, 0), Some((1, 5)));
    same!(rt; root.candidate(2, 0), None);
    same!(rt; root.ready_word(1), 0);
    stores(&mut root, &[(DomainReg::DomainCfg, 0x104)]);
    same!(rt; root.candidate(0, 0), None);
    same!(rt; root.ready_word(0), 0b10_1000);
    same!(rt; root.ready_word(1), 0b100_0000);
    stores(&mut root, &[(DomainReg::DomainCfg, 0x100)]);
    // The first targets: hart 0, priority 1.
    same!(rt; root.candidate(0, 0), Some((1, 3)));
    same!(rt; root.candidate(0, 2), Some((1, 70)));
    holds(&rt, !root.has_ready());
    Ok(())
}

#[test]
fn a_claim_takes_an_edge_and_leaves_a_level(rt: HostRuntime) -> Result<(), Fail> {
    let mut root = Domain::new(rt.alloc(), 2, 1, false)?;
    stores(
        &mut root,
        &[(DomainReg::SourceCfg(1), 4), (DomainReg::SourceCfg(2), 6)],
    );
    root.wire(1, true);
    root.wire(2, true);
    root.claimed(1);
    root.claimed(2);
    same!(rt; root.load(DomainReg::SetIp(0)), 0b100);
    Ok(())
}

#[test]
fn a_child_has_a_source_while_it_is_delegated(rt: HostRuntime) -> Result<(), Fail> {
    let mut child = Domain::new(rt.alloc(), 1, 1, true)?;
    let sourcecfg = DomainReg::SourceCfg(1);
    child.store(sourcecfg, 6);
    same!(rt; child.load(sourcecfg), 0);
    child.grant(1);
    child.store(sourcecfg, 6);
    // It has it already.
    child.grant(1);
    same!(rt; child.load(sourcecfg), 6);
    child.withdraw(1);
    same!(rt; child.load(sourcecfg), 0);
    Ok(())
}

#[test]
fn an_active_source_is_given_a_target_with_its_guest(rt: HostRuntime) -> Result<(), Fail> {
    let mut child = Domain::new(rt.alloc(), 2, 2, true)?;
    child.grant(1);
    stores(
        &mut child,
        &[(DomainReg::DomainCfg, 4), (DomainReg::SourceCfg(1), 6)],
    );
    child.aim(1, 0x0004_1005);
    child.aim(2, 0x0004_1005);
    holds(&rt, child.is_active(1));
    holds(&rt, !child.is_active(2));
    same!(rt; child.target(1), 0x0004_1005);
    same!(rt; child.target(2), 0);
    stores(&mut child, &[(DomainReg::Target(1), 0x0004_1005)]);
    same!(rt; child.target(1), 0x0004_0005);
    Ok(())
}

#[test]
fn bit_10_delegates_to_the_child_0_alone(rt: HostRuntime) {
    holds(&rt, delegates(0x400));
    holds(&rt, delegates(0xffff_fc00));
    holds(&rt, !delegates(0x401));
    holds(&rt, !delegates(6));
}
