//! One wired source in one domain.

use crate::looks::holds;
use crate::same;
use aia_source::{
    Mode, Wired, child_sourcecfg, delegates, domaincfg_kept, domaincfg_read, enables, first_target,
    genmsi_kept, guest_of, hart_of, identity_of, is_by_msi, mode_number, mode_of, priority_of,
    root_sourcecfg, target_kept,
};

/// A source of this mode, whose wire was raised while it was inactive.
fn with_high_wire(mode: Mode) -> Wired {
    let mut source = Wired::new();
    source.wire(true, false);
    source.recfg(mode);
    source
}

#[test]
fn a_new_source_is_inactive_and_hears_nothing(rt: HostRuntime) {
    let mut source = Wired::new();
    same!(rt; source.mode(), Mode::Inactive);
    source.wire(true, false);
    source.set(true);
    holds(&rt, !source.rectified());
    holds(&rt, !source.pending());
}

#[test]
fn a_mode_that_finds_its_level_is_pending_and_an_edge_is_not(rt: HostRuntime) {
    let modes = [
        (Mode::Inactive, false, false),
        (Mode::Detached, false, false),
        (Mode::RisingEdge, true, false),
        (Mode::FallingEdge, false, false),
        (Mode::LevelHigh, true, true),
        (Mode::LevelLow, false, false),
    ];
    for (mode, rectified, pending) in modes {
        let source = with_high_wire(mode);
        same!(rt; source.rectified(), rectified);
        same!(rt; source.pending(), pending);
    }
}

#[test]
fn an_edge_is_remembered_until_it_is_cleared(rt: HostRuntime) {
    let mut source = with_high_wire(Mode::FallingEdge);
    source.wire(false, false);
    source.wire(true, false);
    holds(&rt, source.pending());
    source.recfg(Mode::RisingEdge);
    holds(&rt, source.pending());
    source.clear(false);
    holds(&rt, !source.pending());
    source.set(false);
    source.delivery_changed();
    holds(&rt, source.pending());
    source.forwarded();
    holds(&rt, !source.pending());
}

#[test]
fn a_level_source_hears_registers_only_where_msis_are_sent(rt: HostRuntime) {
    let mut source = with_high_wire(Mode::LevelHigh);
    source.clear(false);
    holds(&rt, source.pending());
    source.clear(true);
    holds(&rt, !source.pending());
    source.set(false);
    holds(&rt, !source.pending());
    source.set(true);
    holds(&rt, source.pending());
    source.forwarded();
    source.delivery_changed();
    holds(&rt, source.pending());
    source.wire(false, true);
    source.set(true);
    holds(&rt, !source.pending());
}

/// What is written to a register, what the root domain's `sourcecfg` keeps of it, what the
/// child's does, and whether the source is delegated by it.
const SOURCE_CONFIGURATIONS: [(u32, u32, u32, bool); 12] = [
    (0, 0, 0, false),
    (1, 1, 1, false),
    (2, 0, 0, false),
    (3, 0, 0, false),
    (4, 4, 4, false),
    (5, 5, 5, false),
    (0xffff_fbfe, 6, 6, false),
    (7, 7, 7, false),
    (0x400, 0x400, 0, true),
    (0x401, 0, 0, false),
    (0x600, 0, 0, false),
    (0xffff_fc00, 0x400, 0, true),
];

#[test]
fn source_configurations_keep_modes_and_the_one_child(rt: HostRuntime) {
    for (value, root, child, delegated) in SOURCE_CONFIGURATIONS {
        same!(rt; root_sourcecfg(value), root);
        same!(rt; child_sourcecfg(value), child);
        same!(rt; delegates(value), delegated);
    }
    for number in [0, 1, 4, 5, 6, 7] {
        same!(rt; mode_number(mode_of(number)), number);
    }
    same!(rt; mode_of(0x400), Mode::Inactive);
}

#[test]
fn domain_configurations_keep_ie_and_dm(rt: HostRuntime) {
    let kept = [
        (0, 0),
        (4, 4),
        (0x100, 0x100),
        (0xffff_ffff, 0x104),
        (0xffff_fefb, 0),
    ];
    for (value, cfg) in kept {
        same!(rt; domaincfg_kept(value), cfg);
        same!(rt; domaincfg_read(enables(value), is_by_msi(value)), 0x8000_0000 + cfg);
    }
    holds(&rt, enables(0x100));
    holds(&rt, !enables(4));
    holds(&rt, is_by_msi(4));
    holds(&rt, !is_by_msi(0x100));
}

/// What is written to a register of a machine with two harts, and what `target` keeps of it where
/// the domain signals harts, where it sends MSIs, and `genmsi`.
const TARGETS: [(u32, u32, u32); 6] = [
    (0, 1, 0),
    (9, 9, 9),
    (0x0007_ff09, 0x0004_0009, 0x0004_0709),
    (0x0004_0100, 0x0004_0001, 0x0004_0100),
    (0x0008_0005, 5, 5),
    (0xffff_ffff, 0xff, 0x7ff),
];

#[test]
fn targets_keep_a_hart_that_is_there_and_a_priority_or_an_identity(rt: HostRuntime) {
    for (value, direct, msi) in &TARGETS {
        same!(rt; target_kept(2, false, *value), *direct);
        same!(rt; target_kept(2, true, *value), *msi);
        same!(rt; genmsi_kept(2, *value), *msi);
    }
    same!(rt; first_target(false), 1);
    same!(rt; first_target(true), 0);
    same!(rt; hart_of(0xfffb_ffff), 0x3ffe);
    same!(rt; guest_of(0xffff_efff), 0x3e);
    same!(rt; priority_of(0xffff_ff7f), 0x7f);
    same!(rt; identity_of(0xffff_fdff), 0x5ff);
}
