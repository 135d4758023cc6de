//! The majors of a virtual hart, in all combinations, by a table that is made of the rule in words.
//! A set of majors is a number from 0 to 15, whose bits are for the majors 1, 5, 9 and 13.

ghost use Rattle.std.specs.Prelude.{◌<◌};

use crate::majors_table::{IPRIOS, NAMED, NAMES, PENDING, PRIORITIES, REGISTERS, TOPS};
use crate::same;
use aia_major::{Range, VsMajor};
use std::process::Abort;

/// The bits that are dropped of what is written to `hvictl`, to `hviprio1`, and by a guest.
const DROPPED_BY_HVICTL: u64 = !0x4fff_03ff;

const DROPPED_BY_HVIPRIO1: u64 = !0xff00_ff00_ff00;

const DROPPED_OF_GUESTS: u64 = !0x2222;

/// A combination: the majors injected and those enabled, and the fields of `hvictl` but for VTI and
/// IID, IPRIO by its place in the table.
#[derive(Clone, Copy, Debug, PartialEq, Eq)]
struct Case {
    injected: usize,
    enabled: usize,
    dpr: usize,
    ipriom: usize,
    iprio: usize,
}

impl Case {
    /// Gives what is written to `hvictl`, with bits that are dropped.
    fn hvictl(self, vti: u64, iid: u64) -> u64 {
        let iprio = IPRIOS.get(self.iprio).copied().unwrap_or(0);
        let low = (self.dpr as u64) << 9 | (self.ipriom as u64) << 8 | iprio;
        DROPPED_BY_HVICTL | vti << 30 | iid << 16 | low
    }

    /// Gives the majors that are pending, given the signal of the interrupt file.
    fn pending(self, signal: bool) -> usize {
        if signal {
            self.injected | 4
        } else {
            self.injected
        }
    }
}

/// Makes a virtual hart's majors, those injected and those enabled.
fn made(rt: &impl Abort, injected: usize, enabled: usize) -> VsMajor {
    let mut majors = VsMajor::new();
    for (place, major) in [(0, 1), (1, 5), (2, 9), (3, 13)] {
        same!(rt; majors.inject(major, injected >> place & 1 == 1), Ok(()); major);
    }
    let sie = REGISTERS.get(enabled).copied().unwrap_or(0);
    majors.write_sie(sie | DROPPED_OF_GUESTS);
    majors
}

/// Looks at what `stopi` reads, for each `stopei`; `row` is that of the table.
fn looks(rt: &impl Abort, majors: &VsMajor, signal: bool, table: &[u64], row: usize)
    requires { row < 1000 }
{
    let wants = table.get(4 * row..4 * row + 4).unwrap_or(&[]);
    same!(rt; wants.len(), TOPS.len(); row);
    for (stopei, want) in TOPS.iter().zip(wants) {
        same!(rt; majors.stopi(*stopei, signal), *want; (row, *stopei));
    }
}

/// Looks at what is read where VTI is 0, with each IID, which changes nothing; each has another
/// `hviprio1`, from the one at the place `turn` on.
fn looks_by_pending(rt: &impl Abort, majors: &mut VsMajor, case: Case, turn: usize)
    requires { turn < 12 }
{
    for (place, iid) in [0, 1, 9, 13, 63].into_iter().enumerate() {
        let bytes = (place % 5 + turn) % 5;
        let hviprio1 = PRIORITIES.get(bytes).copied().unwrap_or(0);
        majors.set_hviprio(hviprio1 | DROPPED_BY_HVIPRIO1);
        same!(rt; majors.set_hvictl(case.hvictl(0, iid)), Ok(()); case);
        same!(rt; majors.vti(), false; case);
        for signal in [false, true] {
            let pending = case.pending(signal);
            same!(rt; Some(majors.sip(signal)), REGISTERS.get(pending).copied(); case);
            same!(rt; Some(majors.sie()), REGISTERS.get(case.enabled).copied(); case);
            let live = (pending & case.enabled) % 16;
            looks(
                rt,
                majors,
                signal,
                &PENDING,
                (2 * live + case.ipriom % 2) * 5 + bytes,
            );
        }
    }
}

/// Looks at what `stopi` reads where VTI is 1, with each IID; 0 and 64 are refused, and change
/// nothing.
fn looks_by_names(rt: &impl Abort, majors: &mut VsMajor, case: Case) {
    for (name, iid) in NAMES.into_iter().enumerate() {
        same!(rt; majors.set_hvictl(case.hvictl(1, iid)), Ok(()); case);
        for refused in [0, 64] {
            same!(rt; majors.set_hvictl(case.hvictl(1, refused)), Err(Range); case);
        }
        same!(rt; majors.vti(), true; case);
        for signal in [false, true] {
            let external = (case.pending(signal) & case.enabled) / 4 % 2;
            let fields = (2 * external + case.dpr % 2) * 2 + case.ipriom % 2;
            let row = (4 * fields + name % 4) * 3 + case.iprio % 3;
            looks(rt, majors, signal, &NAMED, row);
        }
    }
}

#[test]
fn majors_read_as_the_rule_says(rt: HostRuntime) {
    for sets in 0..256usize {
        let (injected, enabled) = (sets % 16, sets / 16);
        let mut majors = made(&rt, injected, enabled);
        for turn in 0..12usize {
            let case = Case {
                injected,
                enabled,
                dpr: turn % 2,
                ipriom: turn / 2 % 2,
                iprio: turn / 4,
            };
            looks_by_pending(&rt, &mut majors, case, turn);
            looks_by_names(&rt, &mut majors, case);
        }
    }
}

/// A guest writes the bits of the majors 1 and 13, and no others. There are no majors 0, 2 and 64.
#[test]
fn a_guest_writes_its_own_majors(rt: HostRuntime) {
    for sets in 0..256usize {
        let (injected, written) = (sets % 16, sets / 16);
        let mut majors = made(&rt, injected, 15);
        for major in [0, 2, 64] {
            same!(rt; majors.inject(major, true), Err(Range); major);
        }
        let sip = REGISTERS.get(written).copied().unwrap_or(0);
        majors.write_sip(sip | DROPPED_OF_GUESTS);
        let left = injected & 6 | written & 9;
        same!(rt; Some(majors.sip(false)), REGISTERS.get(left).copied(); sets);
    }
}
