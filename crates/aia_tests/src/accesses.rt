//! What an access to a CSR reaches, by the table of levels and CSRs.

use crate::same;
use aia_csr::{CsrAccess, decide};
use aia_regs::{Csr, FileReg, Level, Op};

const OPS: [Op; 4] = [Op::Read, Op::Write(1), Op::Set(0), Op::Clear(0)];

/// What a select number names, and what an access by it reaches at the machine's and the host's
/// level, and at a guest's.
const SELECTED: [(u64, CsrAccess, CsrAccess); 14] = [
    (0, CsrAccess::Illegal, CsrAccess::Virtual),
    (0x6f, CsrAccess::Illegal, CsrAccess::Virtual),
    (
        0x70,
        CsrAccess::File(FileReg::Delivery),
        CsrAccess::File(FileReg::Delivery),
    ),
    (
        0x71,
        CsrAccess::File(FileReg::Reserved),
        CsrAccess::File(FileReg::Reserved),
    ),
    (
        0x72,
        CsrAccess::File(FileReg::Threshold),
        CsrAccess::File(FileReg::Threshold),
    ),
    (
        0x73,
        CsrAccess::File(FileReg::Reserved),
        CsrAccess::File(FileReg::Reserved),
    ),
    (
        0x7f,
        CsrAccess::File(FileReg::Reserved),
        CsrAccess::File(FileReg::Reserved),
    ),
    (
        0x80,
        CsrAccess::File(FileReg::Pending(0)),
        CsrAccess::File(FileReg::Pending(0)),
    ),
    (0x81, CsrAccess::Illegal, CsrAccess::Virtual),
    (
        0xbe,
        CsrAccess::File(FileReg::Pending(62)),
        CsrAccess::File(FileReg::Pending(62)),
    ),
    (
        0xc0,
        CsrAccess::File(FileReg::Enable(0)),
        CsrAccess::File(FileReg::Enable(0)),
    ),
    (
        0xfe,
        CsrAccess::File(FileReg::Enable(62)),
        CsrAccess::File(FileReg::Enable(62)),
    ),
    (0xff, CsrAccess::Illegal, CsrAccess::Virtual),
    (0x100, CsrAccess::Illegal, CsrAccess::Virtual),
];

/// What a guest's access to its majors reaches: by a read, by a write, and by either where hvictl's
/// VTI is 1.
const MAJORS: [(Csr, CsrAccess, CsrAccess, CsrAccess, CsrAccess); 3] = [
    (
        Csr::Topi,
        CsrAccess::Topi,
        CsrAccess::Illegal,
        CsrAccess::Topi,
        CsrAccess::Illegal,
    ),
    (
        Csr::Sip,
        CsrAccess::Sip,
        CsrAccess::Sip,
        CsrAccess::Virtual,
        CsrAccess::Virtual,
    ),
    (
        Csr::Sie,
        CsrAccess::Sie,
        CsrAccess::Sie,
        CsrAccess::Virtual,
        CsrAccess::Virtual,
    ),
];

#[test]
fn accesses_reach_what_the_table_says(rt: HostRuntime) {
    for op in OPS {
        for vti in [false, true] {
            for (select, host, guest) in SELECTED {
                same!(rt; decide(Level::Machine, Csr::Reg, op, select, vti), host; select);
                same!(rt; decide(Level::Host, Csr::Reg, op, select, vti), host; select);
                same!(rt; decide(Level::Guest, Csr::Reg, op, select, vti), guest; select);
            }
            for level in [Level::Machine, Level::Host, Level::Guest] {
                same!(rt; decide(level, Csr::Select, op, 0x81, vti), CsrAccess::Select);
                same!(rt; decide(level, Csr::Topei, op, 0x81, vti), CsrAccess::Top);
            }
        }
        for (csr, read, written, read_at_vti, written_at_vti) in MAJORS {
            let (plain, at_vti) = match op {
                Op::Read => (read, read_at_vti),
                Op::Write(_) | Op::Set(_) | Op::Clear(_) => (written, written_at_vti),
            };
            same!(rt; decide(Level::Guest, csr, op, 0, false), plain);
            same!(rt; decide(Level::Guest, csr, op, 0, true), at_vti);
        }
    }
}
