//! Generated scripts: their numbers and lines, the tally of what they answer, and its summary.

use crate::same;
use aia_generate::{Tally, generate, generated_lines, lcg, summary};
use aia_model::{Answer, Line, Refusal, Want};
use aia_regs::{Csr, Op};
use arrayvec::ArrayVec;
use std::process::Abort;

#[test]
fn numbers_follow_one_another(rt: HostRuntime) {
    same!(rt; lcg(0), 1442695040888963407);
    same!(rt; lcg(1), 7806831264735756412);
    same!(rt; lcg(u64::MAX), 13525302890751722018);
}

fn guest(vm: u64, vcpu: u64, csr: Csr, operand: u64) -> Line {
    Line::GuestCsr {
        vm,
        vcpu,
        csr,
        op: Op::Write(operand),
    }
}

fn host(hart: u64, csr: Csr, operand: u64) -> Line {
    Line::HostCsr {
        hart,
        csr,
        op: Op::Write(operand),
    }
}

#[test]
fn the_head_is_always_the_same(rt: HostRuntime) {
    let machine = Line::Machine {
        harts: 2,
        guests: 2,
        n: 63,
        sources: 8,
    };
    let vm = Line::Vm {
        vcpus: 2,
        mask: 0x38,
        hart: 1,
    };
    let arrival = Line::Move {
        vm: 1,
        vcpu: 0,
        want: Want::Arrive(1),
    };
    same!(rt; generate(0, 1), machine);
    same!(rt; generate(u64::MAX, 1), machine);
    same!(rt; generate(0, 3), vm);
    same!(rt; generate(0, 5), guest(0, 0, Csr::Select, 0xc0));
    same!(rt; generate(0, 11), guest(0, 1, Csr::Reg, 0xffff_ffff_ffff_fffe));
    same!(rt; generate(0, 14), arrival);
    same!(rt; generate(0, 22), guest(1, 1, Csr::Select, 0x70));
    same!(rt; generate(0, 27), host(0, Csr::Reg, 1));
    same!(rt; generate(0, 31), host(1, Csr::Reg, 1));
}

/// A leave that begins.
const LEAVE: Line = Line::Begin {
    vm: 1,
    vcpu: 0,
    want: Want::Leave,
};

/// Looks at the line that a number draws whose bits from 33 on are these, the others being ones.
fn draws(rt: &impl Abort, bits: u64, want: Line) {
    same!(*rt; generate(bits << 33 | 0x1_ffff_ffff, 32), want; bits);
}

#[test]
fn a_number_draws_a_line(rt: HostRuntime) {
    let msi = Line::Msi {
        vm: 1,
        addr: 0x2800_8000,
        value: 5,
    };
    let ipi = Line::Ipi {
        vm: 0,
        vcpu: 1,
        to: 0,
        value: 63,
    };
    let arrival = Line::Begin {
        vm: 0,
        vcpu: 1,
        want: Want::Arrive(1),
    };
    draws(&rt, 80 * 5 + 20 + 10, msi);
    draws(&rt, 80 * 69 + 20 + 10 + 1, msi);
    draws(&rt, 10 + 2, guest(1, 0, Csr::Topei, 0));
    draws(&rt, 80 * 63 + 20 + 3, ipi);
    draws(&rt, 10 + 4, LEAVE);
    draws(&rt, 40 + 20 + 5, arrival);
    draws(&rt, 20 + 10 + 6, Line::Step { vm: 1, vcpu: 1 });
    draws(&rt, 7, Line::Step { vm: 0, vcpu: 0 });
    draws(&rt, 8, Line::Step { vm: 0, vcpu: 0 });
    draws(&rt, 40 + 9, host(1, Csr::Topei, 0));
    same!(rt; generate(lcg(0), 32), Line::Step { vm: 0, vcpu: 0 });
    same!(rt; generate(lcg(1), 32), LEAVE);
}

#[test]
fn a_script_has_its_head_and_its_body(rt: HostRuntime) {
    let last = Line::Begin {
        vm: 0,
        vcpu: 0,
        want: Want::Arrive(1),
    };
    same!(rt; generated_lines(0, 7).last(), Some(host(1, Csr::Reg, 1)));
    same!(rt; generated_lines(0, 7).nth(31), None);
    same!(rt; generated_lines(5, 0).nth(31), Some(Line::Step { vm: 0, vcpu: 0 }));
    same!(rt; generated_lines(5, 0).nth(35), Some(last));
    same!(rt; generated_lines(5, 0).nth(36), None);
    same!(rt; generated_lines(u64::MAX, 1).nth(31), Some(LEAVE));
}

/// Counts lines that all answer the same.
fn tallied(lines: &[Line], given: Answer) -> Tally {
    let mut tally = Tally::new();
    for line in lines {
        tally.count(line, &given);
    }
    tally
}

/// Looks at the numbers of a tally, and at the summary of a run that sent so many notices.
fn tells(rt: &impl Abort, tally: Tally, numbers: (u64, u64, u64), notices: u64, text: &str) {
    same!(*rt; (tally.lines(), tally.claims(), tally.sum()), numbers);
    let mut out = ArrayVec::new();
    summary(&tally, notices, &mut out);
    same!(*rt; out.as_slice(), text.as_bytes());
}

#[test]
fn claims_are_tallied(rt: HostRuntime) {
    let claims = [guest(0, 1, Csr::Topei, 7), host(1, Csr::Topei, 0)];
    let others = [
        host(0, Csr::Select, 0xc0),
        Line::Hgeip { hart: 0 },
        Line::HostCsr {
            hart: 0,
            csr: Csr::Topei,
            op: Op::Read,
        },
        Line::MachineCsr {
            hart: 0,
            csr: Csr::Topei,
            op: Op::Write(0),
        },
    ];
    let two = tallied(&claims, Answer::Wide(0x003f_003f));
    let away = tallied(&claims, Answer::Refused(Refusal::Away));
    let text = "lines 2\nclaims 2\nnotices 18446744073709551615\nsum 126\n";
    tells(&rt, two, (2, 2, 126), u64::MAX, text);
    tells(
        &rt,
        away,
        (2, 0, 0),
        10,
        "lines 2\nclaims 0\nnotices 10\nsum 0\n",
    );
    same!(rt; tallied(&claims, Answer::Wide(0)), away);
    tells(
        &rt,
        tallied(&others, Answer::Wide(0x0005_0005)),
        (4, 0, 0),
        0,
        "lines 4\nclaims 0\nnotices 0\nsum 0\n",
    );
    tells(
        &rt,
        Tally::new(),
        (0, 0, 0),
        0,
        "lines 0\nclaims 0\nnotices 0\nsum 0\n",
    );
}

#[test]
fn a_script_without_a_body_claims_nothing(rt: HostRuntime) {
    let mut tally = Tally::new();
    for line in generated_lines(0, 7) {
        tally.count(&line, &Answer::Okay);
    }
    tells(
        &rt,
        tally,
        (31, 0, 0),
        0,
        "lines 31\nclaims 0\nnotices 0\nsum 0\n",
    );
}
