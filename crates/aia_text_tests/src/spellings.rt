//! Texts that are read as lines, lines and answers that are printed.

use crate::same;
use aia_entry::Entry;
use aia_script::{
    Answer, Csr, Line, Op, Parsed, Part, Refusal, parse_line, print_answer, print_line,
};
use arrayvec::ArrayVec;
use std::process::Abort;

fn wire(source: u64, level: bool) -> Parsed {
    Parsed::Line(Line::Wire { source, level })
}

fn store(addr: u64, value: u32) -> Parsed {
    Parsed::Line(Line::Store { addr, value })
}

fn machine_csr(hart: u64, csr: Csr, op: Op) -> Parsed {
    Parsed::Line(Line::MachineCsr { hart, csr, op })
}

fn host(hart: u64, csr: Csr, op: Op) -> Parsed {
    Parsed::Line(Line::HostCsr { hart, csr, op })
}

/// Texts that spell no line.
const BAD: [&str; 38] = [
    "machine 04 1 63 8",
    "st 0 4294967296",
    "st 0x000000000000000ab 0",
    "st 0xAB 0",
    "st 0x 0",
    "st 18446744073709551616 0",
    "st  0 0",
    "st 0 0 ",
    "st 0",
    "h 3 csrr sireg 0",
    "h 3 csrr mireg",
    "h 3 csrrs sireg",
    "h 3 csrrx sireg 1",
    "m 0 csrr siselect",
    "m csrr mireg",
    "ld 0 0",
    "ld",
    "wire 1 2",
    "wire 1",
    "wire 1 1 1",
    "wire 1 01",
    "pins",
    "pins 1 1",
    "pins x",
    "pin 0",
    "vm 2 56",
    "vm 2 56 1 0",
    "msi 0 0 4294967296",
    "msi 0 0",
    "enter 1",
    "exit 0 0 0",
    "save 0 0",
    "load 0 0",
    "load 0 0 word 0 1",
    "load 0 0 words 0 1 2",
    "load 0 0 image 1 63 2 0 0",
    "load 0 0 image 4294967296 63 0 0 0",
    "entry 1",
];

/// Reads a text.
fn reads(rt: &impl Abort, text: &str, want: Parsed) {
    same!(rt; parse_line(text.as_bytes()), want; text);
}

#[test]
fn texts_that_spell_no_line_are_bad(rt: HostRuntime) {
    for text in &BAD {
        reads(&rt, text, Parsed::Bad);
    }
    reads(&rt, "# st 0 0", Parsed::Skip);
    reads(&rt, "", Parsed::Skip);
    same!(rt; parse_line(&[b'#'; 128]), Parsed::Skip);
    same!(rt; parse_line(&[b'#'; 129]), Parsed::Bad);
}

#[test]
fn texts_are_read_by_the_grammar(rt: HostRuntime) {
    reads(
        &rt,
        "machine 4 1 63 8",
        Parsed::Line(Line::Machine {
            harts: 4,
            guests: 1,
            n: 63,
            sources: 8,
        }),
    );
    reads(
        &rt,
        "machine 0x0 0 0x3f 0x0008",
        Parsed::Line(Line::Machine {
            harts: 0,
            guests: 0,
            n: 63,
            sources: 8,
        }),
    );
    reads(&rt, "st 0x28000000 5", store(671088640, 5));
    reads(&rt, "st 0 4294967295", store(0, 4294967295));
    reads(&rt, "st 0x00000000000000ab 0", store(171, 0));
    reads(&rt, "st 18446744073709551615 0", store(u64::MAX, 0));
    reads(&rt, "h 3 csrr stopei", host(3, Csr::Topei, Op::Read));
    reads(&rt, "h 0 csrr siselect", host(0, Csr::Select, Op::Read));
    reads(
        &rt,
        "h 3 csrrw sireg 0xc0",
        host(3, Csr::Reg, Op::Write(192)),
    );
    reads(&rt, "h 1 csrrs sireg 7", host(1, Csr::Reg, Op::Set(7)));
    reads(
        &rt,
        "h 2 csrrc stopei 0x0",
        host(2, Csr::Topei, Op::Clear(0)),
    );
    reads(&rt, "m 3 csrr mtopei", machine_csr(3, Csr::Topei, Op::Read));
    reads(
        &rt,
        "m 0 csrrw miselect 112",
        machine_csr(0, Csr::Select, Op::Write(112)),
    );
    reads(
        &rt,
        "m 0 csrrs mireg 0x10",
        machine_csr(0, Csr::Reg, Op::Set(16)),
    );
    reads(
        &rt,
        "m 0 csrrc mireg 0xff",
        machine_csr(0, Csr::Reg, Op::Clear(255)),
    );
    reads(
        &rt,
        "ld 0x24000000",
        Parsed::Line(Line::Load { addr: 603979776 }),
    );
    reads(&rt, "ld 4", Parsed::Line(Line::Load { addr: 4 }));
    reads(&rt, "wire 1 1", wire(1, true));
    reads(&rt, "wire 0x10 0x0", wire(16, false));
    reads(&rt, "wire 1 0x0000000000000001", wire(1, true));
    reads(&rt, "wire 18446744073709551615 0", wire(u64::MAX, false));
    reads(&rt, "pins 0", Parsed::Line(Line::Pins { hart: 0 }));
    reads(&rt, "pins 0x3", Parsed::Line(Line::Pins { hart: 3 }));
    reads(
        &rt,
        "pins 18446744073709551615",
        Parsed::Line(Line::Pins { hart: u64::MAX }),
    );
    reads(
        &rt,
        "vm 2 0x38 1",
        Parsed::Line(Line::Vm {
            vcpus: 2,
            mask: 56,
            hart: 1,
        }),
    );
    reads(
        &rt,
        "msi 0 0x28008000 4294967295",
        Parsed::Line(Line::Msi {
            vm: 0,
            addr: 671121408,
            value: u32::MAX,
        }),
    );
    reads(
        &rt,
        "enter 1 0x2",
        Parsed::Line(Line::Enter { vm: 1, vcpu: 2 }),
    );
    reads(
        &rt,
        "exit 7 15",
        Parsed::Line(Line::Exit { vm: 7, vcpu: 15 }),
    );
    reads(
        &rt,
        "save 1 2 0x23",
        Parsed::Line(Line::Save {
            vm: 1,
            vcpu: 2,
            k: 35,
        }),
    );
    reads(
        &rt,
        "load 0 1 word 0 0x20 96",
        Parsed::Line(Line::LoadPart {
            vm: 0,
            vcpu: 1,
            part: Part::Word {
                w: 0,
                pending: 0x20,
                enable: 0x60,
            },
        }),
    );
    reads(
        &rt,
        "entry 0x20000003 9",
        Parsed::Line(Line::Entry {
            w0: 536870915,
            w1: 9,
        }),
    );
}

/// Answers, and how each is printed.
const ANSWERS: [(Answer, &str); 29] = [
    (Answer::Okay, "ok\n"),
    (Answer::Narrow(0), "0x00000000\n"),
    (Answer::Narrow(0x89ab_cdef), "0x89abcdef\n"),
    (Answer::Wide(0), "0x0000000000000000\n"),
    (Answer::Wide(0x0123_4567_89ab_cdef), "0x0123456789abcdef\n"),
    (Answer::Pins(true, false, false, false), "pins 1 0 0 0\n"),
    (Answer::Pins(false, true, false, false), "pins 0 1 0 0\n"),
    (Answer::Pins(false, false, true, false), "pins 0 0 1 0\n"),
    (Answer::Pins(false, false, false, true), "pins 0 0 0 1\n"),
    (
        Answer::Entry(Entry::Basic(0x28001)),
        "basic 0x0000000000028001\n",
    ),
    (
        Answer::Entry(Entry::Mrif(0x8000_0000, 0x28000, 1025)),
        "mrif 0x0000000080000000 0x0000000000028000 1025\n",
    ),
    (Answer::Entry(Entry::NotValid), "notvalid\n"),
    (Answer::Entry(Entry::Custom), "custom\n"),
    (Answer::Entry(Entry::Misconfigured), "misconfigured\n"),
    (
        Answer::Part(Part::Image {
            version: 4294967295,
            n: 4294967295,
            delivery: true,
            threshold: 4294967295,
            select: 0xfff,
        }),
        "image 4294967295 4294967295 1 4294967295 0x0000000000000fff\n",
    ),
    (
        Answer::Part(Part::Majors {
            injected: 0x2222,
            enabled: 0x202,
        }),
        "majors 0x0000000000002222 0x0000000000000202\n",
    ),
    (
        Answer::Part(Part::Prio {
            hviprio: 0xff00,
            hvictl: 0x4001_0000,
        }),
        "prio 0x000000000000ff00 0x0000000040010000\n",
    ),
    (
        Answer::Part(Part::Word {
            w: 18446744073709551615,
            pending: 0x8000_0000_0000_0000,
            enable: 1,
        }),
        "word 18446744073709551615 0x8000000000000000 0x0000000000000001\n",
    ),
    (Answer::Bad, "bad\n"),
    (Answer::NoMachine, "nomachine\n"),
    (Answer::Again, "again\n"),
    (Answer::Refused(Refusal::Range), "range\n"),
    (Answer::Refused(Refusal::Full), "full\n"),
    (Answer::Refused(Refusal::Entered), "entered\n"),
    (Answer::Refused(Refusal::Illegal), "illegal\n"),
    (Answer::Refused(Refusal::Fault), "fault\n"),
    (Answer::Refused(Refusal::Guarded), "guarded\n"),
    (Answer::Refused(Refusal::Other), "other\n"),
    (Answer::Refused(Refusal::NotValid), "notvalid\n"),
];

/// Prints an answer.
fn answers(rt: &impl Abort, answer: &Answer, want: &str) {
    let mut out = ArrayVec::new();
    print_answer(answer, &mut out);
    same!(rt; out.as_slice(), want.as_bytes());
}

#[test]
fn answers_are_printed(rt: HostRuntime) {
    for (answer, want) in &ANSWERS {
        answers(&rt, answer, want);
    }
}

/// Reads a text as a line, prints the line, and reads what is printed.
fn prints(rt: &impl Abort, text: &str, printed: &str) {
    let parsed = parse_line(text.as_bytes());
    assert!(rt; matches!(parsed, Parsed::Line(_)), "at {text}");
    if let Parsed::Line(line) = parsed {
        let mut out = ArrayVec::new();
        print_line(&line, &mut out);
        same!(rt; out.as_slice(), printed.as_bytes(); text);
        same!(rt; parse_line(out.as_slice()), parsed; text);
    }
}

/// Texts that spell a line, and how the line is printed: addresses, values and operands in
/// hexadecimal, all else in decimal.
const PRINTED: [(&str, &str); 26] = [
    ("machine 0x4 0x0 0x7ff 1023", "machine 4 0 2047 1023"),
    (
        "machine 10 16 7 0xffffffffffffffff",
        "machine 10 16 7 18446744073709551615",
    ),
    ("wire 0x10 0x0", "wire 16 0"),
    ("wire 18446744073709551615 1", "wire 18446744073709551615 1"),
    ("ld 0x0000000024000abc", "ld 0x24000abc"),
    ("st 0 18", "st 0x0 0x12"),
    (
        "st 18446744073709551615 4294967295",
        "st 0xffffffffffffffff 0xffffffff",
    ),
    ("pins 0x0", "pins 0"),
    ("pins 16", "pins 16"),
    ("m 0xa csrr mtopei", "m 10 csrr mtopei"),
    ("m 3 csrrw miselect 112", "m 3 csrrw miselect 0x70"),
    ("h 2 csrrw stopei 0", "h 2 csrrw stopei 0x0"),
    ("h 1 csrrc sireg 3840", "h 1 csrrc sireg 0xf00"),
    ("enter 0x0 0xf", "enter 0 15"),
    ("exit 18446744073709551615 0", "exit 18446744073709551615 0"),
    ("vm 0x2 56 0x1", "vm 2 0x38 1"),
    (
        "msi 0x1 671121408 0xffffffff",
        "msi 1 0x28008000 4294967295",
    ),
    ("entry 536870915 9", "entry 0x20000003 0x9"),
    (
        "send 0x1 671121408 0xffffffff",
        "send 1 0x28008000 4294967295",
    ),
    ("land 0x1 0x7", "land 1 7"),
    ("save 0x0 1 0x3", "save 0 1 3"),
    (
        "load 0 0x1 image 0x1 63 0x0 0 192",
        "load 0 1 image 1 63 0 0 0x00000000000000c0",
    ),
    (
        "load 0 1 majors 2 0x202",
        "load 0 1 majors 0x0000000000000002 0x0000000000000202",
    ),
    (
        "load 0 1 prio 1792 0",
        "load 0 1 prio 0x0000000000000700 0x0000000000000000",
    ),
    (
        "load 0 1 word 0x1f 1 18446744073709551615",
        "load 0 1 word 31 0x0000000000000001 0xffffffffffffffff",
    ),
    ("refetch 0x0 16", "refetch 0 16"),
];

/// Texts that lines are printed as, one for each instruction of both levels and for each CSR.
const SPELLED: [&str; 8] = [
    "m 3 csrr miselect",
    "m 0 csrrw mireg 0xf",
    "m 1 csrrs mtopei 0x0",
    "m 2 csrrc mireg 0xa",
    "h 11 csrr stopei",
    "h 0 csrrw siselect 0xc0",
    "h 0 csrrs sireg 0x10",
    "h 0 csrrc sireg 0xffffffffffffffff",
];

#[test]
fn lines_are_printed_and_read_again(rt: HostRuntime) {
    for (text, printed) in &PRINTED {
        prints(&rt, text, printed);
    }
    for text in &SPELLED {
        prints(&rt, text, text);
    }
}
