//! The majors of virtual harts: what the hypervisor sets of them, and what guests read.
//!
//! Made of suite/rows/guests/majors.rows by suite/make: edit the rows.

ghost use Rattle.std.specs.Prelude.{◌≡◌};
ghost use Rattle.aia_model.specs.Script.{answers};
ghost use Rattle.aia_vectors.specs.Rows.{script_of, answers_of};

/// What stopi shows of the external interrupt and an injected one, by the bytes of hviprio1 and by
/// the fields of hvictl; sip reads the external one by the signal of the file; VTI keeps sip away.
pub const MAJORS_OF_A_VIRTUAL_HART: [(&str, &str); 27] = [
    ("machine 1 1 511 8", "ok"),
    ("vm 1 0x8 0", "ok"),
    ("arrive 0 0 0", "ok"),
    ("g 0 0 csrrw siselect 0xc0", "0x0000000000000000"),
    ("g 0 0 csrrw sireg 0x80", "0x0000000000000000"),
    ("g 0 0 csrrw siselect 0x70", "0x00000000000000c0"),
    ("g 0 0 csrrw sireg 1", "0x0000000000000000"),
    ("g 0 0 csrrw sie 0x202", "0x0000000000000000"),
    ("msi 0 0x28000000 7", "ok"),
    ("inject 0 0 1 1", "ok"),
    ("hvictl 0 0 0x100", "ok"),
    ("hviprio 0 0 0x700", "ok"),
    ("g 0 0 csrr stopi", "0x0000000000090007"),
    ("hviprio 0 0 0x600", "ok"),
    ("g 0 0 csrr stopi", "0x0000000000010006"),
    ("hviprio 0 0 0", "ok"),
    ("g 0 0 csrr stopi", "0x0000000000090007"),
    ("hvictl 0 0 0x400d0100", "ok"),
    ("g 0 0 csrr stopi", "0x00000000000d0000"),
    ("hvictl 0 0 0x400d0300", "ok"),
    ("g 0 0 csrr stopi", "0x0000000000090007"),
    ("g 0 0 csrr sip", "virtual"),
    ("hvictl 0 0 0x40000000", "range"),
    ("hvictl 0 0 0", "ok"),
    ("g 0 0 csrr stopi", "0x0000000000090001"),
    ("g 0 0 csrr sip", "0x0000000000000202"),
    ("h 0 hgeip", "0x0000000000000002"),
];

/// Proves that the model answers [`MAJORS_OF_A_VIRTUAL_HART`] as it says.
pub fn majors_of_a_virtual_hart()
    ensures { answers (script_of MAJORS_OF_A_VIRTUAL_HART) ≡ answers_of MAJORS_OF_A_VIRTUAL_HART }
{}

/// The identity on top is above 255, which stopi shows as 255; a write of stopi is illegal.
pub const IDENTITIES_ABOVE_255_IN_STOPI: [(&str, &str); 13] = [
    ("machine 1 1 511 8", "ok"),
    ("vm 1 0x8 0", "ok"),
    ("arrive 0 0 0", "ok"),
    ("g 0 0 csrrw siselect 0xc8", "0x0000000000000000"),
    ("g 0 0 csrrw sireg 0x100000000000", "0x0000000000000000"),
    ("g 0 0 csrrw siselect 0x70", "0x00000000000000c8"),
    ("g 0 0 csrrw sireg 1", "0x0000000000000000"),
    ("g 0 0 csrrw sie 0x200", "0x0000000000000000"),
    ("hvictl 0 0 0x100", "ok"),
    ("msi 0 0x28000000 300", "ok"),
    ("g 0 0 csrr stopei", "0x00000000012c012c"),
    ("g 0 0 csrr stopi", "0x00000000000900ff"),
    ("g 0 0 csrrw stopi 0", "illegal"),
];

/// Proves that the model answers [`IDENTITIES_ABOVE_255_IN_STOPI`] as it says.
pub fn identities_above_255_in_stopi()
    ensures { answers (script_of IDENTITIES_ABOVE_255_IN_STOPI)
        ≡ answers_of IDENTITIES_ABOVE_255_IN_STOPI }
{}

/// A major that isn't one of the four is refused; of sip a guest writes only the majors 1 and 13; a
/// virtual hart that is parked reaches no CSR, whatever would be wrong with the access.
pub const MAJORS_THAT_A_GUEST_WRITES: [(&str, &str); 10] = [
    ("machine 1 1 63 8", "ok"),
    ("vm 1 0x8 0", "ok"),
    ("arrive 0 0 0", "ok"),
    ("g 0 0 csrrw siselect 0xc0", "0x0000000000000000"),
    ("g 0 0 csrrw sireg 0xffffffffffffffff", "0x0000000000000000"),
    ("inject 0 0 2 1", "range"),
    ("g 0 0 csrrw sip 0x2222", "0x0000000000000000"),
    ("g 0 0 csrr sip", "0x0000000000002002"),
    ("leave 0 0", "ok"),
    ("g 0 0 csrrw stopi 0", "away"),
];

/// Proves that the model answers [`MAJORS_THAT_A_GUEST_WRITES`] as it says.
pub fn majors_that_a_guest_writes()
    ensures { answers (script_of MAJORS_THAT_A_GUEST_WRITES)
        ≡ answers_of MAJORS_THAT_A_GUEST_WRITES }
{}

/// Which major is on top where numbers are equal, by DPR; priorities of 0, and above 255; a named
/// major that needs no bit of sip; the majors 5 and 13 by their bytes.
pub const TIES_OF_MAJORS: [(&str, &str); 30] = [
    ("machine 1 1 63 8", "ok"),
    ("vm 1 0x8 0", "ok"),
    ("arrive 0 0 0", "ok"),
    ("g 0 0 csrrw siselect 0xc0", "0x0000000000000000"),
    ("g 0 0 csrrw sireg 0xffffffffffffffff", "0x0000000000000000"),
    ("g 0 0 csrrw sie 0x2222", "0x0000000000000000"),
    ("inject 0 0 9 1", "ok"),
    ("msi 0 0x28000000 5", "ok"),
    ("hvictl 0 0 0x40010105", "ok"),
    ("g 0 0 csrr stopi", "0x0000000000010005"),
    ("hvictl 0 0 0x40010305", "ok"),
    ("g 0 0 csrr stopi", "0x0000000000090005"),
    ("hvictl 0 0 0x40010304", "ok"),
    ("g 0 0 csrr stopi", "0x0000000000010004"),
    ("g 0 0 csrrw stopei 0", "0x0000000000050005"),
    ("g 0 0 csrr stopi", "0x0000000000010004"),
    ("hvictl 0 0 0x40010300", "ok"),
    ("g 0 0 csrr stopi", "0x00000000000900ff"),
    ("hvictl 0 0 0x40090100", "ok"),
    ("g 0 0 csrr stopi", "0x00000000000900ff"),
    ("hvictl 0 0 0x403f0000", "ok"),
    ("g 0 0 csrr stopi", "0x00000000003f0001"),
    ("hvictl 0 0 0x100", "ok"),
    ("inject 0 0 13 1", "ok"),
    ("inject 0 0 5 1", "ok"),
    ("g 0 0 csrr stopi", "0x00000000000900ff"),
    ("inject 0 0 9 0", "ok"),
    ("g 0 0 csrr stopi", "0x00000000000500ff"),
    ("hviprio 0 0 0xff0000000000", "ok"),
    ("g 0 0 csrr stopi", "0x00000000000d00ff"),
];

/// Proves that the model answers [`TIES_OF_MAJORS`] as it says.
pub fn ties_of_majors()
    ensures { answers (script_of TIES_OF_MAJORS) ≡ answers_of TIES_OF_MAJORS }
{}

/// Each CSR instruction on sip and sie: which bits a guest sets and clears, and what it read
/// before; csrrs and csrrc read the signal of the file at bit 9 of sip, and keep nothing of it.
pub const SIP_AND_SIE_BY_EACH_INSTRUCTION: [(&str, &str); 25] = [
    ("machine 1 1 63 8", "ok"),
    ("vm 1 0x8 0", "ok"),
    ("arrive 0 0 0", "ok"),
    ("g 0 0 csrrw sie 0xffffffffffffffff", "0x0000000000000000"),
    ("g 0 0 csrrc sie 0x2020", "0x0000000000002222"),
    ("g 0 0 csrrs sie 0x20", "0x0000000000000202"),
    ("g 0 0 csrr sie", "0x0000000000000222"),
    ("inject 0 0 1 1", "ok"),
    ("inject 0 0 5 1", "ok"),
    ("inject 0 0 13 1", "ok"),
    ("g 0 0 csrr sip", "0x0000000000002022"),
    ("g 0 0 csrrc sip 0x2020", "0x0000000000002022"),
    ("g 0 0 csrr sip", "0x0000000000000022"),
    ("inject 0 0 1 0", "ok"),
    ("g 0 0 csrr sip", "0x0000000000000020"),
    ("g 0 0 csrrw siselect 0xc0", "0x0000000000000000"),
    ("g 0 0 csrrw sireg 0x20", "0x0000000000000000"),
    ("g 0 0 csrrw siselect 0x70", "0x00000000000000c0"),
    ("g 0 0 csrrw sireg 1", "0x0000000000000000"),
    ("msi 0 0x28000000 5", "ok"),
    ("g 0 0 csrrs sip 0x2", "0x0000000000000220"),
    ("g 0 0 csrrw stopei 0", "0x0000000000050005"),
    ("g 0 0 csrr sip", "0x0000000000000022"),
    ("g 0 0 csrrw sip 0", "0x0000000000000022"),
    ("g 0 0 csrr sip", "0x0000000000000020"),
];

/// Proves that the model answers [`SIP_AND_SIE_BY_EACH_INSTRUCTION`] as it says.
pub fn sip_and_sie_by_each_instruction()
    ensures { answers (script_of SIP_AND_SIE_BY_EACH_INSTRUCTION)
        ≡ answers_of SIP_AND_SIE_BY_EACH_INSTRUCTION }
{}

/// A line on majors is refused where the virtual hart isn't there, the bit is none of the four, or
/// hvictl has VTI and an IID of 0 or above 63; with VTI 0 every IID is taken. Nothing is cut.
pub const MAJORS_ARE_REFUSED: [(&str, &str); 31] = [
    ("inject 0 0 1 1", "nomachine"),
    ("machine 1 1 63 8", "ok"),
    ("inject 0 0 1 1", "range"),
    ("vm 1 0x8 0", "ok"),
    ("inject 1 0 1 1", "range"),
    ("inject 0 1 1 1", "range"),
    ("hvictl 0 1 0", "range"),
    ("hviprio 1 0 0", "range"),
    ("inject 0 0 0 1", "range"),
    ("inject 0 0 12 1", "range"),
    ("inject 0 0 4294967297 1", "range"),
    ("inject 0 4294967296 1 1", "range"),
    ("inject 0 0 1 2", "bad"),
    ("hvictl 0 0 0x40400000", "range"),
    ("hvictl 0 0 0x40000000", "range"),
    ("hvictl 0 0 0x400000", "ok"),
    ("hvictl 0 0 0x403f0000", "ok"),
    ("arrive 0 0 0", "ok"),
    ("g 0 0 csrr sip", "virtual"),
    ("g 0 0 csrrw sie 0", "virtual"),
    ("g 0 0 csrr stopi", "0x00000000003f0001"),
    ("g 0 0 csrrs stopi 0", "illegal"),
    ("hvictl 0 0 0xffffffffbfffffff", "ok"),
    ("g 0 0 csrr sip", "0x0000000000000000"),
    ("g 0 0 csrr stopi", "0x0000000000000000"),
    ("g 1 0 csrr stopi", "range"),
    ("leave 0 0", "ok"),
    ("g 0 0 csrr stopi", "away"),
    ("g 0 0 csrrw stopi 0", "away"),
    ("g 0 0 csrr mtopei", "bad"),
    ("h 0 csrr stopi", "bad"),
];

/// Proves that the model answers [`MAJORS_ARE_REFUSED`] as it says.
pub fn majors_are_refused()
    ensures { answers (script_of MAJORS_ARE_REFUSED) ≡ answers_of MAJORS_ARE_REFUSED }
{}

/// What is set of a virtual hart's majors while it is parked stands when it arrives, each for that
/// virtual hart alone; no move changes them.
pub const MAJORS_OF_PARKED_VIRTUAL_HARTS: [(&str, &str); 22] = [
    ("machine 2 2 63 8", "ok"),
    ("vm 2 0x8 0", "ok"),
    ("inject 0 0 13 1", "ok"),
    ("inject 0 1 5 1", "ok"),
    ("hviprio 0 1 0x4000000", "ok"),
    ("hvictl 0 1 0x100", "ok"),
    ("arrive 0 0 0", "ok"),
    ("arrive 0 1 1", "ok"),
    ("g 0 0 csrr sip", "0x0000000000002000"),
    ("g 0 1 csrr sip", "0x0000000000000020"),
    ("g 0 0 csrrw sie 0x2222", "0x0000000000000000"),
    ("g 0 1 csrrw sie 0x2222", "0x0000000000000000"),
    ("g 0 0 csrr stopi", "0x00000000000d0001"),
    ("g 0 1 csrr stopi", "0x0000000000050004"),
    ("shift 0 1 0", "ok"),
    ("g 0 1 csrr stopi", "0x0000000000050004"),
    ("leave 0 1", "ok"),
    ("inject 0 1 5 0", "ok"),
    ("arrive 0 1 1", "ok"),
    ("g 0 1 csrr stopi", "0x0000000000000000"),
    ("g 0 1 csrr sie", "0x0000000000002222"),
    ("g 0 0 csrr stopi", "0x00000000000d0001"),
];

/// Proves that the model answers [`MAJORS_OF_PARKED_VIRTUAL_HARTS`] as it says.
pub fn majors_of_parked_virtual_harts()
    ensures { answers (script_of MAJORS_OF_PARKED_VIRTUAL_HARTS)
        ≡ answers_of MAJORS_OF_PARKED_VIRTUAL_HARTS }
{}
