//! Whole moves of virtual harts, and what they do while they are resident.
//!
//! Made of suite/rows/guests/whole_moves.rows by suite/make: edit the rows.

ghost use Rattle.std.specs.Prelude.{◌≡◌};
ghost use Rattle.aia_model.specs.Script.{answers};
ghost use Rattle.aia_vectors.specs.Rows.{script_of, answers_of};

/// A select number of the host and one of a virtual hart that is resident: which registers read 0,
/// and which accesses are refused, for the host as illegal, for the guest as virtual.
pub const SELECT_NUMBERS_AND_THEIR_FAULTS: [(&str, &str); 15] = [
    ("machine 1 1 63 8", "ok"),
    ("vm 1 0x8 0", "ok"),
    ("arrive 0 0 0", "ok"),
    ("h 0 csrrw siselect 0x81", "0x0000000000000000"),
    ("h 0 csrr sireg", "illegal"),
    ("h 0 csrrw siselect 0x71", "0x0000000000000081"),
    ("h 0 csrrw sireg 9", "0x0000000000000000"),
    ("h 0 csrr sireg", "0x0000000000000000"),
    ("h 0 csrrw siselect 0x1030", "0x0000000000000071"),
    ("h 0 csrr siselect", "0x0000000000000030"),
    ("h 0 csrr sireg", "illegal"),
    ("g 0 0 csrrw siselect 0xc1", "0x0000000000000000"),
    ("g 0 0 csrr sireg", "virtual"),
    ("g 0 0 csrrw siselect 0x30", "0x00000000000000c1"),
    ("g 0 0 csrr sireg", "virtual"),
];

/// Proves that the model answers [`SELECT_NUMBERS_AND_THEIR_FAULTS`] as it says.
pub fn select_numbers_and_their_faults()
    ensures { answers (script_of SELECT_NUMBERS_AND_THEIR_FAULTS)
        ≡ answers_of SELECT_NUMBERS_AND_THEIR_FAULTS }
{}

/// A virtual hart is moved to memory and back while identities are pending: none is lost, also one
/// that a device asks for in between, and it reaches no CSR of its own while it is away.
pub const MOVED_WITH_REQUESTS_PENDING: [(&str, &str); 15] = [
    ("machine 1 1 63 8", "ok"),
    ("vm 1 0x8 0", "ok"),
    ("arrive 0 0 0", "ok"),
    ("g 0 0 csrrw siselect 0xc0", "0x0000000000000000"),
    ("g 0 0 csrrw sireg 0xffffffffffffffff", "0x0000000000000000"),
    ("msi 0 0x28000000 9", "ok"),
    ("msi 0 0x28000000 7", "ok"),
    ("g 0 0 csrrw stopei 0", "0x0000000000070007"),
    ("leave 0 0", "ok"),
    ("g 0 0 csrr stopei", "away"),
    ("msi 0 0x28000000 3", "ok"),
    ("arrive 0 0 0", "ok"),
    ("g 0 0 csrrw stopei 0", "0x0000000000030003"),
    ("g 0 0 csrrw stopei 0", "0x0000000000090009"),
    ("g 0 0 csrrw stopei 0", "0x0000000000000000"),
];

/// Proves that the model answers [`MOVED_WITH_REQUESTS_PENDING`] as it says.
pub fn moved_with_requests_pending()
    ensures { answers (script_of MOVED_WITH_REQUESTS_PENDING)
        ≡ answers_of MOVED_WITH_REQUESTS_PENDING }
{}

/// Stores of identities above the greatest one of a file, up to 2047 and past it, and of 0, while a
/// virtual hart is parked: no notice is sent, and its file has none of them.
pub const IDENTITIES_OF_NO_FILE: [(&str, &str); 14] = [
    ("machine 1 1 63 8", "ok"),
    ("vm 1 0x8 0", "ok"),
    ("arrive 0 0 0", "ok"),
    ("g 0 0 csrrw siselect 0xc0", "0x0000000000000000"),
    ("g 0 0 csrrw sireg 0xffffffffffffffff", "0x0000000000000000"),
    ("leave 0 0", "ok"),
    ("msi 0 0x28000000 70", "ok"),
    ("msi 0 0x28000000 2047", "ok"),
    ("msi 0 0x28000000 2048", "ok"),
    ("msi 0 0x28000000 0", "ok"),
    ("h 0 csrrw siselect 0x80", "0x0000000000000000"),
    ("h 0 csrr sireg", "0x0000000000000000"),
    ("arrive 0 0 0", "ok"),
    ("g 0 0 csrr stopei", "0x0000000000000000"),
];

/// Proves that the model answers [`IDENTITIES_OF_NO_FILE`] as it says.
pub fn identities_of_no_file()
    ensures { answers (script_of IDENTITIES_OF_NO_FILE) ≡ answers_of IDENTITIES_OF_NO_FILE }
{}

/// One virtual hart asks at another: hgeip shows the guest file that signals, the notice comes once
/// the other is parked, and a shift takes the least free file of its hart or is refused.
pub const PEERS_SIGNALS_AND_SHIFTS: [(&str, &str); 21] = [
    ("machine 1 2 63 8", "ok"),
    ("vm 2 0x8 0", "ok"),
    ("arrive 0 0 0", "ok"),
    ("arrive 0 1 0", "ok"),
    ("g 0 1 csrrw siselect 0xc0", "0x0000000000000000"),
    ("g 0 1 csrrw sireg 0x40", "0x0000000000000000"),
    ("g 0 1 csrrw siselect 0x70", "0x00000000000000c0"),
    ("g 0 1 csrrw sireg 1", "0x0000000000000000"),
    ("g 0 0 ipi 1 6", "ok"),
    ("h 0 hgeip", "0x0000000000000004"),
    ("leave 0 1", "ok"),
    ("h 0 hgeip", "0x0000000000000000"),
    ("h 0 csrrw siselect 0x80", "0x0000000000000000"),
    ("h 0 csrrw sireg 0", "0x0000000000000004"),
    ("g 0 0 ipi 1 6", "ok"),
    ("h 0 csrr sireg", "0x0000000000000004"),
    ("shift 0 0 0", "ok"),
    ("arrive 0 1 0", "ok"),
    ("shift 0 0 0", "nofile"),
    ("shift 0 0 1", "range"),
    ("g 0 1 csrrw stopei 0", "0x0000000000060006"),
];

/// Proves that the model answers [`PEERS_SIGNALS_AND_SHIFTS`] as it says.
pub fn peers_signals_and_shifts()
    ensures { answers (script_of PEERS_SIGNALS_AND_SHIFTS) ≡ answers_of PEERS_SIGNALS_AND_SHIFTS }
{}

/// The notice of a parked virtual hart goes to the supervisor file of its VM's notice hart, and to
/// that of no other hart.
pub const NOTICES_GO_TO_THE_NOTICE_HART: [(&str, &str); 11] = [
    ("machine 2 1 63 8", "ok"),
    ("vm 1 0x8 1", "ok"),
    ("arrive 0 0 0", "ok"),
    ("g 0 0 csrrw siselect 0xc0", "0x0000000000000000"),
    ("g 0 0 csrrw sireg 0x20", "0x0000000000000000"),
    ("leave 0 0", "ok"),
    ("msi 0 0x28000000 5", "ok"),
    ("h 0 csrrw siselect 0x80", "0x0000000000000000"),
    ("h 0 csrr sireg", "0x0000000000000000"),
    ("h 1 csrrw siselect 0x80", "0x0000000000000000"),
    ("h 1 csrr sireg", "0x0000000000000002"),
];

/// Proves that the model answers [`NOTICES_GO_TO_THE_NOTICE_HART`] as it says.
pub fn notices_go_to_the_notice_hart()
    ensures { answers (script_of NOTICES_GO_TO_THE_NOTICE_HART)
        ≡ answers_of NOTICES_GO_TO_THE_NOTICE_HART }
{}

/// The identity of a notice is the number of the virtual hart over all VMs, counted from 1, and a
/// notice is sent also where the identity is pending already.
pub const NOTICES_ARE_NUMBERED_OVER_ALL_VMS: [(&str, &str); 14] = [
    ("machine 1 2 63 8", "ok"),
    ("vm 1 0x8 0", "ok"),
    ("vm 1 0x8 0", "ok"),
    ("arrive 1 0 0", "ok"),
    ("g 1 0 csrrw siselect 0xc0", "0x0000000000000000"),
    ("g 1 0 csrrw sireg 0x20", "0x0000000000000000"),
    ("leave 1 0", "ok"),
    ("h 0 csrrw siselect 0x80", "0x0000000000000000"),
    ("msi 1 0x28000000 6", "ok"),
    ("h 0 csrr sireg", "0x0000000000000000"),
    ("msi 1 0x28000000 5", "ok"),
    ("h 0 csrrw sireg 0", "0x0000000000000004"),
    ("msi 1 0x28000000 5", "ok"),
    ("h 0 csrr sireg", "0x0000000000000004"),
];

/// Proves that the model answers [`NOTICES_ARE_NUMBERED_OVER_ALL_VMS`] as it says.
pub fn notices_are_numbered_over_all_vms()
    ensures { answers (script_of NOTICES_ARE_NUMBERED_OVER_ALL_VMS)
        ≡ answers_of NOTICES_ARE_NUMBERED_OVER_ALL_VMS }
{}

/// A leave sends the notice at its end where an identity was pending and enabled, and sends none
/// where none was.
pub const LEAVE_POSTS_WHAT_ITS_LOOKS_SAW: [(&str, &str); 13] = [
    ("machine 1 1 63 8", "ok"),
    ("vm 1 0x8 0", "ok"),
    ("arrive 0 0 0", "ok"),
    ("g 0 0 csrrw siselect 0xc0", "0x0000000000000000"),
    ("g 0 0 csrrw sireg 0xffffffffffffffff", "0x0000000000000000"),
    ("h 0 csrrw siselect 0x80", "0x0000000000000000"),
    ("msi 0 0x28000000 5", "ok"),
    ("leave 0 0", "ok"),
    ("h 0 csrrw sireg 0", "0x0000000000000002"),
    ("arrive 0 0 0", "ok"),
    ("g 0 0 csrrw stopei 0", "0x0000000000050005"),
    ("leave 0 0", "ok"),
    ("h 0 csrr sireg", "0x0000000000000000"),
];

/// Proves that the model answers [`LEAVE_POSTS_WHAT_ITS_LOOKS_SAW`] as it says.
pub fn leave_posts_what_its_looks_saw()
    ensures { answers (script_of LEAVE_POSTS_WHAT_ITS_LOOKS_SAW)
        ≡ answers_of LEAVE_POSTS_WHAT_ITS_LOOKS_SAW }
{}

/// A threshold and eidelivery go with a shift, and hgeip shows the new guest file.
pub const NUMBERS_GO_WITH_A_SHIFT: [(&str, &str); 17] = [
    ("machine 1 2 63 8", "ok"),
    ("vm 1 0x8 0", "ok"),
    ("arrive 0 0 0", "ok"),
    ("g 0 0 csrrw siselect 0x72", "0x0000000000000000"),
    ("g 0 0 csrrw sireg 6", "0x0000000000000000"),
    ("g 0 0 csrrw siselect 0xc0", "0x0000000000000072"),
    ("g 0 0 csrrw sireg 0x60", "0x0000000000000000"),
    ("g 0 0 csrrw siselect 0x70", "0x00000000000000c0"),
    ("g 0 0 csrrw sireg 1", "0x0000000000000000"),
    ("msi 0 0x28000000 6", "ok"),
    ("shift 0 0 0", "ok"),
    ("g 0 0 csrr sireg", "0x0000000000000001"),
    ("g 0 0 csrr stopei", "0x0000000000000000"),
    ("h 0 hgeip", "0x0000000000000000"),
    ("msi 0 0x28000000 5", "ok"),
    ("g 0 0 csrr stopei", "0x0000000000050005"),
    ("h 0 hgeip", "0x0000000000000004"),
];

/// Proves that the model answers [`NUMBERS_GO_WITH_A_SHIFT`] as it says.
pub fn numbers_go_with_a_shift()
    ensures { answers (script_of NUMBERS_GO_WITH_A_SHIFT) ≡ answers_of NUMBERS_GO_WITH_A_SHIFT }
{}
