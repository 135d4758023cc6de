//! Machines of all sizes: how many harts, guest files, identities and wired sources there are.
//!
//! Made of suite/rows/machines.rows by suite/make: edit the rows.

ghost use Rattle.std.specs.Prelude.{◌≡◌};
ghost use Rattle.aia_model.specs.Script.{answers};
ghost use Rattle.aia_vectors.specs.Rows.{script_of, answers_of};

/// The greatest machine: the supervisor file of its last hart keeps its last identity, and beyond
/// it, beyond the last guest file and beyond the last hart there is nothing.
pub const GREATEST_MACHINE: [(&str, &str); 13] = [
    ("machine 4 31 2047 1023", "ok"),
    ("st 0x2807f000 1", "guarded"),
    ("st 0x28080000 1", "fault"),
    ("st 0x24004000 1", "fault"),
    ("h 4 csrr stopei", "range"),
    ("pins 4", "range"),
    ("h 3 csrrw siselect 0xfe", "0x0000000000000000"),
    ("h 3 csrrw sireg 0x8000000000000000", "0x0000000000000000"),
    ("st 0x28060000 2048", "ok"),
    ("st 0x28060000 2047", "ok"),
    ("h 3 csrr stopei", "0x0000000007ff07ff"),
    ("h 3 csrrw siselect 0xbe", "0x00000000000000fe"),
    ("h 3 csrr sireg", "0x8000000000000000"),
];

/// Proves that the model answers [`GREATEST_MACHINE`] as it says.
pub fn the_greatest_machine()
    ensures { answers (script_of GREATEST_MACHINE) ≡ answers_of GREATEST_MACHINE }
{}

/// The machine-level file of the last hart of the greatest machine claims its last identity.
pub const LAST_MACHINE_LEVEL_FILE: [(&str, &str); 7] = [
    ("machine 4 31 2047 1023", "ok"),
    ("m 3 csrrw miselect 0xfe", "0x0000000000000000"),
    ("m 3 csrrw mireg 0x8000000000000000", "0x0000000000000000"),
    ("st 0x24003004 0xff070000", "ok"),
    ("m 3 csrrw mtopei 0", "0x0000000007ff07ff"),
    ("m 3 csrr mtopei", "0x0000000000000000"),
    ("m 4 csrr mtopei", "range"),
];

/// Proves that the model answers [`LAST_MACHINE_LEVEL_FILE`] as it says.
pub fn the_last_machine_level_file()
    ensures { answers (script_of LAST_MACHINE_LEVEL_FILE) ≡ answers_of LAST_MACHINE_LEVEL_FILE }
{}

/// The last source of the greatest machine, aimed at the last hart, is on top for it.
pub const LAST_SOURCE_OF_THE_LAST_HART: [(&str, &str); 9] = [
    ("machine 4 31 2047 1023", "ok"),
    ("wire 1023 1", "ok"),
    ("wire 1024 1", "range"),
    ("st 0x0c000ffc 6", "ok"),
    ("ld 0x0c001c7c", "0x80000000"),
    ("st 0x0c003ffc 0x000c0005", "ok"),
    ("st 0x0c001edc 1023", "ok"),
    ("ld 0x0c004078", "0x03ff0005"),
    ("ld 0x0c004058", "0x00000000"),
];

/// Proves that the model answers [`LAST_SOURCE_OF_THE_LAST_HART`] as it says.
pub fn the_last_source_of_the_last_hart()
    ensures { answers (script_of LAST_SOURCE_OF_THE_LAST_HART)
        ≡ answers_of LAST_SOURCE_OF_THE_LAST_HART }
{}

/// A machine of three harts with three guest files each: the last hart's files, its delivery
/// control and the pages of its guest files are there, and those of a fourth hart are not.
pub const THREE_HARTS_WITH_THREE_GUEST_FILES: [(&str, &str); 25] = [
    ("machine 3 3 63 8", "ok"),
    ("pins 2", "pins 0 0 0 0"),
    ("pins 3", "range"),
    ("ld 0x28043000", "guarded"),
    ("ld 0x28044000", "fault"),
    ("ld 0x28060000", "fault"),
    ("ld 0x24003000", "fault"),
    ("h 2 csrrw siselect 0xc0", "0x0000000000000000"),
    ("h 2 csrrw sireg 0x20", "0x0000000000000000"),
    ("st 0x28040000 5", "ok"),
    ("h 2 csrr stopei", "0x0000000000050005"),
    ("h 0 csrr stopei", "0x0000000000000000"),
    ("h 3 csrr stopei", "range"),
    ("m 2 csrrw miselect 0xc0", "0x0000000000000000"),
    ("m 2 csrrw mireg 2", "0x0000000000000000"),
    ("st 0x24002000 1", "ok"),
    ("m 2 csrr mtopei", "0x0000000000010001"),
    ("st 0x0c000004 6", "ok"),
    ("st 0x0c003004 0x80007", "ok"),
    ("st 0x0c001edc 1", "ok"),
    ("wire 1 1", "ok"),
    ("ld 0x0c004058", "0x00010007"),
    ("st 0x0c003004 0xc0007", "ok"),
    ("ld 0x0c003004", "0x00000007"),
    ("ld 0x0c004058", "0x00000000"),
];

/// Proves that the model answers [`THREE_HARTS_WITH_THREE_GUEST_FILES`] as it says.
pub fn three_harts_with_three_guest_files()
    ensures { answers (script_of THREE_HARTS_WITH_THREE_GUEST_FILES)
        ≡ answers_of THREE_HARTS_WITH_THREE_GUEST_FILES }
{}

/// The pages of four guest files lie above the supervisor file of their hart.
pub const FOUR_GUEST_FILES: [(&str, &str); 6] = [
    ("machine 2 4 63 1", "ok"),
    ("st 0x28004000 1", "guarded"),
    ("st 0x28005000 1", "fault"),
    ("st 0x28024000 1", "guarded"),
    ("st 0x28025000 1", "fault"),
    ("ld 0x28020000", "0x00000000"),
];

/// Proves that the model answers [`FOUR_GUEST_FILES`] as it says.
pub fn four_guest_files()
    ensures { answers (script_of FOUR_GUEST_FILES) ≡ answers_of FOUR_GUEST_FILES }
{}

/// The pages of seventeen guest files lie above the supervisor file of their hart.
pub const SEVENTEEN_GUEST_FILES: [(&str, &str); 6] = [
    ("machine 2 17 63 1", "ok"),
    ("st 0x28011000 1", "guarded"),
    ("st 0x28012000 1", "fault"),
    ("st 0x28031000 1", "guarded"),
    ("st 0x28032000 1", "fault"),
    ("ld 0x28020000", "0x00000000"),
];

/// Proves that the model answers [`SEVENTEEN_GUEST_FILES`] as it says.
pub fn seventeen_guest_files()
    ensures { answers (script_of SEVENTEEN_GUEST_FILES) ≡ answers_of SEVENTEEN_GUEST_FILES }
{}

/// The pages of thirty guest files lie above the supervisor file of their hart, and the last page
/// before the next hart's is no file's.
pub const THIRTY_GUEST_FILES: [(&str, &str); 6] = [
    ("machine 2 30 63 1", "ok"),
    ("st 0x2801e000 1", "guarded"),
    ("st 0x2801f000 1", "fault"),
    ("st 0x2803e000 1", "guarded"),
    ("st 0x2803f000 1", "fault"),
    ("ld 0x28020000", "0x00000000"),
];

/// Proves that the model answers [`THIRTY_GUEST_FILES`] as it says.
pub fn thirty_guest_files()
    ensures { answers (script_of THIRTY_GUEST_FILES) ≡ answers_of THIRTY_GUEST_FILES }
{}

/// A hart has at most 31 guest files. Their pages fill what lies between its supervisor file and
/// the next hart's, which keeps what is stored to it; and memory ends right before 0x8000c000.
pub const THIRTY_ONE_GUEST_FILES: [(&str, &str); 14] = [
    ("machine 1 32 63 8", "range"),
    ("machine 2 31 63 8", "ok"),
    ("st 0x28020000 5", "ok"),
    ("h 1 csrrw siselect 0x80", "0x0000000000000000"),
    ("h 1 csrr sireg", "0x0000000000000020"),
    ("st 0x28008000 5", "guarded"),
    ("st 0x2801f000 1", "guarded"),
    ("st 0x28021000 1", "guarded"),
    ("st 0x2803f000 1", "guarded"),
    ("st 0x2803f002 1", "fault"),
    ("st 0x28040000 1", "fault"),
    ("h 1 csrr sireg", "0x0000000000000020"),
    ("ld 0x8000bffc", "guarded"),
    ("ld 0x8000c000", "fault"),
];

/// Proves that the model answers [`THIRTY_ONE_GUEST_FILES`] as it says.
pub fn thirty_one_guest_files()
    ensures { answers (script_of THIRTY_ONE_GUEST_FILES) ≡ answers_of THIRTY_ONE_GUEST_FILES }
{}

/// A file with the identities 1 to 255 keeps the last of them, and none above; its threshold is
/// kept modulo 256.
pub const IDENTITIES_UP_TO_255: [(&str, &str); 18] = [
    ("machine 1 1 255 8", "ok"),
    ("h 0 csrrw siselect 0xc6", "0x0000000000000000"),
    ("h 0 csrrw sireg 0x8000000000000000", "0x0000000000000000"),
    ("st 0x28000000 256", "ok"),
    ("h 0 csrr stopei", "0x0000000000000000"),
    ("st 0x28000000 255", "ok"),
    ("h 0 csrr stopei", "0x0000000000ff00ff"),
    ("h 0 csrrw siselect 0x86", "0x00000000000000c6"),
    ("h 0 csrr sireg", "0x8000000000000000"),
    ("h 0 csrrw siselect 0xc8", "0x0000000000000086"),
    ("h 0 csrrw sireg 0xffffffffffffffff", "0x0000000000000000"),
    ("h 0 csrr sireg", "0x0000000000000000"),
    ("h 0 csrrw siselect 0x72", "0x00000000000000c8"),
    ("h 0 csrrw sireg 255", "0x0000000000000000"),
    ("h 0 csrr stopei", "0x0000000000000000"),
    ("h 0 csrrw sireg 256", "0x00000000000000ff"),
    ("h 0 csrrw stopei 0", "0x0000000000ff00ff"),
    ("h 0 csrr stopei", "0x0000000000000000"),
];

/// Proves that the model answers [`IDENTITIES_UP_TO_255`] as it says.
pub fn identities_up_to_255()
    ensures { answers (script_of IDENTITIES_UP_TO_255) ≡ answers_of IDENTITIES_UP_TO_255 }
{}

/// A file with the identities 1 to 511 keeps the last of them, and none above; its threshold is
/// kept modulo 512.
pub const IDENTITIES_UP_TO_511: [(&str, &str); 18] = [
    ("machine 1 1 511 8", "ok"),
    ("h 0 csrrw siselect 0xce", "0x0000000000000000"),
    ("h 0 csrrw sireg 0x8000000000000000", "0x0000000000000000"),
    ("st 0x28000000 512", "ok"),
    ("h 0 csrr stopei", "0x0000000000000000"),
    ("st 0x28000000 511", "ok"),
    ("h 0 csrr stopei", "0x0000000001ff01ff"),
    ("h 0 csrrw siselect 0x8e", "0x00000000000000ce"),
    ("h 0 csrr sireg", "0x8000000000000000"),
    ("h 0 csrrw siselect 0xd0", "0x000000000000008e"),
    ("h 0 csrrw sireg 0xffffffffffffffff", "0x0000000000000000"),
    ("h 0 csrr sireg", "0x0000000000000000"),
    ("h 0 csrrw siselect 0x72", "0x00000000000000d0"),
    ("h 0 csrrw sireg 511", "0x0000000000000000"),
    ("h 0 csrr stopei", "0x0000000000000000"),
    ("h 0 csrrw sireg 512", "0x00000000000001ff"),
    ("h 0 csrrw stopei 0", "0x0000000001ff01ff"),
    ("h 0 csrr stopei", "0x0000000000000000"),
];

/// Proves that the model answers [`IDENTITIES_UP_TO_511`] as it says.
pub fn identities_up_to_511()
    ensures { answers (script_of IDENTITIES_UP_TO_511) ≡ answers_of IDENTITIES_UP_TO_511 }
{}

/// A file with the identities 1 to 1023 keeps the last of them, and none above; its threshold is
/// kept modulo 1024.
pub const IDENTITIES_UP_TO_1023: [(&str, &str); 18] = [
    ("machine 1 1 1023 8", "ok"),
    ("h 0 csrrw siselect 0xde", "0x0000000000000000"),
    ("h 0 csrrw sireg 0x8000000000000000", "0x0000000000000000"),
    ("st 0x28000000 1024", "ok"),
    ("h 0 csrr stopei", "0x0000000000000000"),
    ("st 0x28000000 1023", "ok"),
    ("h 0 csrr stopei", "0x0000000003ff03ff"),
    ("h 0 csrrw siselect 0x9e", "0x00000000000000de"),
    ("h 0 csrr sireg", "0x8000000000000000"),
    ("h 0 csrrw siselect 0xe0", "0x000000000000009e"),
    ("h 0 csrrw sireg 0xffffffffffffffff", "0x0000000000000000"),
    ("h 0 csrr sireg", "0x0000000000000000"),
    ("h 0 csrrw siselect 0x72", "0x00000000000000e0"),
    ("h 0 csrrw sireg 1023", "0x0000000000000000"),
    ("h 0 csrr stopei", "0x0000000000000000"),
    ("h 0 csrrw sireg 1024", "0x00000000000003ff"),
    ("h 0 csrrw stopei 0", "0x0000000003ff03ff"),
    ("h 0 csrr stopei", "0x0000000000000000"),
];

/// Proves that the model answers [`IDENTITIES_UP_TO_1023`] as it says.
pub fn identities_up_to_1023()
    ensures { answers (script_of IDENTITIES_UP_TO_1023) ≡ answers_of IDENTITIES_UP_TO_1023 }
{}

/// Memory has twelve pages from 0x80000000 on: what is there is guarded, and before it, after it
/// and at its copies above 2^32 there is no place.
pub const MEMORY_IS_GUARDED: [(&str, &str); 17] = [
    ("ld 0x80000000", "nomachine"),
    ("machine 1 0 63 8", "ok"),
    ("ld 0x80000000", "guarded"),
    ("st 0x80000000 1", "guarded"),
    ("ld 0x80003ffc", "guarded"),
    ("ld 0x80004000", "guarded"),
    ("ld 0x80006000", "guarded"),
    ("ld 0x8000bffc", "guarded"),
    ("st 0x8000bffc 1", "guarded"),
    ("ld 0x80000002", "fault"),
    ("st 0x8000bffe 1", "fault"),
    ("ld 0x7ffffffc", "fault"),
    ("st 0x7ffffffc 1", "fault"),
    ("ld 0x8000c000", "fault"),
    ("st 0x8000c000 1", "fault"),
    ("ld 0x8000dffc", "fault"),
    ("ld 0x180000000", "fault"),
];

/// Proves that the model answers [`MEMORY_IS_GUARDED`] as it says.
pub fn memory_is_guarded()
    ensures { answers (script_of MEMORY_IS_GUARDED) ≡ answers_of MEMORY_IS_GUARDED }
{}
