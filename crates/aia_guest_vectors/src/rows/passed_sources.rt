//! Wired sources that are passed to virtual harts.
//!
//! Made of suite/rows/guests/passed_sources.rows by suite/make: edit the rows.

ghost use Rattle.std.specs.Prelude.{◌≡◌};
ghost use Rattle.aia_model.specs.Script.{answers};
ghost use Rattle.aia_vectors.specs.Rows.{script_of, answers_of};

/// A source is passed to a resident virtual hart, which leaves: the step after the fence of the
/// G-stage record gives the source its new target, and what was forwarded before it is carried
/// along.
pub const PASSED_SOURCE_DURING_A_LEAVE: [(&str, &str); 42] = [
    ("machine 1 1 63 8", "ok"),
    ("st 0x0c000004 0x400", "ok"),
    ("st 0x0c008004 4", "ok"),
    ("st 0x0c008000 0x104", "ok"),
    ("st 0x0c001bc4 0x2000", "ok"),
    ("st 0x0c001bc8 0x28000", "ok"),
    ("st 0x0c001bcc 0x500000", "ok"),
    ("st 0x0c009edc 1", "ok"),
    ("vm 1 0x8 0", "ok"),
    ("arrive 0 0 0", "ok"),
    ("g 0 0 csrrw siselect 0xc0", "0x0000000000000000"),
    ("g 0 0 csrrw sireg 0x20", "0x0000000000000000"),
    ("pass 1 0 0 5", "ok"),
    ("pass 2 0 0 5", "unready"),
    ("pass 1 0 0 6", "passed"),
    ("st 0x0c00b004 7", "guarded"),
    ("ld 0x0c00b004", "0x00001005"),
    ("wire 1 1", "ok"),
    ("g 0 0 csrrw stopei 0", "0x0000000000050005"),
    ("begin leave 0 0", "ok"),
    ("step 0 0", "moving"),
    ("step 0 0", "moving"),
    ("step 0 0", "moving"),
    ("step 0 0", "moving"),
    ("step 0 0", "moving"),
    ("step 0 0", "moving"),
    ("wire 1 0", "ok"),
    ("wire 1 1", "ok"),
    ("step 0 0", "moving"),
    ("ld 0x0c00b004", "0x00000021"),
    ("wire 1 0", "ok"),
    ("wire 1 1", "ok"),
    ("step 0 0", "moving"),
    ("step 0 0", "moving"),
    ("step 0 0", "moving"),
    ("step 0 0", "moving"),
    ("step 0 0", "moving"),
    ("step 0 0", "moving"),
    ("step 0 0", "done"),
    ("arrive 0 0 0", "ok"),
    ("g 0 0 csrrw stopei 0", "0x0000000000050005"),
    ("g 0 0 csrrw stopei 0", "0x0000000000000000"),
];

/// Proves that the model answers [`PASSED_SOURCE_DURING_A_LEAVE`] as it says.
pub fn a_passed_source_during_a_leave()
    ensures { answers (script_of PASSED_SOURCE_DURING_A_LEAVE)
        ≡ answers_of PASSED_SOURCE_DURING_A_LEAVE }
{}

/// An identity that the files do not have is out of range.
pub const PASS_OF_A_GREAT_IDENTITY: [(&str, &str); 11] = [
    ("machine 1 1 63 8", "ok"),
    ("st 0x0c000004 0x400", "ok"),
    ("st 0x0c008004 4", "ok"),
    ("st 0x0c008000 0x104", "ok"),
    ("st 0x0c001bc4 0x2000", "ok"),
    ("st 0x0c001bc8 0x28000", "ok"),
    ("st 0x0c001bcc 0x500000", "ok"),
    ("st 0x0c009edc 1", "ok"),
    ("vm 1 0x8 0", "ok"),
    ("arrive 0 0 0", "ok"),
    ("pass 1 0 0 64", "range"),
];

/// Proves that the model answers [`PASS_OF_A_GREAT_IDENTITY`] as it says.
pub fn a_pass_of_a_great_identity()
    ensures { answers (script_of PASS_OF_A_GREAT_IDENTITY) ≡ answers_of PASS_OF_A_GREAT_IDENTITY }
{}

/// A source that is passed to a parked virtual hart is aimed at the notice hart, with the first
/// identity after those of notices; the host takes that identity within the line, and gives the
/// interrupt on. At a guest file the source is aimed by itself.
pub const PASSED_TO_A_PARKED_VIRTUAL_HART: [(&str, &str); 24] = [
    ("machine 2 1 63 8", "ok"),
    ("st 0x0c000004 0x400", "ok"),
    ("st 0x0c008004 4", "ok"),
    ("st 0x0c008000 0x104", "ok"),
    ("st 0x0c001bc4 0x2000", "ok"),
    ("st 0x0c001bc8 0x28000", "ok"),
    ("st 0x0c001bcc 0x500000", "ok"),
    ("st 0x0c009edc 1", "ok"),
    ("vm 1 0x8 1", "ok"),
    ("h 1 csrrw siselect 0x80", "0x0000000000000000"),
    ("pass 1 0 0 5", "ok"),
    ("ld 0x0c00b004", "0x00040021"),
    ("wire 1 1", "ok"),
    ("h 1 csrrw sireg 0", "0x0000000000000000"),
    ("arrive 0 0 0", "ok"),
    ("ld 0x0c00b004", "0x00001005"),
    ("g 0 0 csrrw siselect 0xc0", "0x0000000000000000"),
    ("g 0 0 csrrw sireg 0x20", "0x0000000000000000"),
    ("g 0 0 csrrw stopei 0", "0x0000000000050005"),
    ("leave 0 0", "ok"),
    ("ld 0x0c00b004", "0x00040021"),
    ("wire 1 0", "ok"),
    ("wire 1 1", "ok"),
    ("h 1 csrrw sireg 0", "0x0000000000000002"),
];

/// Proves that the model answers [`PASSED_TO_A_PARKED_VIRTUAL_HART`] as it says.
pub fn a_source_passed_to_a_parked_virtual_hart()
    ensures { answers (script_of PASSED_TO_A_PARKED_VIRTUAL_HART)
        ≡ answers_of PASSED_TO_A_PARKED_VIRTUAL_HART }
{}

/// While a source is passed, its registers, the addresses of MSIs to supervisor level and the
/// delivery mode of the child domain are guarded, and those of other sources are not.
pub const GUARDED_WHILE_A_SOURCE_IS_PASSED: [(&str, &str); 27] = [
    ("machine 2 1 63 8", "ok"),
    ("st 0x0c000004 0x400", "ok"),
    ("st 0x0c008004 4", "ok"),
    ("st 0x0c008000 0x104", "ok"),
    ("st 0x0c001bc4 0x2000", "ok"),
    ("st 0x0c001bc8 0x28000", "ok"),
    ("st 0x0c001bcc 0x500000", "ok"),
    ("st 0x0c009edc 1", "ok"),
    ("vm 1 0x8 1", "ok"),
    ("h 1 csrrw siselect 0x80", "0x0000000000000000"),
    ("pass 1 0 0 5", "ok"),
    ("st 0x0c008000 4", "ok"),
    ("st 0x0c008000 0", "guarded"),
    ("st 0x0c001bc0 5", "ok"),
    ("st 0x0c001bc4 0x2000", "guarded"),
    ("st 0x0c001bc8 0x28000", "guarded"),
    ("st 0x0c001bcc 0x500000", "guarded"),
    ("st 0x0c000004 0x400", "guarded"),
    ("st 0x0c008004 4", "guarded"),
    ("st 0x0c00b004 1", "guarded"),
    ("st 0x0c003004 1", "ok"),
    ("st 0x0c000000 4", "ok"),
    ("st 0x0c000008 0x400", "ok"),
    ("st 0x0c008008 4", "ok"),
    ("st 0x0c00b008 0xfffff", "ok"),
    ("ld 0x0c00b008", "0x000007ff"),
    ("ld 0x0c008000", "0x80000004"),
];

/// Proves that the model answers [`GUARDED_WHILE_A_SOURCE_IS_PASSED`] as it says.
pub fn what_is_guarded_while_a_source_is_passed()
    ensures { answers (script_of GUARDED_WHILE_A_SOURCE_IS_PASSED)
        ≡ answers_of GUARDED_WHILE_A_SOURCE_IS_PASSED }
{}

/// The MSI of a source that is passed to a guest of hart 1 goes to the page of its guest file.
pub const PASSED_TO_A_GUEST_OF_THE_SECOND_HART: [(&str, &str); 16] = [
    ("machine 2 1 63 8", "ok"),
    ("st 0x0c000004 0x400", "ok"),
    ("st 0x0c008004 4", "ok"),
    ("st 0x0c008000 0x104", "ok"),
    ("st 0x0c001bc4 0x2000", "ok"),
    ("st 0x0c001bc8 0x28000", "ok"),
    ("st 0x0c001bcc 0x500000", "ok"),
    ("st 0x0c009edc 1", "ok"),
    ("vm 1 0x8 0", "ok"),
    ("arrive 0 0 1", "ok"),
    ("g 0 0 csrrw siselect 0xc0", "0x0000000000000000"),
    ("g 0 0 csrrw sireg 0x20", "0x0000000000000000"),
    ("pass 1 0 0 5", "ok"),
    ("ld 0x0c00b004", "0x00041005"),
    ("wire 1 1", "ok"),
    ("g 0 0 csrrw stopei 0", "0x0000000000050005"),
];

/// Proves that the model answers [`PASSED_TO_A_GUEST_OF_THE_SECOND_HART`] as it says.
pub fn a_source_passed_to_a_guest_of_the_second_hart()
    ensures { answers (script_of PASSED_TO_A_GUEST_OF_THE_SECOND_HART)
        ≡ answers_of PASSED_TO_A_GUEST_OF_THE_SECOND_HART }
{}

/// Two sources are passed to a virtual hart that shifts: each is aimed at the new file by a step of
/// its own, in the order of the passes, and no forward is lost.
pub const TWO_PASSED_SOURCES_DURING_A_SHIFT: [(&str, &str); 41] = [
    ("machine 1 2 63 8", "ok"),
    ("st 0x0c000004 0x400", "ok"),
    ("st 0x0c000008 0x400", "ok"),
    ("st 0x0c008004 4", "ok"),
    ("st 0x0c008008 4", "ok"),
    ("st 0x0c008000 0x104", "ok"),
    ("st 0x0c001bc4 0x2000", "ok"),
    ("st 0x0c001bc8 0x28000", "ok"),
    ("st 0x0c001bcc 0x500000", "ok"),
    ("st 0x0c009edc 1", "ok"),
    ("st 0x0c009edc 2", "ok"),
    ("vm 1 0x8 0", "ok"),
    ("arrive 0 0 0", "ok"),
    ("g 0 0 csrrw siselect 0xc0", "0x0000000000000000"),
    ("g 0 0 csrrw sireg 0x60", "0x0000000000000000"),
    ("pass 1 0 0 5", "ok"),
    ("pass 2 0 0 6", "ok"),
    ("begin shift 0 0 0", "ok"),
    ("step 0 0", "moving"),
    ("step 0 0", "moving"),
    ("step 0 0", "moving"),
    ("step 0 0", "moving"),
    ("step 0 0", "moving"),
    ("ld 0x0c00b004", "0x00001005"),
    ("wire 1 1", "ok"),
    ("step 0 0", "moving"),
    ("ld 0x0c00b004", "0x00002005"),
    ("ld 0x0c00b008", "0x00001006"),
    ("wire 2 1", "ok"),
    ("step 0 0", "moving"),
    ("ld 0x0c00b008", "0x00002006"),
    ("step 0 0", "moving"),
    ("step 0 0", "moving"),
    ("step 0 0", "moving"),
    ("step 0 0", "moving"),
    ("step 0 0", "moving"),
    ("step 0 0", "moving"),
    ("step 0 0", "done"),
    ("g 0 0 csrrw stopei 0", "0x0000000000050005"),
    ("g 0 0 csrrw stopei 0", "0x0000000000060006"),
    ("g 0 0 csrrw stopei 0", "0x0000000000000000"),
];

/// Proves that the model answers [`TWO_PASSED_SOURCES_DURING_A_SHIFT`] as it says.
pub fn two_passed_sources_during_a_shift()
    ensures { answers (script_of TWO_PASSED_SOURCES_DURING_A_SHIFT)
        ≡ answers_of TWO_PASSED_SOURCES_DURING_A_SHIFT }
{}

/// The words of a pass, in their order: its numbers, a virtual hart that is moved, a source that is
/// passed already, and one of which no MSIs to guests may be made.
pub const PASSES_ARE_REFUSED: [(&str, &str); 40] = [
    ("pass 1 0 0 5", "nomachine"),
    ("machine 1 1 63 8", "ok"),
    ("pass 1 0 0 5", "range"),
    ("vm 1 0x8 0", "ok"),
    ("pass 0 0 0 5", "range"),
    ("pass 9 0 0 5", "range"),
    ("pass 1 0 1 5", "range"),
    ("pass 1 0 0 0", "range"),
    ("pass 1 0 0 5", "unready"),
    ("st 0x0c000004 0x400", "ok"),
    ("pass 1 0 0 5", "unready"),
    ("st 0x0c008004 4", "ok"),
    ("pass 1 0 0 5", "unready"),
    ("st 0x0c008000 4", "ok"),
    ("pass 1 0 0 5", "unready"),
    ("st 0x0c001bc4 0x2000", "ok"),
    ("pass 1 0 0 5", "unready"),
    ("st 0x0c001bc8 0x28000", "ok"),
    ("pass 1 0 0 5", "unready"),
    ("st 0x0c001bcc 0x500000", "ok"),
    ("arrive 0 0 0", "ok"),
    ("begin leave 0 0", "ok"),
    ("pass 1 0 0 5", "busy"),
    ("step 0 0", "moving"),
    ("step 0 0", "moving"),
    ("step 0 0", "moving"),
    ("step 0 0", "moving"),
    ("step 0 0", "moving"),
    ("step 0 0", "moving"),
    ("step 0 0", "moving"),
    ("step 0 0", "moving"),
    ("step 0 0", "moving"),
    ("step 0 0", "moving"),
    ("step 0 0", "moving"),
    ("step 0 0", "moving"),
    ("step 0 0", "done"),
    ("pass 1 0 0 5", "ok"),
    ("pass 1 0 0 6", "passed"),
    ("pass 1 0 0 64", "range"),
    ("pass 1 0 0", "bad"),
];

/// Proves that the model answers [`PASSES_ARE_REFUSED`] as it says.
pub fn when_a_pass_is_refused()
    ensures { answers (script_of PASSES_ARE_REFUSED) ≡ answers_of PASSES_ARE_REFUSED }
{}

/// The identities of passes at a notice hart are the hypervisor's: what the host itself asked for
/// there is taken with the next interrupt that is given on. No notice is sent of an identity that
/// is not enabled.
pub const RELAY_TAKES_THE_IDENTITY_OF_ITS_PASS: [(&str, &str); 18] = [
    ("machine 2 1 63 8", "ok"),
    ("st 0x0c000004 0x400", "ok"),
    ("st 0x0c008004 4", "ok"),
    ("st 0x0c008000 0x104", "ok"),
    ("st 0x0c001bc4 0x2000", "ok"),
    ("st 0x0c001bc8 0x28000", "ok"),
    ("st 0x0c001bcc 0x500000", "ok"),
    ("st 0x0c009edc 1", "ok"),
    ("vm 1 0x8 1", "ok"),
    ("pass 1 0 0 5", "ok"),
    ("h 1 csrrw siselect 0x80", "0x0000000000000000"),
    ("st 0x28020000 33", "ok"),
    ("h 1 csrr sireg", "0x0000000200000000"),
    ("wire 1 1", "ok"),
    ("h 1 csrr sireg", "0x0000000000000000"),
    ("arrive 0 0 0", "ok"),
    ("g 0 0 csrrw siselect 0x80", "0x0000000000000000"),
    ("g 0 0 csrr sireg", "0x0000000000000020"),
];

/// Proves that the model answers [`RELAY_TAKES_THE_IDENTITY_OF_ITS_PASS`] as it says.
pub fn a_relay_takes_the_identity_of_its_pass()
    ensures { answers (script_of RELAY_TAKES_THE_IDENTITY_OF_ITS_PASS)
        ≡ answers_of RELAY_TAKES_THE_IDENTITY_OF_ITS_PASS }
{}

/// No more sources may be passed than sixteen; the last one is known to its notice hart by the
/// identity 48.
pub const SIXTEEN_PASSED_SOURCES: [(&str, &str); 59] = [
    ("machine 1 0 63 17", "ok"),
    ("st 0x0c000004 0x400", "ok"),
    ("st 0x0c008004 4", "ok"),
    ("st 0x0c000008 0x400", "ok"),
    ("st 0x0c008008 4", "ok"),
    ("st 0x0c00000c 0x400", "ok"),
    ("st 0x0c00800c 4", "ok"),
    ("st 0x0c000010 0x400", "ok"),
    ("st 0x0c008010 4", "ok"),
    ("st 0x0c000014 0x400", "ok"),
    ("st 0x0c008014 4", "ok"),
    ("st 0x0c000018 0x400", "ok"),
    ("st 0x0c008018 4", "ok"),
    ("st 0x0c00001c 0x400", "ok"),
    ("st 0x0c00801c 4", "ok"),
    ("st 0x0c000020 0x400", "ok"),
    ("st 0x0c008020 4", "ok"),
    ("st 0x0c000024 0x400", "ok"),
    ("st 0x0c008024 4", "ok"),
    ("st 0x0c000028 0x400", "ok"),
    ("st 0x0c008028 4", "ok"),
    ("st 0x0c00002c 0x400", "ok"),
    ("st 0x0c00802c 4", "ok"),
    ("st 0x0c000030 0x400", "ok"),
    ("st 0x0c008030 4", "ok"),
    ("st 0x0c000034 0x400", "ok"),
    ("st 0x0c008034 4", "ok"),
    ("st 0x0c000038 0x400", "ok"),
    ("st 0x0c008038 4", "ok"),
    ("st 0x0c00003c 0x400", "ok"),
    ("st 0x0c00803c 4", "ok"),
    ("st 0x0c000040 0x400", "ok"),
    ("st 0x0c008040 4", "ok"),
    ("st 0x0c000044 0x400", "ok"),
    ("st 0x0c008044 4", "ok"),
    ("st 0x0c008000 0x104", "ok"),
    ("st 0x0c001bc4 0x2000", "ok"),
    ("st 0x0c001bc8 0x28000", "ok"),
    ("st 0x0c001bcc 0x500000", "ok"),
    ("vm 1 0x8 0", "ok"),
    ("pass 1 0 0 5", "ok"),
    ("pass 2 0 0 5", "ok"),
    ("pass 3 0 0 5", "ok"),
    ("pass 4 0 0 5", "ok"),
    ("pass 5 0 0 5", "ok"),
    ("pass 6 0 0 5", "ok"),
    ("pass 7 0 0 5", "ok"),
    ("pass 8 0 0 5", "ok"),
    ("pass 9 0 0 5", "ok"),
    ("pass 10 0 0 5", "ok"),
    ("pass 11 0 0 5", "ok"),
    ("pass 12 0 0 5", "ok"),
    ("pass 13 0 0 5", "ok"),
    ("pass 14 0 0 5", "ok"),
    ("pass 15 0 0 5", "ok"),
    ("pass 16 0 0 5", "ok"),
    ("pass 17 0 0 5", "full"),
    ("pass 1 0 0 5", "full"),
    ("ld 0x0c00b040", "0x00000030"),
];

/// Proves that the model answers [`SIXTEEN_PASSED_SOURCES`] as it says.
pub fn sixteen_passed_sources()
    ensures { answers (script_of SIXTEEN_PASSED_SOURCES) ≡ answers_of SIXTEEN_PASSED_SOURCES }
{}
