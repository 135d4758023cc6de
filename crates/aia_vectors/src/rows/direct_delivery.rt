//! Direct delivery: what is on top for a hart, claims and signals.
//!
//! Made of suite/rows/direct_delivery.rows by suite/make: edit the rows.

ghost use Rattle.std.specs.Prelude.{◌≡◌};
ghost use Rattle.aia_model.specs.Script.{answers};
ghost use Rattle.aia_vectors.specs.Rows.{script_of, answers_of};

/// Two detached sources of one priority: the lower number is on top, and a threshold lets only
/// lower priorities through.
pub const TIES_AND_THRESHOLDS: [(&str, &str); 15] = [
    ("machine 1 0 63 8", "ok"),
    ("st 0x0c000000 0x100", "ok"),
    ("st 0x0c000004 1", "ok"),
    ("st 0x0c000008 1", "ok"),
    ("st 0x0c003004 5", "ok"),
    ("st 0x0c003008 5", "ok"),
    ("st 0x0c001e00 6", "ok"),
    ("st 0x0c001c00 6", "ok"),
    ("ld 0x0c004018", "0x00010005"),
    ("st 0x0c004008 5", "ok"),
    ("ld 0x0c004018", "0x00000000"),
    ("st 0x0c004008 6", "ok"),
    ("ld 0x0c00401c", "0x00010005"),
    ("ld 0x0c00401c", "0x00020005"),
    ("ld 0x0c00401c", "0x00000000"),
];

/// Proves that the model answers [`TIES_AND_THRESHOLDS`] as it says.
pub fn ties_and_thresholds()
    ensures { answers (script_of TIES_AND_THRESHOLDS) ≡ answers_of TIES_AND_THRESHOLDS }
{}

/// A claim leaves a level source pending while its wire is high, and clears an edge; with nothing
/// on top it ends iforce.
pub const CLAIMS_OF_LEVEL_AND_EDGE: [(&str, &str); 21] = [
    ("machine 1 0 63 8", "ok"),
    ("st 0x0c000000 0x100", "ok"),
    ("st 0x0c000004 6", "ok"),
    ("st 0x0c000008 4", "ok"),
    ("st 0x0c003004 0", "ok"),
    ("ld 0x0c003004", "0x00000001"),
    ("st 0x0c003008 1", "ok"),
    ("st 0x0c001e00 6", "ok"),
    ("st 0x0c004000 1", "ok"),
    ("wire 1 1", "ok"),
    ("wire 2 1", "ok"),
    ("pins 0", "pins 1 0 0 0"),
    ("ld 0x0c00401c", "0x00010001"),
    ("ld 0x0c00401c", "0x00010001"),
    ("wire 1 0", "ok"),
    ("ld 0x0c00401c", "0x00020001"),
    ("ld 0x0c00401c", "0x00000000"),
    ("st 0x0c004004 1", "ok"),
    ("pins 0", "pins 1 0 0 0"),
    ("ld 0x0c00401c", "0x00000000"),
    ("ld 0x0c004004", "0x00000000"),
];

/// Proves that the model answers [`CLAIMS_OF_LEVEL_AND_EDGE`] as it says.
pub fn claims_of_level_and_edge()
    ensures { answers (script_of CLAIMS_OF_LEVEL_AND_EDGE) ≡ answers_of CLAIMS_OF_LEVEL_AND_EDGE }
{}

/// From one active mode to another the enable bit and the target stay, so that a claim shows the
/// edge; a source that begins anew has neither.
pub const ENABLES_AND_TARGETS_OF_MODES: [(&str, &str); 17] = [
    ("machine 1 0 63 8", "ok"),
    ("st 0x0c000004 6", "ok"),
    ("st 0x0c003004 9", "ok"),
    ("st 0x0c001edc 1", "ok"),
    ("wire 1 1", "ok"),
    ("st 0x0c000004 4", "ok"),
    ("ld 0x0c001c00", "0x00000002"),
    ("ld 0x0c001e00", "0x00000002"),
    ("ld 0x0c003004", "0x00000009"),
    ("ld 0x0c00401c", "0x00010009"),
    ("ld 0x0c001c00", "0x00000000"),
    ("st 0x0c000004 0", "ok"),
    ("ld 0x0c001e00", "0x00000000"),
    ("ld 0x0c003004", "0x00000000"),
    ("st 0x0c000004 1", "ok"),
    ("ld 0x0c001e00", "0x00000000"),
    ("ld 0x0c003004", "0x00000001"),
];

/// Proves that the model answers [`ENABLES_AND_TARGETS_OF_MODES`] as it says.
pub fn enables_and_targets_of_modes()
    ensures { answers (script_of ENABLES_AND_TARGETS_OF_MODES)
        ≡ answers_of ENABLES_AND_TARGETS_OF_MODES }
{}

/// Level sources of one priority that stay on top through claims, in words far apart, and iforce,
/// which a claim of nothing ends.
pub const MANY_SOURCES_AND_FORCE: [(&str, &str); 21] = [
    ("machine 1 0 63 80", "ok"),
    ("st 0x0c000000 0x100", "ok"),
    ("st 0x0c000004 6", "ok"),
    ("st 0x0c000118 6", "ok"),
    ("st 0x0c001edc 1", "ok"),
    ("st 0x0c001edc 70", "ok"),
    ("st 0x0c004000 1", "ok"),
    ("wire 70 1", "ok"),
    ("ld 0x0c00401c", "0x00460001"),
    ("ld 0x0c004018", "0x00460001"),
    ("wire 1 1", "ok"),
    ("ld 0x0c00401c", "0x00010001"),
    ("ld 0x0c00401c", "0x00010001"),
    ("st 0x0c001f00 2", "ok"),
    ("ld 0x0c00401c", "0x00460001"),
    ("st 0x0c001f08 0x40", "ok"),
    ("ld 0x0c004018", "0x00000000"),
    ("st 0x0c004004 1", "ok"),
    ("pins 0", "pins 1 0 0 0"),
    ("ld 0x0c00401c", "0x00000000"),
    ("pins 0", "pins 0 0 0 0"),
];

/// Proves that the model answers [`MANY_SOURCES_AND_FORCE`] as it says.
pub fn many_sources_and_force()
    ensures { answers (script_of MANY_SOURCES_AND_FORCE) ≡ answers_of MANY_SOURCES_AND_FORCE }
{}

/// What the registers of a hart in a domain keep, of a hart that is there: bit 0, and eight bits of
/// ithreshold; a load of claimi that shows nothing ends iforce.
pub const CONTROLS_KEEP_THEIR_FIELDS: [(&str, &str); 23] = [
    ("machine 2 0 63 8", "ok"),
    ("st 0x0c004000 0xffffffff", "ok"),
    ("ld 0x0c004000", "0x00000001"),
    ("st 0x0c004004 0xfffffffe", "ok"),
    ("ld 0x0c004004", "0x00000000"),
    ("st 0x0c004004 3", "ok"),
    ("ld 0x0c004004", "0x00000001"),
    ("st 0x0c004008 0x1ff", "ok"),
    ("ld 0x0c004008", "0x000000ff"),
    ("ld 0x0c004020", "0x00000000"),
    ("st 0x0c004028 5", "ok"),
    ("ld 0x0c004028", "0x00000005"),
    ("ld 0x0c004008", "0x000000ff"),
    ("st 0x0c004040 1", "ok"),
    ("ld 0x0c004040", "0x00000000"),
    ("ld 0x0c00405c", "0x00000000"),
    ("st 0x0c004018 7", "ok"),
    ("ld 0x0c004018", "0x00000000"),
    ("st 0x0c00401c 7", "ok"),
    ("ld 0x0c00c008", "0x00000000"),
    ("ld 0x0c004004", "0x00000001"),
    ("ld 0x0c00401c", "0x00000000"),
    ("ld 0x0c004004", "0x00000000"),
];

/// Proves that the model answers [`CONTROLS_KEEP_THEIR_FIELDS`] as it says.
pub fn controls_keep_their_fields()
    ensures { answers (script_of CONTROLS_KEEP_THEIR_FIELDS)
        ≡ answers_of CONTROLS_KEEP_THEIR_FIELDS }
{}

/// The four signals of a hart: each domain needs IE, idelivery, and a source on top or iforce; each
/// file its own.
pub const FOUR_PINS_OF_A_HART: [(&str, &str); 30] = [
    ("pins 0", "nomachine"),
    ("machine 2 0 63 8", "ok"),
    ("pins 2", "range"),
    ("pins 0", "pins 0 0 0 0"),
    ("st 0x0c000000 0x100", "ok"),
    ("st 0x0c004004 1", "ok"),
    ("pins 0", "pins 0 0 0 0"),
    ("st 0x0c004000 1", "ok"),
    ("pins 0", "pins 1 0 0 0"),
    ("pins 1", "pins 0 0 0 0"),
    ("st 0x0c000000 0", "ok"),
    ("pins 0", "pins 0 0 0 0"),
    ("st 0x0c00c020 1", "ok"),
    ("st 0x0c00c024 1", "ok"),
    ("pins 1", "pins 0 0 0 0"),
    ("st 0x0c008000 0x100", "ok"),
    ("pins 1", "pins 0 1 0 0"),
    ("m 1 csrrw miselect 0x70", "0x0000000000000000"),
    ("m 1 csrrw mireg 1", "0x0000000000000000"),
    ("m 1 csrrw miselect 0xc0", "0x0000000000000070"),
    ("m 1 csrrw mireg 2", "0x0000000000000000"),
    ("st 0x24001000 1", "ok"),
    ("pins 1", "pins 0 1 1 0"),
    ("h 1 csrrw siselect 0x70", "0x0000000000000000"),
    ("h 1 csrrw sireg 1", "0x0000000000000000"),
    ("h 1 csrrw siselect 0xc0", "0x0000000000000070"),
    ("h 1 csrrw sireg 2", "0x0000000000000000"),
    ("st 0x28020000 1", "ok"),
    ("pins 1", "pins 0 1 1 1"),
    ("pins 0", "pins 0 0 0 0"),
];

/// Proves that the model answers [`FOUR_PINS_OF_A_HART`] as it says.
pub fn four_pins_of_a_hart()
    ensures { answers (script_of FOUR_PINS_OF_A_HART) ≡ answers_of FOUR_PINS_OF_A_HART }
{}

/// A source that is delegated is on top only in the child domain, for the hart that it is aimed at.
pub const CHILD_SHOWS_A_DELEGATED_SOURCE: [(&str, &str); 15] = [
    ("machine 2 0 63 8", "ok"),
    ("st 0x0c000008 0x400", "ok"),
    ("st 0x0c008008 4", "ok"),
    ("st 0x0c00b008 0x40003", "ok"),
    ("st 0x0c009edc 2", "ok"),
    ("wire 2 1", "ok"),
    ("ld 0x0c00c038", "0x00020003"),
    ("ld 0x0c00c018", "0x00000000"),
    ("ld 0x0c004038", "0x00000000"),
    ("st 0x0c00c028 3", "ok"),
    ("ld 0x0c00c038", "0x00000000"),
    ("st 0x0c00c028 4", "ok"),
    ("ld 0x0c00c03c", "0x00020003"),
    ("ld 0x0c00c03c", "0x00000000"),
    ("ld 0x0c009c00", "0x00000000"),
];

/// Proves that the model answers [`CHILD_SHOWS_A_DELEGATED_SOURCE`] as it says.
pub fn child_shows_a_delegated_source()
    ensures { answers (script_of CHILD_SHOWS_A_DELEGATED_SOURCE)
        ≡ answers_of CHILD_SHOWS_A_DELEGATED_SOURCE }
{}

/// The least priority number is on top whatever the source number; one that is not enabled, not
/// pending, or aimed at another hart is not shown.
pub const LOWER_PRIORITY_NUMBERS_COME_FIRST: [(&str, &str); 20] = [
    ("machine 2 0 63 8", "ok"),
    ("st 0x0c000004 1", "ok"),
    ("st 0x0c000008 1", "ok"),
    ("st 0x0c00000c 1", "ok"),
    ("st 0x0c000010 1", "ok"),
    ("st 0x0c003004 9", "ok"),
    ("st 0x0c003008 3", "ok"),
    ("st 0x0c00300c 0x40001", "ok"),
    ("st 0x0c003010 2", "ok"),
    ("st 0x0c001e00 0xe", "ok"),
    ("st 0x0c001c00 0x1e", "ok"),
    ("ld 0x0c004018", "0x00020003"),
    ("ld 0x0c004038", "0x00030001"),
    ("st 0x0c001e00 0x10", "ok"),
    ("ld 0x0c004018", "0x00040002"),
    ("ld 0x0c00401c", "0x00040002"),
    ("ld 0x0c00401c", "0x00020003"),
    ("ld 0x0c00401c", "0x00010009"),
    ("ld 0x0c00401c", "0x00000000"),
    ("ld 0x0c001c00", "0x00000008"),
];

/// Proves that the model answers [`LOWER_PRIORITY_NUMBERS_COME_FIRST`] as it says.
pub fn lower_priority_numbers_come_first()
    ensures { answers (script_of LOWER_PRIORITY_NUMBERS_COME_FIRST)
        ≡ answers_of LOWER_PRIORITY_NUMBERS_COME_FIRST }
{}

/// A claim that shows a source leaves iforce as it is, in either domain; one that shows nothing
/// ends it.
pub const CLAIM_OF_A_SOURCE_LEAVES_IFORCE: [(&str, &str); 27] = [
    ("machine 1 0 63 8", "ok"),
    ("st 0x0c000000 0x100", "ok"),
    ("st 0x0c000004 1", "ok"),
    ("st 0x0c003004 5", "ok"),
    ("st 0x0c001edc 1", "ok"),
    ("st 0x0c001cdc 1", "ok"),
    ("st 0x0c004000 1", "ok"),
    ("st 0x0c004004 1", "ok"),
    ("ld 0x0c00401c", "0x00010005"),
    ("ld 0x0c004004", "0x00000001"),
    ("pins 0", "pins 1 0 0 0"),
    ("ld 0x0c004018", "0x00000000"),
    ("ld 0x0c004004", "0x00000001"),
    ("ld 0x0c00401c", "0x00000000"),
    ("ld 0x0c004004", "0x00000000"),
    ("pins 0", "pins 0 0 0 0"),
    ("st 0x0c000008 0x400", "ok"),
    ("st 0x0c008008 6", "ok"),
    ("st 0x0c009edc 2", "ok"),
    ("wire 2 1", "ok"),
    ("st 0x0c00c004 1", "ok"),
    ("ld 0x0c00c01c", "0x00020001"),
    ("ld 0x0c00c01c", "0x00020001"),
    ("ld 0x0c00c004", "0x00000001"),
    ("wire 2 0", "ok"),
    ("ld 0x0c00c01c", "0x00000000"),
    ("ld 0x0c00c004", "0x00000000"),
];

/// Proves that the model answers [`CLAIM_OF_A_SOURCE_LEAVES_IFORCE`] as it says.
pub fn a_claim_of_a_source_leaves_iforce()
    ensures { answers (script_of CLAIM_OF_A_SOURCE_LEAVES_IFORCE)
        ≡ answers_of CLAIM_OF_A_SOURCE_LEAVES_IFORCE }
{}

/// Of the greatest and the least source of 1,023 the one with the lesser pair is on top, as pending
/// bits, priorities and enable bits change.
pub const PAIRS_BEFORE_NUMBERS_OF_1023_SOURCES: [(&str, &str); 14] = [
    ("machine 1 0 63 1023", "ok"),
    ("st 0x0c000000 0x100", "ok"),
    ("st 0x0c000ffc 1", "ok"),
    ("st 0x0c000004 1", "ok"),
    ("st 0x0c001edc 1023", "ok"),
    ("st 0x0c001edc 1", "ok"),
    ("st 0x0c001cdc 1023", "ok"),
    ("ld 0x0c004018", "0x03ff0001"),
    ("st 0x0c001cdc 1", "ok"),
    ("ld 0x0c004018", "0x00010001"),
    ("st 0x0c003004 2", "ok"),
    ("ld 0x0c004018", "0x03ff0001"),
    ("st 0x0c001f7c 0x80000000", "ok"),
    ("ld 0x0c004018", "0x00010002"),
];

/// Proves that the model answers [`PAIRS_BEFORE_NUMBERS_OF_1023_SOURCES`] as it says.
pub fn pairs_before_numbers_of_1023_sources()
    ensures { answers (script_of PAIRS_BEFORE_NUMBERS_OF_1023_SOURCES)
        ≡ answers_of PAIRS_BEFORE_NUMBERS_OF_1023_SOURCES }
{}

/// A source is a hart's candidate no longer after its priority, its enable bit, its hart, its mode,
/// its pending bit or its domain is another.
pub const WHAT_ENDS_A_CANDIDATE: [(&str, &str); 29] = [
    ("machine 2 0 63 70", "ok"),
    ("st 0x0c000004 4", "ok"),
    ("st 0x0c000008 4", "ok"),
    ("st 0x0c000118 1", "ok"),
    ("st 0x0c003004 5", "ok"),
    ("st 0x0c003008 5", "ok"),
    ("st 0x0c003118 5", "ok"),
    ("st 0x0c001edc 1", "ok"),
    ("st 0x0c001edc 2", "ok"),
    ("st 0x0c001edc 70", "ok"),
    ("st 0x0c001cdc 70", "ok"),
    ("st 0x0c001cdc 2", "ok"),
    ("st 0x0c001cdc 1", "ok"),
    ("ld 0x0c004018", "0x00010005"),
    ("st 0x0c003004 6", "ok"),
    ("ld 0x0c004018", "0x00020005"),
    ("st 0x0c001fdc 2", "ok"),
    ("ld 0x0c004018", "0x00460005"),
    ("st 0x0c003118 0x40005", "ok"),
    ("ld 0x0c004018", "0x00010006"),
    ("ld 0x0c004038", "0x00460005"),
    ("st 0x0c000004 0", "ok"),
    ("ld 0x0c004018", "0x00000000"),
    ("st 0x0c001edc 2", "ok"),
    ("ld 0x0c004018", "0x00020005"),
    ("st 0x0c001ddc 2", "ok"),
    ("ld 0x0c004018", "0x00000000"),
    ("st 0x0c000118 0x400", "ok"),
    ("ld 0x0c004038", "0x00000000"),
];

/// Proves that the model answers [`WHAT_ENDS_A_CANDIDATE`] as it says.
pub fn what_ends_a_candidate()
    ensures { answers (script_of WHAT_ENDS_A_CANDIDATE) ≡ answers_of WHAT_ENDS_A_CANDIDATE }
{}
