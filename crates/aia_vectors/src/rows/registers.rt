//! The registers of the APLIC's domains.
//!
//! Made of suite/rows/registers.rows by suite/make: edit the rows.

ghost use Rattle.std.specs.Prelude.{◌≡◌};
ghost use Rattle.aia_model.specs.Script.{answers};
ghost use Rattle.aia_vectors.specs.Rows.{script_of, answers_of};

/// What sourcecfg keeps: without D the mode alone, with D the child index alone. A reserved mode, a
/// child that isn't there, and a source that isn't there are nothing.
pub const RESERVED_MODES_AND_CHILD_INDEXES: [(&str, &str); 36] = [
    ("machine 1 0 63 8", "ok"),
    ("st 0x0c000004 0x806", "ok"),
    ("ld 0x0c000004", "0x00000006"),
    ("st 0x0c000004 0x401", "ok"),
    ("ld 0x0c000004", "0x00000000"),
    ("st 0x0c000004 0xfffffbff", "ok"),
    ("ld 0x0c000004", "0x00000007"),
    ("st 0x0c000004 2", "ok"),
    ("ld 0x0c000004", "0x00000000"),
    ("st 0x0c000004 5", "ok"),
    ("ld 0x0c000004", "0x00000005"),
    ("st 0x0c000004 3", "ok"),
    ("ld 0x0c000004", "0x00000000"),
    ("st 0x0c000004 0xfffffc00", "ok"),
    ("ld 0x0c000004", "0x00000400"),
    ("st 0x0c000004 0x600", "ok"),
    ("ld 0x0c000004", "0x00000000"),
    ("st 0x0c000004 0x400", "ok"),
    ("st 0x0c008004 0x806", "ok"),
    ("ld 0x0c008004", "0x00000006"),
    ("st 0x0c008004 0xfffffbfa", "ok"),
    ("ld 0x0c008004", "0x00000000"),
    ("st 0x0c008004 1", "ok"),
    ("ld 0x0c008004", "0x00000001"),
    ("st 0x0c008004 3", "ok"),
    ("ld 0x0c008004", "0x00000000"),
    ("st 0x0c008004 7", "ok"),
    ("st 0x0c008004 0x400", "ok"),
    ("ld 0x0c008004", "0x00000000"),
    ("ld 0x0c000004", "0x00000400"),
    ("st 0x0c000024 0x400", "ok"),
    ("ld 0x0c000024", "0x00000000"),
    ("st 0x0c008024 6", "ok"),
    ("ld 0x0c008024", "0x00000000"),
    ("st 0x0c000ffc 6", "ok"),
    ("ld 0x0c000ffc", "0x00000000"),
];

/// Proves that the model answers [`RESERVED_MODES_AND_CHILD_INDEXES`] as it says.
pub fn reserved_modes_and_child_indexes()
    ensures { answers (script_of RESERVED_MODES_AND_CHILD_INDEXES)
        ≡ answers_of RESERVED_MODES_AND_CHILD_INDEXES }
{}

/// The registers that take a source's number take all 32 bits of it, in their byte order: 0, and a
/// number that is no source's, are ignored. They read 0.
pub const SOURCES_BY_NUMBER: [(&str, &str); 48] = [
    ("machine 1 0 63 8", "ok"),
    ("st 0x0c000004 1", "ok"),
    ("st 0x0c000008 4", "ok"),
    ("st 0x0c000020 1", "ok"),
    ("st 0x0c001cdc 0", "ok"),
    ("st 0x0c001cdc 9", "ok"),
    ("st 0x0c001cdc 0x80000001", "ok"),
    ("st 0x0c001cdc 0x01000000", "ok"),
    ("ld 0x0c001c00", "0x00000000"),
    ("st 0x0c001cdc 1", "ok"),
    ("ld 0x0c001c00", "0x00000002"),
    ("st 0x0c002004 2", "ok"),
    ("st 0x0c002004 0x09000000", "ok"),
    ("st 0x0c002004 0x02000001", "ok"),
    ("ld 0x0c001c00", "0x00000002"),
    ("st 0x0c002004 0x02000000", "ok"),
    ("ld 0x0c001c00", "0x00000006"),
    ("st 0x0c002000 0x08000000", "ok"),
    ("st 0x0c002000 9", "ok"),
    ("ld 0x0c001c00", "0x00000006"),
    ("st 0x0c002000 8", "ok"),
    ("ld 0x0c001c00", "0x00000106"),
    ("st 0x0c001ddc 0", "ok"),
    ("st 0x0c001ddc 9", "ok"),
    ("st 0x0c001ddc 0x80000001", "ok"),
    ("st 0x0c001ddc 0x01000000", "ok"),
    ("ld 0x0c001c00", "0x00000106"),
    ("st 0x0c001ddc 1", "ok"),
    ("ld 0x0c001c00", "0x00000104"),
    ("st 0x0c001edc 0", "ok"),
    ("st 0x0c001edc 9", "ok"),
    ("st 0x0c001edc 0x10008", "ok"),
    ("ld 0x0c001e00", "0x00000000"),
    ("st 0x0c001edc 8", "ok"),
    ("st 0x0c001edc 2", "ok"),
    ("ld 0x0c001e00", "0x00000104"),
    ("st 0x0c001fdc 0", "ok"),
    ("st 0x0c001fdc 9", "ok"),
    ("st 0x0c001fdc 0x80000008", "ok"),
    ("ld 0x0c001e00", "0x00000104"),
    ("st 0x0c001fdc 8", "ok"),
    ("ld 0x0c001e00", "0x00000004"),
    ("ld 0x0c001cdc", "0x00000000"),
    ("ld 0x0c001ddc", "0x00000000"),
    ("ld 0x0c001edc", "0x00000000"),
    ("ld 0x0c001fdc", "0x00000000"),
    ("ld 0x0c002000", "0x00000000"),
    ("ld 0x0c002004", "0x00000000"),
];

/// Proves that the model answers [`SOURCES_BY_NUMBER`] as it says.
pub fn sources_are_named_by_number()
    ensures { answers (script_of SOURCES_BY_NUMBER) ≡ answers_of SOURCES_BY_NUMBER }
{}

/// What a target keeps: the hart index, 0 where that hart isn't there, and the priority, 1 where 0
/// is written. A source that isn't active, or isn't there, has none.
pub const TARGETS_OF_HARTS_AND_PRIORITIES: [(&str, &str); 27] = [
    ("machine 2 0 63 8", "ok"),
    ("st 0x0c000004 4", "ok"),
    ("ld 0x0c003004", "0x00000001"),
    ("st 0x0c003004 0x4000a", "ok"),
    ("ld 0x0c003004", "0x0004000a"),
    ("st 0x0c003004 0x8000a", "ok"),
    ("ld 0x0c003004", "0x0000000a"),
    ("st 0x0c003004 0x40000", "ok"),
    ("ld 0x0c003004", "0x00040001"),
    ("st 0x0c003004 0x40100", "ok"),
    ("ld 0x0c003004", "0x00040001"),
    ("st 0x0c003004 0x7ffff", "ok"),
    ("ld 0x0c003004", "0x000400ff"),
    ("st 0x0c003004 0xffffffff", "ok"),
    ("ld 0x0c003004", "0x000000ff"),
    ("st 0x0c003004 0", "ok"),
    ("ld 0x0c003004", "0x00000001"),
    ("st 0x0c003008 0x40005", "ok"),
    ("ld 0x0c003008", "0x00000000"),
    ("st 0x0c003024 0x40005", "ok"),
    ("ld 0x0c003024", "0x00000000"),
    ("st 0x0c000008 0x400", "ok"),
    ("st 0x0c008008 6", "ok"),
    ("ld 0x0c00b008", "0x00000001"),
    ("st 0x0c00b008 0x40007", "ok"),
    ("ld 0x0c00b008", "0x00040007"),
    ("ld 0x0c003008", "0x00000000"),
];

/// Proves that the model answers [`TARGETS_OF_HARTS_AND_PRIORITIES`] as it says.
pub fn targets_of_harts_and_priorities()
    ensures { answers (script_of TARGETS_OF_HARTS_AND_PRIORITIES)
        ≡ answers_of TARGETS_OF_HARTS_AND_PRIORITIES }
{}

/// Word k of the registers of pending bits, inputs and enable bits has the sources 32k to 32k + 31:
/// here the sources 31, 32 and 63, which are the last of a word, the first of one, and the last
/// that is there.
pub const WORDS_OF_SOURCES: [(&str, &str); 42] = [
    ("machine 1 0 63 63", "ok"),
    ("st 0x0c00007c 1", "ok"),
    ("st 0x0c000080 4", "ok"),
    ("st 0x0c0000fc 6", "ok"),
    ("st 0x0c000100 1", "ok"),
    ("ld 0x0c000100", "0x00000000"),
    ("st 0x0c001c00 0xffffffff", "ok"),
    ("ld 0x0c001c00", "0x80000000"),
    ("ld 0x0c001c04", "0x00000000"),
    ("st 0x0c001c04 1", "ok"),
    ("ld 0x0c001c04", "0x00000001"),
    ("wire 63 1", "ok"),
    ("ld 0x0c001c04", "0x80000001"),
    ("ld 0x0c001d04", "0x80000000"),
    ("wire 32 1", "ok"),
    ("ld 0x0c001d04", "0x80000001"),
    ("ld 0x0c001d00", "0x00000000"),
    ("st 0x0c001d04 0xffffffff", "ok"),
    ("ld 0x0c001c04", "0x80000000"),
    ("st 0x0c001d00 0x7fffffff", "ok"),
    ("ld 0x0c001c00", "0x80000000"),
    ("st 0x0c001d00 0x80000000", "ok"),
    ("ld 0x0c001c00", "0x00000000"),
    ("st 0x0c001e00 0xffffffff", "ok"),
    ("ld 0x0c001e00", "0x80000000"),
    ("st 0x0c001e04 0x7fffffff", "ok"),
    ("ld 0x0c001e04", "0x00000001"),
    ("st 0x0c001e04 0x80000000", "ok"),
    ("ld 0x0c001e04", "0x80000001"),
    ("st 0x0c001f04 1", "ok"),
    ("ld 0x0c001e04", "0x80000000"),
    ("st 0x0c001f00 0x7fffffff", "ok"),
    ("ld 0x0c001e00", "0x80000000"),
    ("st 0x0c001f00 0x80000000", "ok"),
    ("ld 0x0c001e00", "0x00000000"),
    ("ld 0x0c001f04", "0x00000000"),
    ("st 0x0c001c08 0xffffffff", "ok"),
    ("st 0x0c001e08 0xffffffff", "ok"),
    ("ld 0x0c001c08", "0x00000000"),
    ("ld 0x0c001d08", "0x00000000"),
    ("ld 0x0c001e08", "0x00000000"),
    ("ld 0x0c001c7c", "0x00000000"),
];

/// Proves that the model answers [`WORDS_OF_SOURCES`] as it says.
pub fn sources_are_named_by_the_bits_of_words()
    ensures { answers (script_of WORDS_OF_SOURCES) ≡ answers_of WORDS_OF_SOURCES }
{}

/// Source 1023, the last that a machine can have, by each register that names it.
pub const LAST_OF_ALL_SOURCES: [(&str, &str); 22] = [
    ("machine 1 0 63 1023", "ok"),
    ("st 0x0c000ffc 4", "ok"),
    ("ld 0x0c000ffc", "0x00000004"),
    ("wire 1023 1", "ok"),
    ("wire 1024 1", "range"),
    ("ld 0x0c001c7c", "0x80000000"),
    ("ld 0x0c001d7c", "0x80000000"),
    ("st 0x0c001ddc 1023", "ok"),
    ("ld 0x0c001c7c", "0x00000000"),
    ("st 0x0c002004 0xff030000", "ok"),
    ("ld 0x0c001c7c", "0x80000000"),
    ("st 0x0c001d7c 0x80000000", "ok"),
    ("ld 0x0c001c7c", "0x00000000"),
    ("st 0x0c001c7c 0xffffffff", "ok"),
    ("ld 0x0c001c7c", "0x80000000"),
    ("st 0x0c001e7c 0xffffffff", "ok"),
    ("ld 0x0c001e7c", "0x80000000"),
    ("st 0x0c001f7c 0x80000000", "ok"),
    ("ld 0x0c001e7c", "0x00000000"),
    ("st 0x0c003ffc 0xc8", "ok"),
    ("ld 0x0c003ffc", "0x000000c8"),
    ("ld 0x0c001c00", "0x00000000"),
];

/// Proves that the model answers [`LAST_OF_ALL_SOURCES`] as it says.
pub fn the_last_of_all_sources()
    ensures { answers (script_of LAST_OF_ALL_SOURCES) ≡ answers_of LAST_OF_ALL_SOURCES }
{}

/// Bit 0 of word 0, and the bits above the last source, stand for no source.
pub const BITS_OF_NO_SOURCE: [(&str, &str); 21] = [
    ("machine 1 0 63 8", "ok"),
    ("st 0x0c000004 1", "ok"),
    ("st 0x0c000020 7", "ok"),
    ("st 0x0c000024 7", "ok"),
    ("ld 0x0c001d00", "0x00000100"),
    ("st 0x0c001c00 0xfffffffd", "ok"),
    ("ld 0x0c001c00", "0x00000100"),
    ("st 0x0c001c00 2", "ok"),
    ("ld 0x0c001c00", "0x00000102"),
    ("st 0x0c001e00 0xfffffffd", "ok"),
    ("ld 0x0c001e00", "0x00000100"),
    ("st 0x0c001e00 0xffffffff", "ok"),
    ("ld 0x0c001e00", "0x00000102"),
    ("st 0x0c001f00 0xfffffefd", "ok"),
    ("ld 0x0c001e00", "0x00000102"),
    ("st 0x0c001f00 0xffffffff", "ok"),
    ("ld 0x0c001e00", "0x00000000"),
    ("st 0x0c001d00 0xfffffefd", "ok"),
    ("ld 0x0c001c00", "0x00000102"),
    ("st 0x0c001d00 0xffffffff", "ok"),
    ("ld 0x0c001c00", "0x00000100"),
];

/// Proves that the model answers [`BITS_OF_NO_SOURCE`] as it says.
pub fn bits_of_no_source_are_ignored()
    ensures { answers (script_of BITS_OF_NO_SOURCE) ≡ answers_of BITS_OF_NO_SOURCE }
{}

/// domaincfg keeps IE, bit 8, and DM, bit 2, each domain its own; bits 31 to 24 read 0x80, and all
/// others 0.
pub const DOMAINCFG_KEEPS_ENABLE_AND_DELIVERY: [(&str, &str); 17] = [
    ("machine 1 0 63 8", "ok"),
    ("ld 0x0c000000", "0x80000000"),
    ("st 0x0c000000 0xfffffffb", "ok"),
    ("ld 0x0c000000", "0x80000100"),
    ("ld 0x0c008000", "0x80000000"),
    ("st 0x0c008000 0x100", "ok"),
    ("ld 0x0c008000", "0x80000100"),
    ("st 0x0c000000 0xfffffefb", "ok"),
    ("ld 0x0c000000", "0x80000000"),
    ("ld 0x0c008000", "0x80000100"),
    ("st 0x0c008000 1", "ok"),
    ("ld 0x0c008000", "0x80000000"),
    ("st 0x0c008000 0xffffffff", "ok"),
    ("ld 0x0c008000", "0x80000104"),
    ("ld 0x0c000000", "0x80000000"),
    ("st 0x0c008000 0xfffffeff", "ok"),
    ("ld 0x0c008000", "0x80000004"),
];

/// Proves that the model answers [`DOMAINCFG_KEEPS_ENABLE_AND_DELIVERY`] as it says.
pub fn domaincfg_keeps_enable_and_delivery()
    ensures { answers (script_of DOMAINCFG_KEEPS_ENABLE_AND_DELIVERY)
        ≡ answers_of DOMAINCFG_KEEPS_ENABLE_AND_DELIVERY }
{}

/// Offsets of a domain's control region where no register is: they read 0 and keep nothing.
pub const NOTHING_AT_OTHER_OFFSETS: [(&str, &str); 17] = [
    ("machine 1 0 63 8", "ok"),
    ("st 0x0c001000 6", "ok"),
    ("ld 0x0c001000", "0x00000000"),
    ("st 0x0c001c80 1", "ok"),
    ("ld 0x0c001c80", "0x00000000"),
    ("st 0x0c001fd8 1", "ok"),
    ("ld 0x0c001fd8", "0x00000000"),
    ("st 0x0c002008 1", "ok"),
    ("ld 0x0c002008", "0x00000000"),
    ("st 0x0c00400c 1", "ok"),
    ("ld 0x0c00400c", "0x00000000"),
    ("st 0x0c007ff8 1", "ok"),
    ("ld 0x0c007ff8", "0x00000000"),
    ("st 0x0c009000 6", "ok"),
    ("ld 0x0c009000", "0x00000000"),
    ("st 0x0c00fff4 1", "ok"),
    ("ld 0x0c00fff4", "0x00000000"),
];

/// Proves that the model answers [`NOTHING_AT_OTHER_OFFSETS`] as it says.
pub fn nothing_is_at_other_offsets()
    ensures { answers (script_of NOTHING_AT_OTHER_OFFSETS) ≡ answers_of NOTHING_AT_OTHER_OFFSETS }
{}

/// The ends of the two control regions, the child's directly after the root's; addresses that are
/// not aligned, and such as differ in their high bits alone.
pub const ADDRESSES_OF_DOMAINS: [(&str, &str); 20] = [
    ("machine 1 0 63 8", "ok"),
    ("ld 0x0bfffffc", "fault"),
    ("st 0x0bfffffc 0", "fault"),
    ("ld 0x0c000000", "0x80000000"),
    ("ld 0x0c007ffc", "0x00000000"),
    ("ld 0x0c008000", "0x80000000"),
    ("ld 0x0c00fffc", "0x00000000"),
    ("st 0x0c00fffc 1", "ok"),
    ("ld 0x0c010000", "fault"),
    ("st 0x0c010000 1", "fault"),
    ("ld 0x0c000001", "fault"),
    ("ld 0x0c000002", "fault"),
    ("ld 0x0c008003", "fault"),
    ("st 0x0c000002 0x100", "fault"),
    ("st 0x0c000006 6", "fault"),
    ("ld 0x0c000000", "0x80000000"),
    ("ld 0x0c000004", "0x00000000"),
    ("ld 0x10c000000", "fault"),
    ("st 0xffffffff0c000004 6", "fault"),
    ("ld 0x0c000004", "0x00000000"),
];

/// Proves that the model answers [`ADDRESSES_OF_DOMAINS`] as it says.
pub fn addresses_of_domains()
    ensures { answers (script_of ADDRESSES_OF_DOMAINS) ≡ answers_of ADDRESSES_OF_DOMAINS }
{}

/// A number whose low ten or sixteen bits alone name a source names none, in each register that
/// takes a source's number.
pub const WHOLE_NUMBERS_OF_SOURCES: [(&str, &str); 23] = [
    ("machine 1 0 63 8", "ok"),
    ("st 0x0c000004 1", "ok"),
    ("st 0x0c000020 1", "ok"),
    ("st 0x0c002000 0x408", "ok"),
    ("st 0x0c002000 0x10008", "ok"),
    ("st 0x0c002000 0x80000001", "ok"),
    ("st 0x0c002004 0x08040000", "ok"),
    ("st 0x0c002004 0x08000100", "ok"),
    ("st 0x0c002004 0x01000080", "ok"),
    ("st 0x0c001cdc 0x408", "ok"),
    ("st 0x0c001cdc 0x10008", "ok"),
    ("ld 0x0c001c00", "0x00000000"),
    ("st 0x0c001c00 0x102", "ok"),
    ("st 0x0c001ddc 0x408", "ok"),
    ("st 0x0c001ddc 0x10001", "ok"),
    ("ld 0x0c001c00", "0x00000102"),
    ("st 0x0c001edc 0x408", "ok"),
    ("st 0x0c001edc 0x10001", "ok"),
    ("ld 0x0c001e00", "0x00000000"),
    ("st 0x0c001e00 0x102", "ok"),
    ("st 0x0c001fdc 0x408", "ok"),
    ("st 0x0c001fdc 0x10001", "ok"),
    ("ld 0x0c001e00", "0x00000102"),
];

/// Proves that the model answers [`WHOLE_NUMBERS_OF_SOURCES`] as it says.
pub fn sources_are_named_by_whole_numbers()
    ensures { answers (script_of WHOLE_NUMBERS_OF_SOURCES) ≡ answers_of WHOLE_NUMBERS_OF_SOURCES }
{}
