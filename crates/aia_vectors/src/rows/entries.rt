//! Entries of MSI page tables: what their two words say.
//!
//! Made of suite/rows/entries.rows by suite/make: edit the rows.

ghost use Rattle.std.specs.Prelude.{◌≡◌};
ghost use Rattle.aia_model.specs.Script.{answers};
ghost use Rattle.aia_vectors.specs.Rows.{script_of, answers_of};

/// Entries of each kind: a basic one, memory-resident ones, and those that say nothing.
pub const WHAT_ENTRIES_SAY: [(&str, &str); 8] = [
    ("machine 1 0 63 1", "ok"),
    (
        "entry 0x20000003 0x0a000001",
        "mrif 0x0000000080000000 0x0000000000028000 1",
    ),
    ("entry 0x0a000407 9", "basic 0x0000000000028001"),
    ("entry 0x0a000405 0", "misconfigured"),
    ("entry 0x0a00040e 0", "notvalid"),
    ("entry 0x8000000000000001 0", "custom"),
    ("entry 0x0a00040f 0", "misconfigured"),
    (
        "entry 0x20000003 0x100000000a000001",
        "mrif 0x0000000080000000 0x0000000000028000 1025",
    ),
];

/// Proves that the model answers [`WHAT_ENTRIES_SAY`] as it says.
pub fn what_entries_say()
    ensures { answers (script_of WHAT_ENTRIES_SAY) ≡ answers_of WHAT_ENTRIES_SAY }
{}

/// Whether an entry is valid is looked at first, then whether it is custom, then its mode and its
/// reserved bits. Modes 0 and 2 are reserved.
pub const ORDER_OF_LOOKS_AT_AN_ENTRY: [(&str, &str); 22] = [
    ("entry 0x0a000407 0", "nomachine"),
    ("machine 1 0 63 1", "ok"),
    ("entry 0 0", "notvalid"),
    ("entry 0x2 0", "notvalid"),
    ("entry 0x4 0", "notvalid"),
    ("entry 0x6 0", "notvalid"),
    ("entry 0x8000000000000000 0", "notvalid"),
    ("entry 0x8000000000000006 0", "notvalid"),
    ("entry 0xfffffffffffffffe 0xffffffffffffffff", "notvalid"),
    ("entry 0x8000000000000001 0", "custom"),
    ("entry 0x8000000000000003 0", "custom"),
    ("entry 0x8000000000000005 0", "custom"),
    ("entry 0x8000000000000007 0", "custom"),
    ("entry 0x8000000000000003 0xffffffffffffffff", "custom"),
    ("entry 0xffffffffffffffff 0xffffffffffffffff", "custom"),
    ("entry 0x7fffffffffffffff 0", "misconfigured"),
    ("entry 0x1 0", "misconfigured"),
    ("entry 0x5 0", "misconfigured"),
    ("entry 0x401 0", "misconfigured"),
    ("entry 0x405 0", "misconfigured"),
    (
        "entry 0x3 0",
        "mrif 0x0000000000000000 0x0000000000000000 0",
    ),
    ("entry 0x7 0", "basic 0x0000000000000000"),
];

/// Proves that the model answers [`ORDER_OF_LOOKS_AT_AN_ENTRY`] as it says.
pub fn order_of_looks_at_an_entry()
    ensures { answers (script_of ORDER_OF_LOOKS_AT_AN_ENTRY)
        ≡ answers_of ORDER_OF_LOOKS_AT_AN_ENTRY }
{}

/// Each reserved bit of word 0 makes a basic entry misconfigured; each end of the page's number is
/// a bit of it. Word 1 is not looked at.
pub const RESERVED_BITS_OF_BASIC_ENTRIES: [(&str, &str); 22] = [
    ("machine 1 0 63 1", "ok"),
    ("entry 0xf 0", "misconfigured"),
    ("entry 0x17 0", "misconfigured"),
    ("entry 0x27 0", "misconfigured"),
    ("entry 0x47 0", "misconfigured"),
    ("entry 0x87 0", "misconfigured"),
    ("entry 0x107 0", "misconfigured"),
    ("entry 0x207 0", "misconfigured"),
    ("entry 0x407 0", "basic 0x0000000000000001"),
    ("entry 0x20000000000007 0", "basic 0x0000080000000000"),
    ("entry 0x40000000000007 0", "misconfigured"),
    ("entry 0x80000000000007 0", "misconfigured"),
    ("entry 0x100000000000007 0", "misconfigured"),
    ("entry 0x200000000000007 0", "misconfigured"),
    ("entry 0x400000000000007 0", "misconfigured"),
    ("entry 0x800000000000007 0", "misconfigured"),
    ("entry 0x1000000000000007 0", "misconfigured"),
    ("entry 0x2000000000000007 0", "misconfigured"),
    ("entry 0x4000000000000007 0", "misconfigured"),
    ("entry 0x3ffffffffffc07 0", "basic 0x00000fffffffffff"),
    ("entry 0x407 0xffffffffffffffff", "basic 0x0000000000000001"),
    ("entry 0x207 0xffffffffffffffff", "misconfigured"),
];

/// Proves that the model answers [`RESERVED_BITS_OF_BASIC_ENTRIES`] as it says.
pub fn reserved_bits_of_basic_entries()
    ensures { answers (script_of RESERVED_BITS_OF_BASIC_ENTRIES)
        ≡ answers_of RESERVED_BITS_OF_BASIC_ENTRIES }
{}

/// Each reserved bit of word 0 and of word 1 makes an MRIF entry misconfigured; each end of the
/// address, of the page and of the identity of its notices is a bit of it.
pub const RESERVED_BITS_OF_MRIF_ENTRIES: [(&str, &str); 31] = [
    ("machine 1 0 63 1", "ok"),
    ("entry 0xb 0", "misconfigured"),
    ("entry 0x13 0", "misconfigured"),
    ("entry 0x23 0", "misconfigured"),
    ("entry 0x43 0", "misconfigured"),
    (
        "entry 0x83 0",
        "mrif 0x0000000000000200 0x0000000000000000 0",
    ),
    (
        "entry 0x20000000000003 0",
        "mrif 0x0080000000000000 0x0000000000000000 0",
    ),
    ("entry 0x40000000000003 0", "misconfigured"),
    ("entry 0x80000000000003 0", "misconfigured"),
    ("entry 0x100000000000003 0", "misconfigured"),
    ("entry 0x200000000000003 0", "misconfigured"),
    ("entry 0x400000000000003 0", "misconfigured"),
    ("entry 0x800000000000003 0", "misconfigured"),
    ("entry 0x1000000000000003 0", "misconfigured"),
    ("entry 0x2000000000000003 0", "misconfigured"),
    ("entry 0x4000000000000003 0", "misconfigured"),
    (
        "entry 0x3 0x1",
        "mrif 0x0000000000000000 0x0000000000000000 1",
    ),
    (
        "entry 0x3 0x200",
        "mrif 0x0000000000000000 0x0000000000000000 512",
    ),
    (
        "entry 0x3 0x400",
        "mrif 0x0000000000000000 0x0000000000000001 0",
    ),
    (
        "entry 0x3 0x20000000000000",
        "mrif 0x0000000000000000 0x0000080000000000 0",
    ),
    ("entry 0x3 0x40000000000000", "misconfigured"),
    ("entry 0x3 0x80000000000000", "misconfigured"),
    ("entry 0x3 0x100000000000000", "misconfigured"),
    ("entry 0x3 0x200000000000000", "misconfigured"),
    ("entry 0x3 0x400000000000000", "misconfigured"),
    ("entry 0x3 0x800000000000000", "misconfigured"),
    (
        "entry 0x3 0x1000000000000000",
        "mrif 0x0000000000000000 0x0000000000000000 1024",
    ),
    ("entry 0x3 0x2000000000000000", "misconfigured"),
    ("entry 0x3 0x4000000000000000", "misconfigured"),
    ("entry 0x3 0x8000000000000000", "misconfigured"),
    ("entry 0x3 0xffffffffffffffff", "misconfigured"),
];

/// Proves that the model answers [`RESERVED_BITS_OF_MRIF_ENTRIES`] as it says.
pub fn reserved_bits_of_mrif_entries()
    ensures { answers (script_of RESERVED_BITS_OF_MRIF_ENTRIES)
        ≡ answers_of RESERVED_BITS_OF_MRIF_ENTRIES }
{}

/// Entries of the greatest machine's last places: slot 31, whose notice has the identity 32, with
/// the supervisor file of hart 3 for its notices, and of hart 0; the last guest files of the harts
/// 0 and 1, and that of hart 3.
pub const ENTRIES_OF_THE_LAST_PLACES: [(&str, &str); 6] = [
    ("machine 4 31 63 1", "ok"),
    (
        "entry 0x20000f83 0x0a018020",
        "mrif 0x0000000080003e00 0x0000000000028060 32",
    ),
    (
        "entry 0x20000f83 0x0a000020",
        "mrif 0x0000000080003e00 0x0000000000028000 32",
    ),
    ("entry 0x0a007c07 0", "basic 0x000000000002801f"),
    ("entry 0x0a00fc07 0", "basic 0x000000000002803f"),
    ("entry 0x0a01fc07 0", "basic 0x000000000002807f"),
];

/// Proves that the model answers [`ENTRIES_OF_THE_LAST_PLACES`] as it says.
pub fn entries_of_the_last_places()
    ensures { answers (script_of ENTRIES_OF_THE_LAST_PLACES)
        ≡ answers_of ENTRIES_OF_THE_LAST_PLACES }
{}

/// The greatest page, address and identity that an entry says, and the least identity whose bit 10
/// stands apart.
pub const GREATEST_ENTRIES: [(&str, &str); 10] = [
    ("machine 1 0 63 1", "ok"),
    ("entry 0x3ffffffffffc07 0", "basic 0x00000fffffffffff"),
    (
        "entry 0x3fffffffffff83 0",
        "mrif 0x00fffffffffffe00 0x0000000000000000 0",
    ),
    (
        "entry 0x3 0x3ffffffffffc00",
        "mrif 0x0000000000000000 0x00000fffffffffff 0",
    ),
    (
        "entry 0x3 0x3ff",
        "mrif 0x0000000000000000 0x0000000000000000 1023",
    ),
    (
        "entry 0x3 0x10000000000003ff",
        "mrif 0x0000000000000000 0x0000000000000000 2047",
    ),
    (
        "entry 0x3fffffffffff83 0x103fffffffffffff",
        "mrif 0x00fffffffffffe00 0x00000fffffffffff 2047",
    ),
    ("vm 1 0x8 0", "ok"),
    ("entry 0 0", "notvalid"),
    ("msi 0 0x28000000 1", "ok"),
];

/// Proves that the model answers [`GREATEST_ENTRIES`] as it says.
pub fn greatest_entries()
    ensures { answers (script_of GREATEST_ENTRIES) ≡ answers_of GREATEST_ENTRIES }
{}
