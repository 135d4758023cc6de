//! Delivery by MSIs.
//!
//! Made of suite/rows/msi_delivery.rows by suite/make: edit the rows.

ghost use Rattle.std.specs.Prelude.{◌≡◌};
ghost use Rattle.aia_model.specs.Script.{answers};
ghost use Rattle.aia_vectors.specs.Rows.{script_of, answers_of};

/// A level source in a domain that delivers by MSIs: its rise is sent, and a register asks for it
/// again only while its input is high.
pub const LEVEL_SOURCE_BY_MSIS: [(&str, &str); 17] = [
    ("machine 1 0 63 8", "ok"),
    ("st 0x0c000000 0x104", "ok"),
    ("st 0x0c001bc0 0x24000", "ok"),
    ("st 0x0c000004 6", "ok"),
    ("st 0x0c003004 5", "ok"),
    ("st 0x0c001edc 1", "ok"),
    ("m 0 csrrw miselect 0x80", "0x0000000000000000"),
    ("wire 1 1", "ok"),
    ("m 0 csrrw mireg 0", "0x0000000000000020"),
    ("st 0x0c001ddc 1", "ok"),
    ("m 0 csrr mireg", "0x0000000000000000"),
    ("st 0x0c001cdc 1", "ok"),
    ("m 0 csrrw mireg 0", "0x0000000000000020"),
    ("wire 1 0", "ok"),
    ("st 0x0c001cdc 1", "ok"),
    ("m 0 csrr mireg", "0x0000000000000000"),
    ("ld 0x0c000000", "0x80000104"),
];

/// Proves that the model answers [`LEVEL_SOURCE_BY_MSIS`] as it says.
pub fn a_level_source_by_msis()
    ensures { answers (script_of LEVEL_SOURCE_BY_MSIS) ≡ answers_of LEVEL_SOURCE_BY_MSIS }
{}

/// `genmsi` sends an MSI at once, also where IE is 0, and reads what it keeps until the delivery
/// mode changes; a lock leaves the registers of MSI addresses as they are, and the child domain has
/// none.
pub const GENMSI_AND_THE_LOCK: [(&str, &str); 13] = [
    ("machine 2 0 63 8", "ok"),
    ("st 0x0c001bc0 0x24000", "ok"),
    ("st 0x0c001bc4 0x80001000", "ok"),
    ("st 0x0c001bc0 5", "ok"),
    ("ld 0x0c001bc0", "0x00024000"),
    ("ld 0x0c009bc0", "0x00000000"),
    ("st 0x0c000000 4", "ok"),
    ("st 0x0c003000 0x40007", "ok"),
    ("ld 0x0c003000", "0x00040007"),
    ("m 1 csrrw miselect 0x80", "0x0000000000000000"),
    ("m 1 csrr mireg", "0x0000000000000080"),
    ("st 0x0c000000 0", "ok"),
    ("ld 0x0c003000", "0x00000000"),
];

/// Proves that the model answers [`GENMSI_AND_THE_LOCK`] as it says.
pub fn genmsi_and_the_lock()
    ensures { answers (script_of GENMSI_AND_THE_LOCK) ≡ answers_of GENMSI_AND_THE_LOCK }
{}

/// A write of `sourcecfg` makes a level source pending again while its input is high, though its
/// MSI was sent.
pub const LEVEL_PENDED_AGAIN_BY_SOURCECFG: [(&str, &str); 14] = [
    ("machine 1 0 63 8", "ok"),
    ("st 0x0c000000 0x104", "ok"),
    ("st 0x0c001bc0 0x24000", "ok"),
    ("st 0x0c000004 6", "ok"),
    ("st 0x0c003004 5", "ok"),
    ("st 0x0c001edc 1", "ok"),
    ("wire 1 1", "ok"),
    ("m 0 csrrw miselect 0x80", "0x0000000000000000"),
    ("m 0 csrrw mireg 0", "0x0000000000000020"),
    ("st 0x0c000004 6", "ok"),
    ("m 0 csrrw mireg 0", "0x0000000000000020"),
    ("wire 1 0", "ok"),
    ("st 0x0c000004 6", "ok"),
    ("m 0 csrr mireg", "0x0000000000000000"),
];

/// Proves that the model answers [`LEVEL_PENDED_AGAIN_BY_SOURCECFG`] as it says.
pub fn a_level_source_is_pended_again_by_sourcecfg()
    ensures { answers (script_of LEVEL_PENDED_AGAIN_BY_SOURCECFG)
        ≡ answers_of LEVEL_PENDED_AGAIN_BY_SOURCECFG }
{}

/// A change of the delivery mode sets all targets anew, and makes level sources pending exactly
/// where they are high; targets by MSIs have an identity.
pub const CHANGE_OF_DELIVERY: [(&str, &str); 20] = [
    ("machine 2 0 63 8", "ok"),
    ("st 0x0c000004 6", "ok"),
    ("st 0x0c000008 4", "ok"),
    ("st 0x0c003004 0x40007", "ok"),
    ("st 0x0c003008 0x40009", "ok"),
    ("wire 1 1", "ok"),
    ("wire 2 1", "ok"),
    ("ld 0x0c001c00", "0x00000006"),
    ("st 0x0c000000 4", "ok"),
    ("ld 0x0c003004", "0x00000000"),
    ("ld 0x0c003008", "0x00000000"),
    ("ld 0x0c001c00", "0x00000006"),
    ("st 0x0c001d00 2", "ok"),
    ("ld 0x0c001c00", "0x00000004"),
    ("st 0x0c003004 0x7ff", "ok"),
    ("ld 0x0c003004", "0x000007ff"),
    ("st 0x0c000000 0", "ok"),
    ("ld 0x0c003004", "0x00000001"),
    ("ld 0x0c001c00", "0x00000006"),
    ("ld 0x0c003000", "0x00000000"),
];

/// Proves that the model answers [`CHANGE_OF_DELIVERY`] as it says.
pub fn a_change_of_delivery()
    ensures { answers (script_of CHANGE_OF_DELIVERY) ≡ answers_of CHANGE_OF_DELIVERY }
{}

/// What the registers of MSI addresses keep of all ones, and that the lock, which comes with the
/// other fields, holds for all four from then on. The child domain's read 0 and keep nothing.
pub const ADDRESS_REGISTERS_KEEP_THEIR_FIELDS: [(&str, &str); 27] = [
    ("machine 1 0 63 8", "ok"),
    ("st 0x0c001bc0 0xffffffff", "ok"),
    ("ld 0x0c001bc0", "0xffffffff"),
    ("st 0x0c001bc8 0xffffffff", "ok"),
    ("ld 0x0c001bc8", "0xffffffff"),
    ("st 0x0c001bcc 0xffffffff", "ok"),
    ("ld 0x0c001bcc", "0x00700fff"),
    ("st 0x0c001bc4 0x7fffffff", "ok"),
    ("ld 0x0c001bc4", "0x1f77ffff"),
    ("st 0x0c009bc0 0xffffffff", "ok"),
    ("ld 0x0c009bc0", "0x00000000"),
    ("st 0x0c009bc4 0xffffffff", "ok"),
    ("ld 0x0c009bc4", "0x00000000"),
    ("st 0x0c009bc8 0xffffffff", "ok"),
    ("ld 0x0c009bc8", "0x00000000"),
    ("st 0x0c009bcc 0xffffffff", "ok"),
    ("ld 0x0c009bcc", "0x00000000"),
    ("st 0x0c001bc4 0xf0000001", "ok"),
    ("ld 0x0c001bc4", "0x90000001"),
    ("st 0x0c001bc0 1", "ok"),
    ("ld 0x0c001bc0", "0xffffffff"),
    ("st 0x0c001bc4 2", "ok"),
    ("ld 0x0c001bc4", "0x90000001"),
    ("st 0x0c001bc8 3", "ok"),
    ("ld 0x0c001bc8", "0xffffffff"),
    ("st 0x0c001bcc 4", "ok"),
    ("ld 0x0c001bcc", "0x00700fff"),
];

/// Proves that the model answers [`ADDRESS_REGISTERS_KEEP_THEIR_FIELDS`] as it says.
pub fn address_registers_keep_their_fields()
    ensures { answers (script_of ADDRESS_REGISTERS_KEEP_THEIR_FIELDS)
        ≡ answers_of ADDRESS_REGISTERS_KEEP_THEIR_FIELDS }
{}

/// A hart's index is a group and a number in it, each shifted to its place: harts 2 and 3 are group
/// 1, whose pages lie 2^(HHXS + 12) pages further on, where the machine-level files of harts 0 and
/// 1 are; the pages of group 0 are no file's.
pub const GROUPS_OF_HARTS: [(&str, &str); 16] = [
    ("machine 4 0 63 8", "ok"),
    ("st 0x0c001bc0 0x20000", "ok"),
    ("st 0x0c001bc4 0x02011000", "ok"),
    ("st 0x0c000000 4", "ok"),
    ("st 0x0c003000 0xc0005", "ok"),
    ("st 0x0c003000 0x80006", "ok"),
    ("st 0x0c003000 0x40007", "ok"),
    ("st 0x0c003000 8", "ok"),
    ("m 0 csrrw miselect 0x80", "0x0000000000000000"),
    ("m 0 csrr mireg", "0x0000000000000040"),
    ("m 1 csrrw miselect 0x80", "0x0000000000000000"),
    ("m 1 csrr mireg", "0x0000000000000020"),
    ("m 2 csrrw miselect 0x80", "0x0000000000000000"),
    ("m 2 csrr mireg", "0x0000000000000000"),
    ("m 3 csrrw miselect 0x80", "0x0000000000000000"),
    ("m 3 csrr mireg", "0x0000000000000000"),
];

/// Proves that the model answers [`GROUPS_OF_HARTS`] as it says.
pub fn groups_of_harts()
    ensures { answers (script_of GROUPS_OF_HARTS) ≡ answers_of GROUPS_OF_HARTS }
{}

/// One wire after the other, in either domain: the root domain's MSI asks in a machine-level file,
/// the child's in a supervisor file, of the hart that the target names.
pub const BOTH_DOMAINS_SEND_TO_THEIR_FILES: [(&str, &str); 27] = [
    ("machine 2 1 63 8", "ok"),
    ("st 0x0c001bc0 0x24000", "ok"),
    ("st 0x0c001bc4 0x1000", "ok"),
    ("st 0x0c001bc8 0x28000", "ok"),
    ("st 0x0c001bcc 0x500000", "ok"),
    ("st 0x0c000000 0x104", "ok"),
    ("st 0x0c008000 0x104", "ok"),
    ("st 0x0c000004 5", "ok"),
    ("st 0x0c000008 0x400", "ok"),
    ("st 0x0c008008 4", "ok"),
    ("st 0x0c003004 0x40009", "ok"),
    ("st 0x0c00b008 0x4000a", "ok"),
    ("st 0x0c001edc 1", "ok"),
    ("st 0x0c009edc 2", "ok"),
    ("wire 1 1", "ok"),
    ("wire 2 1", "ok"),
    ("wire 1 0", "ok"),
    ("m 1 csrrw miselect 0x80", "0x0000000000000000"),
    ("m 1 csrr mireg", "0x0000000000000200"),
    ("h 1 csrrw siselect 0x80", "0x0000000000000000"),
    ("h 1 csrr sireg", "0x0000000000000400"),
    ("m 0 csrrw miselect 0x80", "0x0000000000000000"),
    ("m 0 csrr mireg", "0x0000000000000000"),
    ("h 0 csrrw siselect 0x80", "0x0000000000000000"),
    ("h 0 csrr sireg", "0x0000000000000000"),
    ("ld 0x0c001c00", "0x00000000"),
    ("ld 0x0c009c00", "0x00000000"),
];

/// Proves that the model answers [`BOTH_DOMAINS_SEND_TO_THEIR_FILES`] as it says.
pub fn both_domains_send_to_their_files()
    ensures { answers (script_of BOTH_DOMAINS_SEND_TO_THEIR_FILES)
        ≡ answers_of BOTH_DOMAINS_SEND_TO_THEIR_FILES }
{}

/// A source is sent where it is enabled, and its domain's IE is 1, and not before; what was pending
/// is sent in the line that enables it.
pub const SENT_ONLY_WHERE_ENABLED: [(&str, &str); 18] = [
    ("machine 1 0 63 8", "ok"),
    ("st 0x0c001bc0 0x24000", "ok"),
    ("st 0x0c000000 4", "ok"),
    ("st 0x0c000004 1", "ok"),
    ("st 0x0c000008 1", "ok"),
    ("st 0x0c003004 3", "ok"),
    ("st 0x0c003008 4", "ok"),
    ("st 0x0c001c00 6", "ok"),
    ("st 0x0c001edc 1", "ok"),
    ("ld 0x0c001c00", "0x00000006"),
    ("m 0 csrrw miselect 0x80", "0x0000000000000000"),
    ("m 0 csrr mireg", "0x0000000000000000"),
    ("st 0x0c000000 0x104", "ok"),
    ("ld 0x0c001c00", "0x00000004"),
    ("m 0 csrr mireg", "0x0000000000000008"),
    ("st 0x0c001edc 2", "ok"),
    ("ld 0x0c001c00", "0x00000000"),
    ("m 0 csrr mireg", "0x0000000000000018"),
];

/// Proves that the model answers [`SENT_ONLY_WHERE_ENABLED`] as it says.
pub fn sent_only_where_enabled()
    ensures { answers (script_of SENT_ONLY_WHERE_ENABLED) ≡ answers_of SENT_ONLY_WHERE_ENABLED }
{}

/// An MSI whose page is no machine-level or supervisor file that is there is dropped: a guest's
/// page, a domain's own, memory, a hart that isn't there; and one that names no identity asks for
/// nothing. The source is sent all the same.
pub const MSIS_ELSEWHERE_ARE_DROPPED: [(&str, &str); 28] = [
    ("machine 1 1 63 8", "ok"),
    ("st 0x0c000000 0x104", "ok"),
    ("st 0x0c000004 1", "ok"),
    ("st 0x0c001edc 1", "ok"),
    ("st 0x0c003004 5", "ok"),
    ("st 0x0c001bc0 0x28001", "ok"),
    ("st 0x0c001cdc 1", "ok"),
    ("st 0x0c001bc0 0x24001", "ok"),
    ("st 0x0c001cdc 1", "ok"),
    ("st 0x0c001bc0 0x0c000", "ok"),
    ("st 0x0c001cdc 1", "ok"),
    ("st 0x0c001bc0 0x80000", "ok"),
    ("st 0x0c001cdc 1", "ok"),
    ("ld 0x0c001c00", "0x00000000"),
    ("st 0x0c001bc0 0x24000", "ok"),
    ("st 0x0c003004 64", "ok"),
    ("st 0x0c001cdc 1", "ok"),
    ("st 0x0c003004 0", "ok"),
    ("st 0x0c001cdc 1", "ok"),
    ("m 0 csrrw miselect 0x80", "0x0000000000000000"),
    ("m 0 csrr mireg", "0x0000000000000000"),
    ("h 0 csrrw siselect 0x80", "0x0000000000000000"),
    ("h 0 csrr sireg", "0x0000000000000000"),
    ("ld 0x0c000000", "0x80000104"),
    ("st 0x0c003004 63", "ok"),
    ("st 0x0c001cdc 1", "ok"),
    ("m 0 csrr mireg", "0x8000000000000000"),
    ("ld 0x0c001c00", "0x00000000"),
];

/// Proves that the model answers [`MSIS_ELSEWHERE_ARE_DROPPED`] as it says.
pub fn msis_elsewhere_are_dropped()
    ensures { answers (script_of MSIS_ELSEWHERE_ARE_DROPPED)
        ≡ answers_of MSIS_ELSEWHERE_ARE_DROPPED }
{}

/// A domain that delivers by MSIs shows a hart nothing: `topi` and `claimi` read 0 and do nothing,
/// its pin is low, and the registers of the hart's control keep what is written.
pub const NO_DIRECT_DELIVERY_BY_MSIS: [(&str, &str); 24] = [
    ("machine 1 0 63 8", "ok"),
    ("st 0x0c000000 0x100", "ok"),
    ("st 0x0c000004 1", "ok"),
    ("st 0x0c003004 7", "ok"),
    ("st 0x0c001cdc 1", "ok"),
    ("st 0x0c001edc 1", "ok"),
    ("st 0x0c004000 1", "ok"),
    ("st 0x0c004004 1", "ok"),
    ("st 0x0c004008 9", "ok"),
    ("ld 0x0c004018", "0x00010007"),
    ("pins 0", "pins 1 0 0 0"),
    ("st 0x0c000000 4", "ok"),
    ("ld 0x0c004018", "0x00000000"),
    ("ld 0x0c00401c", "0x00000000"),
    ("ld 0x0c004004", "0x00000001"),
    ("ld 0x0c004000", "0x00000001"),
    ("ld 0x0c004008", "0x00000009"),
    ("pins 0", "pins 0 0 0 0"),
    ("ld 0x0c001c00", "0x00000002"),
    ("st 0x0c004008 3", "ok"),
    ("ld 0x0c004008", "0x00000003"),
    ("st 0x0c000000 0x100", "ok"),
    ("ld 0x0c004018", "0x00010001"),
    ("pins 0", "pins 1 0 0 0"),
];

/// Proves that the model answers [`NO_DIRECT_DELIVERY_BY_MSIS`] as it says.
pub fn no_direct_delivery_by_msis()
    ensures { answers (script_of NO_DIRECT_DELIVERY_BY_MSIS)
        ≡ answers_of NO_DIRECT_DELIVERY_BY_MSIS }
{}

/// An MSI carries eleven bits of identity: a source's and `genmsi`'s, above 255, and none where the
/// file has no such identity.
pub const MSIS_OF_GREAT_IDENTITIES: [(&str, &str); 27] = [
    ("machine 1 0 511 8", "ok"),
    ("st 0x0c001bc0 0x24000", "ok"),
    ("st 0x0c001bc8 0x28000", "ok"),
    ("st 0x0c000000 0x104", "ok"),
    ("st 0x0c008000 4", "ok"),
    ("st 0x0c000004 1", "ok"),
    ("st 0x0c003004 0x100", "ok"),
    ("ld 0x0c003004", "0x00000100"),
    ("st 0x0c001edc 1", "ok"),
    ("st 0x0c001cdc 1", "ok"),
    ("st 0x0c003000 0x1ff", "ok"),
    ("ld 0x0c003000", "0x000001ff"),
    ("st 0x0c003000 0x201", "ok"),
    ("ld 0x0c003000", "0x00000201"),
    ("st 0x0c00b000 0x12c", "ok"),
    ("m 0 csrrw miselect 0x80", "0x0000000000000000"),
    ("m 0 csrr mireg", "0x0000000000000000"),
    ("m 0 csrrw miselect 0x86", "0x0000000000000080"),
    ("m 0 csrr mireg", "0x0000000000000000"),
    ("m 0 csrrw miselect 0x88", "0x0000000000000086"),
    ("m 0 csrr mireg", "0x0000000000000001"),
    ("m 0 csrrw miselect 0x8e", "0x0000000000000088"),
    ("m 0 csrr mireg", "0x8000000000000000"),
    ("h 0 csrrw siselect 0x80", "0x0000000000000000"),
    ("h 0 csrr sireg", "0x0000000000000000"),
    ("h 0 csrrw siselect 0x88", "0x0000000000000080"),
    ("h 0 csrr sireg", "0x0000100000000000"),
];

/// Proves that the model answers [`MSIS_OF_GREAT_IDENTITIES`] as it says.
pub fn msis_of_great_identities()
    ensures { answers (script_of MSIS_OF_GREAT_IDENTITIES) ≡ answers_of MSIS_OF_GREAT_IDENTITIES }
{}

/// The last identity that a file can have, 2047, reaches a file by an MSI; the bits of `genmsi`
/// above it, up to its hart, are read-only zero.
pub const MSI_OF_THE_LAST_IDENTITY: [(&str, &str); 7] = [
    ("machine 1 0 2047 1", "ok"),
    ("st 0x0c001bc0 0x24000", "ok"),
    ("st 0x0c000000 4", "ok"),
    ("st 0x0c003000 0x3ffff", "ok"),
    ("ld 0x0c003000", "0x000007ff"),
    ("m 0 csrrw miselect 0xbe", "0x0000000000000000"),
    ("m 0 csrr mireg", "0x8000000000000000"),
];

/// Proves that the model answers [`MSI_OF_THE_LAST_IDENTITY`] as it says.
pub fn an_msi_of_the_last_identity()
    ensures { answers (script_of MSI_OF_THE_LAST_IDENTITY) ≡ answers_of MSI_OF_THE_LAST_IDENTITY }
{}

/// In direct delivery `genmsi` keeps nothing and sends nothing, then or later; by MSIs it does
/// both.
pub const GENMSI_IN_DIRECT_DELIVERY: [(&str, &str); 22] = [
    ("machine 1 0 63 8", "ok"),
    ("st 0x0c001bc0 0x24000", "ok"),
    ("st 0x0c001bc8 0x28000", "ok"),
    ("m 0 csrrw miselect 0x80", "0x0000000000000000"),
    ("h 0 csrrw siselect 0x80", "0x0000000000000000"),
    ("st 0x0c003000 5", "ok"),
    ("ld 0x0c003000", "0x00000000"),
    ("st 0x0c00b000 5", "ok"),
    ("ld 0x0c00b000", "0x00000000"),
    ("m 0 csrr mireg", "0x0000000000000000"),
    ("h 0 csrr sireg", "0x0000000000000000"),
    ("st 0x0c000000 0x104", "ok"),
    ("ld 0x0c003000", "0x00000000"),
    ("m 0 csrr mireg", "0x0000000000000000"),
    ("st 0x0c003000 6", "ok"),
    ("ld 0x0c003000", "0x00000006"),
    ("m 0 csrr mireg", "0x0000000000000040"),
    ("st 0x0c000000 0x100", "ok"),
    ("st 0x0c003000 7", "ok"),
    ("ld 0x0c003000", "0x00000000"),
    ("m 0 csrr mireg", "0x0000000000000040"),
    ("h 0 csrr sireg", "0x0000000000000000"),
];

/// Proves that the model answers [`GENMSI_IN_DIRECT_DELIVERY`] as it says.
pub fn genmsi_in_direct_delivery()
    ensures { answers (script_of GENMSI_IN_DIRECT_DELIVERY) ≡ answers_of GENMSI_IN_DIRECT_DELIVERY }
{}

/// The page number of an MSI has 44 bits, 12 of them in the high registers: where one of those is 1
/// the page is no file's.
pub const HIGH_HALF_OF_THE_PAGE_NUMBER: [(&str, &str); 25] = [
    ("machine 1 0 63 8", "ok"),
    ("st 0x0c001bc0 0x24000", "ok"),
    ("st 0x0c001bc4 1", "ok"),
    ("ld 0x0c001bc4", "0x00000001"),
    ("st 0x0c000000 4", "ok"),
    ("st 0x0c003000 5", "ok"),
    ("st 0x0c001bc4 0x800", "ok"),
    ("ld 0x0c001bc4", "0x00000800"),
    ("st 0x0c003000 6", "ok"),
    ("st 0x0c001bc4 0", "ok"),
    ("st 0x0c003000 7", "ok"),
    ("m 0 csrrw miselect 0x80", "0x0000000000000000"),
    ("m 0 csrr mireg", "0x0000000000000080"),
    ("st 0x0c001bc8 0x28000", "ok"),
    ("st 0x0c001bcc 1", "ok"),
    ("ld 0x0c001bcc", "0x00000001"),
    ("st 0x0c008000 4", "ok"),
    ("st 0x0c00b000 5", "ok"),
    ("st 0x0c001bcc 0x800", "ok"),
    ("ld 0x0c001bcc", "0x00000800"),
    ("st 0x0c00b000 6", "ok"),
    ("st 0x0c001bcc 0", "ok"),
    ("st 0x0c00b000 7", "ok"),
    ("h 0 csrrw siselect 0x80", "0x0000000000000000"),
    ("h 0 csrr sireg", "0x0000000000000080"),
];

/// Proves that the model answers [`HIGH_HALF_OF_THE_PAGE_NUMBER`] as it says.
pub fn the_high_half_of_the_page_number()
    ensures { answers (script_of HIGH_HALF_OF_THE_PAGE_NUMBER)
        ≡ answers_of HIGH_HALF_OF_THE_PAGE_NUMBER }
{}

/// The group of a hart has HHXW bits, 0 to 7 of them, and what stands above them is dropped: with
/// one bit hart 3 is in group 1, with two in group 3, whose page is no file's, and with none all
/// harts are in group 0.
pub const WIDTH_OF_A_GROUP: [(&str, &str); 24] = [
    ("machine 4 0 63 8", "ok"),
    ("st 0x0c000000 4", "ok"),
    ("st 0x0c001bc0 0x20000", "ok"),
    ("st 0x0c001bc4 0x02010000", "ok"),
    ("ld 0x0c001bc4", "0x02010000"),
    ("st 0x0c003000 0xc0005", "ok"),
    ("st 0x0c001bc4 0x02020000", "ok"),
    ("ld 0x0c001bc4", "0x02020000"),
    ("st 0x0c003000 0xc0006", "ok"),
    ("st 0x0c001bc4 0x02040000", "ok"),
    ("ld 0x0c001bc4", "0x02040000"),
    ("st 0x0c003000 0x40009", "ok"),
    ("st 0x0c001bc0 0x24000", "ok"),
    ("st 0x0c001bc4 0x1000", "ok"),
    ("st 0x0c003000 0x80007", "ok"),
    ("st 0x0c003000 0xc0008", "ok"),
    ("m 0 csrrw miselect 0x80", "0x0000000000000000"),
    ("m 0 csrr mireg", "0x00000000000002a0"),
    ("m 1 csrrw miselect 0x80", "0x0000000000000000"),
    ("m 1 csrr mireg", "0x0000000000000100"),
    ("m 2 csrrw miselect 0x80", "0x0000000000000000"),
    ("m 2 csrr mireg", "0x0000000000000000"),
    ("m 3 csrrw miselect 0x80", "0x0000000000000000"),
    ("m 3 csrr mireg", "0x0000000000000000"),
];

/// Proves that the model answers [`WIDTH_OF_A_GROUP`] as it says.
pub fn the_width_of_a_group()
    ensures { answers (script_of WIDTH_OF_A_GROUP) ≡ answers_of WIDTH_OF_A_GROUP }
{}

/// The group of a hart begins at bit LHXW, 0 to 15, of its index, and the bits below are its number
/// in the group: at 0 hart 1 is group 1, at 2 and at 8 all harts are in group 0.
pub const PLACE_OF_A_GROUP: [(&str, &str); 21] = [
    ("machine 4 0 63 8", "ok"),
    ("st 0x0c000000 4", "ok"),
    ("st 0x0c001bc0 0x20000", "ok"),
    ("st 0x0c001bc4 0x02010000", "ok"),
    ("st 0x0c003000 0x40005", "ok"),
    ("st 0x0c001bc4 0x02012000", "ok"),
    ("ld 0x0c001bc4", "0x02012000"),
    ("st 0x0c003000 0x80006", "ok"),
    ("st 0x0c001bc4 0x02018000", "ok"),
    ("ld 0x0c001bc4", "0x02018000"),
    ("st 0x0c003000 0x40007", "ok"),
    ("st 0x0c001bc0 0x24000", "ok"),
    ("st 0x0c003000 0xc0008", "ok"),
    ("m 0 csrrw miselect 0x80", "0x0000000000000000"),
    ("m 0 csrr mireg", "0x0000000000000020"),
    ("m 1 csrrw miselect 0x80", "0x0000000000000000"),
    ("m 1 csrr mireg", "0x0000000000000000"),
    ("m 2 csrrw miselect 0x80", "0x0000000000000000"),
    ("m 2 csrr mireg", "0x0000000000000000"),
    ("m 3 csrrw miselect 0x80", "0x0000000000000000"),
    ("m 3 csrr mireg", "0x0000000000000100"),
];

/// Proves that the model answers [`PLACE_OF_A_GROUP`] as it says.
pub fn the_place_of_a_group()
    ensures { answers (script_of PLACE_OF_A_GROUP) ≡ answers_of PLACE_OF_A_GROUP }
{}

/// A group's number is shifted by HHXS + 12, HHXS 0 to 31: at 18, 10 and 31 group 1 is at no file's
/// page; at 2 it is where the machine-level files are, at 3 where the supervisor files are.
pub const SHIFT_OF_A_GROUP: [(&str, &str); 22] = [
    ("machine 2 0 63 8", "ok"),
    ("st 0x0c000000 4", "ok"),
    ("st 0x0c001bc0 0x20000", "ok"),
    ("st 0x0c001bc4 0x12010000", "ok"),
    ("ld 0x0c001bc4", "0x12010000"),
    ("st 0x0c003000 0x40005", "ok"),
    ("st 0x0c001bc4 0x1f010000", "ok"),
    ("ld 0x0c001bc4", "0x1f010000"),
    ("st 0x0c003000 0x40006", "ok"),
    ("st 0x0c001bc4 0x0a010000", "ok"),
    ("ld 0x0c001bc4", "0x0a010000"),
    ("st 0x0c003000 0x40007", "ok"),
    ("st 0x0c001bc4 0x02010000", "ok"),
    ("st 0x0c003000 0x40008", "ok"),
    ("st 0x0c001bc4 0x03010000", "ok"),
    ("st 0x0c003000 0x40009", "ok"),
    ("m 0 csrrw miselect 0x80", "0x0000000000000000"),
    ("m 0 csrr mireg", "0x0000000000000100"),
    ("m 1 csrrw miselect 0x80", "0x0000000000000000"),
    ("m 1 csrr mireg", "0x0000000000000000"),
    ("h 0 csrrw siselect 0x80", "0x0000000000000000"),
    ("h 0 csrr sireg", "0x0000000000000200"),
];

/// Proves that the model answers [`SHIFT_OF_A_GROUP`] as it says.
pub fn the_shift_of_a_group()
    ensures { answers (script_of SHIFT_OF_A_GROUP) ≡ answers_of SHIFT_OF_A_GROUP }
{}

/// A hart's number in its group is shifted by LHXS, 0 to 7, each domain by its own: at 6 hart 1 has
/// the page where hart 2's supervisor file is, at 5 that of its own, at 7 no file's.
pub const SHIFT_OF_A_HART: [(&str, &str); 24] = [
    ("machine 3 0 63 8", "ok"),
    ("st 0x0c000000 4", "ok"),
    ("st 0x0c008000 4", "ok"),
    ("st 0x0c001bc0 0x28000", "ok"),
    ("st 0x0c001bc4 0x00602000", "ok"),
    ("ld 0x0c001bc4", "0x00602000"),
    ("st 0x0c003000 0x40005", "ok"),
    ("st 0x0c001bc4 0x00702000", "ok"),
    ("ld 0x0c001bc4", "0x00702000"),
    ("st 0x0c003000 0x40006", "ok"),
    ("st 0x0c001bc4 0x00502000", "ok"),
    ("st 0x0c003000 0x40007", "ok"),
    ("st 0x0c001bc8 0x28000", "ok"),
    ("st 0x0c001bcc 0x00600000", "ok"),
    ("ld 0x0c001bcc", "0x00600000"),
    ("st 0x0c00b000 0x40009", "ok"),
    ("st 0x0c001bcc 0x00700000", "ok"),
    ("st 0x0c00b000 0x4000a", "ok"),
    ("h 0 csrrw siselect 0x80", "0x0000000000000000"),
    ("h 0 csrr sireg", "0x0000000000000000"),
    ("h 1 csrrw siselect 0x80", "0x0000000000000000"),
    ("h 1 csrr sireg", "0x0000000000000080"),
    ("h 2 csrrw siselect 0x80", "0x0000000000000000"),
    ("h 2 csrr sireg", "0x0000000000000220"),
];

/// Proves that the model answers [`SHIFT_OF_A_HART`] as it says.
pub fn the_shift_of_a_hart()
    ensures { answers (script_of SHIFT_OF_A_HART) ≡ answers_of SHIFT_OF_A_HART }
{}
