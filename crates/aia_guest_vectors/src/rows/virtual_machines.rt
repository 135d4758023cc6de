//! VMs: which may be made, and where the MSIs of their devices go.
//!
//! Made of suite/rows/guests/virtual_machines.rows by suite/make: edit the rows.

ghost use Rattle.std.specs.Prelude.{◌≡◌};
ghost use Rattle.aia_model.specs.Script.{answers};
ghost use Rattle.aia_vectors.specs.Rows.{script_of, answers_of};

/// A VM of two virtual harts: which MSIs of its device name a file, which name none and which are
/// no MSIs of the VM; VMs that may not be made for their numbers; and more VMs, until 32 virtual
/// harts stand in all.
pub const VMS_AND_THEIR_MSIS: [(&str, &str); 17] = [
    ("machine 1 0 63 1", "ok"),
    ("vm 2 0x38 0", "ok"),
    ("msi 0 0x28000000 1", "ok"),
    ("msi 0 0x28008000 1", "ok"),
    ("msi 0 0x28001000 1", "other"),
    ("msi 0 0x28038000 1", "notvalid"),
    ("msi 0 0x28000002 1", "fault"),
    ("msi 1 0x28000000 1", "range"),
    ("msi 0 0x28000010 1", "ok"),
    ("vm 1 0x8000 0", "range"),
    ("vm 3 0x8 0", "range"),
    ("vm 9 0x78 0", "ok"),
    ("vm 8 0x38 0", "ok"),
    ("vm 7 0x38 0", "ok"),
    ("vm 7 0x38 0", "full"),
    ("vm 6 0x38 0", "ok"),
    ("vm 1 0x8 0", "full"),
];

/// Proves that the model answers [`VMS_AND_THEIR_MSIS`] as it says.
pub fn vms_and_their_msis()
    ensures { answers (script_of VMS_AND_THEIR_MSIS) ≡ answers_of VMS_AND_THEIR_MSIS }
{}

/// The ones of a mask need not lie side by side: between them an address must agree with the
/// pattern. Each VM has a number of virtual harts of its own.
pub const MASK_WITH_A_GAP: [(&str, &str); 8] = [
    ("machine 1 0 63 1", "ok"),
    ("vm 3 0x28 0", "ok"),
    ("msi 0 0x28020000 1", "ok"),
    ("msi 0 0x28008000 1", "ok"),
    ("msi 0 0x28028000 1", "notvalid"),
    ("vm 4 0x28 0", "ok"),
    ("msi 1 0x28028000 1", "ok"),
    ("msi 1 0x28010000 1", "other"),
];

/// Proves that the model answers [`MASK_WITH_A_GAP`] as it says.
pub fn a_mask_with_a_gap()
    ensures { answers (script_of MASK_WITH_A_GAP) ≡ answers_of MASK_WITH_A_GAP }
{}

/// A VM whose numbers are out of range is refused for that also where there is no room for it. Room
/// is counted over all VMs, and a VM that is refused takes none.
pub const RANGE_COMES_BEFORE_FULL: [(&str, &str); 9] = [
    ("machine 1 0 63 1", "ok"),
    ("vm 17 0x8 0", "range"),
    ("vm 16 0x78 0", "ok"),
    ("vm 13 0x78 0", "ok"),
    ("vm 4 0x8 0", "range"),
    ("vm 4 0x18 0", "full"),
    ("vm 3 0x18 0", "ok"),
    ("msi 1 0x28000000 1", "ok"),
    ("msi 3 0x28000000 1", "range"),
];

/// Proves that the model answers [`RANGE_COMES_BEFORE_FULL`] as it says.
pub fn range_comes_before_full()
    ensures { answers (script_of RANGE_COMES_BEFORE_FULL) ≡ answers_of RANGE_COMES_BEFORE_FULL }
{}

/// The bits of an address's page at the ones of the mask, packed, the lowest first, are the number
/// of the file that it names; all other bits of its page must agree with the pattern, those above
/// the mask too. Each VM goes by its own mask.
pub const FILES_BY_PACKED_BITS: [(&str, &str); 30] = [
    ("machine 1 0 63 1", "ok"),
    ("vm 5 0x4209 0", "ok"),
    ("msi 0 0x28000000 1", "ok"),
    ("msi 0 0x28001000 1", "ok"),
    ("msi 0 0x28008000 1", "ok"),
    ("msi 0 0x28009000 1", "ok"),
    ("msi 0 0x28200000 1", "ok"),
    ("msi 0 0x28201000 1", "notvalid"),
    ("msi 0 0x28208000 1", "notvalid"),
    ("msi 0 0x28209000 1", "notvalid"),
    ("msi 0 0x2c000000 1", "notvalid"),
    ("msi 0 0x2c001000 1", "notvalid"),
    ("msi 0 0x2c209000 1", "notvalid"),
    ("msi 0 0x28002000 1", "other"),
    ("msi 0 0x28004000 1", "other"),
    ("msi 0 0x28010000 1", "other"),
    ("msi 0 0x28100000 1", "other"),
    ("msi 0 0x28400000 1", "other"),
    ("msi 0 0x2a000000 1", "other"),
    ("msi 0 0x20000000 1", "other"),
    ("msi 0 0x38000000 1", "other"),
    ("msi 0 0x08000000 1", "other"),
    ("msi 0 0x68000000 1", "other"),
    ("msi 0 0x128000000 1", "other"),
    ("msi 0 0x8000000028000000 1", "other"),
    ("vm 2 0x4000 0", "ok"),
    ("msi 1 0x2c000000 1", "ok"),
    ("msi 1 0x28001000 1", "other"),
    ("msi 0 0x2c000000 1", "notvalid"),
    ("msi 0 0x28001000 1", "ok"),
];

/// Proves that the model answers [`FILES_BY_PACKED_BITS`] as it says.
pub fn files_by_packed_bits()
    ensures { answers (script_of FILES_BY_PACKED_BITS) ≡ answers_of FILES_BY_PACKED_BITS }
{}

/// A mask has one to four ones, all below bit 15, and a VM has at least one virtual hart and at
/// most as many as its mask gives numbers. Masks at both ends are taken.
pub const MASKS_OF_VMS: [(&str, &str); 29] = [
    ("machine 1 0 63 1", "ok"),
    ("vm 1 0 0", "range"),
    ("vm 1 0x1f 0", "range"),
    ("vm 1 0x4f00 0", "range"),
    ("vm 1 0x7fff 0", "range"),
    ("vm 1 0x8000 0", "range"),
    ("vm 1 0x8001 0", "range"),
    ("vm 1 0x10000 0", "range"),
    ("vm 1 0x28000 0", "range"),
    ("vm 0 0x1 0", "range"),
    ("vm 3 0x4000 0", "range"),
    ("vm 5 0x4001 0", "range"),
    ("vm 9 0x4101 0", "range"),
    ("vm 17 0x7800 0", "range"),
    ("vm 1 0x1 1", "range"),
    ("msi 0 0x28000000 1", "range"),
    ("vm 2 0x4000 0", "ok"),
    ("vm 4 0x4001 0", "ok"),
    ("vm 16 0x7800 0", "ok"),
    ("vm 2 0x1 0", "ok"),
    ("vm 8 0x7800 0", "ok"),
    ("msi 0 0x2c000000 1", "ok"),
    ("msi 1 0x2c001000 1", "ok"),
    ("msi 2 0x2b800000 1", "ok"),
    ("msi 2 0x2c000000 1", "ok"),
    ("msi 2 0x2f800000 1", "ok"),
    ("msi 3 0x28001000 1", "ok"),
    ("msi 4 0x2b800000 1", "ok"),
    ("msi 4 0x2c000000 1", "notvalid"),
];

/// Proves that the model answers [`MASKS_OF_VMS`] as it says.
pub fn masks_of_vms()
    ensures { answers (script_of MASKS_OF_VMS) ≡ answers_of MASKS_OF_VMS }
{}

/// A VM has at most 16 virtual harts, as many as four ones of a mask give numbers, and all VMs have
/// at most 32; a hart that isn't there and a number out of range come first.
pub const ROOM_FOR_VMS: [(&str, &str); 22] = [
    ("machine 2 0 63 1", "ok"),
    ("vm 17 0xf 0", "range"),
    ("vm 17 0x1f 0", "range"),
    ("vm 33 0xf 0", "range"),
    ("vm 16 0xf 2", "range"),
    ("msi 0 0x28000000 1", "range"),
    ("vm 16 0xf 1", "ok"),
    ("vm 17 0xf 0", "range"),
    ("vm 8 0xf 1", "ok"),
    ("vm 9 0xf 0", "full"),
    ("vm 16 0xf 0", "full"),
    ("vm 4 0x3 0", "ok"),
    ("vm 5 0x7 0", "full"),
    ("vm 4 0x3 1", "ok"),
    ("vm 1 0x1 0", "full"),
    ("vm 1 0x1 2", "range"),
    ("vm 3 0x1 0", "range"),
    ("vm 0 0x1 0", "range"),
    ("vm 1 0 0", "range"),
    ("msi 0 0x2800f000 1", "ok"),
    ("msi 3 0x28003000 1", "ok"),
    ("msi 4 0x28000000 1", "range"),
];

/// Proves that the model answers [`ROOM_FOR_VMS`] as it says.
pub fn room_for_vms()
    ensures { answers (script_of ROOM_FOR_VMS) ≡ answers_of ROOM_FOR_VMS }
{}

/// Eight VMs stand at most, however few virtual harts they have.
pub const EIGHT_VMS: [(&str, &str); 18] = [
    ("machine 4 0 63 1", "ok"),
    ("vm 1 0x1 0", "ok"),
    ("vm 1 0x1 1", "ok"),
    ("vm 1 0x1 2", "ok"),
    ("vm 1 0x1 3", "ok"),
    ("vm 1 0x1 2", "ok"),
    ("vm 1 0x1 1", "ok"),
    ("vm 1 0x1 0", "ok"),
    ("msi 7 0x28000000 1", "range"),
    ("vm 1 0x1 4", "range"),
    ("vm 1 0x1 3", "ok"),
    ("vm 1 0x1 0", "full"),
    ("vm 16 0xf 0", "full"),
    ("vm 1 0x1 4", "range"),
    ("vm 3 0x1 0", "range"),
    ("msi 7 0x28000000 1", "ok"),
    ("msi 7 0x28001000 1", "notvalid"),
    ("msi 8 0x28000000 1", "range"),
];

/// Proves that the model answers [`EIGHT_VMS`] as it says.
pub fn eight_vms()
    ensures { answers (script_of EIGHT_VMS) ≡ answers_of EIGHT_VMS }
{}

/// A number above 2^32 - 1 is no number of virtual harts, no mask, no hart and no VM, though its
/// low 32 bits would be; an address is looked at whole. The value of `msi` is below 2^32, or it is
/// no line.
pub const NUMBERS_OF_VMS_ARE_NOT_CUT: [(&str, &str); 24] = [
    ("machine 1 0 63 1", "ok"),
    ("vm 4294967297 0x8 0", "range"),
    ("vm 4294967296 0x8 0", "range"),
    ("vm 1 0x100000008 0", "range"),
    ("vm 1 0x100000000 0", "range"),
    ("vm 1 0x8000000000000008 0", "range"),
    ("vm 1 0x8 4294967296", "range"),
    ("vm 18446744073709551615 0x8 0", "range"),
    ("vm 1 18446744073709551615 0", "range"),
    ("vm 18446744073709551616 0x8 0", "bad"),
    ("vm 1 0x10000000000000008 0", "bad"),
    ("vm 1 0x8 18446744073709551616", "bad"),
    ("vm 2 0x8 0", "ok"),
    ("msi 4294967296 0x28000000 1", "range"),
    ("msi 18446744073709551615 0x28000000 1", "range"),
    ("msi 18446744073709551616 0x28000000 1", "bad"),
    ("msi 0 0x128000000 1", "other"),
    ("msi 0 0x128008000 1", "other"),
    ("msi 0 0x10000000028000000 1", "bad"),
    ("msi 0 0x28000000 4294967297", "bad"),
    ("msi 0 0x28000000 0x100000001", "bad"),
    ("msi 4294967296 0x28000002 4294967296", "bad"),
    ("msi 0 0x28000000 4294967295", "ok"),
    ("msi 0 0x28000000 0x00000000ffffffff", "ok"),
];

/// Proves that the model answers [`NUMBERS_OF_VMS_ARE_NOT_CUT`] as it says.
pub fn numbers_of_vms_are_not_cut()
    ensures { answers (script_of NUMBERS_OF_VMS_ARE_NOT_CUT)
        ≡ answers_of NUMBERS_OF_VMS_ARE_NOT_CUT }
{}

/// Where more than one word would do, `range` comes first, then `fault`, `other`, `notvalid`.
pub const ORDER_OF_REFUSALS_OF_MSIS: [(&str, &str); 22] = [
    ("msi 0 0x28000000 1", "nomachine"),
    ("machine 1 0 63 1", "ok"),
    ("msi 0 0x28000000 1", "range"),
    ("vm 1 0x8 0", "ok"),
    ("msi 1 0x28000002 1", "range"),
    ("msi 1 0x30000000 1", "range"),
    ("msi 1 0x28008000 1", "range"),
    ("msi 0 0x28000001 1", "fault"),
    ("msi 0 0x28000ffe 1", "fault"),
    ("msi 0 0x30000002 1", "fault"),
    ("msi 0 0x28008003 1", "fault"),
    ("msi 0 0x28009002 1", "fault"),
    ("msi 0 0x28009000 1", "other"),
    ("msi 0 0x28001000 1", "other"),
    ("msi 0 0 1", "other"),
    ("msi 0 0x27fffffc 1", "other"),
    ("msi 0 0x28008000 1", "notvalid"),
    ("msi 0 0x28008004 1", "notvalid"),
    ("msi 0 0x28008ffc 1", "notvalid"),
    ("msi 0 0x28008000 0", "notvalid"),
    ("msi 0 0x28000000 1", "ok"),
    ("msi 0 0x28000ffc 1", "ok"),
];

/// Proves that the model answers [`ORDER_OF_REFUSALS_OF_MSIS`] as it says.
pub fn order_of_refusals_of_msis()
    ensures { answers (script_of ORDER_OF_REFUSALS_OF_MSIS) ≡ answers_of ORDER_OF_REFUSALS_OF_MSIS }
{}

/// A device of a VM may store any value at any offset of a page. What names no identity, or is at
/// an offset without a register, is discarded; and no identity is enabled in memory yet, so no
/// notice comes to the host.
pub const MSIS_AT_ALL_OFFSETS: [(&str, &str); 24] = [
    ("machine 1 0 63 1", "ok"),
    ("vm 1 0x8 0", "ok"),
    ("msi 0 0x28000000 0", "ok"),
    ("msi 0 0x28000000 1", "ok"),
    ("msi 0 0x28000000 1", "ok"),
    ("msi 0 0x28000000 63", "ok"),
    ("msi 0 0x28000000 64", "ok"),
    ("msi 0 0x28000000 2047", "ok"),
    ("msi 0 0x28000000 2048", "ok"),
    ("msi 0 0x28000000 0xffffffff", "ok"),
    ("msi 0 0x28000004 0x05000000", "ok"),
    ("msi 0 0x28000004 5", "ok"),
    ("msi 0 0x28000004 0xff070000", "ok"),
    ("msi 0 0x28000004 0x00080000", "ok"),
    ("msi 0 0x28000008 5", "ok"),
    ("msi 0 0x28000ffc 5", "ok"),
    ("h 0 csrrw siselect 0x80", "0x0000000000000000"),
    ("h 0 csrr sireg", "0x0000000000000000"),
    ("h 0 csrrw siselect 0xc0", "0x0000000000000080"),
    ("h 0 csrrw sireg 0xfffffffffffffffe", "0x0000000000000000"),
    ("msi 0 0x28000000 1", "ok"),
    ("msi 0 0x28000000 5", "ok"),
    ("h 0 csrr stopei", "0x0000000000000000"),
    ("pins 0", "pins 0 0 0 0"),
];

/// Proves that the model answers [`MSIS_AT_ALL_OFFSETS`] as it says.
pub fn msis_at_all_offsets()
    ensures { answers (script_of MSIS_AT_ALL_OFFSETS) ≡ answers_of MSIS_AT_ALL_OFFSETS }
{}

/// The greatest identities, at a machine that has them all: neither they nor a notice comes to a
/// file of the host, also not to that of the VM's notice hart.
pub const NO_NOTICE_OF_GREAT_IDENTITIES: [(&str, &str); 16] = [
    ("machine 2 0 2047 1", "ok"),
    ("vm 8 0x7 1", "ok"),
    ("msi 0 0x28007000 2047", "ok"),
    ("msi 0 0x28007000 2048", "ok"),
    ("msi 0 0x28000000 1024", "ok"),
    ("msi 0 0x28000004 0xff070000", "ok"),
    ("h 1 csrrw siselect 0x80", "0x0000000000000000"),
    ("h 1 csrr sireg", "0x0000000000000000"),
    ("h 1 csrrw siselect 0xa0", "0x0000000000000080"),
    ("h 1 csrr sireg", "0x0000000000000000"),
    ("h 1 csrrw siselect 0xbe", "0x00000000000000a0"),
    ("h 1 csrr sireg", "0x0000000000000000"),
    ("h 0 csrrw siselect 0x80", "0x0000000000000000"),
    ("h 0 csrr sireg", "0x0000000000000000"),
    ("h 0 csrrw siselect 0xbe", "0x0000000000000080"),
    ("h 0 csrr sireg", "0x0000000000000000"),
];

/// Proves that the model answers [`NO_NOTICE_OF_GREAT_IDENTITIES`] as it says.
pub fn no_notice_of_great_identities()
    ensures { answers (script_of NO_NOTICE_OF_GREAT_IDENTITIES)
        ≡ answers_of NO_NOTICE_OF_GREAT_IDENTITIES }
{}

/// To a device of a VM the pages of the host's files and of guest files, the APLIC and memory are
/// not what they are to the host: an address names a file of its own VM, or it is no MSI address.
pub const DEVICES_OF_A_VM_REACH_ITS_FILES_ALONE: [(&str, &str); 27] = [
    ("machine 2 1 63 1", "ok"),
    ("vm 2 0x1 0", "ok"),
    ("vm 2 0x20 1", "ok"),
    ("h 0 csrrw siselect 0xc0", "0x0000000000000000"),
    ("h 0 csrrw sireg 0xfffffffffffffffe", "0x0000000000000000"),
    ("h 1 csrrw siselect 0xc0", "0x0000000000000000"),
    ("h 1 csrrw sireg 0xfffffffffffffffe", "0x0000000000000000"),
    ("m 0 csrrw miselect 0xc0", "0x0000000000000000"),
    ("m 0 csrrw mireg 0xfffffffffffffffe", "0x0000000000000000"),
    ("msi 0 0x28000000 5", "ok"),
    ("msi 0 0x28001000 5", "ok"),
    ("msi 0 0x28020000 5", "other"),
    ("msi 1 0x28020000 5", "ok"),
    ("msi 1 0x28001000 5", "other"),
    ("msi 0 0x24000000 5", "other"),
    ("msi 0 0x0c000000 0x104", "other"),
    ("msi 0 0x80000000 5", "other"),
    ("h 0 csrr stopei", "0x0000000000000000"),
    ("h 1 csrr stopei", "0x0000000000000000"),
    ("m 0 csrr mtopei", "0x0000000000000000"),
    ("ld 0x0c000000", "0x80000000"),
    ("st 0x28020000 7", "ok"),
    ("h 0 csrr stopei", "0x0000000000000000"),
    ("h 1 csrrw stopei 0", "0x0000000000070007"),
    ("msi 1 0x28020000 7", "ok"),
    ("h 1 csrr stopei", "0x0000000000000000"),
    ("pins 1", "pins 0 0 0 0"),
];

/// Proves that the model answers [`DEVICES_OF_A_VM_REACH_ITS_FILES_ALONE`] as it says.
pub fn devices_of_a_vm_reach_its_files_alone()
    ensures { answers (script_of DEVICES_OF_A_VM_REACH_ITS_FILES_ALONE)
        ≡ answers_of DEVICES_OF_A_VM_REACH_ITS_FILES_ALONE }
{}

/// Pages of guest files, and the memory where VMs keep files and page tables, stay out of the
/// host's reach; and an address where nothing is to the host may be an MSI address of a VM.
pub const GUARDED_BESIDE_VMS: [(&str, &str); 21] = [
    ("machine 2 2 63 1", "ok"),
    ("vm 8 0x7 0", "ok"),
    ("vm 2 0x1 1", "ok"),
    ("ld 0x28001000", "guarded"),
    ("st 0x28002000 5", "guarded"),
    ("ld 0x28003000", "fault"),
    ("msi 0 0x28003000 5", "ok"),
    ("st 0x28021000 5", "guarded"),
    ("ld 0x28023000", "fault"),
    ("ld 0x80000000", "guarded"),
    ("st 0x80000000 1", "guarded"),
    ("ld 0x80000008", "guarded"),
    ("st 0x80000e00 1", "guarded"),
    ("ld 0x80002000", "guarded"),
    ("ld 0x80004000", "guarded"),
    ("st 0x80004008 1", "guarded"),
    ("ld 0x80005010", "guarded"),
    ("ld 0x8000bffc", "guarded"),
    ("ld 0x8000c000", "fault"),
    ("st 0x80000002 1", "fault"),
    ("ld 0x28000000", "0x00000000"),
];

/// Proves that the model answers [`GUARDED_BESIDE_VMS`] as it says.
pub fn guarded_beside_vms()
    ensures { answers (script_of GUARDED_BESIDE_VMS) ≡ answers_of GUARDED_BESIDE_VMS }
{}

/// Lines of VMs and of entries that spell no line, and numbers spelled in both ways.
pub const SPELLING_OF_VM_LINES: [(&str, &str); 30] = [
    ("vm 1 0x8 0", "nomachine"),
    ("vm 9 0 9", "nomachine"),
    ("msi 9 2 1", "nomachine"),
    ("vm 1 0x8", "bad"),
    ("vm", "bad"),
    ("vm 1 0x8 0 0", "bad"),
    ("vm 01 0x8 0", "bad"),
    ("vm 1 08 0", "bad"),
    ("vm 1 0x08 00", "bad"),
    ("vm -1 0x8 0", "bad"),
    ("VM 1 0x8 0", "bad"),
    ("vms 1 0x8 0", "bad"),
    ("v 1 0x8 0", "bad"),
    ("msi 0 0x28000000", "bad"),
    ("msi 0x28000000 1", "bad"),
    ("msi 0 0x28000000 1 1", "bad"),
    ("msi 0 0x28000000 01", "bad"),
    ("msi 0 28000000h 1", "bad"),
    ("ms 0 0x28000000 1", "bad"),
    ("entry", "bad"),
    ("entry 0", "bad"),
    ("entry 0 0 0", "bad"),
    ("entry 0x 0", "bad"),
    ("entry 1 18446744073709551616", "bad"),
    ("entry 0x10000000000000000 0", "bad"),
    ("machine 1 0 63 1", "ok"),
    ("vm 0x2 8 0x0", "ok"),
    ("msi 0x0 671088640 0x1", "ok"),
    ("msi 0 671121408 0x00000001", "ok"),
    ("entry 167773191 0x0", "basic 0x0000000000028001"),
];

/// Proves that the model answers [`SPELLING_OF_VM_LINES`] as it says.
pub fn spelling_of_vm_lines()
    ensures { answers (script_of SPELLING_OF_VM_LINES) ≡ answers_of SPELLING_OF_VM_LINES }
{}
