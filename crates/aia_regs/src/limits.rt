//! How large a machine and its VMs may be. Profile: all limits stand here, once; the map of
//! addresses follows from them.

use crate::address_map::{SLOT, TABLE};

/// The most harts of a machine.
pub const HARTS: u32 = 4;

/// The most guest files of a hart.
pub const GUEST_FILES: u32 = 31;

/// The greatest identity that an interrupt file may have.
pub const IDENTITIES: u32 = 2047;

/// The most words of 64 identities that each set of an interrupt file has.
pub const FILE_WORDS: usize = (IDENTITIES as usize + 1) / 64;

/// The select numbers that a select CSR keeps are below this.
pub const SELECT_NUMBERS: u64 = 0x1000;

/// The most wired sources of a machine.
pub const SOURCES: u32 = 1023;

/// The words of 64 that have a bit for each source, bit 0 of the first one for none.
pub const SOURCE_WORDS: usize = (SOURCES as usize + 1) / 64;

/// The last hart whose interrupt delivery control a domain's region of 32 KiB has room for.
pub const LAST_CONTROL: u32 = 511;

/// The most VMs of a machine.
pub const VMS: u32 = 8;

/// The most virtual harts of a VM.
pub const VM_VCPUS: u32 = 16;

/// The most virtual harts of all VMs of a machine.
pub const VCPUS: u32 = 32;

/// The slots of memory: one for each virtual hart.
pub const SLOTS: u32 = VCPUS;

/// The most ones that a VM's mask has; it has at least 1.
pub const MASK_ONES: u32 = 4;

/// The ones of a VM's mask are all among its lowest bits, as many as this.
pub const MASK_BITS: u32 = 15;

/// The entries of a VM's MSI page table: as many as [`MASK_ONES`] bits number.
pub const ENTRIES: usize = 1 << MASK_ONES;

/// The words of a slot of memory, 64 bits each: for each word of a file's sets one of pending and
/// one of enable bits.
pub const SLOT_WORDS: usize = SLOT as usize / 8;

/// The words of memory that the slots fill; those of the tables come after them.
pub const WORDS_OF_SLOTS: usize = SLOTS as usize * SLOT_WORDS;

/// The words of memory: those of all slots, then those of the tables of all VMs.
pub const MEMORY_WORDS: usize = WORDS_OF_SLOTS + VMS as usize * TABLE as usize / 8;

/// The most stores of devices of a VM that are in flight.
pub const STORES_IN_FLIGHT: usize = 8;

/// The most wired sources of a machine that are passed to virtual harts.
pub const PASSES: usize = 16;

/// The identity of the first pass at the supervisor file of its notice hart, those of the others
/// after it: the first one that no notice has.
pub const FIRST_PASS_IDENTITY: u32 = VCPUS + 1;
