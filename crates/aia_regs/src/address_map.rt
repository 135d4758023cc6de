//! Where the interrupt files of harts, the domains of the APLIC and the memory lie. Profile: all
//! addresses. A hart's stride and the size of memory follow from the limits; a law says that
//! nothing overlaps.

ghost use Rattle.std.specs.Prelude.{◌≡◌, ◌<◌, ◌≤◌};
ghost use Rattle.aia_regs.specs.declared.limits.TheConstants.{HARTS};
ghost use Rattle.aia_regs.specs.AddressMap.{supervisor_page, guest_page, slot_address, table_address, is_in_memory};

use crate::limits::{GUEST_FILES, SLOTS, VMS};

/// The control region of the APLIC's root domain; its child's is the next [`REGION`] bytes.
pub const ROOT_DOMAIN: u64 = 0x0c00_0000;

/// The bytes of a domain's control region.
pub const REGION: u64 = 0x8000;

/// The page of hart 0's machine-level file; each further hart's is the next page.
pub const MACHINE_FILES: u64 = 0x2400_0000;

/// The page of hart 0's supervisor file; each further hart's is [`HART_STRIDE`] bytes on.
pub const SUPERVISOR_FILES: u64 = 0x2800_0000;

/// The bytes from one hart's supervisor file to the next one's: that file's page and the pages of
/// the hart's guest files, which lie in between.
pub const HART_STRIDE: u64 = PAGE * (1 + GUEST_FILES as u64);

/// The bits of a hart's number in the addresses of MSIs to supervisor level: [`HARTS`] is 2 to the
/// power of it.
///
/// [`HARTS`]: crate::limits::HARTS
pub const HART_BITS: u32 = 2;

/// How far that number is shifted there, in numbers of pages: [`HART_STRIDE`] is [`PAGE`] times 2
/// to the power of it.
pub const HART_SHIFT: u32 = 5;

/// The bytes of one interrupt file's page.
pub const PAGE: u64 = 0x1000;

/// The first byte of memory.
pub const MEMORY: u64 = 0x8000_0000;

/// The bytes of a slot of memory; slot 0 is at [`MEMORY`], each further one right after.
pub const SLOT: u64 = 0x200;

/// The MSI page table of VM 0, right after the slots; each further VM's is [`TABLE`] bytes on.
pub const TABLES: u64 = MEMORY + SLOTS as u64 * SLOT;

/// The bytes from one VM's MSI page table to the next one's.
pub const TABLE: u64 = 0x1000;

/// The first byte after memory, right after the tables of all VMs.
pub const MEMORY_END: u64 = TABLES + VMS as u64 * TABLE;

/// The bits of the page number of a VM's MSI address where its mask has a 0: the address pattern,
/// the same for all VMs, which is the number of the page of hart 0's supervisor file.
pub const PATTERN: u64 = SUPERVISOR_FILES / PAGE;

/// Gives the first address of the page of a hart's supervisor file, where its notices go.
pub fn supervisor_page(hart: u32) -> u64
    requires { hart < HARTS }
    ensures { result ≡ supervisor_page hart }
{
    SUPERVISOR_FILES + u64::from(hart) * HART_STRIDE
}

/// Gives the first address of the page of a hart's guest file.
pub fn guest_page(hart: u32, file: u32) -> u64
    requires hart { hart < HARTS }
    requires file { file ≤ GUEST_FILES }
    ensures { result ≡ guest_page hart file }
{
    supervisor_page(hart) + u64::from(file) * PAGE
}

/// Gives the first address of a slot of memory.
pub fn slot_address(q: u32) -> u64
    requires { q < SLOTS }
    ensures { result ≡ slot_address q }
{
    MEMORY + u64::from(q) * SLOT
}

/// Gives the first address of the MSI page table of a VM.
pub fn table_address(vm: u32) -> u64
    requires { vm < VMS }
    ensures { result ≡ table_address vm }
{
    TABLES + u64::from(vm) * TABLE
}

/// Tells whether an address lies in memory.
pub fn is_in_memory(addr: u64) -> bool
    ensures { result ≡ is_in_memory addr }
{
    (MEMORY..MEMORY_END).contains(&addr)
}
