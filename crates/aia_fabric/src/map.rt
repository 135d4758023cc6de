//! Where memory has the slots and the MSI page tables of VMs, and which page takes their notices.

ghost use Rattle.std.specs.Prelude.{◌≡◌, ◌+◌, ◌*◌, ◌/◌, ◌%◌, ◌^◌, ◌<◌, IfSome, length, slice_index, slice_set};
ghost use Rattle.aia_regs.specs.AddressMap.{slot_address, supervisor_page};
ghost use Rattle.aia_regs.specs.declared.address_map.TheConstants.{PAGE};
ghost use Rattle.aia_regs.specs.declared.limits.TheConstants.{HARTS, VMS, VCPUS, MEMORY_WORDS};
ghost use Rattle.aia_entry.specs.Format.{mrif_word, notice_word};
ghost use Rattle.aia_ram.specs.Words.{HasWordAt};
ghost use Rattle.aia_fabric_values.specs.Stores.{slot_at};
ghost use Rattle.aia_fabric_values.specs.Making.{table_byte};

use aia_entry::mrif;
use aia_ram::Ram;
use aia_regs::address_map::{MEMORY, PAGE, SLOT, slot_address, supervisor_page, table_address};
use aia_regs::limits::VCPUS;

/// Finds the slot of memory that begins at `addr`.
pub fn slot_at(addr: u64) -> Option<u32>
    ensures value { result ≡ slot_at addr }
    ensures few { IfSome result (λ q. q < VCPUS) }
{
    if addr < MEMORY {
        return None;
    }
    let slot = (addr - MEMORY) / SLOT;
    if (addr - MEMORY) % SLOT == 0 && slot < u64::from(VCPUS) {
        Some(slot as u32)
    } else {
        None
    }
}

/// Gives the byte of memory at which the table of a VM begins.
pub fn table_byte(vm: u32) -> usize
    requires { vm < VMS }
    ensures { result ≡ table_byte vm }
{
    (table_address(vm) - MEMORY) as usize
}

/// Gives the number of the page of a hart's supervisor file, to which notices go.
pub fn notice_page(hart: u32) -> u64
    requires { hart < HARTS }
    ensures value { result ≡ supervisor_page hart / PAGE }
    ensures fits { result < 2 ^ 44 }
{
    supervisor_page(hart) / PAGE
}

/// Writes the entry at byte `at` of memory, whose two words are there: it leads to slot `slot`,
/// below `SLOTS`, and its notices go to the page of number `page`, below `2^44`, with the identity
/// `slot + 1`.
pub fn write_entry(ram: &mut Ram, at: usize, slot: u32, page: u64)
    requires word0 { HasWordAt ram.old at }
    requires word1 { at / 8 + 1 < length ram.old }
    requires few { length ram.old ≡ MEMORY_WORDS }
    requires slot { slot < VCPUS }
    requires page { page < 2 ^ 44 }
    ensures { ram.new ≡ slice_set (slice_set ram.old (at / 8) (mrif_word (slot_address slot)))
        (at / 8 + 1) (notice_word page (slot + 1)) }
{
    let (word0, word1) = mrif(slot_address(slot), page, slot + 1);
    ram.store(at, word0);
    ram.store(at + 8, word1);
}
