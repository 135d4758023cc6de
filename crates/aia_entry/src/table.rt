ghost use Rattle.std.specs.Prelude.{◌≡◌, ℕ, ◌+◌, ◌*◌, ◌^◌, ◌<◌, ◌↔◌, false};
ghost use Rattle.std.specs.Int.{is_in_range};
ghost use Rattle.aia_word.specs.Packed.{ones};
ghost use Rattle.aia_ram.specs.Words.{HasWordAt};
ghost use Rattle.aia_entry.specs.Translation.{IsMask, is_mask, is_msi_address, file_number};
ghost use Rattle.aia_entry.specs.Tables.{new_table, entry_in_force, entry_byte, fenced, leads_by, route_of};

use crate::{Entry, decode};
use aia_ram::Ram;
use aia_regs::address_map::{PAGE, PATTERN};
use aia_regs::limits::{ENTRIES, MASK_BITS, MASK_ONES};
use aia_word::extract;
use std::marker::Model;

/// Where a store of a device of a VM goes.
#[derive(Clone, Copy, Debug, PartialEq, Eq)]
pub enum Route {
    /// Its address is no MSI address of the VM.
    Other,
    /// The entry in force is not valid, custom or misconfigured, and leads nowhere.
    Fault(Entry),
    /// The entry in force is basic or MRIF, and leads to its place.
    To(Entry),
}

/// The MSI page table of a VM: its mask, where it begins in memory, and what of it is in force.
#[derive(Drop)]
pub struct Table {
    mask: u64,
    start: usize,
    in_force: [Entry; ENTRIES],
}

impl Model for Table {
    ghost use Rattle.std.specs.Prelude.{◌≡◌, length};
    ghost use Rattle.aia_regs.specs.declared.limits.TheConstants.{ENTRIES};
    ghost use Rattle.aia_entry.specs.Tables.{TableState};
    ghost use Rattle.aia_entry.specs.Translation.{IsMask};

    ghost Value = { TableState };

    ghost view = { λ t. record { mask = t.mask; start = t.start; in_force = t.in_force } };

    ghost invariant = { λ t. (IsMask t.mask) × (length t.in_force ≡ ENTRIES) };
}

impl Table {
    /// Makes the table at byte `start` of memory of a VM with this mask; no entry in force is
    /// valid.
    pub fn new(mask: u64, start: usize) -> Table
        requires { IsMask mask }
        ensures { result ≡ new_table mask start }
    {
        Table {
            mask,
            start,
            in_force: [Entry::NotValid; ENTRIES],
        }
    }

    /// Tells where a store of a device at `addr` goes; `Other` exactly where `addr` is no MSI
    /// address of the VM.
    pub fn route(&self, addr: u64) -> Route
        ensures route { result ≡ route_of self.now addr }
        ensures other { (result ≡ Route.Other) ↔ (is_msi_address self.now.mask addr ≡ false) }
    {
        if is_msi_address(self.mask, addr) {
            leads_by(self.entry_for(addr))
        } else {
            Route::Other
        }
    }

    /// Gives the entry in force for the file that an MSI address names.
    #[tactic(auto, using(crate::proofs::TableLemmas::named_has_entry, crate::proofs::TableLemmas::entry_read))]
    fn entry_for(&self, addr: u64) -> Entry
        ensures { result ≡ entry_in_force self.now (file_number self.now.mask addr) }
    {
        let file = extract(addr / PAGE, self.mask);
        self.in_force[file as usize]
    }

    /// Puts the entry of a file in force as its two words in memory say it.
    #[tactic(auto, using(crate::proofs::TableLemmas::has_entry))]
    pub fn fence(&mut self, file: u32, ram: &Ram)
        requires file { file < 2 ^ ones 64 self.old.mask }
        requires word0 { HasWordAt ram.now (entry_byte self.old file) }
        requires word1 { HasWordAt ram.now (entry_byte self.old file + 8) }
        ensures { self.new ≡ fenced ram.now file self.old }
    {
        let end = ram.len();
        prove!(self.start < end);
        let at = self.start + 16 * file as usize;
        self.in_force[file as usize] = decode(ram.load(at), ram.load(at + 8));
    }
}

/// Tells whether `mask` may be the mask of a VM: it has 1 to `MASK_ONES` ones, all below bit
/// `MASK_BITS`.
#[tactic(auto, using(crate::proofs::TableLemmas::mask_by_ones))]
pub fn is_mask(mask: u64) -> bool
    ensures { result ≡ is_mask mask }
{
    are_mask_ones(mask.count_ones()) && mask < 1 << MASK_BITS
}

/// Tells whether a mask may have so many ones.
fn are_mask_ones(count: u32) -> bool
    ensures { result ≡ is_in_range 1 MASK_ONES count }
{
    (1..=MASK_ONES).contains(&count)
}

/// Tells whether an address is an MSI address of a VM with this mask.
fn is_msi_address(mask: u64, addr: u64) -> bool
    ensures { result ≡ is_msi_address mask addr }
{
    (addr / PAGE) | mask == PATTERN | mask
}

/// Tells where an entry leads.
fn leads_by(entry: Entry) -> Route
    ensures { result ≡ leads_by entry }
{
    match entry {
        Entry::Basic(_) | Entry::Mrif(_, _, _) => Route::To(entry),
        Entry::NotValid | Entry::Custom | Entry::Misconfigured => Route::Fault(entry),
    }
}
