ghost use Rattle.std.specs.Prelude.{◌≡◌, ℕ, ◌+◌, ◌^◌, ◌<◌, ◌↔◌, false, [], ◌∷◌, ◌++◌, length, slice_set, IfOk};
ghost use Rattle.aia_word.specs.Packed.{ones};
ghost use Rattle.aia_ram.specs.Words.{HasWordAt};
ghost use Rattle.aia_entry.specs.Translation.{IsMask, is_msi_address};
ghost use Rattle.aia_entry.specs.Tables.{new_table, table_of, entry_byte, fenced, fenced_at, route_of};

use crate::table::{Route, Table};
use aia_ram::Ram;
use aia_regs::limits::VMS;
use std::alloc::{AllocError, Global};
use std::marker::Model;

/// The MSI page tables of all VMs, numbered from 0 as they are made: which of their entries are in
/// force.
#[derive(Drop)]
pub struct Iommu {
    tables: Vec<Table>,
}

impl Model for Iommu {
    ghost use Rattle.std.specs.Prelude.{◌≤◌, List};
    ghost use Rattle.std.specs.Vec.{vec_capacity};
    ghost use Rattle.aia_regs.specs.declared.limits.TheConstants.{VMS};
    ghost use Rattle.aia_entry.specs.Tables.{TableState};

    ghost Value = { List TableState };

    ghost view = { λ i. i.tables.items };

    ghost invariant = { λ i. VMS ≤ vec_capacity i.tables };
}

impl Iommu {
    /// Makes the room for the tables of all VMs; no VM stands. `Err`: there is no memory for it.
    pub fn new(alloc: Global) -> Result<Iommu, AllocError>
        ensures { IfOk result (λ i. i ≡ []) }
    {
        let tables = Vec::with_capacity(alloc, VMS as usize)?;
        Ok(Iommu { tables })
    }

    /// Makes the next VM, while fewer than `VMS` stand: its table is at byte `table` of memory, its
    /// mask has 1 to `MASK_ONES` ones, all below bit `MASK_BITS`, and no entry in force is valid.
    /// All other tables stay.
    pub fn vm(&mut self, mask: u64, table: usize)
        requires few { length self.old < VMS }
        requires mask { IsMask mask }
        ensures { self.new ≡ self.old ++ new_table mask table ∷ [] }
    {
        match self.tables.push(Table::new(mask, table)) {
            Ok(()) => {}
            Err(_) => unreachable!(),
        }
    }

    /// Tells where a store at `addr` goes of a device of a VM that stands, by the entry in force;
    /// `Other` exactly where `addr` is no MSI address of the VM.
    pub fn translate(&self, vm: u32, addr: u64) -> Route
        requires { vm < length self.now }
        ensures route { result ≡ route_of (table_of self.now vm) addr }
        ensures other { (result ≡ Route.Other)
            ↔ (is_msi_address (table_of self.now vm).mask addr ≡ false) }
    {
        self.tables[vm as usize].route(addr)
    }

    /// Puts in force the entry of a file of a VM that stands, as its two words in memory say it.
    /// The file is one that addresses name, and memory has both words. All other entries in force
    /// stay.
    pub fn fence(&mut self, vm: u32, file: u32, ram: &Ram)
        requires vm { vm < length self.old }
        requires file { file < 2 ^ ones 64 (table_of self.old vm).mask }
        requires word0 { HasWordAt ram.now (entry_byte (table_of self.old vm) file) }
        requires word1 { HasWordAt ram.now (entry_byte (table_of self.old vm) file + 8) }
        ensures { self.new ≡ fenced_at self.old vm file ram.now }
    {
        fetch_at(&mut self.tables, vm as usize, file, ram);
    }

    /// Reads again the entry of a file of a VM that stands, as an IOMMU may at any time: what its
    /// two words in memory say is in force then. The file and memory are as of [`Iommu::fence`].
    /// All other entries in force stay.
    ///
    /// AIA 1.0, IOMMU Support for MSIs to Virtual Machines, "MSI page tables".
    pub fn refetch(&mut self, vm: u32, file: u32, ram: &Ram)
        requires vm { vm < length self.old }
        requires file { file < 2 ^ ones 64 (table_of self.old vm).mask }
        requires word0 { HasWordAt ram.now (entry_byte (table_of self.old vm) file) }
        requires word1 { HasWordAt ram.now (entry_byte (table_of self.old vm) file + 8) }
        ensures { self.new ≡ fenced_at self.old vm file ram.now }
    {
        fetch_at(&mut self.tables, vm as usize, file, ram);
    }
}

/// Puts the entry of a file in force in table `vm`, as it is read.
fn fetch_at(tables: &mut [Table], vm: usize, file: u32, ram: &Ram)
    requires vm { vm < length tables.old }
    requires file { file < 2 ^ ones 64 (table_of tables.old vm).mask }
    requires word0 { HasWordAt ram.now (entry_byte (table_of tables.old vm) file) }
    requires word1 { HasWordAt ram.now (entry_byte (table_of tables.old vm) file + 8) }
    ensures { tables.new ≡ fenced_at tables.old vm file ram.now }
{
    tables[vm].fence(file, ram);
}
