ghost use Rattle.std.specs.Prelude.{◌≡◌, ◌≢◌, ℕ, ◌+◌, ◌*◌, ◌/◌, ◌^◌, ◌<◌, ◌≤◌, ◌&&◌, true, false, length, slice_index_or, IsTrue, IfOk, IfSome, IfNone};
ghost use Rattle.std.specs.Int.{is_in_range};
ghost use Rattle.aia_word.specs.Packed.{ones};
ghost use Rattle.aia_word.specs.Sets.{has_bit};
ghost use Rattle.aia_word.specs.Top.{top_value};
ghost use Rattle.aia_regs.specs.declared.limits.TheConstants.{HARTS, GUEST_FILES, IDENTITIES, VMS, VCPUS, FILE_WORDS};
ghost use Rattle.aia_regs.specs.FileRegisters.{IsUsable};
ghost use Rattle.aia_regs.specs.Request.{requested};
ghost use Rattle.aia_file.specs.FileState.{shown};
ghost use Rattle.aia_file.specs.InterruptFile.{SameFile, is_greatest_identity, register_value, accessed, claimed, signals, top_of};
ghost use Rattle.aia_file.specs.Map.{spot_at};
ghost use Rattle.aia_file.specs.Imsic.{IsThere, file_at, with_file};
ghost use Rattle.aia_file.specs.Mrif.{mrif_in, stored};
ghost use Rattle.aia_entry.specs.Tables.{table_of, route_of};
ghost use Rattle.aia_entry.specs.Translation.{IsMask};
ghost use Rattle.aia_vcpu.specs.Vms.{Vcpu, vcpu_of, vcpus_in, is_vcpu_in, slot_of, notice_hart, vm_in};
ghost use Rattle.aia_fabric_values.specs.World.{no_stage};
ghost use Rattle.aia_fabric_values.specs.Found.{IsFound};
ghost use Rattle.aia_fabric_values.specs.Making.{IsNew, with_vm, with_entry};
ghost use Rattle.aia_fabric_values.specs.Stores.{StoresIn, Posts, counted, page_spot, named_spot, with_store};
ghost use Rattle.aia_fabric_values.specs.Whole.{IsWhole};

use crate::flights::Flights;
use crate::vms::Vms;
use crate::{Found, Stage, map};
use aia_entry::{Iommu, Route};
use aia_file::{File, Spot, Stored};
use aia_imsic::Imsic;
use aia_mrif::SlotMut;
use aia_ram::Ram;
use aia_regs::address_map::PAGE;
use aia_regs::limits::{MEMORY_WORDS, VCPUS};
use aia_regs::{FileReg, Op};
use aia_vcpu::{GuestPlace, Vm};
use std::alloc::{AllocError, Global};
use std::marker::Model;

/// The interrupt files, memory, the VMs with their MSI page tables, the stores in flight of their
/// devices, the G-stage records of virtual harts, and the count of notices.
#[derive(Drop)]
pub struct Fabric {
    pub(crate) n: u32,
    pub(crate) imsic: Imsic,
    pub(crate) ram: Ram,
    pub(crate) vms: Vms,
    pub(crate) iommu: Iommu,
    pub(crate) flights: Flights,
    pub(crate) stages: [Stage; VCPUS as usize],
    notices: u64,
}

impl Model for Fabric {
    ghost use Rattle.aia_fabric_values.specs.World.{World};
    ghost use Rattle.aia_fabric_values.specs.Whole.{IsWhole};

    ghost Value = { World };

    ghost view = { λ f. record {
      n = f.n;
      imsic = f.imsic;
      memory = f.ram;
      vms = f.vms;
      tables = f.iommu;
      flights = f.flights;
      stages = f.stages;
      notices = f.notices;
    } };

    ghost invariant = { λ f. IsWhole (record {
      n = f.n;
      imsic = f.imsic;
      memory = f.ram;
      vms = f.vms;
      tables = f.iommu;
      flights = f.flights;
      stages = f.stages;
      notices = f.notices;
    }) };
}

#[tactic(auto, using(aia_fabric_values::proofs::WholeLemmas::width_at))]
impl Fabric {
    /// Makes the machine's empty files, memory of zeros, the room for all VMs and their stores in
    /// flight, and an empty G-stage record for each of `VCPUS` virtual harts: of `harts` harts, 1
    /// to `HARTS`, each with `guests` guest files, 0 to `GUEST_FILES`; every file has the
    /// identities 1 to `n`, which is 63, 127, 255, 511, 1023 or 2047. `Err`: there is no memory for
    /// it.
    pub fn new(alloc: Global, harts: u32, guests: u32, n: u32) -> Result<Fabric, AllocError>
        requires some { 1 ≤ harts }
        requires few { harts ≤ HARTS }
        requires guests { guests ≤ GUEST_FILES }
        requires width { IsTrue (is_greatest_identity n) }
        ensures { IfOk result (λ f. IsNew f harts guests n) }
    {
        let imsic = Imsic::new(alloc, harts, guests, n)?;
        let ram = Ram::new(alloc, 8 * MEMORY_WORDS)?;
        let iommu = Iommu::new(alloc)?;
        Ok(Fabric {
            n,
            imsic,
            ram,
            vms: Vms::new(),
            iommu,
            flights: Flights::new(),
            stages: [Stage::new(); VCPUS as usize],
            notices: 0,
        })
    }

    // ---- what it shows

    /// Tells how many words of 64 identities each set of a file has, 1 to `FILE_WORDS`.
    pub fn words(&self) -> u32
        ensures value { result ≡ (self.now.n + 1) / 64 }
        ensures all { 64 * result ≡ self.now.n + 1 }
        ensures some { 1 ≤ result }
        ensures few { result ≤ FILE_WORDS }
        ensures whole { IsWhole self.now }
    {
        (self.n + 1) / 64
    }

    /// Recalls what is true of it at all times, for the proof of a caller, which can't name its
    /// fields. It does nothing.
    pub fn recall(&self)
        ensures all { 64 * ((self.now.n + 1) / 64) ≡ self.now.n + 1 }
        ensures some { 1 ≤ (self.now.n + 1) / 64 }
        ensures few { (self.now.n + 1) / 64 ≤ FILE_WORDS }
        ensures whole { IsWhole self.now }
    {
        self.words();
    }

    /// Tells how many harts there are, 1 to `HARTS`.
    pub fn harts(&self) -> u32
        ensures value { result ≡ self.now.imsic.harts }
        ensures few { result ≤ HARTS }
    {
        self.imsic.harts()
    }

    /// Tells how many guest files each hart has, 0 to `GUEST_FILES`.
    pub fn guests(&self) -> u32
        ensures value { result ≡ self.now.imsic.guests }
        ensures few { result ≤ GUEST_FILES }
    {
        self.imsic.guests()
    }

    /// Finds the file in whose page `addr` lies; `Nowhere` exactly where it lies in none.
    ///
    /// AIA 1.0, IMSIC, "Memory region for an interrupt file": each file is a page. Profile: where
    /// the pages lie.
    #[inline(always)]
    pub fn locate(&self, addr: u64) -> Spot
        ensures spot { result ≡ spot_at self.now.imsic.harts self.now.imsic.guests addr }
        ensures there { result ≢ Spot.Nowhere → IsThere self.now.imsic result }
        ensures few { (self.now.imsic.harts ≤ HARTS) × (self.now.imsic.guests ≤ GUEST_FILES) }
    {
        self.imsic.locate(addr)
    }

    /// Gives the file at a place that is there.
    #[inline(always)]
    pub fn file(&self, spot: Spot) -> &File
        requires { IsThere self.now.imsic spot }
        ensures { result.now ≡ file_at self.now.imsic spot }
    {
        self.imsic.file(spot)
    }

    /// Gives what hgeip of a hart that is there reads: bit j, from 1 to the number of guest files,
    /// is whether guest file j signals; the others are 0.
    ///
    /// The hypervisor extension 1.0; AIA 1.0, IMSIC.
    pub fn hgeip(&self, hart: u32) -> u64
        requires { hart < self.now.imsic.harts }
        ensures { (j : ℕ) → has_bit result j
            ≡ (is_in_range 1 self.now.imsic.guests j
            && signals (shown (file_at self.now.imsic (Spot.GuestFile hart j)))) }
    {
        self.imsic.hgeip(hart)
    }

    /// Tells how many VMs stand, 0 to `VMS`. Its clause `whole` says what is true at all times.
    pub fn vms(&self) -> u32
        ensures value { result ≡ length self.now.vms }
        ensures few { result ≤ VMS }
        ensures whole { IsWhole self.now }
    {
        self.vms.count()
    }

    /// Tells how many virtual harts the VMs have in all, 0 to `VCPUS`.
    pub fn vcpus(&self) -> u32
        ensures value { result ≡ vcpus_in self.now.vms }
        ensures few { result ≤ VCPUS }
    {
        self.vms.vcpus()
    }

    /// Tells whether a virtual hart is there, by its VM and its number there; `whole` as of
    /// [`Fabric::vms`].
    pub fn has_vcpu(&self, vm: u64, vcpu: u64) -> bool
        ensures value { result ≡ is_vcpu_in self.now.vms (vcpu_of vm vcpu) }
        ensures whole { IsWhole self.now }
    {
        self.vms.has(vm, vcpu)
    }

    /// Finds the virtual hart of this VM with this number, with its slot and its notice hart.
    /// `None` exactly where it isn't there; `whole` as of [`Fabric::vms`].
    pub fn find(&self, vm: u64, vcpu: u64) -> Option<Found>
        ensures there { IfSome result (λ found. IsFound self.now found) }
        ensures named { IfSome result (λ found. (found.vm ≡ vm) × (found.vcpu ≡ vcpu)) }
        ensures none { IfNone result (is_vcpu_in self.now.vms (vcpu_of vm vcpu) ≡ false) }
        ensures whole { IsWhole self.now }
    {
        if !self.has_vcpu(vm, vcpu) {
            return None;
        }
        let (vm, vcpu) = (vm as u32, vcpu as u32);
        Some(Found {
            vm,
            vcpu,
            slot: self.slot_of(vm, vcpu),
            notice: self.notice_hart(vm),
        })
    }

    /// Tells how many notices were sent; the count stays at `2^64 - 1`.
    pub fn notices(&self) -> u64
        ensures { result ≡ self.now.notices }
    {
        self.notices
    }

    /// Gives the slot of a virtual hart that is there, below `SLOTS`.
    pub fn slot_of(&self, vm: u32, vcpu: u32) -> u32
        requires { is_vcpu_in self.now.vms (vcpu_of vm vcpu) ≡ true }
        ensures value { result ≡ slot_of self.now.vms (vcpu_of vm vcpu) }
        ensures below { result < vcpus_in self.now.vms }
        ensures few { result < VCPUS }
    {
        self.vms.slot_of(vm, vcpu)
    }

    /// Gives the hart whose supervisor file takes the notices of a VM that is there.
    pub fn notice_hart(&self, vm: u32) -> u32
        requires { vm < length self.now.vms }
        ensures value { result ≡ (vm_in self.now.vms vm).notice_hart }
        ensures there { result < self.now.imsic.harts }
    {
        self.vms.notice_hart(vm)
    }

    // ---- files

    /// Does what one CSR instruction does with a register of the file at a place that is there, and
    /// gives what the register reads before. Every other file stays, and all else.
    ///
    /// AIA 1.0, IMSIC, "Indirectly accessed interrupt-file registers".
    pub fn reg(&mut self, spot: Spot, reg: FileReg, op: Op) -> u64
        requires there { IsThere self.old.imsic spot }
        requires usable { IsUsable reg }
        ensures value { result ≡ register_value (shown (file_at self.old.imsic spot)) reg }
        ensures lands { SameFile (shown (file_at self.new.imsic spot))
            (accessed reg op (shown (file_at self.old.imsic spot))) }
        ensures others { self.new ≡ record self.old {
          imsic = with_file self.old.imsic spot (file_at self.new.imsic spot);
        } }
    {
        self.imsic.file_mut(spot).access(reg, op)
    }

    /// Claims the identity on top at the file at a place that is there, and gives it as the top
    /// register shows it; 0 where none is on top, and then nothing changes. Every other file stays,
    /// and all else.
    ///
    /// AIA 1.0, IMSIC, "Top external interrupt CSRs".
    #[inline(always)]
    pub fn claim(&mut self, spot: Spot) -> u64
        requires { IsThere self.old.imsic spot }
        ensures value { result ≡ top_value (top_of (shown (file_at self.old.imsic spot))) }
        ensures lands { SameFile (shown (file_at self.new.imsic spot))
            (claimed (shown (file_at self.old.imsic spot))) }
        ensures others { self.new ≡ record self.old {
          imsic = with_file self.old.imsic spot (file_at self.new.imsic spot);
        } }
    {
        self.imsic.file_mut(spot).claim()
    }

    /// Takes a 32-bit store of `value` at `offset`, in bytes, of the page of the file at a place
    /// that is there. Every other file stays, and all else.
    ///
    /// AIA 1.0, IMSIC, "Memory region for an interrupt file".
    #[inline(always)]
    pub fn host_store(&mut self, spot: Spot, offset: u32, value: u32)
        requires { IsThere self.old.imsic spot }
        ensures { StoresIn self.old self.new spot offset value }
    {
        self.imsic.store(spot, offset, value);
    }

    // ---- notices

    /// Sends the notice of the virtual hart that has number `q`, below `VCPUS`, over all VMs: a
    /// store of `q + 1` to the supervisor file of its VM's notice hart, which is counted.
    ///
    /// AIA 1.0, IOMMU Support for MSIs to Virtual Machines, "Memory-resident interrupt files".
    pub fn notice(&mut self, q: u32)
        requires { q < vcpus_in self.old.vms }
        ensures posts { (g : Vcpu) → is_vcpu_in self.old.vms g ≡ true → slot_of self.old.vms g ≡ q
            → Posts self.old self.new (Spot.SupervisorFile (notice_hart self.old.vms g)) (q + 1) }
        ensures rest { self.new ≡ record self.old {
          imsic = record self.old.imsic { files = self.new.imsic.files };
          notices = counted self.old.notices;
        } }
    {
        let hart = self.vms.notice_hart_at(q);
        self.post(Spot::SupervisorFile(hart), q + 1);
    }

    /// Sends a notice to a file: a store of its identity, which is counted.
    pub(crate) fn post(&mut self, spot: Spot, identity: u32)
        requires { IsThere self.old.imsic spot }
        ensures { Posts self.old self.new spot identity }
    {
        self.host_store(spot, 0, identity);
        self.notices = self.notices.saturating_add(1);
    }

    // ---- what stores of devices and of guests are made of

    /// Tells where a store of a device of a VM goes, by the entry in force.
    pub(crate) fn translate(&self, vm: u32, addr: u64) -> Route
        requires { vm < length self.now.vms }
        ensures { result ≡ route_of (table_of self.now.tables vm) addr }
    {
        self.iommu.translate(vm, addr)
    }

    /// Finds the file whose page has this number.
    pub(crate) fn page_spot(&self, page: u64) -> Spot
        ensures value { result ≡ page_spot self.now.imsic page }
        ensures there { result ≢ Spot.Nowhere → IsThere self.now.imsic result }
    {
        match page.checked_mul(PAGE) {
            Some(addr) => self.imsic.locate(addr),
            None => Spot::Nowhere,
        }
    }

    /// Gives the G-stage record of the virtual hart of a slot.
    pub(crate) fn stage(&self, slot: u32) -> Stage
        requires { slot < VCPUS }
        ensures { result ≡ slice_index_or self.now.stages slot no_stage }
    {
        self.stages[slot as usize]
    }

    /// Finds the guest file that a G-stage record names; `Nowhere` exactly where it is not there.
    pub(crate) fn named_spot(&self, place: GuestPlace) -> Spot
        ensures value { result ≡ named_spot self.now.imsic place }
        ensures there { result ≢ Spot.Nowhere → IsThere self.now.imsic result }
    {
        let guests = self.imsic.guests();
        if place.hart < self.imsic.harts() && (1..=guests).contains(&place.file) {
            Spot::GuestFile(place.hart, place.file)
        } else {
            Spot::Nowhere
        }
    }

    /// Takes a 32-bit store of `value` at `offset` of a slot, and tells whether a notice is due.
    pub(crate) fn store_slot(&mut self, q: u32, offset: u32, value: u32) -> Stored
        requires { q < VCPUS }
        ensures stored { result
            ≡ stored (mrif_in self.old.memory q) (requested IDENTITIES offset value) }
        ensures after { self.new ≡ with_store self.old q offset value }
    {
        let mut slot = SlotMut {
            ram: &mut self.ram,
            q,
        };
        slot.land(offset, value)
    }

    // ---- what the making of a VM is made of

    /// Makes the next VM and its table, with no entry and no store in flight.
    pub(crate) fn add_vm(&mut self, vm: Vm)
        requires few { length self.old.vms < VMS }
        requires mask { IsMask vm.mask }
        requires numbers { vm.vcpus ≤ 2 ^ ones 64 vm.mask }
        requires vcpus { vcpus_in self.old.vms + vm.vcpus ≤ VCPUS }
        requires hart { vm.notice_hart < self.old.imsic.harts }
        ensures { self.new ≡ with_vm self.old vm }
    {
        let number = self.vms.count();
        self.iommu.vm(vm.mask, map::table_byte(number));
        self.flights.add();
        self.vms.push(vm);
    }

    /// Makes the entry of a file of a VM lead to slot `slot`, below `SLOTS`, and puts it in force;
    /// its notices go to the page of number `page`, below `2^44`, with the identity `slot + 1`.
    pub(crate) fn make_entry(&mut self, vm: u32, file: u32, slot: u32, page: u64)
        requires vm { vm < length self.old.vms }
        requires file { file < 2 ^ ones 64 (table_of self.old.tables vm).mask }
        requires slot { slot < VCPUS }
        requires page { page < 2 ^ 44 }
        ensures { self.new ≡ with_entry self.old vm file slot page }
    {
        let ram = &mut self.ram;
        let at = map::table_byte(vm) + 16 * file as usize;
        map::write_entry(ram, at, slot, page);
        self.iommu.fence(vm, file, &self.ram);
    }
}
