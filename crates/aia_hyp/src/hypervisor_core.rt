ghost use Rattle.std.specs.Prelude.{◌≡◌, ◌≢◌, ◌+◌, ◌-◌, ◌^◌, min, ◌<◌, ◌≤◌, ◌%◌, ◌&&◌, ◌++◌, length, replicate, slice_index, nat_lt, true, false, None, Ok, Err, IsTrue, IfOk, OnOk};
ghost use Rattle.std.specs.Int.{is_in_range};
ghost use Rattle.std.specs.Result.{result_err};
ghost use Rattle.aia_regs.specs.FileRegisters.{select_written};
ghost use Rattle.aia_regs.specs.AddressMap.{is_in_memory};
ghost use Rattle.aia_csr.specs.CsrAccess.{IsInTable, ReachesUsable, csr_access};
ghost use Rattle.aia_file.specs.InterruptFile.{SameFile, is_greatest_identity, register_value, top_of};
ghost use Rattle.aia_file.specs.FileState.{shown};
ghost use Rattle.aia_file.specs.Imsic.{IsThere, file_at, with_file};
ghost use Rattle.aia_file.specs.Map.{spot_at};
ghost use Rattle.aia_word.specs.Top.{top_value};
ghost use Rattle.aia_model.specs.Event.{History};
ghost use Rattle.aia_model.specs.Act.{domain_at};
ghost use Rattle.aia_model.specs.Notice.{notices_sent};
ghost use Rattle.aia_model.specs.FileAfter.{Accesses, file_after};
ghost use Rattle.aia_model.specs.FileOf.{FileName};
ghost use Rattle.aia_model.specs.declared.line.Line.TheVariants.{Load, Store, Vm};
ghost use Rattle.aia_model.specs.declared.line.Line.TheVariants as lines;
ghost use Rattle.aia_model.specs.Refusal.{is_vm_size, lacks_room};
ghost use Rattle.aia_fabric_values.specs.Whole.{IsWhole};
ghost use Rattle.aia_model.specs.declared.answer.Answer.TheVariants.{Okay, Narrow, Wide};
ghost use Rattle.aia_fabric_values.specs.Found.{IsFound};
ghost use Rattle.aia_vcpu.specs.Vms.{vcpu_of};
ghost use Rattle.aia_hyp_values.specs.Core.{no_record, record_of};
ghost use Rattle.aia_hyp_values.specs.HostFiles.{IsHost, HasDone, name_of, csr_line, host_spot, is_host_spot, file_in, select_place, select_in};
ghost use Rattle.aia_hyp_values.specs.Stands.{CoreStands, StandsForSome, CoreTakes, CoreBegins, answer_by, core_refusal, signals_of, route_answer};

use crate::passes::Passes;
use aia_csr::{CsrAccess, decide};
use aia_entry::{Route, is_mask};
use aia_fabric::{Fabric, Found};
use aia_file::Spot;
use aia_hyp_values::VcpuRecord;
use aia_model::Refusal;
use aia_move::Plan;
use aia_pool::Pool;
use aia_regs::address_map::{PAGE, is_in_memory};
use aia_regs::limits::{GUEST_FILES, HARTS, SELECT_NUMBERS, VCPUS, VM_VCPUS, VMS};
use aia_regs::{Csr, FileReg, Level, Op};
use arrayvec::ArrayVec;
use std::alloc::{AllocError, Global};
use std::marker::Model;

/// Two select numbers for each hart.
const SELECTS: usize = 2 * HARTS as usize;

/// As many records as there are virtual harts at most.
const RECORDS: usize = VCPUS as usize;

/// The records of all virtual harts, by their numbers over all VMs.
pub(crate) type Records = ArrayVec<VcpuRecord<Plan>, RECORDS>;

/// The hypervisor's core: all that stores reach, with the VMs that stand; which guest files are
/// handed out; a record of each virtual hart, by its number over all VMs; the select numbers of the
/// host, of each hart `miselect`, then `siselect`; and the passes of wired sources.
#[derive(Drop)]
pub struct Core {
    pub(crate) fabric: Fabric,
    pub(crate) pool: Pool,
    pub(crate) vcpus: Records,
    selects: [u64; SELECTS],
    pub(crate) passes: Passes,
}

impl Model for Core {
    ghost use Rattle.std.specs.Prelude.{◌≡◌};
    ghost use Rattle.aia_regs.specs.declared.limits.TheConstants.{VCPUS};
    ghost use Rattle.aia_hyp_values.specs.Core.{CoreState};
    ghost use Rattle.aia_hyp_values.specs.Stands.{StandsForSome};

    ghost Value = { CoreState };

    ghost view = { λ h. record {
      world = h.fabric;
      leases = h.pool;
      vcpus = h.vcpus.items;
      selects = h.selects;
      passes = h.passes;
    } };

    ghost invariant = { λ h. StandsForSome (record {
      world = h.fabric;
      leases = h.pool;
      vcpus = h.vcpus.items;
      selects = h.selects;
      passes = h.passes;
    }) };
}

impl Core {
    /// Makes the core of a machine of `harts` harts, 1 to `HARTS`, with `guests` guest files each,
    /// 0 to `GUEST_FILES`, and the identities 1 to `n`, which is 63, 127, 255, 511, 1023 or 2047:
    /// every file is empty, memory and every select number are 0, and no VM stands. `Err` is want
    /// of memory; no other call takes any.
    pub fn new(alloc: Global, harts: u32, guests: u32, n: u32) -> Result<Core, AllocError>
        requires some { 1 ≤ harts }
        requires few { harts ≤ HARTS }
        requires guests { guests ≤ GUEST_FILES }
        requires width { IsTrue (is_greatest_identity n) }
        ensures { IfOk result (λ core. CoreBegins core harts guests n) }
    {
        let pool = Pool::new(alloc, harts, guests)?;
        let fabric = Fabric::new(alloc, harts, guests, n)?;
        Ok(Core {
            fabric,
            pool,
            vcpus: ArrayVec::new(),
            selects: [0; SELECTS],
            passes: Passes::new(),
        })
    }

    /// Gives the record of a virtual hart that is there.
    pub(crate) fn record_of(&self, found: Found) -> &VcpuRecord<Plan>
        requires { IsFound self.now.world found }
        ensures { result.now ≡ record_of self.now (vcpu_of found.vm found.vcpu) }
    {
        &self.vcpus[found.slot as usize]
    }

    /// Does a CSR instruction of a hart at a level of the host, `Select`, `Reg` or `Topei`, and
    /// answers what the CSR read before it. `Err` is `Range` where the hart isn't there, and
    /// `Illegal` where the access raises an illegal-instruction exception; nothing is changed then.
    ///
    /// AIA 1.0, IMSIC, "Indirectly accessed interrupt-file registers".
    #[inline(always)]
    pub fn host(&mut self, level: Level, hart: u64, csr: Csr, op: Op) -> Result<u64, Refusal>
        requires listed { IsInTable level csr }
        requires host { IsHost level }
        ensures { CoreTakes self.old self.new (csr_line level hart csr op) (answer_by Wide result) }
    {
        if hart >= u64::from(self.fabric.harts()) {
            return Err(Refusal::Range);
        }
        self.access(level, hart as u32, csr, op)
    }

    /// Does the access of a hart that is there.
    #[inline(always)]
    fn access(&mut self, level: Level, hart: u32, csr: Csr, op: Op) -> Result<u64, Refusal>
        requires listed { IsInTable level csr }
        requires host { IsHost level }
        requires there { hart < self.old.world.imsic.harts }
        requires few { hart < HARTS }
        ensures { CoreTakes self.old self.new (csr_line level hart csr op) (answer_by Wide result) }
    {
        match self.reached(level, hart, csr, op) {
            CsrAccess::Select => Ok(access_select(&mut self.selects, level, hart, op)),
            CsrAccess::File(reg) => Ok(self.fabric.reg(spot(level, hart), reg, op)),
            CsrAccess::Top => Ok(claim_or_read(&mut self.fabric, spot(level, hart), op)),
            CsrAccess::Illegal => Err(Refusal::Illegal),
            CsrAccess::Topi | CsrAccess::Sip | CsrAccess::Sie | CsrAccess::Virtual =>
                unreachable!(),
        }
    }

    /// Tells what the access reaches, by the select number of the hart and level.
    #[inline(always)]
    fn reached(&self, level: Level, hart: u32, csr: Csr, op: Op) -> CsrAccess
        requires listed { IsInTable level csr }
        requires host { IsHost level }
        requires few { hart < HARTS }
        ensures table { result
            ≡ csr_access level csr op (select_in self.now (name_of level hart)) false }
        ensures usable { ReachesUsable result }
    {
        let select = self.selects[select_place(level, hart)];
        decide(level, csr, op, select, false)
    }

    /// Stores 32 bits at an address for the host or a device of it. `Err` is `Fault` where the
    /// address is no multiple of 4 or in no place of the core's, an address of the APLIC among
    /// them, and `Guarded` in a guest's page or in memory; nothing is changed then.
    ///
    /// AIA 1.0, IMSIC, "Memory region for an interrupt file".
    #[inline(always)]
    pub fn store(&mut self, addr: u64, value: u32) -> Result<(), Refusal>
        ensures takes { domain_at addr ≡ None → CoreTakes self.old self.new (Store addr value)
            (answer_by (λ _. Okay) result) }
        ensures refused { domain_at addr ≢ None → result ≡ Err Refusal.Fault }
        ensures unchanged { domain_at addr ≢ None → self.new ≡ self.old }
    {
        let spot = self.reach(addr)?;
        self.fabric.host_store(spot, (addr % PAGE) as u32, value);
        Ok(())
    }

    /// Loads 32 bits from an address: a file's page reads 0. `Err` as of [`Core::store`].
    ///
    /// AIA 1.0, IMSIC, "Memory region for an interrupt file".
    #[inline(always)]
    pub fn load(&self, addr: u64) -> Result<u32, Refusal>
        ensures takes { domain_at addr ≡ None → CoreTakes self.now self.now (Load addr)
            (answer_by Narrow result) }
        ensures refused { domain_at addr ≢ None → result ≡ Err Refusal.Fault }
    {
        self.reach(addr)?;
        Ok(0)
    }

    /// Finds the file of the host in whose page the address lies, or the word that refuses a load
    /// or store there.
    #[inline(always)]
    fn reach(&self, addr: u64) -> Result<Spot, Refusal>
        ensures at { IfOk result (λ spot. spot
            ≡ spot_at self.now.world.imsic.harts self.now.world.imsic.guests addr) }
        ensures host { IfOk result (λ spot. is_host_spot spot ≡ true) }
        ensures there { IfOk result (IsThere self.now.world.imsic) }
        ensures refused { result_err result ≡ core_refusal
            (spot_at self.now.world.imsic.harts self.now.world.imsic.guests addr) addr }
        ensures few { OnOk result (self.now.world.imsic.harts ≤ HARTS) }
    {
        if addr % 4 != 0 {
            return Err(Refusal::Fault);
        }
        let spot = self.fabric.locate(addr);
        if is_host(spot) {
            return Ok(spot);
        }
        match spot {
            Spot::GuestFile(..) => Err(Refusal::Guarded),
            _ if is_in_memory(addr) => Err(Refusal::Guarded),
            _ => Err(Refusal::Fault),
        }
    }

    /// Makes the next VM, of `vcpus` virtual harts, with `mask` over the page numbers of its MSI
    /// addresses; its notices go to the supervisor file of hart `hart`. Its virtual harts are
    /// parked, their interrupts in memory. `Err` is `Range` where the mask does not have 1 to
    /// `MASK_ONES` ones, all below bit `MASK_BITS`, where `vcpus` is not from 1 to 2^k for a mask
    /// of k ones, or where the hart isn't there; `Full` where `VMS` VMs stand, `vcpus` is above
    /// `VM_VCPUS`, or all VMs would have more than `VCPUS` virtual harts; nothing is changed then.
    ///
    /// AIA 1.0, IOMMU Support for MSIs to Virtual Machines.
    pub fn vm(&mut self, vcpus: u64, mask: u64, hart: u64) -> Result<(), Refusal>
        ensures { CoreTakes self.old self.new (Vm vcpus mask hart) (answer_by (λ _. Okay) result) }
    {
        if !self.is_in_range(vcpus, mask, hart) {
            return Err(Refusal::Range);
        }
        if self.lacks_room(vcpus) {
            return Err(Refusal::Full);
        }
        self.fabric.vm(vcpus as u32, mask, hart as u32);
        add_records(&mut self.vcpus, vcpus as u32);
        Ok(())
    }

    /// Tells whether a VM may have these numbers on this machine.
    fn is_in_range(&self, vcpus: u64, mask: u64, hart: u64) -> bool
        ensures { result ≡ (is_vm_size vcpus mask && nat_lt hart self.now.world.imsic.harts) }
    {
        is_vm_size(vcpus, mask) && hart < u64::from(self.fabric.harts())
    }

    /// Tells whether there is no room for a VM of so many virtual harts.
    fn lacks_room(&self, vcpus: u64) -> bool
        ensures room { result ≡ lacks_room self.now.world.vms vcpus }
        ensures whole { IsWhole self.now.world }
    {
        self.fabric.vms() >= VMS
            || vcpus > u64::from(VM_VCPUS)
            || u64::from(self.fabric.vcpus()) + vcpus > u64::from(VCPUS)
    }

    /// Takes a 32-bit store of a device of a VM at an address: it asks at the virtual hart that
    /// the address names. Where the entry in force leads it to the slot, a notice is sent if the
    /// identity that it asks for is enabled in the slot. `Err` is `Range` where the VM doesn't
    /// stand, `Fault` where the address is no multiple of 4, `Other` where it is no MSI address of
    /// the VM, `NotValid` where it names no virtual hart; nothing is changed then.
    ///
    /// AIA 1.0, IOMMU Support for MSIs to Virtual Machines.
    #[inline(always)]
    pub fn msi(&mut self, vm: u64, addr: u64, value: u32) -> Result<(), Refusal>
        ensures { CoreTakes self.old self.new (lines.Msi vm addr value)
            (answer_by (λ _. Okay) result) }
    {
        if vm >= u64::from(self.fabric.vms()) {
            return Err(Refusal::Range);
        }
        if addr % 4 != 0 {
            return Err(Refusal::Fault);
        }
        taken_by(self.fabric.device_store(vm as u32, addr, value))
    }

    /// Tells the signals of a hart's machine-level file and of its supervisor file. `Err` is
    /// `Range` exactly where the hart isn't there.
    ///
    /// AIA 1.0, IMSIC, "Interrupt files and interrupt identities".
    pub fn signals(&self, hart: u64) -> Result<(bool, bool), Refusal>
        ensures value { (h : History) → CoreStands self.now h → result ≡ signals_of h hart }
        ensures few { OnOk result (hart < HARTS) }
    {
        if u64::from(self.fabric.harts()) <= hart {
            return Err(Refusal::Range);
        }
        let hart = hart as u32;
        Ok((
            self.fabric.file(Spot::MachineFile(hart)).signal(),
            self.fabric.file(Spot::SupervisorFile(hart)).signal(),
        ))
    }

    /// Tells how many notices were sent; the count stays at `2^64 - 1`.
    ///
    /// Its second clause holds of every core, whatever was asked of it, and whenever an APLIC's
    /// MSIs were delivered: it stands for some history whose events may happen. So the laws of such
    /// histories are laws of cores, that no notice is lost among them.
    ///
    /// AIA 1.0, IOMMU Support for MSIs to Virtual Machines, "Memory-resident interrupt files".
    pub fn notices(&self) -> u64
        ensures count { (h : History) → CoreStands self.now h
            → result ≡ min (notices_sent h) (2 ^ 64 - 1) }
        ensures stands { StandsForSome self.now }
    {
        self.fabric.notices()
    }
}

/// Adds the records of so many virtual harts that were never moved.
fn add_records(vcpus: &mut Records, count: u32)
    requires { length vcpus.old.items + count ≤ VCPUS }
    ensures after { vcpus.new.items ≡ vcpus.old.items ++ replicate count no_record }
{
    for _ in 0..count {
        vcpus.push(VcpuRecord::new());
    }
}

/// Tells whether a VM may have so many virtual harts and this mask.
fn is_vm_size(vcpus: u64, mask: u64) -> bool
    ensures { result ≡ is_vm_size vcpus mask }
{
    is_mask(mask) && is_from_one(vcpus, 1 << mask.count_ones())
}

/// Tells whether a number is from 1 to `most`.
fn is_from_one(n: u64, most: u64) -> bool
    ensures { result ≡ is_in_range 1 most n }
{
    (1..=most).contains(&n)
}

/// Tells what becomes of a store of a device of a VM, by where its address goes.
pub(crate) fn taken_by(route: Route) -> Result<(), Refusal>
    ensures { answer_by (λ _. Okay) result ≡ route_answer route }
{
    match route {
        Route::Other => Err(Refusal::Other),
        Route::Fault(_) => Err(Refusal::NotValid),
        Route::To(_) => Ok(()),
    }
}

/// Tells where the file of a hart at a level of the host is.
fn spot(level: Level, hart: u32) -> Spot
    requires { IsHost level }
    ensures { result ≡ host_spot (name_of level hart) }
{
    match level {
        Level::Machine => Spot::MachineFile(hart),
        Level::Host => Spot::SupervisorFile(hart),
        Level::Guest => unreachable!(),
    }
}

/// Tells whether a place is that of a file of the host.
pub(crate) fn is_host(spot: Spot) -> bool
    ensures { result ≡ is_host_spot spot }
{
    matches!(spot, Spot::MachineFile(_) | Spot::SupervisorFile(_))
}

/// Tells where its select number is.
fn select_place(level: Level, hart: u32) -> usize
    requires host { IsHost level }
    requires few { hart < HARTS }
    ensures place { result ≡ select_place (name_of level hart) }
    ensures within { result < SELECTS }
{
    match level {
        Level::Machine => 2 * hart as usize,
        Level::Host => 2 * hart as usize + 1,
        Level::Guest => unreachable!(),
    }
}

/// Accesses the select CSR of a hart at a level of the host, and gives the old select number.
#[tactic(auto, using(aia_hyp_values::proofs::NameLemmas::other_place))]
fn access_select(selects: &mut [u64; SELECTS], level: Level, hart: u32, op: Op) -> u64
    requires host { IsHost level }
    requires few { hart < HARTS }
    ensures value { result ≡ slice_index selects.old (select_place (name_of level hart)) }
    ensures own { slice_index selects.new (select_place (name_of level hart))
        ≡ select_written op (slice_index selects.old (select_place (name_of level hart))) }
    ensures others { (f : FileName) → f ≢ name_of level hart
        → slice_index selects.new (select_place f) ≡ slice_index selects.old (select_place f) }
{
    let place = select_place(level, hart);
    let before = selects[place];
    selects[place] = select_after(op, before);
    before
}

/// Gives the select number after an access to a select CSR which had `before`.
pub(crate) fn select_after(op: Op, before: u64) -> u64
    ensures { result ≡ select_written op before }
{
    if op.is_writing() {
        op.written(before) % SELECT_NUMBERS
    } else {
        before
    }
}

/// Reads the topei CSR of a file that is there, and claims the identity on top where the
/// instruction writes; all else stays.
#[inline(always)]
#[tactic(auto, using(aia_hyp_values::proofs::EventLemmas::kept_file))]
pub(crate) fn claim_or_read(fabric: &mut Fabric, spot: Spot, op: Op) -> u64
    requires { IsThere fabric.old.imsic spot }
    ensures value { result ≡ top_value (top_of (shown (file_at fabric.old.imsic spot))) }
    ensures done { SameFile (shown (file_at fabric.new.imsic spot))
        (file_after 0 (Accesses Csr.Topei op) (shown (file_at fabric.old.imsic spot))) }
    ensures others { fabric.new ≡ record fabric.old {
      imsic = with_file fabric.old.imsic spot (file_at fabric.new.imsic spot);
    } }
{
    if op.is_writing() {
        fabric.claim(spot)
    } else {
        fabric.file(spot).top()
    }
}
