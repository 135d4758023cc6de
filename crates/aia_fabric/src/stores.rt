ghost use Rattle.std.specs.Prelude.{◌≡◌, ◌≢◌, ◌%◌, ◌<◌, true, length, Some, None};
ghost use Rattle.aia_regs.specs.declared.address_map.TheConstants.{PAGE};
ghost use Rattle.aia_regs.specs.declared.limits.TheConstants.{VCPUS};
ghost use Rattle.aia_file.specs.Imsic.{IsThere};
ghost use Rattle.aia_entry.specs.Tables.{table_of, route_of};
ghost use Rattle.aia_vcpu.specs.Vms.{Vcpu, vcpu_of, vcpus_in, is_vcpu_in, slot_of};
ghost use Rattle.aia_fabric_values.specs.World.{OnlyStores, stage_of};
ghost use Rattle.aia_fabric_values.specs.Found.{IsFound};
ghost use Rattle.aia_fabric_values.specs.Stores.{ReachesByRecord, Reaches, ReachesBy, StoresInGuestFile, StoresInSlot, NoticedAt, page_spot};

use crate::map::slot_at;
use crate::{Fabric, Found};
use aia_entry::{Entry, Route};
use aia_file::{Spot, Stored};
use aia_regs::address_map::PAGE;

impl Fabric {
    /// Takes a 32-bit store of `value` at `addr` of a device of a VM that stands: it goes where the
    /// entry in force leads, a guest file or a slot of memory, and a notice is sent where one is
    /// due. Tells the route. All but files, memory and the count of notices stays.
    ///
    /// AIA 1.0, IOMMU Support for MSIs to Virtual Machines.
    #[inline(always)]
    #[tactic(auto, using(aia_fabric_values::proofs::FrameLemmas::reaches_rest))]
    pub fn device_store(&mut self, vm: u32, addr: u64, value: u32) -> Route
        requires { vm < length self.old.vms }
        ensures route { result ≡ route_of (table_of self.old.tables vm) addr }
        ensures reaches { Reaches result self.old self.new (addr % PAGE) value }
        ensures rest { OnlyStores self.old self.new }
    {
        let route = self.translate(vm, addr);
        match route {
            Route::To(entry) => self.store_by(entry, (addr % PAGE) as u32, value),
            Route::Other | Route::Fault(_) => {}
        }
        route
    }

    /// Takes a 32-bit store of `value` of a guest for virtual hart `to`, one that is there: it goes
    /// to the guest file that the G-stage record in force names, and is dropped where no such file
    /// is there; where none is named it goes to the virtual hart's slot, with a notice where one is
    /// due. All but files, memory and the count of notices stays.
    ///
    /// The hypervisor extension 1.0; profile.
    #[tactic(auto, using(aia_fabric_values::proofs::FrameLemmas::record_rest, aia_fabric_values::proofs::FoundLemmas::found_there))]
    pub fn guest_store(&mut self, to: Found, value: u32)
        requires { IsFound self.old to }
        ensures reaches { ReachesByRecord (stage_of self.old (vcpu_of to.vm to.vcpu)).in_force
            self.old self.new (vcpu_of to.vm to.vcpu) value }
        ensures rest { OnlyStores self.old self.new }
    {
        self.recall();
        match self.stage(to.slot).in_force {
            Some(place) => {
                let spot = self.named_spot(place);
                self.store_guest(spot, 0, value);
            }
            None => {
                let spot = Spot::SupervisorFile(to.notice);
                self.store_in(to.slot, spot, to.slot + 1, 0, value);
            }
        }
    }

    /// Takes a 32-bit store of `value` for the virtual hart that has number `q`, below `VCPUS`,
    /// over all VMs, at offset 0 of its slot of memory, whatever the routes in force are: a notice
    /// is sent to its VM's notice hart where one is due. All but files, memory and the count of
    /// notices stays.
    ///
    /// AIA 1.0, IOMMU Support for MSIs to Virtual Machines, "Memory-resident interrupt files".
    /// Profile: passes.
    #[tactic(auto, using(aia_fabric_values::proofs::FrameLemmas::slot_rest))]
    pub fn slot_store(&mut self, q: u32, value: u32)
        requires { q < vcpus_in self.old.vms }
        ensures stores { (g : Vcpu) → is_vcpu_in self.old.vms g ≡ true → slot_of self.old.vms g ≡ q
            → ReachesByRecord None self.old self.new g value }
        ensures rest { OnlyStores self.old self.new }
    {
        self.recall();
        let hart = self.vms.notice_hart_at(q);
        self.store_in(q, Spot::SupervisorFile(hart), q + 1, 0, value);
    }

    /// Takes a store that an entry leads to its place.
    #[inline(always)]
    pub(crate) fn store_by(&mut self, entry: Entry, offset: u32, value: u32)
        ensures { ReachesBy entry self.old self.new offset value }
    {
        match entry {
            Entry::Basic(page) => self.store_at(page, offset, value),
            Entry::Mrif(addr, page, identity) => {
                if let Some(q) = slot_at(addr) {
                    self.store_noticed(q, page, identity, offset, value);
                }
            }
            Entry::NotValid | Entry::Custom | Entry::Misconfigured => {}
        }
    }

    /// Takes a store to the page of this number: it lands in a guest file, and is dropped at every
    /// other page.
    #[inline(always)]
    fn store_at(&mut self, page: u64, offset: u32, value: u32)
        ensures { StoresInGuestFile self.old self.new (page_spot self.old.imsic page) offset value }
    {
        let spot = self.page_spot(page);
        self.store_guest(spot, offset, value);
    }

    /// Takes a store to a guest file; at every other file it is dropped.
    #[inline(always)]
    fn store_guest(&mut self, spot: Spot, offset: u32, value: u32)
        requires { spot ≢ Spot.Nowhere → IsThere self.old.imsic spot }
        ensures { StoresInGuestFile self.old self.new spot offset value }
    {
        match spot {
            Spot::GuestFile(_, _) => self.host_store(spot, offset, value),
            Spot::MachineFile(_) | Spot::SupervisorFile(_) | Spot::Nowhere => {}
        }
    }

    /// Takes a store to a slot, with notices to the page of this number, which is looked for only
    /// where one is due.
    #[inline(always)]
    fn store_noticed(&mut self, q: u32, page: u64, identity: u32, offset: u32, value: u32)
        requires { q < VCPUS }
        ensures { StoresInSlot self.old self.new (Some q) (page_spot self.old.imsic page) identity
            offset value }
    {
        if let Stored::Notice = self.store_slot(q, offset, value) {
            let spot = self.page_spot(page);
            self.notice_at(spot, identity);
        }
    }

    /// Takes a store to a slot, with notices to a file.
    #[inline(always)]
    fn store_in(&mut self, q: u32, spot: Spot, identity: u32, offset: u32, value: u32)
        requires slot { q < VCPUS }
        requires there { spot ≢ Spot.Nowhere → IsThere self.old.imsic spot }
        ensures { StoresInSlot self.old self.new (Some q) spot identity offset value }
    {
        match self.store_slot(q, offset, value) {
            Stored::Notice => self.notice_at(spot, identity),
            Stored::Quiet | Stored::Discarded => {}
        }
    }

    /// Sends a notice to a file of the host; to any other page it is dropped.
    fn notice_at(&mut self, spot: Spot, identity: u32)
        requires { spot ≢ Spot.Nowhere → IsThere self.old.imsic spot }
        ensures { NoticedAt self.old self.new spot identity }
    {
        match spot {
            Spot::MachineFile(_) | Spot::SupervisorFile(_) => self.post(spot, identity),
            Spot::GuestFile(_, _) | Spot::Nowhere => {}
        }
    }
}
