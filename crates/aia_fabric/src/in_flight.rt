ghost use Rattle.std.specs.Prelude.{◌≡◌, ◌%◌, ◌<◌, ◌≤◌, length, remove};
ghost use Rattle.aia_regs.specs.declared.address_map.TheConstants.{PAGE};
ghost use Rattle.aia_regs.specs.declared.limits.TheConstants.{STORES_IN_FLIGHT};
ghost use Rattle.aia_entry.specs.Tables.{table_of, route_of};
ghost use Rattle.aia_fabric_values.specs.World.{flight_of};
ghost use Rattle.aia_fabric_values.specs.Flights.{Sends, Lands, LandsAll, with_flight};

use crate::Fabric;
use aia_entry::Route;
use aia_fabric_values::Flying;
use aia_regs::address_map::PAGE;

/// Stores of devices that are in flight.
impl Fabric {
    /// Tells how many stores of a VM that stands are in flight, 0 to `STORES_IN_FLIGHT`.
    pub fn flying(&self, vm: u32) -> usize
        requires { vm < length self.now.vms }
        ensures value { result ≡ length (flight_of self.now vm) }
        ensures few { result ≤ STORES_IN_FLIGHT }
    {
        self.flights.count(vm)
    }

    /// Sends a 32-bit store of `value` at `addr` of a device of a VM that stands and has fewer than
    /// `STORES_IN_FLIGHT` in flight, and tells its route. Where the entry in force leads it to a
    /// place, it is in flight from now on, to that place; else nothing is kept. All else stays.
    ///
    /// AIA 1.0, IOMMU Support for MSIs to Virtual Machines. Profile: how many may be in flight.
    pub fn send(&mut self, vm: u32, addr: u64, value: u32) -> Route
        requires there { vm < length self.old.vms }
        requires room { length (flight_of self.old vm) < STORES_IN_FLIGHT }
        ensures route { result ≡ route_of (table_of self.old.tables vm) addr }
        ensures sends { Sends result self.old self.new vm (addr % PAGE) value }
    {
        let route = self.translate(vm, addr);
        if let Route::To(entry) = route {
            let offset = (addr % PAGE) as u32;
            self.flights.push(
                vm,
                Flying {
                    entry,
                    offset,
                    value,
                },
            );
        }
        route
    }

    /// Lands the `k`-th store in flight of a VM that stands, counted from 0, the oldest first: it
    /// goes to its place, and a notice is sent where one is due. All but files, memory, the count
    /// of notices and the stores in flight of the VM stays.
    ///
    /// AIA 1.0, IOMMU Support for MSIs to Virtual Machines. Profile: they land in any order.
    pub fn land(&mut self, vm: u32, k: usize)
        requires there { vm < length self.old.vms }
        requires flies { k < length (flight_of self.old vm) }
        ensures { Lands self.old self.new vm k }
    {
        let store = self.flights.at(vm, k);
        self.store_by(store.entry, store.offset, store.value);
        self.take_out(vm, k);
    }

    /// Takes the `k`-th store in flight of a VM that stands out.
    fn take_out(&mut self, vm: u32, k: usize)
        requires there { vm < length self.old.vms }
        requires flies { k < length (flight_of self.old vm) }
        ensures { self.new ≡ with_flight self.old vm (remove (flight_of self.old vm) k) }
    {
        self.flights.remove(vm, k);
    }

    /// Lands all stores in flight of a VM that stands, the oldest first.
    pub(crate) fn land_all(&mut self, vm: u32)
        requires { vm < length self.old.vms }
        ensures { LandsAll self.old self.new vm }
    {
        self.recall();
        for _ in 0..self.flying(vm) {
            self.recall();
            self.land(vm, 0);
        }
    }
}
