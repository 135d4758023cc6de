ghost use Rattle.std.specs.Prelude.{◌≡◌, ◌<◌, ◌≤◌, Some, [], ◌∷◌, ◌++◌, length, remove, slice_get, slice_index_or, slice_set};
ghost use Rattle.aia_regs.specs.declared.limits.TheConstants.{VMS, STORES_IN_FLIGHT};

use aia_fabric_values::Flying;
use aia_regs::limits::{STORES_IN_FLIGHT, VMS};
use arrayvec::ArrayVec;
use std::marker::Model;

/// As many lists as VMs stand at most.
const LISTS: usize = VMS as usize;

/// The stores in flight of the devices of a VM, the oldest first.
#[derive(Default, Drop)]
struct Flight {
    stores: ArrayVec<Flying, STORES_IN_FLIGHT>,
}

impl Model for Flight {
    ghost use Rattle.std.specs.Prelude.{List};
    ghost use Rattle.aia_fabric_values.specs.declared.flying.Flying.{Flying};

    ghost Value = { List Flying };

    ghost view = { λ f. f.stores.items };
}

impl Flight {
    /// Makes a list of none.
    fn new() -> Flight
        ensures { result ≡ [] }
    {
        Flight {
            stores: ArrayVec::new(),
        }
    }

    /// Tells how many there are.
    fn count(&self) -> usize
        ensures value { result ≡ length self.now }
        ensures few { result ≤ STORES_IN_FLIGHT }
    {
        self.stores.len()
    }

    /// Puts one at the end, where there is room.
    fn push(&mut self, store: Flying)
        requires { length self.old < STORES_IN_FLIGHT }
        ensures { self.new ≡ self.old ++ store ∷ [] }
    {
        self.stores.push(store);
    }

    /// Gives the `k`-th one, counted from 0.
    fn at(&self, k: usize) -> Flying
        requires { k < length self.now }
        ensures { slice_get self.now k ≡ Some result }
    {
        self.stores[k]
    }

    /// Takes the `k`-th one out, counted from 0.
    fn remove(&mut self, k: usize)
        requires { k < length self.old }
        ensures { self.new ≡ remove self.old k }
    {
        self.stores.remove(k);
    }
}

/// The stores in flight of the devices of each VM.
#[derive(Drop)]
pub struct Flights {
    kept: ArrayVec<Flight, LISTS>,
}

impl Model for Flights {
    ghost use Rattle.std.specs.Prelude.{List};
    ghost use Rattle.aia_fabric_values.specs.declared.flying.Flying.{Flying};

    ghost Value = { List (List Flying) };

    ghost view = { λ f. f.kept.items };
}

impl Flights {
    /// Makes the room for those of all VMs; no VM stands.
    pub fn new() -> Flights
        ensures { result ≡ [] }
    {
        Flights {
            kept: ArrayVec::new(),
        }
    }

    /// Makes the list of the next VM, while fewer than `VMS` stand: none is in flight.
    pub fn add(&mut self)
        requires { length self.old < VMS }
        ensures { self.new ≡ self.old ++ [] ∷ [] }
    {
        self.kept.push(Flight::new());
    }

    /// Tells how many there are of a VM that stands, 0 to `STORES_IN_FLIGHT`.
    pub fn count(&self, vm: u32) -> usize
        requires { vm < length self.now }
        ensures value { result ≡ length (slice_index_or self.now vm []) }
        ensures few { result ≤ STORES_IN_FLIGHT }
    {
        self.kept[vm as usize].count()
    }

    /// Puts a store after those of a VM that stands and has fewer than `STORES_IN_FLIGHT`.
    pub fn push(&mut self, vm: u32, store: Flying)
        requires there { vm < length self.old }
        requires room { length (slice_index_or self.old vm []) < STORES_IN_FLIGHT }
        ensures { self.new
            ≡ slice_set self.old vm (slice_index_or self.old vm [] ++ store ∷ []) }
    {
        self.kept[vm as usize].push(store);
    }

    /// Gives the `k`-th store of a VM that stands, counted from 0, the oldest first.
    pub fn at(&self, vm: u32, k: usize) -> Flying
        requires there { vm < length self.now }
        requires flies { k < length (slice_index_or self.now vm []) }
        ensures { slice_get (slice_index_or self.now vm []) k ≡ Some result }
    {
        self.kept[vm as usize].at(k)
    }

    /// Takes the `k`-th store of a VM that stands out, counted from 0, the oldest first.
    pub fn remove(&mut self, vm: u32, k: usize)
        requires there { vm < length self.old }
        requires flies { k < length (slice_index_or self.old vm []) }
        ensures { self.new
            ≡ slice_set self.old vm (remove (slice_index_or self.old vm []) k) }
    {
        self.kept[vm as usize].remove(k);
    }
}
