ghost use Rattle.std.specs.Prelude.{◌≡◌, ◌^◌, ◌<◌, ◌≤◌, false, bit_or, option_map};
ghost use Rattle.std.specs.Borrow.{Bor};
ghost use Rattle.aia_word.specs.Sets.{has_bit};
ghost use Rattle.aia_regs.specs.declared.limits.TheConstants.{VCPUS, FILE_WORDS};
ghost use Rattle.aia_vcpu.specs.declared.place.GuestPlace.{GuestPlace};
ghost use Rattle.aia_vcpu.specs.Vms.{vcpu_of};
ghost use Rattle.aia_fabric_values.specs.Found.{IsFound};
ghost use Rattle.aia_fabric_values.specs.Flights.{Fences};
ghost use Rattle.aia_fabric_values.specs.Changes.{IsPlaceThere, words_at, pending_words, enable_words, pending_at, with_pending, enable_at, with_enable, with_entry_word, with_fence, with_map, with_gfence};

use crate::{At, Fabric, Found, map};
use aia_mrif::{SlotMut, look};
use aia_pool::FileLease;
use aia_word::Bank;

/// What the steps of moves do, and an IOMMU that reads an entry again. Each touches one word of a
/// place, one word or entry of a table, or one record, and all else stays; but the fence of an
/// entry lands the stores in flight of its VM first.
#[tactic(auto, using(aia_fabric_values::proofs::WholeLemmas::width_at, aia_fabric_values::proofs::WholeLemmas::vcpu_entry, aia_fabric_values::proofs::WholeLemmas::vcpu_words, aia_fabric_values::proofs::FoundLemmas::found_there))]
impl Fabric {
    // ---- the sets of a place

    /// Makes `v` word `k` of the pending set of a place that is there, and gives what stood there:
    /// a slot has the words below `FILE_WORDS`, a file those of the machine's identities. Word 0
    /// has no identity 0, before and after.
    pub fn swap_pending(&mut self, at: At, k: usize, v: u64) -> u64
        requires place { IsPlaceThere self.old at }
        requires word { k < words_at self.old at }
        requires no_zero { k ≡ 0 → has_bit v 0 ≡ false }
        ensures value { result ≡ pending_at self.old at k }
        ensures after { self.new ≡ with_pending self.old at k v }
        ensures within { k < pending_words self.old at }
        ensures no_zero_stood { k ≡ 0 → has_bit result 0 ≡ false }
    {
        match at {
            At::File(spot) => self.imsic.file_mut(spot).swap_pending(k, v),
            At::Slot(q) => {
                let mut slot = SlotMut {
                    ram: &mut self.ram,
                    q,
                };
                slot.swap_pending(k, v)
            }
        }
    }

    /// Puts the identities that `v` shows as word `k`, as of [`Fabric::swap_pending`], into the
    /// pending set of a place that is there; word 0 has no identity 0.
    pub fn or_pending(&mut self, at: At, k: usize, v: u64)
        requires place { IsPlaceThere self.old at }
        requires word { k < words_at self.old at }
        requires no_zero { k ≡ 0 → has_bit v 0 ≡ false }
        ensures after { self.new
            ≡ with_pending self.old at k (bit_or (pending_at self.old at k) v) }
        ensures within { k < pending_words self.old at }
    {
        match at {
            At::File(spot) => self.imsic.file_mut(spot).or_pending(k, v),
            At::Slot(q) => self.or_slot(q, k, v),
        }
    }

    /// Puts the identities that `v` shows as word `k`, below `FILE_WORDS`, into the pending set of
    /// a slot.
    fn or_slot(&mut self, q: u32, k: usize, v: u64)
        requires slot { q < VCPUS }
        requires word { k < FILE_WORDS }
        requires no_zero { k ≡ 0 → has_bit v 0 ≡ false }
        ensures { self.new ≡ with_pending self.old (At.Slot q) k
            (bit_or (pending_at self.old (At.Slot q) k) v) }
    {
        let mut slot = SlotMut {
            ram: &mut self.ram,
            q,
        };
        slot.or_pending(k, v);
    }

    /// Makes `v` word `k`, as of [`Fabric::swap_pending`], of the enabled set of a place that is
    /// there, and gives what stood there: word 0 has no identity 0, before and after.
    pub fn swap_enable(&mut self, at: At, k: usize, v: u64) -> u64
        requires place { IsPlaceThere self.old at }
        requires word { k < words_at self.old at }
        requires no_zero { k ≡ 0 → has_bit v 0 ≡ false }
        ensures value { result ≡ enable_at self.old at k }
        ensures after { self.new ≡ with_enable self.old at k v }
        ensures within { k < enable_words self.old at }
        ensures no_zero_stood { k ≡ 0 → has_bit result 0 ≡ false }
    {
        match at {
            At::File(spot) => self.imsic.file_mut(spot).swap_enable(k, v),
            At::Slot(q) => {
                let mut slot = SlotMut {
                    ram: &mut self.ram,
                    q,
                };
                slot.swap_enable(k, v)
            }
        }
    }

    /// Gives both words `k`, below `FILE_WORDS`, of slot `q`, below `SLOTS`: pending, enabled.
    pub fn look(&self, q: u32, k: usize) -> (u64, u64)
        requires slot { q < VCPUS }
        requires word { k < FILE_WORDS }
        ensures pending { result.0 ≡ pending_at self.now (At.Slot q) k }
        ensures enabled { result.1 ≡ enable_at self.now (At.Slot q) k }
        ensures pending_fits { result.0 < 2 ^ 64 }
        ensures enable_fits { result.1 < 2 ^ 64 }
    {
        look(&self.ram, q, k)
    }

    // ---- the routes

    /// Writes word `which`, 0 or 1, of the entry of a virtual hart that is there.
    ///
    /// AIA 1.0, IOMMU Support for MSIs to Virtual Machines, "MSI page tables".
    pub fn put_word(&mut self, found: Found, which: u32, v: u64)
        requires there { IsFound self.old found }
        requires word { which ≤ 1 }
        ensures { self.new ≡ with_entry_word self.old found.vm found.vcpu which v }
    {
        let ram = &mut self.ram;
        let at = map::table_byte(found.vm) + 16 * found.vcpu as usize + 8 * which as usize;
        ram.store(at, v);
    }

    /// Lands all stores in flight of the VM, the oldest first, then puts the entry of a virtual
    /// hart that is there in force, as its two words say it.
    ///
    /// AIA 1.0, IOMMU Support for MSIs to Virtual Machines, "MSI page tables". Profile: an IOMMU
    /// answers a fence once the stores that it led before have landed.
    pub fn fence(&mut self, found: Found)
        requires { IsFound self.old found }
        ensures { Fences self.old self.new found.vm found.vcpu }
    {
        self.land_all(found.vm);
        self.recall();
        self.refetch(found);
    }

    /// Reads the entry of a virtual hart that is there again, as an IOMMU may at any time: it is in
    /// force as its two words say it, and no store lands.
    ///
    /// AIA 1.0, IOMMU Support for MSIs to Virtual Machines, "MSI page tables".
    pub fn refetch(&mut self, found: Found)
        requires { IsFound self.old found }
        ensures { self.new ≡ with_fence self.old found.vm found.vcpu }
    {
        self.iommu.refetch(found.vm, found.vcpu, &self.ram);
    }

    /// Writes the G-stage record of a virtual hart that is there: the guest file that it names, or
    /// `None`, by which stores of its peers go to its slot of memory. What is in force stays.
    ///
    /// The hypervisor extension 1.0.
    pub fn map(&mut self, found: Found, to: Option<&FileLease>)
        requires { IsFound self.old found }
        ensures { self.new ≡ with_map self.old (vcpu_of found.vm found.vcpu)
            (option_map (λ (lease : Bor GuestPlace). lease.now) to.entry) }
    {
        self.stages[found.slot as usize].written = to.map(|lease| lease.place());
    }

    /// Puts the G-stage record of a virtual hart that is there in force, as it is written.
    ///
    /// The hypervisor extension 1.0: HFENCE.GVMA.
    pub fn gfence(&mut self, found: Found)
        requires { IsFound self.old found }
        ensures { self.new ≡ with_gfence self.old (vcpu_of found.vm found.vcpu) }
    {
        let stage = &mut self.stages[found.slot as usize];
        stage.in_force = stage.written;
    }
}
