//! What the definitions of this crate mean, as laws: each function does nothing, and its clauses
//! are what was proved.

ghost use Rattle.std.specs.Prelude.{◌≡◌, ◌≢◌, ℕ, ◌+◌, ◌*◌, ◌/◌, ◌%◌, ◌<◌, ◌≤◌, ◌↔◌, true, List, [], length, Some};
ghost use Rattle.aia_regs.specs.declared.address_map.TheConstants.{PAGE};
ghost use Rattle.aia_regs.specs.declared.limits.TheConstants.{HARTS, IDENTITIES, VCPUS};
ghost use Rattle.aia_regs.specs.AddressMap.{slot_address, supervisor_page};
ghost use Rattle.aia_regs.specs.Request.{requested};
ghost use Rattle.aia_file.specs.declared.spot.Spot.{Spot};
ghost use Rattle.aia_file.specs.Imsic.{ImsicState};
ghost use Rattle.aia_file.specs.Mrif.{mrif_in, after_store};
ghost use Rattle.aia_file.specs.Words.{HasSlot, SameMrif, words_after_store};
ghost use Rattle.aia_entry.specs.Tables.{table_of, route_of};
ghost use Rattle.aia_entry.specs.Translation.{is_msi_address, file_number};
ghost use Rattle.aia_vcpu.specs.declared.vm.Vm.{Vm};
ghost use Rattle.aia_vcpu.specs.Vms.{vcpu_of, slot_of, notice_identity, notice_hart};
ghost use Rattle.aia_fabric_values.specs.World.{World, flight_of};
ghost use Rattle.aia_fabric_values.specs.Flights.{Fences};
ghost use Rattle.aia_fabric_values.specs.Whole.{IsWhole};
ghost use Rattle.aia_fabric_values.specs.Making.{MakesVm};
ghost use Rattle.aia_fabric_values.specs.Stores.{Reaches, StoresInSlot, page_spot, slot_at};

use aia_file::Spot;

/// A slot is named by its first address, and by no other.
pub fn an_address_names_one_slot()
    ensures { (addr q : ℕ)
        → (slot_at addr ≡ Some q) ↔ ((q < VCPUS) × (addr ≡ slot_address q)) }
{}

/// The number of the page of a hart's supervisor file names that file.
#[tactic(auto, using(crate::proofs::PlaceLemmas::host_page))]
pub fn a_supervisor_page_names_its_file()
    ensures { (i : ImsicState) (hart : ℕ) → hart < i.harts → i.harts ≤ HARTS
        → page_spot i (supervisor_page hart / PAGE) ≡ Spot.SupervisorFile hart }
{}

/// The memory-resident interrupt file in a slot takes a store to it, and that in every other slot
/// is equal.
#[tactic(auto, using(crate::proofs::PlaceLemmas::slot_takes_store))]
pub fn a_store_reaches_one_slot()
    ensures taken { (words : List ℕ) (q offset value : ℕ) → HasSlot words q
        → SameMrif (mrif_in (words_after_store words q (requested IDENTITIES offset value)) q)
        (after_store offset value (mrif_in words q)) }
    ensures others { (words : List ℕ) (q other offset value : ℕ) → q ≢ other
        → mrif_in (words_after_store words q (requested IDENTITIES offset value)) other
        ≡ mrif_in words other }
{}

/// Once a VM is made, a store of a device to the MSI address of one of its virtual harts goes to
/// that virtual hart's own slot, with a notice of its own identity, where one is due, to the
/// supervisor file of the VM's notice hart.
pub fn a_new_vm_is_reached_in_its_slots()
    ensures { (before after later : World) (vm : Vm) (addr value : ℕ)
        → IsWhole before → IsWhole after → MakesVm before after vm
        → is_msi_address vm.mask addr ≡ true → file_number vm.mask addr < vm.vcpus
        → Reaches (route_of (table_of after.tables (length before.vms)) addr) after later
        (addr % PAGE) value
        → StoresInSlot after later
        (Some (slot_of after.vms (vcpu_of (length before.vms) (file_number vm.mask addr))))
        (Spot.SupervisorFile (notice_hart after.vms
        (vcpu_of (length before.vms) (file_number vm.mask addr))))
        (notice_identity after.vms (vcpu_of (length before.vms) (file_number vm.mask addr)))
        (addr % PAGE) value }
{}

/// After the fence of an entry no store of its VM is in flight. Those of every other VM are as they
/// were.
pub fn a_fence_leaves_none_in_flight()
    ensures none { (w u : World) (vm file : ℕ) → IsWhole w → vm < length w.vms
        → Fences w u vm file → flight_of u vm ≡ [] }
    ensures others { (w u : World) (vm file other : ℕ) → Fences w u vm file → other ≢ vm
        → flight_of u other ≡ flight_of w other }
{}
