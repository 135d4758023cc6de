//! What the definitions of this crate mean, as laws: each function does nothing, and its clauses
//! are what was proved.

ghost use Rattle.std.specs.Prelude.{◌≡◌, ◌≢◌, ◌⊎◌, ℕ, ◌%◌, true, Option, Some};
ghost use Rattle.aia_regs.specs.declared.address_map.TheConstants.{PAGE};
ghost use Rattle.aia_file.specs.Imsic.{IsThere};
ghost use Rattle.aia_entry.specs.Tables.{table_of, route_of};
ghost use Rattle.aia_vcpu.specs.declared.place.GuestPlace.{GuestPlace};
ghost use Rattle.aia_vcpu.specs.Home.{Home, holds};
ghost use Rattle.aia_vcpu.specs.Vms.{Vcpu, is_vcpu_in};
ghost use Rattle.aia_fabric_values.specs.World.{World, stage_of};
ghost use Rattle.aia_fabric_values.specs.Whole.{IsWhole};
ghost use Rattle.aia_fabric_values.specs.Changes.{spot_of};
ghost use Rattle.aia_move_values.specs.Views.{places_of};
ghost use Rattle.aia_move_values.specs.Own.{TouchesOwn, LeadsToOwn, TouchesOneOf};
ghost use Rattle.aia_fabric_values.specs.Stores.{Reaches, ReachesByRecord};

/// A store of a device of a VM, or of one virtual hart for another, changes nothing or touches one
/// virtual hart's own alone: the guest file at which stores are to reach it, or its slot, and, in
/// the file of its notice hart, its notice identity. So the places of every other virtual hart, as
/// those of all other VMs, stay as they are, whatever its home is, if it does not hold that guest
/// file. Of a device it is so wherever the entries of its VM lead to the VM's own.
pub fn a_store_touches_one_virtual_hart_alone()
    ensures devices { (w u : World) (v addr value : ℕ) (reach : Vcpu → Option GuestPlace)
        → IsWhole w → LeadsToOwn w v reach
        → Reaches (route_of (table_of w.tables v) addr) w u (addr % PAGE) value
        → (u ≡ w) ⊎ TouchesOneOf w u v reach }
    ensures peers { (w u : World) (g : Vcpu) (value : ℕ) → IsWhole w
        → is_vcpu_in w.vms g ≡ true → ReachesByRecord (stage_of w g).in_force w u g value
        → TouchesOwn w u g (stage_of w g).in_force }
    ensures others { (w u : World) (g x : Vcpu) (reach : Option GuestPlace) (there : Home)
        → is_vcpu_in w.vms g ≡ true → is_vcpu_in w.vms x ≡ true → x ≢ g
        → TouchesOwn w u g reach
        → ((p : GuestPlace) → holds p there ≡ true → IsThere w.imsic (spot_of p) × (reach ≢ Some p))
        → places_of u x there ≡ places_of w x there }
{}
