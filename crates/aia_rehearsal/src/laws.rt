//! What rehearsals mean, as laws: each function does nothing, and its clauses are what was proved.

ghost use Rattle.std.specs.Prelude.{◌≡◌, ℕ, ◌/◌, ◌<◌, Bool, false, Some, None, List};
ghost use Rattle.std.specs.List.{All};
ghost use Rattle.aia_plan.specs.Plan.{IsInside};
ghost use Rattle.aia_plan.specs.Rule.{failing};
ghost use Rattle.aia_plan.specs.Safe.{IsStart};
ghost use Rattle.aia_plan.specs.Transit.{Transit, all_happened};
ghost use Rattle.aia_plan.specs.Transit.TransitSide.{Old, New};
ghost use Rattle.aia_file.specs.Imsic.{IsThere};
ghost use Rattle.aia_vcpu.specs.declared.place.GuestPlace.{GuestPlace};
ghost use Rattle.aia_vcpu.specs.declared.vm.Vm.{Vm};
ghost use Rattle.aia_vcpu.specs.Home.{is_place};
ghost use Rattle.aia_vcpu.specs.Vms.{vcpu_of};
ghost use Rattle.aia_vcpu_places.specs.Places.{entry_word};
ghost use Rattle.aia_fabric_values.specs.World.{World};
ghost use Rattle.aia_fabric_values.specs.Whole.{IsWhole};
ghost use Rattle.aia_fabric_values.specs.Making.{IsNew, MakesVm};
ghost use Rattle.aia_fabric_values.specs.Changes.{spot_of, with_entry_word, with_fence, with_map, with_gfence};
ghost use Rattle.aia_move_values.specs.declared.who.Who.{Who};
ghost use Rattle.aia_move_values.specs.Move.{IsWho, width};
ghost use Rattle.aia_rehearsal.specs.declared.place.Place as ends;
ghost use Rattle.aia_rehearsal.specs.declared.place.Place.TheVariants as places;
ghost use Rattle.aia_rehearsal.specs.Rehearsed.{Rehearsed, IsOf, AreTwo, at, from_to};
ghost use Rattle.aia_rehearsal.specs.Stands.{StandsFor, sets_at};
ghost use Rattle.aia_rehearsal.specs.Events.{RehearsedEvent, Happens, IsAlone, seen};
ghost use Rattle.aia_rehearsal.specs.Runs.{Runs, steps_in, asked_in, IsBegun, IsOver, NoneLeads, state_at};

use aia_plan::Kind;

/// Whatever happens between the steps of a rehearsal, a store of a device or of another virtual
/// hart, a store that is sent, one that lands, or an entry that is read again, it stands for its
/// state after what that is on the machine of the proof: the same, for the virtual hart that is
/// moved; nothing, for any other. Its own steps too are what they are there.
pub fn what_happens_is_what_happens_there()
    ensures stands { (w u : World) (r t : Rehearsed) (event : RehearsedEvent) → IsWhole w
        → IsAlone w r.passage → Happens event w r u t → (z : Transit) → StandsFor w r z
        → StandsFor u t (all_happened (seen event w r.passage) z) }
    ensures alone { (w u : World) (r t : Rehearsed) (event : RehearsedEvent) → IsWhole w
        → IsOf w r.passage → Happens event w r u t → IsAlone w r.passage → IsAlone u r.passage }
{}

/// After all steps of an accepted plan were rehearsed, on any fabric and with any stores, sends,
/// landings and entries read again between them: each interrupt that was pending in the old place,
/// or was asked for since, is pending in the new one, and no other is; the enables there are those
/// of the old place; the old place is empty, and no route and no store in flight leads to it.
pub fn an_accepted_plan_moves_all()
    ensures { (kind : Kind) (w u : World) (r t : Rehearsed) (events : List RehearsedEvent)
        → (run : Runs events w r u t) → IsBegun w r
        → All (IsInside (width w)) (steps_in events)
        → failing kind (width w) (steps_in events) ≡ None
        → IsOver w r (asked_in events w r u t run) u }
{}

/// Rehearsals stand for something, of each kind of places. On a new fabric with one VM an arrival
/// may begin, whoever of its virtual harts arrives and wherever; where a move may begin it stands
/// for a start. A leave stands for a state in which all leads to the slot. And a shift does, once
/// the entry and the record of its virtual hart were written for its old file and put in force.
/// Where an accepted plan has ended the next move may begin, from the new place to any that is its
/// own, and empty, and to which no store in flight leads.
pub fn rehearsals_stand_for_something()
    ensures arrival { (before w : World) (n harts guests : ℕ) (vm : Vm) (who : Who)
        → IsNew before harts guests n → IsWhole w → MakesVm before w vm → IsWho w who
        → who.found.vm ≡ 0 → (file : GuestPlace) → IsThere w.imsic (spot_of file)
        → IsBegun w (from_to who places.Slot (places.File file)) }
    ensures begun { (w : World) (r : Rehearsed) → IsBegun w r
        → StandsFor w r (state_at Old w r) × IsStart (width w) (state_at Old w r) }
    ensures leave { (before w : World) (n harts guests : ℕ) (vm : Vm) (who : Who)
        → IsNew before harts guests n → IsWhole w → MakesVm before w vm → IsWho w who
        → who.found.vm ≡ 0 → (file : GuestPlace) → IsThere w.imsic (spot_of file)
        → StandsFor w (from_to who (places.File file) places.Slot)
        (state_at New w (from_to who (places.File file) places.Slot)) }
    ensures shift { (before w : World) (n harts guests : ℕ) (vm : Vm) (who : Who)
        → IsNew before harts guests n → IsWhole w → MakesVm before w vm → IsWho w who
        → who.found.vm ≡ 0 → (a b : GuestPlace) → IsThere w.imsic (spot_of a)
        → IsThere w.imsic (spot_of b) → is_place a b ≡ false
        → (x y v u : World) → IsWhole x → IsWhole y → IsWhole v
        → x ≡ with_entry_word w who.found.vm who.found.vcpu 0 (entry_word who.found.slot (Some a))
        → y ≡ with_fence x who.found.vm who.found.vcpu
        → v ≡ with_map y (vcpu_of who.found.vm who.found.vcpu) (Some a)
        → u ≡ with_gfence v (vcpu_of who.found.vm who.found.vcpu)
        → StandsFor u (from_to who (places.File a) (places.File b))
        (state_at Old u (from_to who (places.File a) (places.File b))) }
    ensures next { (w u : World) (r t : Rehearsed) (asked_for : ℕ → Bool) (place : ends.Place)
        → IsOver w r asked_for u → t ≡ from_to r.passage.who r.passage.new place
        → IsOf u t.passage → IsAlone u t.passage → AreTwo r.passage.new place
        → ((vm : ℕ) → NoneLeads u t.passage New vm)
        → ((i : ℕ) → i / 64 < width u → (sets_at u (at New t.passage)).pending i ≡ false)
        → ((i : ℕ) → i / 64 < width u → (sets_at u (at New t.passage)).enabled i ≡ false)
        → IsBegun u t }
{}
