//! What the definitions of this crate mean, as laws: each function does nothing, and its clauses
//! are what was proved.

ghost use Rattle.std.specs.Prelude.{◌≡◌, ◌≢◌, ◌⊎◌, ℕ, ◌%◌, true, false, [], ◌∷◌, ◌++◌, Some, None};
ghost use Rattle.aia_file.specs.Imsic.{IsThere};
ghost use Rattle.aia_vcpu.specs.declared.place.GuestPlace.{GuestPlace};
ghost use Rattle.aia_vcpu.specs.Vms.{Vcpu, slot_of, notice_hart};
ghost use Rattle.aia_vcpu.specs.Home.{holds, is_moving};
ghost use Rattle.aia_vcpu.specs.Home.Home.{Resident, OnWay};
ghost use Rattle.aia_vcpu.specs.Home.Way.{Outward};
ghost use Rattle.aia_vcpu.specs.Routes.{peers_reach};
ghost use Rattle.aia_vcpu_places.specs.Places.{leads_to};
ghost use Rattle.aia_pool.specs.Leases.{is_out};
ghost use Rattle.aia_regs.specs.declared.address_map.TheConstants.{PAGE};
ghost use Rattle.aia_entry.specs.Tables.{table_of, entry_in_force, route_of};
ghost use Rattle.aia_fabric_values.specs.World.{World, stage_of};
ghost use Rattle.aia_fabric_values.specs.Stores.{Reaches, ReachesByRecord};
ghost use Rattle.aia_fabric_values.specs.Flights.{Lands};
ghost use Rattle.aia_fabric_values.specs.Whole.{IsWhole};
ghost use Rattle.aia_fabric_values.specs.Changes.{spot_of};
ghost use Rattle.aia_move_values.specs.Views.{places_of};
ghost use Rattle.aia_move_values.specs.Own.{LeadsToOwn, TouchesOwn, TouchesOneOf};
ghost use Rattle.std.specs.Int.{is_in_range};
ghost use Rattle.aia_model.specs.Event.{Event, History, sources_of};
ghost use Rattle.aia_model.specs.Aim.{aimed_by};
ghost use Rattle.aia_model.specs.GuestFile.{guest_file};
ghost use Rattle.aia_model.specs.Notice.{a_look_saw};
ghost use Rattle.aia_move_values.specs.Targets.{TargetMap};
ghost use Rattle.aia_move_values.specs.Move.{Moving};
ghost use Rattle.aia_move_values.specs.WorldChanges.{KnowsAtRest};
ghost use Rattle.aia_move_values.specs.Ways.{KnowsWays, KnowsAll, OldPlaceIsShut};
ghost use Rattle.aia_file.specs.InterruptFile.{landed};
ghost use Rattle.aia_hyp_values.specs.Targets.{TargetsStand, StandsWith, LeavesTheAplic};
ghost use Rattle.aia_model.specs.Vms.{vms_of, has_vm, has_vcpu};
ghost use Rattle.aia_model.specs.Refusal.{refusal};
ghost use Rattle.aia_hyp_values.specs.Moves.{KnowsIts, IsToldOf};
ghost use Rattle.aia_model.specs.ReachOf.{in_force_of, sent_into};
ghost use Rattle.aia_model.specs.Flight.{Sending, flying};
ghost use Rattle.aia_model.specs.GuestFile.{sent_to};
ghost use Rattle.aia_model.specs.Event.Event.{Accepted, Delivered};
ghost use Rattle.aia_model.specs.declared.line.Line.TheVariants as lines;
ghost use Rattle.aia_model.specs.Histories.{IsHistory, MayHappen};
ghost use Rattle.aia_model.specs.Passes.{passes_of};
ghost use Rattle.aia_model.specs.HomeOf.{home};
ghost use Rattle.aia_model.specs.Answer.{msi_taken, after_lines};
ghost use Rattle.aia_move_values.specs.PlanState.{PlanState, moving_of};
ghost use Rattle.aia_hyp_values.specs.Core.{CoreState, record_of, hand_in};
ghost use Rattle.aia_hyp_values.specs.Stands.{CoreStands, CoreTakes, CoreHears, MayPass, line_served};
ghost use Rattle.aia_hyp_values.specs.Example.{stayer, leaver, the_pass, so_far, leaving_history, earlier_lines, leave_lines, stayer_file, leaver_file, leaving_core, leave_under_way, leave_plan, example_world, flying_world, example_targets, leaver_interrupts, stayer_at_rest};

use crate::vcpu::Stay;
use aia_model::{Answer, Line, Msi};

/// A core stands for a history in which one virtual hart is resident and another one, to which a
/// wired source is passed, leaves, has aimed that source, and carries a word: what is promised of
/// cores that stand for histories is not promised of none. The core's world is whole, and lines of
/// a script lead to the history.
pub fn a_core_stands_in_the_middle_of_a_leave()
    ensures stands { CoreStands leaving_core leaving_history }
    ensures whole { IsWhole leaving_core.world }
    ensures stays { home leaving_history stayer ≡ Resident stayer_file }
    ensures leaves { home leaving_history leaver ≡ OnWay (Outward leaver_file) so_far }
    ensures passed { passes_of leaving_history ≡ the_pass ∷ [] }
    ensures lines { after_lines [] (earlier_lines ++ leave_lines) ≡ leaving_history }
{}

/// A store of a device or of a peer, for a virtual hart, reaches a guest file only while that
/// virtual hart holds it, and so none that is free: once a guest file is given back, no store, also
/// none that was in flight, reaches it but through the routes of the virtual hart that holds it
/// next. In a core that stands for a history the entry and the record that are in force are these
/// routes, and a VM has no other entries, so that a store of its devices touches only its own.
pub fn stores_reach_files_that_are_held()
    ensures devices { (h : History) (g : Vcpu) (p : GuestPlace) → in_force_of h g ≡ Some p
        → holds p (home h g) ≡ true }
    ensures peers { (h : History) (g : Vcpu) (p : GuestPlace) → peers_reach (home h g) ≡ Some p
        → holds p (home h g) ≡ true }
    ensures free { (x : CoreState) (h : History) (g : Vcpu) (p : GuestPlace) → CoreStands x h
        → has_vcpu h g ≡ true → IsThere x.world.imsic (spot_of p) → is_out x.leases p ≡ false
        → (in_force_of h g ≢ Some p) × (peers_reach (home h g) ≢ Some p) }
    ensures flying { (h : History) (v k : ℕ) (s : Sending) (p : GuestPlace) → IsHistory h
        → flying h v k ≡ Some s → sent_into v s ≡ Some p → holds p (home h (sent_to v s)) ≡ true }
    ensures none_flying { (x : CoreState) (h : History) (v k : ℕ) (s : Sending) (p : GuestPlace)
        → CoreStands x h → flying h v k ≡ Some s → IsThere x.world.imsic (spot_of p)
        → is_out x.leases p ≡ false → sent_into v s ≢ Some p }
    ensures in_force { (x : CoreState) (h : History) (g : Vcpu) → CoreStands x h
        → has_vcpu h g ≡ true
        → (entry_in_force (table_of x.world.tables g.vm) g.vcpu
        ≡ leads_to (slot_of (vms_of h) g) (notice_hart (vms_of h) g) (in_force_of h g))
        × ((stage_of x.world g).in_force ≡ peers_reach (home h g)) }
    ensures own { (x : CoreState) (h : History) (v : ℕ) → CoreStands x h → has_vm h v ≡ true
        → LeadsToOwn x.world v (λ g. in_force_of h g) }
{}

/// In a core that stands for a history, whatever is being moved, a store of a device of a VM, at
/// once or as it lands after it was in flight, or one of a virtual hart for another of its VM,
/// changes nothing, or touches one virtual hart of that VM alone: where stores are to reach it, a
/// guest file that it holds or its slot, and at the file of its notice hart its own notice
/// identity. The places of every other virtual hart, of its VM or of another one, stay as they are.
pub fn a_store_of_a_vm_touches_its_own_alone()
    ensures devices { (x : CoreState) (h : History) (u : World) (v addr value : ℕ)
        → CoreStands x h → IsWhole x.world → has_vm h v ≡ true
        → Reaches (route_of (table_of x.world.tables v) addr) x.world u (addr % PAGE) value
        → (u ≡ x.world) ⊎ TouchesOneOf x.world u v (λ g. in_force_of h g) }
    ensures landings { (x : CoreState) (h : History) (u : World) (v k : ℕ) (s : Sending)
        → CoreStands x h → IsWhole x.world → flying h v k ≡ Some s
        → (landing : Lands x.world u v k)
        → TouchesOwn x.world landing.stored (sent_to v s) (sent_into v s)
        × ((g : Vcpu) → has_vcpu h g ≡ true → g ≢ sent_to v s
        → places_of u g (home h g) ≡ places_of x.world g (home h g)) }
    ensures peers { (x : CoreState) (h : History) (u : World) (g : Vcpu) (value : ℕ)
        → CoreStands x h → IsWhole x.world → has_vcpu h g ≡ true
        → ReachesByRecord (stage_of x.world g).in_force x.world u g value
        → TouchesOwn x.world u g (peers_reach (home h g)) }
    ensures devices_others { (x : CoreState) (h : History) (u : World) (g other : Vcpu)
        → CoreStands x h → has_vcpu h g ≡ true → has_vcpu h other ≡ true → other ≢ g
        → TouchesOwn x.world u g (in_force_of h g)
        → places_of u other (home h other) ≡ places_of x.world other (home h other) }
    ensures peers_others { (x : CoreState) (h : History) (u : World) (g other : Vcpu)
        → CoreStands x h → has_vcpu h g ≡ true → has_vcpu h other ≡ true → other ≢ g
        → TouchesOwn x.world u g (peers_reach (home h g))
        → places_of u other (home h other) ≡ places_of x.world other (home h other) }
{}

/// What a plan knows it knows after every call of the core, of whatever kind: the call's contract,
/// `CoreTakes`, or `CoreHears` for an MSI, says that the core then stands for the longer history;
/// and in a core that stands, the plan of each virtual hart that is being moved fits the world and
/// is in its phase, and the places of the virtual hart hold its interrupt file, as it has become by
/// stores and accesses.
pub fn a_plan_knows_it_after_every_call()
    ensures takes { (x y : CoreState) (line : Line) (given : Answer) (h : History) (g : Vcpu)
        (plan : PlanState) → CoreTakes x y line given → CoreStands x h
        → has_vcpu (line_served (refusal h line) h line) g ≡ true
        → (record_of y g).stay ≡ Stay.Moving plan
        → KnowsIts y (line_served (refusal h line) h line) g plan }
    ensures hears { (x y : CoreState) (msi : Msi) (h : History) (g : Vcpu) (plan : PlanState)
        → CoreHears x y msi → CoreStands x h → MayHappen h (Delivered msi)
        → has_vcpu (msi_taken msi h) g ≡ true
        → (record_of y g).stay ≡ Stay.Moving plan → KnowsIts y (msi_taken msi h) g plan }
{}

/// Targets of which no source is ready stand for the machine as it is made. Those that stand for a
/// history stand for it with an event that aims nothing and is nothing to the APLIC, if they stay
/// as they are; the core's calls that are given them say so of themselves (`targets`). With targets
/// that stand beside a core, each source that is there may be passed, or refused.
pub fn targets_stand_as_the_core_goes_on()
    ensures begins { (map : TargetMap) (harts guests n sources : ℕ) → map.harts ≡ harts
        → ((s : ℕ) → map.ready s ≡ false)
        → TargetsStand map (Accepted (lines.Machine harts guests n sources) ∷ []) }
    ensures event { (map : TargetMap) (h : History) (event : Event) → MayHappen h event
        → IsHistory h → LeavesTheAplic event → aimed_by h event ≡ None → TargetsStand map h
        → TargetsStand map (event ∷ h) }
    ensures passes { (x : CoreState) (map : TargetMap) (h : History) (source : ℕ) → IsHistory h
        → StandsWith x map h → is_in_range 1 (sources_of h) source ≡ true
        → MayPass x map source }
{}

/// In a core that stands for a history no way leads to a place of a move but those of its own
/// virtual hart; and with targets that stand for the history, beside it, the plan of each virtual
/// hart that is moved knows all: of the places, the ways that lead there, and the targets.
pub fn a_plan_in_a_core_knows_all()
    ensures ways { (x : CoreState) (h : History) (g : Vcpu) (plan : PlanState) → CoreStands x h
        → IsWhole x.world → has_vcpu h g ≡ true → (record_of x g).stay ≡ Stay.Moving plan
        → KnowsWays x.world (moving_of plan) }
    ensures all { (x : CoreState) (map : TargetMap) (h : History) (g : Vcpu) (plan : PlanState)
        → IsHistory h → StandsWith x map h → IsWhole x.world → has_vcpu h g ≡ true
        → (record_of x g).stay ≡ Stay.Moving plan
        → KnowsAll x.world map plan (in_force_of h g) (guest_file h g) (a_look_saw h g) }
{}

/// In a core that stands for a history, with targets that stand for it, all is known of each
/// virtual hart that is not moved: of its places, the ways that lead there, and the targets.
pub fn all_is_known_of_who_is_at_rest_in_a_core()
    ensures { (x : CoreState) (map : TargetMap) (h : History) (g : Vcpu) (m : Moving)
        → IsHistory h → StandsWith x map h → IsWhole x.world → has_vcpu h g ≡ true
        → is_moving (home h g) ≡ false → IsToldOf h g m
        → m.hand ≡ hand_in (record_of x g).stay
        → KnowsAtRest x.world map m (guest_file h g) }
{}

/// A plan in the middle of a leave that knows all, in a world with two stores in flight, one for
/// its virtual hart and one for another one, and with a passed source: what is promised of plans
/// that know all is not promised of none. The targets stand for the history that leads there.
/// Nothing leads to the guest file that is left; the first of these stores lands in the interrupt
/// file, and the second one leaves it as it is. Of the world before both were sent all is known of
/// the other virtual hart too, which is at rest.
pub fn a_plan_knows_all_in_the_middle_of_a_leave()
    ensures knows { KnowsAll flying_world example_targets leave_plan None leaver_interrupts false }
    ensures targets { TargetsStand example_targets leaving_history }
    ensures shut { OldPlaceIsShut flying_world example_targets leave_under_way }
    ensures own { (u : World) → Lands flying_world u 0 0
        → KnowsAll u example_targets leave_plan None (landed 0 3 leaver_interrupts) false }
    ensures other { (u : World) → Lands flying_world u 0 1
        → KnowsAll u example_targets leave_plan None leaver_interrupts false }
    ensures rests { KnowsAtRest example_world example_targets stayer_at_rest
        (guest_file leaving_history stayer) }
{}
