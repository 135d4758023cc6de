//! What the definitions of this crate mean, as laws: each function does nothing, and its clauses
//! are what was proved.

ghost use Rattle.std.specs.Prelude.{◌≡◌, ℕ, ◌<◌, true, false, not, ◌&&◌, if◌then◌else◌, nat_lt, List, length, slice_get, Option, Some};
ghost use Rattle.aia_vcpu.specs.Vms.{Vcpu, is_vcpu_in, slot_of, vcpus_in};
ghost use Rattle.aia_vcpu.specs.declared.end.End.{End};
ghost use Rattle.aia_vcpu.specs.Home.{Home, Progress, is_moving, ended, one_more, resting};
ghost use Rattle.aia_vcpu.specs.Home.Home.{OnWay};
ghost use Rattle.aia_vcpu.specs.Home.Way.{Outward, Inward, Across};
ghost use Rattle.aia_vcpu.specs.Plans.{plan, plan_has, plan_step, plan_steps, plan_of, has_access, step_of, is_made, IsNext, next_access, is_at_last, pending_step, enables_step};
ghost use Rattle.aia_vcpu.specs.declared.access.Access.{Access};
ghost use Rattle.aia_vcpu.specs.declared.access.Access.TheVariants.{TakeDelivery, WriteEntry, Fence, Map, GFence, TakePending, TakeEnables, PutEnables, Look, TakeThreshold, PutThreshold};
ghost use Rattle.aia_vcpu.specs.Phases.{has_come};
ghost use Rattle.aia_vcpu.specs.Phases.Phase.{ClosingPhase, DrainPhase, EnablePhase, LookPhase};
ghost use Rattle.aia_vcpu.specs.BySteps.{old_file, new_file, is_drained, is_enable_taken, is_enable_put, delivery_in_own, threshold_in_own, threshold_in_next, look_step};
ghost use Rattle.aia_vcpu.specs.Routes.{entry_names, stage_names, peers_reach, is_closed, is_stage_closed, is_watched, is_at_fence, MayReach, MayLand};
ghost use Rattle.aia_vcpu.specs.Aims.{is_aiming, further, pass_reaches, AreAimed};

use crate::{GuestPlace, Rest, Vm};

/// The slots of virtual harts are apart, and no slot is past the number of all virtual harts.
#[tactic(auto, using(crate::proofs::VmLemmas::same_slot, crate::proofs::VmLemmas::slot_below))]
pub fn slots_are_apart()
    ensures apart { (vms : List Vm) (a b : Vcpu) → is_vcpu_in vms a ≡ true
        → is_vcpu_in vms b ≡ true → slot_of vms a ≡ slot_of vms b → a ≡ b }
    ensures below { (vms : List Vm) (g : Vcpu) → is_vcpu_in vms g ≡ true
        → slot_of vms g < vcpus_in vms }
{}

/// Each slot below the number of all virtual harts is that of a virtual hart which is there.
pub fn each_slot_is_taken()
    ensures { (vms : List Vm) (q : ℕ) → q < vcpus_in vms
        → (g : Vcpu) × (is_vcpu_in vms g ≡ true) × (slot_of vms g ≡ q) }
{}

/// The plan as a list and the tables agree: an access that the tables have stands in the list at
/// its step, what stands in the list is in the tables at that step, and the list has as many
/// accesses as the move has steps.
pub fn plans_agree()
    ensures table { (words : ℕ) (there : Home) (access : Access)
        → has_access words there access ≡ true
        → slice_get (plan_of words there) (step_of words there access) ≡ Some access }
    ensures list { (from to : End) (words k : ℕ) (access : Access)
        → slice_get (plan from to words) k ≡ Some access
        → (plan_has from to words access ≡ true) × (plan_step from to words access ≡ k) }
    ensures steps { (from to : End) (words : ℕ)
        → length (plan from to words) ≡ plan_steps from to words }
{}

/// A step makes one access: what the table says is next is what the list has next, and no two
/// accesses of a plan have the same step.
pub fn a_step_makes_one_access()
    ensures next { (words : ℕ) (there : Home) (access : Access) → IsNext words there access
        → next_access words there ≡ Some access }
    ensures one { (words : ℕ) (there : Home) (a b : Access) → has_access words there a ≡ true
        → has_access words there b ≡ true → step_of words there a ≡ step_of words there b
        → a ≡ b }
{}

/// The routes of a move change at their steps: what is written when it is written, and what is in
/// force when it is fenced. Where the entry in force may lead turns on both: until the entry is
/// written only to the old place, and from its fence on only to the new place.
pub fn routes_change_at_their_steps()
    ensures entry { (words : ℕ) (there : Home) → is_moving there ≡ true → entry_names there
        ≡ (if is_made words there WriteEntry then new_file there else old_file there) }
    ensures devices_before { (words : ℕ) (there : Home) (place : Option GuestPlace)
        → is_moving there ≡ true → is_made words there WriteEntry ≡ false
        → MayReach there place → place ≡ old_file there }
    ensures devices_after { (words : ℕ) (there : Home) (place : Option GuestPlace)
        → is_moving there ≡ true → is_made words there Fence ≡ true
        → MayReach there place → place ≡ new_file there }
    ensures stage { (words : ℕ) (there : Home) → is_moving there ≡ true → stage_names there
        ≡ (if is_made words there Map then new_file there else old_file there) }
    ensures peers { (words : ℕ) (there : Home) → is_moving there ≡ true → peers_reach there
        ≡ (if is_made words there GFence then new_file there else old_file there) }
{}

/// Where the entry in force may lead, step by step: the old place or the new one until the fence,
/// then the new one. A store may land where it leads, and where peers' stores go; and once a word
/// was taken from the old place it leads there no more.
pub fn the_entry_leads_where_it_may()
    ensures named { (there : Home) → MayReach there (entry_names there) }
    ensures other_step { (there : Home) (place : Option GuestPlace) → is_at_fence there ≡ false
        → MayReach there place → MayReach (one_more there) place }
    ensures fence { (there : Home) (place : Option GuestPlace) → is_at_fence there ≡ true
        → MayReach (one_more there) place → place ≡ entry_names there }
    ensures fenced { (there : Home) → is_at_fence there ≡ true
        → MayReach (one_more there) (entry_names there) }
    ensures last { (words : ℕ) (there : Home) (place : Option GuestPlace)
        → is_at_last words there ≡ true → MayReach there place → MayReach (ended there) place }
    ensures lands { (words : ℕ) (there : Home) (place : Option GuestPlace)
        → MayReach there place → MayLand words there place }
    ensures peers { (words : ℕ) (there : Home) → MayLand words there (peers_reach there) }
    ensures drained { (words w : ℕ) (there : Home) (place : Option GuestPlace)
        → is_moving there ≡ true → is_drained words there w ≡ true
        → MayReach there place → place ≡ new_file there }
{}

/// Where passed sources lead: each step keeps that they are aimed between the fence of the G-stage
/// record and the next access, so each leads where a store may land, and to the new place once a
/// word is taken. A step that aims one is no fence of the entry.
pub fn passes_lead_where_they_may()
    ensures step { (passes words : ℕ) (there : Home) → AreAimed passes there
        → AreAimed passes (further passes words there) }
    ensures lands { (passes words r : ℕ) (there : Home) → nat_lt r passes ≡ true
        → AreAimed passes there → MayLand words there (pass_reaches r there) }
    ensures drained { (passes words w r : ℕ) (there : Home) → nat_lt r passes ≡ true
        → AreAimed passes there → is_moving there ≡ true → is_drained words there w ≡ true
        → pass_reaches r there ≡ new_file there }
    ensures no_fence { (passes : ℕ) (there : Home) → is_aiming passes there ≡ true
        → is_at_fence there ≡ false }
{}

/// The host is told of the identities of a word while the slot has the word's enables: in a leave
/// from the step on that puts them there, in an arrival until the one that takes them.
pub fn a_word_is_watched_with_its_enables()
    ensures leave { (words : ℕ) (from : GuestPlace) (at : Progress) (w : ℕ)
        → is_watched words (OnWay (Outward from) at) w
        ≡ is_made words (OnWay (Outward from) at) (PutEnables w) }
    ensures arrive { (words : ℕ) (to : GuestPlace) (at : Progress) (w : ℕ)
        → is_watched words (OnWay (Inward to) at) w
        ≡ not (is_made words (OnWay (Inward to) at) (TakeEnables w)) }
{}

/// Whoever comes to rest in memory another way, as one that begins to run from there or ceases to,
/// has stores led where they went, and the host is told of the same words.
pub fn running_from_memory_moves_nothing()
    ensures devices { (rest : Rest) (there : Home) (place : Option GuestPlace)
        → MayReach there place → MayReach (resting rest there) place }
    ensures peers { (rest : Rest) (there : Home)
        → peers_reach (resting rest there) ≡ peers_reach there }
    ensures passes { (rest : Rest) (there : Home) (r : ℕ)
        → pass_reaches r (resting rest there) ≡ pass_reaches r there }
    ensures watched { (rest : Rest) (there : Home) (words w : ℕ)
        → is_watched words (resting rest there) w ≡ is_watched words there w }
{}

/// The steps by which the sets of a move are followed are those of its plan.
pub fn words_move_at_their_steps()
    ensures pending { (words : ℕ) (there : Home) (w : ℕ) → is_moving there ≡ true
        → pending_step there w ≡ step_of words there (TakePending w) }
    ensures enables { (words : ℕ) (there : Home) (w : ℕ) → is_moving there ≡ true
        → enables_step words there w ≡ step_of words there (TakeEnables w) }
    ensures looks { (words : ℕ) (from : GuestPlace) (at : Progress) (w : ℕ)
        → look_step words w ≡ step_of words (OnWay (Outward from) at) (Look w) }
{}

/// The numbers of a move stand in its files as its steps take and put them.
pub fn numbers_move_at_their_steps()
    ensures delivery { (words : ℕ) (there : Home) → is_moving there ≡ true
        → delivery_in_own there ≡ (has_access words there TakeDelivery
        && not (is_made words there TakeDelivery)) }
    ensures leave { (words : ℕ) (from : GuestPlace) (at : Progress)
        → threshold_in_own words (OnWay (Outward from) at)
        ≡ not (is_made words (OnWay (Outward from) at) TakeThreshold) }
    ensures arrive { (words : ℕ) (to : GuestPlace) (at : Progress)
        → threshold_in_own words (OnWay (Inward to) at)
        ≡ is_made words (OnWay (Inward to) at) PutThreshold }
    ensures shift_old { (words : ℕ) (from to : GuestPlace) (at : Progress)
        → threshold_in_own words (OnWay (Across from to) at)
        ≡ not (is_made words (OnWay (Across from to) at) TakeThreshold) }
    ensures shift_new { (words : ℕ) (from to : GuestPlace) (at : Progress)
        → threshold_in_next words (OnWay (Across from to) at)
        ≡ is_made words (OnWay (Across from to) at) PutThreshold }
{}

/// What a move has made that has come to a phase: in Closing and after the entry is closed, in
/// Drain and after the G-stage record too; in Enable and after each word of the pending set is
/// taken, in the looks and after each word of the enabled set is taken and put.
pub fn a_phase_says_what_was_made()
    ensures closing { (words : ℕ) (there : Home) → is_moving there ≡ true
        → has_come words there ClosingPhase ≡ true → is_closed there ≡ true }
    ensures drain { (words : ℕ) (there : Home) → is_moving there ≡ true
        → has_come words there DrainPhase ≡ true
        → (is_closed there ≡ true) × (is_stage_closed there ≡ true) }
    ensures enable { (words w : ℕ) (there : Home) → is_moving there ≡ true → w < words
        → has_come words there EnablePhase ≡ true → is_drained words there w ≡ true }
    ensures looks { (words w : ℕ) (there : Home) → is_moving there ≡ true → w < words
        → has_come words there LookPhase ≡ true → (is_drained words there w ≡ true)
        × (is_enable_taken words there w ≡ true) × (is_enable_put words there w ≡ true) }
{}
