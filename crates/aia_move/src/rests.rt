//! What is known of virtual harts between two moves, and of guest files that nobody has, as laws.
//! Each function does nothing, and its clauses are what was proved.

ghost use Rattle.std.specs.Prelude.{Option, Some, None, ◌≡◌, Bool, false, ℕ};
ghost use Rattle.aia_file.specs.InterruptFile.{InterruptFile};
ghost use Rattle.aia_file.specs.Imsic.{IsThere, file_at};
ghost use Rattle.aia_vcpu.specs.declared.place.GuestPlace.{GuestPlace};
ghost use Rattle.aia_vcpu.specs.declared.rest.Rest.{Rest};
ghost use Rattle.aia_vcpu.specs.declared.vm.Vm.{Vm};
ghost use Rattle.aia_vcpu.specs.Home.{ended};
ghost use Rattle.aia_vcpu.specs.Home.Home.{InMemory, Resident};
ghost use Rattle.aia_vcpu.specs.Home.Way.{Outward, Inward, Across};
ghost use Rattle.aia_vcpu_places.specs.Holds.{Hand, IsWithin, IsEmpty};
ghost use Rattle.aia_vcpu_places.specs.Stores.{AreApart};
ghost use Rattle.aia_fabric_values.specs.declared.at.At.TheVariants.{File};
ghost use Rattle.aia_fabric_values.specs.World.{World};
ghost use Rattle.aia_fabric_values.specs.Whole.{IsWhole};
ghost use Rattle.aia_fabric_values.specs.Making.{IsNew, MakesVm};
ghost use Rattle.aia_fabric_values.specs.Changes.{spot_of, file_in};
ghost use Rattle.aia_move_values.specs.declared.who.Who.{Who};
ghost use Rattle.aia_move_values.specs.declared.who.KeptNumbers.{KeptNumbers};
ghost use Rattle.aia_move_values.specs.Move.{Moving, width, MoveFits, Ends};
ghost use Rattle.aia_move_values.specs.PlanState.{PlanState, moving_of};
ghost use Rattle.aia_move_values.specs.Plan.{IsInPhase, begun, empty_hand, kept_hand};
ghost use Rattle.aia_move_values.specs.Targets.{TargetMap};
ghost use Rattle.aia_move_values.specs.Ways.{KnowsAll, NothingLeadsTo};
ghost use Rattle.aia_move_values.specs.WorldChanges.{OthersNameNothing, WorldChange, KnowsAtRest, IsOfOthers, IsElsewhere, IsUntouched, file_after, reach_after};

/// A plan that begins knows all, where all is known of its virtual hart at rest, and the guest file
/// to which it moves, if there is one, is empty and nothing leads there. As it ends all is known of
/// its virtual hart at rest again, with the same interrupt file.
pub fn a_plan_begins_and_ends_with_what_is_known_at_rest()
    ensures leave { (w : World) (map : TargetMap) (plan : PlanState) (who : Who) (hand : Hand)
        (file : InterruptFile) → IsInPhase (width w) plan → MoveFits w (moving_of plan)
        → (p : GuestPlace)
        → KnowsAtRest w map (record { who = who; home = Resident p; hand = hand }) file
        → moving_of plan ≡ begun who (Outward p) empty_hand
        → KnowsAll w map plan (Some p) file false }
    ensures arrive { (w : World) (map : TargetMap) (plan : PlanState) (who : Who) (hand : Hand)
        (file : InterruptFile) → IsInPhase (width w) plan → MoveFits w (moving_of plan)
        → (rests : Rest) (to : GuestPlace) (kept : KeptNumbers)
        → KnowsAtRest w map (record { who = who; home = InMemory rests; hand = hand }) file
        → NothingLeadsTo w (File (spot_of to)) → IsEmpty (file_in w (Some to))
        → kept.delivery ≡ hand.delivery → kept.threshold ≡ hand.threshold
        → moving_of plan ≡ begun who (Inward to) (kept_hand kept)
        → KnowsAll w map plan None file false }
    ensures shift { (w : World) (map : TargetMap) (plan : PlanState) (who : Who) (hand : Hand)
        (file : InterruptFile) → IsInPhase (width w) plan → MoveFits w (moving_of plan)
        → (p to : GuestPlace)
        → KnowsAtRest w map (record { who = who; home = Resident p; hand = hand }) file
        → NothingLeadsTo w (File (spot_of to)) → IsEmpty (file_in w (Some to))
        → moving_of plan ≡ begun who (Across p to) empty_hand
        → KnowsAll w map plan (Some p) file false }
    ensures ends { (w u : World) (map : TargetMap) (plan : PlanState) (reach : Option GuestPlace)
        (file : InterruptFile) (saw : Bool) (hand : Hand) → IsWhole w
        → AreApart (moving_of plan).home → IsWithin w.n (width w) file
        → KnowsAll w map plan reach file saw → Ends w (moving_of plan) u hand
        → KnowsAtRest u map
        (record (moving_of plan) { home = ended (moving_of plan).home; hand = hand }) file }
{}

/// What happens beside the doings of a virtual hart leaves known what is known of it, at rest or
/// moved: a store that is led to one of its places lands in its interrupt file, and all else leaves
/// that as it is. So the file stays one of the machine's. Whoever is moved as a VM is made, its
/// plan knows all as before.
pub fn what_happens_leaves_known_what_is_known()
    ensures at_rest { (w u : World) (map : TargetMap) (m : Moving) (file : InterruptFile)
        → IsWhole w → IsWithin w.n (width w) file → KnowsAtRest w map m file
        → (change : WorldChange w u) → IsOfOthers w u m change
        → KnowsAtRest u map m (file_after w u m change file) }
    ensures moved { (w u : World) (map : TargetMap) (plan : PlanState) (reach : Option GuestPlace)
        (file : InterruptFile) (saw : Bool) → IsWhole w → AreApart (moving_of plan).home
        → IsWithin w.n (width w) file → KnowsAll w map plan reach file saw
        → (change : WorldChange w u) → IsOfOthers w u (moving_of plan) change
        → KnowsAll u map plan (reach_after w u (moving_of plan) change reach)
        (file_after w u (moving_of plan) change file) saw }
    ensures within { (w u : World) (m : Moving) (n words : ℕ) (file : InterruptFile)
        → IsWithin n words file → (change : WorldChange w u)
        → IsWithin n words (file_after w u m change file) }
    ensures made { (w u : World) (map : TargetMap) (plan : PlanState) (reach : Option GuestPlace)
        (file : InterruptFile) (saw : Bool) (vm : Vm) → IsWhole w → IsWhole u → MakesVm w u vm
        → OthersNameNothing w → KnowsAll w map plan reach file saw
        → KnowsAll u map plan reach file saw }
{}

/// Each guest file is empty as the machine is made, and nothing leads to it. To one to which
/// nothing leads nothing comes to lead, except by a move that holds it; and it keeps what it holds,
/// if it is not itself reached. Nor does a record of a virtual hart that is not there name a file,
/// as the machine is made and whatever happens.
pub fn nothing_comes_to_lead_to_a_free_file()
    ensures new { (w : World) (harts guests n : ℕ) (p : GuestPlace) → IsNew w harts guests n
        → NothingLeadsTo w (File (spot_of p)) }
    ensures stays { (w u : World) (p : GuestPlace) → IsWhole w
        → NothingLeadsTo w (File (spot_of p)) → (change : WorldChange w u)
        → IsElsewhere w u p change → NothingLeadsTo u (File (spot_of p)) }
    ensures new_empty { (w : World) (harts guests n : ℕ) (p : GuestPlace) → IsNew w harts guests n
        → IsThere w.imsic (spot_of p) → IsEmpty (file_in w (Some p)) }
    ensures untouched { (w u : World) (p : GuestPlace) → IsWhole w → IsThere w.imsic (spot_of p)
        → NothingLeadsTo w (File (spot_of p)) → (change : WorldChange w u)
        → IsUntouched w u p change
        → file_at u.imsic (spot_of p) ≡ file_at w.imsic (spot_of p) }
    ensures new_records { (w : World) (harts guests n : ℕ) → IsNew w harts guests n
        → OthersNameNothing w }
    ensures records { (w u : World) → IsWhole w → OthersNameNothing w → WorldChange w u
        → OthersNameNothing u }
{}
