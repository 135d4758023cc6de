//! What a plan knows of all ways by which stores come to its virtual hart, as laws: routes, stores
//! in flight, and the targets of passed sources. Each function does nothing, and its clauses are
//! what was proved.

ghost use Rattle.std.specs.Prelude.{Option, Some, None, ◌≡◌, ◌≢◌, Bool, true, false, ◌||◌, ℕ, ◌%◌, ◌<◌, remove};
ghost use Rattle.aia_regs.specs.declared.limits.TheConstants.{VCPUS};
ghost use Rattle.aia_regs.specs.declared.address_map.TheConstants.{PAGE};
ghost use Rattle.aia_file.specs.InterruptFile.{InterruptFile, landed};
ghost use Rattle.aia_file.specs.declared.spot.Spot.{Spot};
ghost use Rattle.aia_file.specs.Imsic.{IsThere, file_at, with_file};
ghost use Rattle.aia_entry.specs.Tables.{table_of, route_of};
ghost use Rattle.aia_vcpu.specs.declared.place.GuestPlace.{GuestPlace};
ghost use Rattle.aia_vcpu.specs.declared.rest.Rest.{Rest};
ghost use Rattle.aia_vcpu.specs.Vms.{Vcpu, is_vcpu, is_vcpu_in};
ghost use Rattle.aia_vcpu.specs.Home.{Home, Way, is_moving, holds, left};
ghost use Rattle.aia_vcpu.specs.Home.Home.{InMemory, Resident};
ghost use Rattle.aia_vcpu.specs.Home.Way.{Outward, Inward, Across};
ghost use Rattle.aia_vcpu.specs.Routes.{origin, reach_stepped};
ghost use Rattle.aia_vcpu_places.specs.Holds.{Hand, IsWithin, sees};
ghost use Rattle.aia_vcpu_places.specs.Stores.{AreApart};
ghost use Rattle.aia_fabric_values.specs.declared.at.At.TheVariants.{File};
ghost use Rattle.aia_fabric_values.specs.World.{World, flight_of, stage_of};
ghost use Rattle.aia_fabric_values.specs.Whole.{IsWhole};
ghost use Rattle.aia_fabric_values.specs.Changes.{spot_of, with_fence};
ghost use Rattle.aia_fabric_values.specs.Flights.{Sends, Lands, Fences, with_flight};
ghost use Rattle.aia_fabric_values.specs.SlotAccess.{DoneInSlot};
ghost use Rattle.aia_fabric_values.specs.Stores.{StoresIn, Reaches, ReachesByRecord};
ghost use Rattle.aia_vcpu.specs.Aims.{pass_reaches};
ghost use Rattle.aia_move_values.specs.declared.who.Who.{Who};
ghost use Rattle.aia_move_values.specs.Move.{Moving, mover, width, MoveFits, MakesNext, Goes, Ends};
ghost use Rattle.aia_move_values.specs.PlanState.{PlanState, moving_of, phase_of};
ghost use Rattle.aia_move_values.specs.Plan.{IsInPhase, GoesAiming, begun};
ghost use Rattle.aia_move_values.specs.Targets.{TargetMap, AimsOne, pass_count, pass_in, aims, aim_of};
ghost use Rattle.aia_move_values.specs.Landings.{LandsFirst};
ghost use Rattle.aia_move_values.specs.Knows.{Knows};
ghost use Rattle.aia_move_values.specs.Ways.{led_by_entry, led_by_route, led_by_record, led_by_target, is_its_place, leads_here, KnowsWays, KnowsTargets, KnowsAll, landed_if, landed_flight, landed_before, reach_fetched, is_past_aims, NothingLeadsTo, OldPlaceIsShut, AtItsEnd};

/// Whatever store is made, sent or landed keeps what a plan knows. Where it is led to a place of
/// the move it lands in the interrupt file of its virtual hart; where it is led elsewhere it
/// changes nothing of that. It is led by a route of whoever it is for, or, in flight, as it was
/// sent. One that is sent, or taken out of those in flight, changes nothing of the file. An MSI of
/// a source that is passed to the virtual hart lands in its interrupt file where the pass leads.
pub fn every_store_keeps_what_a_plan_knows()
    ensures device { (w u : World) (map : TargetMap) (plan : PlanState) (reach : Option GuestPlace)
        (file : InterruptFile) (saw : Bool) → IsWhole w → AreApart (moving_of plan).home
        → IsWithin w.n (width w) file → KnowsAll w map plan reach file saw
        → (v addr value : ℕ)
        → Reaches (route_of (table_of w.tables v) addr) w u (addr % PAGE) value
        → KnowsAll u map plan reach
        (landed_if
        (leads_here (moving_of plan) (led_by_route w (route_of (table_of w.tables v) addr)))
        (addr % PAGE) value file) saw }
    ensures peer { (w u : World) (map : TargetMap) (plan : PlanState) (reach : Option GuestPlace)
        (file : InterruptFile) (saw : Bool) → IsWhole w → AreApart (moving_of plan).home
        → IsWithin w.n (width w) file → KnowsAll w map plan reach file saw
        → (g : Vcpu) (value : ℕ) → is_vcpu_in w.vms g ≡ true
        → ReachesByRecord (stage_of w g).in_force w u g value
        → KnowsAll u map plan reach
        (landed_if (leads_here (moving_of plan) (led_by_record w g (stage_of w g).in_force))
        0 value file) saw }
    ensures sent { (w : World) (map : TargetMap) (plan : PlanState) (reach : Option GuestPlace)
        (file : InterruptFile) (saw : Bool) → KnowsAll w map plan reach file saw
        → (u : World) (v addr value : ℕ)
        → Sends (route_of (table_of w.tables v) addr) w u v (addr % PAGE) value
        → KnowsAll u map plan reach file saw }
    ensures landed { (w u : World) (map : TargetMap) (plan : PlanState) (reach : Option GuestPlace)
        (file : InterruptFile) (saw : Bool) → IsWhole w → AreApart (moving_of plan).home
        → IsWithin w.n (width w) file → KnowsAll w map plan reach file saw
        → (v k : ℕ) (landing : Lands w u v k)
        → KnowsAll u map plan reach
        (landed_if (leads_here (moving_of plan) (led_by_entry w landing.store.entry))
        landing.store.offset landing.store.value file) saw }
    ensures forwarded { (w u : World) (map : TargetMap) (plan : PlanState)
        (reach : Option GuestPlace) (file : InterruptFile) (saw : Bool) → IsWhole w
        → AreApart (moving_of plan).home → IsWithin w.n (width w) file
        → KnowsAll w map plan reach file saw → (r : ℕ) → r < pass_count (moving_of plan).who
        → (p : GuestPlace) (offset value : ℕ)
        → pass_reaches r (moving_of plan).home ≡ Some p → StoresIn w u (spot_of p) offset value
        → KnowsAll u map plan reach (landed offset value file) saw }
    ensures relayed { (w u : World) (map : TargetMap) (plan : PlanState)
        (reach : Option GuestPlace) (file : InterruptFile) (saw : Bool) → IsWhole w
        → AreApart (moving_of plan).home → IsWithin w.n (width w) file
        → KnowsAll w map plan reach file saw → (r : ℕ) → r < pass_count (moving_of plan).who
        → (value : ℕ) → pass_reaches r (moving_of plan).home ≡ None
        → ReachesByRecord None w u (mover (moving_of plan)) value
        → KnowsAll u map plan reach (landed 0 value file) saw }
    ensures taken { (w : World) (map : TargetMap) (plan : PlanState) (reach : Option GuestPlace)
        (file : InterruptFile) (saw : Bool) → KnowsAll w map plan reach file saw
        → (u : World) (v k : ℕ) → u ≡ with_flight w v (remove (flight_of w v) k)
        → KnowsAll u map plan reach file saw }
{}

/// An entry that is read again keeps what a plan knows, whosever it is; after that of the plan's
/// own virtual hart stores are led where its words say. So does a fence of whatever entry: all
/// stores in flight of its VM land first, and those that are led to a place of the move land in the
/// interrupt file of its virtual hart, in their order. Of it nothing is changed by what is done
/// about a slot that is another one's, as a file, nor by whatever is done about a file that the
/// move does not hold, be it an access, a claim, a store of the host or a notice.
pub fn whoever_acts_a_plan_knows_it_still()
    ensures refetched { (w : World) (g : Vcpu) (map : TargetMap) (plan : PlanState)
        (reach : Option GuestPlace) (file : InterruptFile) (saw : Bool) → IsWhole w
        → is_vcpu_in w.vms g ≡ true → KnowsAll w map plan reach file saw
        → KnowsAll (with_fence w g.vm g.vcpu) map plan
        (reach_fetched (is_vcpu (mover (moving_of plan)) g) (moving_of plan) reach) file saw }
    ensures fenced { (w u : World) (g : Vcpu) (map : TargetMap) (plan : PlanState)
        (reach : Option GuestPlace) (file : InterruptFile) (saw : Bool) → IsWhole w
        → AreApart (moving_of plan).home → IsWithin w.n (width w) file
        → is_vcpu_in w.vms g ≡ true → KnowsAll w map plan reach file saw
        → Fences w u g.vm g.vcpu
        → KnowsAll u map plan
        (reach_fetched (is_vcpu (mover (moving_of plan)) g) (moving_of plan) reach)
        (landed_flight w (moving_of plan) (flight_of w g.vm) file) saw }
    ensures slot { (w u : World) (map : TargetMap) (plan : PlanState) (reach : Option GuestPlace)
        (file : InterruptFile) (saw : Bool) → KnowsAll w map plan reach file saw
        → (q threshold : ℕ) (deed : InterruptFile → InterruptFile) → q < VCPUS
        → q ≢ (moving_of plan).who.found.slot → DoneInSlot w u q threshold deed
        → KnowsAll u map plan reach file saw }
    ensures file { (w u : World) (map : TargetMap) (plan : PlanState) (reach : Option GuestPlace)
        (file : InterruptFile) (saw : Bool) → KnowsAll w map plan reach file saw
        → (spot : Spot) → IsThere w.imsic spot
        → ((p : GuestPlace) → holds p (moving_of plan).home ≡ true → spot ≢ spot_of p)
        → u ≡ record w {
          imsic = with_file w.imsic spot (file_at u.imsic spot);
          notices = u.notices;
        } → KnowsAll u map plan reach file saw }
{}

/// A step of another plan, of another virtual hart and other guest files, keeps what a plan knows:
/// so it is of each access, the last one too. At a fence of the same VM stores in flight land that
/// are for this one. An aim of a source that is not passed to this one changes none of its targets.
pub fn another_move_keeps_what_a_plan_knows()
    ensures step { (w : World) (map : TargetMap) (plan other : PlanState)
        (reach led : Option GuestPlace) (file theirs : InterruptFile) (saw seen : Bool)
        → IsWhole w → AreApart (moving_of plan).home → AreApart (moving_of other).home
        → IsWithin w.n (width w) file → IsWithin w.n (width w) theirs
        → KnowsAll w map plan reach file saw → Knows w other led theirs seen
        → mover (moving_of other) ≢ mover (moving_of plan)
        → ((p : GuestPlace) → holds p (moving_of plan).home ≡ true
        → holds p (moving_of other).home ≡ false)
        → (landed u : World) (hand : Hand) → LandsFirst w (moving_of other) landed
        → MakesNext landed (moving_of other) u hand
        → KnowsAll u map plan reach (landed_before w (moving_of other) (moving_of plan) file) saw }
    ensures aim { (old new : TargetMap) (m : Moving) (source target : ℕ)
        → AimsOne old source target new
        → ((r : ℕ) → r < pass_count m.who → (pass_in m.who r).source ≢ source)
        → KnowsTargets old m → KnowsTargets new m }
{}

/// The steps of a plan keep what it knows. An access: of the move with that step, once what lands
/// before it has landed. An aim: that source is aimed at the new place. The last one: nothing leads
/// to the place that the move left, and the ways and the targets of the virtual hart at rest are
/// known.
pub fn its_own_steps_keep_what_a_plan_knows()
    ensures goes { (w : World) (map : TargetMap) (plan : PlanState) (reach : Option GuestPlace)
        (file : InterruptFile) (saw : Bool) → IsWhole w → AreApart (moving_of plan).home
        → IsWithin w.n (width w) file → KnowsAll w map plan reach file saw
        → (landed u : World) (later : PlanState) → LandsFirst w (moving_of plan) landed
        → Goes landed (moving_of plan) u (moving_of later) → aims (moving_of plan) ≡ false
        → MoveFits u (moving_of later) → IsInPhase (width u) later
        → KnowsAll u map later (reach_stepped (moving_of plan).home reach)
        (landed_before w (moving_of plan) (moving_of plan) file)
        (saw || sees (width w) (moving_of plan).home
        (landed_before w (moving_of plan) (moving_of plan) file)) }
    ensures aims { (w u : World) (old new : TargetMap) (plan later : PlanState)
        (reach : Option GuestPlace) (file : InterruptFile) (saw : Bool)
        → KnowsAll w old plan reach file saw
        → GoesAiming w (moving_of plan) u (moving_of later) → aims (moving_of plan) ≡ true
        → AimsOne old (aim_of (moving_of plan)).source (aim_of (moving_of plan)).target new
        → MoveFits u (moving_of later) → IsInPhase (width u) later
        → KnowsAll u new later reach file saw }
    ensures ends { (w u : World) (map : TargetMap) (plan : PlanState) (reach : Option GuestPlace)
        (file : InterruptFile) (saw : Bool) (hand : Hand) → IsWhole w
        → AreApart (moving_of plan).home → IsWithin w.n (width w) file
        → KnowsAll w map plan reach file saw → Ends w (moving_of plan) u hand
        → AtItsEnd u map (moving_of plan) hand }
{}

/// A move begins with what is known of its virtual hart at rest, if nothing leads to the guest file
/// in which it arrives.
pub fn a_move_begins_with_what_is_known()
    ensures leave { (w : World) (who : Who) (hand now : Hand) (p : GuestPlace)
        → KnowsWays w (record { who = who; home = Resident p; hand = hand })
        → KnowsWays w (begun who (Outward p) now) }
    ensures arrive { (w : World) (who : Who) (hand now : Hand) (rest : Rest) (to : GuestPlace)
        → NothingLeadsTo w (File (spot_of to))
        → KnowsWays w (record { who = who; home = InMemory rest; hand = hand })
        → KnowsWays w (begun who (Inward to) now) }
    ensures shift { (w : World) (who : Who) (hand now : Hand) (p to : GuestPlace)
        → NothingLeadsTo w (File (spot_of to))
        → KnowsWays w (record { who = who; home = Resident p; hand = hand })
        → KnowsWays w (begun who (Across p to) now) }
    ensures targets { (map : TargetMap) (who : Who) (hand now : Hand) (there : Home) (way : Way)
        → is_moving there ≡ false → origin there ≡ left way
        → KnowsTargets map (record { who = who; home = there; hand = hand })
        → KnowsTargets map (begun who way now) }
{}

/// Once a plan is past its aims, in its phase of the pending set and after, nothing leads to the
/// old place of its move: no route, in force or written, whosever it is, no store in flight, and no
/// target of a source that is passed to its virtual hart. What is passed to another virtual hart
/// leads to no place of the move if that one's targets are known and it holds no file of the move.
pub fn nothing_leads_to_the_old_place()
    ensures shut { (w : World) (map : TargetMap) (plan : PlanState) (reach : Option GuestPlace)
        (file : InterruptFile) (saw : Bool) → IsWhole w → AreApart (moving_of plan).home
        → is_past_aims (phase_of plan) ≡ true → KnowsAll w map plan reach file saw
        → OldPlaceIsShut w map (moving_of plan) }
    ensures others { (w : World) (map : TargetMap) (m other : Moving) → IsWhole w → MoveFits w m
        → MoveFits w other → KnowsTargets map other → mover other ≢ mover m
        → ((p : GuestPlace) → holds p m.home ≡ true → holds p other.home ≡ false)
        → (r : ℕ) → r < pass_count other.who
        → is_its_place m
        (led_by_target other.who.found.slot (map.target (pass_in other.who r).source)) ≡ false }
{}
