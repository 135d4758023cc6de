//! What the definitions of this crate mean, as laws: each function does nothing, and its clauses
//! are what was proved.

ghost use Rattle.std.specs.Prelude.{◌≡◌, ℕ, ◌/◌, ◌<◌, ◌≤◌, ◌↔◌, Bool, true, false, ◌&&◌, ◌||◌, Option, Some, ◌≢◌, if◌then◌else◌};
ghost use Rattle.aia_file.specs.InterruptFile.{InterruptFile, SameFile, landed, signals};
ghost use Rattle.aia_regs.specs.Request.{requested};
ghost use Rattle.aia_file.specs.Mrif.{Mrif, stored};
ghost use Rattle.aia_file.specs.declared.stored.Stored.TheVariants.{Notice};
ghost use Rattle.aia_vcpu.specs.declared.place.GuestPlace.{GuestPlace};
ghost use Rattle.aia_vcpu.specs.Home.{Home, at_first, ended, one_more, is_moving, rests_in_memory};
ghost use Rattle.aia_vcpu.specs.Plans.{is_at_last, IsNext, is_made};
ghost use Rattle.aia_vcpu.specs.declared.access.Access.{Access};
ghost use Rattle.aia_vcpu.specs.declared.rest.Rest.{Rest};
ghost use Rattle.aia_vcpu.specs.Home.Home.{InMemory, Resident, OnWay};
ghost use Rattle.aia_vcpu.specs.Home.Way.{Outward, Inward, Across};
ghost use Rattle.aia_vcpu.specs.Routes.{entry_names, peers_reach, reach_stepped, MayLand, is_watched, sends_notice, origin};
ghost use Rattle.aia_vcpu.specs.declared.access.Access.TheVariants.{TakeThreshold};
ghost use Rattle.aia_vcpu.specs.Phases.{has_come};
ghost use Rattle.aia_vcpu.specs.Phases.Phase.{ClosingPhase, DrainPhase, EnablePhase, LookPhase, LastPhase};
ghost use Rattle.aia_vcpu.specs.BySteps.{old_file, delivery_in_own, new_file, is_drained};
ghost use Rattle.aia_entry.specs.Format.{decoded};
ghost use Rattle.aia_vcpu_places.specs.Places.{Places, FilesFit, old_place, new_place, leads_to};
ghost use Rattle.aia_vcpu_places.specs.Holds.{IsWithin, Hand, Holds, HasSets, IsEmpty, sees};
ghost use Rattle.aia_vcpu_places.specs.Steps.{StepMade, places_ended};
ghost use Rattle.aia_vcpu_places.specs.Stores.{places_landed, AreApart};
ghost use Rattle.aia_regs.specs.declared.limits.TheConstants.{HARTS, SLOTS, FILE_WORDS};

use aia_regs::limits::IDENTITIES;

/// Whatever step of a move is made, the places hold the same interrupt file after it, and a look
/// has seen what it was to see; the last step leads to the home of the ended move, and a file that
/// was left is empty.
pub fn a_step_keeps_the_file()
    ensures step { (n words q hart : ℕ) (reach : Option GuestPlace) (access : Access) (there : Home)
        (v : Places) (hand : Hand)
        (u : Places) (now : Hand) (file : InterruptFile) (saw : Bool) → IsWithin n words file
        → v.own.n ≡ n → v.next.n ≡ n → FilesFit there → q < SLOTS → hart < HARTS
        → IsNext words there access → is_at_last words there ≡ false
        → StepMade q hart access there v hand u now → Holds words q hart reach v there hand file saw
        → Holds words q hart (reach_stepped there reach) u (one_more there) now file
        (saw || sees words there file) }
    ensures last { (n words q hart : ℕ) (reach : Option GuestPlace) (access : Access) (there : Home)
        (v : Places) (hand : Hand)
        (u : Places) (now : Hand) (file : InterruptFile) (saw : Bool) → IsWithin n words file
        → IsNext words there access → is_at_last words there ≡ true
        → StepMade q hart access there v hand u now → Holds words q hart reach v there hand file saw
        → Holds words q hart (reach_stepped there reach) (places_ended n there u)
        (ended there) now file false }
    ensures left { (words q hart : ℕ) (reach : Option GuestPlace) (access : Access) (there : Home)
        (v : Places) (hand : Hand)
        (u : Places) (now : Hand) (file : InterruptFile) (saw : Bool) (p : GuestPlace)
        → old_file there ≡ Some p
        → IsNext words there access → is_at_last words there ≡ true
        → StepMade q hart access there v hand u now → Holds words q hart reach v there hand file saw
        → IsEmpty u.own }
    ensures sizes { (n q hart : ℕ) (access : Access) (there : Home) (v : Places) (hand : Hand)
        (u : Places) (now : Hand) → v.own.n ≡ n → v.next.n ≡ n
        → StepMade q hart access there v hand u now → (u.own.n ≡ n) × (u.next.n ≡ n) }
{}

/// A move begins with the file that was held: a leave with nothing seen yet, a shift and an arrival
/// in a file that is empty, an arrival with the numbers that were kept.
pub fn a_move_begins_with_the_same_file()
    ensures leave { (n words q hart : ℕ) (reach : Option GuestPlace) (v : Places) (hand now : Hand)
        (file : InterruptFile) (saw : Bool) (p : GuestPlace) → now.seen ≡ false
        → Holds words q hart reach v (Resident p) hand file saw
        → Holds words q hart reach v (OnWay (Outward p) at_first) now file false }
    ensures shift { (n words q hart : ℕ) (reach : Option GuestPlace) (v : Places) (hand now : Hand)
        (file : InterruptFile) (saw : Bool) (p to : GuestPlace) (u : Places)
        → u ≡ record v { next = u.next } → IsEmpty u.next
        → Holds words q hart reach v (Resident p) hand file saw
        → Holds words q hart reach u (OnWay (Across p to) at_first) now file false }
    ensures arrive { (n words q hart : ℕ) (reach : Option GuestPlace) (v : Places) (hand now : Hand)
        (file : InterruptFile)
        (saw : Bool) (rest : Rest) (to : GuestPlace) (u : Places) → u ≡ record v { own = u.own }
        → IsEmpty u.own → now.delivery ≡ hand.delivery → now.threshold ≡ hand.threshold
        → Holds words q hart reach v (InMemory rest) hand file saw
        → Holds words q hart reach u (OnWay (Inward to) at_first) now file false }
{}

/// A store that goes where its route leads, a device's or that of another virtual hart, at whatever
/// step of a move: the places then hold the file in which it has landed. So does one that lands
/// anywhere it may; and the entry may be read again before its fence at any time.
pub fn a_store_is_held_wherever_it_lands()
    ensures devices { (n words q hart offset value : ℕ) (reach : Option GuestPlace) (v : Places)
        (hand : Hand) (file : InterruptFile) (saw : Bool) → IsWithin n words file
        → words ≤ FILE_WORDS
        → (there : Home) → v.own.n ≡ n → v.next.n ≡ n → AreApart there
        → Holds words q hart reach v there hand file saw
        → Holds words q hart reach (places_landed reach there offset value v) there hand
        (landed offset value file) saw }
    ensures peers { (n words q hart offset value : ℕ) (reach : Option GuestPlace) (v : Places)
        (hand : Hand) (file : InterruptFile) (saw : Bool) → IsWithin n words file
        → words ≤ FILE_WORDS
        → (there : Home) → v.own.n ≡ n → v.next.n ≡ n → AreApart there
        → Holds words q hart reach v there hand file saw
        → Holds words q hart reach (places_landed (peers_reach there) there offset value v)
        there hand
        (landed offset value file) saw }
    ensures anywhere { (n words q hart offset value : ℕ) (reach : Option GuestPlace) (v : Places)
        (hand : Hand) (file : InterruptFile) (saw : Bool) → IsWithin n words file
        → words ≤ FILE_WORDS
        → (there : Home) → v.own.n ≡ n → v.next.n ≡ n → AreApart there
        → (place : Option GuestPlace) → MayLand words there place
        → Holds words q hart reach v there hand file saw
        → Holds words q hart reach (places_landed place there offset value v) there hand
        (landed offset value file) saw }
    ensures fetched { (words q hart : ℕ) (reach : Option GuestPlace) (v : Places) (there : Home)
        (hand : Hand) (file : InterruptFile) (saw : Bool) → FilesFit there → q < SLOTS
        → hart < HARTS
        → Holds words q hart reach v there hand file saw
        → Holds words q hart (entry_names there)
        (record v { in_force = decoded v.word0 v.word1 }) there hand file saw }
    ensures sizes { (n offset value : ℕ) (reach : Option GuestPlace) (there : Home) (v : Places)
        → v.own.n ≡ n → v.next.n ≡ n → ((places_landed reach there offset value v).own.n ≡ n)
        × ((places_landed reach there offset value v).next.n ≡ n) }
{}

/// The slot has the enables of the words that are watched, and no others: so a store to it is due a
/// notice exactly where the host is to be told of the identity that it names.
pub fn the_host_is_told_of_what_is_watched()
    ensures enables { (words q hart : ℕ) (reach : Option GuestPlace) (v : Places) (there : Home)
        (hand : Hand)
        (file : InterruptFile) (saw : Bool) → Holds words q hart reach v there hand file saw
        → (i : ℕ) → i / 64 < words
        → v.slot.enabled i ≡ (is_watched words there (i / 64) && file.enabled i) }
    ensures past { (words q hart : ℕ) (reach : Option GuestPlace) (v : Places) (there : Home)
        (hand : Hand)
        (file : InterruptFile) (saw : Bool) → Holds words q hart reach v there hand file saw
        → (i : ℕ) → words ≤ i / 64 → v.slot.enabled i ≡ false }
    ensures notices { (n words q hart : ℕ) (reach : Option GuestPlace) (v : Places) (there : Home)
        (hand : Hand) (file : InterruptFile) (saw : Bool) → IsWithin n words file
        → words ≤ FILE_WORDS
        → Holds words q hart reach v there hand file saw → (offset value : ℕ)
        → (stored v.slot (requested IDENTITIES offset value) ≡ Notice)
        ↔ (sends_notice words there file.enabled (requested n offset value) ≡ true) }
{}

/// A guest file that a home holds signals as the interrupt file that is held, where eidelivery
/// stands in it: the file of a resident virtual hart, and the old file of a move until eidelivery
/// is taken from it. All others that a move holds signal nothing.
pub fn a_held_file_signals_where_delivery_stands()
    ensures own { (n words q hart : ℕ) (reach : Option GuestPlace) (v : Places) (hand : Hand)
        (file : InterruptFile) (saw : Bool) → IsWithin n words file → v.own.n ≡ n
        → (there : Home) → Holds words q hart reach v there hand file saw
        → signals v.own ≡ (delivery_in_own there && signals file) }
    ensures next { (words q hart : ℕ) (reach : Option GuestPlace) (v : Places) (there : Home)
        (hand : Hand)
        (file : InterruptFile) (saw : Bool) → Holds words q hart reach v there hand file saw
        → signals v.next ≡ false }
    ensures whole { (n words q hart : ℕ) (reach : Option GuestPlace) (v : Places) (hand : Hand)
        (file : InterruptFile) (saw : Bool) → IsWithin n words file → v.own.n ≡ n
        → (there : Home) → Holds words q hart reach v there hand file saw
        → delivery_in_own there ≡ true → SameFile v.own file }
{}

/// The file of a resident virtual hart is the one that is held, and changes as it does; of one
/// whose interrupts rest in memory the slot has both sets.
pub fn the_file_is_held_whole_between_moves()
    ensures resident { (n words q hart : ℕ) (reach : Option GuestPlace) (v : Places) (hand : Hand)
        (file : InterruptFile) (saw : Bool) → IsWithin n words file → v.own.n ≡ n
        → (p : GuestPlace) → Holds words q hart reach v (Resident p) hand file saw
        → SameFile v.own file }
    ensures replaced { (n words q hart : ℕ) (reach : Option GuestPlace) (v : Places)
        (p : GuestPlace) (hand : Hand) (file after : InterruptFile) (saw : Bool)
        → IsWithin n words after → Holds words q hart reach v (Resident p) hand file saw
        → Holds words q hart reach (record v { own = after }) (Resident p) hand after saw }
    ensures memory_pending { (n words q hart : ℕ) (reach : Option GuestPlace) (v : Places)
        (hand : Hand) (file : InterruptFile) (saw : Bool) (there : Home)
        → rests_in_memory there ≡ true → Holds words q hart reach v there hand file saw
        → (i : ℕ) → i / 64 < words → v.slot.pending i ≡ file.pending i }
    ensures memory_enabled { (n words q hart : ℕ) (reach : Option GuestPlace) (v : Places)
        (hand : Hand) (file : InterruptFile) (saw : Bool) (there : Home)
        → rests_in_memory there ≡ true → Holds words q hart reach v there hand file saw
        → IsWithin n words file → (i : ℕ) → v.slot.enabled i ≡ file.enabled i }
{}

/// A virtual hart whose interrupts rest in memory: as it begins to run from there, or ceases to,
/// its places hold what they held. They hold another file once its slot has the sets of that one,
/// and its two numbers are kept beside it; and its slot then has the sets of its file.
pub fn a_file_in_memory_is_held_whether_it_runs_or_not()
    ensures rests { (words q hart : ℕ) (reach : Option GuestPlace) (v : Places) (hand : Hand)
        (file : InterruptFile) (saw : Bool) (rest other : Rest)
        → Holds words q hart reach v (InMemory rest) hand file saw
        → Holds words q hart reach v (InMemory other) hand file saw }
    ensures replaced { (words q hart : ℕ) (reach : Option GuestPlace) (v : Places) (hand : Hand)
        (file : InterruptFile) (saw : Bool) (there : Home) → rests_in_memory there ≡ true
        → (slot : Mrif) (now : Hand) (after : InterruptFile) → HasSets words slot after
        → now.delivery ≡ after.delivery → now.threshold ≡ after.threshold
        → Holds words q hart reach v there hand file saw
        → Holds words q hart reach (record v { slot = slot }) there now after saw }
    ensures slot { (n words q hart : ℕ) (reach : Option GuestPlace) (v : Places) (hand : Hand)
        (file : InterruptFile) (saw : Bool) (there : Home) → rests_in_memory there ≡ true
        → IsWithin n words file → Holds words q hart reach v there hand file saw
        → HasSets words v.slot file }
    ensures kept { (words q hart : ℕ) (reach : Option GuestPlace) (v : Places) (hand : Hand)
        (file : InterruptFile) (saw : Bool) (there : Home) → rests_in_memory there ≡ true
        → Holds words q hart reach v there hand file saw
        → (hand.delivery ≡ file.delivery) × (hand.threshold ≡ file.threshold) }
{}

/// What a phase of a move knows. In Closing and after, the entry in force leads to the new place;
/// in Drain and after, the G-stage record in force too; and the new place is another one than the
/// old. A word of the pending set that was taken from the old place stays empty there. In Enable
/// and after, the new place has the pending set; in the looks and after, it has the enabled set
/// too: in a leave that is the slot. In Last the file that is left is empty but for the threshold,
/// until it is taken.
pub fn a_phase_knows_where_things_stand()
    ensures closing { (words q hart : ℕ) (reach : Option GuestPlace) (v : Places) (there : Home)
        (hand : Hand) (file : InterruptFile) (saw : Bool) → is_moving there ≡ true
        → Holds words q hart reach v there hand file saw → has_come words there ClosingPhase ≡ true
        → v.in_force ≡ leads_to q hart (new_file there) }
    ensures drain { (words q hart : ℕ) (reach : Option GuestPlace) (v : Places) (there : Home)
        (hand : Hand) (file : InterruptFile) (saw : Bool) → is_moving there ≡ true
        → Holds words q hart reach v there hand file saw → has_come words there DrainPhase ≡ true
        → (v.in_force ≡ leads_to q hart (new_file there)) × (v.stage_in_force ≡ new_file there) }
    ensures another { (there : Home) → is_moving there ≡ true → AreApart there
        → new_file there ≢ origin there }
    ensures drained { (words q hart : ℕ) (reach : Option GuestPlace) (v : Places) (there : Home)
        (hand : Hand) (file : InterruptFile) (saw : Bool) → is_moving there ≡ true
        → Holds words q hart reach v there hand file saw → (i : ℕ) → i / 64 < words
        → is_drained words there (i / 64) ≡ true → (old_place v there).pending i ≡ false }
    ensures enable { (words q hart : ℕ) (reach : Option GuestPlace) (v : Places) (there : Home)
        (hand : Hand) (file : InterruptFile) (saw : Bool) → is_moving there ≡ true
        → Holds words q hart reach v there hand file saw → has_come words there EnablePhase ≡ true
        → (i : ℕ) → i / 64 < words → ((old_place v there).pending i ≡ false)
        × ((new_place v there).pending i ≡ file.pending i) }
    ensures looks { (words q hart : ℕ) (reach : Option GuestPlace) (v : Places) (there : Home)
        (hand : Hand) (file : InterruptFile) (saw : Bool) → is_moving there ≡ true
        → Holds words q hart reach v there hand file saw → has_come words there LookPhase ≡ true
        → (i : ℕ) → i / 64 < words → ((old_place v there).enabled i ≡ false)
        × ((new_place v there).enabled i ≡ file.enabled i) }
    ensures last { (words q hart : ℕ) (reach : Option GuestPlace) (v : Places) (there : Home)
        (hand : Hand) (file : InterruptFile) (saw : Bool) (p : GuestPlace) → old_file there ≡ Some p
        → has_come words there LastPhase ≡ true → Holds words q hart reach v there hand file saw
        → IsEmpty (record v.own { threshold = 0 })
        × (v.own.threshold ≡ (if is_made words there TakeThreshold then 0 else file.threshold)) }
{}
