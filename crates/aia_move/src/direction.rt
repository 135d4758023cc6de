ghost use Rattle.std.specs.Prelude.{◌≡◌, ℕ, option_map, refl};
ghost use Rattle.std.specs.Borrow.{Bor};
ghost use Rattle.aia_vcpu.specs.declared.place.GuestPlace.{GuestPlace};
ghost use Rattle.aia_vcpu.specs.Home.{Way, Progress, end_at, left, led_to};
ghost use Rattle.aia_vcpu.specs.Home.Home.{OnWay};
ghost use Rattle.aia_vcpu.specs.Home.Way.{Outward, Inward, Across};
ghost use Rattle.aia_vcpu.specs.Phases.{Phase, after_shared};
ghost use Rattle.aia_vcpu.specs.Phases.Phase.{LookPhase, LastPhase};
ghost use Rattle.aia_file.specs.Imsic.{IsThere};
ghost use Rattle.aia_fabric_values.specs.World.{World};
ghost use Rattle.aia_fabric_values.specs.Changes.{spot_of};
ghost use Rattle.aia_move_values.specs.Move.{IsWho, MoveFits};
ghost use Rattle.aia_move_values.specs.Turns.{GivesBack};
ghost use Rattle.aia_move_values.specs.PlanState.{moving_of};
ghost use Rattle.aia_move_values.specs.Plan.{IsInPhase, begun, empty_hand, kept_hand};

use crate::hand::Hand;
use crate::moves::Move;
use crate::phase::{Last, Look};
use crate::plan::{Course, Plan};
use crate::{KeptNumbers, Outcome, Who};
use aia_file::Spot;
use aia_pool::FileLease;
use aia_vcpu::End;

/// A virtual hart that leaves its guest file: its interrupts go to its slot of memory.
pub type Leave<P> = Move<ToMemory, P>;

/// A virtual hart that arrives in a guest file: its interrupts go there from its slot of memory.
pub type Arrive<P> = Move<ToFile, P>;

/// A virtual hart that shifts from one guest file to another: its interrupts go there with it.
pub type Shift<P> = Move<ToOtherFile, P>;

/// The direction of a move: what it leaves, and where it leads.
pub trait Direction: Drop {
    ghost way: { Self → Way };

    ghost after: { Phase };

    /// The phase after `Enable`.
    type After;

    /// Gives the guest file that the move leaves; `None`: it leaves memory.
    fn old_file(&self) -> Option<&FileLease>
        ensures { option_map (λ (lease : Bor GuestPlace). lease.now) result ≡ left (way self.now) };

    /// Gives the guest file to which the move leads; `None`: it leads to memory.
    fn new_file(&self) -> Option<&FileLease>
        ensures { option_map (λ (lease : Bor GuestPlace). lease.now) result
            ≡ led_to (way self.now) };

    /// Gives back the files, and what is kept of one that was left for memory.
    fn end(self, hand: Hand) -> Outcome
        ensures { (at : Progress) → GivesBack result (OnWay (way self) at) hand };

    ghost follows: { (k : Self) (at : Progress) → after ≡ after_shared (OnWay (way k) at) };
}

/// From a guest file to memory: a leave.
#[derive(Drop)]
pub struct ToMemory {
    /// The guest file that is left.
    pub(crate) file: FileLease,
}

impl Direction for ToMemory {
    ghost way = { λ k. Outward k.file };

    ghost after = { LookPhase };

    type After = Look;

    fn old_file(&self) -> Option<&FileLease> {
        Some(&self.file)
    }

    fn new_file(&self) -> Option<&FileLease> {
        None
    }

    fn end(self, hand: Hand) -> Outcome {
        Outcome::Left(
            self.file,
            KeptNumbers {
                delivery: hand.delivery,
                threshold: hand.threshold,
            },
        )
    }

    ghost follows = { λ k at. refl };
}

/// From memory to a guest file: an arrival.
#[derive(Drop)]
pub struct ToFile {
    /// The guest file to which it leads.
    pub(crate) file: FileLease,
}

impl Direction for ToFile {
    ghost way = { λ k. Inward k.file };

    ghost after = { LastPhase };

    type After = Last;

    fn old_file(&self) -> Option<&FileLease> {
        None
    }

    fn new_file(&self) -> Option<&FileLease> {
        Some(&self.file)
    }

    fn end(self, _hand: Hand) -> Outcome {
        Outcome::Arrived(self.file)
    }

    ghost follows = { λ k at. refl };
}

/// From one guest file to another: a shift.
#[derive(Drop)]
pub struct ToOtherFile {
    /// The guest file that is left.
    pub(crate) from: FileLease,
    /// The guest file to which it leads.
    pub(crate) to: FileLease,
}

impl Direction for ToOtherFile {
    ghost way = { λ k. Across k.from k.to };

    ghost after = { LastPhase };

    type After = Last;

    fn old_file(&self) -> Option<&FileLease> {
        Some(&self.from)
    }

    fn new_file(&self) -> Option<&FileLease> {
        Some(&self.to)
    }

    fn end(self, _hand: Hand) -> Outcome {
        Outcome::Shifted(self.from, self.to)
    }

    ghost follows = { λ k at. refl };
}

#[tactic(auto, using(aia_move_values::proofs::WhoLemmas::begins_fit))]
impl Plan {
    /// Begins to move a virtual hart from a guest file to memory. Its steps can be made where the
    /// virtual hart and the file are there.
    pub fn leave(file: FileLease, who: Who) -> Plan
        ensures begins { moving_of result ≡ begun who (Outward file) empty_hand }
        ensures phase { (words : ℕ) → IsInPhase words result }
        ensures fits { (w : World) → IsWho w who → IsThere w.imsic (spot_of file)
            → MoveFits w (moving_of result) }
    {
        let direction = ToMemory { file };
        Plan::begin(Course::Leave(Move::new(direction, who, Hand::default())))
    }

    /// Begins to move a virtual hart from memory to a guest file, with the numbers that were kept.
    /// Its steps can be made where the virtual hart and the file are there.
    pub fn arrive(file: FileLease, who: Who, kept: KeptNumbers) -> Plan
        ensures begins { moving_of result ≡ begun who (Inward file) (kept_hand kept) }
        ensures phase { (words : ℕ) → IsInPhase words result }
        ensures fits { (w : World) → IsWho w who → IsThere w.imsic (spot_of file)
            → MoveFits w (moving_of result) }
    {
        Plan::begin(Course::Arrive(Move::new(ToFile { file }, who, Hand::of(kept))))
    }

    /// Begins to move a virtual hart from guest file `old` to guest file `new`. Its steps can be
    /// made where the virtual hart and both files are there.
    pub fn shift(old: FileLease, new: FileLease, who: Who) -> Plan
        ensures begins { moving_of result ≡ begun who (Across old new) empty_hand }
        ensures phase { (words : ℕ) → IsInPhase words result }
        ensures fits { (w : World) → IsWho w who → IsThere w.imsic (spot_of old)
            → IsThere w.imsic (spot_of new) → MoveFits w (moving_of result) }
    {
        let direction = ToOtherFile { from: old, to: new };
        Plan::begin(Course::Shift(Move::new(direction, who, Hand::default())))
    }
}

/// Tells what the end of a move is that has this guest file; `None`: memory.
pub(crate) fn end_of(file: Option<&FileLease>) -> End
    ensures { result ≡ end_at (option_map (λ (lease : Bor GuestPlace). lease.now) file.entry) }
{
    match file {
        Some(_) => End::File,
        None => End::Memory,
    }
}

/// Gives where the guest file of a lease lies.
pub fn spot(file: &FileLease) -> Spot
    ensures { result ≡ spot_of file.now }
{
    Spot::GuestFile(file.hart(), file.file())
}
