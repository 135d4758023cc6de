ghost use Rattle.std.specs.Prelude.{◌≡◌, ℕ, ◌/◌, ◌+◌, ◌<◌, ◌≤◌, false};
ghost use Rattle.aia_word.specs.Sets.{has_bit};
ghost use Rattle.aia_vcpu.specs.declared.access.Access.TheVariants as accesses;
ghost use Rattle.aia_plan.specs.Plan.{IsInside};
ghost use Rattle.aia_plan.specs.Transit.{Transit, stepped};
ghost use Rattle.aia_move_values.specs.Move.{width};
ghost use Rattle.aia_move_values.specs.Touches.{SameMachine};
ghost use Rattle.aia_rehearsal.specs.Rehearsed.{Rehearsed, NotBothSlots, IsOf, from_to};
ghost use Rattle.aia_rehearsal.specs.Steps.{Makes, after, identities_in, number_at, access_made, hand_for, carried_after};
ghost use Rattle.aia_rehearsal.specs.Stands.{StandsFor};

use crate::{Place, Step};
use aia_fabric::Fabric;
use aia_move::{Access, Hand, Who};
use std::marker::Model;

/// A plan that is made step by step on a fabric: it has the two places and who is moved with it,
/// and what is carried from one step to the next.
#[derive(Drop)]
pub struct Rehearsal {
    from: Place,
    to: Place,
    who: Who,
    pending: u64,
    enables: u64,
    delivery: u64,
    threshold: u64,
    seen: bool,
}

impl Model for Rehearsal {
    ghost use Rattle.aia_rehearsal.specs.Rehearsed.{Rehearsed, NotBothSlots};

    ghost Value = { Rehearsed };

    ghost view = { λ r. record {
      passage = record { who = r.who; old = r.from; new = r.to };
      hand = record {
        pending = r.pending;
        enables = r.enables;
        delivery = r.delivery;
        threshold = r.threshold;
        seen = r.seen;
      };
    } };

    ghost invariant = { λ r. NotBothSlots r.from r.to };
}

/// Gives the bits of word `word` of a set that belong to identities: bit 0 of word 0 belongs to
/// none.
fn identities(word: u32, bits: u64) -> u64
    ensures { result ≡ identities_in word bits }
{
    if word == 0 { bits & !1 } else { bits }
}

/// Gives an access of a number of a place; `None`: the place is the slot, which has no numbers.
fn number(place: &Place, access: Access) -> Option<Access>
    ensures { result ≡ number_at place.now access }
{
    match place {
        Place::File(_) => Some(access),
        Place::Slot => None,
    }
}

impl Rehearsal {
    /// Begins: nothing is carried. Not both places are the slot.
    pub fn new(old: Place, new: Place, who: Who) -> Rehearsal
        requires { NotBothSlots old new }
        ensures { result ≡ from_to who old new }
    {
        Rehearsal {
            from: old,
            to: new,
            who,
            pending: 0,
            enables: 0,
            delivery: 0,
            threshold: 0,
            seen: false,
        }
    }

    /// Makes a step of a plan, one access of the fabric: `word` of a step is below the words of the
    /// machine's files, and who is moved and both places are on the fabric.
    ///
    /// `map`, `unmap` and `remap` each write the record of the new place, none of a slot, whatever
    /// their name; `quiet`, `taket`, `putt` and `wake` make their access at a file and none at a
    /// slot. A fence lands the stores in flight of the VM first.
    pub fn step(&mut self, fabric: &mut Fabric, step: Step)
        requires word { IsInside (width fabric.old) step }
        requires of { IsOf fabric.old self.old.passage }
        ensures makes { Makes step self.old fabric.old fabric.new }
        ensures after { self.new ≡ after step self.old fabric.old }
        ensures stands { (z : Transit) → StandsFor fabric.old self.old z
            → StandsFor fabric.new self.new (stepped step z) }
        ensures machine { SameMachine fabric.old fabric.new }
        ensures of { IsOf fabric.new self.new.passage }
    {
        fabric.recall();
        self.make(fabric, step);
    }

    /// Makes the access of a step, where it makes one.
    fn make(&mut self, fabric: &mut Fabric, step: Step)
        requires word { IsInside (width fabric.old) step }
        requires of { IsOf fabric.old self.old.passage }
        ensures makes { Makes step self.old fabric.old fabric.new }
        ensures after { self.new ≡ after step self.old fabric.old }
    {
        fabric.recall();
        if let Some(access) = self.access_made(step) {
            let mut hand = self.hand_for(access);
            let old = self.from.file();
            let new = self.to.file();
            hand.make(fabric, &self.who, old, new, access);
            self.carry(access, hand);
        }
    }

    /// Gives the access of a step; `None`: it makes none.
    fn access_made(&self, step: Step) -> Option<Access>
        ensures { result ≡ access_made step self.now.passage }
    {
        match step {
            Step::Quiet => number(&self.from, Access::TakeDelivery),
            Step::Word1 => Some(Access::WriteNotice),
            Step::Word0 => Some(Access::WriteEntry),
            Step::Fence => Some(Access::Fence),
            Step::Map | Step::Unmap | Step::Remap => Some(Access::Map),
            Step::GFence => Some(Access::GFence),
            Step::TakeP(word) => Some(Access::TakePending(word)),
            Step::PutP(word) => Some(Access::PutPending(word)),
            Step::TakeE(word) => Some(Access::TakeEnables(word)),
            Step::PutE(word) => Some(Access::PutEnables(word)),
            Step::Look(word) => Some(Access::Look(word)),
            Step::TakeT => number(&self.from, Access::TakeThreshold),
            Step::PutT => number(&self.to, Access::PutThreshold),
            Step::Post => Some(Access::Post),
            Step::Wake => number(&self.to, Access::PutDelivery),
        }
    }

    /// Gives what an access has in the hand: the word that it puts, and what else is carried.
    fn hand_for(&self, access: Access) -> Hand
        ensures { result ≡ hand_for access self.now.hand }
    {
        let word = match access {
            Access::PutPending(word) => identities(word, self.pending),
            Access::PutEnables(word) => identities(word, self.enables),
            _ => 0,
        };
        Hand {
            word,
            delivery: self.delivery,
            threshold: self.threshold,
            seen: self.seen,
        }
    }

    /// Carries what an access left in the hand; nothing of a word that it put.
    fn carry(&mut self, access: Access, hand: Hand)
        ensures { self.new ≡ record self.old {
          hand = carried_after access hand self.old.hand;
        } }
    {
        match access {
            Access::TakePending(_) => self.pending = hand.word,
            Access::PutPending(_) => self.pending = 0,
            Access::TakeEnables(_) => self.enables = hand.word,
            Access::PutEnables(_) => self.enables = 0,
            _ => {}
        }
        self.delivery = hand.delivery;
        self.threshold = hand.threshold;
        self.seen = hand.seen;
    }

    /// Gives both places back, the old one first.
    pub fn finish(self) -> (Place, Place)
        ensures old { result.0 ≡ self.passage.old }
        ensures new { result.1 ≡ self.passage.new }
    {
        (self.from, self.to)
    }
}
