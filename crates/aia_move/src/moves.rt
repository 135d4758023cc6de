ghost use Rattle.std.specs.Prelude.{◌≡◌, ℕ, ◌+◌, ◌<◌, ◌≤◌, nat_lt, true, false, if◌then◌else◌, is_none, ⊤};
ghost use Rattle.aia_vcpu.specs.Plans.{steps_done, is_at_last};
ghost use Rattle.aia_vcpu.specs.Phases.{begins, following};
ghost use Rattle.aia_vcpu.specs.Phases.Phase.{FirstPhase, ClosingPhase, EnablePhase, LookPhase, LastPhase, AllDone};
ghost use Rattle.aia_move_values.specs.Move.{MoveFits, width};
ghost use Rattle.aia_move_values.specs.Targets.{ArePasses, AimsAs, aim_of, next_aim, has_unaimed};
ghost use Rattle.aia_move_values.specs.Accesses.{ExecutesNext};
ghost use Rattle.aia_move_values.specs.Landings.{OnceLanded};
ghost use Rattle.aia_move_values.specs.Turns.{IsIn, IsAtAims, GoesOn, AimsOn, EndsAs, MatchTurn, MatchClosed};
ghost use Rattle.aia_move.specs.PlanViews.{phase_at};
ghost use Rattle.aia_move_values.specs.Plan.{past_phase};
ghost use Rattle.aia_move_values.specs.Plan.{IsInDrain, NextStepIsOf, begun, GoesInPhase, GoesInPlace, next_phase};

use crate::direction::{Direction, end_of};
use crate::hand::Hand;
use crate::phase::{Aim, Closing, Drain, Enable, First, Last, Look, PlanPhase};
use crate::{Closed, Outcome, Targets, Turn, Who};
use aia_fabric::Fabric;
use aia_regs::limits::FIRST_PASS_IDENTITY;
use aia_vcpu::access_at;
use std::marker::{Model, PhantomData};

/// A virtual hart that is moved, in a direction, in one of its phases. A step is one access,
/// or one aim in the phase of aims, and says which phase comes next.
#[derive(Drop)]
pub struct Move<D: Direction, P> {
    /// What it leaves, and where it leads.
    direction: D,
    /// Who is moved.
    who: Who,
    /// How many of its steps are done, those that aim aside.
    done: u32,
    /// How many passed sources are aimed.
    aims: usize,
    /// What it carries.
    hand: Hand,
    phase: PhantomData<P>,
}

impl<D: Direction, P> Model for Move<D, P> {
    ghost use Rattle.aia_vcpu.specs.Home.Home.{OnWay};
    ghost use Rattle.aia_move_values.specs.Move.{Moving};

    ghost Value = { Moving };

    ghost view = { λ l. record {
      who = l.who;
      home = OnWay (D.way l.direction) (record { steps = l.done; aims = l.aims });
      hand = l.hand;
    } };
}

impl<D: Direction> Move<D, First> {
    /// Takes eidelivery of the file that is left, where one is; writes the entry, word 1 first
    /// where the move leads to memory, so that it leads to the new place; and puts it in force,
    /// once all stores in flight of the VM have landed, so that none comes to the old place later.
    /// Why here: the file is silent before anything moves; word 1 says where notices go before word
    /// 0 leads to the slot, and has said so from the VM's making on; and the entry is in force
    /// before the first word is taken, so that no store of a device comes after its word.
    pub fn step(mut self, fabric: &mut Fabric) -> Turn<Self, Move<D, Closing>>
        requires fits { MoveFits fabric.old self }
        requires phase { IsIn FirstPhase (width fabric.old) self }
        ensures goes { OnceLanded fabric.old self (λ landed. MatchTurn result
            (GoesOn landed self fabric.new) (GoesOn landed self fabric.new)) }
        ensures phase { MatchTurn result (IsIn FirstPhase (width fabric.new))
            (IsIn ClosingPhase (width fabric.new)) }
    {
        if self.step_in(PlanPhase::First, fabric) {
            Turn::Stay(self)
        } else {
            Turn::On(self.into_phase())
        }
    }
}

impl<D: Direction> Move<D, Closing> {
    /// Makes the G-stage record name the new file, or nothing where the move leads to memory, and
    /// puts it in force. Why here: both routes are closed before the first word is taken from the
    /// old place, which is the slot in an arrival and else a guest file, so that no store comes
    /// after its word. `Aimed` exactly where no passed source is to be aimed.
    pub fn step(mut self, fabric: &mut Fabric) -> Turn<Self, Closed<Move<D, Aim>, Move<D, Drain>>>
        requires fits { MoveFits fabric.old self }
        requires phase { IsIn ClosingPhase (width fabric.old) self }
        ensures goes { MatchTurn result (GoesOn fabric.old self fabric.new)
            (λ next. MatchClosed next (GoesOn fabric.old self fabric.new)
            (GoesOn fabric.old self fabric.new)) }
        ensures phase { MatchTurn result (IsIn ClosingPhase (width fabric.new))
            (λ next. MatchClosed next IsAtAims (IsInDrain (width fabric.new))) }
    {
        fabric.recall();
        if self.step_in(PlanPhase::Closing, fabric) {
            Turn::Stay(self)
        } else {
            Turn::On(self.closed())
        }
    }
}

impl<D: Direction> Move<D, Aim> {
    /// Aims the next passed source at the new place: the guest file, with the identity that it has
    /// there, or the notice hart, with the identity of the pass. It makes no access. Why here: the
    /// G-stage record leads to the new place, and no word is taken yet, so that no forward comes to
    /// the old place after its word.
    pub fn step<T: Targets>(
        mut self,
        fabric: &Fabric,
        targets: &mut T,
    ) -> Turn<Self, Move<D, Drain>>
        requires fits { MoveFits fabric.now self }
        requires phase { IsAtAims self }
        requires harts { fabric.now.imsic.harts ≡ (T.map targets.old).harts }
        requires passes { ArePasses self.who }
        ensures aims { T.aimed targets.old (aim_of self).source (aim_of self).target targets.new }
        ensures goes { MatchTurn result (AimsOn fabric.now self) (AimsOn fabric.now self) }
        ensures phase { MatchTurn result IsAtAims (IsInDrain (width fabric.now)) }
    {
        fabric.recall();
        self.aim(fabric, targets);
        match self.closed() {
            Closed::Aim(state) => Turn::Stay(state),
            Closed::Aimed(state) => Turn::On(state),
        }
    }
}

impl<D: Direction> Move<D, Drain> {
    /// Takes a word of the pending set from the old place, or puts it in the new one. Why here: no
    /// store reaches the old place any more, so that a word which is taken stays empty.
    pub fn step(mut self, fabric: &mut Fabric) -> Turn<Self, Move<D, Enable>>
        requires fits { MoveFits fabric.old self }
        requires phase { IsInDrain (width fabric.old) self }
        ensures goes { MatchTurn result (GoesOn fabric.old self fabric.new)
            (GoesOn fabric.old self fabric.new) }
        ensures phase { MatchTurn result (IsInDrain (width fabric.new))
            (IsIn EnablePhase (width fabric.new)) }
    {
        if self.step_in(PlanPhase::Drain, fabric) {
            Turn::Stay(self)
        } else {
            Turn::On(self.into_phase())
        }
    }
}

impl<D: Direction> Move<D, Enable> {
    /// Takes a word of the enabled set from the old place, or puts it in the new one. Why here: the
    /// new place has all that was pending before anything in it is enabled; where it is the slot,
    /// in a leave, a store to a word is told to the host from the word's enables on.
    pub fn step(mut self, fabric: &mut Fabric) -> Turn<Self, Move<D, D::After>>
        requires fits { MoveFits fabric.old self }
        requires phase { IsIn EnablePhase (width fabric.old) self }
        ensures goes { MatchTurn result (GoesOn fabric.old self fabric.new)
            (GoesOn fabric.old self fabric.new) }
        ensures phase { MatchTurn result (IsIn EnablePhase (width fabric.new))
            (IsIn D.after (width fabric.new)) }
    {
        fabric.recall();
        if self.step_in(PlanPhase::Enable, fabric) {
            Turn::Stay(self)
        } else {
            Turn::On(self.into_phase())
        }
    }
}

impl<D: Direction> Move<D, Look> {
    /// Looks at a word of both sets of the slot, only in a leave. Why here: each word is watched,
    /// so that a look misses only what the host is told of; it finds what had come before.
    pub fn step(mut self, fabric: &mut Fabric) -> Turn<Self, Move<D, Last>>
        requires fits { MoveFits fabric.old self }
        requires phase { IsIn LookPhase (width fabric.old) self }
        ensures goes { MatchTurn result (GoesOn fabric.old self fabric.new)
            (GoesOn fabric.old self fabric.new) }
        ensures phase { MatchTurn result (IsIn LookPhase (width fabric.new))
            (IsIn LastPhase (width fabric.new)) }
    {
        if self.step_in(PlanPhase::Look, fabric) {
            Turn::Stay(self)
        } else {
            Turn::On(self.into_phase())
        }
    }
}

impl<D: Direction> Move<D, Last> {
    /// Takes eithreshold of the file that is left, where one is. Then puts eithreshold and
    /// eidelivery in the file to which the move leads, or sends the notice where a look saw
    /// something. Why here: the file may signal only once it has both sets and the threshold; and
    /// all looks are done, so that one notice stands for what they saw.
    pub fn step(mut self, fabric: &mut Fabric) -> Turn<Self, Outcome>
        requires fits { MoveFits fabric.old self }
        requires phase { IsIn LastPhase (width fabric.old) self }
        ensures goes { MatchTurn result (GoesOn fabric.old self fabric.new)
            (EndsAs fabric.old self fabric.new) }
        ensures phase { MatchTurn result
            (IsIn LastPhase (width fabric.new)) (λ o. ⊤) }
    {
        fabric.recall();
        if self.stays(fabric, PlanPhase::Last) {
            self.step_in(PlanPhase::Last, fabric);
            Turn::Stay(self)
        } else {
            self.access(fabric);
            Turn::On(self.direction.end(self.hand))
        }
    }
}

/// What the phases share, and with them a plan, whose phase is a value.
impl<D: Direction, P> Move<D, P> {
    /// Begins, with this in the hand: no step is done.
    pub(crate) fn new(direction: D, who: Who, hand: Hand) -> Move<D, P>
        ensures { result ≡ begun who (D.way direction) hand }
    {
        Move {
            direction,
            who,
            done: 0,
            aims: 0,
            hand,
            phase: PhantomData,
        }
    }

    /// Makes the next step, an access that is not the last one of the plan, and tells whether the
    /// one after it belongs to its phase too.
    fn step_in(&mut self, phase: PlanPhase, fabric: &mut Fabric) -> bool
        requires fits { MoveFits fabric.old self.old }
        requires access { is_none (phase_at phase) ≡ false }
        requires phase { NextStepIsOf (phase_at phase) (width fabric.old) self.old }
        requires more { steps_done self.old.home + 1
            < begins (width fabric.old) self.old.home AllDone }
        ensures { GoesInPhase (phase_at phase) result fabric.old self.old fabric.new self.new }
    {
        fabric.recall();
        let stays = self.stays(fabric, phase);
        self.access(fabric);
        self.done += 1;
        stays
    }

    /// Tells whether the next step is not the last one of this phase.
    fn stays(&self, fabric: &Fabric, phase: PlanPhase) -> bool
        requires { steps_done self.now.home < begins (width fabric.now) self.now.home AllDone }
        ensures { result ≡ nat_lt (steps_done self.now.home + 1)
            (begins (width fabric.now) self.now.home (past_phase (phase_at phase))) }
    {
        let words = fabric.words();
        let from = end_of(self.direction.old_file());
        let to = end_of(self.direction.new_file());
        self.done + 1 < phase.end(from, to, words)
    }

    /// Makes the next access of the plan, and counts it not yet.
    fn access(&mut self, fabric: &mut Fabric)
        requires fits { MoveFits fabric.old self.old }
        requires more { steps_done self.old.home < begins (width fabric.old) self.old.home AllDone }
        ensures { ExecutesNext fabric.old self.old fabric.new self.new }
    {
        let words = fabric.words();
        let old = self.direction.old_file();
        let new = self.direction.new_file();
        let access = access_at(end_of(old), end_of(new), words, self.done);
        self.hand.make(fabric, &self.who, old, new, access);
    }

    /// Aims the next passed source at the new place.
    fn aim<T: Targets>(&mut self, fabric: &Fabric, targets: &mut T)
        requires fits { MoveFits fabric.now self.old }
        requires aims { IsAtAims self.old }
        requires harts { fabric.now.imsic.harts ≡ (T.map targets.old).harts }
        requires passes { ArePasses self.old.who }
        ensures aims { T.aimed targets.old (aim_of self.old).source (aim_of self.old).target
            targets.new }
        ensures goes { AimsOn fabric.now self.old self.new }
    {
        fabric.recall();
        let pass = self.who.passes[self.aims];
        match self.direction.new_file() {
            Some(file) => targets.aim(pass.source, file.hart(), file.file(), pass.identity),
            None => {
                let identity = FIRST_PASS_IDENTITY + pass.number;
                targets.aim(pass.source, self.who.found.notice, 0, identity);
            }
        }
        self.aims += 1;
    }

    /// Tells whether a passed source is still to be aimed.
    fn has_unaimed(&self) -> bool
        ensures { result ≡ has_unaimed self.now }
    {
        self.aims < self.who.passes.len()
    }

    /// Comes to another phase, with all that it has; where that is the one after those that all
    /// plans share, as it begins.
    pub(crate) fn into_phase<Q>(self) -> Move<D, Q>
        ensures same { result ≡ self }
        ensures after { (words : ℕ) → 1 ≤ words
            → steps_done self.home ≡ begins words self.home (following EnablePhase)
            → IsIn D.after words result }
    {
        Move {
            direction: self.direction,
            who: self.who,
            done: self.done,
            aims: self.aims,
            hand: self.hand,
            phase: PhantomData,
        }
    }

    /// Goes on to the aims while a passed source is to be aimed, and else past them.
    fn closed(self) -> Closed<Move<D, Aim>, Move<D, Drain>>
        ensures { MatchClosed result (λ t. (t ≡ self) × (has_unaimed t ≡ true))
            (λ t. (t ≡ self) × (has_unaimed t ≡ false)) }
    {
        if self.has_unaimed() {
            Closed::Aim(self.into_phase())
        } else {
            Closed::Aimed(self.into_phase())
        }
    }
}

/// What a plan makes of a move whose phase is a value.
impl<D: Direction> Move<D, ()> {
    /// Makes the next step of the plan where it lies, but the last one, and comes to the next phase
    /// with the last step of its own; tells whether it made one.
    pub(crate) fn go_on<T: Targets>(
        &mut self,
        phase: &mut PlanPhase,
        fabric: &mut Fabric,
        targets: &mut T,
    ) -> bool
        requires fits { MoveFits fabric.old self.old }
        requires phase { NextStepIsOf (phase_at phase.old) (width fabric.old) self.old }
        requires harts { fabric.old.imsic.harts ≡ (T.map targets.old).harts }
        requires passes { ArePasses self.old.who }
        ensures goes { GoesInPlace result fabric.old self.old fabric.new self.new }
        ensures aims { AimsAs T.aimed (next_aim self.old) targets.old targets.new }
        ensures phase { NextStepIsOf (phase_at phase.new) (width fabric.new) self.new }
        ensures still { result ≡ false → phase.new ≡ phase.old }
    {
        fabric.recall();
        if phase.aims() {
            self.aim(fabric, targets);
            *phase = self.next(*phase, false);
            return true;
        }
        let stays = self.stays(fabric, *phase);
        if phase.ends(stays) {
            return false;
        }
        self.access(fabric);
        self.done += 1;
        *phase = self.next(*phase, stays);
        true
    }

    /// Tells in which phase the plan is after a step of this one: in the same, where it stays.
    fn next(&self, phase: PlanPhase, stays: bool) -> PlanPhase
        ensures { phase_at result
            ≡ (if stays then phase_at phase else next_phase self.now (phase_at phase)) }
    {
        match phase {
            _ if stays => phase,
            PlanPhase::First => PlanPhase::Closing,
            PlanPhase::Closing | PlanPhase::Aim if self.has_unaimed() => PlanPhase::Aim,
            PlanPhase::Closing | PlanPhase::Aim => PlanPhase::Drain,
            PlanPhase::Drain => PlanPhase::Enable,
            PlanPhase::Enable if self.direction.new_file().is_none() => PlanPhase::Look,
            PlanPhase::Enable | PlanPhase::Look | PlanPhase::Last => PlanPhase::Last,
        }
    }

    /// Makes the last access of the plan, with which the move ends.
    pub(crate) fn finish(mut self, fabric: &mut Fabric) -> Outcome
        requires fits { MoveFits fabric.old self }
        requires last { is_at_last (width fabric.old) self.home ≡ true }
        ensures { EndsAs fabric.old self fabric.new result }
    {
        fabric.recall();
        self.access(fabric);
        self.direction.end(self.hand)
    }
}
