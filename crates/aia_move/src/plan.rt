ghost use Rattle.std.specs.Prelude.{◌≡◌, ℕ, true, Some, ⊤};
ghost use Rattle.aia_vcpu.specs.Plans.{is_at_last};
ghost use Rattle.aia_vcpu.specs.Phases.Phase.{FirstPhase};
ghost use Rattle.aia_vcpu_places.specs.Stores.{AreApart};
ghost use Rattle.aia_move_values.specs.Move.{MoveFits, width};
ghost use Rattle.aia_move_values.specs.Targets.{ArePasses, AimsAs, next_aim};
ghost use Rattle.aia_move_values.specs.Turns.{EndsAs, LeavesEmpty};
ghost use Rattle.aia_move_values.specs.PlanState.{moving_of, phase_of};
ghost use Rattle.aia_move.specs.PlanViews.{move_of, phase_at, plan_of};
ghost use Rattle.aia_move_values.specs.Plan.{IsInPhase, MatchNext, StepsTo, StepsInPlace};

use crate::direction::{ToFile, ToMemory, ToOtherFile};
use crate::moves::Move;
use crate::phase::{Aim, Closing, Drain, Enable, First, Last, Look, PlanPhase};
use crate::{Arrive, Leave, Outcome, Shift, Targets};
use aia_fabric::Fabric;
use aia_move_values::Next;
use std::marker::Model;

/// A move under way, in one of its phases.
#[derive(Drop)]
pub struct Plan {
    course: Course,
    phase: PlanPhase,
}

/// A move, by what it leaves and where it leads.
#[derive(Drop)]
pub(crate) enum Course {
    Leave(Move<ToMemory, ()>),
    Arrive(Move<ToFile, ()>),
    Shift(Move<ToOtherFile, ()>),
}

impl Model for Plan {
    ghost use Rattle.aia_move_values.specs.PlanState.{PlanState};
    ghost use Rattle.aia_move.specs.PlanViews.{move_of, phase_at};

    ghost Value = { PlanState };

    ghost view = { λ p. record { moving = move_of p.course; phase = phase_at p.phase } };
}

/// A move under way, as the state of its phase: its type tells which steps can be made.
#[derive(Drop)]
pub enum State {
    LeaveFirst(Leave<First>),
    LeaveClosing(Leave<Closing>),
    LeaveAim(Leave<Aim>),
    LeaveDrain(Leave<Drain>),
    LeaveEnable(Leave<Enable>),
    LeaveLook(Leave<Look>),
    LeaveLast(Leave<Last>),
    ArriveFirst(Arrive<First>),
    ArriveClosing(Arrive<Closing>),
    ArriveAim(Arrive<Aim>),
    ArriveDrain(Arrive<Drain>),
    ArriveEnable(Arrive<Enable>),
    ArriveLast(Arrive<Last>),
    ShiftFirst(Shift<First>),
    ShiftClosing(Shift<Closing>),
    ShiftAim(Shift<Aim>),
    ShiftDrain(Shift<Drain>),
    ShiftEnable(Shift<Enable>),
    ShiftLast(Shift<Last>),
}

impl Plan {
    /// Makes the next step of the plan: its next access, or, after the fence of the G-stage record
    /// and while a passed source is to be aimed, the aim of the next one at the new place, which
    /// leaves the fabric as it is. Before the access of the entry's fence all stores in flight of
    /// the VM land, the oldest first. `Finished` exactly at the last access: the guest file that
    /// the move leaves, where it leaves one, is then empty.
    #[tactic(auto, using(aia_move_values::proofs::PhaseLemmas::finishes))]
    pub fn step<T: Targets>(mut self, fabric: &mut Fabric, targets: &mut T) -> Next<Plan>
        requires fits { MoveFits fabric.old (moving_of self) }
        requires phase { IsInPhase (width fabric.old) self }
        requires harts { fabric.old.imsic.harts ≡ (T.map targets.old).harts }
        requires passes { ArePasses (moving_of self).who }
        ensures goes { StepsTo (next_aim (moving_of self)) fabric.old (moving_of self) fabric.new
            result }
        ensures aims { AimsAs T.aimed (next_aim (moving_of self)) targets.old targets.new }
        ensures fits { MatchNext result (λ p. MoveFits fabric.new (moving_of p)) (λ o. ⊤) }
        ensures phase { MatchNext result (λ p. IsInPhase (width fabric.new) p) (λ o. ⊤) }
        ensures empty { AreApart (moving_of self).home → MatchNext result (λ p. ⊤)
            (λ o. LeavesEmpty fabric.old (moving_of self) fabric.new) }
    {
        if self.step_in_place(fabric, targets) {
            Next::Again(self)
        } else {
            Next::Finished(self.finish(fabric))
        }
    }

    /// Makes the next step of the plan where it lies, unless that is the last one, and tells
    /// whether it made one; where it made none, nothing is changed.
    pub fn step_in_place<T: Targets>(&mut self, fabric: &mut Fabric, targets: &mut T) -> bool
        requires fits { MoveFits fabric.old (moving_of self.old) }
        requires phase { IsInPhase (width fabric.old) self.old }
        requires harts { fabric.old.imsic.harts ≡ (T.map targets.old).harts }
        requires passes { ArePasses (moving_of self.old).who }
        ensures goes { StepsInPlace result fabric.old self.old fabric.new self.new }
        ensures aims { AimsAs T.aimed (next_aim (moving_of self.old)) targets.old targets.new }
    {
        match &mut self.course {
            Course::Leave(course) => course.go_on(&mut self.phase, fabric, targets),
            Course::Arrive(course) => course.go_on(&mut self.phase, fabric, targets),
            Course::Shift(course) => course.go_on(&mut self.phase, fabric, targets),
        }
    }

    /// Makes the last step of the plan, an access. The guest file that the move leaves, where it
    /// leaves one, is then empty.
    #[tactic(auto, using(aia_move_values::proofs::MoveKept::ended_empty))]
    pub fn finish(self, fabric: &mut Fabric) -> Outcome
        requires fits { MoveFits fabric.old (moving_of self) }
        requires last { is_at_last (width fabric.old) (moving_of self).home ≡ true }
        ensures ends { EndsAs fabric.old (moving_of self) fabric.new result }
        ensures empty { AreApart (moving_of self).home
            → LeavesEmpty fabric.old (moving_of self) fabric.new }
    {
        fabric.recall();
        match self.course {
            Course::Leave(course) => course.finish(fabric),
            Course::Arrive(course) => course.finish(fabric),
            Course::Shift(course) => course.finish(fabric),
        }
    }

    /// Tells the phase that the plan is in, and leaves it where it is.
    pub fn phase(&self) -> PlanPhase
        ensures { phase_at result ≡ phase_of self.now }
    {
        self.phase
    }

    /// Gives the move as the state of the phase that it is in. An arrival and a shift have no
    /// looks, and are never in that phase.
    pub fn into_state(self) -> State
        ensures same { moving_of (plan_of result) ≡ moving_of self }
        ensures phase { (words : ℕ) → IsInPhase words self → plan_of result ≡ self }
    {
        match (self.course, self.phase) {
            (Course::Leave(m), PlanPhase::First) => State::LeaveFirst(m.into_phase()),
            (Course::Leave(m), PlanPhase::Closing) => State::LeaveClosing(m.into_phase()),
            (Course::Leave(m), PlanPhase::Aim) => State::LeaveAim(m.into_phase()),
            (Course::Leave(m), PlanPhase::Drain) => State::LeaveDrain(m.into_phase()),
            (Course::Leave(m), PlanPhase::Enable) => State::LeaveEnable(m.into_phase()),
            (Course::Leave(m), PlanPhase::Look) => State::LeaveLook(m.into_phase()),
            (Course::Leave(m), PlanPhase::Last) => State::LeaveLast(m.into_phase()),
            (Course::Arrive(m), PlanPhase::First) => State::ArriveFirst(m.into_phase()),
            (Course::Arrive(m), PlanPhase::Closing) => State::ArriveClosing(m.into_phase()),
            (Course::Arrive(m), PlanPhase::Aim) => State::ArriveAim(m.into_phase()),
            (Course::Arrive(m), PlanPhase::Drain) => State::ArriveDrain(m.into_phase()),
            (Course::Arrive(m), PlanPhase::Enable) => State::ArriveEnable(m.into_phase()),
            (Course::Arrive(m), PlanPhase::Look | PlanPhase::Last) => State::ArriveLast(
                m.into_phase(),
            ),
            (Course::Shift(m), PlanPhase::First) => State::ShiftFirst(m.into_phase()),
            (Course::Shift(m), PlanPhase::Closing) => State::ShiftClosing(m.into_phase()),
            (Course::Shift(m), PlanPhase::Aim) => State::ShiftAim(m.into_phase()),
            (Course::Shift(m), PlanPhase::Drain) => State::ShiftDrain(m.into_phase()),
            (Course::Shift(m), PlanPhase::Enable) => State::ShiftEnable(m.into_phase()),
            (Course::Shift(m), PlanPhase::Look | PlanPhase::Last) => State::ShiftLast(
                m.into_phase(),
            ),
        }
    }

    /// Begins, in the first phase.
    pub(crate) fn begin(course: Course) -> Plan
        ensures { result ≡ record { moving = move_of course; phase = Some FirstPhase } }
    {
        Plan {
            course,
            phase: PlanPhase::First,
        }
    }
}

impl State {
    /// Gives the plan that goes on from this state.
    pub fn into_plan(self) -> Plan
        ensures { result ≡ plan_of self }
    {
        let (course, phase) = match self {
            State::LeaveFirst(m) => (Course::Leave(m.into_phase()), PlanPhase::First),
            State::LeaveClosing(m) => (Course::Leave(m.into_phase()), PlanPhase::Closing),
            State::LeaveAim(m) => (Course::Leave(m.into_phase()), PlanPhase::Aim),
            State::LeaveDrain(m) => (Course::Leave(m.into_phase()), PlanPhase::Drain),
            State::LeaveEnable(m) => (Course::Leave(m.into_phase()), PlanPhase::Enable),
            State::LeaveLook(m) => (Course::Leave(m.into_phase()), PlanPhase::Look),
            State::LeaveLast(m) => (Course::Leave(m.into_phase()), PlanPhase::Last),
            State::ArriveFirst(m) => (Course::Arrive(m.into_phase()), PlanPhase::First),
            State::ArriveClosing(m) => (Course::Arrive(m.into_phase()), PlanPhase::Closing),
            State::ArriveAim(m) => (Course::Arrive(m.into_phase()), PlanPhase::Aim),
            State::ArriveDrain(m) => (Course::Arrive(m.into_phase()), PlanPhase::Drain),
            State::ArriveEnable(m) => (Course::Arrive(m.into_phase()), PlanPhase::Enable),
            State::ArriveLast(m) => (Course::Arrive(m.into_phase()), PlanPhase::Last),
            State::ShiftFirst(m) => (Course::Shift(m.into_phase()), PlanPhase::First),
            State::ShiftClosing(m) => (Course::Shift(m.into_phase()), PlanPhase::Closing),
            State::ShiftAim(m) => (Course::Shift(m.into_phase()), PlanPhase::Aim),
            State::ShiftDrain(m) => (Course::Shift(m.into_phase()), PlanPhase::Drain),
            State::ShiftEnable(m) => (Course::Shift(m.into_phase()), PlanPhase::Enable),
            State::ShiftLast(m) => (Course::Shift(m.into_phase()), PlanPhase::Last),
        };
        Plan { course, phase }
    }
}
