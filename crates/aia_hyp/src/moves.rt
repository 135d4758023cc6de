ghost use Rattle.std.specs.Prelude.{◌≡◌, ◌<◌, ◌≤◌, true, false, length, slice_index_or, slice_set, Option, Some, None, IfSome, IfNone, OnOk};
ghost use Rattle.aia_vcpu.specs.Vms.{vcpu_of, is_vcpu_in};
ghost use Rattle.aia_vcpu.specs.Home.{is_moving};
ghost use Rattle.aia_pool.specs.Leases.{Leases};
ghost use Rattle.aia_model.specs.declared.line.Line.TheVariants.{Step};
ghost use Rattle.aia_model.specs.declared.line.Line.TheVariants as lines;
ghost use Rattle.aia_model.specs.declared.answer.Answer.TheVariants.{Okay};
ghost use Rattle.aia_move_values.specs.PlanState.{PlanState, moving_of};
ghost use Rattle.aia_move_values.specs.Plan.{IsInPhase};
ghost use Rattle.aia_move_values.specs.Move.{MoveFits, width};
ghost use Rattle.aia_move_values.specs.Targets.{ArePasses, AimsAs, next_aim};
ghost use Rattle.aia_model.specs.Event.{History};
ghost use Rattle.aia_model.specs.Event.Event.{Stepped};
ghost use Rattle.aia_model.specs.Aim.{aimed_by};
ghost use Rattle.aia_model.specs.Refusal.{refusal};
ghost use Rattle.aia_hyp_values.specs.Core.{no_kept, no_record, record_of, home_in, has_plan};
ghost use Rattle.aia_hyp_values.specs.Passes.{own_passes, AimsBy};
ghost use Rattle.aia_hyp_values.specs.Stands.{CoreStands, CoreTakes, answer_by, line_served};
ghost use Rattle.aia_hyp_values.specs.Targets.{TargetsStand};
ghost use Rattle.aia_model.specs.Histories.{IsHistory};
ghost use Rattle.aia_fabric_values.specs.Found.{IsFound};
ghost use Rattle.aia_hyp_values.specs.Moves.{UnlessRefused, WholeAims, step_answer, MakesOne, WantBegins, LeaveBegins, ArriveBegins, ShiftBegins, MoveBegins, MoveGoes, StaysInPlace, MoveInPlace, IsAtItsLast, stay_after, back_of, with_back, IsOutThere};

use crate::hypervisor_core::{Core, Records};
use crate::passes::Passes;
use aia_fabric::{Fabric, Found};
use aia_hyp_values::Stay;
use aia_model::{Refusal, Want};
use aia_move::{KeptNumbers, Outcome, Plan, Targets, Who};
use aia_pool::Pool;
use aia_vcpu::Rest;

impl Core {
    /// Moves a virtual hart, by all steps of its plan. `Err` is `Range` where the virtual hart or
    /// the hart isn't there, `Busy` where it is being moved, `Home` where it is to arrive and is
    /// resident, `Entered` where it is to arrive and runs from memory, `Parked` where it is to
    /// leave or shift and its interrupts rest in memory, `NoFile` where no guest file of the hart
    /// is free; nothing is changed then. Its passed sources are aimed at the new place, each by its
    /// step, and the targets of all others stay. Profile.
    pub fn whole<T: Targets>(
        &mut self,
        vm: u64,
        vcpu: u64,
        want: Want,
        targets: &mut T,
    ) -> Result<(), Refusal>
        requires { self.old.world.imsic.harts ≡ (T.map targets.old).harts }
        ensures takes { CoreTakes self.old self.new (lines.Move vm vcpu want)
            (answer_by (λ _. Okay) result) }
        ensures aims { (h : History) → CoreStands self.old h
            → UnlessRefused (refusal h (lines.Move vm vcpu want))
            (WholeAims T.aimed h vm vcpu want targets.old targets.new)
            (targets.new ≡ targets.old) }
        ensures targets { (h : History) → IsHistory h → CoreStands self.old h
            → TargetsStand (T.map targets.old) h → TargetsStand (T.map targets.new)
            (line_served (refusal h (lines.Move vm vcpu want)) h
            (lines.Move vm vcpu want)) }
    {
        let Some(found) = self.fabric.find(vm, vcpu) else {
            return Err(Refusal::Range);
        };
        self.begin_of(found, want)?;
        while !self.step_of(found, targets) {}
        Ok(())
    }

    /// Begins to move a virtual hart, and does no step of the move. `Err` is as of
    /// [`Core::whole`]; nothing is changed then. Profile.
    pub fn begin(&mut self, vm: u64, vcpu: u64, want: Want) -> Result<(), Refusal>
        ensures { CoreTakes self.old self.new (lines.Begin vm vcpu want)
            (answer_by (λ _. Okay) result) }
    {
        let Some(found) = self.fabric.find(vm, vcpu) else {
            return Err(Refusal::Range);
        };
        self.begin_of(found, want)
    }

    /// Does the next step of the move of a virtual hart: one access of its plan, or the aim of one
    /// passed source at the new place; other targets stay. `true` says that it was the last one,
    /// and that the move is at its end. `Err` is `Range` where the virtual hart isn't there, `Idle`
    /// where it is not being moved; nothing is changed then. Profile.
    pub fn step<T: Targets>(&mut self, vm: u64, vcpu: u64, targets: &mut T) -> Result<bool, Refusal>
        requires { self.old.world.imsic.harts ≡ (T.map targets.old).harts }
        ensures takes { CoreTakes self.old self.new (Step vm vcpu)
            (answer_by step_answer result) }
        ensures one { (plan : PlanState)
            → (record_of self.old (vcpu_of vm vcpu)).stay ≡ Stay.Moving plan
            → OnOk result (MakesOne self.old.world (moving_of plan) self.new.world) }
        ensures aims { (h : History) → CoreStands self.old h
            → UnlessRefused (refusal h (Step vm vcpu))
            (AimsBy T.aimed (aimed_by h (Stepped (vcpu_of vm vcpu))) targets.old targets.new)
            (targets.new ≡ targets.old) }
        ensures targets { (h : History) → IsHistory h → CoreStands self.old h
            → TargetsStand (T.map targets.old) h → TargetsStand (T.map targets.new)
            (line_served (refusal h (Step vm vcpu)) h (Step vm vcpu)) }
    {
        let Some(found) = self.fabric.find(vm, vcpu) else {
            return Err(Refusal::Range);
        };
        if !self.is_moved(found) {
            return Err(Refusal::Idle);
        }
        Ok(self.step_of(found, targets))
    }

    /// Tells whether a virtual hart that is there is being moved.
    pub(crate) fn is_moved(&self, found: Found) -> bool
        requires { IsFound self.now.world found }
        ensures { result ≡ has_plan (record_of self.now (vcpu_of found.vm found.vcpu)).stay }
    {
        self.record_of(found).stay.has_plan()
    }

    /// Begins to move a virtual hart that is there, and does no step of the move.
    fn begin_of(&mut self, found: Found, want: Want) -> Result<(), Refusal>
        requires { IsFound self.old.world found }
        ensures begins { MoveBegins self.old self.new found.vm found.vcpu want
            (answer_by (λ _. Okay) result) }
        ensures world { self.new.world ≡ self.old.world }
    {
        let harts = self.fabric.harts();
        let who = who_of(found, &self.passes);
        let old = swap_stay(&mut self.vcpus, found.slot, nowhere());
        let (new, answer) = begun(old, who, want, harts, &mut self.pool);
        swap_stay(&mut self.vcpus, found.slot, new);
        answer
    }

    /// Makes the next step of the move of a virtual hart that is being moved, and tells whether it
    /// was the last one.
    fn step_of<T: Targets>(&mut self, found: Found, targets: &mut T) -> bool
        requires found { IsFound self.old.world found }
        requires moving { is_moving
            (home_in (record_of self.old (vcpu_of found.vm found.vcpu)).stay)
            ≡ true }
        requires harts { self.old.world.imsic.harts ≡ (T.map targets.old).harts }
        ensures goes { MoveGoes self.old self.new (vcpu_of found.vm found.vcpu) result }
        ensures aims { (h : History) → CoreStands self.old h
            → AimsBy T.aimed (aimed_by h (Stepped (vcpu_of found.vm found.vcpu))) targets.old
            targets.new }
        ensures found { IsFound self.new.world found }
        ensures harts { self.new.world.imsic.harts ≡ (T.map targets.new).harts }
    {
        if self.step_in_place(found, targets) {
            return false;
        }
        self.finish_move(found);
        true
    }

    /// Makes such a step in place, in the record of the virtual hart, where it is not the last one
    /// of the move; tells whether it made one.
    fn step_in_place<T: Targets>(&mut self, found: Found, targets: &mut T) -> bool
        requires found { IsFound self.old.world found }
        requires moving { is_moving
            (home_in (record_of self.old (vcpu_of found.vm found.vcpu)).stay)
            ≡ true }
        requires harts { self.old.world.imsic.harts ≡ (T.map targets.old).harts }
        ensures makes { MoveInPlace self.old self.new (vcpu_of found.vm found.vcpu) result }
        ensures aims { (h : History) → CoreStands self.old h
            → AimsBy T.aimed (aimed_by h (Stepped (vcpu_of found.vm found.vcpu))) targets.old
            targets.new }
        ensures found { IsFound self.new.world found }
        ensures harts { self.new.world.imsic.harts ≡ (T.map targets.new).harts }
    {
        self.fabric.recall();
        self.passes.recall_count();
        let made = carry_on(&mut self.vcpus, found.slot, &mut self.fabric, targets);
        self.fabric.recall();
        made
    }

    /// Makes the last step of the move of a virtual hart, and puts it where the move leads.
    fn finish_move(&mut self, found: Found)
        requires found { IsFound self.old.world found }
        requires moving { is_moving
            (home_in (record_of self.old (vcpu_of found.vm found.vcpu)).stay)
            ≡ true }
        requires last { IsAtItsLast self.old (vcpu_of found.vm found.vcpu) }
        ensures goes { MoveGoes self.old self.new (vcpu_of found.vm found.vcpu) true }
        ensures found { IsFound self.new.world found }
        ensures harts { self.new.world.imsic.harts ≡ self.old.world.imsic.harts }
    {
        self.fabric.recall();
        let Stay::Moving(plan) = swap_stay(&mut self.vcpus, found.slot, nowhere()) else {
            unreachable!()
        };
        let outcome = plan.finish(&mut self.fabric);
        self.fabric.recall();
        let new = stay_at_end(outcome, &mut self.pool);
        swap_stay(&mut self.vcpus, found.slot, new);
    }
}

/// Tells who is moved: the virtual hart with the passes to it.
fn who_of(found: Found, passes: &Passes) -> Who
    ensures named { result ≡ record {
      found = found;
      passes = result.passes;
    } }
    ensures passes { result.passes.items ≡ own_passes 0 (vcpu_of found.vm found.vcpu) passes.now }
{
    Who {
        found,
        passes: passes.to(found.vm, found.vcpu),
    }
}

/// Makes what stands in a record while the virtual hart's own is out.
fn nowhere() -> Stay<Plan>
    ensures { result ≡ Stay.InMemory Rest.Parked no_kept }
{
    Stay::InMemory(
        Rest::Parked,
        KeptNumbers {
            delivery: 0,
            threshold: 0,
        },
    )
}

/// Puts a virtual hart elsewhere, in its record, and gives where it was.
fn swap_stay(vcpus: &mut Records, slot: u32, stay: Stay<Plan>) -> Stay<Plan>
    requires { slot < length vcpus.old.items }
    ensures before { result ≡ (slice_index_or vcpus.old.items slot no_record).stay }
    ensures after { vcpus.new.items ≡ slice_set vcpus.old.items slot
        (record (slice_index_or vcpus.old.items slot no_record) { stay = stay }) }
{
    std::mem::replace(&mut vcpus[slot as usize].stay, stay)
}

/// Makes the next step of the move of a virtual hart in its record, where it is not the last one,
/// and tells whether it made one.
fn carry_on<T: Targets>(
    vcpus: &mut Records,
    slot: u32,
    fabric: &mut Fabric,
    targets: &mut T,
) -> bool
    requires low { slot < length vcpus.old.items }
    requires knows { (plan : PlanState)
        → (slice_index_or vcpus.old.items slot no_record).stay ≡ Stay.Moving plan
        → MoveFits fabric.old (moving_of plan) × IsInPhase (width fabric.old) plan }
    requires passes { (plan : PlanState)
        → (slice_index_or vcpus.old.items slot no_record).stay ≡ Stay.Moving plan
        → ArePasses (moving_of plan).who }
    requires harts { fabric.old.imsic.harts ≡ (T.map targets.old).harts }
    ensures makes { StaysInPlace result
        fabric.old (slice_index_or vcpus.old.items slot no_record).stay
        fabric.new (slice_index_or vcpus.new.items slot no_record).stay }
    ensures aims { (plan : PlanState)
        → (slice_index_or vcpus.old.items slot no_record).stay ≡ Stay.Moving plan
        → AimsAs T.aimed (next_aim (moving_of plan)) targets.old targets.new }
    ensures rest { vcpus.new.items ≡ slice_set vcpus.old.items slot
        (record (slice_index_or vcpus.old.items slot no_record) {
          stay = (slice_index_or vcpus.new.items slot no_record).stay;
        }) }
{
    match &mut vcpus[slot as usize].stay {
        Stay::Moving(plan) => plan.step_in_place(fabric, targets),
        Stay::InMemory(..) | Stay::Resident(_) => false,
    }
}

/// Begins the move that is wanted of a virtual hart, and tells where the virtual hart is then.
/// `Err` as of [`Core::whole`]: it is where it was.
fn begun(
    old: Stay<Plan>,
    who: Who,
    want: Want,
    harts: u32,
    pool: &mut Pool,
) -> (Stay<Plan>, Result<(), Refusal>)
    requires { harts ≡ pool.old.harts }
    ensures { WantBegins want who old result.0 pool.old pool.new (answer_by (λ _. Okay) result.1) }
{
    match want {
        Want::Leave => leave(old, who),
        Want::Arrive(hart) if hart < u64::from(harts) => arrive(old, who, hart as u32, pool),
        Want::Shift(hart) if hart < u64::from(harts) => shift(old, who, hart as u32, pool),
        Want::Arrive(_) | Want::Shift(_) => (old, Err(Refusal::Range)),
    }
}

/// Begins a leave of a virtual hart that is resident.
fn leave(old: Stay<Plan>, who: Who) -> (Stay<Plan>, Result<(), Refusal>)
    ensures { (l : Leases) → LeaveBegins who old result.0 l l (answer_by (λ _. Okay) result.1) }
{
    match old {
        Stay::Resident(from) => (Stay::Moving(Plan::leave(from, who)), Ok(())),
        Stay::InMemory(rest, kept) => (Stay::InMemory(rest, kept), Err(Refusal::Parked)),
        Stay::Moving(plan) => (Stay::Moving(plan), Err(Refusal::Busy)),
    }
}

/// Begins an arrival of a virtual hart that is parked, in the least free guest file of a hart.
fn arrive(
    old: Stay<Plan>,
    who: Who,
    hart: u32,
    pool: &mut Pool,
) -> (Stay<Plan>, Result<(), Refusal>)
    requires { hart < pool.old.harts }
    ensures { ArriveBegins who hart old result.0 pool.old pool.new
        (answer_by (λ _. Okay) result.1) }
{
    match old.parked() {
        Ok(kept) => match pool.take(hart) {
            Some(to) => (Stay::Moving(Plan::arrive(to, who, kept)), Ok(())),
            None => (old, Err(Refusal::NoFile)),
        },
        Err(word) => (old, Err(word)),
    }
}

/// Begins a shift of a virtual hart that is resident, to the least free guest file of a hart.
fn shift(old: Stay<Plan>, who: Who, hart: u32, pool: &mut Pool) -> (Stay<Plan>, Result<(), Refusal>)
    requires { hart < pool.old.harts }
    ensures { ShiftBegins who hart old result.0 pool.old pool.new
        (answer_by (λ _. Okay) result.1) }
{
    match old {
        Stay::Resident(from) => match pool.take(hart) {
            Some(to) => (Stay::Moving(Plan::shift(from, to, who)), Ok(())),
            None => (Stay::Resident(from), Err(Refusal::NoFile)),
        },
        Stay::InMemory(rest, kept) => (Stay::InMemory(rest, kept), Err(Refusal::Parked)),
        Stay::Moving(plan) => (Stay::Moving(plan), Err(Refusal::Busy)),
    }
}

/// Tells where a virtual hart is at the end of its move; the guest file that it left comes back.
fn stay_at_end(outcome: Outcome, pool: &mut Pool) -> Stay<Plan>
    requires { IsOutThere pool.old (back_of outcome) }
    ensures stay { result ≡ stay_after outcome }
    ensures back { pool.new ≡ with_back (back_of outcome) pool.old }
{
    match outcome {
        Outcome::Left(from, kept) => {
            pool.give(from);
            Stay::InMemory(Rest::Parked, kept)
        }
        Outcome::Arrived(to) => Stay::Resident(to),
        Outcome::Shifted(from, to) => {
            pool.give(from);
            Stay::Resident(to)
        }
    }
}
