//! Steps of plans that are made in place, and those of the states of its phases, called by
//! themselves, with a VM of two virtual harts.

ghost use Rattle.std.specs.Prelude.{◌≡◌, [], IfSome};
ghost use Rattle.aia_move_values.specs.Move.{IsWho, MoveFits, width};
ghost use Rattle.aia_move_values.specs.PlanState.{moving_of};
ghost use Rattle.aia_move_values.specs.Plan.{IsInPhase};

use crate::fabric::{pending, stores};
use crate::looks::holds;
use crate::moves::{NoTargets, goes_on, one_vm, who_is};
use crate::same;
use crate::stores_in_flight::{IN_FILE, IN_MEMORY, flying, sends};
use aia_fabric::Fabric;
use aia_file::Spot;
use aia_move::phase::PlanPhase;
use aia_move::{Closed, KeptNumbers, Outcome, Plan, State, Turn, Who};
use aia_pool::{FileLease, Pool};
use aia_regs::{FileReg, Op};
use std::process::Abort;
use std::test::Fail;

/// Makes the entry of virtual hart 1 name guest file 1 of hart 1, without a word on notices, puts
/// it in force, and lets that file signal.
fn reside(fabric: &mut Fabric) {
    if let Some(found) = fabric.find(0, 1) {
        fabric.put_word(found, 0, 0x0a00_8407);
        fabric.put_word(found, 1, 0);
        fabric.fence(found);
    }
    let spot = fabric.locate(0x2802_1000);
    if spot != Spot::Nowhere {
        fabric.reg(spot, FileReg::Delivery, Op::Write(1));
    }
}

/// Tells what eidelivery of that file reads.
fn delivery(fabric: &Fabric) -> Option<u64> {
    match fabric.locate(0x2802_1000) {
        Spot::Nowhere => None,
        spot => Some(fabric.file(spot).read(FileReg::Delivery)),
    }
}

/// Makes the next step in place of a plan of a virtual hart to which no source is passed.
#[tactic(auto, using(crate::proofs::PlanFacts::fits_in_place, crate::proofs::PlanFacts::phase_in_place, crate::proofs::PlanFacts::none_in_place))]
fn is_made_in_place(plan: &mut Plan, fabric: &mut Fabric) -> bool
    requires fits { MoveFits fabric.old (moving_of plan.old) }
    requires phase { IsInPhase (width fabric.old) plan.old }
    requires none_passed { (moving_of plan.old).who.passes.items ≡ [] }
    ensures fits { MoveFits fabric.new (moving_of plan.new) }
    ensures phase { IsInPhase (width fabric.new) plan.new }
    ensures none_passed { (moving_of plan.new).who.passes.items ≡ [] }
{
    let mut targets = NoTargets {
        harts: fabric.harts(),
    };
    plan.step_in_place(fabric, &mut targets)
}

/// Begins to move a virtual hart from that file to memory, and makes three steps in place, of which
/// the first takes eidelivery.
fn leaves_in_place(rt: &impl Abort, fabric: &mut Fabric, who: Who, from: FileLease) -> Option<Plan>
    requires who { IsWho fabric.old who }
    requires none_passed { who.passes.items ≡ [] }
    ensures fits { IfSome result (λ p. MoveFits fabric.new (moving_of p)) }
    ensures phase { IfSome result (λ p. IsInPhase (width fabric.new) p) }
    ensures none_passed { IfSome result (λ p. (moving_of p).who.passes.items ≡ []) }
{
    if from.hart() >= fabric.harts() || from.file() == 0 || from.file() > fabric.guests() {
        return None;
    }
    let mut plan = Plan::leave(from, who);
    fabric.recall();
    same!(*rt; is_made_in_place(&mut plan, fabric), true);
    same!(*rt; delivery(fabric), Some(0));
    same!(*rt; is_made_in_place(&mut plan, fabric), true);
    same!(*rt; is_made_in_place(&mut plan, fabric), true);
    Some(by_its_state(plan, fabric))
}

/// Takes a plan to the state of its phase, and back.
fn by_its_state(plan: Plan, fabric: &Fabric) -> Plan
    requires { IsInPhase (width fabric.now) plan }
    ensures { result ≡ plan }
{
    fabric.recall();
    plan.into_state().into_plan()
}

/// Makes four steps in place.
fn four_are_made(rt: &impl Abort, plan: &mut Plan, fabric: &mut Fabric)
    requires fits { MoveFits fabric.old (moving_of plan.old) }
    requires phase { IsInPhase (width fabric.old) plan.old }
    requires none_passed { (moving_of plan.old).who.passes.items ≡ [] }
    ensures fits { MoveFits fabric.new (moving_of plan.new) }
    ensures phase { IsInPhase (width fabric.new) plan.new }
    ensures none_passed { (moving_of plan.new).who.passes.items ≡ [] }
{
    same!(*rt; is_made_in_place(plan, fabric), true);
    same!(*rt; is_made_in_place(plan, fabric), true);
    same!(*rt; is_made_in_place(plan, fabric), true);
    same!(*rt; is_made_in_place(plan, fabric), true);
}

/// The first three steps of a leave take eidelivery and write both words of the entry; until the
/// fourth, the fence, is made, a store is in flight still. In files of one word eight more are made
/// in place, and the last one, the notice, is not. The plan tells its phase on the way.
#[test]
fn a_leave_is_made_in_place_up_to_its_last_step(rt: HostRuntime) -> Result<(), Fail> {
    let mut pool = Pool::new(rt.alloc(), 2, 1)?;
    let mut fabric = one_vm(rt.alloc())?;
    reside(&mut fabric);
    same!(rt; delivery(&fabric), Some(1));
    same!(rt; sends(&mut fabric, 0, 0x2800_8000, 5), Some(IN_FILE));
    let who = who_is(&fabric, 0, 1).expect(&rt, "virtual hart 1 is there");
    let from = pool.take(1).expect(&rt, "a file of hart 1 is free");
    let mut plan = leaves_in_place(&rt, &mut fabric, who, from).expect(&rt, "the file is there");
    same!(rt; flying(&fabric, 0), Some(1));
    same!(rt; plan.phase(), PlanPhase::First);
    same!(rt; is_made_in_place(&mut plan, &mut fabric), true);
    same!(rt; plan.phase(), PlanPhase::Closing);
    same!(rt; flying(&fabric, 0), Some(0));
    same!(rt; fabric.look(1, 0), (0, 0));
    four_are_made(&rt, &mut plan, &mut fabric);
    same!(rt; fabric.look(1, 0), (0x20, 0));
    same!(rt; plan.phase(), PlanPhase::Enable);
    four_are_made(&rt, &mut plan, &mut fabric);
    same!(rt; plan.phase(), PlanPhase::Last);
    same!(rt; is_made_in_place(&mut plan, &mut fabric), false);
    holds(&rt, !goes_on(plan, &mut fabric));
    same!(rt; pending(&mut fabric, 0x2802_1000, Op::Read), Some(0));
    same!(rt; stores(&mut fabric, 0, 0x2800_8000, 6), Some(IN_MEMORY));
    same!(rt; fabric.look(1, 0), (0x60, 0));
    drop(fabric);
    Ok(())
}

/// Moves a virtual hart to a guest file by the states of the phases of an arrival, in files of one
/// word, and gives the file.
fn arrives_by_phases(fabric: &mut Fabric, who: Who, to: FileLease) -> Option<FileLease>
    requires who { IsWho fabric.old who }
{
    if to.hart() >= fabric.harts() || to.file() == 0 || to.file() > fabric.guests() {
        return None;
    }
    let kept = KeptNumbers {
        delivery: 1,
        threshold: 9,
    };
    let State::ArriveFirst(state) = Plan::arrive(to, who, kept).into_state() else {
        return None;
    };
    fabric.recall();
    let Turn::Stay(state) = state.step(fabric) else {
        return None;
    };
    let Turn::On(state) = state.step(fabric) else {
        return None;
    };
    let Turn::Stay(state) = state.step(fabric) else {
        return None;
    };
    let Turn::On(Closed::Aimed(state)) = state.step(fabric) else {
        return None;
    };
    let Turn::Stay(state) = state.step(fabric) else {
        return None;
    };
    let Turn::On(state) = state.step(fabric) else {
        return None;
    };
    let Turn::Stay(state) = state.step(fabric) else {
        return None;
    };
    let Turn::On(state) = state.step(fabric) else {
        return None;
    };
    let Turn::Stay(state) = state.step(fabric) else {
        return None;
    };
    match state.step(fabric) {
        Turn::On(Outcome::Arrived(file)) => Some(file),
        Turn::On(_) | Turn::Stay(_) => None,
    }
}

/// Each phase of an arrival has two steps in files of one word: a state stays after the first, and
/// goes on to the next phase with the second. What is pending in memory comes along, and so does
/// eidelivery.
#[test]
fn an_arrival_goes_by_its_phases(rt: HostRuntime) -> Result<(), Fail> {
    let mut pool = Pool::new(rt.alloc(), 2, 1)?;
    let mut fabric = one_vm(rt.alloc())?;
    same!(rt; stores(&mut fabric, 0, 0x2800_8000, 6), Some(IN_MEMORY));
    let who = who_is(&fabric, 0, 1).expect(&rt, "virtual hart 1 is there");
    let to = pool.take(1).expect(&rt, "a file of hart 1 is free");
    let there = arrives_by_phases(&mut fabric, who, to).expect(&rt, "it arrives");
    same!(rt; (there.hart(), there.file()), (1, 1));
    same!(rt; pending(&mut fabric, 0x2802_1000, Op::Read), Some(0x40));
    same!(rt; delivery(&fabric), Some(1));
    same!(rt; stores(&mut fabric, 0, 0x2800_8000, 5), Some(IN_FILE));
    drop(fabric);
    Ok(())
}
