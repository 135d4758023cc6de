//! Guest files that are handed out, what the steps of moves do to all that stores reach, and plans,
//! called by themselves.

ghost use Rattle.std.specs.Prelude.{◌≡◌, ◌<◌, false, [], IfSome, refl};
ghost use Rattle.aia_word.specs.Sets.{has_bit};
ghost use Rattle.aia_move_values.specs.Move.{IsWho, MoveFits, width};
ghost use Rattle.aia_move_values.specs.PlanState.{moving_of};
ghost use Rattle.aia_move_values.specs.Plan.{IsInPhase};
ghost use Rattle.std.proofs.Common.{ap};
ghost use Rattle.std.proofs.lemmas.Bool.{false≢true};

use crate::fabric::{pending, stores};
use crate::looks::holds;
use crate::same;
use aia_entry::{Entry, Route};
use aia_fabric::{At, Fabric};
use aia_file::Spot;
use aia_move::{KeptNumbers, Next, Plan, Targets, Who};
use aia_pool::{FileLease, Pool};
use aia_regs::Op;
use aia_regs::limits::{GUEST_FILES, HARTS};
use aia_vcpu::GuestPlace;
use arrayvec::ArrayVec;
use std::alloc::{AllocError, Global};
use std::process::Abort;
use std::test::Fail;

/// Makes two harts with one guest file each, and a VM of two virtual harts.
#[tactic(auto, unfolding(aia_word::specs::Packed::ones))]
pub(crate) fn one_vm(alloc: Global) -> Result<Fabric, AllocError> {
    let mut fabric = Fabric::new(alloc, 2, 1, 63)?;
    fabric.vm(2, 0x8, 1);
    Ok(fabric)
}

#[test]
#[tactic(auto, using(aia_pool::proofs::LeaseLemmas::out_here))]
fn a_file_is_handed_out_and_comes_back(rt: HostRuntime) -> Result<(), Fail> {
    let mut pool = Pool::new(rt.alloc(), 2, 2)?;
    let lease = pool.take(1).expect(&rt, "a file of hart 1 is free");
    same!(rt; lease.place(), GuestPlace { hart: 1, file: 1 });
    same!(rt; (lease.hart(), lease.file()), (1, 1));
    pool.give(lease);
    Ok(())
}

#[test]
fn the_least_file_of_a_hart_is_handed_out_while_one_is_left(rt: HostRuntime) -> Result<(), Fail> {
    let mut pool = Pool::new(rt.alloc(), 2, 2)?;
    same!(rt; taken(&mut pool, 1), Some(GuestPlace { hart: 1, file: 1 }));
    same!(rt; taken(&mut pool, 0), Some(GuestPlace { hart: 0, file: 1 }));
    same!(rt; taken(&mut pool, 1), Some(GuestPlace { hart: 1, file: 2 }));
    same!(rt; taken(&mut pool, 1), None);
    same!(rt; taken(&mut pool, 0), Some(GuestPlace { hart: 0, file: 2 }));
    same!(rt; taken(&mut pool, 0), None);
    Ok(())
}

#[test]
fn the_last_file_of_a_hart_is_handed_out(rt: HostRuntime) -> Result<(), Fail> {
    let mut pool = Pool::new(rt.alloc(), HARTS, GUEST_FILES)?;
    let hart = HARTS - 1;
    take_files(&rt, &mut pool, hart);
    same!(rt; taken(&mut pool, hart), None);
    Ok(())
}

/// Takes all guest files that a hart may have, the least one first.
fn take_files(rt: &impl Abort, pool: &mut Pool, hart: u32)
    requires { hart < pool.old.harts }
    ensures { pool.new.harts ≡ pool.old.harts }
{
    for file in 1..GUEST_FILES + 1 {
        same!(*rt; taken(pool, hart), Some(GuestPlace { hart, file }); file);
    }
}

/// Takes a guest file of a hart, which stays out.
fn taken(pool: &mut Pool, hart: u32) -> Option<GuestPlace>
    requires { hart < pool.old.harts }
    ensures { pool.new.harts ≡ pool.old.harts }
{
    match pool.take(hart) {
        Some(lease) => Some(lease.place()),
        None => None,
    }
}

/// Looks at the words of two places, the slot of a virtual hart and a guest file, as words are
/// taken from one and put into the other.
#[test]
fn words_are_taken_and_put(rt: HostRuntime) -> Result<(), Fail> {
    let mut fabric = one_vm(rt.alloc())?;
    let slot = At::Slot(1);
    same!(rt; fabric.swap_pending(slot, 0, 0x28), 0);
    fabric.or_pending(slot, 0, 0x40);
    same!(rt; fabric.swap_enable(slot, 31, 5), 0);
    same!(rt; fabric.look(1, 0), (0x68, 0));
    same!(rt; fabric.look(1, 31), (0, 5));
    same!(rt; fabric.look(0, 0), (0, 0));
    same!(rt; fabric.swap_enable(slot, 31, 0), 5);
    same!(rt; fabric.swap_pending(slot, 0, 0), 0x68);
    same!(rt; fabric.look(1, 0), (0, 0));
    files_take_words(&rt, &mut fabric);
    drop(fabric);
    Ok(())
}

/// The same of guest file 1 of hart 1.
fn files_take_words(rt: &impl Abort, fabric: &mut Fabric) {
    same!(*rt; swapped(fabric, 6), Some(0));
    joined(fabric, 8);
    same!(*rt; enabled(fabric, 4), Some(0));
    same!(*rt; topei(fabric), Some(0x2_0002));
    same!(*rt; swapped(fabric, 0), Some(14));
}

/// Swaps word 0 of the pending set of that file, where it is there.
fn swapped(fabric: &mut Fabric, v: u64) -> Option<u64>
    requires { has_bit v 0 ≡ false }
{
    let spot = fabric.locate(0x2802_1000);
    if spot == Spot::Nowhere || fabric.words() == 0 {
        return None;
    }
    Some(fabric.swap_pending(At::File(spot), 0, v))
}

/// Joins it with more identities.
fn joined(fabric: &mut Fabric, v: u64)
    requires { has_bit v 0 ≡ false }
{
    let spot = fabric.locate(0x2802_1000);
    if spot != Spot::Nowhere && fabric.words() > 0 {
        fabric.or_pending(At::File(spot), 0, v);
    }
}

/// Swaps word 0 of its enabled set.
fn enabled(fabric: &mut Fabric, v: u64) -> Option<u64>
    requires { has_bit v 0 ≡ false }
{
    let spot = fabric.locate(0x2802_1000);
    if spot == Spot::Nowhere || fabric.words() == 0 {
        return None;
    }
    Some(fabric.swap_enable(At::File(spot), 0, v))
}

/// Tells what its topei register shows.
fn topei(fabric: &Fabric) -> Option<u64> {
    match fabric.locate(0x2802_1000) {
        Spot::Nowhere => None,
        spot => Some(fabric.file(spot).top()),
    }
}

/// Finds a virtual hart, to which no source is passed.
pub(crate) fn who_is(fabric: &Fabric, vm: u32, vcpu: u32) -> Option<Who>
    ensures there { IfSome result (IsWho fabric.now) }
    ensures none_passed { IfSome result (λ who. who.passes.items ≡ []) }
    ensures named { IfSome result (λ who. (who.found.vm ≡ vm) × (who.found.vcpu ≡ vcpu)) }
{
    Some(Who {
        found: fabric.find(u64::from(vm), u64::from(vcpu))?,
        passes: ArrayVec::new(),
    })
}

/// Targets of a machine of so many harts that has no source which is active.
#[derive(Drop)]
pub(crate) struct NoTargets {
    pub(crate) harts: u32,
}

impl Targets for NoTargets {
    ghost map = { λ t. record { harts = t.harts; target = λ s. 0; ready = λ s. false } };

    ghost aimed = { λ old source target new. new ≡ old };

    fn ready(&self, _source: u32) -> bool {
        false
    }

    fn aim(&mut self, _source: u32, _hart: u32, _guest: u32, _identity: u32) {}

    ghost aims_one = { λ old new source target e. record {
      harts = ap (λ t. t.harts) e;
      ready = λ s. refl;
      aimed = λ is. absurd (false≢true is);
      unready = λ is. refl;
      others = λ s other. refl;
    } };
}

/// Makes the next step of a plan of a virtual hart to which no source is passed, and gives the plan
/// where it goes on.
pub(crate) fn steps(plan: Plan, fabric: &mut Fabric) -> Option<Plan>
    requires fits { MoveFits fabric.old (moving_of plan) }
    requires phase { IsInPhase (width fabric.old) plan }
    requires none_passed { (moving_of plan).who.passes.items ≡ [] }
    ensures fits { IfSome result (λ p. MoveFits fabric.new (moving_of p)) }
    ensures phase { IfSome result (λ p. IsInPhase (width fabric.new) p) }
    ensures none_passed { IfSome result (λ p. (moving_of p).who.passes.items ≡ []) }
{
    let mut targets = NoTargets {
        harts: fabric.harts(),
    };
    match plan.step(fabric, &mut targets) {
        Next::Again(plan) => Some(plan),
        Next::Finished(_) => None,
    }
}

/// Makes the next step in the same way, and tells whether the plan goes on.
pub(crate) fn goes_on(plan: Plan, fabric: &mut Fabric) -> bool
    requires fits { MoveFits fabric.old (moving_of plan) }
    requires phase { IsInPhase (width fabric.old) plan }
    requires none_passed { (moving_of plan).who.passes.items ≡ [] }
{
    steps(plan, fabric).is_some()
}

/// Stores go by the entry and by the record in force, whatever is written.
#[test]
fn routes_change_when_they_are_put_in_force(rt: HostRuntime) -> Result<(), Fail> {
    let mut pool = Pool::new(rt.alloc(), 2, 1)?;
    let mut fabric = one_vm(rt.alloc())?;
    same!(rt; fabric.words(), 1);
    let who = who_is(&fabric, 0, 1).expect(&rt, "virtual hart 1 is there");
    same!(rt; (who.found.slot, who.found.notice), (1, 1));
    fabric.put_word(who.found, 0, 0x0a00_8407);
    let in_memory = Route::To(Entry::Mrif(0x8000_0200, 0x28020, 2));
    same!(rt; stores(&mut fabric, 0, 0x2800_8000, 5), Some(in_memory));
    put_in_force(&mut fabric);
    let in_file = Route::To(Entry::Basic(0x28021));
    same!(rt; stores(&mut fabric, 0, 0x2800_8000, 6), Some(in_file));
    same!(rt; pending(&mut fabric, 0x2802_1000, Op::Read), Some(0x40));
    peers_go_by_the_record(&mut fabric, pool.take(1));
    same!(rt; pending(&mut fabric, 0x2802_1000, Op::Read), Some(0x140));
    same!(rt; fabric.look(1, 0), (0xa0, 0));
    drop(fabric);
    Ok(())
}

/// Puts the entry of virtual hart 1 in force.
pub(crate) fn put_in_force(fabric: &mut Fabric) {
    if let Some(found) = fabric.find(0, 1) {
        fabric.fence(found);
    }
}

/// Stores 7 and 8 for virtual hart 1, the one before its record is in force that names a guest
/// file, the other after that.
fn peers_go_by_the_record(fabric: &mut Fabric, to: Option<FileLease>) {
    if let Some(found) = fabric.find(0, 1) {
        fabric.map(found, to.as_ref());
        fabric.guest_store(found, 7);
        fabric.gfence(found);
        fabric.guest_store(found, 8);
    }
}

/// The first step of an arrival writes the entry, and puts nothing in force.
#[test]
fn a_plan_makes_one_access_a_step(rt: HostRuntime) -> Result<(), Fail> {
    let mut pool = Pool::new(rt.alloc(), 2, 1)?;
    let mut fabric = one_vm(rt.alloc())?;
    let who = who_is(&fabric, 0, 1).expect(&rt, "virtual hart 1 is there");
    let to = pool.take(1).expect(&rt, "a file of hart 1 is free");
    holds(&rt, arrives(&mut fabric, who, to));
    let in_memory = Route::To(Entry::Mrif(0x8000_0200, 0x28020, 2));
    same!(rt; stores(&mut fabric, 0, 0x2800_8000, 5), Some(in_memory));
    put_in_force(&mut fabric);
    let in_file = Route::To(Entry::Basic(0x28021));
    same!(rt; stores(&mut fabric, 0, 0x2800_8000, 6), Some(in_file));
    drop(fabric);
    Ok(())
}

/// Writes word 0 of the entry of virtual hart 1, and puts it in force.
fn enter(fabric: &mut Fabric, word: u64) {
    if let Some(found) = fabric.find(0, 1) {
        fabric.put_word(found, 0, word);
        fabric.fence(found);
    }
}

/// The first three steps of a leave take eidelivery and write both words of the entry, and put
/// nothing in force.
#[test]
fn a_leave_writes_the_entry_in_its_third_step(rt: HostRuntime) -> Result<(), Fail> {
    let mut pool = Pool::new(rt.alloc(), 2, 1)?;
    let mut fabric = one_vm(rt.alloc())?;
    enter(&mut fabric, 0x0a00_8407);
    let who = who_is(&fabric, 0, 1).expect(&rt, "virtual hart 1 is there");
    let from = pool.take(1).expect(&rt, "a file of hart 1 is free");
    holds(&rt, leaves(&mut fabric, who, from));
    let in_file = Route::To(Entry::Basic(0x28021));
    same!(rt; stores(&mut fabric, 0, 0x2800_8000, 5), Some(in_file));
    put_in_force(&mut fabric);
    let in_memory = Route::To(Entry::Mrif(0x8000_0200, 0x28020, 2));
    same!(rt; stores(&mut fabric, 0, 0x2800_8000, 6), Some(in_memory));
    drop(fabric);
    Ok(())
}

/// Begins to move a virtual hart from a guest file to memory, and tells whether the move goes on
/// after its third step.
fn leaves(fabric: &mut Fabric, who: Who, from: FileLease) -> bool
    requires who { IsWho fabric.old who }
    requires none_passed { who.passes.items ≡ [] }
{
    if from.hart() >= fabric.harts() || from.file() == 0 || from.file() > fabric.guests() {
        return false;
    }
    let plan = Plan::leave(from, who);
    fabric.recall();
    let Some(plan) = steps(plan, fabric) else {
        return false;
    };
    let Some(plan) = steps(plan, fabric) else {
        return false;
    };
    goes_on(plan, fabric)
}

/// The first two steps of a shift take eidelivery and write the entry, and put nothing in force.
#[test]
fn a_shift_writes_the_entry_in_its_second_step(rt: HostRuntime) -> Result<(), Fail> {
    let mut pool = Pool::new(rt.alloc(), 2, 1)?;
    let mut fabric = one_vm(rt.alloc())?;
    enter(&mut fabric, 0x0a00_0407);
    let who = who_is(&fabric, 0, 1).expect(&rt, "virtual hart 1 is there");
    holds(&rt, shifts(&mut fabric, who, pool.take(0), pool.take(1)));
    let in_old_file = Route::To(Entry::Basic(0x28001));
    same!(rt; stores(&mut fabric, 0, 0x2800_8000, 5), Some(in_old_file));
    put_in_force(&mut fabric);
    let in_new_file = Route::To(Entry::Basic(0x28021));
    same!(rt; stores(&mut fabric, 0, 0x2800_8000, 6), Some(in_new_file));
    drop(fabric);
    Ok(())
}

/// Begins to move a virtual hart from a guest file to another, and tells whether the move goes on
/// after its second step.
fn shifts(fabric: &mut Fabric, who: Who, old: Option<FileLease>, new: Option<FileLease>) -> bool
    requires who { IsWho fabric.old who }
    requires none_passed { who.passes.items ≡ [] }
{
    let (Some(old), Some(new)) = (old, new) else {
        return false;
    };
    if old.hart() >= fabric.harts() || old.file() == 0 || old.file() > fabric.guests() {
        return false;
    }
    if new.hart() >= fabric.harts() || new.file() == 0 || new.file() > fabric.guests() {
        return false;
    }
    let plan = Plan::shift(old, new, who);
    fabric.recall();
    let Some(plan) = steps(plan, fabric) else {
        return false;
    };
    goes_on(plan, fabric)
}

/// Begins to move a virtual hart to a guest file, and tells whether the move goes on after its
/// first step.
fn arrives(fabric: &mut Fabric, who: Who, to: FileLease) -> bool
    requires who { IsWho fabric.old who }
    requires none_passed { who.passes.items ≡ [] }
{
    if to.hart() >= fabric.harts() || to.file() == 0 || to.file() > fabric.guests() {
        return false;
    }
    let kept = KeptNumbers {
        delivery: 1,
        threshold: 9,
    };
    let plan = Plan::arrive(to, who, kept);
    fabric.recall();
    goes_on(plan, fabric)
}
