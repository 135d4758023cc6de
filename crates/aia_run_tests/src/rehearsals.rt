//! The plans of the core, and plans that lose something, rehearsed with stores between their steps.

ghost use Rattle.std.specs.Prelude.{◌≡◌, ◌<◌, ◌≤◌, ◌⊎◌, IfOk, IfSome};
ghost use Rattle.std.specs.List.{All};
ghost use Rattle.aia_plan.specs.Plan.{IsInside};
ghost use Rattle.aia_move_values.specs.Move.{IsWho, width};
ghost use Rattle.aia_move_values.specs.Touches.{SameMachine};
ghost use Rattle.aia_rehearsal.specs.declared.place.Place.TheVariants as places;
ghost use Rattle.aia_rehearsal.specs.Rehearsed.{IsOf, IsFileThere, NotBothSlots};

use crate::looks::{holds, is_same_in};
use aia_fabric::{At, Fabric};
use aia_file::Spot;
use aia_move::Who;
use aia_pool::{FileLease, Pool};
use aia_regs::{FileReg, Op};
use aia_rehearsal::{Place, Rehearsal, Step};
use arrayvec::ArrayVec;
use std::alloc::{AllocError, Global};
use std::process::Abort;
use std::test::Fail;

/// The core's plans, of files of one word.
const ARRIVE: [Step; 10] = [
    Step::Word0,
    Step::Fence,
    Step::Map,
    Step::GFence,
    Step::TakeP(0),
    Step::PutP(0),
    Step::TakeE(0),
    Step::PutE(0),
    Step::PutT,
    Step::Wake,
];

const SHIFT: [Step; 12] = [
    Step::Quiet,
    Step::Word0,
    Step::Fence,
    Step::Remap,
    Step::GFence,
    Step::TakeP(0),
    Step::PutP(0),
    Step::TakeE(0),
    Step::PutE(0),
    Step::TakeT,
    Step::PutT,
    Step::Wake,
];

const LEAVE: [Step; 13] = [
    Step::Quiet,
    Step::Word1,
    Step::Word0,
    Step::Fence,
    Step::Unmap,
    Step::GFence,
    Step::TakeP(0),
    Step::PutP(0),
    Step::TakeE(0),
    Step::PutE(0),
    Step::Look(0),
    Step::TakeT,
    Step::Post,
];

/// Makes two harts with two guest files each, whose identities are 1 to 63, or to 127, and a VM of
/// two virtual harts.
#[tactic(auto, unfolding(aia_word::specs::Packed::ones))]
fn machine(alloc: Global, greatest: u32) -> Result<Fabric, AllocError>
    requires { (greatest ≡ 63) ⊎ (greatest ≡ 127) }
    ensures places { IfOk result (λ f. (f.imsic.harts ≡ 2) × (f.imsic.guests ≡ 2)) }
    ensures one { greatest ≡ 63 → IfOk result (λ f. width f ≡ 1) }
    ensures two { greatest ≡ 127 → IfOk result (λ f. width f ≡ 2) }
{
    let mut fabric = Fabric::new(alloc, 2, 2, greatest)?;
    fabric.vm(2, 0x8, 1);
    Ok(fabric)
}

/// Finds virtual hart 1.
fn who_is(fabric: &Fabric) -> Option<Who>
    ensures { IfSome result (IsWho fabric.now) }
{
    Some(Who {
        found: fabric.find(0, 1)?,
        passes: ArrayVec::new(),
    })
}

/// Stores a value for it by a device, and the one after the next by another virtual hart.
#[tactic(auto, using(aia_move_values::proofs::WayFrames::stored_machine, aia_move_values::proofs::WayFences::same_then))]
fn stores(fabric: &mut Fabric, value: u32)
    requires { value < 60 }
    ensures { SameMachine fabric.old fabric.new }
{
    if fabric.vms() > 0 {
        fabric.device_store(0, 0x2800_8000, value);
    }
    if let Some(found) = fabric.find(0, 1) {
        fabric.guest_store(found, value + 2);
    }
}

/// Makes the steps of a plan, with stores before the one with a number.
fn rehearse(fabric: &mut Fabric, rehearsal: &mut Rehearsal, plan: &[Step], at: usize, value: u32)
    requires few { value < 60 }
    requires inside { All (IsInside (width fabric.old)) plan.now }
    requires of { IsOf fabric.old rehearsal.old.passage }
    ensures machine { SameMachine fabric.old fabric.new }
    ensures places { rehearsal.new.passage ≡ rehearsal.old.passage }
{
    for k in 0..plan.len() {
        if k == at {
            stores(fabric, value);
        }
        rehearsal.step(fabric, plan[k]);
    }
    if plan.len() <= at {
        stores(fabric, value);
    }
}

/// Moves virtual hart 1 from a place to another one by a plan, with stores before the step with a
/// number, of the value that is given last, and gives both places back.
fn moves(
    rt: &impl Abort,
    fabric: &mut Fabric,
    from: Place,
    to: Place,
    plan: (&[Step], usize, u32),
) -> (Place, Place)
    requires few { plan.2 < 60 }
    requires from { IsFileThere fabric.old from }
    requires to { IsFileThere fabric.old to }
    requires both { NotBothSlots from to }
    requires inside { All (IsInside (width fabric.old)) plan.0.now }
    ensures machine { SameMachine fabric.old fabric.new }
    ensures from { result.0 ≡ from }
    ensures to { result.1 ≡ to }
{
    match who_is(fabric) {
        None => {
            holds(rt, false);
            (from, to)
        }
        Some(who) => {
            let mut rehearsal = Rehearsal::new(from, to, who);
            rehearse(fabric, &mut rehearsal, plan.0, plan.1, plan.2);
            rehearsal.finish()
        }
    }
}

/// Ends the test where a file, that in whose page an address lies, does not show these identities
/// as pending and as enabled.
fn file_shows(rt: &impl Abort, fabric: &mut Fabric, addr: u64, want: (u64, u64), case: usize)
    ensures { SameMachine fabric.old fabric.new }
{
    let spot = fabric.locate(addr);
    if spot == Spot::Nowhere {
        holds(rt, false);
    } else {
        let pending = fabric.reg(spot, FileReg::Pending(0), Op::Read);
        let enabled = fabric.reg(spot, FileReg::Enable(0), Op::Read);
        is_same_in(rt, (pending, enabled), want, case);
    }
}

/// Makes 3 pending, and 3 and 5 enabled, in the slot.
fn fill(fabric: &mut Fabric)
    requires { width fabric.old ≡ 1 }
    ensures { SameMachine fabric.old fabric.new }
{
    fabric.or_pending(At::Slot(1), 0, 0x8);
    let _was = fabric.swap_enable(At::Slot(1), 0, 0x28);
}

/// Takes two guest files of hart 1.
fn two_files(alloc: Global) -> Result<(FileLease, FileLease), Fail>
    ensures { IfOk result (λ f. (f.0.hart < 2) × (1 ≤ f.0.file) × (f.0.file ≤ 2)
        × (f.1.hart < 2) × (1 ≤ f.1.file) × (f.1.file ≤ 2)) }
{
    let mut pool = Pool::new(alloc, 2, 2)?;
    let Some(first) = pool.take(1) else {
        return Err(Fail::new("no guest file is free"));
    };
    let Some(second) = pool.take(1) else {
        return Err(Fail::new("no second guest file is free"));
    };
    Ok((first, second))
}

/// Fills the slot, moves virtual hart 1 from it to a file by a plan that arrives, with stores
/// before the step with a number, of the value that is given last, and gives both places back.
fn arrives(
    rt: &impl Abort,
    fabric: &mut Fabric,
    file: FileLease,
    plan: (&[Step], usize, u32),
) -> (Place, Place)
    requires few { plan.2 < 60 }
    requires width { width fabric.old ≡ 1 }
    requires file { IsFileThere fabric.old (places.File file) }
    requires inside { All (IsInside (width fabric.old)) plan.0.now }
    ensures machine { SameMachine fabric.old fabric.new }
    ensures slot { result.0 ≡ places.Slot }
    ensures file { result.1 ≡ places.File file }
{
    fill(fabric);
    moves(rt, fabric, Place::Slot, Place::File(file), plan)
}

/// An arrival, then a shift, then a leave, each with stores before its step of a number: all that
/// was pending or asked for is pending at the end of each, and both enables are there.
fn goes_round(rt: &impl Abort, files: (FileLease, FileLease), fabric: &mut Fabric, at: usize)
    requires first { IsFileThere fabric.old (places.File files.0) }
    requires second { IsFileThere fabric.old (places.File files.1) }
    requires width { width fabric.old ≡ 1 }
{
    let (slot, first) = arrives(rt, fabric, files.0, (&ARRIVE, at, 5));
    file_shows(rt, fabric, 0x2802_1000, (0xa8, 0x28), at);
    is_same_in(rt, fabric.look(1, 0), (0, 0), at);
    let (first, second) = moves(rt, fabric, first, Place::File(files.1), (&SHIFT, at, 9));
    file_shows(rt, fabric, 0x2802_1000, (0, 0), at);
    file_shows(rt, fabric, 0x2802_2000, (0xaa8, 0x28), at);
    drop(first);
    let (second, slot) = moves(rt, fabric, second, slot, (&LEAVE, at, 13));
    file_shows(rt, fabric, 0x2802_2000, (0, 0), at);
    is_same_in(rt, fabric.look(1, 0), (0xaaa8, 0x28), at);
    drop(second);
    drop(slot);
}

#[test]
fn the_plans_of_the_core_keep_all(rt: HostRuntime) -> Result<(), Fail> {
    for at in 0..14 {
        goes_round(
            &rt,
            two_files(rt.alloc())?,
            &mut machine(rt.alloc(), 63)?,
            at,
        );
    }
    Ok(())
}

/// The fence of the IOMMU comes when the pending word was taken.
const LATE_FENCE: [Step; 13] = [
    Step::Quiet,
    Step::Word1,
    Step::Word0,
    Step::Unmap,
    Step::GFence,
    Step::TakeP(0),
    Step::PutP(0),
    Step::Fence,
    Step::TakeE(0),
    Step::PutE(0),
    Step::Look(0),
    Step::TakeT,
    Step::Post,
];

/// The G fence does.
const LATE_G_FENCE: [Step; 12] = [
    Step::Quiet,
    Step::Word0,
    Step::Fence,
    Step::Remap,
    Step::TakeP(0),
    Step::PutP(0),
    Step::GFence,
    Step::TakeE(0),
    Step::PutE(0),
    Step::TakeT,
    Step::PutT,
    Step::Wake,
];

/// The enables are moved twice.
const ENABLES_TWICE: [Step; 12] = [
    Step::Word0,
    Step::Fence,
    Step::Map,
    Step::GFence,
    Step::TakeP(0),
    Step::PutP(0),
    Step::TakeE(0),
    Step::PutE(0),
    Step::TakeE(0),
    Step::PutE(0),
    Step::PutT,
    Step::Wake,
];

/// The fence of the IOMMU comes before the entry is written.
const FENCE_FIRST: [Step; 10] = [
    Step::Fence,
    Step::Word0,
    Step::Map,
    Step::GFence,
    Step::TakeP(0),
    Step::PutP(0),
    Step::TakeE(0),
    Step::PutE(0),
    Step::PutT,
    Step::Wake,
];

/// No entry is written.
const NO_ENTRY: [Step; 11] = [
    Step::Quiet,
    Step::Word1,
    Step::Unmap,
    Step::GFence,
    Step::TakeP(0),
    Step::PutP(0),
    Step::TakeE(0),
    Step::PutE(0),
    Step::Look(0),
    Step::TakeT,
    Step::Post,
];

/// It is not said where notices go.
const NO_NOTICE: [Step; 12] = [
    Step::Quiet,
    Step::Word0,
    Step::Fence,
    Step::Unmap,
    Step::GFence,
    Step::TakeP(0),
    Step::PutP(0),
    Step::TakeE(0),
    Step::PutE(0),
    Step::Look(0),
    Step::TakeT,
    Step::Post,
];

/// Both pending words are taken before either is put.
const TWO_IN_HAND: [Step; 16] = [
    Step::Quiet,
    Step::Word0,
    Step::Fence,
    Step::Remap,
    Step::GFence,
    Step::TakeP(0),
    Step::TakeP(1),
    Step::PutP(0),
    Step::PutP(1),
    Step::TakeE(0),
    Step::PutE(0),
    Step::TakeE(1),
    Step::PutE(1),
    Step::TakeT,
    Step::PutT,
    Step::Wake,
];

/// What two refused plans lose: the enables; and 9, which a device stores before the late fence.
fn loses(rt: &impl Abort, files: (FileLease, FileLease), fabric: &mut Fabric)
    requires first { IsFileThere fabric.old (places.File files.0) }
    requires second { IsFileThere fabric.old (places.File files.1) }
    requires width { width fabric.old ≡ 1 }
{
    let (slot, first) = arrives(rt, fabric, files.0, (&ENABLES_TWICE, 0, 5));
    file_shows(rt, fabric, 0x2802_1000, (0xa8, 0), 0);
    let (first, slot) = moves(rt, fabric, first, slot, (&LATE_FENCE, 7, 9));
    file_shows(rt, fabric, 0x2802_1000, (0x200, 0), 7);
    is_same_in(rt, fabric.look(1, 0), (0x8a8, 0), 7);
    drop(first);
    let (slot, second) = moves(rt, fabric, slot, Place::File(files.1), (&ARRIVE, 20, 5));
    drop(slot);
    file_shows(rt, fabric, 0x2802_2000, (0x8a8, 0), 20);
    drop(second);
}

/// What a third one loses: 11, which another virtual hart stores before the late G fence.
fn loses_a_peer(rt: &impl Abort, files: (FileLease, FileLease), fabric: &mut Fabric)
    requires first { IsFileThere fabric.old (places.File files.0) }
    requires second { IsFileThere fabric.old (places.File files.1) }
    requires width { width fabric.old ≡ 1 }
{
    let (slot, first) = arrives(rt, fabric, files.0, (&ARRIVE, 0, 5));
    drop(slot);
    let (first, second) = moves(
        rt,
        fabric,
        first,
        Place::File(files.1),
        (&LATE_G_FENCE, 6, 9),
    );
    file_shows(rt, fabric, 0x2802_1000, (0x800, 0), 6);
    file_shows(rt, fabric, 0x2802_2000, (0x2a8, 0x28), 6);
    drop(first);
    drop(second);
}

#[test]
fn refused_plans_lose_what_they_are_said_to(rt: HostRuntime) -> Result<(), Fail> {
    let files = two_files(rt.alloc())?;
    let mut fabric = machine(rt.alloc(), 63)?;
    loses(&rt, files, &mut fabric);
    drop(fabric);
    Ok(())
}

#[test]
fn a_refused_plan_loses_what_a_peer_stores(rt: HostRuntime) -> Result<(), Fail> {
    let files = two_files(rt.alloc())?;
    let mut fabric = machine(rt.alloc(), 63)?;
    loses_a_peer(&rt, files, &mut fabric);
    drop(fabric);
    Ok(())
}

/// An arrival whose fence comes first, with stores once the word was taken: 5, which a device
/// stores, stays in the slot. Then a leave that writes no entry: 9 stays in the file.
fn loses_by_the_entry(rt: &impl Abort, files: (FileLease, FileLease), fabric: &mut Fabric)
    requires first { IsFileThere fabric.old (places.File files.0) }
    requires second { IsFileThere fabric.old (places.File files.1) }
    requires width { width fabric.old ≡ 1 }
{
    let (slot, first) = arrives(rt, fabric, files.0, (&FENCE_FIRST, 5, 5));
    file_shows(rt, fabric, 0x2802_1000, (0x88, 0x28), 5);
    is_same_in(rt, fabric.look(1, 0), (0x20, 0), 5);
    drop(first);
    // All of it again, in order, to the other file.
    let (slot, second) = moves(rt, fabric, slot, Place::File(files.1), (&ARRIVE, 20, 13));
    file_shows(rt, fabric, 0x2802_2000, (0xa020, 0), 20);
    let (second, slot) = moves(rt, fabric, second, slot, (&NO_ENTRY, 5, 9));
    file_shows(rt, fabric, 0x2802_2000, (0x200, 0), 5);
    is_same_in(rt, fabric.look(1, 0), (0xa820, 0), 5);
    drop(second);
    drop(slot);
}

/// A leave that does not say where notices go loses nothing, wherever stores come.
fn keeps_without_notice(
    rt: &impl Abort,
    files: (FileLease, FileLease),
    fabric: &mut Fabric,
    at: usize,
)
    requires first { IsFileThere fabric.old (places.File files.0) }
    requires width { width fabric.old ≡ 1 }
{
    let (slot, first) = arrives(rt, fabric, files.0, (&ARRIVE, 0, 5));
    let (first, slot) = moves(rt, fabric, first, slot, (&NO_NOTICE, at, 9));
    file_shows(rt, fabric, 0x2802_1000, (0, 0), at);
    is_same_in(rt, fabric.look(1, 0), (0xaa8, 0x28), at);
    drop(first);
    drop(slot);
    drop(files.1);
}

/// A shift with two words in hand, of a file in which 3 and 69 are pending: both are lost, and 5 is
/// pending in the new one, for which nobody asked.
fn loses_in_the_hand(rt: &impl Abort, files: (FileLease, FileLease), fabric: &mut Fabric)
    requires first { IsFileThere fabric.old (places.File files.0) }
    requires second { IsFileThere fabric.old (places.File files.1) }
    requires width { width fabric.old ≡ 2 }
{
    let old = At::File(Spot::GuestFile(files.0.hart(), files.0.file()));
    fabric.or_pending(old, 0, 0x8);
    fabric.or_pending(old, 1, 0x20);
    let (first, second) = moves(
        rt,
        fabric,
        Place::File(files.0),
        Place::File(files.1),
        (&TWO_IN_HAND, 20, 9),
    );
    file_shows(rt, fabric, 0x2802_1000, (0, 0), 20);
    file_shows(rt, fabric, 0x2802_2000, (0xa20, 0), 20);
    drop(first);
    drop(second);
}

#[test]
fn refused_plans_lose_by_the_entry(rt: HostRuntime) -> Result<(), Fail> {
    let files = two_files(rt.alloc())?;
    let mut fabric = machine(rt.alloc(), 63)?;
    loses_by_the_entry(&rt, files, &mut fabric);
    drop(fabric);
    Ok(())
}

#[test]
fn a_refused_plan_loses_in_the_hand(rt: HostRuntime) -> Result<(), Fail> {
    let files = two_files(rt.alloc())?;
    let mut fabric = machine(rt.alloc(), 127)?;
    loses_in_the_hand(&rt, files, &mut fabric);
    drop(fabric);
    Ok(())
}

#[test]
fn a_leave_without_notice_keeps_all(rt: HostRuntime) -> Result<(), Fail> {
    for at in 0..14 {
        keeps_without_notice(
            &rt,
            two_files(rt.alloc())?,
            &mut machine(rt.alloc(), 63)?,
            at,
        );
    }
    Ok(())
}
