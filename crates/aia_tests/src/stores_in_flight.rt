//! Stores of devices that are in flight, called by themselves, with a VM of two virtual harts.

ghost use Rattle.std.specs.Prelude.{◌≡◌, false, []};
ghost use Rattle.aia_word.specs.Sets.{has_bit};
ghost use Rattle.aia_move_values.specs.Move.{IsWho};

use crate::fabric::{pending, stores};
use crate::looks::holds;
use crate::moves::{goes_on, one_vm, put_in_force, steps, who_is};
use crate::same;
use aia_entry::{Entry, Route};
use aia_fabric::{At, Fabric};
use aia_move::{KeptNumbers, Plan, Who};
use aia_pool::{FileLease, Pool};
use aia_regs::Op;
use aia_regs::limits::STORES_IN_FLIGHT;
use std::test::Fail;

/// The slot of virtual hart 1, and guest file 1 of hart 1, as entries name them.
pub(crate) const IN_MEMORY: Route = Route::To(Entry::Mrif(0x8000_0200, 0x28020, 2));

pub(crate) const IN_FILE: Route = Route::To(Entry::Basic(0x28021));

/// Tells how many stores of a VM are in flight, where it stands.
pub(crate) fn flying(fabric: &Fabric, vm: u32) -> Option<usize> {
    if vm >= fabric.vms() {
        return None;
    }
    Some(fabric.flying(vm))
}

/// Sends a store of a device, where the VM stands and there is room for it.
pub(crate) fn sends(fabric: &mut Fabric, vm: u32, addr: u64, value: u32) -> Option<Route> {
    if vm >= fabric.vms() || fabric.flying(vm) >= STORES_IN_FLIGHT {
        return None;
    }
    Some(fabric.send(vm, addr, value))
}

/// Lands a store in flight, and tells whether there is one.
fn lands(fabric: &mut Fabric, vm: u32, k: usize) -> bool {
    if vm >= fabric.vms() || k >= fabric.flying(vm) {
        return false;
    }
    fabric.land(vm, k);
    true
}

/// Writes word 0 of the entry of virtual hart 1: it names guest file 1 of hart 1.
fn name_the_file(fabric: &mut Fabric) {
    if let Some(found) = fabric.find(0, 1) {
        fabric.put_word(found, 0, 0x0a00_8407);
    }
}

/// Reads the entry of a virtual hart again, where it is there.
fn read_again(fabric: &mut Fabric, vcpu: u32) {
    if let Some(found) = fabric.find(0, u64::from(vcpu)) {
        fabric.refetch(found);
    }
}

/// Enables identities at the slot of virtual hart 1.
fn enable(fabric: &mut Fabric, word: u64)
    requires { has_bit word 0 ≡ false }
{
    fabric.swap_enable(At::Slot(1), 0, word);
}

#[test]
fn a_store_lands_where_the_entry_led_as_it_was_sent(rt: HostRuntime) -> Result<(), Fail> {
    let mut fabric = one_vm(rt.alloc())?;
    same!(rt; flying(&fabric, 0), Some(0));
    same!(rt; sends(&mut fabric, 0, 0x2800_8000, 5), Some(IN_MEMORY));
    same!(rt; sends(&mut fabric, 0, 0x2801_0000, 5), Some(Route::Other));
    same!(rt; flying(&fabric, 0), Some(1));
    name_the_file(&mut fabric);
    read_again(&mut fabric, 0);
    same!(rt; stores(&mut fabric, 0, 0x2800_8000, 7), Some(IN_MEMORY));
    read_again(&mut fabric, 1);
    same!(rt; sends(&mut fabric, 0, 0x2800_8000, 6), Some(IN_FILE));
    same!(rt; flying(&fabric, 0), Some(2));
    same!(rt; fabric.look(1, 0), (0x80, 0));
    same!(rt; lands(&mut fabric, 0, 0), true);
    same!(rt; fabric.look(1, 0), (0xa0, 0));
    same!(rt; pending(&mut fabric, 0x2802_1000, Op::Read), Some(0));
    same!(rt; lands(&mut fabric, 0, 1), false);
    same!(rt; lands(&mut fabric, 0, 0), true);
    same!(rt; pending(&mut fabric, 0x2802_1000, Op::Read), Some(0x40));
    same!(rt; flying(&fabric, 0), Some(0));
    drop(fabric);
    Ok(())
}

#[test]
fn a_fence_lands_what_is_in_flight(rt: HostRuntime) -> Result<(), Fail> {
    let mut fabric = one_vm(rt.alloc())?;
    same!(rt; sends(&mut fabric, 0, 0x2800_8000, 5), Some(IN_MEMORY));
    same!(rt; sends(&mut fabric, 0, 0x2800_0004, 0x0700_0000).is_some(), true);
    same!(rt; sends(&mut fabric, 0, 0x2800_8000, 6), Some(IN_MEMORY));
    name_the_file(&mut fabric);
    put_in_force(&mut fabric);
    same!(rt; flying(&fabric, 0), Some(0));
    same!(rt; fabric.look(1, 0), (0x60, 0));
    same!(rt; fabric.look(0, 0), (0x80, 0));
    same!(rt; sends(&mut fabric, 0, 0x2800_8000, 8), Some(IN_FILE));
    drop(fabric);
    Ok(())
}

/// The second step of an arrival is the fence: two stores land in memory, one of them with a
/// notice, and the next one goes to the guest file.
#[test]
fn the_fence_of_a_plan_lands_what_is_in_flight(rt: HostRuntime) -> Result<(), Fail> {
    let mut pool = Pool::new(rt.alloc(), 2, 1)?;
    let mut fabric = one_vm(rt.alloc())?;
    enable(&mut fabric, 0x20);
    same!(rt; sends(&mut fabric, 0, 0x2800_8000, 6), Some(IN_MEMORY));
    same!(rt; sends(&mut fabric, 0, 0x2800_8000, 5), Some(IN_MEMORY));
    let who = who_is(&fabric, 0, 1).expect(&rt, "virtual hart 1 is there");
    let to = pool.take(1).expect(&rt, "a file of hart 1 is free");
    holds(&rt, fences(&mut fabric, who, to));
    same!(rt; flying(&fabric, 0), Some(0));
    same!(rt; fabric.look(1, 0), (0x60, 0x20));
    same!(rt; fabric.notices(), 1);
    same!(rt; pending(&mut fabric, 0x2802_0000, Op::Read), Some(4));
    same!(rt; stores(&mut fabric, 0, 0x2800_8000, 7), Some(IN_FILE));
    drop(fabric);
    Ok(())
}

/// Begins to move a virtual hart to a guest file, and tells whether the move goes on after its
/// fence.
fn fences(fabric: &mut Fabric, who: Who, to: FileLease) -> bool
    requires who { IsWho fabric.old who }
    requires none_passed { who.passes.items ≡ [] }
{
    if to.hart() >= fabric.harts() || to.file() == 0 || to.file() > fabric.guests() {
        return false;
    }
    let kept = KeptNumbers {
        delivery: 1,
        threshold: 9,
    };
    let plan = Plan::arrive(to, who, kept);
    fabric.recall();
    let Some(plan) = steps(plan, fabric) else {
        return false;
    };
    goes_on(plan, fabric)
}
