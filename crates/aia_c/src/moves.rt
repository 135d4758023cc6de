//! Calls without text about moves of virtual harts, and where these run.

ghost use Rattle.aia_c.specs.Calls.{Acts};

use crate::handle::Handle;
use crate::serve::{number_of, serve};
use aia_model::{Line, Want};
use std::alloc::Global;

/// Moves a virtual hart as is wanted, by all steps of the move.
fn moves(handle: &mut Handle, vm: u64, vcpu: u64, want: Want, alloc: Global) -> i32
    ensures { Acts handle.old.engine handle.new.engine (Line.Move vm vcpu want) result }
{
    number_of(serve(handle, &Line::Move { vm, vcpu, want }, alloc))
}

/// Begins such a move, and does no step of it.
fn begins(handle: &mut Handle, vm: u64, vcpu: u64, want: Want, alloc: Global) -> i32
    ensures { Acts handle.old.engine handle.new.engine (Line.Begin vm vcpu want) result }
{
    number_of(serve(handle, &Line::Begin { vm, vcpu, want }, alloc))
}

/// Moves a virtual hart from memory to a guest file of a hart, as `arrive VM C H`.
#[unsafe(no_mangle)]
pub extern "C" fn aia_arrive(
    handle: &mut Handle,
    vm: u64,
    vcpu: u64,
    hart: u64,
    alloc: Global,
) -> i32
    ensures { Acts handle.old.engine handle.new.engine (Line.Move vm vcpu (Want.Arrive hart))
        result }
{
    moves(handle, vm, vcpu, Want::Arrive(hart), alloc)
}

/// Moves a virtual hart from its guest file to memory, as `leave VM C`.
#[unsafe(no_mangle)]
pub extern "C" fn aia_leave(handle: &mut Handle, vm: u64, vcpu: u64, alloc: Global) -> i32
    ensures { Acts handle.old.engine handle.new.engine (Line.Move vm vcpu Want.Leave) result }
{
    moves(handle, vm, vcpu, Want::Leave, alloc)
}

/// Moves a virtual hart from its guest file to one of a hart, as `shift VM C H`.
#[unsafe(no_mangle)]
pub extern "C" fn aia_shift(
    handle: &mut Handle,
    vm: u64,
    vcpu: u64,
    hart: u64,
    alloc: Global,
) -> i32
    ensures { Acts handle.old.engine handle.new.engine (Line.Move vm vcpu (Want.Shift hart))
        result }
{
    moves(handle, vm, vcpu, Want::Shift(hart), alloc)
}

/// Begins what `aia_arrive` does, and does no step of it, as `begin arrive VM C H`.
#[unsafe(no_mangle)]
pub extern "C" fn aia_begin_arrive(
    handle: &mut Handle,
    vm: u64,
    vcpu: u64,
    hart: u64,
    alloc: Global,
) -> i32
    ensures { Acts handle.old.engine handle.new.engine (Line.Begin vm vcpu (Want.Arrive hart))
        result }
{
    begins(handle, vm, vcpu, Want::Arrive(hart), alloc)
}

/// Begins what `aia_leave` does, and does no step of it, as `begin leave VM C`.
#[unsafe(no_mangle)]
pub extern "C" fn aia_begin_leave(handle: &mut Handle, vm: u64, vcpu: u64, alloc: Global) -> i32
    ensures { Acts handle.old.engine handle.new.engine (Line.Begin vm vcpu Want.Leave) result }
{
    begins(handle, vm, vcpu, Want::Leave, alloc)
}

/// Begins what `aia_shift` does, and does no step of it, as `begin shift VM C H`.
#[unsafe(no_mangle)]
pub extern "C" fn aia_begin_shift(
    handle: &mut Handle,
    vm: u64,
    vcpu: u64,
    hart: u64,
    alloc: Global,
) -> i32
    ensures { Acts handle.old.engine handle.new.engine (Line.Begin vm vcpu (Want.Shift hart))
        result }
{
    begins(handle, vm, vcpu, Want::Shift(hart), alloc)
}

/// Does the next step of the move of a virtual hart, as `step VM C`: of a step that is done the
/// code is `Moving`, of the last one `Done`.
#[unsafe(no_mangle)]
pub extern "C" fn aia_step(handle: &mut Handle, vm: u64, vcpu: u64, alloc: Global) -> i32
    ensures { Acts handle.old.engine handle.new.engine (Line.Step vm vcpu) result }
{
    let line = Line::Step { vm, vcpu };
    number_of(serve(handle, &line, alloc))
}

/// Has a virtual hart run from memory, as `enter VM C`.
#[unsafe(no_mangle)]
pub extern "C" fn aia_enter(handle: &mut Handle, vm: u64, vcpu: u64, alloc: Global) -> i32
    ensures { Acts handle.old.engine handle.new.engine (Line.Enter vm vcpu) result }
{
    let line = Line::Enter { vm, vcpu };
    number_of(serve(handle, &line, alloc))
}

/// Has a virtual hart cease to run from memory, as `exit VM C`.
#[unsafe(no_mangle)]
pub extern "C" fn aia_exit(handle: &mut Handle, vm: u64, vcpu: u64, alloc: Global) -> i32
    ensures { Acts handle.old.engine handle.new.engine (Line.Exit vm vcpu) result }
{
    let line = Line::Exit { vm, vcpu };
    number_of(serve(handle, &line, alloc))
}
