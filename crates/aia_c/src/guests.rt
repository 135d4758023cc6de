//! Calls without text about VMs, their devices and their virtual harts.

ghost use Rattle.aia_c.specs.Access.{guest_access};
ghost use Rattle.aia_c.specs.Calls.{Acts, Accesses};

use crate::access::guest_access;
use crate::handle::Handle;
use crate::serve::{access, number_of, serve};
use aia_model::Line;
use std::alloc::Global;

/// Stores 32 bits at an address, by a device of a VM, as `msi VM A D`.
#[unsafe(no_mangle)]
pub extern "C" fn aia_msi(handle: &mut Handle, vm: u64, addr: u64, value: u32, alloc: Global) -> i32
    ensures { Acts handle.old.engine handle.new.engine (Line.Msi vm addr value) result }
{
    let line = Line::Msi { vm, addr, value };
    number_of(serve(handle, &line, alloc))
}

/// Sends such a store, which is in flight then, as `send VM A D`.
#[unsafe(no_mangle)]
pub extern "C" fn aia_send(
    handle: &mut Handle,
    vm: u64,
    addr: u64,
    value: u32,
    alloc: Global,
) -> i32
    ensures { Acts handle.old.engine handle.new.engine (Line.Send vm addr value) result }
{
    let line = Line::Send { vm, addr, value };
    number_of(serve(handle, &line, alloc))
}

/// Lands the K-th store of a VM that is in flight, the oldest 0, as `land VM K`.
#[unsafe(no_mangle)]
pub extern "C" fn aia_land(handle: &mut Handle, vm: u64, k: u64, alloc: Global) -> i32
    ensures { Acts handle.old.engine handle.new.engine (Line.Land vm k) result }
{
    let line = Line::Land { vm, k };
    number_of(serve(handle, &line, alloc))
}

/// Has the IOMMU read the entry of a virtual hart again, as `refetch VM C`.
#[unsafe(no_mangle)]
pub extern "C" fn aia_refetch(handle: &mut Handle, vm: u64, vcpu: u64, alloc: Global) -> i32
    ensures { Acts handle.old.engine handle.new.engine (Line.Refetch vm vcpu) result }
{
    let line = Line::Refetch { vm, vcpu };
    number_of(serve(handle, &line, alloc))
}

/// Passes a wired source to a virtual hart as an identity, as `pass S VM C I`.
#[unsafe(no_mangle)]
pub extern "C" fn aia_pass(
    handle: &mut Handle,
    source: u64,
    vm: u64,
    vcpu: u64,
    identity: u64,
    alloc: Global,
) -> i32
    ensures { Acts handle.old.engine handle.new.engine (Line.Pass source vm vcpu identity)
        result }
{
    let line = Line::Pass {
        source,
        vm,
        vcpu,
        identity,
    };
    number_of(serve(handle, &line, alloc))
}

/// Does a CSR instruction on a virtual hart, as `g VM C csrr CSR` and its kin, by the numbers of
/// the CSR and of the instruction; the value is what was read, 0 where nothing was.
#[unsafe(no_mangle)]
pub extern "C" fn aia_guest_csr(
    handle: &mut Handle,
    vm: u64,
    vcpu: u64,
    csr: u32,
    funct: u32,
    operand: u64,
    value: &mut u64,
    alloc: Global,
) -> i32
    ensures { Accesses handle.old.engine handle.new.engine
        (guest_access vm vcpu csr funct operand) result value.new }
{
    access(
        handle,
        guest_access(vm, vcpu, csr, funct, operand),
        value,
        alloc,
    )
}

/// Stores 32 bits at the file of virtual hart `to`, by one of its VM, as `g VM C ipi C2 D`.
#[unsafe(no_mangle)]
pub extern "C" fn aia_ipi(
    handle: &mut Handle,
    vm: u64,
    vcpu: u64,
    to: u64,
    value: u32,
    alloc: Global,
) -> i32
    ensures { Acts handle.old.engine handle.new.engine (Line.Ipi vm vcpu to value) result }
{
    let line = Line::Ipi {
        vm,
        vcpu,
        to,
        value,
    };
    number_of(serve(handle, &line, alloc))
}

/// Gives a major interrupt of a virtual hart a level in `hvip`, as `inject VM C BIT L`.
#[unsafe(no_mangle)]
pub extern "C" fn aia_inject(
    handle: &mut Handle,
    vm: u64,
    vcpu: u64,
    bit: u64,
    level: bool,
    alloc: Global,
) -> i32
    ensures { Acts handle.old.engine handle.new.engine (Line.Inject vm vcpu bit level) result }
{
    let line = Line::Inject {
        vm,
        vcpu,
        bit,
        level,
    };
    number_of(serve(handle, &line, alloc))
}

/// Writes `hvictl` of a virtual hart, as `hvictl VM C V`.
#[unsafe(no_mangle)]
pub extern "C" fn aia_hvictl(
    handle: &mut Handle,
    vm: u64,
    vcpu: u64,
    value: u64,
    alloc: Global,
) -> i32
    ensures { Acts handle.old.engine handle.new.engine (Line.Hvictl vm vcpu value) result }
{
    let line = Line::Hvictl { vm, vcpu, value };
    number_of(serve(handle, &line, alloc))
}

/// Writes `hviprio1` of a virtual hart, as `hviprio VM C V`.
#[unsafe(no_mangle)]
pub extern "C" fn aia_hviprio(
    handle: &mut Handle,
    vm: u64,
    vcpu: u64,
    value: u64,
    alloc: Global,
) -> i32
    ensures { Acts handle.old.engine handle.new.engine (Line.Hviprio vm vcpu value) result }
{
    let line = Line::Hviprio { vm, vcpu, value };
    number_of(serve(handle, &line, alloc))
}
