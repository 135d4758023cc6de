//! Calls without text about the machine and its harts.

ghost use Rattle.std.specs.Prelude.{◌≡◌};
ghost use Rattle.aia_c.specs.Access.{hart_access};
ghost use Rattle.aia_c.specs.Calls.{Makes, Acts, Fetches, Signals, Accesses};
ghost use Rattle.aia_c.specs.Codes.{narrow_of, wide_of, pins_of};

use crate::access::hart_access;
use crate::handle::Handle;
use crate::serve::{access, narrow_in, number_of, pins_in, read, serve};
use aia_model::Line;
use std::alloc::Global;

/// Makes the machine, as `machine H G N S`.
#[unsafe(no_mangle)]
pub extern "C" fn aia_machine(
    handle: &mut Handle,
    harts: u64,
    guests: u64,
    n: u64,
    sources: u64,
    alloc: Global,
) -> i32
    ensures { Makes handle.old.engine handle.new.engine
        (Line.Machine harts guests n sources) result }
{
    let line = Line::Machine {
        harts,
        guests,
        n,
        sources,
    };
    number_of(serve(handle, &line, alloc))
}

/// Makes the next VM, as `vm C MASK HART`.
#[unsafe(no_mangle)]
pub extern "C" fn aia_vm(
    handle: &mut Handle,
    vcpus: u64,
    mask: u64,
    hart: u64,
    alloc: Global,
) -> i32
    ensures { Acts handle.old.engine handle.new.engine (Line.Vm vcpus mask hart) result }
{
    let line = Line::Vm { vcpus, mask, hart };
    number_of(serve(handle, &line, alloc))
}

/// Gives the wire of a source a level, as `wire S L`.
#[unsafe(no_mangle)]
pub extern "C" fn aia_wire(handle: &mut Handle, source: u64, level: bool, alloc: Global) -> i32
    ensures { Acts handle.old.engine handle.new.engine (Line.Wire source level) result }
{
    let line = Line::Wire { source, level };
    number_of(serve(handle, &line, alloc))
}

/// Stores 32 bits at an address, by the host or a device of it, as `st A V`.
#[unsafe(no_mangle)]
pub extern "C" fn aia_store(handle: &mut Handle, addr: u64, value: u32, alloc: Global) -> i32
    ensures { Acts handle.old.engine handle.new.engine (Line.Store addr value) result }
{
    let line = Line::Store { addr, value };
    number_of(serve(handle, &line, alloc))
}

/// Loads 32 bits from an address, by the host or a device of it, as `ld A`; the value is 0 where
/// nothing was read.
#[unsafe(no_mangle)]
pub extern "C" fn aia_load(handle: &mut Handle, addr: u64, value: &mut u32, alloc: Global) -> i32
    ensures { Fetches narrow_of handle.old.engine handle.new.engine (Line.Load addr)
        result value.new }
{
    let line = Line::Load { addr };
    let given = serve(handle, &line, alloc);
    *value = narrow_in(&given);
    number_of(given)
}

/// Gives the signals of a hart, as `pins H`: the bits 1 of the APLIC's root domain, 2 of its child,
/// 4 of the machine-level file, 8 of the supervisor file; 0 where the line is refused.
#[unsafe(no_mangle)]
pub extern "C" fn aia_pins(handle: &mut Handle, hart: u64, pins: &mut u32, alloc: Global) -> i32
    ensures { Fetches pins_of handle.old.engine handle.new.engine (Line.Pins hart)
        result pins.new }
{
    let line = Line::Pins { hart };
    let given = serve(handle, &line, alloc);
    *pins = pins_in(&given);
    number_of(given)
}

/// Gives which guest files of a hart signal, as `h H hgeip`; 0 where the line is refused.
#[unsafe(no_mangle)]
pub extern "C" fn aia_hgeip(handle: &mut Handle, hart: u64, value: &mut u64, alloc: Global) -> i32
    ensures { Fetches wide_of handle.old.engine handle.new.engine (Line.Hgeip hart)
        result value.new }
{
    read(handle, &Line::Hgeip { hart }, value, alloc)
}

/// Gives the signals of a hart and which of its guest files signal, as [`aia_pins`] and then
/// [`aia_hgeip`] do. Each value is 0 where its line is refused, and the code is the first of theirs
/// that is not `Done`.
#[unsafe(no_mangle)]
pub extern "C" fn aia_signals(
    handle: &mut Handle,
    hart: u64,
    pins: &mut u32,
    hgeip: &mut u64,
    alloc: Global,
) -> i32
    ensures { Signals handle.old.engine handle.new.engine hart result pins.new hgeip.new }
{
    let first = aia_pins(handle, hart, pins, alloc);
    let second = aia_hgeip(handle, hart, hgeip, alloc);
    if first == 0 { second } else { first }
}

/// Does a CSR instruction on a hart, as `m H csrr CSR`, `h H csrr CSR` and their kin, by the
/// numbers of the CSR and of the instruction; the value is what was read, 0 where nothing was.
#[unsafe(no_mangle)]
pub extern "C" fn aia_csr(
    handle: &mut Handle,
    hart: u64,
    csr: u32,
    funct: u32,
    operand: u64,
    value: &mut u64,
    alloc: Global,
) -> i32
    ensures { Accesses handle.old.engine handle.new.engine
        (hart_access hart csr funct operand) result value.new }
{
    access(handle, hart_access(hart, csr, funct, operand), value, alloc)
}
