//! What the calls without text share.

ghost use Rattle.std.specs.Prelude.{◌≡◌, ◌≤◌, false, [], IfSome};
ghost use Rattle.aia_model.specs.Forms.{IsListed};
ghost use Rattle.aia_c.specs.Codes.{number_of, read_in, narrow_of, wide_of, bit_at, pins_of};
ghost use Rattle.aia_model.specs.Refusal.{makes_machine};
ghost use Rattle.aia_c.specs.Calls.{Serving, Fetches, Accesses};

use crate::code::Code;
use crate::handle::Handle;
use aia_model::{Answer, Line};
use std::alloc::Global;

/// Serves a line by a handle's engine. `Err` says what stood in the way: the handle is closed, or
/// there is no memory for a machine.
#[inline(always)]
pub fn serve(handle: &mut Handle, line: &Line, alloc: Global) -> Result<Answer, Code>
    requires { IsListed line.now }
    ensures { Serving handle.old.engine handle.new.engine line.now result }
{
    let Some(mut engine) = handle.take(alloc) else {
        return Err(Code::Closed);
    };
    let given = engine.line(alloc, line);
    handle.put(engine);
    given.map_err(|_| Code::NoMemory)
}

/// Gives the number of the code of what a line was served.
#[inline(always)]
pub fn number_of(given: Result<Answer, Code>) -> i32
    ensures { result ≡ number_of given }
{
    match given {
        Ok(answer) => Code::of(&answer).number(),
        Err(code) => code.number(),
    }
}

/// Gives what a load read, 0 where it was not served or its answer has no 32 bits.
pub fn narrow_in(given: &Result<Answer, Code>) -> u32
    ensures { result ≡ read_in narrow_of given.now }
{
    match given {
        Ok(Answer::Narrow(value)) => *value,
        _ => 0,
    }
}

/// Gives what a CSR read, 0 where it was not served or its answer has no 64 bits.
fn wide_in(given: &Result<Answer, Code>) -> u64
    ensures { result ≡ read_in wide_of given.now }
{
    match given {
        Ok(Answer::Wide(value)) => *value,
        _ => 0,
    }
}

/// Gives a signal as a bit of a value.
fn bit_at(place: u32, level: bool) -> u32
    ensures value { result ≡ bit_at place level }
    ensures small { result ≤ place }
{
    if level { place } else { 0 }
}

/// Gives a hart's signals as four bits, 0 where the line was not served or its answer has none.
pub fn pins_in(given: &Result<Answer, Code>) -> u32
    ensures { result ≡ read_in pins_of given.now }
{
    match given {
        Ok(Answer::Pins(root, child, machine, supervisor)) => {
            bit_at(1, *root) + bit_at(2, *child) + bit_at(4, *machine) + bit_at(8, *supervisor)
        }
        _ => 0,
    }
}

/// Serves a line that reads a CSR, and gives what was read, 0 where nothing was.
#[inline(always)]
pub fn read(handle: &mut Handle, line: &Line, value: &mut u64, alloc: Global) -> i32
    requires listed { IsListed line.now }
    requires plain { makes_machine [] line.now ≡ false }
    ensures { Fetches wide_of handle.old.engine handle.new.engine line.now result value.new }
{
    let given = serve(handle, line, alloc);
    *value = wide_in(&given);
    number_of(given)
}

/// Does so with a line that numbers named; `None` is no line, and has a code of its own.
#[inline(always)]
pub fn access(handle: &mut Handle, line: Option<Line>, value: &mut u64, alloc: Global) -> i32
    requires listed { IfSome line IsListed }
    requires plain { IfSome line (λ line. makes_machine [] line ≡ false) }
    ensures { Accesses handle.old.engine handle.new.engine line result value.new }
{
    match line {
        Some(line) => read(handle, &line, value, alloc),
        None => {
            *value = 0;
            Code::NoLine.number()
        }
    }
}
