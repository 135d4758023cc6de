//! The model as a library for C: the calls that `include/aia.h` declares.
#![tactic(auto)]

ghost use Rattle.std.specs.Prelude.{◌≡◌, ◌-◌, ◌≤◌, None, length, take, drop};
ghost use Rattle.aia_c.specs.Calls.{Opens, Resets, Lines, Texts, Scripts};
ghost use Rattle.aia_c.specs.Codes.{number, went_as, said_as};

mod access;
mod block;
mod code;
mod guests;
mod handle;
mod hosts;
pub mod laws;
mod moves;
mod names;
mod parts;
mod serve;
#[cfg(test)]
mod tests;
mod texts;
mod version;

use aia_model::limits::ANSWER_BYTES;
use aia_replay::Engine;
use code::Code;
use handle::Handle;
use std::alloc::Global;
use texts::{answer_script, write_answer};

/// Opens a closed handle: its engine has no machine.
#[unsafe(no_mangle)]
pub extern "C" fn aia_open(handle: &mut Handle, alloc: Global) -> i32
    ensures { Opens handle.old.engine handle.new.engine result }
{
    if let Some(engine) = handle.take(alloc) {
        handle.put(engine);
        return Code::Open.number();
    }
    match Box::new(alloc, Engine::new()) {
        Ok(engine) => {
            handle.put(engine);
            Code::Done.number()
        }
        Err(_) => Code::NoMemory.number(),
    }
}

/// Has an open handle's engine be as when it was opened, with no machine. It takes no memory.
#[unsafe(no_mangle)]
pub extern "C" fn aia_reset(handle: &mut Handle, alloc: Global) -> i32
    ensures { Resets handle.old.engine handle.new.engine result }
{
    let Some(mut engine) = handle.take(alloc) else {
        return Code::Closed.number();
    };
    *engine = Engine::new();
    handle.put(engine);
    Code::Done.number()
}

/// Answers a text, and says how many bytes of the answer it wrote. `Ok` is the code of the answer,
/// `Err` what stood in the way.
#[inline(always)]
#[tactic(auto, using(crate::proofs::TextLemmas::few_room, crate::proofs::TextLemmas::enough_room, crate::proofs::TextLemmas::few_room_code, crate::proofs::TextLemmas::enough_room_code))]
fn answer_text(
    handle: &mut Handle,
    text: &[u8],
    answer: &mut [u8],
    written: &mut usize,
    alloc: Global,
) -> Result<Code, Code>
    ensures lines { Lines handle.old.engine handle.new.engine text.now
        (take written.new answer.new) (length answer.old) (number (went_as result)) }
    ensures texts { Texts handle.old.engine handle.new.engine text.now
        (take written.new answer.new) (length answer.old) (number (said_as result)) }
    ensures room { written.new ≤ length answer.old }
    ensures rest { drop written.new answer.new ≡ drop written.new answer.old }
{
    *written = 0;
    if answer.len() < ANSWER_BYTES {
        return Err(Code::NoRoom);
    }
    let Some(mut engine) = handle.take(alloc) else {
        return Err(Code::Closed);
    };
    let given = engine.text(alloc, text);
    handle.put(engine);
    match given {
        Ok(None) => Ok(Code::Done),
        Ok(Some(word)) => {
            *written = write_answer(&word, answer);
            Ok(Code::of(&word))
        }
        Err(_) => Err(Code::NoMemory),
    }
}

/// Answers a text, which is a line without its LF, and says how many bytes of the answer it wrote:
/// with an LF, or none of a skipped text.
#[unsafe(no_mangle)]
pub extern "C" fn aia_line(
    handle: &mut Handle,
    text: &[u8],
    answer: &mut [u8],
    written: &mut usize,
    alloc: Global,
) -> i32
    ensures lines { Lines handle.old.engine handle.new.engine text.now
        (take written.new answer.new) (length answer.old) result }
    ensures room { written.new ≤ length answer.old }
    ensures rest { drop written.new answer.new ≡ drop written.new answer.old }
{
    match answer_text(handle, text, answer, written, alloc) {
        Ok(_) => Code::Done.number(),
        Err(code) => code.number(),
    }
}

/// Answers a text as [`aia_line`] does, and says the code of the answer: `Done` of a value, and of
/// a skipped text.
#[unsafe(no_mangle)]
pub extern "C" fn aia_text(
    handle: &mut Handle,
    text: &[u8],
    answer: &mut [u8],
    written: &mut usize,
    alloc: Global,
) -> i32
    ensures texts { Texts handle.old.engine handle.new.engine text.now
        (take written.new answer.new) (length answer.old) result }
    ensures room { written.new ≤ length answer.old }
    ensures rest { drop written.new answer.new ≡ drop written.new answer.old }
{
    match answer_text(handle, text, answer, written, alloc) {
        Ok(code) | Err(code) => code.number(),
    }
}

/// Answers a script, as far as there is room for the longest answer and memory for a machine, and
/// says how many bytes of it were taken, whole lines or all, and how many bytes of answers written.
#[unsafe(no_mangle)]
pub extern "C" fn aia_replay(
    handle: &mut Handle,
    script: &[u8],
    taken: &mut usize,
    answers: &mut [u8],
    written: &mut usize,
    alloc: Global,
) -> i32
    ensures scripts { Scripts handle.old.engine handle.new.engine (take taken.new script.now)
        (drop taken.new script.now) (take written.new answers.new)
        (length answers.old - written.new) result }
    ensures within { (taken.new ≤ length script.now) × (written.new ≤ length answers.old) }
    ensures rest { drop written.new answers.new ≡ drop written.new answers.old }
{
    *taken = 0;
    *written = 0;
    let Some(mut engine) = handle.take(alloc) else {
        return Code::Closed.number();
    };
    let front = answer_script(&mut engine, script, answers, alloc);
    handle.put(engine);
    *taken = front.taken;
    *written = front.written;
    front.code.number()
}

/// Closes a handle. Its engine's memory is freed, of which no clause speaks.
#[unsafe(no_mangle)]
pub extern "C" fn aia_close(handle: &mut Handle, alloc: Global)
    ensures { handle.new.engine ≡ None }
{
    drop(handle.take(alloc));
}
