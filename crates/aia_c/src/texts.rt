//! Texts and scripts, answered into room that C lends.

ghost use Rattle.std.specs.Prelude.{◌≡◌, ◌⊎◌, ◌-◌, ◌<◌, ◌≤◌, [], ◌∷◌, ◌++◌, length, take, drop, IfOk, OnErr};
ghost use Rattle.aia_model.specs.Answer.{answer_text};
ghost use Rattle.aia_replay.specs.Runs.{NoEnd, AreWholeLines};
ghost use Rattle.aia_c.specs.Calls.{Answers, CallTakes, WantsMemory};
ghost use Rattle.aia_c.specs.Codes.{number};
ghost use Rattle.aia_model.specs.declared.limits.TheConstants.{ANSWER_BYTES};

use crate::code::Code;
use aia_model::limits::ANSWER_BYTES;
use aia_replay::Engine;
use aia_script::{Answer, print_answer};
use arrayvec::ArrayVec;
use memchr::memchr;
use std::alloc::{AllocError, Global};

/// How far a script was answered, and why no further.
#[derive(Clone, Copy)]
pub struct TextFront {
    /// How many bytes of the script were taken.
    pub taken: usize,
    /// How many bytes of answers were written.
    pub written: usize,
    /// `Done` where all was taken, else `NoRoom` or `NoMemory`.
    pub code: Code,
}

/// Writes an answer with its LF, and tells how many bytes it has.
pub fn write_answer(answer: &Answer, room: &mut [u8]) -> usize
    requires { ANSWER_BYTES ≤ length room.old }
    ensures within { result ≤ length room.old }
    ensures text { take result room.new ≡ answer_text answer.now }
    ensures rest { drop result room.new ≡ drop result room.old }
{
    let mut out = ArrayVec::<u8, ANSWER_BYTES>::new();
    print_answer(answer, &mut out);
    room[..out.len()].copy_from_slice(out.as_slice());
    out.len()
}

/// Tells how many bytes the first text of a script has, and how many with its LF, where it has one.
fn first_text(script: &[u8]) -> (usize, usize)
    requires { 0 < length script.now }
    ensures within { (result.0 ≤ result.1) × (0 < result.1) × (result.1 ≤ length script.now) }
    ensures no_end { NoEnd (take result.0 script.now) }
    ensures cut { (take result.1 script.now ≡ take result.0 script.now ++ 10 ∷ [])
        ⊎ ((result.0 ≡ length script.now) × (result.1 ≡ length script.now)) }
{
    match memchr(b'\n', script) {
        Some(end) => (end, end + 1),
        None => (script.len(), script.len()),
    }
}

/// Answers the first text of a script: how many bytes of the script it takes, and how many bytes
/// its answer has. `Err`: it makes a machine, for which there is no memory.
fn answer_first(
    engine: &mut Engine,
    script: &[u8],
    room: &mut [u8],
    alloc: Global,
) -> Result<(usize, usize), AllocError>
    requires some { 0 < length script.now }
    requires room { ANSWER_BYTES ≤ length room.old }
    ensures within { IfOk result (λ r. (0 < r.0) × (r.0 ≤ length script.now)
        × (r.1 ≤ length room.old)) }
    ensures lines { IfOk result (λ r. AreWholeLines (take r.0 script.now)
        ⊎ (r.0 ≡ length script.now)) }
    ensures answers { IfOk result (λ r. Answers engine.old engine.new
        (take r.0 script.now) (take r.1 room.new)) }
    ensures rest { IfOk result (λ r. drop r.1 room.new ≡ drop r.1 room.old) }
    ensures same { OnErr result ((engine.new ≡ engine.old) × (room.new ≡ room.old)) }
    ensures memory { OnErr result (WantsMemory engine.new script.now) }
{
    let (text, line) = first_text(script);
    match engine.text(alloc, &script[..text])? {
        None => Ok((line, 0)),
        Some(answer) => Ok((line, write_answer(&answer, room))),
    }
}

/// Answers a script, as far as there is room for the longest answer and memory for a machine.
#[tactic(auto, using(crate::proofs::TextLemmas::more_left))]
pub fn answer_script(
    engine: &mut Engine,
    script: &[u8],
    answers: &mut [u8],
    alloc: Global,
) -> TextFront
    ensures within { (result.taken ≤ length script.now) × (result.written ≤ length answers.old) }
    ensures rest { drop result.written answers.new ≡ drop result.written answers.old }
    ensures takes { CallTakes engine.old engine.new (take result.taken script.now)
        (drop result.taken script.now) (take result.written answers.new)
        (length answers.old - result.written) (number result.code) }
{
    let mut taken = 0;
    let mut written = 0;
    while taken < script.len() {
        if answers.len() - written < ANSWER_BYTES {
            return TextFront {
                taken,
                written,
                code: Code::NoRoom,
            };
        }
        match answer_first(engine, &script[taken..], &mut answers[written..], alloc) {
            Ok((line, answer)) => {
                taken += line;
                written += answer;
            }
            Err(_) => {
                return TextFront {
                    taken,
                    written,
                    code: Code::NoMemory,
                };
            }
        }
    }
    TextFront {
        taken,
        written,
        code: Code::Done,
    }
}
