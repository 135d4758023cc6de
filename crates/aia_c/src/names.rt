//! The words of codes.

ghost use Rattle.std.specs.Prelude.{◌≡◌, ◌≤◌, length, take, drop};
ghost use Rattle.aia_model.specs.Answer.{answer_word};
ghost use Rattle.aia_model.specs.declared.limits.TheConstants.{ANSWER_BYTES};
ghost use Rattle.aia_c.specs.Codes.{answer_at, answer_of};
ghost use Rattle.aia_c.specs.Calls.{Names};

use crate::code::Code;
use aia_model::limits::ANSWER_BYTES;
use aia_model::{Answer, Refusal};
use aia_script::print_answer;
use arrayvec::ArrayVec;

/// Gives the answer whose code a number is, `None` where it is no code of an answer.
fn answer_at(number: u32) -> Option<Answer>
    ensures { result ≡ answer_at number }
{
    match number {
        16 => Some(Answer::NoMachine),
        17 => Some(Answer::Again),
        18 => Some(Answer::Moving),
        19 => Some(Answer::Bad),
        32 => Some(Answer::Refused(Refusal::Range)),
        33 => Some(Answer::Refused(Refusal::Full)),
        34 => Some(Answer::Refused(Refusal::Busy)),
        35 => Some(Answer::Refused(Refusal::Home)),
        36 => Some(Answer::Refused(Refusal::Entered)),
        37 => Some(Answer::Refused(Refusal::Parked)),
        38 => Some(Answer::Refused(Refusal::NoFile)),
        39 => Some(Answer::Refused(Refusal::Passed)),
        40 => Some(Answer::Refused(Refusal::Unready)),
        41 => Some(Answer::Refused(Refusal::Idle)),
        42 => Some(Answer::Refused(Refusal::Away)),
        43 => Some(Answer::Refused(Refusal::Illegal)),
        44 => Some(Answer::Refused(Refusal::Virtual)),
        45 => Some(Answer::Refused(Refusal::Fault)),
        46 => Some(Answer::Refused(Refusal::Guarded)),
        47 => Some(Answer::Refused(Refusal::Other)),
        48 => Some(Answer::Refused(Refusal::NotValid)),
        49 => Some(Answer::Refused(Refusal::GFault)),
        _ => None,
    }
}

/// Gives the same of any number.
#[tactic(auto, using(crate::proofs::NameLemmas::from_zero))]
fn answer_of(code: i32) -> Option<Answer>
    ensures { result ≡ answer_of code }
{
    if code < 0 {
        return None;
    }
    answer_at(code.unsigned_abs())
}

/// Writes the word of an answer, without an LF, and tells how many bytes it has.
fn write_word(answer: &Answer, room: &mut [u8]) -> usize
    requires { ANSWER_BYTES ≤ length room.old }
    ensures within { result ≤ length room.old }
    ensures word { take result room.new ≡ answer_word answer.now }
    ensures rest { drop result room.new ≡ drop result room.old }
{
    let mut out = ArrayVec::<u8, ANSWER_BYTES>::new();
    print_answer(answer, &mut out);
    let word = out.len() - 1;
    room[..word].copy_from_slice(&out.as_slice()[..word]);
    word
}

/// Spells a code from 16 on, as the answer that has it is spelled, and says how many bytes of the
/// word it wrote; a number that is no such code is no line's.
#[unsafe(no_mangle)]
#[tactic(auto, using(crate::proofs::NameLemmas::few_room, crate::proofs::NameLemmas::enough_room))]
pub extern "C" fn aia_code_name(code: i32, name: &mut [u8], written: &mut usize) -> i32
    ensures names { Names code (take written.new name.new) (length name.old) result }
    ensures room { written.new ≤ length name.old }
    ensures rest { drop written.new name.new ≡ drop written.new name.old }
{
    *written = 0;
    if name.len() < ANSWER_BYTES {
        return Code::NoRoom.number();
    }
    match answer_of(code) {
        Some(answer) => {
            *written = write_word(&answer, name);
            Code::Done.number()
        }
        None => Code::NoLine.number(),
    }
}
