//! An answer is printed.

ghost use Rattle.std.specs.Prelude.{◌≡◌, ◌+◌, ◌≤◌, [], ◌++◌};
ghost use Rattle.arrayvec.specs.ArrayVec.{array_vec_len};
ghost use Rattle.aia_model.specs.declared.limits.TheConstants.{ANSWER_BYTES};
ghost use Rattle.aia_model.specs.Answer.{answer_word, answer_text};
ghost use Rattle.aia_model.specs.AnswerText.{level_text, entry_text, refusal_word};

use crate::number::Radix;
use crate::parts::push_part;
use crate::pieces::{digit_character, push_bytes, push_number, push_text};
use aia_entry::Entry;
use aia_model::limits::ANSWER_BYTES;
use aia_model::{Answer, Refusal};
use arrayvec::ArrayVec;

/// Appends a space and the digit of a level.
fn push_level<const N: usize>(out: &mut ArrayVec<u8, N>, level: bool)
    requires { array_vec_len out.old + 2 ≤ N }
    ensures text { out.new.items ≡ out.old.items ++ level_text level }
    ensures length { array_vec_len out.new ≡ array_vec_len out.old + 2 }
{
    out.push(b' ');
    out.push(digit_character(level as u64));
}

/// Appends the word of an answer to `pins`.
fn push_pins<const N: usize>(
    out: &mut ArrayVec<u8, N>,
    root: bool,
    child: bool,
    machine: bool,
    supervisor: bool,
)
    requires { array_vec_len out.old + 12 ≤ N }
    ensures text { out.new.items
        ≡ out.old.items ++ answer_word (Answer.Pins root child machine supervisor) }
    ensures length { array_vec_len out.new ≡ array_vec_len out.old + 12 }
{
    push_text(out, b"pins");
    push_level(out, root);
    push_level(out, child);
    push_level(out, machine);
    push_level(out, supervisor);
}

/// Appends what an entry says.
fn push_entry<const N: usize>(out: &mut ArrayVec<u8, N>, entry: Entry)
    requires { array_vec_len out.old + 63 ≤ N }
    ensures text { out.new.items ≡ out.old.items ++ entry_text entry }
    ensures length { array_vec_len out.new ≤ array_vec_len out.old + 63 }
{
    match entry {
        Entry::Basic(page) => {
            push_text(out, b"basic 0x");
            push_bytes(out, 8, page);
        }
        Entry::Mrif(addr, page, identity) => {
            push_text(out, b"mrif 0x");
            push_bytes(out, 8, addr);
            push_text(out, b" 0x");
            push_bytes(out, 8, page);
            push_text(out, b" ");
            push_number(out, Radix::Decimal, identity as u64);
        }
        Entry::NotValid => push_text(out, b"notvalid"),
        Entry::Custom => push_text(out, b"custom"),
        Entry::Misconfigured => push_text(out, b"misconfigured"),
    }
}

/// Appends the word of a refusal.
fn push_refusal<const N: usize>(out: &mut ArrayVec<u8, N>, word: Refusal)
    requires { array_vec_len out.old + 8 ≤ N }
    ensures text { out.new.items ≡ out.old.items ++ refusal_word word }
    ensures length { array_vec_len out.new ≤ array_vec_len out.old + 8 }
{
    match word {
        Refusal::Range => push_text(out, b"range"),
        Refusal::Full => push_text(out, b"full"),
        Refusal::Busy => push_text(out, b"busy"),
        Refusal::Home => push_text(out, b"home"),
        Refusal::Entered => push_text(out, b"entered"),
        Refusal::Parked => push_text(out, b"parked"),
        Refusal::NoFile => push_text(out, b"nofile"),
        Refusal::Passed => push_text(out, b"passed"),
        Refusal::Unready => push_text(out, b"unready"),
        Refusal::Idle => push_text(out, b"idle"),
        Refusal::Away => push_text(out, b"away"),
        Refusal::Illegal => push_text(out, b"illegal"),
        Refusal::Virtual => push_text(out, b"virtual"),
        Refusal::Fault => push_text(out, b"fault"),
        Refusal::Guarded => push_text(out, b"guarded"),
        Refusal::Other => push_text(out, b"other"),
        Refusal::NotValid => push_text(out, b"notvalid"),
        Refusal::GFault => push_text(out, b"gfault"),
    }
}

/// Prints an answer into `out`, which is empty: its word and an LF, at most [`ANSWER_BYTES`] bytes
/// in all.
pub fn print_answer(answer: &Answer, out: &mut ArrayVec<u8, ANSWER_BYTES>)
    requires { out.old.items ≡ [] }
    ensures text { out.new.items ≡ answer_text answer.now }
    ensures short { array_vec_len out.new ≤ ANSWER_BYTES }
{
    push_answer(out, answer);
}

/// Appends an answer: its word and an LF, at most [`ANSWER_BYTES`] bytes in all, for which there is
/// room.
#[tactic(auto, unfolding(aia_model::specs::Answer::answer_text))]
pub fn push_answer<const N: usize>(out: &mut ArrayVec<u8, N>, answer: &Answer)
    requires { array_vec_len out.old + ANSWER_BYTES ≤ N }
    ensures text { out.new.items ≡ out.old.items ++ answer_text answer.now }
    ensures length { array_vec_len out.new ≤ array_vec_len out.old + ANSWER_BYTES }
{
    match answer {
        Answer::Okay => push_text(out, b"ok"),
        Answer::Narrow(value) => {
            push_text(out, b"0x");
            push_bytes(out, 4, *value as u64);
        }
        Answer::Wide(value) => {
            push_text(out, b"0x");
            push_bytes(out, 8, *value);
        }
        Answer::Moving => push_text(out, b"moving"),
        Answer::Done => push_text(out, b"done"),
        Answer::Pins(root, child, machine, supervisor) => {
            push_pins(out, *root, *child, *machine, *supervisor);
        }
        Answer::Entry(entry) => push_entry(out, *entry),
        Answer::Part(part) => push_part(out, *part),
        Answer::Bad => push_text(out, b"bad"),
        Answer::NoMachine => push_text(out, b"nomachine"),
        Answer::Again => push_text(out, b"again"),
        Answer::Refused(word) => push_refusal(out, *word),
    }
    push_text(out, b"\n");
}
