//! What line a text spells.

ghost use Rattle.std.specs.Prelude.{◌≡◌, ℕ};
ghost use Rattle.std.specs.Option.{option_map};
ghost use Rattle.plans_text.specs.Reading as reading;

use crate::limits::LINE_BYTES;
use crate::line::{PlanLine, Reading, Thing};
use crate::words::{
    at_end, bank_named, before_comment, kind_named, next_word, number_named, numeral_at,
    place_named, spot_named,
};
use plans_rules::{AnyPlace, AnyStep};

/// Reads a word of a set: its set and its number. `None`: it is none.
#[tactic(auto, unfolding(crate::specs::Reading::word_at))]
fn word_at(text: &[u8]) -> Option<(Thing, &[u8])>
    ensures { option_map (λ read. (read.0, read.1.now)) result ≡ reading.word_at text.now }
{
    let (word, rest) = next_word(text)?;
    let bank = bank_named(word)?;
    let (number, rest) = numeral_at(rest)?;
    Some((Thing::Word(bank, number), rest))
}

/// Reads the name of a number. `None`: it is none.
#[tactic(auto, unfolding(crate::specs::Reading::number_thing_at))]
fn number_thing_at(text: &[u8]) -> Option<(Thing, &[u8])>
    ensures { option_map (λ read. (read.0, read.1.now)) result ≡ reading.number_thing_at text.now }
{
    let (word, rest) = next_word(text)?;
    let number = number_named(word)?;
    Some((Thing::Number(number), rest))
}

/// Reads what a step moves. `None`: it is none.
#[tactic(auto, unfolding(crate::specs::Reading::thing_at))]
fn thing_at(text: &[u8]) -> Option<(Thing, &[u8])>
    ensures { option_map (λ read. (read.0, read.1.now)) result ≡ reading.thing_at text.now }
{
    match number_thing_at(text) {
        Some(thing) => Some(thing),
        None => word_at(text),
    }
}

/// Gives the step that overwrites it with zeros.
fn zero_of(place: AnyPlace, thing: Thing) -> AnyStep
    ensures { result ≡ reading.zero_of place thing }
{
    match thing {
        Thing::Word(bank, word) => AnyStep::Zero(place, bank, word),
        Thing::Number(number) => AnyStep::ZeroNumber(place, number),
    }
}

/// Gives the step that takes it.
fn take_of(thing: Thing) -> AnyStep
    ensures { result ≡ reading.take_of thing }
{
    match thing {
        Thing::Word(bank, word) => AnyStep::Take(bank, word),
        Thing::Number(number) => AnyStep::TakeNumber(number),
    }
}

/// Gives the step that copies it.
fn copy_of(thing: Thing) -> AnyStep
    ensures { result ≡ reading.copy_of thing }
{
    match thing {
        Thing::Word(bank, word) => AnyStep::Copy(bank, word),
        Thing::Number(number) => AnyStep::CopyNumber(number),
    }
}

/// Gives the step that puts it.
fn put_of(thing: Thing) -> AnyStep
    ensures { result ≡ reading.put_of thing }
{
    match thing {
        Thing::Word(bank, word) => AnyStep::Put(bank, word),
        Thing::Number(number) => AnyStep::PutNumber(number),
    }
}

/// Gives the step that joins it. `None`: a number is not joined.
fn join_of(thing: Thing) -> Option<AnyStep>
    ensures { result ≡ reading.join_of thing }
{
    match thing {
        Thing::Word(bank, word) => Some(AnyStep::Join(bank, word)),
        Thing::Number(_) => None,
    }
}

/// Reads the place and the thing of a `zero`. `None`: they are none.
#[tactic(auto, unfolding(crate::specs::Reading::zero_at))]
fn zero_at(text: &[u8]) -> Option<AnyStep>
    ensures { result ≡ reading.zero_at text.now }
{
    let (word, rest) = next_word(text)?;
    let place = place_named(word)?;
    let (thing, rest) = thing_at(rest)?;
    at_end(rest, zero_of(place, thing))
}

/// Reads the thing of a `take`. `None`: it is none.
#[tactic(auto, unfolding(crate::specs::Reading::take_at))]
fn take_at(text: &[u8]) -> Option<AnyStep>
    ensures { result ≡ reading.take_at text.now }
{
    let (thing, rest) = thing_at(text)?;
    at_end(rest, take_of(thing))
}

/// Reads the thing of a `copy`. `None`: it is none.
#[tactic(auto, unfolding(crate::specs::Reading::copy_at))]
fn copy_at(text: &[u8]) -> Option<AnyStep>
    ensures { result ≡ reading.copy_at text.now }
{
    let (thing, rest) = thing_at(text)?;
    at_end(rest, copy_of(thing))
}

/// Reads the thing of a `put`. `None`: it is none.
#[tactic(auto, unfolding(crate::specs::Reading::put_at))]
fn put_at(text: &[u8]) -> Option<AnyStep>
    ensures { result ≡ reading.put_at text.now }
{
    let (thing, rest) = thing_at(text)?;
    at_end(rest, put_of(thing))
}

/// Reads the word of a `join`. `None`: it is none.
#[tactic(auto, unfolding(crate::specs::Reading::join_at))]
fn join_at(text: &[u8]) -> Option<AnyStep>
    ensures { result ≡ reading.join_at text.now }
{
    let (thing, rest) = thing_at(text)?;
    let step = join_of(thing)?;
    at_end(rest, step)
}

/// Reads the number with which a text ends. `None`: it is none, or a word stands after it.
#[tactic(auto, unfolding(crate::specs::Reading::numbered_at))]
fn last_number(text: &[u8]) -> Option<u32>
    ensures { (step : ℕ → AnyStep) → option_map step result ≡ reading.numbered_at step text.now }
{
    let (number, rest) = numeral_at(text)?;
    at_end(rest, number)
}

/// Reads a step about a producer. `None`: the name or what stands after it spells none.
fn routing_named(name: &[u8], text: &[u8]) -> Option<AnyStep>
    ensures { result ≡ reading.routing_named name.now text.now }
{
    if name == b"route".as_slice() {
        Some(AnyStep::Route(last_number(text)?))
    } else if name == b"fence".as_slice() {
        Some(AnyStep::Fence(last_number(text)?))
    } else if name == b"switch".as_slice() {
        Some(AnyStep::Switch(last_number(text)?))
    } else if name == b"pause".as_slice() {
        Some(AnyStep::Pause(last_number(text)?))
    } else if name == b"resume".as_slice() {
        Some(AnyStep::Resume(last_number(text)?))
    } else {
        None
    }
}

/// Reads a step that moves something. `None`: the name or what stands after it spells none.
fn moving_named(name: &[u8], text: &[u8]) -> Option<AnyStep>
    ensures { result ≡ reading.moving_named name.now text.now }
{
    if name == b"zero".as_slice() {
        zero_at(text)
    } else if name == b"take".as_slice() {
        take_at(text)
    } else if name == b"copy".as_slice() {
        copy_at(text)
    } else if name == b"join".as_slice() {
        join_at(text)
    } else if name == b"put".as_slice() {
        put_at(text)
    } else {
        None
    }
}

/// Gives the step that the word after `write` names. `None`: it names none.
fn notice_named(word: &[u8]) -> Option<AnyStep>
    ensures { result ≡ reading.notice_named word.now }
{
    if word == b"notice".as_slice() {
        Some(AnyStep::WriteNotice)
    } else {
        None
    }
}

/// Reads what a `write` writes. `None`: it is none.
#[tactic(auto, unfolding(crate::specs::Reading::write_at))]
fn write_at(text: &[u8]) -> Option<AnyStep>
    ensures { result ≡ reading.write_at text.now }
{
    let (word, rest) = next_word(text)?;
    let step = notice_named(word)?;
    at_end(rest, step)
}

/// Reads a step about the host, or `free`. `None`: the name or what stands after it spells none.
fn telling_named(name: &[u8], text: &[u8]) -> Option<AnyStep>
    ensures { result ≡ reading.telling_named name.now text.now }
{
    if name == b"look".as_slice() {
        Some(AnyStep::Look(last_number(text)?))
    } else if name == b"post".as_slice() {
        at_end(text, AnyStep::Post)
    } else if name == b"tell".as_slice() {
        at_end(text, AnyStep::Tell)
    } else if name == b"untell".as_slice() {
        at_end(text, AnyStep::Untell)
    } else if name == b"write".as_slice() {
        write_at(text)
    } else if name == b"free".as_slice() {
        at_end(text, AnyStep::Free)
    } else {
        None
    }
}

/// Reads the step that a name spells with the text after it. `None`: they spell none.
#[tactic(auto, unfolding(crate::specs::Reading::step_named))]
fn step_named(name: &[u8], text: &[u8]) -> Option<AnyStep>
    ensures { result ≡ reading.step_named name.now text.now }
{
    if let Some(step) = routing_named(name, text) {
        return Some(step);
    }
    if let Some(step) = moving_named(name, text) {
        return Some(step);
    }
    telling_named(name, text)
}

/// Reads how many words a set has. `None`: it is no number.
#[tactic(auto, unfolding(crate::specs::Reading::words_at))]
fn words_at(text: &[u8]) -> Option<PlanLine>
    ensures { result ≡ reading.words_at text.now }
{
    let (number, rest) = numeral_at(text)?;
    at_end(rest, PlanLine::Words(number))
}

/// Reads the kind of a producer. `None`: it is none.
#[tactic(auto, unfolding(crate::specs::Reading::producer_at))]
fn producer_at(text: &[u8]) -> Option<PlanLine>
    ensures { result ≡ reading.producer_at text.now }
{
    let (word, rest) = next_word(text)?;
    let kind = kind_named(word)?;
    at_end(rest, PlanLine::Producer(kind))
}

/// Reads where the numbers are, and have to be. `None`: they are no spots.
#[tactic(auto, unfolding(crate::specs::Reading::numbers_at))]
fn numbers_at(text: &[u8]) -> Option<PlanLine>
    ensures { result ≡ reading.numbers_at text.now }
{
    let (word, rest) = next_word(text)?;
    let from = spot_named(word)?;
    let (word, rest) = next_word(rest)?;
    let to = spot_named(word)?;
    at_end(rest, PlanLine::Numbers(from, to))
}

/// Gives the declaration that the word after `notices` makes. `None`: it makes none.
fn unset_named(word: &[u8]) -> Option<PlanLine>
    ensures { result ≡ reading.unset_named word.now }
{
    if word == b"unset".as_slice() {
        Some(PlanLine::NoticesUnset)
    } else {
        None
    }
}

/// Reads what is declared of notices. `None`: it is nothing.
#[tactic(auto, unfolding(crate::specs::Reading::notices_at))]
fn notices_at(text: &[u8]) -> Option<PlanLine>
    ensures { result ≡ reading.notices_at text.now }
{
    let (word, rest) = next_word(text)?;
    let line = unset_named(word)?;
    at_end(rest, line)
}

/// Reads a declaration of one word, or the begin of a plan. `None`: they spell none.
fn flag_named(name: &[u8], text: &[u8]) -> Option<PlanLine>
    ensures { result ≡ reading.flag_named name.now text.now }
{
    if name == b"plan".as_slice() {
        at_end(text, PlanLine::Plan)
    } else if name == b"fresh".as_slice() {
        at_end(text, PlanLine::Fresh)
    } else if name == b"memory".as_slice() {
        at_end(text, PlanLine::Memory)
    } else if name == b"heeds".as_slice() {
        at_end(text, PlanLine::Heeds)
    } else if name == b"inherited".as_slice() {
        at_end(text, PlanLine::Inherited)
    } else {
        None
    }
}

/// Reads a declaration. `None`: the name and the text after it spell none.
fn declaration_named(name: &[u8], text: &[u8]) -> Option<PlanLine>
    ensures { result ≡ reading.declaration_named name.now text.now }
{
    if name == b"words".as_slice() {
        words_at(text)
    } else if name == b"producer".as_slice() {
        producer_at(text)
    } else if name == b"numbers".as_slice() {
        numbers_at(text)
    } else if name == b"notices".as_slice() {
        notices_at(text)
    } else {
        flag_named(name, text)
    }
}

/// Reads the line that a name spells with the text after it. `None`: they spell none.
fn line_named(name: &[u8], text: &[u8]) -> Option<PlanLine>
    ensures { result ≡ reading.line_named name.now text.now }
{
    if let Some(line) = declaration_named(name, text) {
        return Some(line);
    }
    let step = step_named(name, text)?;
    Some(PlanLine::Step(step))
}

/// Gives what a text is that spells no line, by its first word.
fn bad_by(name: &[u8]) -> Reading
    ensures { result ≡ reading.bad_by name.now }
{
    if name == b"plan".as_slice() {
        Reading::BadPlan
    } else {
        Reading::Bad
    }
}

/// Reads the words of a text that is not too long.
fn read_words(text: &[u8]) -> Reading
    ensures { result ≡ reading.words_read (reading.next_word text.now) }
{
    match next_word(text) {
        None => Reading::Skip,
        Some((name, rest)) => match line_named(name, rest) {
            Some(line) => Reading::Line(line),
            None => bad_by(name),
        },
    }
}

/// Reads the first word of a text that is too long.
fn read_long(text: &[u8]) -> Reading
    ensures { result ≡ reading.long_read (reading.next_word text.now) }
{
    match next_word(text) {
        None => Reading::Bad,
        Some((name, _)) => bad_by(name),
    }
}

/// Reads a text of a plan file, its LF left out: at most 128 bytes, words with any number of spaces
/// between them, and a comment from `#` on. Of one that is longer, or spells no line, the first
/// word tells whether a plan begins there.
#[tactic(auto, unfolding(crate::specs::Reading::reading))]
pub fn parse_line(text: &[u8]) -> Reading
    ensures { result ≡ reading.reading text.now }
{
    if text.len() <= LINE_BYTES {
        read_words(before_comment(text))
    } else {
        read_long(before_comment(text))
    }
}
