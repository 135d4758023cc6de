//! The words of a text, and what single words name.

ghost use Rattle.std.specs.Prelude.{◌≡◌, ◌≤◌, length, nat_eq, not, position};
ghost use Rattle.std.specs.Option.{option_map};
ghost use Rattle.plans_text.specs.Reading as reading;

use plans_rules::{AnyPlace, Number, NumberSpot, RouteKind, WhichSet};

/// A word, and the text after it.
pub(crate) type Cut<'a> = (&'a [u8], &'a [u8]);

/// Finds the first place of a byte in a text. `None`: it has none.
pub(crate) fn find_byte(text: &[u8], byte: u8) -> Option<usize>
    ensures { result ≡ position (λ b. nat_eq b byte) text.now }
{
    text.iter().position(|b| *b == byte)
}

/// Finds the first place of a byte that is no space. `None`: there is none.
fn place_of_word(text: &[u8]) -> Option<usize>
    ensures { result ≡ position (λ b. not (nat_eq b 32)) text.now }
{
    text.iter().position(|b| *b != b' ')
}

/// Gives a text without its comment, which begins with `#`.
pub(crate) fn before_comment(text: &[u8]) -> &[u8]
    ensures { result.now ≡ reading.before_comment text.now }
{
    match find_byte(text, b'#') {
        Some(at) => &text[..at],
        None => text,
    }
}

/// Tells where the word with which a text begins ends.
fn word_end(text: &[u8]) -> usize
    ensures value { result ≡ reading.word_end text.now }
    ensures within { result ≤ length text.now }
{
    match find_byte(text, b' ') {
        Some(at) => at,
        None => text.len(),
    }
}

/// Reads the next word, before which any number of spaces stands. `None`: no word is left.
#[tactic(auto, unfolding(crate::specs::Reading::next_word))]
pub(crate) fn next_word(text: &[u8]) -> Option<(&[u8], &[u8])>
    ensures { option_map (λ cut. (cut.0.now, cut.1.now)) result ≡ reading.next_word text.now }
{
    let at = place_of_word(text)?;
    let rest = &text[at..];
    let end = word_end(rest);
    Some((&rest[..end], &rest[end..]))
}

/// Gives what was read, where no word is left. `None`: one is.
pub(crate) fn at_end<T: Copy>(text: &[u8], read: T) -> Option<T>
    ensures { result ≡ reading.at_end text.now read }
{
    match next_word(text) {
        None => Some(read),
        Some(_) => None,
    }
}

/// Gives the number that a word spells, by one or two decimal digits. `None`: it spells none.
fn numeral_of(word: &[u8]) -> Option<u32>
    ensures { result ≡ reading.numeral_of word.now }
{
    match word {
        [d] => {
            if d.is_ascii_digit() {
                Some((*d - b'0') as u32)
            } else {
                None
            }
        }
        [d, e] => {
            if !d.is_ascii_digit() {
                return None;
            }
            if !e.is_ascii_digit() {
                return None;
            }
            Some(10 * (*d - b'0') as u32 + (*e - b'0') as u32)
        }
        _ => None,
    }
}

/// Reads a number. `None`: the next word is none, or there is no word.
#[tactic(auto, unfolding(crate::specs::Reading::numeral_at))]
pub(crate) fn numeral_at(text: &[u8]) -> Option<(u32, &[u8])>
    ensures { option_map (λ read. (read.0, read.1.now)) result ≡ reading.numeral_at text.now }
{
    let (word, rest) = next_word(text)?;
    let number = numeral_of(word)?;
    Some((number, rest))
}

/// Gives the set that a word names. `None`: it names none.
pub(crate) fn bank_named(word: &[u8]) -> Option<WhichSet>
    ensures { result ≡ reading.bank_named word.now }
{
    if word == b"pending".as_slice() {
        Some(WhichSet::Pending)
    } else if word == b"enabled".as_slice() {
        Some(WhichSet::Enabled)
    } else {
        None
    }
}

/// Gives the number of a file that a word names. `None`: it names none.
pub(crate) fn number_named(word: &[u8]) -> Option<Number>
    ensures { result ≡ reading.number_named word.now }
{
    if word == b"threshold".as_slice() {
        Some(Number::Threshold)
    } else if word == b"delivery".as_slice() {
        Some(Number::Delivery)
    } else {
        None
    }
}

/// Gives the place that a word names. `None`: it names none.
pub(crate) fn place_named(word: &[u8]) -> Option<AnyPlace>
    ensures { result ≡ reading.place_named word.now }
{
    if word == b"old".as_slice() {
        Some(AnyPlace::Old)
    } else if word == b"new".as_slice() {
        Some(AnyPlace::New)
    } else {
        None
    }
}

/// Gives the spot that a word names. `None`: it names none.
pub(crate) fn spot_named(word: &[u8]) -> Option<NumberSpot>
    ensures { result ≡ reading.spot_named word.now }
{
    if word == b"old".as_slice() {
        Some(NumberSpot::InOld)
    } else if word == b"hand".as_slice() {
        Some(NumberSpot::InHand)
    } else if word == b"new".as_slice() {
        Some(NumberSpot::InNew)
    } else {
        None
    }
}

/// Gives the kind of producer that a word names. `None`: it names none.
pub(crate) fn kind_named(word: &[u8]) -> Option<RouteKind>
    ensures { result ≡ reading.kind_named word.now }
{
    if word == b"routed".as_slice() {
        Some(RouteKind::Routed)
    } else if word == b"switched".as_slice() {
        Some(RouteKind::Switched)
    } else {
        None
    }
}
