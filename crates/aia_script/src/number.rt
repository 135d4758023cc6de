//! Numbers: the value that a word spells.

ghost use Rattle.std.specs.Prelude.{◌≡◌, ℕ, ◌+◌, ◌*◌, ◌^◌, ◌<◌, length, IfSome};
ghost use Rattle.std.specs.Option.{option_map};
ghost use Rattle.aia_model.specs.Text.{below};
ghost use Rattle.aia_model.specs.Grammar.{bit_of};
ghost use Rattle.aia_model.specs.Reading.{number_at, n32_at, flag_at};
ghost use Rattle.aia_script.specs.Cursor.{left};
ghost use Rattle.aia_script.specs.Digits.{base, digit_in, ended, below_limit, number_from, after_x, after_zero, first_number};

use crate::words::{Words, words_after};

/// How a number is written.
#[derive(Clone, Copy)]
pub enum Radix {
    /// By the digits `0` to `9`.
    Decimal,
    /// By the digits `0` to `9` and `a` to `f`.
    Hexadecimal,
}

impl Radix {
    /// Gives the number of digits, 10 or 16.
    pub fn base(self) -> u64
        ensures { result ≡ base self }
    {
        match self {
            Radix::Decimal => 10,
            Radix::Hexadecimal => 16,
        }
    }

    /// Gives the digit that a character stands for, below the base; `None` where it is none.
    #[inline(always)]
    fn digit(self, character: u8) -> Option<u64>
        ensures value { result ≡ digit_in self character }
        ensures below { IfSome result (λ digit. digit < base self) }
    {
        // A character below the first one wraps to a great number, so one comparison decides.
        let digit = u64::from(character).wrapping_sub(u64::from(b'0'));
        if digit < 10 {
            return Some(digit);
        }
        let letter = u64::from(character).wrapping_sub(u64::from(b'a'));
        match self {
            Radix::Hexadecimal if letter < 6 => Some(letter + 10),
            _ => None,
        }
    }
}

/// Gives the number that one more digit makes of `number`; `None` where it is 2^64 or above.
fn with_digit(number: u64, base: u64, digit: u64) -> Option<u64>
    ensures { result ≡ below (2 ^ 64) (number * base + digit) }
{
    number.checked_mul(base)?.checked_add(digit)
}

/// Gives a number, and the words after it, where its word ends as `rest` begins; `None` where the
/// word goes on there.
#[inline(always)]
fn ended(number: u64, rest: &[u8]) -> Option<(u64, Words<'_>)>
    ensures { option_map (λ p. (p.0, left p.1)) result ≡ ended number rest.now }
{
    Some((number, words_after(rest)?))
}

/// Reads the decimal number that begins with the digit `first` and goes on in `text` to the end of
/// the word there, and gives the words after it; `None` where a character is no digit, or the
/// number is 2^64 or above.
#[inline(always)]
fn decimal(first: u64, text: &[u8]) -> Option<(u64, Words<'_>)>
    requires { first < 10 }
    ensures { option_map (λ p. (p.0, left p.1)) result
        ≡ below_limit (number_from Radix.Decimal (length text.now) first text.now) }
{
    let mut number = first;
    for at in 0..text.len() {
        let Some(digit) = Radix::Decimal.digit(text[at]) else {
            return ended(number, &text[at..]);
        };
        number = with_digit(number, 10, digit)?;
    }
    ended(number, &text[text.len()..])
}

/// Reads the hexadecimal number that begins with the digit `first` and goes on in `text` to the end
/// of the word there, and gives the words after it; `None` where a character is no digit, or there
/// are more than 16 in all.
#[inline(always)]
fn hexadecimal(first: u64, text: &[u8]) -> Option<(u64, Words<'_>)>
    requires { first < 16 }
    ensures { option_map (λ p. (p.0, left p.1)) result
        ≡ below_limit (number_from Radix.Hexadecimal 15 first text.now) }
{
    let most = text.len().min(15);
    let mut number = first;
    for at in 0..most {
        let Some(digit) = Radix::Hexadecimal.digit(text[at]) else {
            return ended(number, &text[at..]);
        };
        number = number * 16 + digit;
    }
    ended(number, &text[most..])
}

/// Reads the number that `0x` and the digits after it spell, of which a text begins with the first,
/// and gives the words after it; `None` where they spell none.
#[inline(always)]
fn after_x(digits: &[u8]) -> Option<(u64, Words<'_>)>
    ensures { option_map (λ p. (p.0, left p.1)) result ≡ after_x digits.now }
{
    match digits {
        [] => None,
        [first, rest @ ..] => hexadecimal(Radix::Hexadecimal.digit(*first)?, rest),
    }
}

/// Reads the number that `0` and what follows it spell, and gives the words after it; `None` where
/// they spell none.
#[inline(always)]
fn after_zero(text: &[u8]) -> Option<(u64, Words<'_>)>
    ensures { option_map (λ p. (p.0, left p.1)) result ≡ after_zero text.now }
{
    match text {
        [b'x', digits @ ..] => after_x(digits),
        _ => ended(0, text),
    }
}

/// Reads the number that the first word of a text spells, and gives the words after it: `0`,
/// decimal digits that begin with another digit, or `0x` and 1 to 16 hexadecimal digits. `None` for
/// every other word, and where the number is 2^64 or above.
#[inline(always)]
fn first_number(text: &[u8]) -> Option<(u64, Words<'_>)>
    ensures { option_map (λ p. (p.0, left p.1)) result ≡ first_number text.now }
{
    match text {
        [] => None,
        [b'0', rest @ ..] => after_zero(rest),
        [first, rest @ ..] => decimal(Radix::Decimal.digit(*first)?, rest),
    }
}

/// Reads the number that the next word spells; `None` where it spells none below 2^64.
#[tactic(auto, unfolding(aia_model::specs::Reading::number_at), using(crate::proofs::SpelledLemmas::first_is_number))]
#[inline(always)]
pub fn number_at(words: &mut Words<'_>) -> Option<u64>
    ensures { option_map (λ n. (n, left words.new)) result ≡ number_at (left words.old) }
{
    let (number, rest) = first_number(words.rest()?)?;
    *words = rest;
    Some(number)
}

/// Reads the number below 2^32 that the next word spells, and gives the words after it; `None`
/// where it spells none.
#[tactic(auto, unfolding(aia_model::specs::Reading::n32_at))]
#[inline(always)]
pub fn n32_at(words: &mut Words<'_>) -> Option<u32>
    ensures { option_map (λ n. (n, left words.new)) result ≡ n32_at (left words.old) }
{
    let number = number_at(words)?;
    u32::try_from(number).ok()
}

/// Gives the level that a number tells; `None` where it is neither 0 nor 1.
fn bit(number: u64) -> Option<bool>
    ensures { result ≡ bit_of number }
{
    match number {
        0 => Some(false),
        1 => Some(true),
        _ => None,
    }
}

/// Reads the level that the next word tells, and gives the words after it; `None` where it spells
/// neither 0 nor 1.
#[tactic(auto, unfolding(aia_model::specs::Reading::flag_at))]
#[inline(always)]
pub fn flag_at(words: &mut Words<'_>) -> Option<bool>
    ensures { option_map (λ level. (level, left words.new)) result ≡ flag_at (left words.old) }
{
    let number = number_at(words)?;
    bit(number)
}
