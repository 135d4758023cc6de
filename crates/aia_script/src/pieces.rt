//! What printed lines and answers are made of: texts and numbers.

ghost use Rattle.std.specs.Prelude.{◌≡◌, ◌+◌, ◌*◌, ◌/◌, ◌%◌, ◌<◌, ◌≤◌, ◌∷◌, ◌++◌, length, map};
ghost use Rattle.std.specs.Int.Digits.{digits_of};
ghost use Rattle.arrayvec.specs.ArrayVec.{array_vec_len};
ghost use Rattle.aia_model.specs.AnswerText.{digit_character, hex_digits, number_text, decimal_text, hex_text, field_text};
ghost use Rattle.aia_model.specs.Grammar.Field.{Of};
ghost use Rattle.aia_model.specs.Grammar.WordKind.{Hex16};
ghost use Rattle.aia_script.specs.Digits.{base};

use crate::number::Radix;
use arrayvec::ArrayVec;

/// Appends a text, for which there is room.
pub fn push_text<const N: usize>(out: &mut ArrayVec<u8, N>, text: &[u8])
    requires { array_vec_len out.old + length text.now ≤ N }
    ensures text { out.new.items ≡ out.old.items ++ text.now }
    ensures length { array_vec_len out.new ≡ array_vec_len out.old + length text.now }
{
    // There is room, so this never fails.
    let _ = out.try_extend_from_slice(text);
}

/// The two hexadecimal digits of each byte, from 0 on.
const PAIRS: &[u8; 512] = b"000102030405060708090a0b0c0d0e0f\
    101112131415161718191a1b1c1d1e1f\
    202122232425262728292a2b2c2d2e2f\
    303132333435363738393a3b3c3d3e3f\
    404142434445464748494a4b4c4d4e4f\
    505152535455565758595a5b5c5d5e5f\
    606162636465666768696a6b6c6d6e6f\
    707172737475767778797a7b7c7d7e7f\
    808182838485868788898a8b8c8d8e8f\
    909192939495969798999a9b9c9d9e9f\
    a0a1a2a3a4a5a6a7a8a9aaabacadaeaf\
    b0b1b2b3b4b5b6b7b8b9babbbcbdbebf\
    c0c1c2c3c4c5c6c7c8c9cacbcccdcecf\
    d0d1d2d3d4d5d6d7d8d9dadbdcdddedf\
    e0e1e2e3e4e5e6e7e8e9eaebecedeeef\
    f0f1f2f3f4f5f6f7f8f9fafbfcfdfeff";

/// Gives the characters of the two hexadecimal digits of a byte, the higher one first.
#[inline(always)]
pub fn digit_pair(byte: u8) -> (u8, u8)
    ensures high { result.0 ≡ digit_character (byte / 16) }
    ensures low { result.1 ≡ digit_character (byte % 16) }
{
    let at = 2 * byte as usize;
    (PAIRS[at], PAIRS[at + 1])
}

/// Gives the character of a digit, 0 to 15, a lower-case letter from 10 on.
pub fn digit_character(digit: u64) -> u8
    requires { digit < 16 }
    ensures { result ≡ digit_character digit }
{
    if digit < 10 {
        b'0' + digit as u8
    } else {
        b'a' + (digit - 10) as u8
    }
}

/// Appends the digits of a value, the highest first, and none for 0.
fn push_all_digits(out: &mut ArrayVec<u8, 20>, radix: Radix, value: u64)
    requires { array_vec_len out.old + length (digits_of (base radix) value) ≤ 20 }
    ensures text { out.new.items
        ≡ out.old.items ++ map digit_character (digits_of (base radix) value) }
    ensures length { array_vec_len out.new
        ≡ array_vec_len out.old + length (digits_of (base radix) value) }
{
    if value > 0 {
        let base = radix.base();
        push_all_digits(out, radix, value / base);
        out.push(digit_character(value % base));
    }
}

/// Appends a number by its digits, without leading zeros.
pub fn push_number<const N: usize>(out: &mut ArrayVec<u8, N>, radix: Radix, value: u64)
    requires { array_vec_len out.old + 20 ≤ N }
    ensures text { out.new.items ≡ out.old.items ++ number_text (base radix) value }
    ensures length { array_vec_len out.new ≤ array_vec_len out.old + 20 }
{
    if value == 0 {
        push_text(out, b"0");
    } else {
        let mut digits = ArrayVec::new();
        push_all_digits(&mut digits, radix, value);
        push_text(out, digits.as_slice());
    }
}

/// Appends a number below 2^32 in decimal, without leading zeros.
#[tactic(auto, using(crate::proofs::PrintLemmas::few_decimal_digits))]
pub fn push_small<const N: usize>(out: &mut ArrayVec<u8, N>, value: u32)
    requires { array_vec_len out.old + 10 ≤ N }
    ensures text { out.new.items ≡ out.old.items ++ number_text 10 value }
    ensures length { array_vec_len out.new ≤ array_vec_len out.old + 10 }
{
    let mut digits: ArrayVec<u8, 20> = ArrayVec::new();
    push_number(&mut digits, Radix::Decimal, u64::from(value));
    push_text(out, digits.as_slice());
}

/// Appends a space and a number in decimal.
pub fn push_decimal<const N: usize>(out: &mut ArrayVec<u8, N>, value: u64)
    requires { array_vec_len out.old + 21 ≤ N }
    ensures text { out.new.items ≡ out.old.items ++ 32 ∷ decimal_text value }
    ensures length { array_vec_len out.new ≤ array_vec_len out.old + 21 }
{
    push_text(out, b" ");
    push_number(out, Radix::Decimal, value);
}

/// Appends a space and a number below 2^32, in decimal.
pub fn push_decimal32<const N: usize>(out: &mut ArrayVec<u8, N>, value: u32)
    requires { array_vec_len out.old + 11 ≤ N }
    ensures text { out.new.items ≡ out.old.items ++ 32 ∷ decimal_text value }
    ensures length { array_vec_len out.new ≤ array_vec_len out.old + 11 }
{
    push_text(out, b" ");
    push_small(out, value);
}

/// Appends a space and a number in hexadecimal.
pub fn push_hex<const N: usize>(out: &mut ArrayVec<u8, N>, value: u64)
    requires { array_vec_len out.old + 23 ≤ N }
    ensures text { out.new.items ≡ out.old.items ++ 32 ∷ hex_text value }
    ensures length { array_vec_len out.new ≤ array_vec_len out.old + 23 }
{
    push_text(out, b" 0x");
    push_number(out, Radix::Hexadecimal, value);
}

/// Appends a space and a register's value, by all of its sixteen digits.
pub fn push_register<const N: usize>(out: &mut ArrayVec<u8, N>, value: u64)
    requires { array_vec_len out.old + 19 ≤ N }
    ensures text { out.new.items ≡ out.old.items ++ 32 ∷ field_text (Of Hex16 value) }
    ensures length { array_vec_len out.new ≡ array_vec_len out.old + 19 }
{
    push_text(out, b" 0x");
    push_bytes(out, 8, value);
}

/// Appends the lowest `count` bytes of a value, each by its two hexadecimal digits.
pub fn push_bytes<const N: usize>(out: &mut ArrayVec<u8, N>, count: u32, value: u64)
    requires few { count ≤ 8 }
    requires room { array_vec_len out.old + 2 * count ≤ N }
    ensures text { out.new.items ≡ out.old.items ++ hex_digits (2 * count) value }
    ensures length { array_vec_len out.new ≡ array_vec_len out.old + 2 * count }
{
    for place in (0..count).rev() {
        let (high, low) = digit_pair(((value >> (8 * place)) % 256) as u8);
        out.push(high);
        out.push(low);
    }
}
