//! CSR instructions: the CSR's name at a level, and what follows each mnemonic; read and printed.

ghost use Rattle.std.specs.Prelude.{◌≡◌, ◌+◌, ◌≤◌, ◌∷◌, ◌++◌, false, length, map, IfSome, IfNone};
ghost use Rattle.std.specs.Option.{option_map};
ghost use Rattle.std.specs.List.{join_with_byte};
ghost use Rattle.arrayvec.specs.ArrayVec.{array_vec_len};
ghost use Rattle.aia_regs.specs.Operations.{FitsOp};
ghost use Rattle.aia_model.specs.AnswerText.{field_text, hex_text, name_text};
ghost use Rattle.aia_model.specs.Grammar.{csr_name, csr_names, fields, is_word, named};
ghost use Rattle.aia_model.specs.Forms.{access, access_values, instruction};
ghost use Rattle.aia_model.specs.Reading.{csr_at, read};
ghost use Rattle.aia_model.specs.declared.limits.TheConstants.{LINE_BYTES};
ghost use Rattle.aia_script.specs.Cursor.{left, first_word, after_first};
ghost use Rattle.aia_script.specs.Mnemonics.{mnemonic_name, operation_at};

use crate::number::number_at;
use crate::pieces::{push_hex, push_text};
use crate::words::{Words, after_name, at_end};
use aia_model::limits::LINE_BYTES;
use aia_regs::{Csr, Level, Op};
use arrayvec::ArrayVec;

/// Gives the names of a level's CSRs, each with the CSR that it names.
fn csr_names(level: Level) -> &'static [(&'static [u8], Csr)]
    ensures { map (λ row. (row.0.now, row.1)) result.now ≡ csr_names level }
{
    match level {
        Level::Machine => &[
            (b"miselect", Csr::Select),
            (b"mireg", Csr::Reg),
            (b"mtopei", Csr::Topei),
        ],
        Level::Host => &[
            (b"siselect", Csr::Select),
            (b"sireg", Csr::Reg),
            (b"stopei", Csr::Topei),
        ],
        Level::Guest => &[
            (b"siselect", Csr::Select),
            (b"sireg", Csr::Reg),
            (b"stopei", Csr::Topei),
            (b"stopi", Csr::Topi),
            (b"sip", Csr::Sip),
            (b"sie", Csr::Sie),
        ],
    }
}

/// Gives the CSR that the first word of a text names at a level, and the words after it; `None`
/// where it names none.
#[inline(always)]
fn named(level: Level, text: &[u8]) -> Option<(Csr, Words<'_>)>
    ensures csr { option_map (λ found. found.0) result ≡ named level (first_word text.now) }
    ensures rest { IfSome result (λ found. left found.1 ≡ after_first text.now) }
{
    for (name, csr) in csr_names(level) {
        if let Some(words) = after_name(text, name) {
            return Some((*csr, words));
        }
    }
    None
}

/// Gives the name of a CSR at a level; empty where the level names it not.
pub fn csr_name(level: Level, csr: Csr) -> &'static [u8]
    ensures { result.now ≡ name_text (csr_name level csr) }
{
    for (name, named) in csr_names(level) {
        if *named == csr {
            return name;
        }
    }
    b""
}

/// Reads the CSR that the next word names, and gives the words after it; `None` where it names
/// none.
#[tactic(auto, unfolding(aia_model::specs::Reading::csr_at))]
#[inline(always)]
fn csr_at(level: Level, words: &mut Words<'_>) -> Option<Csr>
    ensures { option_map (λ csr. (csr, left words.new)) result
        ≡ csr_at level (left words.old) }
{
    let (csr, rest) = named(level, words.rest()?)?;
    *words = rest;
    Some(csr)
}

/// The mnemonics, by what they do to a CSR.
#[derive(Clone, Copy)]
enum Mnemonic {
    Read,
    Write,
    Set,
    Clear,
}

/// Gives the mnemonic that the first word of a text is, and the words after it; `None` where it is
/// none.
#[inline(always)]
fn mnemonic_of(text: &[u8]) -> Option<(Mnemonic, Words<'_>)>
    ensures name { IfSome result (λ found. first_word text.now ≡ mnemonic_name found.0) }
    ensures rest { IfSome result (λ found. left found.1 ≡ after_first text.now) }
    ensures none { IfNone result
        ((m : Mnemonic) → is_word (first_word text.now) (mnemonic_name m) ≡ false) }
{
    // All mnemonics begin so: what does not is refused by one comparison.
    if !text.starts_with(b"csrr") {
        return None;
    }
    if let Some(words) = after_name(text, b"csrr") {
        return Some((Mnemonic::Read, words));
    }
    if let Some(words) = after_name(text, b"csrrw") {
        return Some((Mnemonic::Write, words));
    }
    if let Some(words) = after_name(text, b"csrrs") {
        return Some((Mnemonic::Set, words));
    }
    if let Some(words) = after_name(text, b"csrrc") {
        return Some((Mnemonic::Clear, words));
    }
    None
}

/// Reads the operand of a mnemonic, where it has one, and gives its operation; `None` where the
/// next word is no operand.
#[tactic(auto, unfolding(crate::specs::Mnemonics::operation_at))]
#[inline(always)]
fn operation_at(mnemonic: Mnemonic, words: &mut Words<'_>) -> Option<Op>
    ensures { option_map (λ op. (op, left words.new)) result
        ≡ operation_at mnemonic (left words.old) }
{
    // Read in one place, so that reading a number is compiled in once.
    let operand = match mnemonic {
        Mnemonic::Read => 0,
        Mnemonic::Write | Mnemonic::Set | Mnemonic::Clear => number_at(words)?,
    };
    Some(match mnemonic {
        Mnemonic::Read => Op::Read,
        Mnemonic::Write => Op::Write(operand),
        Mnemonic::Set => Op::Set(operand),
        Mnemonic::Clear => Op::Clear(operand),
    })
}

/// Reads the CSR and the operation that a text spells, by the level's names; `None` where it spells
/// none.
#[inline(always)]
pub fn instruction_of(level: Level, text: &[u8]) -> Option<(Csr, Op)>
    ensures { result ≡ read (instruction level) (access level)
        (first_word text.now ∷ after_first text.now) }
{
    let (mnemonic, mut words) = mnemonic_of(text)?;
    let csr = csr_at(level, &mut words)?;
    let op = operation_at(mnemonic, &mut words)?;
    at_end(&words, (csr, op))
}

/// Reads the CSR and the operation that words spell, by the level's names; `None` where they spell
/// none.
#[inline(always)]
pub fn instruction_at(level: Level, words: &Words<'_>) -> Option<(Csr, Op)>
    ensures { result ≡ read (instruction level) (access level) (left words.now) }
{
    instruction_of(level, words.rest()?)
}

/// Appends a mnemonic, a CSR's name and an operand.
fn push_operand(out: &mut ArrayVec<u8, LINE_BYTES>, mnemonic: &[u8], name: &[u8], operand: u64)
    requires { array_vec_len out.old + length mnemonic.now + length name.now + 23 ≤ LINE_BYTES }
    ensures text { out.new.items
        ≡ out.old.items ++ mnemonic.now ++ name.now ++ 32 ∷ hex_text operand }
{
    push_text(out, mnemonic);
    push_text(out, name);
    push_hex(out, operand);
}

/// Appends a space and a CSR instruction, by the level's names. Its operand is in range by its
/// type.
#[tactic(auto, using(aia_model::proofs::Printed::name_length))]
pub fn push_instruction(out: &mut ArrayVec<u8, LINE_BYTES>, level: Level, csr: Csr, op: Op)
    requires { array_vec_len out.old + 38 ≤ LINE_BYTES }
    ensures text { out.new.items ≡ out.old.items
        ++ 32 ∷ join_with_byte 32 (map field_text
        (fields (instruction level) (access_values level csr op))) }
    ensures range { FitsOp op }
{
    let name = csr_name(level, csr);
    match op {
        Op::Read => {
            push_text(out, b" csrr ");
            push_text(out, name);
        }
        Op::Write(operand) => push_operand(out, b" csrrw ", name, operand),
        Op::Set(operand) => push_operand(out, b" csrrs ", name, operand),
        Op::Clear(operand) => push_operand(out, b" csrrc ", name, operand),
    }
}
