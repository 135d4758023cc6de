//! The forms of lines, as a table in parts: the keyword, the kinds of the fields in their order,
//! the line. Lines are read and printed by its rows.
//!
//! Those that end with a CSR instruction or a part of an image, `begin`, and those that have a word
//! of their own after a hart or a virtual hart, have functions beside it.

ghost use Rattle.std.specs.Prelude.{◌≡◌, ◌≤◌, [], ◌∷◌, length, map};
ghost use Rattle.std.specs.List.{join_with_byte, AllByRecursion};
ghost use Rattle.aia_model.specs.AnswerText.{field_text};
ghost use Rattle.aia_model.specs.Grammar.{fields};
ghost use Rattle.aia_model.specs.Grammar.Field.{Keyword, Of};
ghost use Rattle.aia_model.specs.Grammar.WordKind.{Decimal};
ghost use Rattle.aia_model.specs.Forms.{instruction, access_values, part_fields, part, part_shape, machine_csr, host, guest, begin, load_part, forms_from_machine, forms_from_majors, forms_from_virtual_harts, forms_from_stores, Spells, IsListed};
ghost use Rattle.aia_model.specs.Printing.{line_text, FitsField, AllNumbersFit};
ghost use Rattle.aia_model.specs.Reading.{line_by, line_among, line_after, line_at, read, reading};
ghost use Rattle.aia_model.specs.declared.limits.TheConstants.{LINE_BYTES};
ghost use Rattle.aia_script.specs.Cursor.{left, first_word, after_first};

use crate::instructions::{instruction_at, instruction_of, push_instruction};
use crate::number::{flag_at, n32_at, number_at};
use crate::parts::{part_at, push_part};
use crate::pieces::{push_decimal, push_decimal32, push_hex, push_text};
use crate::rows::{print_by_row, print_field, read_by_row, read_field};
use crate::words::{Words, after_name, at_end};
use aia_model::limits::LINE_BYTES;
use aia_model::{Line, Parsed, Part, Want};
use aia_regs::{Csr, Level, Op};
use arrayvec::ArrayVec;

/// Hands the rows of loads and stores of the host, of wires and of stores of the devices of VMs,
/// after those that it is given, to a macro with its arguments.
macro_rules! stores {
    (($take:ident $args:tt) $($rows:tt)*) => {
        $take! { $args $($rows)*
            b"st" [addr: Hex, value: Hex32] (Line::Store { addr, value })
            b"ld" [addr: Hex] (Line::Load { addr })
            b"wire" [source: Decimal, level: Bit] (Line::Wire { source, level })
            b"msi" [vm: VmNumber, addr: Hex, value: Decimal32] (Line::Msi { vm, addr, value })
            b"send" [vm: VmNumber, addr: Hex, value: Decimal32] (Line::Send { vm, addr, value })
            b"land" [vm: VmNumber, k: Decimal] (Line::Land { vm, k })
        }
    };
}

/// Hands on the rows of a virtual hart in the same way.
macro_rules! virtual_harts {
    (($take:ident $args:tt) $($rows:tt)*) => {
        $take! { $args $($rows)*
            b"step" [vm: VmNumber, vcpu: Decimal] (Line::Step { vm, vcpu })
            b"refetch" [vm: VmNumber, vcpu: Decimal] (Line::Refetch { vm, vcpu })
            b"enter" [vm: VmNumber, vcpu: Decimal] (Line::Enter { vm, vcpu })
            b"exit" [vm: VmNumber, vcpu: Decimal] (Line::Exit { vm, vcpu })
            b"save" [vm: VmNumber, vcpu: Decimal, k: Decimal] (Line::Save { vm, vcpu, k })
        }
    };
}

/// Hands on the rows of the majors of a virtual hart in the same way.
macro_rules! majors {
    (($take:ident $args:tt) $($rows:tt)*) => {
        $take! { $args $($rows)*
            b"inject" [vm: VmNumber, vcpu: Decimal, bit: Decimal, level: Bit]
                (Line::Inject { vm, vcpu, bit, level })
            b"hvictl" [vm: VmNumber, vcpu: Decimal, value: Hex]
                (Line::Hvictl { vm, vcpu, value })
            b"hviprio" [vm: VmNumber, vcpu: Decimal, value: Hex]
                (Line::Hviprio { vm, vcpu, value })
        }
    };
}

/// Hands on the rows of the machine, VMs, passes, pins and entries in the same way.
macro_rules! machine {
    (($take:ident $args:tt) $($rows:tt)*) => {
        $take! { $args $($rows)*
            b"pins" [hart: Decimal] (Line::Pins { hart })
            b"entry" [w0: Hex, w1: Hex] (Line::Entry { w0, w1 })
            b"pass" [source: Decimal, vm: VmNumber, vcpu: Decimal, identity: Decimal]
                (Line::Pass { source, vm, vcpu, identity })
            b"vm" [vcpus: Decimal, mask: Hex, hart: Decimal] (Line::Vm { vcpus, mask, hart })
            b"machine" [harts: Decimal, guests: Decimal, n: Decimal, sources: Decimal]
                (Line::Machine { harts, guests, n, sources })
        }
    };
}

/// Hands the rows of moves to a macro, after its arguments, for the lines of a variant.
macro_rules! moves {
    ($take:ident $args:tt $line:ident) => {
        $take! { $args
            b"arrive" [vm: VmNumber, vcpu: Decimal, hart: Decimal]
                (Line::$line { vm, vcpu, want: Want::Arrive(hart) })
            b"leave" [vm: VmNumber, vcpu: Decimal] (Line::$line { vm, vcpu, want: Want::Leave })
            b"shift" [vm: VmNumber, vcpu: Decimal, hart: Decimal]
                (Line::$line { vm, vcpu, want: Want::Shift(hart) })
        }
    };
}

/// Reads the line that the words after `m` spell; `None` where they spell none.
#[tactic(auto, using(crate::proofs::FormLemmas::machine_access))]
#[inline(always)]
fn machine_csr_at(words: &mut Words<'_>) -> Option<Line>
    ensures { result ≡ line_by machine_csr (left words.old) }
{
    let hart = number_at(words)?;
    let (csr, op) = instruction_at(Level::Machine, words)?;
    Some(Line::MachineCsr { hart, csr, op })
}

/// Reads the line that the words after `h` spell; `None` where they spell none.
#[tactic(auto, using(crate::proofs::FormLemmas::host_access))]
#[inline(always)]
fn host_at(words: &mut Words<'_>) -> Option<Line>
    ensures { result ≡ line_by host (left words.old) }
{
    let hart = number_at(words)?;
    let text = words.rest()?;
    if let Some(words) = after_name(text, b"hgeip") {
        return at_end(&words, Line::Hgeip { hart });
    }
    let (csr, op) = instruction_of(Level::Host, text)?;
    Some(Line::HostCsr { hart, csr, op })
}

/// Reads the line that the words after `g` spell; `None` where they spell none.
#[tactic(auto, using(crate::proofs::FormLemmas::guest_access))]
#[inline(always)]
fn guest_at(words: &mut Words<'_>) -> Option<Line>
    ensures { result ≡ line_by guest (left words.old) }
{
    let vm = number_at(words)?;
    let vcpu = number_at(words)?;
    let text = words.rest()?;
    if let Some(mut words) = after_name(text, b"ipi") {
        let to = number_at(&mut words)?;
        let value = n32_at(&mut words)?;
        return at_end(
            &words,
            Line::Ipi {
                vm,
                vcpu,
                to,
                value,
            },
        );
    }
    let (csr, op) = instruction_of(Level::Guest, text)?;
    Some(Line::GuestCsr { vm, vcpu, csr, op })
}

/// Reads the line that the words after `begin` spell; `None` where they spell none.
#[inline(always)]
fn begin_at(words: &Words<'_>) -> Option<Line>
    ensures { result ≡ line_by begin (left words.now) }
{
    let text = words.rest()?;
    moves!(read_by_row (text) Begin);
    None
}

/// Reads the line that the words after `load` and the numbers of a virtual hart spell; `None` where
/// they spell none.
#[inline(always)]
fn load_part_of(vm: u64, vcpu: u64, words: &Words<'_>) -> Option<Line>
    ensures { result
        ≡ read part_shape (λ values. Line.LoadPart vm vcpu (part values)) (left words.now) }
{
    let part = part_at(words)?;
    Some(Line::LoadPart { vm, vcpu, part })
}

/// Reads the line that the words after `load` spell; `None` where they spell none.
#[inline(always)]
fn load_part_at(words: &mut Words<'_>) -> Option<Line>
    ensures { result ≡ line_by load_part (left words.old) }
{
    let vm = number_at(words)?;
    let vcpu = number_at(words)?;
    load_part_of(vm, vcpu, words)
}

/// Reads the line that a text spells, of the machine, a VM, a pass, pins or an entry; `None` where
/// it spells none.
#[inline(always)]
fn machine_line(text: &[u8]) -> Option<Line>
    ensures { result ≡ line_among forms_from_machine (first_word text.now) (after_first text.now) }
{
    machine!((read_by_row(text)));
    None
}

/// Reads the line that a text spells, of the majors of a virtual hart or as above; `None` where it
/// spells none.
#[inline(always)]
fn major_line(text: &[u8]) -> Option<Line>
    ensures { result ≡ line_among forms_from_majors (first_word text.now) (after_first text.now) }
{
    majors!((read_by_row(text)));
    machine_line(text)
}

/// Reads the line that a text spells, of a virtual hart, of its move or as above; `None` where it
/// spells none.
#[inline(always)]
fn virtual_hart_line(text: &[u8]) -> Option<Line>
    ensures { result
        ≡ line_among forms_from_virtual_harts (first_word text.now) (after_first text.now) }
{
    moves!(read_by_row (text) Move);
    virtual_harts!((read_by_row(text)));
    major_line(text)
}

/// Reads the line that a text spells, of a load or a store, of a wire or as above; `None` where it
/// spells none.
#[inline(always)]
fn store_line(text: &[u8]) -> Option<Line>
    ensures { result ≡ line_among forms_from_stores (first_word text.now) (after_first text.now) }
{
    stores!((read_by_row(text)));
    virtual_hart_line(text)
}

/// Reads the line that a text spells; `None` where it spells none.
#[inline(always)]
fn line_of(text: &[u8]) -> Option<Line>
    ensures { result ≡ line_after (first_word text.now) (after_first text.now) }
{
    if let Some(mut words) = after_name(text, b"m") {
        return machine_csr_at(&mut words);
    }
    if let Some(mut words) = after_name(text, b"h") {
        return host_at(&mut words);
    }
    if let Some(mut words) = after_name(text, b"g") {
        return guest_at(&mut words);
    }
    if let Some(words) = after_name(text, b"begin") {
        return begin_at(&words);
    }
    if let Some(mut words) = after_name(text, b"load") {
        return load_part_at(&mut words);
    }
    store_line(text)
}

/// Reads the line that words spell; `None` where they spell none.
#[tactic(auto, unfolding(aia_model::specs::Reading::line_at))]
#[inline(always)]
pub fn line_at(words: &Words<'_>) -> Option<Line>
    ensures { result ≡ line_at (left words.now) }
{
    line_of(words.rest()?)
}

/// Appends a keyword, a hart's number and a CSR instruction to `out`, which is empty.
#[tactic(auto, using(crate::proofs::PrintLemmas::joined_instruction, crate::proofs::PrintLemmas::access_in_range))]
fn push_access(
    out: &mut ArrayVec<u8, LINE_BYTES>,
    keyword: &[u8],
    hart: u64,
    level: Level,
    csr: Csr,
    op: Op,
)
    requires empty { out.old.items ≡ [] }
    requires short { length keyword.now ≤ 8 }
    ensures text { out.new.items ≡ join_with_byte 32 (map field_text (Keyword keyword.now
        ∷ Of Decimal hart ∷ fields (instruction level) (access_values level csr op))) }
    ensures range { AllByRecursion FitsField
        (fields (instruction level) (access_values level csr op)) }
{
    push_text(out, keyword);
    push_decimal(out, hart);
    push_instruction(out, level, csr, op);
}

/// Appends `g` and a CSR instruction of a virtual hart to `out`, which is empty.
#[tactic(auto, unfolding(aia_model::specs::Printing::line_text), using(crate::proofs::PrintLemmas::joined_instruction, crate::proofs::PrintLemmas::access_in_range))]
fn push_guest(out: &mut ArrayVec<u8, LINE_BYTES>, vm: u64, vcpu: u64, csr: Csr, op: Op)
    requires empty { out.old.items ≡ [] }
    ensures text { out.new.items ≡ line_text (Line.GuestCsr vm vcpu csr op) }
    ensures range { AllNumbersFit (Line.GuestCsr vm vcpu csr op) }
{
    push_text(out, b"g");
    push_decimal(out, vm);
    push_decimal(out, vcpu);
    push_instruction(out, Level::Guest, csr, op);
}

/// Appends `g` and a store of a virtual hart at the file of another to `out`, which is empty.
#[tactic(auto, unfolding(aia_model::specs::Printing::line_text))]
fn push_ipi(out: &mut ArrayVec<u8, LINE_BYTES>, vm: u64, vcpu: u64, to: u64, value: u32)
    requires { out.old.items ≡ [] }
    ensures { out.new.items ≡ line_text (Line.Ipi vm vcpu to value) }
{
    push_text(out, b"g");
    push_decimal(out, vm);
    push_decimal(out, vcpu);
    push_text(out, b" ipi");
    push_decimal(out, to);
    push_decimal32(out, value);
}

/// Appends `h` and `hgeip` to `out`, which is empty.
#[tactic(auto, unfolding(aia_model::specs::Printing::line_text))]
fn push_hgeip(out: &mut ArrayVec<u8, LINE_BYTES>, hart: u64)
    requires { out.old.items ≡ [] }
    ensures { out.new.items ≡ line_text (Line.Hgeip hart) }
{
    push_text(out, b"h");
    push_decimal(out, hart);
    push_text(out, b" hgeip");
}

/// Appends `load` and a part to `out`, which is empty. The numbers of the part are in range by
/// their types.
#[tactic(auto, unfolding(aia_model::specs::Printing::line_text), using(crate::proofs::PrintLemmas::joined_part))]
fn push_load(out: &mut ArrayVec<u8, LINE_BYTES>, vm: u64, vcpu: u64, part: Part)
    requires { out.old.items ≡ [] }
    ensures text { out.new.items ≡ line_text (Line.LoadPart vm vcpu part) }
    ensures range { AllByRecursion FitsField (part_fields part) }
{
    push_text(out, b"load");
    push_decimal(out, vm);
    push_decimal(out, vcpu);
    push_text(out, b" ");
    push_part(out, part);
}

/// Appends a move to `out`, which is empty. Its numbers are in range by their types.
#[tactic(auto, unfolding(aia_model::specs::Printing::line_text))]
fn push_move(out: &mut ArrayVec<u8, LINE_BYTES>, vm: u64, vcpu: u64, want: Want)
    requires { out.old.items ≡ [] }
    ensures text { out.new.items ≡ line_text (Line.Move vm vcpu want) }
    ensures range { AllNumbersFit (Line.Move vm vcpu want) }
{
    moves!(print_by_row (Line::Move { vm, vcpu, want }, out, _ => {}) Move)
}

/// Appends the beginning of a move to `out`, which is empty. Its numbers are in range by their
/// types.
#[tactic(auto, unfolding(aia_model::specs::Printing::line_text))]
fn push_beginning(out: &mut ArrayVec<u8, LINE_BYTES>, vm: u64, vcpu: u64, want: Want)
    requires { out.old.items ≡ [] }
    ensures text { out.new.items ≡ line_text (Line.Begin vm vcpu want) }
    ensures range { AllNumbersFit (Line.Begin vm vcpu want) }
{
    push_text(out, b"begin ");
    moves!(print_by_row (Line::Begin { vm, vcpu, want }, out, _ => {}) Begin)
}

/// Appends a line to `out`, which is empty. Its numbers are in range by their types.
#[tactic(auto, unfolding(aia_model::specs::Printing::line_text))]
fn push_line(line: &Line, out: &mut ArrayVec<u8, LINE_BYTES>)
    requires { out.old.items ≡ [] }
    ensures text { out.new.items ≡ line_text line.now }
    ensures range { AllNumbersFit line.now }
{
    stores!((virtual_harts (majors (machine (print_by_row (*line, out,
        Line::MachineCsr { hart, csr, op } => push_access(out, b"m", hart, Level::Machine, csr, op),
        Line::HostCsr { hart, csr, op } => push_access(out, b"h", hart, Level::Host, csr, op),
        Line::Hgeip { hart } => push_hgeip(out, hart),
        Line::GuestCsr { vm, vcpu, csr, op } => push_guest(out, vm, vcpu, csr, op),
        Line::Ipi { vm, vcpu, to, value } => push_ipi(out, vm, vcpu, to, value),
        Line::Move { vm, vcpu, want } => push_move(out, vm, vcpu, want),
        Line::Begin { vm, vcpu, want } => push_beginning(out, vm, vcpu, want),
        Line::LoadPart { vm, vcpu, part } => push_load(out, vm, vcpu, part),
    ))))))
}

/// Appends the printing spelling of a line to `out`, which is empty. The line's CSR is one that
/// lines of its form name.
///
/// A single space stands between two fields. Addresses, masks, the words of `entry`, operands of
/// CSR instructions, and the values of `st`, `hvictl` and `hviprio` are `0x` and lower-case digits
/// without leading zeros; in a part of an image the select number, the registers of majors and both
/// words are `0x` and sixteen digits. All other numbers are decimal, those stored by `msi`, `send`
/// and `ipi` too.
///
/// `parse_line(print_line(x)) = Line(x)`: the clause `again` says that the reading of what is
/// printed is `Line(line)`, and `parse_line` returns the reading of its text. Nothing is allocated.
pub fn print_line(line: &Line, out: &mut ArrayVec<u8, LINE_BYTES>)
    requires listed { IsListed line.now }
    requires empty { out.old.items ≡ [] }
    ensures text { out.new.items ≡ line_text line.now }
    ensures again { reading out.new.items ≡ Parsed.Line line.now }
    ensures spells { Spells out.new.items line.now }
{
    push_line(line, out);
}
