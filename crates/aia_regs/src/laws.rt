//! What the definitions of this crate mean, as laws: each function does nothing, and its clauses
//! are what was proved.

ghost use Rattle.std.specs.Prelude.{◌≡◌, ◌≢◌, ℕ, ◌+◌, ◌-◌, ◌*◌, ◌%◌, ◌^◌, ◌<◌, ◌≤◌, ◌↔◌, ◌⊎◌, true, Option, Some, None};
ghost use Rattle.std.specs.Int.{bit_at, swap_bytes, w32};
ghost use Rattle.aia_regs.specs.FileRegisters.{register_of};
ghost use Rattle.aia_regs.specs.DomainRegisters.{domain_register_of, domain_offset_of};
ghost use Rattle.aia_regs.specs.Fields.{field, with_field, IsOutside};
ghost use Rattle.aia_regs.specs.AddressMap.{machine_page, supervisor_page, guest_page, slot_address, table_address};
ghost use Rattle.aia_regs.specs.Top.{Pair, NamesItself, IsLeast, least_pair};

use crate::address_map::{
    HART_BITS, HART_SHIFT, HART_STRIDE, MEMORY, MEMORY_END, PAGE, PATTERN, REGION, ROOT_DOMAIN,
    SLOT, TABLE,
};
use crate::limits::{
    ENTRIES, FILE_WORDS, FIRST_PASS_IDENTITY, GUEST_FILES, HARTS, LAST_CONTROL, MASK_BITS,
    MASK_ONES, MEMORY_WORDS, PASSES, SLOTS, SOURCES, VCPUS, VM_VCPUS, VMS,
};
use crate::{DomainReg, FileReg};

/// The register map, row by row: which select numbers each register has.
///
/// AIA 1.0, IMSIC, "Indirectly accessed interrupt-file registers".
pub fn register_map()
    ensures delivery { (select : ℕ) → (register_of select ≡ FileReg.Delivery) ↔ (select ≡ 0x70) }
    ensures threshold { (select : ℕ) → (register_of select ≡ FileReg.Threshold) ↔ (select ≡ 0x72) }
    ensures pending { (select k : ℕ) → (register_of select ≡ FileReg.Pending k)
        ↔ ((k % 2 ≡ 0) × (k < 64) × (select ≡ 0x80 + k)) }
    ensures enable { (select k : ℕ) → (register_of select ≡ FileReg.Enable k)
        ↔ ((k % 2 ≡ 0) × (k < 64) × (select ≡ 0xc0 + k)) }
    ensures reserved { (select : ℕ) → (register_of select ≡ FileReg.Reserved)
        ↔ ((select ≡ 0x71) ⊎ ((0x73 ≤ select) × (select ≤ 0x7f))) }
    ensures odd { (select : ℕ) → (register_of select ≡ FileReg.Odd)
        ↔ ((0x80 ≤ select) × (select ≤ 0xff) × (select % 2 ≡ 1)) }
    ensures outside { (select : ℕ) → (register_of select ≡ FileReg.Outside)
        ↔ ((select < 0x70) ⊎ (0xff < select)) }
{}

/// The registers of an APLIC domain: what an offset names is the register with that offset, and
/// there is one at most.
///
/// AIA 1.0, APLIC, "Memory-mapped control region for an interrupt domain".
pub fn domain_register_map()
    ensures both_ways { (r : DomainReg) (offset : ℕ) → r ≢ DomainReg.Nothing
        → (domain_register_of offset ≡ r) ↔ (domain_offset_of r ≡ Some offset) }
    ensures nothing { (offset : ℕ) → (domain_register_of offset ≡ DomainReg.Nothing)
        ↔ ((r : DomainReg) → domain_offset_of r ≢ Some offset) }
    ensures at_most_one { (r s : DomainReg) (offset : ℕ) → domain_offset_of r ≡ Some offset
        → domain_offset_of s ≡ Some offset → r ≡ s }
{}

/// The fields of a register, bit by bit, and what it is to put a number into one.
///
/// A field that is put in is got back, every other bit and field stays, and to put back what was
/// there changes nothing.
pub fn fields()
    ensures bits { (x hi lo i : ℕ) → lo + i ≤ hi → bit_at (field x hi lo) i ≡ bit_at x (lo + i) }
    ensures no_more { (x hi lo i : ℕ) → lo ≤ hi → hi < lo + i → bit_at (field x hi lo) i ≡ 0 }
    ensures got { (x hi lo v : ℕ) → v < 2 ^ (hi - lo + 1) → field (with_field x hi lo v) hi lo ≡ v }
    ensures others { (x hi lo v i : ℕ) → lo ≤ hi → v < 2 ^ (hi - lo + 1) → IsOutside hi lo i
        → bit_at (with_field x hi lo v) i ≡ bit_at x i }
    ensures other_fields { (x hi lo v top bottom : ℕ) → lo ≤ hi → bottom ≤ top
        → v < 2 ^ (hi - lo + 1) → (top < lo) ⊎ (hi < bottom)
        → field (with_field x hi lo v) top bottom ≡ field x top bottom }
    ensures put_back { (x hi lo : ℕ) → with_field x hi lo (field x hi lo) ≡ x }
    ensures fits { (x hi lo v w : ℕ) → lo ≤ hi → hi < w → v < 2 ^ (hi - lo + 1) → x < 2 ^ w
        → with_field x hi lo v < 2 ^ w }
{}

/// The bytes of a word reversed twice are the word.
pub fn byte_order()
    ensures twice { (x : ℕ) → x < 2 ^ 32 → swap_bytes w32 (swap_bytes w32 x) ≡ x }
{}

/// The map of addresses has no overlap: each kind of page, slot and table ends before the next
/// kind begins, for as many harts, guest files and VMs as a machine may have.
///
/// A hart's guest files fill what lies between its supervisor file and the next hart's, the slots
/// what lies between the beginning of memory and the tables, and the tables the rest of memory.
pub fn map_of_addresses()
    ensures domains { ROOT_DOMAIN + 2 * REGION ≤ machine_page 0 }
    ensures machine { machine_page HARTS ≤ supervisor_page 0 }
    ensures guests { (hart : ℕ) → guest_page hart (GUEST_FILES + 1) ≡ supervisor_page (hart + 1) }
    ensures supervisor { supervisor_page HARTS ≤ MEMORY }
    ensures first_slot { slot_address 0 ≡ MEMORY }
    ensures slots { slot_address SLOTS ≡ table_address 0 }
    ensures tables { table_address VMS ≡ MEMORY_END }
    ensures words { MEMORY + 8 * MEMORY_WORDS ≡ MEMORY_END }
    ensures pattern { PATTERN * PAGE ≡ supervisor_page 0 }
{}

/// What bounds the limits of the machine, beside the map of addresses: none may be raised beyond
/// it. Nothing is said here of stores in flight.
///
/// A domain's region has 32 bytes of controls for each hart, and ends with those of hart
/// `LAST_CONTROL`. A CSR names a guest file by 6 bits, of
/// which 0 is none. A slot has two words for each 64 identities, and a table one entry of 16 bytes
/// for each number that the ones of a mask spell; a virtual hart of a VM has an entry of its own.
/// The notices of virtual harts are identities that each hart's supervisor file has, which are 63
/// at least, 1 for the first slot; those of passes come after them, and are identities of such a
/// file too. A domain's region has registers of 1,023 sources. The fields of MSI addresses by which
/// guest files are reached shift a hart's number by as many pages as a hart has, and have room for
/// the number of each hart.
pub fn bounds_of_the_limits()
    ensures harts { 0x4000 + 32 * HARTS ≤ REGION }
    ensures controls { 0x4000 + 32 * (LAST_CONTROL + 1) ≡ REGION }
    ensures harts_controlled { HARTS ≤ LAST_CONTROL + 1 }
    ensures guest_files { GUEST_FILES < 2 ^ 6 }
    ensures identities { 8 * (2 * FILE_WORDS) ≡ SLOT }
    ensures sources { SOURCES < 1024 }
    ensures entries { ENTRIES ≡ 2 ^ MASK_ONES }
    ensures mask { MASK_ONES ≤ MASK_BITS }
    ensures table { 16 * ENTRIES ≤ TABLE }
    ensures vcpus_of_a_vm { VM_VCPUS ≤ ENTRIES }
    ensures slots { SLOTS ≡ VCPUS }
    ensures notices { VCPUS ≤ 63 }
    ensures first_pass { VCPUS < FIRST_PASS_IDENTITY }
    ensures passes { FIRST_PASS_IDENTITY + PASSES ≤ 64 }
    ensures hart_bits { HARTS ≤ 2 ^ HART_BITS }
    ensures hart_shift { PAGE * 2 ^ HART_SHIFT ≡ HART_STRIDE }
{}

/// Of a range of numbers, where each pair has the number that it is of, the least pair is the
/// least: it is a candidate's, and no candidate's pair comes before it, by priority and then by
/// number; there is none exactly where there is no candidate.
///
/// AIA 1.0, APLIC, "Interrupt delivery directly by the APLIC".
pub fn the_least_pair_is_the_least()
    ensures found { (candidate : ℕ → Option Pair) (from count : ℕ) (p : Pair)
        → NamesItself candidate → least_pair candidate from count ≡ Some p
        → IsLeast candidate from count p }
    ensures none { (candidate : ℕ → Option Pair) (from count : ℕ) → NamesItself candidate
        → ◌≡◌ {A = Option Pair} (least_pair candidate from count) None
        → (s : ℕ) → from ≤ s → s < from + count → ◌≡◌ {A = Option Pair} (candidate s) None }
{}
