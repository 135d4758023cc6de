//! What the definitions of this crate mean, as laws: each function does nothing, and its clauses
//! are what was proved.

ghost use Rattle.std.specs.Prelude.{◌≡◌, ◌≢◌, ℕ, ◌%◌, ◌^◌, ◌<◌, ◌↔◌, ◌⊎◌, true, false, List, length};
ghost use Rattle.aia_word.specs.Sets.{has_bit};
ghost use Rattle.aia_entry.specs.declared.entry.Entry.TheVariants.{Basic, Mrif, NotValid, Custom};
ghost use Rattle.aia_entry.specs.Format.{decoded, basic_word, mrif_word, notice_word};
ghost use Rattle.aia_entry.specs.Translation.{IsMask, page_number, is_msi_address, file_number};
ghost use Rattle.aia_entry.specs.Tables.{TableState, table_of, entry_in_force, written_entry, fenced_at};

use aia_regs::address_map::PATTERN;
use aia_regs::limits::ENTRIES;

/// The words that are made for an entry say that entry; a basic one whatever its word 1 is.
pub fn made_words_are_read_back()
    ensures basic { (page w1 : ℕ) → page < 2 ^ 44 → decoded (basic_word page) w1 ≡ Basic page }
    ensures mrif { (addr page identity : ℕ) → addr % 512 ≡ 0 → addr < 2 ^ 56 → page < 2 ^ 44
        → identity < 2048
        → decoded (mrif_word addr) (notice_word page identity) ≡ Mrif addr page identity }
{}

/// An entry has one spelling: words that say a basic entry are those that are made for it, up to
/// word 1, and words that say an MRIF entry are those that are made for it.
pub fn an_entry_has_one_spelling()
    ensures basic { (w0 w1 page : ℕ) → w0 < 2 ^ 64 → decoded w0 w1 ≡ Basic page
        → (w0 ≡ basic_word page) × (page < 2 ^ 44) }
    ensures mrif { (w0 w1 addr page identity : ℕ) → w0 < 2 ^ 64 → w1 < 2 ^ 64
        → decoded w0 w1 ≡ Mrif addr page identity
        → (w0 ≡ mrif_word addr) × (w1 ≡ notice_word page identity)
        × (addr % 512 ≡ 0) × (addr < 2 ^ 56) × (page < 2 ^ 44) × (identity < 2048) }
{}

/// The order of the looks: an entry says that it is not valid exactly where bit 0 of word 0 is 0,
/// and that it is custom exactly where that bit is a one and bit 63 is too, whatever else it has.
pub fn order_of_looks()
    ensures not_valid { (w0 w1 : ℕ) → (decoded w0 w1 ≡ NotValid) ↔ (has_bit w0 0 ≡ false) }
    ensures custom { (w0 w1 : ℕ) → (decoded w0 w1 ≡ Custom)
        ↔ ((has_bit w0 0 ≡ true) × (has_bit w0 63 ≡ true)) }
{}

/// An address is an MSI address of a VM exactly where its page has the pattern's bit at each place
/// where the mask has a 0. The file that an address names is one of the table's.
#[tactic(auto, using(crate::proofs::TableLemmas::agrees, crate::proofs::TableLemmas::named_has_entry))]
pub fn addresses_name_files()
    ensures pattern { (mask addr : ℕ) → (is_msi_address mask addr ≡ true)
        ↔ ((i : ℕ) → has_bit mask i ≡ false
        → has_bit (page_number addr) i ≡ has_bit PATTERN i) }
    ensures file { (mask addr : ℕ) → IsMask mask → file_number mask addr < ENTRIES }
{}

/// A fence puts one entry in force, that of its file in its VM's table; every other entry in force
/// of that VM and of all others stays, and so do the masks and the places of all tables.
#[tactic(auto, using(crate::proofs::TableLemmas::fenced_here, crate::proofs::TableLemmas::fenced_elsewhere, crate::proofs::TableLemmas::fenced_mask, crate::proofs::TableLemmas::fenced_start, crate::proofs::TableLemmas::fenced_count))]
pub fn a_fence_changes_one_entry()
    ensures here { (tables : List TableState) (vm file : ℕ) (words : List ℕ)
        → vm < length tables → file < length (table_of tables vm).in_force
        → entry_in_force (table_of (fenced_at tables vm file words) vm) file
        ≡ written_entry words (table_of tables vm) file }
    ensures elsewhere { (tables : List TableState) (vm file : ℕ) (words : List ℕ) (v f : ℕ)
        → (v ≢ vm) ⊎ (f ≢ file)
        → entry_in_force (table_of (fenced_at tables vm file words) v) f
        ≡ entry_in_force (table_of tables v) f }
    ensures masks { (tables : List TableState) (vm file : ℕ) (words : List ℕ) (v : ℕ)
        → (table_of (fenced_at tables vm file words) v).mask ≡ (table_of tables v).mask }
    ensures places { (tables : List TableState) (vm file : ℕ) (words : List ℕ) (v : ℕ)
        → (table_of (fenced_at tables vm file words) v).start ≡ (table_of tables v).start }
    ensures vms { (tables : List TableState) (vm file : ℕ) (words : List ℕ)
        → length (fenced_at tables vm file words) ≡ length tables }
{}
