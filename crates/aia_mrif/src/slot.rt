ghost use Rattle.std.specs.Prelude.{◌≡◌, ℕ, ◌+◌, ◌*◌, ◌/◌, ◌%◌, ◌^◌, ◌<◌, ◌≤◌, ◌↔◌, Bool, false, ◌||◌, nat_eq, if◌then◌else◌, slice_index, slice_set, bit_or, length, Option, Some, None};
ghost use Rattle.aia_word.specs.Sets.{has_bit};
ghost use Rattle.aia_regs.specs.declared.limits.TheConstants.{IDENTITIES, FILE_WORDS};
ghost use Rattle.aia_regs.specs.Request.{requested};
ghost use Rattle.aia_file.specs.Mrif.{mrif_in, pending_place, enable_place, after_store, stored};
ghost use Rattle.aia_file.specs.Words.{HasSlot, SameMrif, words_after_store};

use aia_file::Stored;
use aia_ram::Ram;
use aia_regs::address_map::SLOT;
use aia_regs::limits::{FILE_WORDS, IDENTITIES};
use aia_regs::requested;
use aia_word::Bank;

/// A slot of memory, which keeps a memory-resident interrupt file: memory is lent for the accesses
/// of one call.
#[derive(Drop)]
pub struct SlotMut<'a> {
    /// The memory, which has the slot.
    pub ram: &'a mut Ram,
    /// The number of the slot, counted from 0.
    pub q: u32,
    ghost there: { HasSlot ram.now q },
}

/// Gives both words `k`, below `FILE_WORDS`, of slot `q`, one that memory has: which of the
/// identities `64 * k` to `64 * k + 63` are pending, and which are enabled.
pub fn look(ram: &Ram, q: u32, k: usize) -> (u64, u64)
    requires slot { HasSlot ram.now q }
    requires word { k < FILE_WORDS }
    ensures pending { (b : ℕ) → b < 64
        → has_bit result.0 b ≡ (mrif_in ram.now q).pending (64 * k + b) }
    ensures enabled { (b : ℕ) → b < 64
        → has_bit result.1 b ≡ (mrif_in ram.now q).enabled (64 * k + b) }
    ensures pending_word { result.0 ≡ slice_index ram.now (pending_place q k) }
    ensures enable_word { result.1 ≡ slice_index ram.now (enable_place q k) }
    ensures pending_fits { result.0 < 2 ^ 64 }
    ensures enable_fits { result.1 < 2 ^ 64 }
{
    let at = pair_at(q, k);
    (ram.load(at), ram.load(at + 8))
}

impl Bank for SlotMut<'_> {
    ghost use Rattle.aia_regs.specs.declared.limits.TheConstants.{FILE_WORDS};

    ghost pending = { λ s. (mrif_in s.ram.now s.q).pending };

    ghost enabled = { λ s. (mrif_in s.ram.now s.q).enabled };

    ghost width = { λ s. FILE_WORDS };

    fn words(&self) -> usize
        ensures { result ≡ FILE_WORDS }
    {
        FILE_WORDS
    }

    fn swap_pending(&mut self, k: usize, v: u64) -> u64
        requires word { k < FILE_WORDS }
        requires no_zero { k ≡ 0 → has_bit v 0 ≡ false }
        ensures stood { (b : ℕ) → b < 64
            → has_bit result b ≡ (mrif_in self.old.ram.now self.old.q).pending (64 * k + b) }
        ensures after { (i : ℕ) → (mrif_in self.new.ram.now self.new.q).pending i
            ≡ (if nat_eq (i / 64) k then has_bit v (i % 64)
            else (mrif_in self.old.ram.now self.old.q).pending i) }
        ensures others { (i : ℕ) → (mrif_in self.new.ram.now self.new.q).enabled i
            ≡ (mrif_in self.old.ram.now self.old.q).enabled i }
        ensures word_stood { result
            ≡ slice_index self.old.ram.now (pending_place self.old.q k) }
        ensures words { self.new.ram.now
            ≡ slice_set self.old.ram.now (pending_place self.old.q k) v }
        ensures same_slot { self.new.q ≡ self.old.q }
        ensures same_reference { self.new.ram.ghost_name ≡ self.old.ram.ghost_name }
    {
        self.ram.swap(pair_at(self.q, k), v)
    }

    #[tactic(auto, using(aia_file::proofs::SlotLemmas::slot_joined))]
    fn or_pending(&mut self, k: usize, v: u64)
        requires word { k < FILE_WORDS }
        requires no_zero { k ≡ 0 → has_bit v 0 ≡ false }
        ensures after { (i : ℕ) → (mrif_in self.new.ram.now self.new.q).pending i
            ≡ (if nat_eq (i / 64) k
            then ((mrif_in self.old.ram.now self.old.q).pending i || has_bit v (i % 64))
            else (mrif_in self.old.ram.now self.old.q).pending i) }
        ensures others { (i : ℕ) → (mrif_in self.new.ram.now self.new.q).enabled i
            ≡ (mrif_in self.old.ram.now self.old.q).enabled i }
        ensures words { self.new.ram.now
            ≡ slice_set self.old.ram.now (pending_place self.old.q k)
            (bit_or (slice_index self.old.ram.now (pending_place self.old.q k)) v) }
        ensures same_slot { self.new.q ≡ self.old.q }
        ensures same_reference { self.new.ram.ghost_name ≡ self.old.ram.ghost_name }
    {
        self.ram.or(pair_at(self.q, k), v);
    }

    fn swap_enable(&mut self, k: usize, v: u64) -> u64
        requires word { k < FILE_WORDS }
        requires no_zero { k ≡ 0 → has_bit v 0 ≡ false }
        ensures stood { (b : ℕ) → b < 64
            → has_bit result b ≡ (mrif_in self.old.ram.now self.old.q).enabled (64 * k + b) }
        ensures after { (i : ℕ) → (mrif_in self.new.ram.now self.new.q).enabled i
            ≡ (if nat_eq (i / 64) k then has_bit v (i % 64)
            else (mrif_in self.old.ram.now self.old.q).enabled i) }
        ensures others { (i : ℕ) → (mrif_in self.new.ram.now self.new.q).pending i
            ≡ (mrif_in self.old.ram.now self.old.q).pending i }
        ensures word_stood { result
            ≡ slice_index self.old.ram.now (enable_place self.old.q k) }
        ensures words { self.new.ram.now
            ≡ slice_set self.old.ram.now (enable_place self.old.q k) v }
        ensures same_slot { self.new.q ≡ self.old.q }
        ensures same_reference { self.new.ram.ghost_name ≡ self.old.ram.ghost_name }
    {
        self.ram.swap(pair_at(self.q, k) + 8, v)
    }
}

impl SlotMut<'_> {
    /// Takes a 32-bit store of `value` at `offset` of the slot: it makes the identity pending that
    /// it names, and tells whether that one is enabled. `Discarded` exactly where it names no
    /// identity from 1 to `IDENTITIES`; `Notice` exactly where it names one that is enabled.
    #[tactic(auto, using(aia_file::proofs::SlotLemmas::landed))]
    pub fn land(&mut self, offset: u32, value: u32) -> Stored
        ensures stored { result
            ≡ stored (mrif_in self.old.ram.now self.old.q) (requested IDENTITIES offset value) }
        ensures discarded { (result ≡ Stored.Discarded)
            ↔ (◌≡◌ {A = Option ℕ} (requested IDENTITIES offset value) None) }
        ensures after { SameMrif (mrif_in self.new.ram.now self.new.q)
            (after_store offset value (mrif_in self.old.ram.now self.old.q)) }
        ensures words { self.new.ram.now ≡ words_after_store self.old.ram.now self.old.q
            (requested IDENTITIES offset value) }
        ensures same_slot { self.new.q ≡ self.old.q }
        ensures same_reference { self.new.ram.ghost_name ≡ self.old.ram.ghost_name }
    {
        let Some(identity) = requested(IDENTITIES, offset, value) else {
            return Stored::Discarded;
        };
        self.ask(identity);
        if self.is_enabled(identity) {
            Stored::Notice
        } else {
            Stored::Quiet
        }
    }

    /// Makes the identity pending.
    fn ask(&mut self, identity: u32)
        requires { identity ≤ IDENTITIES }
        ensures words { self.new.ram.now
            ≡ words_after_store self.old.ram.now self.old.q (Some identity) }
        ensures same_slot { self.new.q ≡ self.old.q }
        ensures same_reference { self.new.ram.ghost_name ≡ self.old.ram.ghost_name }
    {
        let at = pair_at(self.q, (identity / 64) as usize);
        self.ram.or(at, bit_of(identity));
    }

    /// Tells whether the identity is enabled.
    fn is_enabled(&self, identity: u32) -> bool
        requires { identity ≤ IDENTITIES }
        ensures { result ≡ (mrif_in self.now.ram.now self.now.q).enabled identity }
    {
        let at = pair_at(self.q, (identity / 64) as usize);
        let word = self.ram.load(at + 8);
        (word >> (identity % 64)) % 2 == 1
    }
}

/// Gives the byte at which pending word `k`, below `FILE_WORDS`, of slot `q` begins; enable word
/// `k` begins 8 bytes on.
pub(crate) fn pair_at(q: u32, k: usize) -> usize
    requires { k < FILE_WORDS }
    ensures { result ≡ 8 * pending_place q k }
{
    SLOT as usize * q as usize + 16 * k
}

/// Gives the word that has only the identity's bit.
#[tactic(auto, using(aia_file::proofs::SlotLemmas::one_bit))]
fn bit_of(identity: u32) -> u64
    ensures { result ≡ 2 ^ (identity % 64) }
{
    1 << (identity % 64)
}
