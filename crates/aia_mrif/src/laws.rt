//! What the definitions of this crate mean, as laws: each function does nothing, and its clauses
//! are what was proved.

ghost use Rattle.std.specs.Prelude.{◌≡◌, ℕ, ◌+◌, ◌*◌, ◌<◌, ◌≤◌, ◌⊎◌, List, false, slice_set};
ghost use Rattle.aia_regs.specs.declared.address_map.TheConstants.{SLOT};
ghost use Rattle.aia_regs.specs.declared.limits.TheConstants.{IDENTITIES, SLOT_WORDS};
ghost use Rattle.aia_file.specs.Mrif.{mrif_in, pending_place, enable_place};

/// Where the words of slot `q` begin, counted in bytes of memory.
pub fn slot_layout()
    ensures pending { (q k : ℕ) → 8 * pending_place q k ≡ SLOT * q + 16 * k }
    ensures enable { (q k : ℕ) → 8 * enable_place q k ≡ SLOT * q + 16 * k + 8 }
{}

/// The MRIF in a slot is made of the slot's own words: a word that is written elsewhere leaves
/// it equal, and it has no identity above the greatest.
#[tactic(auto, using(aia_file::proofs::SlotLemmas::other_words))]
pub fn slots_are_apart()
    ensures elsewhere { (words : List ℕ) (q place v : ℕ)
        → (place < SLOT_WORDS * q) ⊎ (SLOT_WORDS * (q + 1) ≤ place)
        → mrif_in (slice_set words place v) q ≡ mrif_in words q }
    ensures none_pending_above { (words : List ℕ) (q i : ℕ) → IDENTITIES < i
        → (mrif_in words q).pending i ≡ false }
    ensures none_enabled_above { (words : List ℕ) (q i : ℕ) → IDENTITIES < i
        → (mrif_in words q).enabled i ≡ false }
{}
