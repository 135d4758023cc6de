//! What the definitions of this crate mean, as laws: each function does nothing, and its clauses
//! are what was proved.

ghost use Rattle.std.specs.Prelude.{◌≡◌, ℕ, ◌/◌, ◌%◌, ◌^◌, ◌<◌, ◌++◌, List, length, slice_index};
ghost use Rattle.aia_ram.specs.Words.{word_in, bytes_in};

/// A word has eight bytes, of which byte `b` is its bits `8 * b` to `8 * b + 7`, and eight bytes
/// that begin a row are read as the word that they are of.
#[tactic(auto, using(crate::proofs::RamLemmas::byte_of_word, crate::proofs::RamLemmas::bytes_of_word, crate::proofs::RamLemmas::first_written))]
pub fn words_are_little_endian()
    ensures bytes { (v b : ℕ) → b < 8 → slice_index (bytes_in v) b ≡ v / 256 ^ b % 256 }
    ensures length { (v : ℕ) → length (bytes_in v) ≡ 8 }
    ensures read { (v : ℕ) (rest : List ℕ) → v < 2 ^ 64 → word_in (bytes_in v ++ rest) ≡ v }
{}
