ghost use Rattle.std.specs.Prelude.{◌≡◌, ℕ, ◌+◌, ◌*◌, ◌/◌, ◌%◌, ◌<◌, Bool, false, ◌||◌, nat_eq, if◌then◌else◌};
ghost use Rattle.aia_word.specs.Sets.{has_bit};

/// A place that keeps which identities are pending and which are enabled, reached by words: word
/// `k` of a set shows the identities `64 * k` to `64 * k + 63`, and there is no identity 0.
pub trait Bank {
    ghost pending: { Self → ℕ → Bool };

    ghost enabled: { Self → ℕ → Bool };

    ghost width: { Self → ℕ };

    /// Gives how many words each of the two sets has.
    fn words(&self) -> usize
        ensures { result ≡ width self.now };

    /// Makes `v` word `k`, one of its words, of the pending set, and gives what stood there.
    fn swap_pending(&mut self, k: usize, v: u64) -> u64
        requires word { k < width self.old }
        requires no_zero { k ≡ 0 → has_bit v 0 ≡ false }
        ensures stood { (b : ℕ) → b < 64
            → has_bit result b ≡ pending self.old (64 * k + b) }
        ensures after { (i : ℕ) → pending self.new i
            ≡ (if nat_eq (i / 64) k then has_bit v (i % 64) else pending self.old i) }
        ensures others { (i : ℕ) → enabled self.new i ≡ enabled self.old i }
        ensures width { width self.new ≡ width self.old };

    /// Makes the identities pending that `v` shows as word `k`, one of its words; those that were
    /// pending stay so.
    fn or_pending(&mut self, k: usize, v: u64)
        requires word { k < width self.old }
        requires no_zero { k ≡ 0 → has_bit v 0 ≡ false }
        ensures after { (i : ℕ) → pending self.new i
            ≡ (if nat_eq (i / 64) k then (pending self.old i || has_bit v (i % 64))
            else pending self.old i) }
        ensures others { (i : ℕ) → enabled self.new i ≡ enabled self.old i }
        ensures width { width self.new ≡ width self.old };

    /// Makes `v` word `k`, one of its words, of the enabled set, and gives what stood there.
    fn swap_enable(&mut self, k: usize, v: u64) -> u64
        requires word { k < width self.old }
        requires no_zero { k ≡ 0 → has_bit v 0 ≡ false }
        ensures stood { (b : ℕ) → b < 64
            → has_bit result b ≡ enabled self.old (64 * k + b) }
        ensures after { (i : ℕ) → enabled self.new i
            ≡ (if nat_eq (i / 64) k then has_bit v (i % 64) else enabled self.old i) }
        ensures others { (i : ℕ) → pending self.new i ≡ pending self.old i }
        ensures width { width self.new ≡ width self.old };
}
