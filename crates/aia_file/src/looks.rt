ghost use Rattle.std.specs.Prelude.{◌≡◌, ℕ, ◌+◌, ◌-◌, ◌*◌, ◌<◌, ◌≤◌, Bool, ◌&&◌, IfSome};
ghost use Rattle.aia_word.specs.Sets.{has_bit, word_of, least_of};
ghost use Rattle.aia_word.specs.Top.{top_identity, top_value, lets_through};
ghost use Rattle.aia_regs.specs.declared.limits.TheConstants.{IDENTITIES, FILE_WORDS};
ghost use Rattle.aia_file.specs.Summary.{SummarizesBoth, AreIdentities};

use aia_word::least_one;

/// Two sets of identities, pending and enabled, which can be read by counted looks alone. They have
/// `width` words of 64 identities, 1 to `FILE_WORDS`, and so the identities 1 to 64 * `width` - 1.
pub trait Looks {
    ghost width: { Self → ℕ };

    ghost pending: { Self → ℕ → Bool };

    ghost enabled: { Self → ℕ → Bool };

    ghost count: { Self → ℕ };

    ghost IsSamePlace: { Self → Self → Type 0 };

    /// Looks which words hold an identity that is in both sets: bit `k` is a one exactly where one
    /// from 64 * `k` to 64 * `k` + 63 is.
    fn summary(&mut self) -> u64
        ensures summary { SummarizesBoth result (pending self.old) (enabled self.old) }
        ensures some { 1 ≤ width self.old }
        ensures few { width self.old ≤ FILE_WORDS }
        ensures pending_range { AreIdentities (width self.old) (pending self.old) }
        ensures enabled_range { AreIdentities (width self.old) (enabled self.old) }
        ensures width { width self.new ≡ width self.old }
        ensures pending { pending self.new ≡ pending self.old }
        ensures enabled { enabled self.new ≡ enabled self.old }
        ensures count { count self.new ≡ count self.old + 1 }
        ensures same_place { IsSamePlace self.old self.new };

    /// Looks at word `k`, one of its words, of both sets: gives the pending and the enable word.
    fn pair(&mut self, k: u32) -> (u64, u64)
        requires { k < width self.old }
        ensures pending_word { result.0 ≡ word_of (pending self.old) (64 * k) 64 }
        ensures enable_word { result.1 ≡ word_of (enabled self.old) (64 * k) 64 }
        ensures width { width self.new ≡ width self.old }
        ensures pending { pending self.new ≡ pending self.old }
        ensures enabled { enabled self.new ≡ enabled self.old }
        ensures count { count self.new ≡ count self.old + 1 }
        ensures same_place { IsSamePlace self.old self.new };

    ghost same_place_follows: { (a b c : Self) → IsSamePlace a b → IsSamePlace b c
        → IsSamePlace a c };
}

/// Gives what a topei register shows of the two sets at a threshold: the identity on top twice, in
/// bits 26:16 and 10:0; 0 where there is none. It takes one look or two, however many words there
/// are.
pub fn search<T: Looks>(looks: &mut T, threshold: u64) -> u64
    ensures top { result ≡ top_value (top_identity (64 * T.width looks.old - 1)
        (T.pending looks.old) (T.enabled looks.old) threshold) }
    ensures width { T.width looks.new ≡ T.width looks.old }
    ensures pending { T.pending looks.new ≡ T.pending looks.old }
    ensures enabled { T.enabled looks.new ≡ T.enabled looks.old }
    ensures one_at_least { T.count looks.old + 1 ≤ T.count looks.new }
    ensures two_at_most { T.count looks.new ≤ T.count looks.old + 2 }
    ensures same_place { T.IsSamePlace looks.old looks.new }
{
    match least_one(looks.summary()) {
        Some(k) => {
            let (pending, enabled) = looks.pair(k);
            topei(first_in_word(k, pending & enabled, threshold))
        }
        None => 0,
    }
}

/// Gives the least of the identities of word `k`, below `FILE_WORDS`, that `live` shows, where the
/// threshold lets it through; `None` where it holds that one back, or where there is none.
fn first_in_word(k: u32, live: u64, threshold: u64) -> Option<u32>
    requires { k < FILE_WORDS }
    ensures first { result ≡ least_of
        (λ i. has_bit live (i - 64 * k) && lets_through threshold i) (64 * k) 64 }
    ensures small { IfSome result (λ identity. identity ≤ IDENTITIES) }
{
    let least = 64 * k + least_one(live)?;
    if lets_through(threshold, least) {
        Some(least)
    } else {
        None
    }
}

/// Tells whether the threshold lets the identity through.
fn lets_through(threshold: u64, identity: u32) -> bool
    ensures { result ≡ lets_through threshold identity }
{
    threshold == 0 || u64::from(identity) < threshold
}

/// Gives what a topei register reads, by the identity on top.
fn topei(top: Option<u32>) -> u64
    requires { IfSome top (λ identity. identity ≤ IDENTITIES) }
    ensures { result ≡ top_value top }
{
    match top {
        Some(identity) => u64::from(identity) * 0x1_0000 + u64::from(identity),
        None => 0,
    }
}
