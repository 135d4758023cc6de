ghost use Rattle.std.specs.Prelude.{◌≡◌, ℕ, ◌+◌, ◌*◌, ◌<◌, ◌≤◌, Bool, Option, IfSome};
ghost use Rattle.aia_model.specs.declared.domain_name.DomainName.{DomainName};
ghost use Rattle.aia_model.specs.declared.domain_name.DomainName.TheVariants.{Root, Child};
ghost use Rattle.aia_word.specs.Sets.{has_bit, word_of};
ghost use Rattle.aia_aplic_values.specs.Bits.{IsFirstSource, AreSources};
ghost use Rattle.aia_regs.specs.declared.limits.TheConstants.{SOURCE_WORDS};

use aia_model::DomainName;
use aia_regs::limits::SOURCE_WORDS;
use aia_word::least_one;

/// The sources that the root domain and its child are to forward, which can be read by counted
/// looks at words of 64 sources alone.
pub trait Bits {
    ghost members: { Self → DomainName → ℕ → Bool };

    ghost count: { Self → ℕ };

    ghost IsSamePlace: { Self → Self → Type 0 };

    /// Looks at word `k` of a domain's set, which has the sources `64 * k` to `64 * k + 63`.
    fn word(&mut self, name: DomainName, k: u32) -> u64
        requires { k < SOURCE_WORDS }
        ensures word { result ≡ word_of (members self.old name) (64 * k) 64 }
        ensures range { AreSources (members self.old name) }
        ensures members { members self.new ≡ members self.old }
        ensures count { count self.new ≡ count self.old + 1 }
        ensures same_place { IsSamePlace self.old self.new };

    ghost same_place_begins: { (a : Self) → IsSamePlace a a };

    ghost same_place_follows: { (a b c : Self) → IsSamePlace a b → IsSamePlace b c
        → IsSamePlace a c };
}

/// Gives the domain and the number of the least source of the two sets, at the same number the root
/// domain's; `None` exactly where both are empty. It takes at least 2 looks, and at most as many as
/// both sets have words.
pub fn bits_search<T: Bits>(bits: &mut T) -> Option<(DomainName, u32)>
    ensures first { IsFirstSource (T.members bits.old Root) (T.members bits.old Child) result }
    ensures members { T.members bits.new ≡ T.members bits.old }
    ensures two_at_least { T.count bits.old + 2 ≤ T.count bits.new }
    ensures few { T.count bits.new ≤ T.count bits.old + 2 * SOURCE_WORDS }
    ensures same_place { T.IsSamePlace bits.old bits.new }
{
    for k in 0..SOURCE_WORDS as u32 {
        let (first, second) = both_words(bits, k);
        if let Some((name, bit)) = first_of_words(first, second) {
            return Some((name, 64 * k + bit));
        }
    }
    None
}

/// Looks at word `k` of both sets, the root domain's first.
fn both_words<T: Bits>(bits: &mut T, k: u32) -> (u64, u64)
    requires { k < SOURCE_WORDS }
    ensures first { result.0 ≡ word_of (T.members bits.old Root) (64 * k) 64 }
    ensures second { result.1 ≡ word_of (T.members bits.old Child) (64 * k) 64 }
    ensures first_range { AreSources (T.members bits.old Root) }
    ensures second_range { AreSources (T.members bits.old Child) }
    ensures members { T.members bits.new ≡ T.members bits.old }
    ensures count { T.count bits.new ≡ T.count bits.old + 2 }
    ensures same_place { T.IsSamePlace bits.old bits.new }
{
    let first = bits.word(DomainName::Root, k);
    let second = bits.word(DomainName::Child, k);
    (first, second)
}

/// Gives the domain and the bit of the lowest one of a word of the root domain and one of its
/// child, at the same bit the root domain's; `None` where both words are 0.
fn first_of_words(first: u64, second: u64) -> Option<(DomainName, u32)>
    ensures first { IsFirstSource (has_bit first) (has_bit second) result }
    ensures small { IfSome result (λ found. found.1 < 64) }
{
    match (least_one(first), least_one(second)) {
        (None, None) => None,
        (Some(bit), None) => Some((DomainName::Root, bit)),
        (None, Some(other)) => Some((DomainName::Child, other)),
        (Some(bit), Some(other)) => {
            if bit <= other {
                Some((DomainName::Root, bit))
            } else {
                Some((DomainName::Child, other))
            }
        }
    }
}
