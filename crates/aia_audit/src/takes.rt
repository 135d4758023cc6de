//! The steps that take and put words of a set: parts 2 to 4 of the rule.

ghost use Rattle.std.specs.Prelude.{◌≡◌, ◌<◌, ◌≤◌, ◌||◌, ◌&&◌, ℕ, Bool, Option, None, IfSome, [], ◌∷◌};
ghost use Rattle.aia_word.specs.Sets.{has_bit, word_of};
ghost use Rattle.aia_plan.specs.Plan.{WrittenPlan};
ghost use Rattle.aia_plan.specs.Rule.{names, is_same, are_paired, all_below};
ghost use Rattle.aia_audit.specs.Behind.{may_take, is_taken, all_may_take, takes_behind};
ghost use Rattle.aia_regs.specs.declared.limits.TheConstants.{FILE_WORDS};

use aia_plan::Step;

/// Which words of a set the steps after a step of a plan take and put.
#[derive(Clone, Copy)]
pub struct Takes {
    /// Bit `w` is a one where word `w` is taken.
    taken: u32,
    /// None is taken twice, or too early.
    in_order: bool,
    /// The word that the first of those steps puts.
    put: Option<u32>,
    /// Each word that is taken is put by the next step, and no other step but the first puts one.
    is_paired: bool,
}

/// Tells whether bit `word` of a mask is a one.
fn has(mask: u32, word: u32) -> bool
    requires { word < FILE_WORDS }
    ensures { result ≡ has_bit mask word }
{
    mask >> word & 1 == 1
}

/// Tells whether two words are one, or neither is there.
fn is_same(one: Option<u32>, other: Option<u32>) -> bool
    ensures { result ≡ is_same one other }
{
    match (one, other) {
        (None, None) => true,
        (Some(one), Some(other)) => one == other,
        _ => false,
    }
}

impl Takes {
    /// Gives what stands after the last step of a plan: nothing.
    #[tactic(auto, unfolding(aia_word::specs::Sets::word_of))]
    pub fn none() -> Takes
        ensures { (takes puts : Step → Option ℕ) (may : WrittenPlan → Bool)
            → result ≡ takes_behind takes puts may [] }
    {
        Takes {
            taken: 0,
            in_order: true,
            put: None,
            is_paired: true,
        }
    }

    /// Gives the words that are taken where one more is, or none.
    #[tactic(auto, using(crate::proofs::TakesLemmas::word_set))]
    fn taken_with(self, taken: Option<u32>) -> u32
        requires { IfSome taken (λ w. w < FILE_WORDS) }
        ensures { (members : ℕ → Bool) → self.taken ≡ word_of members 0 FILE_WORDS
            → result ≡ word_of (λ w. names taken w || members w) 0 FILE_WORDS }
    {
        match taken {
            None => self.taken,
            Some(word) => self.taken | 1 << word,
        }
    }

    /// Tells whether a word, if one is taken, may be taken before the steps after it: they let one
    /// be taken, and do not take it too.
    fn lets_take(self, taken: Option<u32>, may: bool) -> bool
        requires { IfSome taken (λ w. w < FILE_WORDS) }
        ensures { result ≡ may_take taken may (has_bit self.taken) }
    {
        match taken {
            None => true,
            Some(word) => may && !has(self.taken, word),
        }
    }

    /// Gives what stands after the step before one that takes a word or puts one, or neither;
    /// where it takes one, `may` tells whether a word may be taken before the steps after it.
    #[tactic(auto, using(crate::proofs::TakesLemmas::may_take_bits))]
    pub fn with(self, taken: Option<u32>, put: Option<u32>, may: bool) -> Takes
        requires { IfSome taken (λ w. w < FILE_WORDS) }
        ensures { (takes puts : Step → Option ℕ) (may_be : WrittenPlan → Bool) (x : Step)
            (later : WrittenPlan)
            → taken ≡ takes x → put ≡ puts x → may ≡ may_be later
            → self ≡ takes_behind takes puts may_be later
            → result ≡ takes_behind takes puts may_be (x ∷ later) }
    {
        Takes {
            taken: self.taken_with(taken),
            in_order: self.lets_take(taken, may) && self.in_order,
            put,
            is_paired: is_same(taken, self.put) && self.is_paired,
        }
    }

    /// Tells whether each of `words` words is taken.
    #[tactic(auto, using(crate::proofs::TakesLemmas::below_fails))]
    fn are_all_taken(self, words: u32) -> bool
        requires { words ≤ FILE_WORDS }
        ensures { result ≡ all_below (has_bit self.taken) words }
    {
        for word in 0..words {
            if !has(self.taken, word) {
                return false;
            }
        }
        true
    }

    /// Tells whether each of `words` words is taken in a plan, once and not too early; this is all
    /// that stands in it.
    #[tactic(auto, using(crate::proofs::TakesLemmas::taken_bits))]
    pub fn are_taken(self, words: u32) -> bool
        requires { words ≤ FILE_WORDS }
        ensures { (takes puts : Step → Option ℕ) (may : WrittenPlan → Bool) (plan : WrittenPlan)
            → self ≡ takes_behind takes puts may plan
            → result ≡ (all_below (λ w. is_taken takes w plan) words
            && all_may_take takes may plan) }
    {
        self.are_all_taken(words) && self.in_order
    }

    /// Tells whether each word that is taken in a plan is put at once, and no other is put; this is
    /// all that stands in it.
    #[tactic(auto, using(crate::proofs::TakesLemmas::paired_behind))]
    pub fn are_put(self) -> bool
        ensures { (takes puts : Step → Option ℕ) (may : WrittenPlan → Bool) (plan : WrittenPlan)
            → self ≡ takes_behind takes puts may plan
            → result ≡ are_paired takes puts None plan }
    {
        is_same(None, self.put) && self.is_paired
    }
}
