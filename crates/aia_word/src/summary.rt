//! Summaries of sets: 64 bits, each of which tells of one word of a set.

ghost use Rattle.std.specs.Prelude.{ℕ, ◌<◌, Bool};
ghost use Rattle.aia_word.specs.Summary.{Summarizes, SummarizesAllBut, ShowsWord};

/// Gives the summary of a set that `word` shows at word `k`, where all bits but `k` of `summary`
/// tell of it already.
pub fn refreshed(summary: u64, k: u32, word: u64) -> u64
    requires { k < 64 }
    ensures { (members : ℕ → Bool) → ShowsWord word members k → SummarizesAllBut k summary members
        → Summarizes result members }
{
    if word == 0 {
        summary & !(1 << k)
    } else {
        summary | (1 << k)
    }
}
