ghost use Rattle.std.specs.Prelude.{◌≡◌, ℕ, ◌*◌, ◌<◌, Bool, length};
ghost use Rattle.aia_word.specs.Sets.{is_in, word_of};
ghost use Rattle.aia_file.specs.Summary.{SummarizesBoth, SummarizesBothAllBut};
ghost use Rattle.aia_regs.specs.declared.limits.TheConstants.{FILE_WORDS};

use aia_word::sets;

/// Gives the summary of two sets that have word `k`, where all its bits but `k` tell of them
/// already.
#[inline(always)]
pub(crate) fn refreshed(summary: u64, pending: &[u64], enabled: &[u64], k: usize) -> u64
    requires word { k < FILE_WORDS }
    requires pending { k < length pending.now }
    requires enabled { k < length enabled.now }
    requires others { SummarizesBothAllBut k summary (is_in pending.now) (is_in enabled.now) }
    ensures { SummarizesBoth result (is_in pending.now) (is_in enabled.now) }
{
    let pending_word = sets::word_there(pending, k);
    refreshed_by(summary, pending_word, sets::word_there(enabled, k), k)
}

/// Gives it of two sets that may lack word `k`, one below `FILE_WORDS`.
pub(crate) fn refreshed_anywhere(summary: u64, pending: &[u64], enabled: &[u64], k: usize) -> u64
    requires word { k < FILE_WORDS }
    requires others { SummarizesBothAllBut k summary (is_in pending.now) (is_in enabled.now) }
    ensures { SummarizesBoth result (is_in pending.now) (is_in enabled.now) }
{
    refreshed_by(summary, sets::word(pending, k), sets::word(enabled, k), k)
}

/// Gives it, of the words `k` of both sets.
#[inline(always)]
fn refreshed_by(summary: u64, pending: u64, enabled: u64, k: usize) -> u64
    requires { k < FILE_WORDS }
    ensures { (p e : ℕ → Bool) → pending ≡ word_of p (64 * k) 64 → enabled ≡ word_of e (64 * k) 64
        → SummarizesBothAllBut k summary p e → SummarizesBoth result p e }
{
    aia_word::refreshed(summary, k as u32, pending & enabled)
}
