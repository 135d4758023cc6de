ghost use Rattle.std.specs.Prelude.{◌≡◌, ℕ, ◌+◌, ◌*◌, ◌/◌, ◌<◌, ◌≤◌, IsTrue};
ghost use Rattle.aia_word.specs.Sets.{has_bit, word_of};
ghost use Rattle.aia_file.specs.InterruptFile.{is_greatest_identity, is_live};
ghost use Rattle.aia_file.specs.Summary.{SummarizesBoth};
ghost use Rattle.aia_file.specs.Mrif.{mrif_in};
ghost use Rattle.aia_file.specs.Words.{HasSlot};
ghost use Rattle.aia_file.specs.SlotFile.{slot_file};

use crate::access::shown;
use aia_file::Looks;
use aia_ram::Ram;
use aia_regs::FileReg;
use aia_word::Steps;
use std::sync::ledger::Ledger;

/// The sets of a slot, as those of a file of the identities 1 to `n`, with a summary of them and a
/// count of the looks at it: each look is a step.
#[derive(Drop)]
pub(crate) struct View<'a, 's, L: Ledger> {
    pub(crate) ram: &'a Ram,
    pub(crate) q: u32,
    pub(crate) n: u32,
    pub(crate) summary: u64,
    pub(crate) steps: &'s mut Steps<L>,
    ghost there: { HasSlot ram.now q },
    ghost greatest: { IsTrue (is_greatest_identity n) },
    ghost summarizes: { (w : ℕ) → w < 64 → has_bit summary w
        ≡ is_live (slot_file n 0 (mrif_in ram.now q)) w },
}

impl<L: Ledger> Looks for View<'_, '_, L> {
    ghost use Rattle.std.specs.Prelude.{◌≡◌, ◌+◌, ◌/◌};
    ghost use Rattle.std.proofs.Common.{◌∙◌};
    ghost use Rattle.aia_file.specs.Mrif.{mrif_in};
    ghost use Rattle.aia_file.specs.SlotFile.{slot_file};

    ghost width = { λ v. (v.n + 1) / 64 };

    ghost pending = { λ v. (slot_file v.n 0 (mrif_in v.ram.now v.q)).pending };

    ghost enabled = { λ v. (slot_file v.n 0 (mrif_in v.ram.now v.q)).enabled };

    ghost count = { λ v. v.steps.now };

    ghost IsSamePlace = { λ v w. w.steps.ghost_name ≡ v.steps.ghost_name };

    #[tactic(auto, unfolding(aia_word::specs::Summary::Summarizes))]
    fn summary(&mut self) -> u64 {
        self.steps.count_one();
        self.summary
    }

    fn pair(&mut self, k: u32) -> (u64, u64) {
        self.steps.count_one();
        pair(self.ram, self.q, self.n, k)
    }

    ghost same_place_follows = { λ a b c first second. second ∙ first };
}

/// Goes over the pairs of words of slot `q` that a file of the identities 1 to `n` has, and gives
/// the summary of its sets. It counts a step for each pair.
pub(crate) fn summary<L: Ledger>(ram: &Ram, q: u32, n: u32, steps: &mut Steps<L>) -> u64
    requires slot { HasSlot ram.now q }
    requires greatest { IsTrue (is_greatest_identity n) }
    ensures summary { SummarizesBoth result (slot_file n 0 (mrif_in ram.now q)).pending
        (slot_file n 0 (mrif_in ram.now q)).enabled }
    ensures count { steps.new ≡ steps.old + (n + 1) / 64 }
{
    let mut summary = 0;
    for k in 0..(n + 1) / 64 {
        steps.count_one();
        let (pending, enabled) = pair(ram, q, n, k);
        if pending & enabled != 0 {
            summary |= 1 << k;
        }
    }
    summary
}

/// Looks at pair `k` of the words of slot `q`, as those of a file of the identities 1 to `n`: gives
/// the pending and the enable word.
fn pair(ram: &Ram, q: u32, n: u32, k: u32) -> (u64, u64)
    requires slot { HasSlot ram.now q }
    requires greatest { IsTrue (is_greatest_identity n) }
    requires word { k < (n + 1) / 64 }
    ensures pending_word { result.0
        ≡ word_of (slot_file n 0 (mrif_in ram.now q)).pending (64 * k) 64 }
    ensures enable_word { result.1
        ≡ word_of (slot_file n 0 (mrif_in ram.now q)).enabled (64 * k) 64 }
{
    let pending = shown(ram, q, FileReg::Pending(2 * k), n);
    let enabled = shown(ram, q, FileReg::Enable(2 * k), n);
    (pending, enabled)
}
