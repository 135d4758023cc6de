ghost use Rattle.std.specs.Prelude.{◌≡◌, ℕ, ◌+◌, ◌*◌, ◌/◌, ◌<◌, ◌≤◌};
ghost use Rattle.aia_word.specs.Sets.{is_in, word_of};

use crate::file::File;
use crate::looks::Looks;
use aia_word::Steps;
use std::sync::ledger::Ledger;

/// A file with a count of the looks at it: each look is a step.
#[derive(Drop)]
pub(crate) struct View<'a, L: Ledger> {
    pub(crate) file: &'a File,
    pub(crate) steps: &'a mut Steps<L>,
}

impl<L: Ledger> Looks for View<'_, L> {
    ghost use Rattle.std.specs.Prelude.{◌≡◌, ◌+◌, ◌/◌};
    ghost use Rattle.std.proofs.Common.{◌∙◌};
    ghost use Rattle.aia_word.specs.Sets.{is_in};

    ghost width = { λ v. (v.file.now.n + 1) / 64 };

    ghost pending = { λ v. is_in v.file.now.pending };

    ghost enabled = { λ v. is_in v.file.now.enabled };

    ghost count = { λ v. v.steps.now };

    ghost IsSamePlace = { λ v w. w.steps.ghost_name ≡ v.steps.ghost_name };

    fn summary(&mut self) -> u64 {
        self.steps.count_one();
        self.file.summary()
    }

    fn pair(&mut self, k: u32) -> (u64, u64) {
        self.steps.count_one();
        self.file.pair(k)
    }

    ghost same_place_follows = { λ a b c first second. second ∙ first };
}
