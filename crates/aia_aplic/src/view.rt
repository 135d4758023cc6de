ghost use Rattle.std.specs.Prelude.{◌≡◌, ℕ, ◌+◌, ◌*◌, ◌<◌};
ghost use Rattle.aia_word.specs.Sets.{word_of};
ghost use Rattle.aia_domain.specs.Domain.{is_ready};
ghost use Rattle.aia_aplic_values.specs.Aplic.{side};
ghost use Rattle.aia_aplic_values.specs.Bits.{AreSources};

use crate::aplic::Aplic;
use crate::bits::Bits;
use aia_model::DomainName;
use aia_word::Steps;
use std::sync::ledger::Ledger;

/// The sources that the domains of an APLIC are to forward, with a count of the looks at them: each
/// look is a step.
#[derive(Drop)]
pub(crate) struct ReadyView<'a, L: Ledger> {
    pub(crate) aplic: &'a Aplic,
    pub(crate) steps: &'a mut Steps<L>,
}

impl<L: Ledger> Bits for ReadyView<'_, L> {
    ghost use Rattle.std.specs.Prelude.{◌≡◌, ◌+◌};
    ghost use Rattle.std.proofs.Common.{◌∙◌, refl};
    ghost use Rattle.aia_domain.specs.Domain.{is_ready};
    ghost use Rattle.aia_aplic_values.specs.Aplic.{side};

    ghost members = { λ v name. is_ready (side v.aplic.now name).domain };

    ghost count = { λ v. v.steps.now };

    ghost IsSamePlace = { λ v w. w.steps.ghost_name ≡ v.steps.ghost_name };

    fn word(&mut self, name: DomainName, k: u32) -> u64 {
        self.steps.count_one();
        self.aplic.ready_word(name, k)
    }

    ghost same_place_begins = { λ a. refl };

    ghost same_place_follows = { λ a b c first second. second ∙ first };
}
