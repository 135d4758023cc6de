ghost use Rattle.std.specs.Prelude.{◌≡◌, ◌+◌, All, slice_get};
ghost use Rattle.aia_domain.specs.Order.{IsRising};
ghost use Rattle.aia_domain.specs.Domain.{candidates, IsPairOfSource};

use crate::front::Front;
use aia_domain::Domain;
use aia_word::Steps;
use std::sync::ledger::Ledger;

/// The candidates of a hart in a domain, with a count of the looks at them: each look is a step.
#[derive(Drop)]
pub(crate) struct HartFront<'a, L: Ledger> {
    pub(crate) domain: &'a Domain,
    pub(crate) hart: u32,
    pub(crate) steps: &'a mut Steps<L>,
}

impl<L: Ledger> Front for HartFront<'_, L> {
    ghost use Rattle.std.specs.Prelude.{◌≡◌, ◌+◌};
    ghost use Rattle.std.proofs.Common.{◌∙◌};
    ghost use Rattle.aia_domain.specs.Domain.{candidates};

    ghost pairs = { λ v. candidates v.domain.now v.hart };

    ghost count = { λ v. v.steps.now };

    ghost IsSamePlace = { λ v w. w.steps.ghost_name ≡ v.steps.ghost_name };

    fn at(&mut self, place: usize) -> Option<(u32, u32)> {
        self.steps.count_one();
        self.domain.candidate(self.hart, place)
    }

    ghost same_place_follows = { λ a b c first second. second ∙ first };
}
