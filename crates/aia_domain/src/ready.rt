ghost use Rattle.std.specs.Prelude.{◌≡◌};
ghost use Rattle.aia_domain.specs.Domain.{ready_from};

use crate::domain::Domain;

/// The sources of a domain that are to be forwarded, in rising order.
#[derive(Drop)]
pub struct Ready<'a> {
    domain: &'a Domain,
    at: u32,
}

impl<'a> Ready<'a> {
    pub(crate) fn new(domain: &'a Domain) -> Ready<'a>
        ensures { ready_from result.domain.now result.at ≡ ready_from domain.now 0 }
    {
        Ready { domain, at: 0 }
    }
}

impl<'a> Iterator for Ready<'a> {
    ghost use Rattle.std.specs.Iterator.{YieldsFirst, item_count};
    ghost use Rattle.aia_domain.specs.Domain.{ready_from};

    type Item = u32;

    ghost next_gives = { YieldsFirst (λ r. ready_from r.domain.now r.at) };

    ghost remaining = { item_count (λ r. ready_from r.domain.now r.at) };

    #[tactic(auto, using(crate::proofs::ReadyLemmas::ready_lemmas))]
    fn next(&mut self) -> Option<u32> {
        let domain = self.domain;
        let end = domain.places();
        while self.at < end {
            let s = self.at;
            self.at += 1;
            if domain.is_ready(s) {
                return Some(s);
            }
        }
        None
    }
}
