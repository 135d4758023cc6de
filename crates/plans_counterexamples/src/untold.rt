//! A run of a plan after which the host was not told.

ghost use Rattle.std.specs.Prelude.{◌≡◌, ◌<◌, ◌/◌, ◌&&◌, List, length, true, IfSome};
ghost use Rattle.plans_rules.specs.Setting.{setting_of};
ghost use Rattle.plans_counterexamples.specs.Untold.{IsWatched, LeavesUntold, can_come, can_store, is_spot, is_unstored, is_untold, producer_of, trace_from, untold_end, watch_begun, watch_end, watch_extra, watch_stored};
ghost use Rattle.plans_counterexamples.specs.UntoldSearch.{tried_untold};

use crate::trace::{StoreRoute, Trace};
use crate::watch::Watch;
use plans_rules::{AnyPlace, AnyStep, NumberSpot, RouteKind, Terms};

/// The one store that comes between the steps of a run: whose it is, how many steps are before it,
/// and its route. It lands at once.
#[derive(Clone, Copy, Debug, PartialEq, Eq)]
pub struct Store {
    pub producer: usize,
    pub before: usize,
    pub route: StoreRoute,
}

/// A run of a plan after which an identity stands out in the new place, and the host was not told.
///
/// The identity is enabled in the old place at the start.
#[derive(Clone, Copy, Debug, PartialEq, Eq)]
pub struct UntoldRun {
    pub identity: u64,

    /// The store that asks for the identity. `None`: it is pending in the old place at the start.
    pub store: Option<Store>,

    /// Where delivery is 1 at the start; it is 0 elsewhere.
    pub delivery: NumberSpot,

    /// Where the threshold is 0 at the start; it is 1 elsewhere, which lets none through but
    /// identity 0. `None`: it is 1 everywhere.
    pub threshold: Option<NumberSpot>,
}

/// Tells whether a spot is this one.
fn is_spot(at: Option<NumberSpot>, spot: NumberSpot) -> bool
    ensures { result ≡ is_spot at spot }
{
    match at {
        None => false,
        Some(at) => at == spot,
    }
}

/// Gives what is followed of a bit at the start, and of a number.
fn trace_from(is_there: bool, old_number: bool, hand_number: bool, new_number: bool) -> Trace
    ensures { result ≡ trace_from is_there old_number hand_number new_number }
{
    Trace {
        old: is_there,
        new: false,
        hand: false,
        due: is_there,
        old_number,
        new_number,
        hand_number,
        written: AnyPlace::Old,
        in_force: AnyPlace::Old,
        paused: false,
        flight: None,
        freed: false,
        strayed: false,
    }
}

/// Tells whose store it is; no plan has a producer of the greatest number.
fn producer_of(store: Option<Store>) -> usize
    ensures { result ≡ producer_of store }
{
    match store {
        None => usize::MAX,
        Some(store) => store.producer,
    }
}

/// Tells whether there can be a store, where there are so many producers.
fn can_store(store: Option<Store>, producers: usize) -> bool
    ensures { result ≡ can_store store producers }
{
    match store {
        None => true,
        Some(store) => store.producer < producers,
    }
}

impl UntoldRun {
    /// Gives what is followed at the start.
    fn begun(self, terms: Terms) -> Watch
        ensures { result ≡ watch_begun terms self }
    {
        let is_there = match self.store {
            None => true,
            Some(_) => false,
        };
        Watch {
            pending: trace_from(
                is_there,
                !is_spot(self.threshold, NumberSpot::InOld),
                !is_spot(self.threshold, NumberSpot::InHand),
                !is_spot(self.threshold, NumberSpot::InNew),
            ),
            enabled: trace_from(
                true,
                self.delivery == NumberSpot::InOld,
                self.delivery == NumberSpot::InHand,
                self.delivery == NumberSpot::InNew,
            ),
            noticed: terms.notices_go,
            seen: false,
            told: false,
        }
    }

    /// Gives what the store makes of what is followed, where it comes with so many steps before it.
    fn extra(self, terms: Terms, watch: Watch, before_it: usize) -> Watch
        ensures { result ≡ watch_extra terms self before_it watch }
    {
        match self.store {
            None => watch,
            Some(store) => {
                if store.before == before_it {
                    watch.made(terms, self.identity, store.producer, store.route)
                } else {
                    watch
                }
            }
        }
    }

    /// Tells whether there can be such a run.
    fn can_come(self, terms: Terms, producers: &[RouteKind]) -> bool
        ensures { result ≡ can_come self terms producers.now }
    {
        self.identity / 64 < terms.words as u64 && can_store(self.store, producers.len())
    }

    /// Gives what is followed at the end of the run of a plan.
    fn end(self, terms: Terms, plan: &[AnyStep]) -> Watch
        ensures exact { result ≡ watch_end terms plan.now self }
        ensures follows { (producers : List RouteKind) → self.identity / 64 < terms.words
            → IsWatched self result (untold_end (setting_of producers terms) plan.now self) }
    {
        let producer = producer_of(self.store);
        let mut watch = self.begun(terms);
        for at in 0..plan.len() {
            let reached = self.extra(terms, watch, at);
            watch = reached.after(terms, self.identity, producer, plan[at]);
        }
        self.extra(terms, watch, plan.len())
    }

    /// Tells whether the host was not told of the identity, which stands out.
    fn is_untold(self, terms: Terms, watch: Watch) -> bool
        ensures { result ≡ is_untold terms self watch }
    {
        watch.is_out(terms, self.identity) && !watch.told
    }

    /// Tells whether a plan has this run, and it leaves the host untold.
    fn leaves_untold(self, producers: &[RouteKind], terms: Terms, plan: &[AnyStep]) -> bool
        ensures exact { result ≡ (can_come self terms producers.now
            && is_untold terms self (watch_end terms plan.now self)) }
        ensures untold { result ≡ true
            → LeavesUntold (setting_of producers.now terms) plan.now self }
    {
        self.can_come(terms, producers) && self.is_untold(terms, self.end(terms, plan))
    }

    /// Gives this run, if a plan has it and it leaves the host untold. `None`: it has it not, or
    /// nothing stands out, or the host was told.
    #[tactic(auto, unfolding(crate::specs::UntoldSearch::tried_untold))]
    pub(crate) fn tried(
        self,
        producers: &[RouteKind],
        terms: Terms,
        plan: &[AnyStep],
    ) -> Option<UntoldRun>
        ensures exact { result ≡ tried_untold producers.now terms plan.now self }
        ensures untold { IfSome result
            (λ run. LeavesUntold (setting_of producers.now terms) plan.now run) }
    {
        if self.leaves_untold(producers, terms, plan) {
            Some(self)
        } else {
            None
        }
    }
}
