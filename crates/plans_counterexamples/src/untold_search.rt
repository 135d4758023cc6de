//! A run that leaves the host untold is looked for, among those with one store at most.

ghost use Rattle.std.specs.Prelude.{◌≡◌, IfSome, length};
ghost use Rattle.plans_rules.specs.Setting.{setting_of};
ghost use Rattle.plans_counterexamples.specs.Search.{first_of};
ghost use Rattle.plans_counterexamples.specs.Untold.{LeavesUntold};
ghost use Rattle.plans_counterexamples.specs.UntoldSearch.{is_small, stored_before, stored_by, untold_of, untold_run_of, untold_word, with_delivery, untold_with_numbers};

use crate::limits::{SMALL_PRODUCERS, SMALL_STEPS, SMALL_WORDS};
use crate::trace::StoreRoute;
use crate::untold::{Store, UntoldRun};
use plans_rules::{AnyStep, NumberSpot, RouteKind, Terms};

/// Makes a run of the second identity of a word.
fn untold_of(
    word: u32,
    store: Option<Store>,
    delivery: NumberSpot,
    threshold: Option<NumberSpot>,
) -> UntoldRun
    ensures { result ≡ untold_of word store delivery threshold }
{
    UntoldRun {
        identity: 64 * word as u64 + 1,
        store,
        delivery,
        threshold,
    }
}

/// Looks for an untold run with delivery in a spot, and the threshold that lets through in one, or
/// in none. `None`: there is none.
#[tactic(auto, unfolding(crate::specs::UntoldSearch::with_delivery))]
fn with_delivery(
    producers: &[RouteKind],
    terms: Terms,
    plan: &[AnyStep],
    word: u32,
    store: Option<Store>,
    delivery: NumberSpot,
) -> Option<UntoldRun>
    ensures exact { result ≡ with_delivery producers.now terms plan.now word store delivery }
    ensures untold { IfSome result
        (λ run. LeavesUntold (setting_of producers.now terms) plan.now run) }
{
    let in_old = untold_of(word, store, delivery, Some(NumberSpot::InOld));
    if let Some(run) = in_old.tried(producers, terms, plan) {
        return Some(run);
    }
    let in_hand = untold_of(word, store, delivery, Some(NumberSpot::InHand));
    if let Some(run) = in_hand.tried(producers, terms, plan) {
        return Some(run);
    }
    let in_new = untold_of(word, store, delivery, Some(NumberSpot::InNew));
    if let Some(run) = in_new.tried(producers, terms, plan) {
        return Some(run);
    }
    untold_of(word, store, delivery, None).tried(producers, terms, plan)
}

/// Looks for an untold run with each start of the numbers, where they are heeded, and else with
/// one. `None`: there is none.
#[tactic(auto, unfolding(crate::specs::UntoldSearch::untold_with_numbers))]
fn untold_with_numbers(
    producers: &[RouteKind],
    terms: Terms,
    plan: &[AnyStep],
    word: u32,
    store: Option<Store>,
) -> Option<UntoldRun>
    ensures exact { result ≡ untold_with_numbers producers.now terms plan.now word store }
    ensures untold { IfSome result
        (λ run. LeavesUntold (setting_of producers.now terms) plan.now run) }
{
    if !terms.heeds {
        let run = untold_of(word, store, NumberSpot::InOld, Some(NumberSpot::InOld));
        return run.tried(producers, terms, plan);
    }
    if let Some(run) = with_delivery(producers, terms, plan, word, store, NumberSpot::InOld) {
        return Some(run);
    }
    if let Some(run) = with_delivery(producers, terms, plan, word, store, NumberSpot::InHand) {
        return Some(run);
    }
    with_delivery(producers, terms, plan, word, store, NumberSpot::InNew)
}

/// Looks for an untold run with a store that comes with so many steps before it. `None`: there is
/// none.
#[tactic(auto, unfolding(crate::specs::UntoldSearch::stored_before))]
fn stored_before(
    producers: &[RouteKind],
    terms: Terms,
    plan: &[AnyStep],
    word: u32,
    producer: usize,
    before: usize,
) -> Option<UntoldRun>
    ensures exact { result ≡ stored_before producers.now terms plan.now word producer before }
    ensures untold { IfSome result
        (λ run. LeavesUntold (setting_of producers.now terms) plan.now run) }
{
    let by_force = Store {
        producer,
        before,
        route: StoreRoute::InForce,
    };
    if let Some(run) = untold_with_numbers(producers, terms, plan, word, Some(by_force)) {
        return Some(run);
    }
    let by_written = Store {
        producer,
        before,
        route: StoreRoute::Written,
    };
    untold_with_numbers(producers, terms, plan, word, Some(by_written))
}

/// Looks for an untold run with a store of a producer before any of the steps, or after the last
/// one. `None`: there is none.
#[tactic(auto, unfolding(crate::specs::UntoldSearch::stored_by))]
fn stored_by(
    producers: &[RouteKind],
    terms: Terms,
    plan: &[AnyStep],
    word: u32,
    producer: usize,
) -> Option<UntoldRun>
    ensures exact { result ≡ stored_by producers.now terms plan.now word producer }
    ensures untold { IfSome result
        (λ run. LeavesUntold (setting_of producers.now terms) plan.now run) }
{
    for before in 0..plan.len() + 1 {
        match stored_before(producers, terms, plan, word, producer, before) {
            Some(run) => return Some(run),
            None => {}
        }
    }
    None
}

/// Looks for an untold run with a store into a word. `None`: there is none.
fn stored_any(
    producers: &[RouteKind],
    terms: Terms,
    plan: &[AnyStep],
    word: u32,
) -> Option<UntoldRun>
    ensures exact { result
        ≡ first_of (stored_by producers.now terms plan.now word) 0 (length producers.now) }
    ensures untold { IfSome result
        (λ run. LeavesUntold (setting_of producers.now terms) plan.now run) }
{
    for producer in 0..producers.len() {
        match stored_by(producers, terms, plan, word, producer) {
            Some(run) => return Some(run),
            None => {}
        }
    }
    None
}

/// Looks for an untold run of a word. `None`: there is none.
#[tactic(auto, unfolding(crate::specs::UntoldSearch::untold_word))]
fn untold_word(
    producers: &[RouteKind],
    terms: Terms,
    plan: &[AnyStep],
    word: u32,
) -> Option<UntoldRun>
    ensures exact { result ≡ untold_word producers.now terms plan.now word }
    ensures untold { IfSome result
        (λ run. LeavesUntold (setting_of producers.now terms) plan.now run) }
{
    if let Some(run) = untold_with_numbers(producers, terms, plan, word, None) {
        return Some(run);
    }
    if is_small(producers.len(), terms.words, plan.len()) {
        stored_any(producers, terms, plan, word)
    } else {
        None
    }
}

/// Tells whether a plan is so small that runs of it with a store are looked for.
fn is_small(producers: usize, words: u32, steps: usize) -> bool
    ensures { result ≡ is_small producers words steps }
{
    producers <= SMALL_PRODUCERS && words <= SMALL_WORDS && steps <= SMALL_STEPS
}

/// Looks for a run of a plan after which an identity stands out in the new place, and the host was
/// not told. `None`: none was found.
///
/// The runs are those without a store and, of a small plan, those with one that lands at once, of
/// the second identity of a word, which is enabled in the old place at the start. Nothing is
/// allocated. It takes time of the order of the steps and the words, and for a small plan of the
/// square of the steps, the words and the producers; where the numbers are heeded, twelve times
/// that.
#[tactic(auto, unfolding(crate::specs::UntoldSearch::untold_run_of))]
pub fn untold_run(producers: &[RouteKind], terms: Terms, plan: &[AnyStep]) -> Option<UntoldRun>
    ensures exact { result ≡ untold_run_of producers.now terms plan.now }
    ensures untold { IfSome result
        (λ run. LeavesUntold (setting_of producers.now terms) plan.now run) }
{
    for word in 0..terms.words {
        match untold_word(producers, terms, plan, word) {
            Some(run) => return Some(run),
            None => {}
        }
    }
    None
}
