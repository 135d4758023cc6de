//! A run is looked for that shows that a plan breaks a rule of safety, among those with one store
//! at most.

ghost use Rattle.std.specs.Prelude.{◌≡◌, ◌≤◌, if◌then◌else◌, IfSome, Some, length};
ghost use Rattle.plans_rules.specs.Setting.{setting_of};
ghost use Rattle.plans_counterexamples.specs.Run.{Loses};
ghost use Rattle.plans_counterexamples.specs.declared.run.Extra.TheVariants as extras;
ghost use Rattle.plans_counterexamples.specs.declared.search.Scope.TheVariants as scopes;
ghost use Rattle.plans_counterexamples.specs.Search as search_;
ghost use Rattle.plans_counterexamples.specs.Search.{at_most, by_producer, enabled_case, first_of, found_in, last_by, last_lift, losing_run_of, one_more, pending_case, quiet_word, reaches_by, scope_by, stored_ahead, stored_old, stored_word, without_store};
ghost use Rattle.plans_rules.specs.declared.step.WhichSet.TheVariants.{Pending};
ghost use Rattle.plans_rules.specs.Rules as rules;

use crate::run::{Extra, Fate, Run};
use crate::trace::{Begin, Case, StoreRoute, Trace};
use plans_rules::{AnyPlace, AnyStep, Number, RouteKind, Rule, Terms, WhichSet};

/// A run that shows that a rule is broken, and what becomes in the end of what it follows.
#[derive(Clone, Copy, Debug, PartialEq, Eq)]
pub struct Losing {
    pub run: Run,
    pub fate: Fate,
}

/// Where a run is looked for.
#[derive(Clone, Copy)]
pub(crate) enum Scope {
    /// In a word of a set.
    One(WhichSet, u32),

    /// In all words.
    All,
}

/// Names the second identity of a word of the pending set, and a producer.
fn pending_case(word: u32, producer: usize) -> Case
    ensures { result ≡ pending_case word producer }
{
    Case {
        bank: WhichSet::Pending,
        identity: 64 * word as u64 + 1,
        number: Number::Threshold,
        producer,
    }
}

/// Names the second identity of a word of the enables, and no producer.
fn enabled_case(word: u32) -> Case
    ensures { result ≡ enabled_case word }
{
    Case {
        bank: WhichSet::Enabled,
        identity: 64 * word as u64 + 1,
        number: Number::Delivery,
        producer: usize::MAX,
    }
}

/// Makes a run.
fn run_of(case: Case, begin: Begin, extra: Extra) -> Run
    ensures { result ≡ search_.run_of case begin extra }
{
    Run {
        case,
        begin,
        extra,
        left: false,
    }
}

/// Makes the run without a store that begins with numbers left in the old place.
fn left_run(case: Case) -> Run
    ensures { result ≡ search_.left_run case }
{
    Run {
        case,
        begin: Begin::Nowhere,
        extra: Extra::Nothing,
        left: true,
    }
}

/// Looks for a run without a store. `None`: there is none.
#[tactic(auto, unfolding(crate::specs::Search::without_store))]
fn without_store(
    rule: Rule,
    producers: &[RouteKind],
    terms: Terms,
    plan: &[AnyStep],
    case: Case,
) -> Option<Losing>
    ensures { result ≡ without_store rule producers.now terms plan.now case }
{
    let in_old = run_of(case, Begin::InOld, Extra::Nothing);
    if let Some(found) = in_old.tried(rule, producers, terms, plan) {
        return Some(found);
    }
    let nowhere = run_of(case, Begin::Nowhere, Extra::Nothing);
    if let Some(found) = nowhere.tried(rule, producers, terms, plan) {
        return Some(found);
    }
    let in_new = run_of(case, Begin::InNew, Extra::Nothing);
    if let Some(found) = in_new.tried(rule, producers, terms, plan) {
        return Some(found);
    }
    left_run(case).tried(rule, producers, terms, plan)
}

/// Gives how many steps at most, of so many, are done where a store of the producer comes to the
/// old place by the route in force, or to the new one by the written route; 0 if it never does.
fn last_by(route: StoreRoute, case: Case, terms: Terms, plan: &[AnyStep], count: usize) -> usize
    requires { count ≤ length plan.now }
    ensures { result ≡ last_by route case terms plan.now count }
{
    let run = run_of(case, Begin::Nowhere, Extra::Nothing);
    let mut trace = run.begun(terms);
    let mut last = 0;
    for at in 0..count {
        trace = trace.after(case, plan[at]);
        last = if_reached(reaches_by(route, trace), at + 1, last);
    }
    last
}

/// Tells whether a store of the producer comes to the old place by the route in force, or to the
/// new one by the written route.
fn reaches_by(route: StoreRoute, trace: Trace) -> bool
    ensures { result ≡ reaches_by route trace }
{
    match route {
        StoreRoute::InForce => trace.in_force == AnyPlace::Old && !trace.paused,
        StoreRoute::Written => trace.written != AnyPlace::Old && !trace.paused,
    }
}

/// Gives one number where a place is reached, else another.
fn if_reached(is_reached: bool, now: usize, last: usize) -> usize
    ensures { result ≡ if is_reached then now else last }
{
    if is_reached { now } else { last }
}

/// Makes a store that lands at once.
fn stores(before: usize, route: StoreRoute) -> Extra
    ensures { result ≡ extras.Stores before route }
{
    Extra::Stores { before, route }
}

/// Makes a store that is sent.
fn sends(before: usize, lands: usize) -> Extra
    ensures { result ≡ extras.Sends before lands }
{
    Extra::Sends { before, lands }
}

/// Looks for a run with a store that reaches the old place with so many steps before it, or as late
/// as it can before that. `None`: there is none.
#[tactic(auto, unfolding(crate::specs::Search::stored_old))]
fn stored_old(
    rule: Rule,
    producers: &[RouteKind],
    terms: Terms,
    plan: &[AnyStep],
    case: Case,
    at: usize,
) -> Option<Losing>
    requires { at ≤ length plan.now }
    ensures { result ≡ stored_old rule producers.now terms plan.now case at }
{
    let last = last_by(StoreRoute::InForce, case, terms, plan, at);
    let made = run_of(case, Begin::Nowhere, stores(last, StoreRoute::InForce));
    if let Some(found) = made.tried(rule, producers, terms, plan) {
        return Some(found);
    }
    run_of(case, Begin::Nowhere, sends(last, at)).tried(rule, producers, terms, plan)
}

/// Looks for a run with a store that reaches the new place by the written route with so many steps
/// before it, or as late as it can before that. `None`: there is none.
#[tactic(auto, unfolding(crate::specs::Search::stored_ahead))]
fn stored_ahead(
    rule: Rule,
    producers: &[RouteKind],
    terms: Terms,
    plan: &[AnyStep],
    case: Case,
    at: usize,
) -> Option<Losing>
    requires { at ≤ length plan.now }
    ensures { result ≡ stored_ahead rule producers.now terms plan.now case at }
{
    let last = last_by(StoreRoute::Written, case, terms, plan, at);
    let made = run_of(case, Begin::Nowhere, stores(last, StoreRoute::Written));
    made.tried(rule, producers, terms, plan)
}

/// Tells whether a step lifts a pending word.
fn lifts(step: AnyStep, word: u32) -> bool
    ensures { result ≡ rules.lifts Pending word step }
{
    match step {
        AnyStep::Take(s, w) | AnyStep::Copy(s, w) => s == WhichSet::Pending && w == word,
        _ => false,
    }
}

/// Gives how many steps are before the last one, of so many, that lifts a pending word; 0 if there
/// is none.
fn last_lift(plan: &[AnyStep], word: u32, count: usize) -> usize
    requires { count ≤ length plan.now }
    ensures value { result ≡ last_lift plan.now word count }
    ensures within { result ≤ length plan.now }
{
    let mut last = 0;
    for at in 0..count {
        if lifts(plan[at], word) {
            last = at;
        }
    }
    last
}

/// Gives one step more, where a plan has it.
fn one_more(plan: &[AnyStep], at: usize) -> usize
    requires { at ≤ length plan.now }
    ensures value { result ≡ one_more plan.now at }
    ensures within { result ≤ length plan.now }
{
    if plan.len() <= at { at } else { at + 1 }
}

/// Looks for a run with a store of a producer into a word, which a rule that is broken with so many
/// steps before it asks for, and then for that without a store, by where the producer's route
/// leads. `None`: there is none.
#[tactic(auto, unfolding(crate::specs::Search::by_producer))]
fn by_producer(
    rule: Rule,
    producers: &[RouteKind],
    terms: Terms,
    plan: &[AnyStep],
    word: u32,
    at: usize,
    producer: usize,
) -> Option<Losing>
    requires { at ≤ length plan.now }
    ensures { result ≡ by_producer rule producers.now terms plan.now word at producer }
{
    let case = pending_case(word, producer);
    let behind = one_more(plan, at);
    if let Some(found) = stored_old(rule, producers, terms, plan, case, behind) {
        return Some(found);
    }
    if let Some(found) = stored_old(rule, producers, terms, plan, case, at) {
        return Some(found);
    }
    let lift = last_lift(plan, word, at);
    if let Some(found) = stored_old(rule, producers, terms, plan, case, lift) {
        return Some(found);
    }
    if let Some(found) = stored_ahead(rule, producers, terms, plan, case, at) {
        return Some(found);
    }
    run_of(case, Begin::Nowhere, Extra::Nothing).tried(rule, producers, terms, plan)
}

/// Looks for such a run of any producer. `None`: there is none.
#[tactic(auto, unfolding(crate::specs::Search::stored_word))]
fn stored_word(
    rule: Rule,
    producers: &[RouteKind],
    terms: Terms,
    plan: &[AnyStep],
    at: usize,
    word: u32,
) -> Option<Losing>
    requires { at ≤ length plan.now }
    ensures { result ≡ stored_word rule producers.now terms plan.now at word }
{
    for producer in 0..producers.len() {
        match by_producer(rule, producers, terms, plan, word, at, producer) {
            Some(found) => return Some(found),
            None => {}
        }
    }
    None
}

/// Looks for a run without a store, of the pending bit and of the enable of a word. `None`: there
/// is none.
#[tactic(auto, unfolding(crate::specs::Search::quiet_word))]
fn quiet_word(
    rule: Rule,
    producers: &[RouteKind],
    terms: Terms,
    plan: &[AnyStep],
    word: u32,
) -> Option<Losing>
    ensures { result ≡ quiet_word rule producers.now terms plan.now word }
{
    let pending = pending_case(word, usize::MAX);
    if let Some(found) = without_store(rule, producers, terms, plan, pending) {
        return Some(found);
    }
    without_store(rule, producers, terms, plan, enabled_case(word))
}

/// Looks for one in all words. `None`: there is none.
fn quiet_words(
    rule: Rule,
    producers: &[RouteKind],
    terms: Terms,
    plan: &[AnyStep],
) -> Option<Losing>
    ensures { result ≡ first_of (quiet_word rule producers.now terms plan.now) 0 terms.words }
{
    for word in 0..terms.words {
        match quiet_word(rule, producers, terms, plan, word) {
            Some(found) => return Some(found),
            None => {}
        }
    }
    None
}

/// Looks for a run with a store in all words. `None`: there is none.
fn stored_words(
    rule: Rule,
    producers: &[RouteKind],
    terms: Terms,
    plan: &[AnyStep],
    at: usize,
) -> Option<Losing>
    requires { at ≤ length plan.now }
    ensures { result
        ≡ first_of (stored_word rule producers.now terms plan.now at) 0 terms.words }
{
    for word in 0..terms.words {
        match stored_word(rule, producers, terms, plan, at, word) {
            Some(found) => return Some(found),
            None => {}
        }
    }
    None
}

/// Gives where a run is looked for, by the step that breaks a rule.
fn scope_of(step: AnyStep) -> Scope
    ensures { result ≡ scope_by (Some step) }
{
    match step {
        AnyStep::Zero(_, s, w) => Scope::One(s, w),
        AnyStep::Take(s, w) | AnyStep::Copy(s, w) => Scope::One(s, w),
        AnyStep::Join(s, w) | AnyStep::Put(s, w) => Scope::One(s, w),
        _ => Scope::All,
    }
}

/// Looks for a run in a word of the pending set. `None`: there is none.
#[tactic(auto, unfolding(crate::specs::Search::found_in))]
fn in_pending(
    rule: Rule,
    producers: &[RouteKind],
    terms: Terms,
    plan: &[AnyStep],
    at: usize,
    word: u32,
) -> Option<Losing>
    requires { at ≤ length plan.now }
    ensures { result
        ≡ found_in rule producers.now terms plan.now at (scopes.One Pending word) }
{
    let pending = pending_case(word, usize::MAX);
    if let Some(found) = without_store(rule, producers, terms, plan, pending) {
        return Some(found);
    }
    stored_word(rule, producers, terms, plan, at, word)
}

/// Looks for a run in all words. `None`: there is none.
#[tactic(auto, unfolding(crate::specs::Search::found_in))]
fn in_all(
    rule: Rule,
    producers: &[RouteKind],
    terms: Terms,
    plan: &[AnyStep],
    at: usize,
) -> Option<Losing>
    requires { at ≤ length plan.now }
    ensures { result ≡ found_in rule producers.now terms plan.now at scopes.All }
{
    if let Some(found) = quiet_words(rule, producers, terms, plan) {
        return Some(found);
    }
    stored_words(rule, producers, terms, plan, at)
}

/// Looks for a run in such a scope. `None`: there is none.
#[tactic(auto, unfolding(crate::specs::Search::found_in))]
fn found_in(
    rule: Rule,
    producers: &[RouteKind],
    terms: Terms,
    plan: &[AnyStep],
    at: usize,
    scope: Scope,
) -> Option<Losing>
    requires { at ≤ length plan.now }
    ensures { result ≡ found_in rule producers.now terms plan.now at scope }
{
    match scope {
        Scope::One(WhichSet::Pending, word) => in_pending(rule, producers, terms, plan, at, word),
        Scope::One(WhichSet::Enabled, word) => {
            without_store(rule, producers, terms, plan, enabled_case(word))
        }
        Scope::All => in_all(rule, producers, terms, plan, at),
    }
}

/// Looks for a run which shows that a plan breaks a rule of safety with so many steps before it: it
/// loses something, doubles it, leaves it behind, or reaches what was given back. `None`: none was
/// found.
///
/// The runs are those with one store at most, of the second identity of a word, and of the word in
/// which the rule is broken, where a step breaks it; and that store comes at a place that the break
/// tells. Nothing is allocated. It takes time of the order of the steps, with some thirty runs of
/// the plan for each word and producer.
#[tactic(auto, unfolding(crate::specs::Search::losing_run_of))]
pub fn losing_run(
    rule: Rule,
    producers: &[RouteKind],
    terms: Terms,
    plan: &[AnyStep],
    before: usize,
) -> Option<Losing>
    ensures exact { result ≡ losing_run_of rule producers.now terms plan.now before }
    ensures loses { IfSome result
        (λ found. Loses (setting_of producers.now terms) plan.now found.run) }
{
    let scope = match plan.get(before) {
        None => Scope::All,
        Some(step) => scope_of(*step),
    };
    let at = at_most(before, plan.len());
    found_in(rule, producers, terms, plan, at, scope)
}

/// Gives a number, and no more than a bound.
fn at_most(number: usize, bound: usize) -> usize
    ensures value { result ≡ at_most number bound }
    ensures within { result ≤ bound }
{
    if number <= bound { number } else { bound }
}
