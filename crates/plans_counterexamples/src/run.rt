//! A run of a plan with one store at most.

ghost use Rattle.std.specs.Prelude.{◌≡◌, ◌&&◌, List, length, true, IfSome};
ghost use Rattle.std.specs.Option.{option_map};
ghost use Rattle.plans_rules.specs.Setting.{setting_of};
ghost use Rattle.plans_rules.specs.Machine.{all_happened};
ghost use Rattle.plans_counterexamples.specs.Trace.{Follows};
ghost use Rattle.plans_rules.specs.Rules as rules;
ghost use Rattle.plans_rules.specs.Setting.{is_pending};
ghost use Rattle.plans_counterexamples.specs.Run.{Loses, bit_fate, can_be, differ, fate_of, happenings, is_left, is_left_old, is_missing, is_routed, is_unled, last_emptied, left_by, shows, start_of, trace_begun, trace_extra, trace_number, trace_wanted};
ghost use Rattle.plans_counterexamples.specs.Search.{tried, trace_end};

use crate::search::Losing;
use crate::trace::{Begin, Case, StoreRoute, Trace};
use plans_rules::{AnyPlace, AnyStep, RouteKind, Rule, Terms, WhichSet};

/// The one store that comes between the steps of a run.
#[derive(Clone, Copy, Debug, PartialEq, Eq)]
pub enum Extra {
    /// There is none.
    Nothing,

    /// It is made with so many steps before it, by the written route or the one in force, and lands
    /// at once.
    Stores { before: usize, route: StoreRoute },

    /// It is sent with so many steps before it, by the route in force, and lands with so many
    /// before it, or sooner, at its producer's fence.
    Sends { before: usize, lands: usize },
}

/// A run of a plan: what is followed in it, where the bit stands at the start, and the store.
#[derive(Clone, Copy, Debug, PartialEq, Eq)]
pub struct Run {
    pub case: Case,
    pub begin: Begin,
    pub extra: Extra,

    /// Whether threshold and delivery are 1 in the old place at the start, though they are declared
    /// to be elsewhere.
    pub left: bool,
}

/// What becomes in the end of what a run follows.
#[derive(Clone, Copy, Debug, PartialEq, Eq)]
pub enum Fate {
    /// It is in the old place, and its producer's route leads there still.
    NotLed,

    /// It is in the old place, and nothing takes its word.
    NotTaken,

    /// It is in the old place, and what takes its word, or zeroes it, with so many steps before it,
    /// comes too early.
    TakenEarly { before: usize },

    /// It is not there, and the route of the producer that is followed leads there still.
    Unled,

    /// It is only in the hand.
    Held,

    /// It is nowhere.
    Gone,

    /// It is in the new place, and nobody asked for it.
    LeftOver,

    /// The number is not where it has to be, as it was.
    Misplaced,

    /// The old place is reached after it was given back.
    Strayed,

    /// The number is left in the old place, whose next owner takes it over.
    Inherited,
}

/// Tells whether two bits differ.
fn differ(a: bool, b: bool) -> bool
    ensures { result ≡ differ a b }
{
    a != b
}

impl Run {
    /// Gives what is followed at the start.
    pub(crate) fn begun(self, terms: Terms) -> Trace
        ensures { result ≡ trace_begun self terms }
    {
        Trace::first(self.begin, self.left, terms)
    }

    /// Gives what the store makes of what is followed, where it comes with so many steps before it.
    pub(crate) fn extra(self, trace: Trace, before_it: usize) -> Trace
        ensures { result ≡ trace_extra self before_it trace }
    {
        match self.extra {
            Extra::Nothing => trace,
            Extra::Stores { before, route } => {
                if before == before_it {
                    trace.stored(self.case, route)
                } else {
                    trace
                }
            }
            Extra::Sends { before, lands } => {
                let sent = trace.sent_if(before == before_it);
                sent.flown_if(self.case, lands == before_it)
            }
        }
    }

    /// Tells what has to stand in the new place at the end.
    fn wanted(self, trace: Trace) -> bool
        ensures { result ≡ trace_wanted self trace }
    {
        match self.case.bank {
            WhichSet::Pending => trace.due,
            WhichSet::Enabled => self.begin == Begin::InOld,
        }
    }

    /// Tells whether the bit has to stand in the new place in the end, and does not.
    fn is_missing(self, trace: Trace) -> bool
        ensures { result ≡ is_missing self trace }
    {
        self.wanted(trace) && !trace.new
    }

    /// Tells whether it is one of the pending set.
    fn is_pending(self) -> bool
        ensures { result ≡ is_pending self.case.bank }
    {
        match self.case.bank {
            WhichSet::Pending => true,
            WhichSet::Enabled => false,
        }
    }

    /// Tells whether the run has no store, and the route in force of the producer that it follows,
    /// one of so many, leads to the old place.
    fn is_unled(self, producers: usize, trace: Trace) -> bool
        ensures { result ≡ is_unled self producers trace }
    {
        match self.extra {
            Extra::Nothing => { self.case.producer < producers && trace.in_force == AnyPlace::Old }
            _ => false,
        }
    }

    /// Tells whether a pending bit is left in the old place.
    fn is_left_old(self, trace: Trace) -> bool
        ensures { result ≡ is_left_old self trace }
    {
        self.is_pending() && trace.old
    }

    /// Tells whether an end shows that a rule of safety is broken.
    fn shows(self, rule: Rule, producers: usize, terms: Terms, trace: Trace) -> bool
        ensures { result ≡ shows rule self producers terms trace }
    {
        match rule {
            Rule::Routes => self.is_left_old(trace) || self.is_unled(producers, trace),
            Rule::Words => {
                self.is_missing(trace) && !trace.old || !self.is_pending() && trace.old
            }
            Rule::Blank => differ(trace.new, self.wanted(trace)),
            Rule::Numbers => !trace.number(terms.number_to),
            Rule::Freeing => trace.strayed || is_left(terms, trace),
            Rule::Notice => false,
        }
    }

    /// Gives why the bit is left in the old place.
    fn left_by(self, producers: usize, plan: &[AnyStep], trace: Trace) -> Fate
        ensures { result ≡ left_by plan.now self producers trace }
    {
        if self.case.producer < producers && trace.in_force == AnyPlace::Old {
            return Fate::NotLed;
        }
        match last_emptied(plan, self.case.bank, self.case.identity / 64) {
            None => Fate::NotTaken,
            Some(before) => Fate::TakenEarly { before },
        }
    }

    /// Gives what becomes of the bit in the end.
    fn bit_fate(self, producers: usize, plan: &[AnyStep], trace: Trace) -> Fate
        ensures { result ≡ bit_fate plan.now self producers trace }
    {
        if trace.old {
            self.left_by(producers, plan, trace)
        } else if trace.new {
            Fate::LeftOver
        } else if trace.hand {
            Fate::Held
        } else {
            Fate::Gone
        }
    }

    /// Gives what becomes in the end of what is followed, of a plan that breaks a rule.
    pub(crate) fn fate(self, rule: Rule, producers: usize, plan: &[AnyStep], trace: Trace) -> Fate
        ensures { result ≡ fate_of rule plan.now self producers trace }
    {
        match rule {
            Rule::Routes => {
                if self.is_left_old(trace) {
                    self.bit_fate(producers, plan, trace)
                } else {
                    Fate::Unled
                }
            }
            Rule::Numbers => Fate::Misplaced,
            Rule::Freeing => {
                if trace.strayed {
                    Fate::Strayed
                } else {
                    Fate::Inherited
                }
            }
            _ => self.bit_fate(producers, plan, trace),
        }
    }

    /// Tells whether there can be such a run.
    fn can_be(self, terms: Terms, producers: &[RouteKind]) -> bool
        ensures { result ≡ can_be self terms producers.now }
    {
        self.case.identity / 64 < terms.words as u64
            && (self.begin != Begin::InNew || !terms.is_fresh)
            && match self.extra {
                Extra::Nothing => true,
                Extra::Stores { .. } => self.case.producer < producers.len(),
                Extra::Sends { .. } => is_routed(producers.get(self.case.producer)),
            }
    }

    /// Gives what is followed at the end of the run of a plan.
    fn end(self, terms: Terms, plan: &[AnyStep]) -> Trace
        ensures exact { result ≡ trace_end self terms plan.now }
        ensures follows { (producers : List RouteKind) → Follows self.case result
            (all_happened (setting_of producers terms) (happenings plan.now self)
            (start_of (setting_of producers terms) self)) }
    {
        let mut trace = self.begun(terms);
        for at in 0..plan.len() {
            let reached = self.extra(trace, at);
            trace = reached.after(self.case, plan[at]);
        }
        self.extra(trace, plan.len())
    }

    /// Tells whether a plan has this run, which ends so, and it shows that a rule is broken.
    fn is_shown(self, rule: Rule, producers: &[RouteKind], terms: Terms, end: Trace) -> bool
        ensures { result ≡ (can_be self terms producers.now
            && shows rule self (length producers.now) terms end) }
    {
        self.can_be(terms, producers) && self.shows(rule, producers.len(), terms, end)
    }

    /// Gives this run, if a plan has it and it shows that a rule is broken, and what becomes of
    /// what it follows. `None`: it has it not, or the run shows it not.
    #[tactic(auto, unfolding(crate::specs::Search::tried))]
    pub(crate) fn tried(
        self,
        rule: Rule,
        producers: &[RouteKind],
        terms: Terms,
        plan: &[AnyStep],
    ) -> Option<Losing>
        ensures exact { result ≡ tried rule producers.now terms plan.now self }
        ensures loses { IfSome result
            (λ found. Loses (setting_of producers.now terms) plan.now found.run) }
    {
        let end = self.end(terms, plan);
        if self.is_shown(rule, producers, terms, end) {
            Some(Losing {
                run: self,
                fate: self.fate(rule, producers.len(), plan, end),
            })
        } else {
            None
        }
    }
}

/// Finds the last step that leaves nothing of a word in the old place: how many are before it.
/// `None`: none does.
fn last_emptied(plan: &[AnyStep], bank: WhichSet, word: u64) -> Option<usize>
    ensures { result ≡ last_emptied plan.now bank word (length plan.now) }
{
    let mut last = None;
    for at in 0..plan.len() {
        if empties(plan[at], bank, word) {
            last = Some(at);
        }
    }
    last
}

/// Tells whether a step leaves nothing of a word in the old place.
fn empties(step: AnyStep, bank: WhichSet, word: u64) -> bool
    ensures { result ≡ rules.empties bank word step }
{
    match step {
        AnyStep::Take(s, w) | AnyStep::Zero(AnyPlace::Old, s, w) => s == bank && w as u64 == word,
        _ => false,
    }
}

/// Tells whether a producer has a route that is written.
fn is_routed(kind: Option<&RouteKind>) -> bool
    ensures { result ≡ is_routed (option_map (λ k. k.now) kind.entry) }
{
    match kind {
        Some(RouteKind::Routed) => true,
        _ => false,
    }
}

/// Tells whether the next owner of the old place finds the number there, which it takes over.
fn is_left(terms: Terms, trace: Trace) -> bool
    ensures { result ≡ is_left terms trace }
{
    terms.is_inherited && trace.freed && trace.old_number
}
