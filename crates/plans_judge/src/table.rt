//! What is known of a plan after some of its steps, so that each step is judged in one look.

ghost use Rattle.std.specs.Prelude.{◌≡◌, ◌<◌, ◌&&◌, ◌||◌, not, ℕ, length, List, [], ◌∷◌, map, replicate, IfOk};
ghost use Rattle.plans_rules.specs.Rules as rules;
ghost use Rattle.plans_rules.specs.Rules.{Done};
ghost use Rattle.plans_rules.specs.Safe.{IsInFile};
ghost use Rattle.plans_rules.specs.Setting.{all_below, any_below, setting_of};
ghost use Rattle.plans_judge.specs.Table.{AllAfter, Stands, flags_at, is_calm_at, is_reaching_at, lead_after, lead_first, ready_by, shut_by, word_after, word_first};
ghost use Rattle.plans_judge.specs.Verdicts.{refusing, refusing_end, rules_of};
ghost use Rattle.plans_rules.specs.declared.rule.Rule.TheVariants as rule_;
ghost use Rattle.plans_rules.specs.declared.step.WhichSet.TheVariants.{Pending};
ghost use Rattle.plans_rules.specs.declared.step.AnyStep.TheVariants.{Free};
ghost use Rattle.plans_rules.specs.declared.setting.NumberSpot.TheVariants as spot;

use crate::judging::Part;
use crate::lead::{Lead, all_calm, all_led, any_reaching, lead_all, led_if_any};
use crate::standing::Standing;
use crate::word::{Flags, Word, World, all_blank, all_kept, all_reported, all_taken, step_all};
use plans_rules::{AnyPlace, AnyStep, Number, NumberSpot, RouteKind, Rule, Terms, WhichSet};
use std::alloc::{AllocError, Global};

/// What the steps so far have reached.
#[derive(Drop)]
pub(crate) struct Table {
    leads: Vec<Lead>,
    words: Vec<Word>,
    threshold: Standing,
    delivery: Standing,

    /// The old place was given back.
    freed: bool,

    /// Its threshold, and its delivery, were left 0.
    threshold_shut: bool,
    delivery_shut: bool,

    /// Notices go to the host.
    noticed: bool,

    terms: Terms,
}

/// Makes the leads of producers before the first step. `Err`: there is no memory for them.
fn first_leads(alloc: Global, producers: &[RouteKind]) -> Result<Vec<Lead>, AllocError>
    ensures { IfOk result (λ leads. leads.items ≡ map lead_first producers.now) }
{
    let mut leads = Vec::new(alloc);
    for kind in producers {
        leads.push(Lead::first(*kind))?;
    }
    Ok(leads)
}

/// Makes of the leads of a list what a step makes of them.
fn lead_list(leads: &mut Vec<Lead>, step: AnyStep)
    ensures { AllAfter (lead_after step) leads.old.items leads.new.items }
{
    lead_all(leads, step);
}

/// Makes of the words of a list what a step makes of them.
fn step_list(words: &mut Vec<Word>, step: AnyStep, world: World)
    ensures { AllAfter (word_after world step) words.old.items words.new.items }
{
    step_all(words, step, world);
}

/// Makes the words of a file before the first step. `Err`: there is no memory for them.
fn first_words(alloc: Global, terms: Terms) -> Result<Vec<Word>, AllocError>
    ensures { IfOk result (λ words. words.items
        ≡ replicate terms.words (word_first terms.is_fresh)) }
{
    let mut words = Vec::new(alloc);
    for _word in 0..terms.words {
        words.push(Word::first(terms.is_fresh))?;
    }
    Ok(words)
}

impl Table {
    /// Makes the table of no step. `Err`: there is no memory for it.
    #[tactic(auto, using(crate::proofs::StandsLemmas::begins))]
    pub(crate) fn new(
        alloc: Global,
        producers: &[RouteKind],
        terms: Terms,
    ) -> Result<Table, AllocError>
        ensures stands { IfOk result (λ table. Stands table producers.now []) }
        ensures terms { IfOk result (λ table. table.terms ≡ terms) }
    {
        let leads = first_leads(alloc, producers)?;
        let words = first_words(alloc, terms)?;
        Ok(Table {
            leads,
            words,
            threshold: Standing::first(terms.number_from),
            delivery: Standing::first(terms.number_from),
            freed: false,
            threshold_shut: false,
            delivery_shut: false,
            noticed: terms.notices_go,
            terms,
        })
    }

    /// Gives what is known of a word of a set.
    fn flags(&self, bank: WhichSet, word: u32) -> Flags
        requires word { word < self.now.terms.words }
        requires width { length self.now.words.items ≡ self.now.terms.words }
        ensures { (producers : List RouteKind) (done : Done) → Stands self.now producers done
            → result ≡ flags_at (setting_of producers self.now.terms) done bank word }
    {
        let known = self.words[word as usize];
        match bank {
            WhichSet::Pending => known.pending,
            WhichSet::Enabled => known.enabled,
        }
    }

    /// Tells whether all producers are led to the new place.
    fn all_led(&self) -> bool
        ensures { (producers : List RouteKind) (done : Done) → Stands self.now producers done
            → result ≡ rules.all_led (setting_of producers self.now.terms) done }
    {
        all_led(&self.leads)
    }

    /// Tells whether nobody stores into the old place.
    fn is_still(&self) -> bool
        ensures { (producers : List RouteKind) (done : Done) → Stands self.now producers done
            → result ≡ rules.is_still (setting_of producers self.now.terms) Pending done }
    {
        all_calm(&self.leads)
    }

    /// Tells whether a producer is led to the new place, if there is such a one.
    #[tactic(auto, using(crate::proofs::StandsLemmas::resumed_is))]
    fn is_led_if_any(&self, producer: u32) -> bool
        ensures { (producers : List RouteKind) (done : Done) → Stands self.now producers done
            → result ≡ rules.is_led_if_any (setting_of producers self.now.terms) producer done }
    {
        led_if_any(&self.leads, producer as usize)
    }

    /// Tells whether a number stands in a spot as it was at the start.
    fn has_number(&self, number: Number, spot: NumberSpot) -> bool
        ensures { (producers : List RouteKind) (done : Done) → Stands self.now producers done
            → result ≡ rules.has_number (setting_of producers self.now.terms) number spot done }
    {
        match number {
            Number::Threshold => self.threshold.is_in(spot),
            Number::Delivery => self.delivery.is_in(spot),
        }
    }

    /// Tells whether nothing is left to the next owner of the old place that takes it over.
    #[tactic(auto, using(crate::proofs::StandsLemmas::shut_is))]
    fn is_shut(&self) -> bool
        ensures { (producers : List RouteKind) (done : Done) → Stands self.now producers done
            → result ≡ rules.is_shut (setting_of producers self.now.terms) done }
    {
        shut_by(
            self.terms.is_inherited,
            self.threshold_shut,
            self.delivery_shut,
        )
    }

    /// Tells whether the rule on words lets a step stand.
    fn lets_words(&self, step: AnyStep) -> bool
        requires word { IsInFile self.now.terms.words step }
        requires width { length self.now.words.items ≡ self.now.terms.words }
        ensures { (producers : List RouteKind) (done : Done) → Stands self.now producers done
            → result ≡ rules.lets rule_.Words (setting_of producers self.now.terms) step done }
    {
        match step {
            AnyStep::Take(s, w) | AnyStep::Copy(s, w) => !self.flags(s, w).spots.hand,
            AnyStep::Put(s, w) | AnyStep::Zero(AnyPlace::New, s, w) => !self.flags(s, w).spots.new,
            AnyStep::Zero(AnyPlace::Old, s, w) => !self.flags(s, w).spots.old,
            _ => true,
        }
    }

    /// Tells whether the rule on what is left over does.
    fn lets_blank(&self, step: AnyStep) -> bool
        requires word { IsInFile self.now.terms.words step }
        requires width { length self.now.words.items ≡ self.now.terms.words }
        ensures { (producers : List RouteKind) (done : Done) → Stands self.now producers done
            → result ≡ rules.lets rule_.Blank (setting_of producers self.now.terms) step done }
    {
        match step {
            AnyStep::Join(s, w) => {
                let flags = self.flags(s, w);
                !flags.spots.hand || flags.blank
            }
            _ => true,
        }
    }

    /// Tells whether the old place may be given back.
    #[tactic(auto, using(crate::proofs::StandsLemmas::free_is))]
    fn lets_free(&self) -> bool
        ensures { (producers : List RouteKind) (done : Done) → Stands self.now producers done
            → result ≡ rules.lets rule_.Freeing (setting_of producers self.now.terms) Free done }
    {
        free_by(self.is_still(), self.freed, self.is_shut())
    }

    /// Tells whether the rule on giving the old place back does.
    fn lets_freeing(&self, step: AnyStep) -> bool
        ensures { (producers : List RouteKind) (done : Done) → Stands self.now producers done
            → result ≡ rules.lets rule_.Freeing (setting_of producers self.now.terms) step done }
    {
        match step {
            AnyStep::Free => self.lets_free(),
            AnyStep::Resume(p) => !self.freed || self.is_led_if_any(p),
            AnyStep::Take(..)
            | AnyStep::Copy(..)
            | AnyStep::Zero(AnyPlace::Old, ..)
            | AnyStep::TakeNumber(_)
            | AnyStep::CopyNumber(_)
            | AnyStep::ZeroNumber(AnyPlace::Old, _) => !self.freed,
            _ => true,
        }
    }

    /// Gives the first rule of a part that does not let a step stand. `None`: all do.
    pub(crate) fn refusing(&self, part: Part, step: AnyStep) -> Option<Rule>
        requires word { IsInFile self.now.terms.words step }
        requires width { length self.now.words.items ≡ self.now.terms.words }
        ensures { (producers : List RouteKind) (done : Done) → Stands self.now producers done
            → result ≡ refusing (rules_of part) (setting_of producers self.now.terms) step done }
    {
        match part {
            Part::Safety => {
                if !self.lets_words(step) {
                    return Some(Rule::Words);
                }
                if !self.lets_blank(step) {
                    return Some(Rule::Blank);
                }
                if !self.lets_freeing(step) {
                    return Some(Rule::Freeing);
                }
                None
            }
            Part::Telling => None,
        }
    }

    /// Tells whether the rule on routes lets a plan end.
    #[tactic(auto, using(crate::proofs::StandsLemmas::taken_is))]
    fn ends_routes(&self) -> bool
        ensures { (producers : List RouteKind) (done : Done) → Stands self.now producers done
            → result ≡ rules.lets_end rule_.Routes (setting_of producers self.now.terms) done }
    {
        self.all_led() && all_taken(&self.words)
    }

    /// Tells whether the rule on words does.
    #[tactic(auto, using(crate::proofs::StandsLemmas::kept_is))]
    fn ends_words(&self) -> bool
        ensures { (producers : List RouteKind) (done : Done) → Stands self.now producers done
            → result ≡ rules.lets_end rule_.Words (setting_of producers self.now.terms) done }
    {
        all_kept(&self.words)
    }

    /// Tells whether the rule on what is left over does.
    #[tactic(auto, using(crate::proofs::StandsLemmas::blank_is))]
    fn ends_blank(&self) -> bool
        ensures { (producers : List RouteKind) (done : Done) → Stands self.now producers done
            → result ≡ rules.lets_end rule_.Blank (setting_of producers self.now.terms) done }
    {
        all_blank(&self.words)
    }

    /// Tells whether the rule on numbers does.
    fn ends_numbers(&self) -> bool
        ensures { (producers : List RouteKind) (done : Done) → Stands self.now producers done
            → result ≡ rules.lets_end rule_.Numbers (setting_of producers self.now.terms) done }
    {
        let to = self.terms.number_to;
        self.has_number(Number::Threshold, to) && self.has_number(Number::Delivery, to)
    }

    /// Tells whether the rule on notices does.
    #[tactic(auto, using(crate::proofs::StandsLemmas::reported_is))]
    fn ends_notice(&self) -> bool
        ensures { (producers : List RouteKind) (done : Done) → Stands self.now producers done
            → result ≡ rules.lets_end rule_.Notice (setting_of producers self.now.terms) done }
    {
        if self.terms.in_memory {
            all_reported(&self.words)
        } else {
            true
        }
    }

    /// Gives the first rule of a part that does not let a plan end. `None`: all do.
    pub(crate) fn refusing_end(&self, part: Part) -> Option<Rule>
        ensures { (producers : List RouteKind) (done : Done) → Stands self.now producers done
            → result ≡ refusing_end (rules_of part) (setting_of producers self.now.terms) done }
    {
        match part {
            Part::Safety => {
                if !self.ends_routes() {
                    return Some(Rule::Routes);
                }
                if !self.ends_words() {
                    return Some(Rule::Words);
                }
                if !self.ends_blank() {
                    return Some(Rule::Blank);
                }
                if !self.ends_numbers() {
                    return Some(Rule::Numbers);
                }
                None
            }
            Part::Telling => {
                if !self.ends_notice() {
                    return Some(Rule::Notice);
                }
                None
            }
        }
    }

    /// Gives what is known of the whole move after a step that the leads and the numbers have made.
    fn world(&self) -> World
        ensures { result ≡ record {
          still = all_below (is_calm_at self.now.leads.items) (length self.now.leads.items);
          reached = any_below (is_reaching_at self.now.leads.items)
              (length self.now.leads.items);
          ready = ready_by self.now.terms.heeds self.now.threshold self.now.delivery
              self.now.noticed;
        } }
    {
        World {
            still: all_calm(&self.leads),
            reached: any_reaching(&self.leads),
            ready: ready_by(
                self.terms.heeds,
                self.threshold,
                self.delivery,
                self.noticed,
            ),
        }
    }

    /// Goes on by a step.
    #[tactic(auto, using(crate::proofs::StandsLemmas::stands_more))]
    pub(crate) fn step(&mut self, step: AnyStep)
        ensures stands { (producers : List RouteKind) (done : Done) → Stands self.old producers done
            → Stands self.new producers (step ∷ done) }
        ensures terms { self.new.terms ≡ self.old.terms }
        ensures width { length self.new.words.items ≡ length self.old.words.items }
    {
        lead_list(&mut self.leads, step);
        self.threshold = self.threshold.after(step, Number::Threshold);
        self.delivery = self.delivery.after(step, Number::Delivery);
        self.noticed = either(writes_notice(step), self.noticed);
        let world = self.world();
        step_list(&mut self.words, step, world);
        self.freed = either(frees(step), self.freed);
        self.threshold_shut = either(shuts(step, Number::Threshold), self.threshold_shut);
        self.delivery_shut = either(shuts(step, Number::Delivery), self.delivery_shut);
    }
}

/// Tells whether what is heeded of the numbers is in the new place, and notices go to the host.
fn ready_by(heeds: bool, threshold: Standing, delivery: Standing, noticed: bool) -> bool
    ensures { result ≡ ready_by heeds threshold delivery noticed }
{
    (!heeds || threshold.new && delivery.new) && noticed
}

/// Tells whether nothing is left to the next owner of the old place, where that takes it over.
fn shut_by(is_inherited: bool, threshold_shut: bool, delivery_shut: bool) -> bool
    ensures { result ≡ shut_by is_inherited threshold_shut delivery_shut }
{
    if is_inherited {
        threshold_shut && delivery_shut
    } else {
        true
    }
}

/// Tells whether the old place may be given back: nobody stores there, it was not given back, and
/// nothing is left to its next owner.
fn free_by(still: bool, freed: bool, shut: bool) -> bool
    ensures { result ≡ (still && (not freed && shut)) }
{
    still && !freed && shut
}

/// Tells whether either is so.
fn either(a: bool, b: bool) -> bool
    ensures { result ≡ (a || b) }
{
    a || b
}

/// Tells whether a step writes where notices go.
fn writes_notice(step: AnyStep) -> bool
    ensures { result ≡ rules.writes_notice step }
{
    match step {
        AnyStep::WriteNotice => true,
        _ => false,
    }
}

/// Tells whether a step leaves a number of the old place 0.
fn shuts(step: AnyStep, number: Number) -> bool
    ensures { result ≡ rules.shuts number step }
{
    match step {
        AnyStep::TakeNumber(m) | AnyStep::ZeroNumber(AnyPlace::Old, m) => m == number,
        _ => false,
    }
}

/// Tells whether a step gives the old place back.
fn frees(step: AnyStep) -> bool
    ensures { result ≡ rules.frees step }
{
    match step {
        AnyStep::Free => true,
        _ => false,
    }
}
