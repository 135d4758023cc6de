//! What is answered of a plan.

ghost use Rattle.std.specs.Prelude.{◌≡◌, ◌++◌, Some, OnOk, codes, map, decimal, slice_get};
ghost use Rattle.plans_counterexamples.specs.declared.run.Extra.TheVariants as extras;
ghost use Rattle.plans_text.specs.PlanFile as file;
ghost use Rattle.plans_text.specs.PlanFile.{place_of};

use crate::draft::Mark;
use crate::shown::Shown;
use crate::untold::{push_untold, push_words};
use itoa::Buffer;
use plans_counterexamples::{Begin, Extra, Fate, Losing, Run, StoreRoute};
use plans_judge::{Judgement, Number, Rule, WhichSet};
use std::alloc::AllocError;

/// Gives the word of a rule.
fn rule_word(rule: Rule) -> &'static [u8]
    ensures { result.now ≡ file.rule_word rule }
{
    match rule {
        Rule::Routes => b"routes",
        Rule::Words => b"words",
        Rule::Blank => b"blank",
        Rule::Numbers => b"numbers",
        Rule::Freeing => b"freeing",
        Rule::Notice => b"notice",
    }
}

/// Appends a number in decimal. `Err`: there is no memory for it.
pub(crate) fn push_number(out: &mut Vec<u8>, number: u64) -> Result<(), AllocError>
    ensures { OnOk result (out.new.items ≡ out.old.items ++ decimal number) }
{
    let mut buffer = Buffer::new();
    out.extend_from_slice(buffer.format(number).as_bytes())
}

/// Appends the place of a step. `Err`: there is no memory for it.
fn push_mark(out: &mut Vec<u8>, mark: &Mark) -> Result<(), AllocError>
    ensures { OnOk result (out.new.items
        ≡ out.old.items ++ file.place_text (Some (place_of mark.now))) }
{
    out.extend_from_slice(b" at line ")?;
    push_number(out, mark.line as u64)?;
    out.extend_from_slice(b": ")?;
    out.extend_from_slice(&mark.text)
}

/// Appends where a rule is broken: at the step with so many before it, or in the end. `Err`: there
/// is no memory for it.
#[tactic(auto, using(crate::proofs::FileLemmas::place_lemmas))]
fn push_place(out: &mut Vec<u8>, marks: &[Mark], before: usize) -> Result<(), AllocError>
    ensures { OnOk result (out.new.items
        ≡ out.old.items ++ file.place_text (slice_get (map place_of marks.now) before)) }
{
    match marks.get(before) {
        None => out.extend_from_slice(b" in the end"),
        Some(mark) => push_mark(out, mark),
    }
}

/// Appends after which line a store comes, or that it comes before all. `Err`: there is no memory
/// for it.
#[tactic(auto, using(crate::proofs::FileLemmas::place_lemmas))]
fn push_behind_any(out: &mut Vec<u8>, marks: &[Mark], at: usize) -> Result<(), AllocError>
    ensures { OnOk result (out.new.items
        ≡ out.old.items ++ file.behind_text (slice_get (map place_of marks.now) at)) }
{
    match marks.get(at) {
        None => out.extend_from_slice(b" before the first step"),
        Some(mark) => push_behind(out, mark),
    }
}

/// Appends between which lines a store comes that has so many steps before it. `Err`: there is no
/// memory for it.
fn push_between(out: &mut Vec<u8>, marks: &[Mark], before: usize) -> Result<(), AllocError>
    ensures { OnOk result (out.new.items
        ≡ out.old.items ++ file.between_text (map place_of marks.now) before) }
{
    if before == 0 {
        out.extend_from_slice(b" before the first step")
    } else {
        push_behind_any(out, marks, before - 1)
    }
}

/// Appends after which line a store comes. `Err`: there is no memory for it.
fn push_behind(out: &mut Vec<u8>, mark: &Mark) -> Result<(), AllocError>
    ensures { OnOk result (out.new.items
        ≡ out.old.items ++ file.behind_text (Some (place_of mark.now))) }
{
    out.extend_from_slice(b" behind line ")?;
    push_number(out, mark.line as u64)
}

/// Gives the words for a route.
fn route_word(route: StoreRoute) -> &'static [u8]
    ensures { result.now ≡ file.route_word route }
{
    match route {
        StoreRoute::Written => b" by its written route",
        StoreRoute::InForce => b" by its route in force",
    }
}

/// Gives the words for a set.
fn bank_word(bank: WhichSet) -> &'static [u8]
    ensures { result.now ≡ file.bank_word bank }
{
    match bank {
        WhichSet::Pending => b" is pending ",
        WhichSet::Enabled => b" is enabled ",
    }
}

/// Gives the words for where a bit stands at the start.
fn begin_word(begin: Begin) -> &'static [u8]
    ensures { result.now ≡ file.begin_word begin }
{
    match begin {
        Begin::Nowhere => b"nowhere at the start",
        Begin::InOld => b"in the old place at the start",
        Begin::InNew => b"in the new place at the start",
    }
}

/// Appends a store that lands at once. `Err`: there is no memory for it.
pub(crate) fn push_store(
    out: &mut Vec<u8>,
    marks: &[Mark],
    producer: usize,
    before: usize,
    route: StoreRoute,
) -> Result<(), AllocError>
    ensures { OnOk result (out.new.items ≡ out.old.items
        ++ file.extra_text (map place_of marks.now) producer (extras.Stores before route)) }
{
    out.extend_from_slice(b"; producer ")?;
    push_number(out, producer as u64)?;
    out.extend_from_slice(b" stores it")?;
    push_between(out, marks, before)?;
    out.extend_from_slice(route_word(route))
}

/// Appends a store that is sent. `Err`: there is no memory for it.
fn push_sent(
    out: &mut Vec<u8>,
    marks: &[Mark],
    producer: usize,
    before: usize,
    lands: usize,
) -> Result<(), AllocError>
    ensures { OnOk result (out.new.items ≡ out.old.items
        ++ file.extra_text (map place_of marks.now) producer (extras.Sends before lands)) }
{
    out.extend_from_slice(b"; a store of producer ")?;
    push_number(out, producer as u64)?;
    out.extend_from_slice(b" for it is sent")?;
    push_between(out, marks, before)?;
    push_lands(out, marks, lands)
}

/// Appends where a store that is sent lands. `Err`: there is no memory for it.
fn push_lands(out: &mut Vec<u8>, marks: &[Mark], lands: usize) -> Result<(), AllocError>
    ensures { OnOk result (out.new.items ≡ out.old.items
        ++ (codes ", and lands" ++ (file.between_text (map place_of marks.now) lands
        ++ codes ", or sooner, at its fence"))) }
{
    out.extend_from_slice(b", and lands")?;
    push_between(out, marks, lands)?;
    push_words(out, b", or sooner, at its fence")
}

/// Appends the store of a run, where it has one. `Err`: there is no memory for it.
fn push_extra(
    out: &mut Vec<u8>,
    marks: &[Mark],
    producer: usize,
    extra: Extra,
) -> Result<(), AllocError>
    ensures { OnOk result (out.new.items
        ≡ out.old.items ++ file.extra_text (map place_of marks.now) producer extra) }
{
    match extra {
        Extra::Nothing => Ok(()),
        Extra::Stores { before, route } => push_store(out, marks, producer, before, route),
        Extra::Sends { before, lands } => push_sent(out, marks, producer, before, lands),
    }
}

/// Appends the bit that is followed in a run. `Err`: there is no memory for it.
fn push_case(out: &mut Vec<u8>, run: Run) -> Result<(), AllocError>
    ensures { OnOk result (out.new.items ≡ out.old.items ++ file.case_text run) }
{
    push_number(out, run.case.identity)?;
    out.extend_from_slice(bank_word(run.case.bank))?;
    out.extend_from_slice(begin_word(run.begin))
}

/// Gives the word for a number.
fn number_word(number: Number) -> &'static [u8]
    ensures { result.now ≡ file.number_word number }
{
    match number {
        Number::Threshold => b"threshold",
        Number::Delivery => b"delivery",
    }
}

/// Appends the line of a step. `Err`: there is no memory for it.
fn push_line(out: &mut Vec<u8>, mark: &Mark) -> Result<(), AllocError>
    ensures { OnOk result (out.new.items
        ≡ out.old.items ++ (codes "line " ++ decimal (place_of mark.now).line)) }
{
    out.extend_from_slice(b"line ")?;
    push_number(out, mark.line as u64)
}

/// Appends which line it is that a step with so many before it stands at. `Err`: there is no memory
/// for it.
#[tactic(auto, using(crate::proofs::FileLemmas::place_lemmas))]
fn push_line_of(out: &mut Vec<u8>, marks: &[Mark], before: usize) -> Result<(), AllocError>
    ensures { OnOk result (out.new.items
        ≡ out.old.items ++ file.line_text (map place_of marks.now) before) }
{
    match marks.get(before) {
        None => out.extend_from_slice(b"a line"),
        Some(mark) => push_line(out, mark),
    }
}

/// Appends that a route leads to the old place still. `Err`: there is no memory for it.
fn push_not_led(out: &mut Vec<u8>, producer: usize) -> Result<(), AllocError>
    ensures { OnOk result (out.new.items ≡ out.old.items
        ++ (codes "; in the end it is in the old place, where the route of producer "
        ++ (decimal producer ++ codes " leads still"))) }
{
    out.extend_from_slice(b"; in the end it is in the old place, where the route of producer ")?;
    push_number(out, producer as u64)?;
    out.extend_from_slice(b" leads still")
}

/// Appends that a route in force leads to the old place still. `Err`: there is no memory for it.
fn push_unled(out: &mut Vec<u8>, producer: usize) -> Result<(), AllocError>
    ensures { OnOk result (out.new.items ≡ out.old.items
        ++ (codes "; in the end the route in force of producer "
        ++ (decimal producer ++ codes " leads to the old place still"))) }
{
    out.extend_from_slice(b"; in the end the route in force of producer ")?;
    push_number(out, producer as u64)?;
    out.extend_from_slice(b" leads to the old place still")
}

/// Appends that a line takes a word too early. `Err`: there is no memory for it.
fn push_early(out: &mut Vec<u8>, marks: &[Mark], before: usize) -> Result<(), AllocError>
    ensures { OnOk result (out.new.items ≡ out.old.items
        ++ (codes "; in the end it is in the old place, since "
        ++ (file.line_text (map place_of marks.now) before ++ codes " takes its word too early"))) }
{
    out.extend_from_slice(b"; in the end it is in the old place, since ")?;
    push_line_of(out, marks, before)?;
    out.extend_from_slice(b" takes its word too early")
}

/// Appends what becomes of a number: it is not where it has to be, or is left in the old place.
/// `Err`: there is no memory for it.
fn push_number_fate(out: &mut Vec<u8>, number: Number, words: &[u8]) -> Result<(), AllocError>
    ensures { OnOk result (out.new.items ≡ out.old.items
        ++ (codes "; in the end " ++ (file.number_word number ++ words.now))) }
{
    out.extend_from_slice(b"; in the end ")?;
    out.extend_from_slice(number_word(number))?;
    out.extend_from_slice(words)
}

/// Appends what becomes of what a run follows. `Err`: there is no memory for it.
fn push_fate(out: &mut Vec<u8>, marks: &[Mark], run: Run, fate: Fate) -> Result<(), AllocError>
    ensures { OnOk result (out.new.items
        ≡ out.old.items ++ file.fate_text (map place_of marks.now) run fate) }
{
    let number = run.case.number;
    match fate {
        Fate::NotLed => push_not_led(out, run.case.producer),
        Fate::NotTaken => {
            out.extend_from_slice(
                b"; in the end it is in the old place, since nothing takes its word",
            )
        }
        Fate::TakenEarly { before } => push_early(out, marks, before),
        Fate::Unled => push_unled(out, run.case.producer),
        Fate::Held => out.extend_from_slice(b"; in the end it is in the hand alone: it is lost"),
        Fate::Gone => out.extend_from_slice(b"; in the end it is nowhere: it is lost"),
        Fate::LeftOver => {
            out.extend_from_slice(b"; in the end it is in the new place, where nobody asked for it")
        }
        Fate::Misplaced => push_number_fate(out, number, b" is not where it has to be, as it was"),
        Fate::Strayed => out.extend_from_slice(
            b"; the old place is reached after it was given back",
        ),
        Fate::Inherited => {
            push_number_fate(out, number, b" is left in the old place for its next owner")
        }
    }
}

/// Appends the store of a run, and what becomes of what it follows. `Err`: there is no memory for
/// it.
fn push_course(out: &mut Vec<u8>, marks: &[Mark], found: Losing) -> Result<(), AllocError>
    ensures { OnOk result (out.new.items ≡ out.old.items
        ++ (file.extra_text (map place_of marks.now) found.run.case.producer found.run.extra
        ++ file.fate_text (map place_of marks.now) found.run found.fate)) }
{
    push_extra(out, marks, found.run.case.producer, found.run.extra)?;
    push_fate(out, marks, found.run, found.fate)
}

/// Appends a run in a line of its own. `Err`: there is no memory for it.
fn push_whole_run(out: &mut Vec<u8>, marks: &[Mark], found: Losing) -> Result<(), AllocError>
    ensures { OnOk result (out.new.items
        ≡ out.old.items ++ file.run_text (map place_of marks.now) (Some found)) }
{
    out.extend_from_slice(b"\n  run: identity ")?;
    push_case(out, found.run)?;
    push_course(out, marks, found)
}

/// Appends that no run was found. `Err`: there is no memory for it.
pub(crate) fn push_none(out: &mut Vec<u8>) -> Result<(), AllocError>
    ensures { OnOk result (out.new.items ≡ out.old.items ++ file.none_text) }
{
    out.extend_from_slice(b"\n  run: none was found among those that are tried")
}

/// Appends a run, or that none was found. `Err`: there is no memory for it.
fn push_run(out: &mut Vec<u8>, marks: &[Mark], found: Option<Losing>) -> Result<(), AllocError>
    ensures { OnOk result (out.new.items
        ≡ out.old.items ++ file.run_text (map place_of marks.now) found) }
{
    match found {
        None => push_none(out),
        Some(found) => push_whole_run(out, marks, found),
    }
}

/// Appends what is shown beside a verdict. `Err`: there is no memory for it.
fn push_shown(out: &mut Vec<u8>, marks: &[Mark], shown: Shown) -> Result<(), AllocError>
    ensures { OnOk result (out.new.items
        ≡ out.old.items ++ file.shown_text (map place_of marks.now) shown) }
{
    match shown {
        Shown::Nothing => Ok(()),
        Shown::Losing(found) => push_run(out, marks, found),
        Shown::Untold { run, heeds } => push_untold(out, marks, heeds, run),
    }
}

/// Appends a verdict on a plan whose steps were read at these places, and what is shown of it.
/// `Err`: there is no memory for it.
pub(crate) fn push_verdict(
    out: &mut Vec<u8>,
    marks: &[Mark],
    shown: Shown,
    verdict: Judgement,
) -> Result<(), AllocError>
    ensures { OnOk result (out.new.items
        ≡ out.old.items ++ file.verdict_text (map place_of marks.now) shown verdict) }
{
    match verdict {
        Judgement::Accepted => out.extend_from_slice(b"accepted"),
        Judgement::Refused { rule, before } => {
            out.extend_from_slice(b"refused ")?;
            out.extend_from_slice(rule_word(rule))?;
            push_place(out, marks, before)?;
            push_shown(out, marks, shown)
        }
    }
}
