//! A plan, as far as its lines are read.

ghost use Rattle.std.specs.Prelude.{◌≡◌, ◌<◌, ◌+◌, ◌++◌, Some, None, OnOk, IfOk, is_some, true, map, decimal, slice_get};
ghost use Rattle.plans_text.specs.PlanFile as file;
ghost use Rattle.plans_text.specs.PlanFile.{AreInFile, plan_of, place_of};

use crate::answer::{push_number, push_verdict};
use crate::limits::{PRODUCERS, STEPS, WORDS};
use crate::line::PlanLine;
use crate::outcome::FileOutcome;
use crate::shown::shown_of;
use plans_judge::{AnyStep, NumberSpot, RouteKind, Terms, judge};
use std::alloc::{AllocError, Global};

/// Where a step was read.
#[derive(Drop)]
pub(crate) struct Mark {
    /// The number of its line in the file, from 1 on.
    pub(crate) line: usize,

    pub(crate) text: Vec<u8>,
}

/// A plan, as far as its lines are read.
#[derive(Drop)]
pub(crate) struct Draft {
    /// Whether any line of it was read.
    is_begun: bool,

    /// The number of its first bad line.
    bad: Option<usize>,

    producers: Vec<RouteKind>,
    terms: Terms,
    steps: Vec<AnyStep>,
    marks: Vec<Mark>,
}

/// Gives what is declared where nothing is.
fn first_terms() -> Terms
    ensures { result ≡ file.first_terms }
{
    Terms {
        words: 1,
        is_fresh: false,
        in_memory: false,
        heeds: false,
        notices_go: true,
        is_inherited: false,
        number_from: NumberSpot::InOld,
        number_to: NumberSpot::InNew,
    }
}

/// Gives the terms that a declaration makes of others. `None`: the line is none, or declares what
/// can't be.
fn terms_with(line: PlanLine, terms: Terms) -> Option<Terms>
    ensures { result ≡ file.terms_with line terms }
{
    match line {
        PlanLine::Words(words) => {
            if 0 < words && words <= WORDS {
                Some(Terms { words, ..terms })
            } else {
                None
            }
        }
        PlanLine::Fresh => Some(Terms {
            is_fresh: true,
            ..terms
        }),
        PlanLine::Memory => Some(Terms {
            in_memory: true,
            ..terms
        }),
        PlanLine::Heeds => Some(Terms {
            heeds: true,
            ..terms
        }),
        PlanLine::Inherited => Some(Terms {
            is_inherited: true,
            ..terms
        }),
        PlanLine::NoticesUnset => Some(Terms {
            notices_go: false,
            ..terms
        }),
        PlanLine::Numbers(number_from, number_to) => Some(Terms {
            number_from,
            number_to,
            ..terms
        }),
        _ => None,
    }
}

/// Tells whether a step names words of the file and producers that are declared.
fn is_known(words: u32, producers: usize, step: AnyStep) -> bool
    ensures { result ≡ file.is_known words producers step }
{
    match step {
        AnyStep::Route(p) | AnyStep::Fence(p) | AnyStep::Switch(p) => (p as usize) < producers,
        AnyStep::Pause(p) | AnyStep::Resume(p) => (p as usize) < producers,
        AnyStep::Zero(_, _, w) => w < words,
        AnyStep::Take(_, w) | AnyStep::Copy(_, w) => w < words,
        AnyStep::Join(_, w) | AnyStep::Put(_, w) => w < words,
        AnyStep::Look(w) => w < words,
        _ => true,
    }
}

/// Makes a list of the bytes of a text. `Err`: there is no memory for it.
fn copied(alloc: Global, text: &[u8]) -> Result<Vec<u8>, AllocError>
    ensures { IfOk result (λ copy. copy.items ≡ text.now) }
{
    let mut copy = Vec::new(alloc);
    copy.extend_from_slice(text)?;
    Ok(copy)
}

impl Draft {
    /// Makes a plan of which no line was read.
    pub(crate) fn new(alloc: Global) -> Draft
        ensures plan { plan_of result ≡ file.no_plan }
        ensures inside { AreInFile result }
    {
        Draft {
            is_begun: false,
            bad: None,
            producers: Vec::new(alloc),
            terms: first_terms(),
            steps: Vec::new(alloc),
            marks: Vec::new(alloc),
        }
    }

    /// Makes a plan that begins by its line `plan`.
    pub(crate) fn begun(alloc: Global) -> Draft
        ensures plan { plan_of result ≡ record file.no_plan { is_begun = true } }
        ensures inside { AreInFile result }
    {
        let mut draft = Draft::new(alloc);
        draft.is_begun = true;
        draft
    }

    /// Tells whether a bad line was read.
    pub(crate) fn is_bad(&self) -> bool
        ensures { result ≡ is_some (plan_of self.now).bad }
    {
        self.bad.is_some()
    }

    /// Notes that a line is bad.
    pub(crate) fn mark_bad(&mut self, line: usize)
        ensures plan { plan_of self.new ≡ file.bad_at line (plan_of self.old) }
        ensures inside { AreInFile self.old → AreInFile self.new }
    {
        self.is_begun = true;
        self.bad = Some(line);
    }

    /// Declares terms, where no step stands yet.
    fn declare(&mut self, line: usize, terms: Option<Terms>)
        ensures plan { plan_of self.new ≡ file.with_terms line terms (plan_of self.old) }
        ensures inside { AreInFile self.old → AreInFile self.new }
    {
        match terms {
            Some(terms) if self.steps.is_empty() => {
                self.is_begun = true;
                self.terms = terms;
            }
            _ => self.mark_bad(line),
        }
    }

    /// Declares a producer, where no step stands yet and there is room. `Err`: there is no memory
    /// for it.
    fn declare_producer(&mut self, line: usize, kind: RouteKind) -> Result<(), AllocError>
        ensures plan { OnOk result
            (plan_of self.new ≡ file.with_producer line kind (plan_of self.old)) }
        ensures inside { AreInFile self.old → AreInFile self.new }
    {
        if self.steps.is_empty() && self.producers.len() < PRODUCERS {
            self.is_begun = true;
            self.producers.push(kind)?;
        } else {
            self.mark_bad(line);
        }
        Ok(())
    }

    /// Adds a step, where it names what is declared and there is room. `Err`: there is no memory
    /// for it.
    fn add_step(
        &mut self,
        alloc: Global,
        line: usize,
        text: &[u8],
        step: AnyStep,
    ) -> Result<(), AllocError>
        ensures plan { OnOk result
            (plan_of self.new ≡ file.with_step line text.now step (plan_of self.old)) }
        ensures inside { AreInFile self.old → AreInFile self.new }
    {
        if is_known(self.terms.words, self.producers.len(), step) && self.steps.len() < STEPS {
            let text = copied(alloc, text)?;
            self.is_begun = true;
            self.marks.push(Mark { line, text })?;
            self.steps.push(step)?;
        } else {
            self.mark_bad(line);
        }
        Ok(())
    }

    /// Adds a line that is no `plan`. `Err`: there is no memory for it.
    pub(crate) fn add(
        &mut self,
        alloc: Global,
        number: usize,
        text: &[u8],
        line: PlanLine,
    ) -> Result<(), AllocError>
        ensures plan { OnOk result
            (plan_of self.new ≡ file.with_line number text.now line (plan_of self.old)) }
        ensures inside { AreInFile self.old → AreInFile self.new }
    {
        match line {
            PlanLine::Step(step) => self.add_step(alloc, number, text, step),
            PlanLine::Producer(kind) => self.declare_producer(number, kind),
            line => {
                self.declare(number, terms_with(line, self.terms));
                Ok(())
            }
        }
    }
}

impl Draft {
    /// Appends which line is bad, or the verdict, and gives what came of the plan. `Err`: there is
    /// no memory for it, or for the verdict.
    fn push_found(&self, alloc: Global, out: &mut Vec<u8>) -> Result<FileOutcome, AllocError>
        requires { AreInFile self.now }
        ensures text { OnOk result (out.new.items
            ≡ out.old.items ++ file.bad_or_verdict self.now.bad (plan_of self.now)) }
        ensures outcome { IfOk result
            (λ came. came ≡ file.bad_or_outcome self.now.bad (plan_of self.now)) }
    {
        match self.bad {
            Some(line) => {
                out.extend_from_slice(b"bad line ")?;
                push_number(out, line as u64)?;
                Ok(FileOutcome::BadLine)
            }
            None => {
                let verdict = judge(alloc, &self.producers, self.terms, &self.steps)?;
                let shown = shown_of(&self.producers, self.terms, &self.steps, verdict);
                push_verdict(out, &self.marks, shown, verdict)?;
                Ok(FileOutcome::of(verdict))
            }
        }
    }

    /// Appends what is answered of the plan, with its LF, if any line of it was read, and gives
    /// what came of it. `Err`: there is no memory for it.
    pub(crate) fn push_answer(
        &self,
        alloc: Global,
        out: &mut Vec<u8>,
    ) -> Result<FileOutcome, AllocError>
        requires { AreInFile self.now }
        ensures text { OnOk result
            (out.new.items ≡ out.old.items ++ file.plan_answer (plan_of self.now)) }
        ensures outcome { IfOk result (λ came. came ≡ file.plan_outcome (plan_of self.now)) }
    {
        if self.is_begun {
            let outcome = self.push_found(alloc, out)?;
            out.push(b'\n')?;
            Ok(outcome)
        } else {
            Ok(FileOutcome::NoPlan)
        }
    }
}
