//! A plan is judged.

ghost use Rattle.std.specs.Prelude.{◌≡◌, ◌≢◌, ℕ, true, List, [], length, IfOk, Ok};
ghost use Rattle.std.specs.List.{All};
ghost use Rattle.plans_rules.specs.Setting.{setting_of};
ghost use Rattle.plans_rules.specs.Safe.{IsInFile, IsSafe, IsTold};
ghost use Rattle.plans_rules.specs.Rules.{Done};
ghost use Rattle.plans_judge.specs.Table.{Stands};
ghost use Rattle.plans_judge.specs.Verdicts.{break_in, first_break, refused_by, rules_of, verdict_on};

use crate::table::Table;
use crate::verdict::Judgement;
use plans_rules::{AnyStep, RouteKind, Rule, Terms};
use std::alloc::{AllocError, Global};

/// A part of the rules.
#[derive(Clone, Copy)]
pub(crate) enum Part {
    /// The five that decide whether a plan is safe.
    Safety,

    /// The one on notices.
    Telling,
}

/// Where a plan breaks a rule: at the step with so many before it, or in its end.
#[derive(Clone, Copy)]
pub(crate) struct Break {
    pub(crate) rule: Rule,
    pub(crate) before: usize,
}

/// Judges a plan whose steps name only words of the file, with these producers and on these terms.
///
/// `Accepted` says that the plan keeps all rules: so it is safe, and into memory it tells its host,
/// wherever between its steps the producers store. `Refused` has the first break of a rule of
/// safety, and then the plan is not safe; or, where there is none, the first break of the rule on
/// notices, and then it is safe. `Err`: there is no memory for the table, which has some bytes a
/// producer and a word.
pub fn judge(
    alloc: Global,
    producers: &[RouteKind],
    terms: Terms,
    plan: &[AnyStep],
) -> Result<Judgement, AllocError>
    requires inside { All (IsInFile terms.words) plan.now }
    ensures verdict { IfOk result (λ verdict.
        verdict ≡ verdict_on (setting_of producers.now terms) plan.now) }
    ensures safe { result ≡ Ok Judgement.Accepted
        → IsSafe (setting_of producers.now terms) plan.now }
    ensures told { result ≡ Ok Judgement.Accepted → terms.in_memory ≡ true
        → IsTold (setting_of producers.now terms) plan.now }
    ensures refused { (rule : Rule) (before : ℕ) → result ≡ Ok (Judgement.Refused rule before)
        → rule ≢ Rule.Notice → ¬ IsSafe (setting_of producers.now terms) plan.now }
    ensures notice { (before : ℕ) → result ≡ Ok (Judgement.Refused Rule.Notice before)
        → IsSafe (setting_of producers.now terms) plan.now }
{
    let verdict = first_verdict(alloc, producers, terms, plan)?;
    Ok(verdict)
}

/// Gives the verdict on a plan. `Err`: there is no memory for the table.
fn first_verdict(
    alloc: Global,
    producers: &[RouteKind],
    terms: Terms,
    plan: &[AnyStep],
) -> Result<Judgement, AllocError>
    requires inside { All (IsInFile terms.words) plan.now }
    ensures { IfOk result (λ verdict.
        verdict ≡ verdict_on (setting_of producers.now terms) plan.now) }
{
    if let Some(broken) = break_in(alloc, producers, terms, plan, Part::Safety)? {
        return Ok(refused_by(broken));
    }
    if let Some(broken) = break_in(alloc, producers, terms, plan, Part::Telling)? {
        return Ok(refused_by(broken));
    }
    Ok(Judgement::Accepted)
}

/// Gives the verdict that a break leads to.
fn refused_by(broken: Break) -> Judgement
    ensures { result ≡ refused_by broken }
{
    Judgement::Refused {
        rule: broken.rule,
        before: broken.before,
    }
}

/// Gives the first break of a part of the rules. `None`: the plan keeps it. `Err`: there is no
/// memory for the table.
fn break_in(
    alloc: Global,
    producers: &[RouteKind],
    terms: Terms,
    plan: &[AnyStep],
    part: Part,
) -> Result<Option<Break>, AllocError>
    requires inside { All (IsInFile terms.words) plan.now }
    ensures { IfOk result (λ broken.
        broken ≡ break_in part (setting_of producers.now terms) plan.now) }
{
    let mut table = Table::new(alloc, producers, terms)?;
    for before in 0..plan.len() {
        let step = plan[before];
        match table.refusing(part, step) {
            Some(rule) => return Ok(Some(Break { rule, before })),
            None => table.step(step),
        }
    }
    Ok(break_at_end(&table, part, plan.len()))
}

/// Gives the break in the end of a plan of so many steps. `None`: there is none.
fn break_at_end(table: &Table, part: Part, before: usize) -> Option<Break>
    ensures { (producers : List RouteKind) (done : Done) → Stands table.now producers done
        → result ≡ first_break (rules_of part) (setting_of producers table.now.terms) done
        before [] }
{
    let rule = table.refusing_end(part)?;
    Some(Break { rule, before })
}
