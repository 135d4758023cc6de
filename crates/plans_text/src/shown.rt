//! What is shown of a plan beside its verdict.

ghost use Rattle.std.specs.Prelude.{◌≡◌};
ghost use Rattle.plans_text.specs.PlanFile as file;

use plans_counterexamples::{Losing, UntoldRun, losing_run, untold_run};
use plans_judge::{AnyStep, Judgement, RouteKind, Rule, Terms};

/// What is shown of a plan beside its verdict.
#[derive(Clone, Copy)]
pub(crate) enum Shown {
    /// Nothing, since it is accepted.
    Nothing,

    /// A run that shows that a rule of safety is broken. `None`: none was found.
    Losing(Option<Losing>),

    /// A run that leaves the host untold, and whether a notice heeds the numbers. `None`: none was
    /// found.
    Untold { run: Option<UntoldRun>, heeds: bool },
}

/// Gives what is shown of a plan.
pub(crate) fn shown_of(
    producers: &[RouteKind],
    terms: Terms,
    plan: &[AnyStep],
    verdict: Judgement,
) -> Shown
    ensures { result ≡ file.shown_of producers.now terms plan.now verdict }
{
    match verdict {
        Judgement::Accepted => Shown::Nothing,
        Judgement::Refused {
            rule: Rule::Notice,
            ..
        } => Shown::Untold {
            run: untold_run(producers, terms, plan),
            heeds: terms.heeds,
        },
        Judgement::Refused { rule, before } => {
            Shown::Losing(losing_run(rule, producers, terms, plan, before))
        }
    }
}
