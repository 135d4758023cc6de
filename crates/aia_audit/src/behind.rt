//! What stands after a step of a plan, as far as the rule asks for it: a plan is read from its
//! last step to its first, so that all of it is known when a step is met.

ghost use Rattle.std.specs.Prelude.{◌≡◌, ◌≤◌, [], ◌∷◌};
ghost use Rattle.std.specs.List.{All};
ghost use Rattle.aia_plan.specs.Plan.{WrittenPlan, IsInside};
ghost use Rattle.aia_plan.specs.Rule.{takes_pending, puts_pending, takes_enables, puts_enables, first_failing};
ghost use Rattle.aia_audit.specs.Behind.{behind};
ghost use Rattle.aia_audit.specs.Verdicts.{verdict_by, verdict_on};
ghost use Rattle.aia_regs.specs.declared.limits.TheConstants.{FILE_WORDS};

use crate::routes::Routes;
use crate::takes::Takes;
use crate::verdict::Verdict;
use aia_plan::{Kind, Step};

/// What stands after a step of a plan.
#[derive(Clone, Copy)]
pub struct Behind {
    routes: Routes,
    pending: Takes,
    enables: Takes,
}

/// Gives the word of the pending set that a step takes, if it takes one.
fn takes_pending(step: Step) -> Option<u32>
    ensures { result ≡ takes_pending step }
{
    match step {
        Step::TakeP(word) => Some(word),
        _ => None,
    }
}

/// Gives the word of the pending set that a step puts, if it puts one.
fn puts_pending(step: Step) -> Option<u32>
    ensures { result ≡ puts_pending step }
{
    match step {
        Step::PutP(word) => Some(word),
        _ => None,
    }
}

/// Gives the word of the enabled set that a step takes, if it takes one.
fn takes_enables(step: Step) -> Option<u32>
    ensures { result ≡ takes_enables step }
{
    match step {
        Step::TakeE(word) => Some(word),
        _ => None,
    }
}

/// Gives the word of the enabled set that a step puts, if it puts one.
fn puts_enables(step: Step) -> Option<u32>
    ensures { result ≡ puts_enables step }
{
    match step {
        Step::PutE(word) => Some(word),
        _ => None,
    }
}

/// Gives the verdict, given of each part of the rule whether a plan keeps it.
fn by_parts(turns: bool, takes_late: bool, puts_at_once: bool, moves_enables: bool) -> Verdict
    ensures { result ≡ verdict_by (first_failing 1
        (turns ∷ takes_late ∷ puts_at_once ∷ moves_enables ∷ [])) }
{
    if !turns {
        Verdict::Refused(1)
    } else if !takes_late {
        Verdict::Refused(2)
    } else if !puts_at_once {
        Verdict::Refused(3)
    } else if !moves_enables {
        Verdict::Refused(4)
    } else {
        Verdict::Accepted
    }
}

impl Behind {
    /// Gives what stands after the last step of a plan: nothing.
    pub fn none() -> Behind
        ensures { (kind : Kind) → result ≡ behind kind [] }
    {
        Behind {
            routes: Routes::none(),
            pending: Takes::none(),
            enables: Takes::none(),
        }
    }

    /// Gives what stands after the step before `step`, in the plan of a move of a kind.
    pub fn with(self, kind: Kind, step: Step) -> Behind
        requires { IsInside FILE_WORDS step }
        ensures { (later : WrittenPlan) → self ≡ behind kind later
            → result ≡ behind kind (step ∷ later) }
    {
        let is_late = self.routes.lets_take();
        Behind {
            routes: self.routes.with(kind, step),
            pending: self
                .pending
                .with(takes_pending(step), puts_pending(step), is_late),
            enables: self
                .enables
                .with(takes_enables(step), puts_enables(step), true),
        }
    }

    /// Gives the verdict on a plan, of which this is all that stands in it.
    pub fn verdict(self, kind: Kind, words: u32) -> Verdict
        requires { words ≤ FILE_WORDS }
        ensures { (plan : WrittenPlan) → All (IsInside words) plan → self ≡ behind kind plan
            → result ≡ verdict_on kind words plan }
    {
        let moves_enables = self.enables.are_taken(words) & self.enables.are_put();
        by_parts(
            self.routes.are_turned(kind),
            self.pending.are_taken(words),
            self.pending.are_put(),
            moves_enables,
        )
    }
}
