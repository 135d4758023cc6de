//! What comes of plans.

ghost use Rattle.std.specs.Prelude.{◌≡◌};
ghost use Rattle.plans_text.specs.Outcomes as outcomes;

use plans_judge::Judgement;

/// What came of plans: the worst that came of any of them. From the best on to the worst.
#[derive(Clone, Copy, Debug, PartialEq, Eq)]
pub enum FileOutcome {
    /// There is no plan.
    NoPlan,

    /// Each plan is accepted.
    Accepted,

    /// A plan is refused, and none has a bad line.
    Refused,

    /// A plan has a bad line.
    BadLine,
}

impl FileOutcome {
    /// Gives the worse of two.
    pub(crate) fn worse(self, other: FileOutcome) -> FileOutcome
        ensures { result ≡ outcomes.worse self other }
    {
        match (self, other) {
            (FileOutcome::BadLine, _) | (_, FileOutcome::BadLine) => FileOutcome::BadLine,
            (FileOutcome::Refused, _) | (_, FileOutcome::Refused) => FileOutcome::Refused,
            (FileOutcome::Accepted, _) | (_, FileOutcome::Accepted) => FileOutcome::Accepted,
            (FileOutcome::NoPlan, FileOutcome::NoPlan) => FileOutcome::NoPlan,
        }
    }

    /// Gives what came of a plan on which this is the verdict.
    pub(crate) fn of(verdict: Judgement) -> FileOutcome
        ensures { result ≡ outcomes.outcome_of verdict }
    {
        match verdict {
            Judgement::Accepted => FileOutcome::Accepted,
            Judgement::Refused { .. } => FileOutcome::Refused,
        }
    }
}

/// The answers to plans, and what came of these.
#[derive(Drop)]
pub struct Answered {
    /// A line for each plan, and one more where it is refused.
    pub text: Vec<u8>,

    pub outcome: FileOutcome,
}
