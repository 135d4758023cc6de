//! The steps that turn the routes: part 1 of the rule.

ghost use Rattle.std.specs.Prelude.{◌≡◌, true, not, ◌&&◌, ◌||◌, [], ◌∷◌};
ghost use Rattle.aia_plan.specs.Plan.{WrittenPlan};
ghost use Rattle.aia_plan.specs.Rule.{turns_routes, own_record, other_records};
ghost use Rattle.aia_audit.specs.Behind.{is_leave, routes_behind};

use aia_plan::{Kind, Step};

/// Which of the steps that turn the routes stand after a step of a plan.
#[derive(Clone, Copy)]
pub struct Routes {
    word1: bool,
    word0: bool,
    fence: bool,
    /// A step that writes the G-stage record, of whichever kind of move.
    any_record: bool,
    /// One of a move of another kind than the plan's.
    other_record: bool,
    gfence: bool,
    /// None of them stands there twice, or after one that must come after it.
    in_order: bool,
}

/// Tells whether a move of a kind says where notices go, as one to memory does.
fn is_leave(kind: Kind) -> bool
    ensures { result ≡ is_leave kind }
{
    kind == Kind::Leave
}

impl Routes {
    /// Gives what stands after the last step of a plan: nothing.
    pub fn none() -> Routes
        ensures { (kind : Kind) → result ≡ routes_behind kind [] }
    {
        Routes {
            word1: false,
            word0: false,
            fence: false,
            any_record: false,
            other_record: false,
            gfence: false,
            in_order: true,
        }
    }

    /// Gives what stands after the step before `step`.
    pub fn with(self, kind: Kind, step: Step) -> Routes
        ensures { (later : WrittenPlan) → self ≡ routes_behind kind later
            → result ≡ routes_behind kind (step ∷ later) }
    {
        match step {
            Step::Word1 => Routes {
                word1: true,
                in_order: self.in_order && !self.word1,
                ..self
            },
            Step::Word0 => Routes {
                word0: true,
                in_order: self.in_order && !self.word1 && !self.word0,
                ..self
            },
            Step::Fence => Routes {
                fence: true,
                in_order: self.in_order && !self.word0 && !self.fence,
                ..self
            },
            Step::Map => self.with_record(kind != Kind::Arrive),
            Step::Unmap => self.with_record(kind != Kind::Leave),
            Step::Remap => self.with_record(kind != Kind::Shift),
            Step::GFence => Routes {
                gfence: true,
                in_order: self.in_order && !self.any_record && !self.gfence,
                ..self
            },
            _ => self,
        }
    }

    /// Gives what stands after the step before one that writes the record, in a move of another
    /// kind than the plan's or not.
    fn with_record(self, other: bool) -> Routes
        ensures { result ≡ record self {
          any_record = true;
          other_record = other || self.other_record;
          in_order = self.in_order && not self.any_record;
        } }
    {
        Routes {
            any_record: true,
            other_record: other || self.other_record,
            in_order: self.in_order && !self.any_record,
            ..self
        }
    }

    /// Tells whether a pending word may be taken before these steps: no fence is among them.
    pub fn lets_take(self) -> bool
        ensures { result ≡ (not self.fence && not self.gfence) }
    {
        !self.fence && !self.gfence
    }

    /// Tells whether a plan keeps part 1 of the rule, of which this is all that stands in it.
    #[tactic(auto, using(crate::proofs::RoutesLemmas::turned))]
    pub fn are_turned(self, kind: Kind) -> bool
        ensures { (plan : WrittenPlan) → self ≡ routes_behind kind plan
            → result ≡ turns_routes kind plan }
    {
        self.in_order
            & self.word0
            & self.fence
            & self.any_record
            & !self.other_record
            & self.gfence
            & (self.word1 == is_leave(kind))
    }
}
