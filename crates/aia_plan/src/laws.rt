//! What the definitions of this crate mean, as laws: each function does nothing, and its clauses
//! are what was proved.

ghost use Rattle.std.specs.Prelude.{◌≡◌, ℕ, Some, None};
ghost use Rattle.std.specs.List.{All};
ghost use Rattle.aia_plan.specs.Plan.{WrittenPlan, IsWidth, IsInside, core_plan};
ghost use Rattle.aia_plan.specs.Rule.{failing};
ghost use Rattle.aia_plan.specs.Safe.{IsSafe};
ghost use Rattle.aia_plan.specs.Losses.{FailsAlone, Loses, Doubles, LosesEnable, fence_too_early, gfence_too_early, taken_before_fence, taken_before_gfence, taken_together, enables_put_twice, leave_without_notice, leave_by_remap, taken_again};

use crate::Kind;

/// A plan that keeps the rule, and names words of the file alone, is safe: for every number of
/// words, every start, and all that devices and other virtual harts do before, between and after
/// its steps.
#[tactic(auto, using(crate::proofs::RuleIsSafe::rule_is_safe))]
pub fn the_rule_is_safe()
    ensures { (kind : Kind) (words : ℕ) (plan : WrittenPlan) → All (IsInside words) plan
        → failing kind words plan ≡ None → IsSafe words plan }
{}

/// The plans of the hypervisor's core keep the rule, and each word that they name is one of the
/// file's.
#[tactic(auto, using(crate::proofs::CorePlans::plans_keep, crate::proofs::CorePlans::core_is_inside))]
pub fn the_plans_of_the_core_keep_the_rule()
    ensures inside { (kind : Kind) (words : ℕ) → All (IsInside words) (core_plan kind words) }
    ensures keep { (kind : Kind) (words : ℕ) → IsWidth words
        → failing kind words (core_plan kind words) ≡ None }
{}

/// A plan with a run after which an interrupt is lost, or one is pending that nobody asked for, or
/// an enable is lost, is not safe.
#[tactic(auto, using(crate::proofs::LossLemmas::lost_unsafe, crate::proofs::LossLemmas::doubled_unsafe, crate::proofs::LossLemmas::enable_unsafe))]
pub fn a_plan_that_loses_is_not_safe()
    ensures lost { (words : ℕ) (plan : WrittenPlan) (i : ℕ) → Loses words plan i
        → ¬ IsSafe words plan }
    ensures doubled { (words : ℕ) (plan : WrittenPlan) (i : ℕ) → Doubles words plan i
        → ¬ IsSafe words plan }
    ensures enable { (words : ℕ) (plan : WrittenPlan) (i : ℕ) → LosesEnable words plan i
        → ¬ IsSafe words plan }
{}

/// No part of the rule can be left out: for each there is a plan of an arrival that fails it alone
/// and loses an interrupt, or an enable. Part 1: a fence, or a G fence, that comes before what it
/// is to put in force. Part 2: a word that is taken before the fence, or before the G fence. Part
/// 3: two words that are taken before either is put; what the second held is lost, and comes up in
/// the first one's place. Part 4: enables that are put twice.
#[tactic(auto, using(crate::proofs::LossLemmas::fence_too_early_loses, crate::proofs::LossLemmas::gfence_too_early_loses, crate::proofs::LossLemmas::taken_before_fence_loses, crate::proofs::LossLemmas::taken_before_gfence_loses, crate::proofs::LossLemmas::taken_together_loses, crate::proofs::LossLemmas::taken_together_doubles, crate::proofs::LossLemmas::enables_put_twice_loses))]
pub fn each_part_of_the_rule_is_needed()
    ensures part_1_fence { FailsAlone 1 Kind.Arrive 1 fence_too_early
        × Loses 1 fence_too_early 5 }
    ensures part_1_gfence { FailsAlone 1 Kind.Arrive 1 gfence_too_early
        × Loses 1 gfence_too_early 5 }
    ensures part_2_fence { FailsAlone 2 Kind.Arrive 1 taken_before_fence
        × Loses 1 taken_before_fence 5 }
    ensures part_2_gfence { FailsAlone 2 Kind.Arrive 1 taken_before_gfence
        × Loses 1 taken_before_gfence 5 }
    ensures part_3 { FailsAlone 3 Kind.Arrive 2 taken_together
        × Loses 2 taken_together 69 × Doubles 2 taken_together 5 }
    ensures part_4 { FailsAlone 4 Kind.Arrive 1 enables_put_twice
        × LosesEnable 1 enables_put_twice 5 }
{}

/// The rule asks for more than safety does. A leave that does not say where notices go is refused,
/// since a notice may then be lost, of which safety does not speak; so is a plan that writes the
/// record by the step of a move of another kind, since the step then says what the plan does not
/// do; and one that takes a pending word again, when nothing can be left of it.
#[tactic(auto, using(crate::proofs::LossLemmas::leave_without_notice_is_safe, crate::proofs::LossLemmas::leave_by_remap_is_safe, crate::proofs::LossLemmas::taken_again_is_safe))]
pub fn the_rule_asks_for_more_than_safety()
    ensures notice { (failing Kind.Leave 1 leave_without_notice ≡ Some 1)
        × IsSafe 1 leave_without_notice }
    ensures record_step { (failing Kind.Leave 1 leave_by_remap ≡ Some 1)
        × IsSafe 1 leave_by_remap }
    ensures again { (failing Kind.Arrive 1 taken_again ≡ Some 2) × IsSafe 1 taken_again }
{}
