//! What the definitions of this crate mean, as laws: each function does nothing, and its clauses
//! are what was proved.

ghost use Rattle.std.specs.Prelude.{◌≡◌, ℕ, List, map};
ghost use Rattle.aia_model.specs.Text.{texts_of};
ghost use Rattle.aia_plan.specs.Plan.{core_plan};
ghost use Rattle.aia_audit.specs.CoreAccesses.{access_of, core_accesses};
ghost use Rattle.aia_audit.specs.PlanText.{plan_of};
ghost use Rattle.aia_audit.specs.PlanTexts.{unskipped, Means};

use crate::limits::PLAN_STEPS;
use aia_plan::Kind;

/// The plans of the hypervisor's core, step by step, are the accesses that it makes, in order and
/// for every number of words.
#[tactic(auto, using(crate::proofs::AccessLemmas::core_is))]
pub fn the_plans_of_the_core_are_its_accesses()
    ensures { (kind : Kind) (words : ℕ) → map access_of (core_plan kind words)
        ≡ core_accesses kind words }
{}

/// A reading of bytes means what it says. Where it is a plan, the texts that are not skipped spell
/// its steps, one each, and they are 512 at most. Where it is a number, the text with that number
/// among them, counted from 1, is the first that spells no step, or is the 513th.
#[tactic(auto, using(crate::proofs::TextLemmas::plan_means))]
pub fn a_reading_means_what_it_says()
    ensures { (words : ℕ) (bytes : List ℕ) → Means words (unskipped (texts_of bytes))
        (plan_of words bytes) }
{}

/// A plan that is read of a text has 512 steps at most.
pub fn limits()
    ensures { PLAN_STEPS ≡ 512 }
{}
