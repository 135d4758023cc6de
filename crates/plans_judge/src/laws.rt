//! What the definitions of this crate mean, as laws: each function does nothing, and its clauses
//! are what was proved.

ghost use Rattle.std.specs.Prelude.{◌≡◌, ◌≢◌, ℕ, true, List};
ghost use Rattle.std.specs.List.{All};
ghost use Rattle.plans_rules.specs.Setting.{Setting};
ghost use Rattle.plans_rules.specs.Rules.{accepts};
ghost use Rattle.plans_rules.specs.Safe.{IsInFile, IsSafe, IsTold};
ghost use Rattle.plans_judge.specs.Verdicts.{verdict_on};

use crate::verdict::Judgement;
use plans_rules::{AnyStep, Rule};

/// The verdict that is asked of a judge (`verdict_on`) is right: it accepts just what keeps all six
/// rules, which is safe, and into memory tells its host; what it refuses by a rule of safety is not
/// safe; and what it refuses by the rule on notices is safe. So it is right too where a judge that
/// answers by it has no memory, and answers nothing.
#[tactic(auto, using(crate::proofs::VerdictLemmas::accepted_keeps, crate::proofs::VerdictLemmas::keeps_accepted, crate::proofs::VerdictLemmas::accepted_safe, crate::proofs::VerdictLemmas::accepted_told, crate::proofs::VerdictLemmas::broken_unsafe, crate::proofs::VerdictLemmas::notice_safe))]
pub fn the_verdict_is_right()
    ensures keeps { (d : Setting) (plan : List AnyStep) → verdict_on d plan ≡ Judgement.Accepted
        → accepts d plan ≡ true }
    ensures accepted { (d : Setting) (plan : List AnyStep) → accepts d plan ≡ true
        → verdict_on d plan ≡ Judgement.Accepted }
    ensures safe { (d : Setting) (plan : List AnyStep) → verdict_on d plan ≡ Judgement.Accepted
        → IsSafe d plan }
    ensures told { (d : Setting) (plan : List AnyStep) → verdict_on d plan ≡ Judgement.Accepted
        → d.in_memory ≡ true → IsTold d plan }
    ensures refused { (d : Setting) (plan : List AnyStep) (rule : Rule) (before : ℕ)
        → All (IsInFile d.words) plan → verdict_on d plan ≡ Judgement.Refused rule before
        → rule ≢ Rule.Notice → ¬ IsSafe d plan }
    ensures notice { (d : Setting) (plan : List AnyStep) (before : ℕ)
        → verdict_on d plan ≡ Judgement.Refused Rule.Notice before → IsSafe d plan }
{}
