//! Plans of the shape of ours are judged alike by both checkers: what the rule on these accepts is
//! safe on the machine of anybody's plan. And the plans that the core makes, told in either words,
//! are those that homes follow, and keep the rules there.
#![tactic(auto)]

ghost use Rattle.std.specs.Prelude.{◌≡◌, ℕ, true, None, IfSome};
ghost use Rattle.std.specs.List.{All};
ghost use Rattle.aia_vcpu.specs.declared.end.End.TheVariants.{File, Memory};
ghost use Rattle.aia_vcpu.specs.declared.access.Access.{Access};
ghost use Rattle.aia_plan.specs.Plan.{WrittenPlan, IsInside, core_plan};
ghost use Rattle.aia_plan.specs.Rule.{failing};
ghost use Rattle.plans_rules.specs.Rows.{AreAccepted, widths};
ghost use Rattle.plans_rules.specs.Rules.{moves};
ghost use Rattle.plans_rules.specs.Safe.{IsSafe, IsTold};
ghost use Rattle.plans_of_aia.specs.Told.{told, told_plan, joined_plan, told_setting, shaped, shaped_plan};
ghost use Rattle.plans_of_aia.specs.Translated.{access_of, shape_setting, translated};

use aia_plan::Kind;

/// A plan of our shape that keeps its rule keeps the rules of safety of anybody's plan, once it is
/// told in those words; so it is safe on that machine too, whatever both producers do.
#[tactic(auto, using(crate::proofs::TieLemmas::kept_there, crate::proofs::TieLemmas::safe_there))]
pub fn accepted_plans_of_ours_are_accepted_there()
    ensures moves { (kind : Kind) (words : ℕ) (plan : WrittenPlan) → All (IsInside words) plan
        → failing kind words plan ≡ None → moves (shape_setting words) (translated plan) ≡ true }
    ensures safe { (kind : Kind) (words : ℕ) (plan : WrittenPlan) → All (IsInside words) plan
        → failing kind words plan ≡ None → IsSafe (shape_setting words) (translated plan) }
{}

/// The plans that the core makes, told as anybody's plans, keep all rules, for files of 1, 2, 4, 8,
/// 16 and 32 words. They are those that homes follow (`aia_vcpu`), each access a step.
#[tactic(auto, using(crate::proofs::ToldLemmas::leave_keeps, crate::proofs::ToldLemmas::arrive_keeps, crate::proofs::ToldLemmas::shift_keeps))]
pub fn the_plans_of_the_core_keep_the_rules_there()
    ensures leave { AreAccepted widths (told_setting File Memory) (told_plan File Memory) }
    ensures arrive { AreAccepted widths (told_setting Memory File) (told_plan Memory File) }
    ensures shift { AreAccepted widths (told_setting File File) (told_plan File File) }
{}

/// So do these plans where enables are joined to those of the new place, and not put over them: a
/// new place holds none.
#[tactic(auto, using(crate::proofs::ToldLemmas::leave_joins, crate::proofs::ToldLemmas::arrive_joins, crate::proofs::ToldLemmas::shift_joins))]
pub fn the_plans_of_the_core_may_join_enables()
    ensures leave { AreAccepted widths (told_setting File Memory) (joined_plan File Memory) }
    ensures arrive { AreAccepted widths (told_setting Memory File) (joined_plan Memory File) }
    ensures shift { AreAccepted widths (told_setting File File) (joined_plan File File) }
{}

/// As the core makes them they are safe on that machine, whatever both producers do, and the leave
/// tells its host.
#[tactic(auto, using(crate::proofs::ToldLemmas::leave_safe, crate::proofs::ToldLemmas::arrive_safe, crate::proofs::ToldLemmas::shift_safe, crate::proofs::ToldLemmas::leave_tells))]
pub fn the_plans_of_the_core_are_safe_there()
    ensures leave { All (λ words. IsSafe (told_setting File Memory words)
        (told_plan File Memory words)) widths }
    ensures arrive { All (λ words. IsSafe (told_setting Memory File words)
        (told_plan Memory File words)) widths }
    ensures shift { All (λ words. IsSafe (told_setting File File words)
        (told_plan File File words)) widths }
    ensures told { All (λ words. IsTold (told_setting File Memory words)
        (told_plan File Memory words)) widths }
{}

/// The plans of the core as plans of our shape (`core_plan` of `aia_plan`) are those that homes
/// follow too, access by access, for every number of words.
#[tactic(auto, using(crate::proofs::ToldLemmas::core_is_shaped))]
pub fn the_plans_of_the_core_are_those_of_homes()
    ensures { (kind : Kind) (words : ℕ) → core_plan kind words ≡ shaped_plan kind words }
{}

/// An access is the same step of anybody's plan, whether it is told at once or as a step of our
/// shape; but for those of which the rule on plans of our shape says nothing.
#[tactic(auto, using(crate::proofs::ToldLemmas::told_alike))]
pub fn an_access_is_told_alike_both_ways()
    ensures { (kind : Kind) (access : Access) → IfSome (access_of (shaped kind access))
        (λ step. told access ≡ step) }
{}
