//! A plan is judged.

ghost use Rattle.std.specs.Prelude.{◌≡◌};
ghost use Rattle.std.specs.List.{All};
ghost use Rattle.aia_plan.specs.Plan.{IsWidth, IsInside};
ghost use Rattle.aia_plan.specs.Safe.{IsSafe};
ghost use Rattle.aia_audit.specs.Verdicts.{verdict_on};

use crate::behind::Behind;
use crate::verdict::Verdict;
use aia_plan::{Kind, Step};

/// Judges the plan of a move of a kind between places whose sets have `words` words of 64
/// identities, which is 1, 2, 4, 8, 16 or 32; each word that the plan names is one of them.
///
/// `Accepted` says that the plan keeps the rule, and so that it is safe: wherever between its steps
/// devices and other virtual harts store, no interrupt is lost or doubled, no enable either, and
/// nothing leads to the old place or is left there. `Refused` has the least part of the rule that
/// the plan fails, 1 to 4. Nothing is allocated. Profile.
pub fn audit(kind: Kind, words: u32, plan: &[Step]) -> Verdict
    requires width { IsWidth words }
    requires inside { All (IsInside words) plan.now }
    ensures verdict { result ≡ verdict_on kind words plan.now }
    ensures safe { result ≡ Verdict.Accepted → IsSafe words plan.now }
{
    let mut behind = Behind::none();
    for at in (0..plan.len()).rev() {
        behind = behind.with(kind, plan[at]);
    }
    behind.verdict(kind, words)
}
