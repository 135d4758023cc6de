//! What the definitions of this crate mean, as laws: each function does nothing, and its clauses
//! are what was proved.

ghost use Rattle.std.specs.Prelude.{◌≡◌, ℕ, List, Some};
ghost use Rattle.plans_rules.specs.Setting.{setting_of};
ghost use Rattle.plans_counterexamples.specs.Run.{Loses};
ghost use Rattle.plans_counterexamples.specs.Search.{losing_run_of};
ghost use Rattle.plans_counterexamples.specs.Untold.{LeavesUntold};
ghost use Rattle.plans_counterexamples.specs.UntoldSearch.{untold_run_of};

use crate::search::Losing;
use crate::untold::UntoldRun;
use plans_rules::{AnyStep, RouteKind, Rule, Terms};

/// A run that the definition of the search finds is a run of the machine, from a start, that does
/// not end as it has to.
pub fn what_is_found_loses()
    ensures { (rule : Rule) (producers : List RouteKind) (terms : Terms) (plan : List AnyStep)
        (before : ℕ) (found : Losing) → losing_run_of rule producers terms plan before ≡ Some found
        → Loses (setting_of producers terms) plan found.run }
{}

/// One that the definition of the other search finds is a run of the machine, from a start, after
/// which an identity stands out in the new place, and the host was not told.
pub fn what_is_found_leaves_the_host_untold()
    ensures { (producers : List RouteKind) (terms : Terms) (plan : List AnyStep) (run : UntoldRun)
        → untold_run_of producers terms plan ≡ Some run
        → LeavesUntold (setting_of producers terms) plan run }
{}
