//! What the definitions of this crate mean, as laws: each function does nothing, and its clauses
//! are what was proved.

ghost use Rattle.std.specs.Prelude.{◌≡◌, ℕ, Option};
ghost use Rattle.aia_regs.specs.Top.{Pair, NamesItself, least_pair};
ghost use Rattle.aia_domain.specs.Order.{ordered};
ghost use Rattle.aia_domain.specs.Domain.{DomainState, candidates};
ghost use Rattle.aia_direct.specs.Front.{through, first_through};
ghost use Rattle.aia_direct.specs.Idc.{IdcState, top_shown};

/// What is on top for a hart is the first of its candidates that the threshold lets through; and
/// of pairs in rising order the first that is let through is the least of those that are.
///
/// AIA 1.0, APLIC, "Interrupt delivery directly by the APLIC".
pub fn the_first_candidate_let_through_is_on_top()
    ensures top { (c : IdcState) (d : DomainState) (hart : ℕ)
        → top_shown c d hart ≡ first_through c.ithreshold (candidates d hart) }
    ensures least { (f : ℕ → Option Pair) (threshold from count : ℕ) → NamesItself f
        → first_through threshold (ordered f from count)
        ≡ least_pair (through threshold f) from count }
{}
