//! What the definitions of this crate mean, as laws: each function does nothing, and its clauses
//! are what was proved.

ghost use Rattle.std.specs.Prelude.{◌≡◌, ℕ, ◌+◌, ◌<◌, ◌≤◌, ◌↔◌, true, false, length, Option, Some, Contains, AllPairs};
ghost use Rattle.aia_regs.specs.Top.{Pair, NamesItself};
ghost use Rattle.aia_domain.specs.Order.{comes_before, ordered};
ghost use Rattle.aia_domain.specs.InterruptSource.{waiting_pair_at};
ghost use Rattle.aia_domain.specs.Domain.{DomainState, is_ready, ready_from, candidates};

/// The sources that `ready` gives are just those that are to be forwarded, each once, in rising
/// order.
///
/// AIA 1.0, APLIC, "Interrupt forwarding by MSIs".
pub fn ready_sources_are_those_to_be_forwarded()
    ensures members { (d : DomainState) (from s : ℕ) → Contains (ready_from d from) s ↔
        ((from ≤ s) × (s < length d.sources) × (is_ready d s ≡ true)) }
    ensures rising { (d : DomainState) (from : ℕ) → AllPairs (λ x y. x < y) (ready_from d from) }
{}

/// The candidates of a hart are just the pairs of the sources that wait and are aimed at it, where
/// the domain delivers directly and the hart is there; each comes before all that follow it, by
/// priority and then by number.
///
/// AIA 1.0, APLIC, "Interrupt delivery directly by the APLIC".
pub fn candidates_are_the_sources_that_wait_for_a_hart()
    ensures members { (d : DomainState) (hart : ℕ) (p : Pair) → Contains (candidates d hart) p ↔
        ((hart < d.harts) × (d.msi ≡ false) × (1 ≤ p.1) × (p.1 < length d.sources)
        × (waiting_pair_at d.sources hart p.1 ≡ Some p)) }
    ensures rising { (d : DomainState) (hart : ℕ)
        → AllPairs (λ p q. comes_before p q ≡ true) (candidates d hart) }
{}

/// The pairs of some numbers in order are just their pairs; and where each pair has its own number,
/// each comes before all that follow it.
pub fn pairs_in_order_are_those_of_the_numbers()
    ensures members { (c : ℕ → Option Pair) (from count : ℕ) (p : Pair)
        → Contains (ordered c from count) p
        ↔ ((s : ℕ) × (from ≤ s) × (s < from + count) × (c s ≡ Some p)) }
    ensures rising { (c : ℕ → Option Pair) (from count : ℕ) → NamesItself c
        → AllPairs (λ p q. comes_before p q ≡ true) (ordered c from count) }
{}
