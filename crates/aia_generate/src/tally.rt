//! The tally of a script's lines as they are answered.

ghost use Rattle.std.specs.Prelude.{◌≡◌, List, [], ◌∷◌, ◌++◌};
ghost use Rattle.aia_model.specs.declared.line.Line.{Line};
ghost use Rattle.aia_model.specs.Answer.{answer, after_lines};
ghost use Rattle.aia_generate.specs.Summary.{identity_shown, claim_of};
ghost use Rattle.aia_generate.specs.Tally.{tally_after, Tallies};

use aia_model::{Answer, Line};
use aia_regs::{Csr, Op};

/// Gives the identity that the answer to a claim shows; `None` where nothing was on top, or it was
/// refused.
///
/// AIA 1.0, IMSIC, "Top external interrupt CSRs".
fn identity_shown(answer: &Answer) -> Option<u64>
    ensures { result ≡ identity_shown answer.now }
{
    match *answer {
        Answer::Wide(0) => None,
        Answer::Wide(value) => Some(value % 65536),
        _ => None,
    }
}

/// Gives the identity that a line claimed, given its answer; `None` where it claimed none: the
/// lines that claim write `stopei`.
fn claim_of(line: &Line, answer: &Answer) -> Option<u64>
    ensures { result ≡ claim_of line.now answer.now }
{
    match line {
        Line::GuestCsr {
            csr: Csr::Topei,
            op: Op::Write(_),
            ..
        } => identity_shown(answer),
        Line::HostCsr {
            csr: Csr::Topei,
            op: Op::Write(_),
            ..
        } => identity_shown(answer),
        _ => None,
    }
}

/// How many lines were answered, how many of them claimed an identity, and the sum of the
/// identities claimed.
#[derive(Clone, Copy, Debug, PartialEq, Eq)]
pub struct Tally {
    lines: u64,
    claims: u64,
    sum: u64,
}

impl Tally {
    /// Makes the tally of no lines.
    #[tactic(auto, unfolding(crate::specs::Summary::claims_from))]
    pub fn new() -> Tally
        ensures { Tallies result [] }
    {
        Tally {
            lines: 0,
            claims: 0,
            sum: 0,
        }
    }

    /// Gives how many lines were counted, up to 2^64 - 1.
    pub fn lines(&self) -> u64
        ensures { result ≡ self.now.lines }
    {
        self.lines
    }

    /// Gives how many of the lines claimed an identity, up to 2^64 - 1.
    pub fn claims(&self) -> u64
        ensures { result ≡ self.now.claims }
    {
        self.claims
    }

    /// Gives the sum of the identities claimed, modulo 2^64.
    pub fn sum(&self) -> u64
        ensures { result ≡ self.now.sum }
    {
        self.sum
    }

    /// Counts a line that claimed an identity, or none.
    fn count_claim(&mut self, claim: Option<u64>)
        ensures { self.new ≡ tally_after self.old claim }
    {
        self.lines = self.lines.saturating_add(1);
        if let Some(identity) = claim {
            self.claims = self.claims.saturating_add(1);
            self.sum = self.sum.wrapping_add(identity);
        }
    }

    /// Counts a line, and the identity that it claimed, given its answer. The counts stay at
    /// 2^64 - 1 once they are there, and the sum wraps at 2^64.
    pub fn count(&mut self, line: &Line, given: &Answer)
        ensures one_more { self.new ≡ tally_after self.old (claim_of line.now given.now) }
        ensures of_lines { (lines : List Line) → Tallies self.old lines
            → given.now ≡ answer (after_lines [] lines) line.now
            → Tallies self.new (lines ++ line.now ∷ []) }
    {
        self.count_claim(claim_of(line, given));
    }
}
