ghost use Rattle.std.specs.Prelude.{◌≡◌, ◌++◌};
ghost use Rattle.std.specs.Option.{option_map};
ghost use Rattle.aia_major.specs.VsMajor.{comes_first, first_of, or_256};
ghost use Rattle.aia_major.specs.Kept.{seen, listed};

use crate::candidate::Candidate;

/// Tells whether a candidate comes before another, or is it.
fn comes_first(a: Candidate, b: Candidate) -> bool
    ensures { result ≡ comes_first (seen a) (seen b) }
{
    a.number < b.number || a.number == b.number && a.rank <= b.rank
}

/// Gives the first of a candidate and another, where each may be missing.
pub(crate) fn first(a: Option<Candidate>, b: Option<Candidate>) -> Option<Candidate>
    ensures { option_map seen result ≡ first_of (listed a ++ listed b) }
{
    match (a, b) {
        (Some(a), Some(b)) if comes_first(a, b) => Some(a),
        (Some(a), None) => Some(a),
        (_, b) => b,
    }
}

/// Gives a priority number, 0 counting as 256.
pub(crate) fn or_256(number: u64) -> u64
    ensures { result ≡ or_256 number }
{
    match number {
        0 => 256,
        number => number,
    }
}
