ghost use Rattle.std.specs.Prelude.{◌≡◌, ℕ, ◌+◌, ◌^◌, ◌<◌, ◌≤◌, List, All, slice_get, Option, Some, IfSome};
ghost use Rattle.aia_regs.specs.declared.limits.TheConstants.{SOURCES};
ghost use Rattle.aia_regs.specs.Top.{Pair, topi_value};
ghost use Rattle.aia_domain.specs.Order.{IsRising};
ghost use Rattle.aia_word.specs.Top.{lets_through};
ghost use Rattle.aia_domain.specs.Domain.{IsPairOfSource};
ghost use Rattle.aia_direct.specs.Front.{if_through, first_through};

use aia_regs::put_bits;

/// The candidates of a hart, pairs of a priority and a source's number in rising order, which can
/// be read by counted looks alone.
pub trait Front {
    ghost pairs: { Self → List Pair };

    ghost count: { Self → ℕ };

    ghost IsSamePlace: { Self → Self → Type 0 };

    /// Looks at the pair at a place, counted from 0; `None` exactly past the end.
    fn at(&mut self, place: usize) -> Option<(u32, u32)>
        ensures pair { result ≡ slice_get (pairs self.old) place }
        ensures rising { IsRising (pairs self.old) }
        ensures small { All IsPairOfSource (pairs self.old) }
        ensures pairs { pairs self.new ≡ pairs self.old }
        ensures count { count self.new ≡ count self.old + 1 }
        ensures same_place { IsSamePlace self.old self.new };

    ghost same_place_follows: { (a b c : Self) → IsSamePlace a b → IsSamePlace b c
        → IsSamePlace a c };
}

/// Gives what `topi` shows of a hart's candidates at a threshold: the number and the priority of
/// the first that the threshold lets through; 0 where it lets none through. Since they rise, it
/// takes just one look, however many there are.
pub fn front_search<T: Front>(front: &mut T, ithreshold: u32) -> u32
    ensures top { result ≡ topi_value (first_through ithreshold (T.pairs front.old)) }
    ensures small { IfSome (first_through ithreshold (T.pairs front.old)) IsPairOfSource }
    ensures pairs { T.pairs front.new ≡ T.pairs front.old }
    ensures one_look { T.count front.new ≡ T.count front.old + 1 }
    ensures same_place { T.IsSamePlace front.old front.new }
{
    match front.at(0) {
        Some((priority, s)) => shown_through(ithreshold, priority, s),
        None => 0,
    }
}

/// Gives what `topi` shows of a pair, 0 where the threshold holds it back.
fn shown_through(threshold: u32, priority: u32, s: u32) -> u32
    requires priority { priority < 2 ^ 8 }
    requires number { s ≤ SOURCES }
    ensures { result ≡ topi_value (if_through threshold (Some (priority, s))) }
{
    if lets_through(threshold, priority) {
        topi_value(priority, s)
    } else {
        0
    }
}

/// Tells whether the threshold lets a priority through.
fn lets_through(threshold: u32, priority: u32) -> bool
    ensures { result ≡ lets_through threshold priority }
{
    threshold == 0 || priority < threshold
}

/// Gives what `topi` reads, by the pair on top.
fn topi_value(priority: u32, s: u32) -> u32
    requires priority { priority < 2 ^ 8 }
    requires number { s ≤ SOURCES }
    ensures { result ≡ topi_value (Some (priority, s)) }
{
    put_bits(put_bits(0, 25, 16, u64::from(s)), 7, 0, u64::from(priority)) as u32
}
