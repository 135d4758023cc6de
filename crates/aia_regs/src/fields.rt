//! Fields of registers: the bits from one place to another.

ghost use Rattle.std.specs.Prelude.{◌≡◌, ℕ, ◌+◌, ◌-◌, ◌^◌, ◌<◌, ◌≤◌};
ghost use Rattle.std.specs.Int.{bit_at};
ghost use Rattle.aia_regs.specs.Fields.{field, with_field, IsOutside};
ghost use Rattle.aia_regs.specs.Operations.{has_bit};

/// Tells whether the bit of `x` at a place, 0 to 63, is a one, the lowest being at 0.
pub fn bit(x: u64, place: u32) -> bool
    requires within { place < 64 }
    ensures { result ≡ has_bit x place }
{
    (x >> place) % 2 == 1
}

/// Gives the field `hi:lo` of `x`: its bits from `lo` to `hi`, 0 to 63, `lo` as the lowest.
pub fn bits(x: u64, hi: u32, lo: u32) -> u64
    requires order { lo ≤ hi }
    requires within { hi < 64 }
    ensures value { result ≡ field x hi lo }
    ensures fits { result < 2 ^ (hi - lo + 1) }
{
    let rest = x >> lo;
    let width = hi - lo + 1;
    if width == 64 {
        rest
    } else {
        rest % (1 << width)
    }
}

/// Gives the number `x` with `v`, which fits, in its field `hi:lo`, of the bits 0 to 63; all other
/// bits stay, so that a number of 32 bits is one after it too where `hi` is below 32.
pub fn put_bits(x: u64, hi: u32, lo: u32, v: u64) -> u64
    requires order { lo ≤ hi }
    requires within { hi < 64 }
    requires fits { v < 2 ^ (hi - lo + 1) }
    ensures value { result ≡ with_field x hi lo v }
    ensures put { field result hi lo ≡ v }
    ensures others { (i : ℕ) → IsOutside hi lo i → bit_at result i ≡ bit_at x i }
    ensures word { hi < 32 → x < 2 ^ 32 → result < 2 ^ 32 }
{
    x - (bits(x, hi, lo) << lo) + (v << lo)
}
