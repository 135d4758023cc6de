//! Bits that a mask picks out of a number, packed together and put back in their places.
//!
//! AIA 1.0, IOMMU Support for MSIs to Virtual Machines: extract.

ghost use Rattle.std.specs.Prelude.{◌≡◌};
ghost use Rattle.aia_word.specs.Packed.{extract, deposit};

/// Packs the bits of `x` at the ones of `mask`: gives them in order from bit 0 on, the lowest
/// first, and 0 above them.
pub fn extract(x: u64, mask: u64) -> u64
    ensures { result ≡ extract x mask }
{
    let mut packed = 0;
    let mut at = 0u32;
    for i in 0..64u32 {
        if mask >> i == 0 {
            break;
        }
        if (mask >> i) % 2 == 1 {
            packed |= ((x >> i) % 2) << at;
            at += 1;
        }
    }
    packed
}

/// Puts the lowest bits of `x` at the ones of `mask`: gives them in order, the lowest first, and 0
/// at all other bits.
pub fn deposit(x: u64, mask: u64) -> u64
    ensures { result ≡ deposit x mask }
{
    let mut spread = 0;
    let mut at = 0u32;
    for i in 0..64u32 {
        if (mask >> i) % 2 == 1 {
            spread |= ((x >> at) % 2) << i;
            at += 1;
        }
    }
    spread
}
