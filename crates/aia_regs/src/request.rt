ghost use Rattle.std.specs.Prelude.{◌≡◌};
ghost use Rattle.aia_regs.specs.Request.{requested};

use crate::swap32;

/// Gives the identity that a 32-bit store at `offset` of a file's page asks for, where the file has
/// the identities 1 to `n`.
///
/// Offset 0 takes the identity little-endian, offset 4 big-endian. `None` at every other offset,
/// and where the number is 0 or above `n`: such a store is ignored.
///
/// AIA 1.0, IMSIC, "Memory region for an interrupt file".
pub fn requested(n: u32, offset: u32, value: u32) -> Option<u32>
    ensures { result ≡ requested n offset value }
{
    let number = match offset {
        0 => value,
        4 => swap32(value),
        _ => return None,
    };
    if 1 <= number && number <= n {
        Some(number)
    } else {
        None
    }
}
