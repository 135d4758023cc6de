ghost use Rattle.std.specs.Prelude.{◌≡◌};
ghost use Rattle.std.specs.Int.{swap_bytes, w32};

/// Reverses the four bytes of a word, as a number written to a big-endian register has them.
///
/// AIA 1.0, IMSIC, "Memory region for an interrupt file": `seteipnum_be`.
pub fn swap32(x: u32) -> u32
    ensures { result ≡ swap_bytes w32 x }
{
    x.swap_bytes()
}
