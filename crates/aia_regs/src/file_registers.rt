ghost use Rattle.std.specs.Prelude.{◌≡◌};
ghost use Rattle.aia_regs.specs.FileRegisters.{register_of};

/// A register of an interrupt file, as a select number names it.
///
/// AIA 1.0, IMSIC, "Indirectly accessed interrupt-file registers".
#[derive(Clone, Copy, Debug, PartialEq, Eq)]
pub enum FileReg {
    /// `eidelivery`: 1 where the file may signal its hart, 0 where it may not.
    Delivery,
    /// `eithreshold`: identities from it on are held back; 0 holds none back.
    Threshold,
    /// `eip` with this even index `k`: the pending bits of the identities `32k` to `32k + 63`.
    Pending(u32),
    /// `eie` with this even index `k`: the enable bits of the identities `32k` to `32k + 63`.
    Enable(u32),
    /// A number that is reserved: it reads 0, and a write is ignored.
    Reserved,
    /// An odd `eip` or `eie`, which doesn't exist at XLEN 64: an access is a fault.
    Odd,
    /// Any other number: an access is a fault. Profile.
    Outside,
}

/// Gives the register that a select number names: the index of an `eip` or `eie` is even and below
/// 64; a number below 0x70 or above 0xff names `Outside`.
pub fn file_reg(select: u64) -> FileReg
    ensures { result ≡ register_of select }
{
    match select {
        0x70 => FileReg::Delivery,
        0x72 => FileReg::Threshold,
        0x71..=0x7f => FileReg::Reserved,
        0x80..=0xff if select % 2 == 1 => FileReg::Odd,
        0x80..=0xbf => FileReg::Pending((select - 0x80) as u32),
        0xc0..=0xff => FileReg::Enable((select - 0xc0) as u32),
        _ => FileReg::Outside,
    }
}
