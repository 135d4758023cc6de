//! What writes of `hvictl` and `hviprio1` keep, and the fields of `hvictl`.

ghost use Rattle.std.specs.Prelude.{◌≡◌, ◌^◌, ◌<◌};
ghost use Rattle.aia_major.specs.VsMajor.{hvictl_kept, hviprio1_kept, is_hvictl, vti_of, iid_of, dpr_of, ipriom_of, iprio_of};

use aia_regs::{bit, bits, put_bits};

/// Gives what a write of `hvictl` keeps.
pub(crate) fn hvictl_kept(v: u64) -> u64
    ensures { result ≡ hvictl_kept v }
{
    let vti = put_bits(0, 30, 30, bits(v, 30, 30));
    let vti_and_iid = put_bits(vti, 27, 16, bits(v, 27, 16));
    put_bits(vti_and_iid, 9, 0, bits(v, 9, 0))
}

/// Gives what a write of `hviprio1` keeps.
pub(crate) fn hviprio1_kept(v: u64) -> u64
    ensures { result ≡ hviprio1_kept v }
{
    let first = put_bits(0, 15, 8, bits(v, 15, 8));
    let first_and_second = put_bits(first, 31, 24, bits(v, 31, 24));
    put_bits(first_and_second, 47, 40, bits(v, 47, 40))
}

/// Tells whether a number may be written to `hvictl`.
pub(crate) fn is_hvictl(v: u64) -> bool
    ensures { result ≡ is_hvictl v }
{
    !vti(v) || (1..=63).contains(&iid(v))
}

/// Gives VTI of `hvictl`: whether it says by IID which interrupt there is.
pub(crate) fn vti(hvictl: u64) -> bool
    ensures { result ≡ vti_of hvictl }
{
    bit(hvictl, 30)
}

/// Gives IID of `hvictl`: the major that is there where VTI is 1.
pub(crate) fn iid(hvictl: u64) -> u64
    ensures value { result ≡ iid_of hvictl }
    ensures fits { result < 2 ^ 12 }
{
    bits(hvictl, 27, 16)
}

/// Gives DPR of `hvictl`: whether the external interrupt comes before that major where their
/// priority numbers are the same.
pub(crate) fn dpr(hvictl: u64) -> bool
    ensures { result ≡ dpr_of hvictl }
{
    bit(hvictl, 9)
}

/// Gives IPRIOM of `hvictl`: whether `stopi` shows priority numbers.
pub(crate) fn ipriom(hvictl: u64) -> bool
    ensures { result ≡ ipriom_of hvictl }
{
    bit(hvictl, 8)
}

/// Gives IPRIO of `hvictl`: the priority number of the major that IID names.
pub(crate) fn iprio(hvictl: u64) -> u64
    ensures { result ≡ iprio_of hvictl }
{
    bits(hvictl, 7, 0)
}
