//! MSIs to guests: whether the registers of MSI addresses make them reach the map's files, and the
//! targets by which they go there.

ghost use Rattle.std.specs.Prelude.{◌≡◌, ◌<◌, ◌≤◌};
ghost use Rattle.aia_regs.specs.declared.limits.TheConstants.{HARTS, IDENTITIES};
ghost use Rattle.aia_vcpu.specs.Aims.{target_of};
ghost use Rattle.aia_model.specs.AddressOf.{are_for_guests};

use aia_msiaddr::Addresses;
use aia_regs::address_map::{HART_BITS, HART_SHIFT, PATTERN};
use aia_regs::bits;

/// Tells whether the registers of MSI addresses make the child's MSIs reach the supervisor files
/// and the guest files of the map.
pub(crate) fn are_for_guests(addresses: &Addresses) -> bool
    ensures { result ≡ are_for_guests addresses.now }
{
    let places = u64::from(addresses.mmsiaddrcfgh());
    bits(places, 18, 16) == 0
        && bits(places, 15, 12) == u64::from(HART_BITS)
        && u64::from(addresses.smsiaddrcfg()) == PATTERN
        && addresses.smsiaddrcfgh() == HART_SHIFT << 20
}

/// Gives the target of a hart index, a guest index and an identity.
pub(crate) fn target_of(hart: u32, guest: u32, identity: u32) -> u32
    requires hart { hart < HARTS }
    requires guest { guest < 64 }
    requires identity { identity ≤ IDENTITIES }
    ensures { result ≡ target_of hart guest identity }
{
    (hart << 18) + (guest << 12) + identity
}
