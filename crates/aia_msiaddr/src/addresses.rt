ghost use Rattle.std.specs.Prelude.{◌≡◌, ◌+◌, ◌*◌, ◌^◌, ◌<◌, ◌≤◌};
ghost use Rattle.aia_regs.specs.Fields.{field};
ghost use Rattle.aia_msiaddr.specs.Addresses.{base_page, group_of, member_of, hart_page, page_address, machine_address, supervisor_address};

use aia_regs::bits;

/// Gives the address of an MSI to a hart at machine level, in 64 bits, by `mmsiaddrcfg` (`cfg`) and
/// `mmsiaddrcfgh` (`cfgh`); the hart's index is below 16,384.
///
/// AIA 1.0, APLIC, "Interrupt forwarding by MSIs".
pub fn machine_address(cfg: u32, cfgh: u32, hart: u32) -> u64
    requires { hart < 2 ^ 14 }
    ensures { result ≡ machine_address cfg cfgh hart }
{
    hart_page(cfgh, cfg, cfgh, hart) << 12
}

/// Gives the address of an MSI to a hart at supervisor level, or to a guest of it, in 64 bits, by
/// `mmsiaddrcfgh` (`mcfgh`), `smsiaddrcfg` (`cfg`) and `smsiaddrcfgh` (`cfgh`); the hart's index is
/// below 16,384, the guest's below 64, and 0 for the hart itself.
///
/// AIA 1.0, APLIC, "Interrupt forwarding by MSIs".
pub fn supervisor_address(mcfgh: u32, cfg: u32, cfgh: u32, hart: u32, guest: u32) -> u64
    requires hart { hart < 2 ^ 14 }
    requires guest { guest < 64 }
    ensures { result ≡ supervisor_address mcfgh cfg cfgh hart guest }
{
    (hart_page(mcfgh, cfg, cfgh, hart) | u64::from(guest)) << 12
}

fn hart_page(mcfgh: u32, cfg: u32, cfgh: u32, hart: u32) -> u64
    requires { hart < 2 ^ 14 }
    ensures { result ≡ hart_page mcfgh cfg cfgh hart }
{
    let group = group_of(mcfgh, hart) << (bits(u64::from(mcfgh), 28, 24) + 12);
    let member = member_of(mcfgh, hart) << bits(u64::from(cfgh), 22, 20);
    base_page(cfg, cfgh) | group | member
}

fn base_page(cfg: u32, cfgh: u32) -> u64
    ensures { result ≡ base_page cfg cfgh }
{
    (bits(u64::from(cfgh), 11, 0) << 32) + u64::from(cfg)
}

fn group_of(mcfgh: u32, hart: u32) -> u64
    requires { hart < 2 ^ 14 }
    ensures value { result ≡ group_of mcfgh hart }
    ensures small { result < 2 ^ 14 }
{
    (u64::from(hart) >> bits(u64::from(mcfgh), 15, 12)) % (1 << bits(u64::from(mcfgh), 18, 16))
}

fn member_of(mcfgh: u32, hart: u32) -> u64
    requires { hart < 2 ^ 14 }
    ensures value { result ≡ member_of mcfgh hart }
    ensures small { result < 2 ^ 14 }
{
    u64::from(hart) % (1 << bits(u64::from(mcfgh), 15, 12))
}
