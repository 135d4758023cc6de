ghost use Rattle.std.specs.Prelude.{◌≡◌, ◌+◌, ◌*◌, ◌%◌, ◌<◌, ◌≤◌};
ghost use Rattle.aia_regs.specs.declared.limits.TheConstants.{LAST_CONTROL};
ghost use Rattle.aia_regs.specs.DomainRegisters.{domain_register_of};

/// A register of an APLIC interrupt domain, as an offset of the domain's control region names it.
///
/// AIA 1.0, APLIC, "Memory-mapped control region for an interrupt domain".
#[derive(Clone, Copy, Debug, PartialEq, Eq)]
pub enum DomainReg {
    /// `domaincfg`: the domain's configuration.
    DomainCfg,
    /// `sourcecfg` of this source, 1 to 1023: its mode, or the child domain that it is delegated
    /// to.
    SourceCfg(u32),
    /// `mmsiaddrcfg`: the low half of the base page number of machine-level files.
    MMsiAddrCfg,
    /// `mmsiaddrcfgh`: the high half of it, and the places of a hart's index in an address.
    MMsiAddrCfgH,
    /// `smsiaddrcfg`: the low half of the base page number of supervisor-level files.
    SMsiAddrCfg,
    /// `smsiaddrcfgh`: the high half of it, and the place of a hart's index in an address.
    SMsiAddrCfgH,
    /// `setip` with this index `k`, 0 to 31: the pending bits of the sources `32k` to `32k + 31`,
    /// set by ones.
    SetIp(u32),
    /// `setipnum`: sets the pending bit of the source written.
    SetIpNum,
    /// `in_clrip` with this index `k`, 0 to 31: the rectified inputs of the sources `32k` to `32k +
    /// 31`; ones clear pending bits.
    InClrIp(u32),
    /// `clripnum`: clears the pending bit of the source written.
    ClrIpNum,
    /// `setie` with this index `k`, 0 to 31: the enable bits of the sources `32k` to `32k + 31`,
    /// set by ones.
    SetIe(u32),
    /// `setienum`: sets the enable bit of the source written.
    SetIeNum,
    /// `clrie` with this index `k`, 0 to 31: ones clear enable bits of the sources `32k` to `32k +
    /// 31`.
    ClrIe(u32),
    /// `clrienum`: clears the enable bit of the source written.
    ClrIeNum,
    /// `setipnum_le`: `setipnum`, always little-endian.
    SetIpNumLe,
    /// `setipnum_be`: `setipnum`, always big-endian.
    SetIpNumBe,
    /// `genmsi`: sends an MSI that software asks for.
    GenMsi,
    /// `target` of this source, 1 to 1023: the hart that it goes to, and its priority or identity
    /// there.
    Target(u32),
    /// `idelivery` of the hart with this index, 0 to `LAST_CONTROL`: whether interrupts are
    /// delivered to it.
    IDelivery(u32),
    /// `iforce` of the hart with this index, 0 to `LAST_CONTROL`: forces an interrupt.
    IForce(u32),
    /// `ithreshold` of the hart with this index, 0 to `LAST_CONTROL`: the priority from which
    /// interrupts are held back; 0 holds none back.
    IThreshold(u32),
    /// `topi` of the hart with this index, 0 to `LAST_CONTROL`: the interrupt on top.
    TopI(u32),
    /// `claimi` of the hart with this index, 0 to `LAST_CONTROL`: the interrupt on top, which a
    /// read claims.
    ClaimI(u32),
    /// No register: the offset is reserved, no multiple of 4, or beyond the region, which ends at
    /// 0x8000.
    Nothing,
}

/// Gives the register at an offset of a domain's control region; `Nothing` where none is there.
///
/// AIA 1.0, APLIC, "Memory-mapped control region for an interrupt domain".
#[inline(always)]
#[tactic(auto, unfolding(crate::specs::DomainRegisters::domain_register_of))]
pub fn domain_reg(offset: u32) -> DomainReg
    ensures { result ≡ domain_register_of offset }
{
    if !offset.is_multiple_of(4) {
        return DomainReg::Nothing;
    }
    match offset {
        0x0000 => DomainReg::DomainCfg,
        0x0004..=0x0fff => DomainReg::SourceCfg(offset / 4),
        0x1bc0 => DomainReg::MMsiAddrCfg,
        0x1bc4 => DomainReg::MMsiAddrCfgH,
        0x1bc8 => DomainReg::SMsiAddrCfg,
        0x1bcc => DomainReg::SMsiAddrCfgH,
        0x1c00..=0x1c7f => DomainReg::SetIp((offset - 0x1c00) / 4),
        0x1cdc => DomainReg::SetIpNum,
        0x1d00..=0x1d7f => DomainReg::InClrIp((offset - 0x1d00) / 4),
        0x1ddc => DomainReg::ClrIpNum,
        0x1e00..=0x1e7f => DomainReg::SetIe((offset - 0x1e00) / 4),
        0x1edc => DomainReg::SetIeNum,
        0x1f00..=0x1f7f => DomainReg::ClrIe((offset - 0x1f00) / 4),
        0x1fdc => DomainReg::ClrIeNum,
        0x2000 => DomainReg::SetIpNumLe,
        0x2004 => DomainReg::SetIpNumBe,
        0x3000 => DomainReg::GenMsi,
        0x3004..=0x3fff => DomainReg::Target((offset - 0x3000) / 4),
        0x4000..=0x7fff => control_reg((offset - 0x4000) / 32, offset % 32),
        _ => DomainReg::Nothing,
    }
}

// Gives the register at `place` of a hart's interrupt delivery control.
fn control_reg(hart: u32, place: u32) -> DomainReg
    requires aligned { place % 4 ≡ 0 }
    requires inside { place < 32 }
    requires few { hart ≤ LAST_CONTROL }
    ensures { result ≡ domain_register_of (0x4000 + 32 * hart + place) }
{
    match place {
        0x00 => DomainReg::IDelivery(hart),
        0x04 => DomainReg::IForce(hart),
        0x08 => DomainReg::IThreshold(hart),
        0x18 => DomainReg::TopI(hart),
        0x1c => DomainReg::ClaimI(hart),
        _ => DomainReg::Nothing,
    }
}
