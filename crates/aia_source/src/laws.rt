//! What the definitions of this crate mean, as laws: each function does nothing, and its clauses
//! are what was proved.

ghost use Rattle.std.specs.Prelude.{◌≡◌, ◌≢◌, ℕ, ◌+◌, Bool, false, nat_eq, if◌then◌else◌};
ghost use Rattle.aia_regs.specs.Fields.{field};
ghost use Rattle.aia_regs.specs.Operations.{has_bit};
ghost use Rattle.aia_source.specs.Registers.{one_at, enables, is_by_msi, domaincfg_kept, domaincfg_read, delegates, root_sourcecfg, child_sourcecfg, legal_mode};
ghost use Rattle.aia_source.specs.Wired.{WiredState, SourceDeed, IsLawful, new_wired, done};
ghost use Rattle.aia_source.specs.Wired.SourceDeed.{LevelGiven, Forwarded, Configured, Switched};

use crate::mode::Mode;

/// A source at a level mode is pending exactly while its rectified input is high, in a domain that
/// delivers directly: it is so where it begins, where its `sourcecfg` is written and where the
/// domain begins to deliver directly, and each deed but the sending of an MSI, which such a domain
/// does not do, leaves it so.
///
/// AIA 1.0, APLIC, "Precise effects on interrupt-pending bits".
pub fn a_level_source_follows_its_input()
    ensures begins { IsLawful new_wired }
    ensures wired { (s : WiredState) (wire : Bool) → IsLawful s
        → IsLawful (done false LevelGiven s.mode wire s) }
    ensures stays { (s : WiredState) (deed : SourceDeed) → deed ≢ Forwarded → IsLawful s
        → IsLawful (done false deed s.mode s.wire s) }
    ensures switched { (s : WiredState) → IsLawful (done false Switched s.mode s.wire s) }
    ensures configured { (s : WiredState) (mode : Mode)
        → IsLawful (done false Configured mode s.wire s) }
{}

/// An inactive source is never pending.
pub fn an_inactive_source_is_not_pending()
    ensures { (s : WiredState) (msi : Bool) (deed : SourceDeed) (wire : Bool)
        → (done msi deed Mode.Inactive wire s).pending ≡ false }
{}

/// Where the bits of `domaincfg` and `sourcecfg` stand: IE at 8 and DM at 2, and above them 0x80 in
/// bits 31:24; D at 10, which delegates, to the child 0, by 0x400 alone.
///
/// AIA 1.0, APLIC.
pub fn bits_of_registers()
    ensures enables { (cfg : ℕ) → enables cfg ≡ has_bit cfg 8 }
    ensures by_msi { (cfg : ℕ) → is_by_msi cfg ≡ has_bit cfg 2 }
    ensures kept { (v : ℕ) → domaincfg_kept v ≡ one_at (has_bit v 8) 8 + one_at (has_bit v 2) 2 }
    ensures read { (ie dm : Bool)
        → domaincfg_read ie dm ≡ 0x80000000 + (one_at ie 8 + one_at dm 2) }
    ensures delegates { (cfg : ℕ) → delegates cfg ≡ nat_eq cfg 0x400 }
    ensures root { (v : ℕ) → root_sourcecfg v
        ≡ (if has_bit v 10 then (if nat_eq (field v 9 0) 0 then 0x400 else 0)
        else legal_mode (field v 2 0)) }
    ensures child { (v : ℕ) → child_sourcecfg v
        ≡ (if has_bit v 10 then 0 else legal_mode (field v 2 0)) }
{}
