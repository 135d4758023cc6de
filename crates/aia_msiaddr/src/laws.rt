//! What the definitions of this crate mean, as laws: each function does nothing, and its clauses
//! are what was proved.

ghost use Rattle.std.specs.Prelude.{◌≡◌, ℕ, bit_and};
ghost use Rattle.aia_regs.specs.Operations.{has_bit};
ghost use Rattle.aia_msiaddr.specs.Registers.{mmsiaddrcfgh_kept, smsiaddrcfgh_kept, locks};

/// Which bits the high halves of the registers of MSI addresses keep, and where the lock L stands.
///
/// AIA 1.0, APLIC, "Memory-mapped control region for an interrupt domain".
pub fn bits_of_registers()
    ensures machine { (v : ℕ) → mmsiaddrcfgh_kept v ≡ bit_and v 0x9f77ffff }
    ensures supervisor { (v : ℕ) → smsiaddrcfgh_kept v ≡ bit_and v 0x00700fff }
    ensures lock { (cfgh : ℕ) → locks cfgh ≡ has_bit cfgh 31 }
{}
