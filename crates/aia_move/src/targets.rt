ghost use Rattle.std.specs.Prelude.{◌≡◌, ℕ, ◌<◌, ◌≤◌};
ghost use Rattle.aia_regs.specs.declared.limits.TheConstants.{IDENTITIES};
ghost use Rattle.aia_vcpu.specs.Aims.{target_of};
ghost use Rattle.aia_move_values.specs.Targets.{TargetMap, AimsOne};

/// The wired sources of a machine, as moves see them: where each leads, and which are ready, so
/// that MSIs to guests may be made of them.
///
/// AIA 1.0, APLIC, "Memory-mapped control region for an interrupt domain". Profile: passes.
pub trait Targets {
    ghost map: { Self → TargetMap };

    /// What becomes of the whole as a source is aimed at a target.
    ghost aimed: { Self → ℕ → ℕ → Self → Type 0 };

    /// Tells whether MSIs to guests may be made of a source.
    ///
    /// AIA 1.0, APLIC, "Interrupt forwarding by MSIs".
    fn ready(&self, source: u32) -> bool
        ensures { result ≡ (map self.now).ready source };

    /// Aims a source at guest file `guest`, 0 for the supervisor file, of hart `hart`, with an
    /// identity, up to `IDENTITIES`.
    ///
    /// AIA 1.0, APLIC, "Memory-mapped control region for an interrupt domain". Profile: passes.
    fn aim(&mut self, source: u32, hart: u32, guest: u32, identity: u32)
        requires hart { hart < (map self.old).harts }
        requires guest { guest < 64 }
        requires identity { identity ≤ IDENTITIES }
        ensures { aimed self.old source (target_of hart guest identity) self.new };

    /// An aim gives a source that is ready its target, and leaves all other targets.
    ghost aims_one: { (old new : Self) (source target : ℕ) → aimed old source target new
        → AimsOne (map old) source target (map new) };
}
