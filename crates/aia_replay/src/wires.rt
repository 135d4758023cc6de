use aia_aplic::Aplic;
use aia_move::Targets;

/// The wired sources of a machine, as the moves of virtual harts see them: those of its APLIC, each
/// ready where MSIs to guests may be made of it.
///
/// Profile: passes.
#[derive(Drop)]
pub(crate) struct Wires {
    pub(crate) aplic: Aplic,
}

impl Targets for Wires {
    ghost use Rattle.aia_replay.specs.Wires.{targets_of, WiresAim};

    ghost map = { λ w. targets_of w.aplic };

    ghost aimed = { λ old source target new. WiresAim old.aplic source target new.aplic };

    fn ready(&self, source: u32) -> bool {
        self.aplic.passable(source)
    }

    fn aim(&mut self, source: u32, hart: u32, guest: u32, identity: u32) {
        prove!(hart < self.aplic.harts());
        self.aplic.aim(source, hart, guest, identity);
    }

    ghost aims_one = { λ old new source target aims. aims.one };
}
