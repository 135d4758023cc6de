use aia_io::SinkFault;
use std::alloc::AllocError;

/// What ends a run before the source is read to its end, other than the source.
#[derive(Clone, Copy, Debug, PartialEq, Eq)]
pub enum Stop {
    /// The sink failed.
    Sink,
    /// There is no memory for a machine.
    Memory,
}

impl From<SinkFault> for Stop {
    ghost use Rattle.std.specs.Prelude.{◌≡◌};
    ghost use Rattle.aia_replay.specs.declared.stop.Stop.TheVariants.{Sink};

    ghost from_gives = { λ _ stop. stop ≡ Sink };

    fn from(_fault: SinkFault) -> Stop {
        Stop::Sink
    }
}

impl From<AllocError> for Stop {
    ghost use Rattle.std.specs.Prelude.{◌≡◌};
    ghost use Rattle.aia_replay.specs.declared.stop.Stop.TheVariants.{Memory};

    ghost from_gives = { λ _ stop. stop ≡ Memory };

    fn from(_error: AllocError) -> Stop {
        Stop::Memory
    }
}
