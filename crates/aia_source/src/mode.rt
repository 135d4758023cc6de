ghost use Rattle.std.specs.Prelude.{◌≡◌};
ghost use Rattle.aia_source.specs.Wired.{is_level, rectified};

/// What a source's `sourcecfg` register makes of its wire.
///
/// AIA 1.0, APLIC.
#[derive(Clone, Copy, Debug, PartialEq, Eq)]
pub enum Mode {
    /// The source is not active in the domain: it is never pending, and its wire counts for
    /// nothing.
    Inactive,
    /// The wire counts for nothing; only registers make the source pending.
    Detached,
    /// A rise of the wire makes it pending.
    RisingEdge,
    /// A fall of the wire makes it pending.
    FallingEdge,
    /// Its input is high while the wire is high.
    LevelHigh,
    /// Its input is high while the wire is low.
    LevelLow,
}

impl Mode {
    /// Gives the rectified input where the wire has this level.
    pub(crate) fn rectified(self, wire: bool) -> bool
        ensures { result ≡ rectified self wire }
    {
        match self {
            Mode::Inactive | Mode::Detached => false,
            Mode::RisingEdge | Mode::LevelHigh => wire,
            Mode::FallingEdge | Mode::LevelLow => !wire,
        }
    }

    /// Tells whether the mode is level high or level low.
    pub(crate) fn is_level(self) -> bool
        ensures { result ≡ is_level self }
    {
        matches!(self, Mode::LevelHigh | Mode::LevelLow)
    }
}
