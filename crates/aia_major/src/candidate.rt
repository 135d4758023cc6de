ghost use Rattle.std.specs.Prelude.{◌^◌, ◌<◌};

/// A major that may be on top.
#[derive(Clone, Copy, Debug, PartialEq, Eq)]
pub(crate) struct Candidate {
    /// Its number, below 4096.
    pub(crate) major: u64,
    /// Its priority number: the lower, the higher its priority.
    pub(crate) number: u64,
    /// Its place among those with the same priority number: the lower comes first.
    pub(crate) rank: u64,
    ghost fits: { major < 2 ^ 12 },
}
