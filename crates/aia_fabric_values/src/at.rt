use aia_file::Spot;

/// A place with two sets of identities.
#[derive(Clone, Copy, Debug, PartialEq, Eq)]
pub enum At {
    /// An interrupt file.
    File(Spot),
    /// A slot of memory, below `SLOTS`.
    Slot(u32),
}
