/// What a move leaves, or leads to. Profile.
#[derive(Clone, Copy, Debug, PartialEq, Eq)]
pub enum End {
    /// A guest file.
    File,
    /// The virtual hart's slot of memory.
    Memory,
}
