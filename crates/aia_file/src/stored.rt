/// What becomes of a store to a slot.
#[derive(Clone, Copy, Debug, PartialEq, Eq)]
pub enum Stored {
    /// It names no identity, and changes nothing.
    Discarded,
    /// It asks for one that is not enabled.
    Quiet,
    /// It asks for one that is enabled: a notice is to be sent.
    Notice,
}
