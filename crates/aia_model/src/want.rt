/// A move that is wanted of a virtual hart (our profile).
#[derive(Clone, Copy, Debug, PartialEq, Eq)]
pub enum Want {
    /// From memory to a guest file of this hart.
    Arrive(u64),
    /// From its guest file to memory.
    Leave,
    /// From its guest file to one of this hart.
    Shift(u64),
}
