//! How many bytes a run takes at most, and how many at a time. Profile.

/// The most bytes that a run takes of its source, but for one more: a source that gives that too
/// has more than a script, a plan or a file of plans may have, and ends the run by `TooLong`.
pub const SOURCE_BYTES: usize = 16_777_216;

/// The most bytes that one read asks for.
pub const PIECE_BYTES: usize = 4096;
