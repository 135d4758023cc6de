//! How many bytes of answers wait at most. Profile.

/// The most bytes of answers that wait.
pub const BUFFER_BYTES: usize = 4096;
