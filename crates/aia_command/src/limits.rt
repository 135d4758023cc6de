//! How much may be asked for. Profile.

/// The most lines that a generated script has after its head.
pub const MOST_LINES: u64 = 100_000;
