//! How long a summary may be. Profile.

/// The most bytes of the summary of a generated script.
pub const SUMMARY_BYTES: usize = 128;
