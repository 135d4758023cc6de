//! How long plans and their lines may be (our profile's choice).

/// The most bytes of a line that is read, its LF left out.
pub const LINE_BYTES: usize = 128;

/// The most words of 64 identities that a set has.
pub const WORDS: u32 = 32;

/// The most producers of a plan.
pub const PRODUCERS: usize = 16;

/// The most steps of a plan.
pub const STEPS: usize = 4096;
