//! Of how large a plan runs that leave its host untold are looked for with a store (our profile's
//! choice): as many as are tried well within a second.

/// The most producers.
pub const SMALL_PRODUCERS: usize = 4;

/// The most words of 64 identities.
pub const SMALL_WORDS: u32 = 8;

/// The most steps.
pub const SMALL_STEPS: usize = 128;
