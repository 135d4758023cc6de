//! How long a plan may be (our profile's choice).

/// The most steps of a plan that is read.
pub const PLAN_STEPS: usize = 512;
