/// What is found of a plan.
#[derive(Clone, Copy, Debug, PartialEq, Eq)]
pub enum Verdict {
    /// The plan keeps the rule, so it is safe.
    Accepted,

    /// The plan fails this part of the rule, 1 to 4, and none before it.
    Refused(u32),
}
