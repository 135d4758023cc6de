use plans_rules::Rule;

/// What is found of a plan.
#[derive(Clone, Copy, Debug, PartialEq, Eq)]
pub enum Judgement {
    /// The plan keeps all rules, so it is safe, and into memory it tells its host.
    Accepted,

    /// The plan breaks a rule: at the step with so many before it, or in its end, where all steps
    /// are before it.
    Refused { rule: Rule, before: usize },
}
