use plans_rules::{AnyStep, Number, NumberSpot, RouteKind, WhichSet};

/// What a line of a plan file says.
#[derive(Clone, Copy, Debug, PartialEq, Eq)]
pub enum PlanLine {
    /// `plan`: a plan begins here, and the one before it ends.
    Plan,

    /// `words N`: how many words of 64 identities each set has.
    Words(u32),

    /// `producer KIND`: one producer more.
    Producer(RouteKind),

    /// `fresh`: the new place is known to hold nothing.
    Fresh,

    /// `memory`: the new place is memory.
    Memory,

    /// `heeds`: a notice heeds delivery and threshold there.
    Heeds,

    /// `notices unset`: the notices of the new place go nowhere at the start.
    NoticesUnset,

    /// `inherited`: the next owner of the old place takes its numbers over as they are.
    Inherited,

    /// `numbers FROM TO`: where threshold and delivery are, and have to be.
    Numbers(NumberSpot, NumberSpot),

    /// A step.
    Step(AnyStep),
}

/// What a text is read as.
#[derive(Clone, Copy, Debug, PartialEq, Eq)]
pub enum Reading {
    /// It has no word: it is empty, or a comment.
    Skip,

    /// It spells a line.
    Line(PlanLine),

    /// It spells none, and its first word is not `plan`.
    Bad,

    /// It spells none, but its first word is `plan`, so that a plan begins here.
    BadPlan,
}

/// What a step moves.
#[derive(Clone, Copy)]
pub(crate) enum Thing {
    /// A word of a set.
    Word(WhichSet, u32),

    /// A number.
    Number(Number),
}
