/// How the route of a producer, which stores into the file, is changed.
#[derive(Clone, Copy, Debug, PartialEq, Eq)]
pub enum RouteKind {
    /// It is written, and comes in force at its fence, or before; up to the fence stores may be in
    /// flight to the old place.
    Routed,

    /// It is changed at once, under a lock that its stores take too: none is in flight.
    Switched,
}

/// Where threshold and delivery are.
#[derive(Clone, Copy, Debug, PartialEq, Eq)]
pub enum NumberSpot {
    InOld,
    InHand,
    InNew,
}

/// What an author declares of a plan beside its producers.
#[derive(Clone, Copy, Debug, PartialEq, Eq)]
pub struct Terms {
    /// How many words of 64 identities each set has.
    pub words: u32,

    /// Whether the new place is known to hold nothing at the start.
    pub is_fresh: bool,

    /// Whether the new place is memory, so that its host has to be told of what comes there.
    pub in_memory: bool,

    /// Whether a notice there heeds delivery and threshold.
    pub heeds: bool,

    /// Whether the notices of the new place go to the host from the start on.
    pub notices_go: bool,

    /// Whether the next owner of the old place, once that is given back, takes its threshold and
    /// delivery over as they are.
    pub is_inherited: bool,

    /// Where the numbers are at the start.
    pub number_from: NumberSpot,

    /// Where they have to be at the end.
    pub number_to: NumberSpot,
}
