/// The two places of a move, each a guest interrupt file or memory.
#[derive(Clone, Copy, Debug, PartialEq, Eq)]
pub enum AnyPlace {
    /// The one that the virtual hart leaves.
    Old,

    /// The one to which it goes.
    New,
}

/// The two sets of an interrupt file, which `eip` and `eie` show in words of 64 identities.
#[derive(Clone, Copy, Debug, PartialEq, Eq)]
pub enum WhichSet {
    Pending,
    Enabled,
}

/// The two numbers of an interrupt file.
#[derive(Clone, Copy, Debug, PartialEq, Eq)]
pub enum Number {
    /// `eithreshold`.
    Threshold,

    /// `eidelivery`.
    Delivery,
}

/// A step of a plan: one access of the hypervisor. Producers are counted from 0 in the order in
/// which they are declared, and words of a set from 0.
#[derive(Clone, Copy, Debug, PartialEq, Eq)]
pub enum AnyStep {
    /// Writes the route of a producer, to the new place: stores may go there from now on, and all
    /// do once it is in force.
    Route(u32),

    /// Puts a producer's route in force as it is written, and waits for the producer's stores that
    /// are in flight: they have landed.
    Fence(u32),

    /// Writes a producer's route and puts it in force, both at once, as under a lock. It waits for
    /// no store.
    Switch(u32),

    /// Pauses a producer, which stores nothing from then on until it is resumed, and waits for its
    /// stores that are in flight: they have landed.
    Pause(u32),

    /// Resumes a producer: it stores again.
    Resume(u32),

    /// Overwrites a word of a place with zeros.
    Zero(AnyPlace, WhichSet, u32),

    /// Takes a word of the old place into the hand, over what the hand has of that word; the old
    /// place keeps none of it.
    Take(WhichSet, u32),

    /// Reads a word of the old place into the hand, over what the hand has of that word; the old
    /// place keeps it.
    Copy(WhichSet, u32),

    /// Adds what the hand has of a word to that word of the new place; the hand keeps none of it.
    Join(WhichSet, u32),

    /// Writes what the hand has of a word over that word of the new place; the hand keeps none.
    Put(WhichSet, u32),

    /// Overwrites a number of a place with 0.
    ZeroNumber(AnyPlace, Number),

    /// Takes a number of the old place into the hand; the old place keeps 0.
    TakeNumber(Number),

    /// Reads a number of the old place into the hand; the old place keeps it.
    CopyNumber(Number),

    /// Writes what the hand has of a number over that of the new place; the hand keeps it.
    PutNumber(Number),

    /// Reads a word of both sets of the new place, and remembers if something stands out there.
    Look(u32),

    /// Tells the host, if a look saw something.
    Post,

    /// Tells the host, if something stands out anywhere in the new place.
    Tell,

    /// Takes back what the host was told, unless a look saw something.
    Untell,

    /// Writes where the notices of the new place go: to the host, from now on.
    WriteNotice,

    /// Gives the old place back.
    Free,
}
