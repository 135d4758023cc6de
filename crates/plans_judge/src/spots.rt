//! In which places an identity of a word that is due may stand.

ghost use Rattle.std.specs.Prelude.{◌≡◌, ◌&&◌, ◌||◌, not};
ghost use Rattle.plans_rules.specs.Rules as rules;
ghost use Rattle.plans_judge.specs.Table.{may_by, spots_after, spots_any_old, spots_of};

use plans_rules::{AnyPlace, AnyStep, WhichSet};

/// Whether an identity stands in each of three places.
#[derive(Clone, Copy)]
pub(crate) struct Places {
    pub(crate) old: bool,
    pub(crate) hand: bool,
    pub(crate) new: bool,
}

/// In which places one that is due may stand, and in no other: for each choice of the old place,
/// the hand and the new one, whether it may.
#[derive(Clone, Copy)]
pub(crate) struct Spots {
    pub(crate) nowhere: bool,
    pub(crate) new: bool,
    pub(crate) hand: bool,
    pub(crate) hand_new: bool,
    pub(crate) old: bool,
    pub(crate) old_new: bool,
    pub(crate) old_hand: bool,
    pub(crate) old_hand_new: bool,
}

/// Where a store by itself may make one stand.
#[derive(Clone, Copy)]
pub(crate) struct Stores {
    /// Nobody stores into the old place.
    pub(crate) still: bool,

    /// Somebody may store into the new one.
    pub(crate) reached: bool,
}

/// What a step does to a word of a set.
#[derive(Clone, Copy)]
pub(crate) struct Effect {
    /// It leaves nothing of it in the old place.
    pub(crate) empties: bool,

    /// It brings it from the old place into the hand.
    pub(crate) lifts: bool,

    /// It brings it from the hand to the new place.
    pub(crate) fills: bool,

    /// It leaves nothing of what stood in the new place.
    pub(crate) blanks: bool,
}

/// Tells whether a step leaves nothing of a word in the old place.
fn empties(step: AnyStep, bank: WhichSet, word: usize) -> bool
    ensures { result ≡ rules.empties bank word step }
{
    match step {
        AnyStep::Take(s, w) | AnyStep::Zero(AnyPlace::Old, s, w) => s == bank && w as usize == word,
        _ => false,
    }
}

/// Tells whether it brings a word from the old place into the hand.
fn lifts(step: AnyStep, bank: WhichSet, word: usize) -> bool
    ensures { result ≡ rules.lifts bank word step }
{
    match step {
        AnyStep::Take(s, w) | AnyStep::Copy(s, w) => s == bank && w as usize == word,
        _ => false,
    }
}

/// Tells whether it moves a word from the hand to the new place.
fn fills(step: AnyStep, bank: WhichSet, word: usize) -> bool
    ensures { result ≡ rules.fills bank word step }
{
    match step {
        AnyStep::Join(s, w) | AnyStep::Put(s, w) => s == bank && w as usize == word,
        _ => false,
    }
}

/// Tells whether it leaves nothing of what stood in a word of the new place.
fn blanks(step: AnyStep, bank: WhichSet, word: usize) -> bool
    ensures { result ≡ rules.blanks bank word step }
{
    match step {
        AnyStep::Zero(AnyPlace::New, s, w) | AnyStep::Put(s, w) => s == bank && w as usize == word,
        _ => false,
    }
}

/// Makes a choice of places.
fn in_places(old: bool, hand: bool, new: bool) -> Places
    ensures { result ≡ record { old = old; hand = hand; new = new } }
{
    Places { old, hand, new }
}

impl Effect {
    /// Gives what a step does to word `word` of a set.
    pub(crate) fn of(step: AnyStep, bank: WhichSet, word: usize) -> Effect
        ensures { result ≡ record {
          empties = rules.empties bank word step;
          lifts = rules.lifts bank word step;
          fills = rules.fills bank word step;
          blanks = rules.blanks bank word step;
        } }
    {
        Effect {
            empties: empties(step, bank, word),
            lifts: lifts(step, bank, word),
            fills: fills(step, bank, word),
            blanks: blanks(step, bank, word),
        }
    }

    /// Tells whether it does anything to the word.
    fn touches(self) -> bool
        ensures { result ≡ (self.empties || (self.lifts || (self.fills || self.blanks))) }
    {
        self.empties || self.lifts || self.fills || self.blanks
    }

    /// Tells whether it brings an identity from these places to those.
    fn brings(self, from: Places, to: Places) -> bool
        ensures { result ≡ rules.brings self.empties self.lifts self.fills self.blanks
            from.old from.hand from.new to.old to.hand to.new }
    {
        let hand = if self.lifts {
            from.old
        } else {
            !self.fills && from.hand
        };
        alike(to.old, !self.empties && from.old)
            && alike(to.hand, hand)
            && alike(to.new, self.fills && from.hand || !self.blanks && from.new)
    }

    /// Tells whether one may stand in these places before it, and it brings that to those.
    fn comes(self, spots: Spots, from: Places, to: Places) -> bool
        ensures { result ≡ (rules.brings self.empties self.lifts self.fills self.blanks
            from.old from.hand from.new to.old to.hand to.new
            && may_by spots from.old from.hand from.new) }
    {
        self.brings(from, to) && spots.may(from)
    }

    /// Tells whether one comes to those places, of such as stand in the old place before, or do
    /// not.
    fn comes_from(self, spots: Spots, old: bool, to: Places) -> bool
        ensures { result ≡ rules.any_of_two (λ k b. rules.brings self.empties self.lifts
            self.fills self.blanks old k b to.old to.hand to.new && may_by spots old k b) }
    {
        self.comes(spots, in_places(old, true, true), to)
            || self.comes(spots, in_places(old, true, false), to)
            || self.comes(spots, in_places(old, false, true), to)
            || self.comes(spots, in_places(old, false, false), to)
    }

    /// Tells whether one may stand in those places after it.
    fn brought(self, spots: Spots, to: Places) -> bool
        ensures { result ≡ rules.brought self.empties self.lifts self.fills self.blanks
            (may_by spots) to.old to.hand to.new }
    {
        if self.touches() {
            self.comes_from(spots, true, to) || self.comes_from(spots, false, to)
        } else {
            spots.may(to)
        }
    }
}

/// Tells whether two are so, or two are not.
fn alike(a: bool, b: bool) -> bool
    ensures { result ≡ rules.alike a b }
{
    a == b
}

impl Stores {
    /// Tells whether a store by itself may make one stand in these places.
    fn alone(self, at: Places) -> bool
        ensures { result ≡ rules.alone_by self.still self.reached at.old at.hand at.new }
    {
        if at.hand {
            return false;
        }
        at.old && !at.new && !self.still || !at.old && at.new && self.reached
    }
}

impl Spots {
    /// Gives where one may stand at the start: in the old place.
    pub(crate) fn first() -> Spots
        ensures { result ≡ spots_of (λ o h n. o && (not h && not n)) }
    {
        Spots {
            nowhere: false,
            new: false,
            hand: false,
            hand_new: false,
            old: true,
            old_new: false,
            old_hand: false,
            old_hand_new: false,
        }
    }

    /// Tells whether one may stand in these places, and in no other.
    fn may(self, at: Places) -> bool
        ensures { result ≡ may_by self at.old at.hand at.new }
    {
        match (at.old, at.hand, at.new) {
            (true, true, true) => self.old_hand_new,
            (true, true, false) => self.old_hand,
            (true, false, true) => self.old_new,
            (true, false, false) => self.old,
            (false, true, true) => self.hand_new,
            (false, true, false) => self.hand,
            (false, false, true) => self.new,
            (false, false, false) => self.nowhere,
        }
    }

    /// Tells whether one may stand in the old place, wherever else.
    pub(crate) fn any_old(self) -> bool
        ensures { result ≡ spots_any_old self }
    {
        self.old_hand_new || self.old_hand || self.old_new || self.old
    }

    /// Tells whether one may stand in these places after a step, where stores alone make some
    /// stand.
    fn may_after(self, effect: Effect, stores: Stores, at: Places) -> bool
        ensures { result ≡ (rules.brought effect.empties effect.lifts effect.fills effect.blanks
            (may_by self) at.old at.hand at.new
            || rules.alone_by stores.still stores.reached at.old at.hand at.new) }
    {
        effect.brought(self, at) || stores.alone(at)
    }

    /// Gives where one may stand after a step, where stores alone make some stand.
    pub(crate) fn after(self, effect: Effect, stores: Stores) -> Spots
        ensures { result ≡ spots_after effect.empties effect.lifts effect.fills effect.blanks
            stores.still stores.reached self }
    {
        Spots {
            nowhere: self.may_after(effect, stores, in_places(false, false, false)),
            new: self.may_after(effect, stores, in_places(false, false, true)),
            hand: self.may_after(effect, stores, in_places(false, true, false)),
            hand_new: self.may_after(effect, stores, in_places(false, true, true)),
            old: self.may_after(effect, stores, in_places(true, false, false)),
            old_new: self.may_after(effect, stores, in_places(true, false, true)),
            old_hand: self.may_after(effect, stores, in_places(true, true, false)),
            old_hand_new: self.may_after(effect, stores, in_places(true, true, true)),
        }
    }
}
