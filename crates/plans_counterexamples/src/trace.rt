//! What a run does to one bit, one number and one producer.

ghost use Rattle.std.specs.Prelude.{◌≡◌, Some, None};
ghost use Rattle.plans_counterexamples.specs.Run.{trace_flown, trace_number, trace_sent};
ghost use Rattle.plans_counterexamples.specs.Trace.{names_bit, trace_after, trace_copied, trace_copied_number, trace_fenced, trace_first, trace_joined, trace_landed, trace_paused, trace_put, trace_put_number, trace_resumed, trace_stored, trace_switched, trace_taken, trace_taken_number, trace_turned, trace_zeroed, trace_zeroed_number};

use plans_rules::{AnyPlace, AnyStep, Number, NumberSpot, Terms, WhichSet};

/// Which bit, which number and which producer are followed.
#[derive(Clone, Copy, Debug, PartialEq, Eq)]
pub struct Case {
    pub bank: WhichSet,
    pub identity: u64,
    pub number: Number,
    pub producer: usize,
}

/// Where the bit that is followed stands at the start.
#[derive(Clone, Copy, Debug, PartialEq, Eq)]
pub enum Begin {
    /// Nowhere.
    Nowhere,

    /// In the old place, so that it is due.
    InOld,

    /// In the new place, as something that was left over there.
    InNew,
}

/// By which of its producer's two routes a store goes.
#[derive(Clone, Copy, Debug, PartialEq, Eq)]
pub enum StoreRoute {
    Written,
    InForce,
}

/// What is followed, after some happenings: where the bit stands, where the number is 1, and where
/// the producer's stores go.
#[derive(Clone, Copy)]
pub(crate) struct Trace {
    pub(crate) old: bool,
    pub(crate) new: bool,
    pub(crate) hand: bool,
    pub(crate) due: bool,
    pub(crate) old_number: bool,
    pub(crate) new_number: bool,
    pub(crate) hand_number: bool,
    pub(crate) written: AnyPlace,
    pub(crate) in_force: AnyPlace,

    /// The producer is paused.
    pub(crate) paused: bool,

    /// Where a store of the producer that is in flight will land.
    pub(crate) flight: Option<AnyPlace>,

    pub(crate) freed: bool,
    pub(crate) strayed: bool,
}

impl Case {
    /// Tells whether a word of a set is that of the bit.
    fn names_bit(self, bank: WhichSet, word: u32) -> bool
        ensures { result ≡ names_bit self bank word }
    {
        bank == self.bank && word as u64 == self.identity / 64
    }
}

impl Trace {
    /// Gives what is followed at the start, where numbers are left in the old place, or are not.
    pub(crate) fn first(begin: Begin, left: bool, terms: Terms) -> Trace
        ensures { result ≡ trace_first begin left terms }
    {
        let in_old = begin == Begin::InOld;
        Trace {
            old: in_old,
            new: begin == Begin::InNew,
            hand: false,
            due: in_old,
            old_number: left || terms.number_from == NumberSpot::InOld,
            new_number: terms.number_from == NumberSpot::InNew,
            hand_number: terms.number_from == NumberSpot::InHand,
            written: AnyPlace::Old,
            in_force: AnyPlace::Old,
            paused: false,
            flight: None,
            freed: false,
            strayed: false,
        }
    }

    /// Gives what a store for the identity makes of it, as it lands in a place.
    pub(crate) fn landed(self, case: Case, place: AnyPlace) -> Trace
        ensures { result ≡ trace_landed case place self }
    {
        let is_pending = case.bank == WhichSet::Pending;
        let is_old = place == AnyPlace::Old;
        Trace {
            old: is_pending && is_old || self.old,
            new: is_pending && !is_old || self.new,
            due: is_pending || self.due,
            strayed: self.strayed || is_old && self.freed,
            ..self
        }
    }

    /// Gives what a store of the producer that lands at once makes of it.
    pub(crate) fn stored(self, case: Case, route: StoreRoute) -> Trace
        ensures { result ≡ trace_stored case route self }
    {
        if self.paused {
            return self;
        }
        match route {
            StoreRoute::Written => self.landed(case, self.written),
            StoreRoute::InForce => self.landed(case, self.in_force),
        }
    }

    /// Gives what it is once the store in flight has landed, where that is so and there is one.
    pub(crate) fn flown_if(self, case: Case, comes: bool) -> Trace
        ensures { result ≡ trace_flown case comes self }
    {
        if !comes {
            return self;
        }
        let landed = match self.flight {
            Some(place) => self.landed(case, place),
            None => self,
        };
        Trace {
            flight: None,
            ..landed
        }
    }

    /// Gives what it is once a store is in flight by the route in force, where that is so.
    pub(crate) fn sent_if(self, comes: bool) -> Trace
        ensures { result ≡ trace_sent comes self }
    {
        if !comes || self.paused {
            return self;
        }
        Trace {
            flight: Some(self.in_force),
            ..self
        }
    }

    /// Tells whether the number stands in a spot as it was at the start.
    pub(crate) fn number(self, spot: NumberSpot) -> bool
        ensures { result ≡ trace_number spot self }
    {
        match spot {
            NumberSpot::InOld => self.old_number,
            NumberSpot::InHand => self.hand_number,
            NumberSpot::InNew => self.new_number,
        }
    }

    /// Gives what a step makes of it.
    pub(crate) fn after(self, case: Case, step: AnyStep) -> Trace
        ensures { result ≡ trace_after case step self }
    {
        match step {
            AnyStep::Route(p) => self.turned(p as usize == case.producer),
            AnyStep::Fence(p) => self.fenced(case, p as usize == case.producer),
            AnyStep::Switch(p) => self.switched(p as usize == case.producer),
            AnyStep::Pause(p) => self.paused(case, p as usize == case.producer),
            AnyStep::Resume(p) => self.resumed(p as usize == case.producer),
            AnyStep::Zero(place, s, w) => self.zeroed(place, case.names_bit(s, w)),
            AnyStep::Take(s, w) => self.taken(case.names_bit(s, w)),
            AnyStep::Copy(s, w) => self.copied(case.names_bit(s, w)),
            AnyStep::Join(s, w) => self.joined(case.names_bit(s, w)),
            AnyStep::Put(s, w) => self.put(case.names_bit(s, w)),
            AnyStep::ZeroNumber(place, n) => self.zeroed_number(place, n == case.number),
            AnyStep::TakeNumber(n) => self.taken_number(n == case.number),
            AnyStep::CopyNumber(n) => self.copied_number(n == case.number),
            AnyStep::PutNumber(n) => self.put_number(n == case.number),
            AnyStep::Free => Trace {
                freed: true,
                strayed: self.strayed || self.freed,
                ..self
            },
            _ => self,
        }
    }

    /// Gives what a step makes of it that writes the route of the producer, or of another one.
    fn turned(self, is_this: bool) -> Trace
        ensures { result ≡ trace_turned is_this self }
    {
        if is_this {
            Trace {
                written: AnyPlace::New,
                ..self
            }
        } else {
            self
        }
    }

    /// Gives what a step makes of it that puts the route of the producer in force, or of another
    /// one.
    fn fenced(self, case: Case, is_this: bool) -> Trace
        ensures { result ≡ trace_fenced case is_this self }
    {
        if !is_this {
            return self;
        }
        let landed = match self.flight {
            Some(place) => self.landed(case, place),
            None => self,
        };
        Trace {
            in_force: landed.written,
            flight: None,
            ..landed
        }
    }

    /// Gives what a step makes of it that does both.
    fn switched(self, is_this: bool) -> Trace
        ensures { result ≡ trace_switched is_this self }
    {
        if is_this {
            Trace {
                written: AnyPlace::New,
                in_force: AnyPlace::New,
                ..self
            }
        } else {
            self
        }
    }

    /// Gives what a step makes of it that pauses the producer, or another one.
    fn paused(self, case: Case, is_this: bool) -> Trace
        ensures { result ≡ trace_paused case is_this self }
    {
        if !is_this {
            return self;
        }
        let landed = match self.flight {
            Some(place) => self.landed(case, place),
            None => self,
        };
        Trace {
            flight: None,
            paused: true,
            ..landed
        }
    }

    /// Gives what a step makes of it that resumes the producer, or another one.
    fn resumed(self, is_this: bool) -> Trace
        ensures { result ≡ trace_resumed is_this self }
    {
        if is_this {
            Trace {
                paused: false,
                ..self
            }
        } else {
            self
        }
    }

    /// Gives what a step makes of it that zeroes the word of the bit in a place, or another one.
    fn zeroed(self, place: AnyPlace, is_this: bool) -> Trace
        ensures { result ≡ trace_zeroed place is_this self }
    {
        match place {
            AnyPlace::Old => Trace {
                old: !is_this && self.old,
                strayed: self.strayed || self.freed,
                ..self
            },
            AnyPlace::New => Trace {
                new: !is_this && self.new,
                ..self
            },
        }
    }

    /// Gives what a step makes of it that takes the word of the bit, or another one.
    fn taken(self, is_this: bool) -> Trace
        ensures { result ≡ trace_taken is_this self }
    {
        Trace {
            hand: is_this && self.old || !is_this && self.hand,
            old: !is_this && self.old,
            strayed: self.strayed || self.freed,
            ..self
        }
    }

    /// Gives what a step makes of it that copies the word of the bit, or another one.
    fn copied(self, is_this: bool) -> Trace
        ensures { result ≡ trace_copied is_this self }
    {
        Trace {
            hand: is_this && self.old || !is_this && self.hand,
            strayed: self.strayed || self.freed,
            ..self
        }
    }

    /// Gives what a step makes of it that joins it, or another one.
    fn joined(self, is_this: bool) -> Trace
        ensures { result ≡ trace_joined is_this self }
    {
        Trace {
            new: is_this && self.hand || self.new,
            hand: !is_this && self.hand,
            ..self
        }
    }

    /// Gives what a step makes of it that puts it, or another one.
    fn put(self, is_this: bool) -> Trace
        ensures { result ≡ trace_put is_this self }
    {
        Trace {
            new: is_this && self.hand || !is_this && self.new,
            hand: !is_this && self.hand,
            ..self
        }
    }

    /// Gives what a step makes of it that zeroes the number in a place, or the other one.
    fn zeroed_number(self, place: AnyPlace, is_this: bool) -> Trace
        ensures { result ≡ trace_zeroed_number place is_this self }
    {
        match place {
            AnyPlace::Old => Trace {
                old_number: !is_this && self.old_number,
                strayed: self.strayed || self.freed,
                ..self
            },
            AnyPlace::New => Trace {
                new_number: !is_this && self.new_number,
                ..self
            },
        }
    }

    /// Gives what a step makes of it that takes the number, or the other one.
    fn taken_number(self, is_this: bool) -> Trace
        ensures { result ≡ trace_taken_number is_this self }
    {
        Trace {
            hand_number: is_this && self.old_number || !is_this && self.hand_number,
            old_number: !is_this && self.old_number,
            strayed: self.strayed || self.freed,
            ..self
        }
    }

    /// Gives what a step makes of it that copies the number, or the other one.
    fn copied_number(self, is_this: bool) -> Trace
        ensures { result ≡ trace_copied_number is_this self }
    {
        Trace {
            hand_number: is_this && self.old_number || !is_this && self.hand_number,
            strayed: self.strayed || self.freed,
            ..self
        }
    }

    /// Gives what a step makes of it that puts the number, or the other one.
    fn put_number(self, is_this: bool) -> Trace
        ensures { result ≡ trace_put_number is_this self }
    {
        Trace {
            new_number: is_this && self.hand_number || !is_this && self.new_number,
            ..self
        }
    }
}
