ghost use Rattle.std.specs.Prelude.{◌≡◌};
ghost use Rattle.plans_judge.specs.Table.{standing_after, standing_first, standing_in};

use plans_rules::{AnyPlace, AnyStep, Number, NumberSpot};

/// In which spots a number stands as it was at the start.
#[derive(Clone, Copy)]
pub(crate) struct Standing {
    pub(crate) old: bool,
    pub(crate) hand: bool,
    pub(crate) new: bool,
}

impl Standing {
    /// Gives where a number stands at the start: in one spot.
    pub(crate) fn first(from: NumberSpot) -> Standing
        ensures { result ≡ standing_first from }
    {
        Standing {
            old: from == NumberSpot::InOld,
            hand: from == NumberSpot::InHand,
            new: from == NumberSpot::InNew,
        }
    }

    /// Tells whether it stands in a spot.
    pub(crate) fn is_in(self, spot: NumberSpot) -> bool
        ensures { result ≡ standing_in spot self }
    {
        match spot {
            NumberSpot::InOld => self.old,
            NumberSpot::InHand => self.hand,
            NumberSpot::InNew => self.new,
        }
    }

    /// Gives where a number stands after a step.
    pub(crate) fn after(self, step: AnyStep, number: Number) -> Standing
        ensures { result ≡ standing_after step number self }
    {
        match step {
            AnyStep::TakeNumber(m) if m == number => Standing {
                old: false,
                hand: self.old,
                new: self.new,
            },
            AnyStep::CopyNumber(m) if m == number => Standing {
                old: self.old,
                hand: self.old,
                new: self.new,
            },
            AnyStep::PutNumber(m) if m == number => Standing {
                old: self.old,
                hand: self.hand,
                new: self.hand,
            },
            AnyStep::ZeroNumber(AnyPlace::Old, m) if m == number => Standing {
                old: false,
                hand: self.hand,
                new: self.new,
            },
            AnyStep::ZeroNumber(AnyPlace::New, m) if m == number => Standing {
                old: self.old,
                hand: self.hand,
                new: false,
            },
            _ => self,
        }
    }
}
