ghost use Rattle.std.specs.Prelude.{◌≡◌, ℕ, false, ◌&&◌, nat_eq, if◌then◌else◌, OnOk, OnErr, is_ok};
ghost use Rattle.aia_word.specs.Sets.{has_bit};
ghost use Rattle.aia_regs.specs.BitUpdate.{settle};
ghost use Rattle.aia_major.specs.VsMajor.{is_major, is_guests_own, injection_said, majors_word};
ghost use Rattle.aia_major.specs.Kept.{members, no_members};

use crate::range::Range;
use aia_regs::bit;

/// A set of the four majors.
#[derive(Clone, Copy, Debug, PartialEq, Eq)]
pub(crate) struct Majors {
    /// The software interrupt, major 1.
    pub(crate) software: bool,
    /// The timer's, major 5.
    pub(crate) timer: bool,
    /// The external one, major 9.
    pub(crate) external: bool,
    /// That of an overflowing counter, major 13.
    pub(crate) overflow: bool,
}

impl Majors {
    /// Makes the set of none.
    pub(crate) fn none() -> Majors
        ensures kept { result ≡ no_members }
        ensures none { members result ≡ (λ j. false) }
    {
        Majors {
            software: false,
            timer: false,
            external: false,
            overflow: false,
        }
    }

    /// Makes the set of those whose bits of a register are ones.
    pub(crate) fn of_word(v: u64) -> Majors
        ensures { (j : ℕ) → members result j ≡ (is_major j && has_bit v j) }
    {
        Majors {
            software: bit(v, 1),
            timer: bit(v, 5),
            external: bit(v, 9),
            overflow: bit(v, 13),
        }
    }

    /// Gives the register whose ones are the set.
    pub(crate) fn word(self) -> u64
        ensures { result ≡ majors_word (members self) }
    {
        let software = u64::from(self.software);
        let timer = u64::from(self.timer);
        let external = u64::from(self.external);
        let overflow = u64::from(self.overflow);
        (software << 1) + (timer << 5) + (external << 9) + (overflow << 13)
    }

    /// Gives the set of those that both sets have.
    pub(crate) fn and(self, other: Majors) -> Majors
        ensures { members result ≡ (λ j. members self j && members other j) }
    {
        Majors {
            software: self.software && other.software,
            timer: self.timer && other.timer,
            external: self.external && other.external,
            overflow: self.overflow && other.overflow,
        }
    }

    /// Puts one major in, or takes it out. `Err`: the number is no major's, and the set stays.
    pub(crate) fn set(&mut self, major: u32, level: bool) -> Result<(), Range>
        ensures range { is_ok result ≡ is_major major }
        ensures ok { OnOk result ((j : ℕ) → members self.new j
            ≡ settle (injection_said major level j) (members self.old j)) }
        ensures err { OnErr result (self.new ≡ self.old) }
    {
        match major {
            1 => self.software = level,
            5 => self.timer = level,
            9 => self.external = level,
            13 => self.overflow = level,
            _ => return Err(Range),
        }
        Ok(())
    }

    /// Takes the bits of a register for those majors that a guest's write to `sip` is heard at.
    pub(crate) fn write_own(&mut self, v: u64)
        ensures { (j : ℕ) → members self.new j
            ≡ (if is_guests_own j then has_bit v j else members self.old j) }
    {
        self.software = bit(v, 1);
        self.overflow = bit(v, 13);
    }
}
