ghost use Rattle.std.specs.Prelude.{◌≡◌, ℕ, ◌+◌, ◌^◌, ◌<◌, not, ◌&&◌, nat_eq, if◌then◌else◌, OnOk, OnErr, is_ok};
ghost use Rattle.std.specs.Option.{option_map};
ghost use Rattle.aia_regs.specs.Fields.{field};
ghost use Rattle.aia_major.specs.VsMajor.{new_majors, is_major, is_hvictl, fits_hvip, fits_hviprio1, fits_hvictl, vti_of, is_pending, majors_word, or_256, one_if, by_hvictl, candidates, first_of, priority_shown, stopi_value, sip_value, sie_value, with_injection, with_hvip, with_hviprio1, with_hvictl, with_sip, with_sie};
ghost use Rattle.aia_major.specs.Kept.{members, kept_at_first, majors_shown, sip_written, sie_written, seen, listed};

use crate::candidate::Candidate;
use crate::first::{first, or_256};
use crate::kept;
use crate::majors::Majors;
use crate::range::Range;
use aia_regs::{Op, bits, put_bits};

/// The major interrupts of a virtual hart: those that are injected, those that the guest enables,
/// and the registers `hviprio1` and `hvictl`.
///
/// AIA 1.0, Interrupts for Virtual Machines (VS Level).
#[derive(Clone, Copy, Debug)]
pub struct VsMajor {
    injected: Majors,
    enabled: Majors,
    hviprio1: u64,
    hvictl: u64,
}

impl VsMajor {
    /// Makes them as a virtual hart begins: none is injected or enabled, and both registers are 0.
    /// Profile.
    #[tactic(auto, unfolding(crate::specs::Kept::majors_shown))]
    pub fn new() -> VsMajor
        ensures kept { result ≡ kept_at_first }
        ensures shown { majors_shown result ≡ new_majors }
    {
        VsMajor {
            injected: Majors::none(),
            enabled: Majors::none(),
            hviprio1: 0,
            hvictl: 0,
        }
    }

    /// Gives what the guest's `stopi` reads: the major on top in bits 27:16, and in bits 7:0 1, or,
    /// where IPRIOM of `hvictl` is 1, its priority number, 255 standing for one above it; 0 where
    /// no major is on top.
    ///
    /// `stopei` is what the guest's `stopei` reads, and `signal` whether its interrupt file
    /// signals.
    ///
    /// AIA 1.0, Interrupts for Virtual Machines (VS Level).
    #[tactic(auto, unfolding(crate::specs::Kept::majors_shown))]
    pub fn stopi(&self, stopei: u64, signal: bool) -> u64
        ensures { result ≡ stopi_value (majors_shown self.now) stopei signal }
    {
        match self.on_top(stopei, signal) {
            Some(c) => {
                let major = put_bits(0, 27, 16, c.major);
                put_bits(major, 7, 0, self.priority_shown(c.number))
            }
            None => 0,
        }
    }

    /// Gives what `sip` reads: of the bits 1, 5, 9 and 13 those of the majors that are injected,
    /// and bit 9 too where `signal` says that the guest's interrupt file signals.
    ///
    /// The hypervisor extension 1.0: `vsip`.
    #[tactic(auto, unfolding(crate::specs::Kept::majors_shown))]
    pub fn sip(&self, signal: bool) -> u64
        ensures { result ≡ sip_value (majors_shown self.now) signal }
    {
        self.pending(signal).word()
    }

    /// Gives what `sie` reads: of the bits 1, 5, 9 and 13 those of the majors that are enabled.
    ///
    /// The hypervisor extension 1.0: `vsie`.
    #[tactic(auto, unfolding(crate::specs::Kept::majors_shown))]
    pub fn sie(&self) -> u64
        ensures { result ≡ sie_value (majors_shown self.now) }
    {
        self.enabled.word()
    }

    /// Gives the majors that are injected: of the bits 1, 5, 9 and 13, where `sip` has them, those
    /// of the majors that are.
    ///
    /// The hypervisor extension 1.0: `hvip`, which has them at the bits 2, 6, 10 and 13.
    #[tactic(auto, unfolding(crate::specs::Kept::majors_shown))]
    pub fn injected(&self) -> u64
        ensures { result ≡ majors_word (majors_shown self.now).injected }
    {
        self.injected.word()
    }

    /// Gives `hviprio1`: the priority numbers of the majors 1, 5 and 13, in bits 15:8, 31:24 and
    /// 47:40.
    ///
    /// AIA 1.0, Interrupts for Virtual Machines (VS Level).
    #[tactic(auto, unfolding(crate::specs::Kept::majors_shown))]
    pub fn hviprio(&self) -> u64
        ensures { result ≡ (majors_shown self.now).hviprio1 }
    {
        self.hviprio1
    }

    /// Gives `hvictl`: VTI, bit 30; IID, bits 27:16; DPR, bit 9; IPRIOM, bit 8; IPRIO, bits 7:0.
    ///
    /// AIA 1.0, Interrupts for Virtual Machines (VS Level).
    #[tactic(auto, unfolding(crate::specs::Kept::majors_shown))]
    pub fn hvictl(&self) -> u64
        ensures { result ≡ (majors_shown self.now).hvictl }
    {
        self.hvictl
    }

    /// Takes the number that a guest's instruction writes to `sip`: bits 1 and 13 say whether those
    /// majors are injected, and every other bit is ignored.
    ///
    /// The hypervisor extension 1.0: `vsip`. Profile: bit 13 is the guest's to write, as bit 1 is.
    #[tactic(auto, unfolding(crate::specs::Kept::majors_shown))]
    pub fn write_sip(&mut self, v: u64)
        ensures { majors_shown self.new ≡ sip_written v (majors_shown self.old) }
    {
        self.injected.write_own(v);
    }

    /// Takes the number that a guest's instruction writes to `sie`: bits 1, 5, 9 and 13 say whether
    /// those majors are enabled, and every other bit is ignored.
    ///
    /// The hypervisor extension 1.0: `vsie`.
    #[tactic(auto, unfolding(crate::specs::Kept::majors_shown))]
    pub fn write_sie(&mut self, v: u64)
        ensures { majors_shown self.new ≡ sie_written v (majors_shown self.old) }
    {
        self.enabled = Majors::of_word(v);
    }

    /// Does a guest's CSR instruction on `sip`, and gives what `sip` read before it: `signal` says
    /// whether the guest's interrupt file signals.
    ///
    /// The hypervisor extension 1.0: `vsip`. Profile: bits 1 and 13 are the guest's to write.
    pub fn access_sip(&mut self, op: Op, signal: bool) -> u64
        ensures value { result ≡ sip_value (majors_shown self.old) signal }
        ensures after { majors_shown self.new ≡ with_sip op (majors_shown self.old) }
    {
        let before = self.sip(signal);
        self.write_sip(op.written(before));
        before
    }

    /// Does a guest's CSR instruction on `sie`, and gives what `sie` read before it.
    ///
    /// The hypervisor extension 1.0: `vsie`.
    pub fn access_sie(&mut self, op: Op) -> u64
        ensures value { result ≡ sie_value (majors_shown self.old) }
        ensures after { majors_shown self.new ≡ with_sie op (majors_shown self.old) }
    {
        let before = self.sie();
        self.write_sie(op.written(before));
        before
    }

    /// Injects a level at the major with this number, 1, 5, 9 or 13, as a write of `hvip` does.
    /// `Err`: it is another number, and nothing changes.
    ///
    /// The hypervisor extension 1.0: `hvip`, which has them at the bits 2, 6, 10 and 13.
    #[tactic(auto, unfolding(crate::specs::Kept::majors_shown))]
    pub fn inject(&mut self, major: u32, level: bool) -> Result<(), Range>
        ensures range { is_ok result ≡ is_major major }
        ensures ok { OnOk result (majors_shown self.new
            ≡ with_injection major level (majors_shown self.old)) }
        ensures err { OnErr result (self.new ≡ self.old) }
    {
        self.injected.set(major, level)
    }

    /// Writes `hvip`, of a number that has the majors where `sip` has them: bits 1, 5, 9 and 13 say
    /// whether those majors are injected, and every other bit is ignored.
    ///
    /// The hypervisor extension 1.0: `hvip`, which has them at the bits 2, 6, 10 and 13.
    #[tactic(auto, unfolding(crate::specs::Kept::majors_shown))]
    pub fn set_hvip(&mut self, v: u64)
        ensures { majors_shown self.new ≡ with_hvip v (majors_shown self.old) }
    {
        self.injected = Majors::of_word(v);
    }

    /// Writes `hviprio1`, of which the priority numbers of the majors 1, 5 and 13 are kept: bits
    /// 15:8, 31:24 and 47:40.
    ///
    /// AIA 1.0, Interrupts for Virtual Machines (VS Level). Profile: no other bits are kept.
    #[tactic(auto, unfolding(crate::specs::Kept::majors_shown))]
    pub fn set_hviprio(&mut self, v: u64)
        ensures { majors_shown self.new ≡ with_hviprio1 v (majors_shown self.old) }
    {
        self.hviprio1 = kept::hviprio1_kept(v);
    }

    /// Writes `hvictl`: VTI, bit 30; IID, bits 27:16; DPR, bit 9; IPRIOM, bit 8; IPRIO, bits 7:0.
    /// `Err`: VTI is 1 and IID is none of 1 to 63, and nothing changes.
    ///
    /// AIA 1.0, Interrupts for Virtual Machines (VS Level). Profile: the range of IID.
    #[tactic(auto, unfolding(crate::specs::Kept::majors_shown))]
    pub fn set_hvictl(&mut self, v: u64) -> Result<(), Range>
        ensures range { is_ok result ≡ is_hvictl v }
        ensures ok { OnOk result (majors_shown self.new ≡ with_hvictl v (majors_shown self.old)) }
        ensures err { OnErr result (self.new ≡ self.old) }
    {
        if !kept::is_hvictl(v) {
            return Err(Range);
        }
        self.hvictl = kept::hvictl_kept(v);
        Ok(())
    }

    /// Tells VTI of `hvictl`: whether a guest's access to `sip` or `sie` raises a
    /// virtual-instruction exception, and `hvictl` says which major is there.
    ///
    /// AIA 1.0, Interrupts for Virtual Machines (VS Level).
    #[tactic(auto, unfolding(crate::specs::Kept::majors_shown))]
    pub fn vti(&self) -> bool
        ensures { result ≡ vti_of (majors_shown self.now).hvictl }
    {
        kept::vti(self.hvictl)
    }

    /// Gives the majors that are pending.
    #[tactic(auto, unfolding(crate::specs::Kept::majors_shown))]
    fn pending(&self, signal: bool) -> Majors
        ensures { members result ≡ is_pending (majors_shown self.now) signal }
    {
        Majors {
            external: self.injected.external || signal,
            ..self.injected
        }
    }

    /// Gives the first of the candidates; `None` where there is none.
    #[tactic(auto, unfolding(crate::specs::Kept::majors_shown))]
    fn on_top(&self, stopei: u64, signal: bool) -> Option<Candidate>
        ensures { option_map seen result
            ≡ first_of (candidates (majors_shown self.now) stopei signal) }
    {
        let live = self.pending(signal).and(self.enabled);
        let by_hvictl = self.by_hvictl();
        let overflow = first(self.by_hviprio1(live.overflow, 13, 40, 4), by_hvictl);
        let timer = first(self.by_hviprio1(live.timer, 5, 24, 3), overflow);
        let software = first(self.by_hviprio1(live.software, 1, 8, 2), timer);
        first(external(live.external, stopei), software)
    }

    /// Gives another major than the external one, where it is live, by its byte of `hviprio1`,
    /// which begins at bit `lo`.
    fn by_hviprio1(&self, live: bool, major: u64, lo: u32, rank: u64) -> Option<Candidate>
        requires major { major < 2 ^ 12 }
        requires byte { lo + 7 < 64 }
        ensures { listed result ≡ one_if (not (vti_of self.now.hvictl) && live) (record {
          major = major;
          number = or_256 (field self.now.hviprio1 (lo + 7) lo);
          rank = rank;
        }) }
    {
        if kept::vti(self.hvictl) || !live {
            return None;
        }
        Some(Candidate {
            major,
            number: or_256(bits(self.hviprio1, lo + 7, lo)),
            rank,
        })
    }

    /// Gives the major that `hvictl` says is there, where it is not the external one.
    fn by_hvictl(&self) -> Option<Candidate>
        ensures { listed result ≡ by_hvictl self.now.hvictl }
    {
        let major = kept::iid(self.hvictl);
        if !kept::vti(self.hvictl) || major == 9 {
            return None;
        }
        let iprio = kept::iprio(self.hvictl);
        let (number, rank) = if kept::dpr(self.hvictl) {
            (or_256(iprio), 2)
        } else {
            (iprio, 0)
        };
        Some(Candidate {
            major,
            number,
            rank,
        })
    }

    /// Gives the priority that `stopi` shows of a priority number.
    fn priority_shown(&self, number: u64) -> u64
        ensures value { result ≡ priority_shown self.now.hvictl number }
        ensures fits { result < 2 ^ 8 }
    {
        if kept::ipriom(self.hvictl) {
            number.min(255)
        } else {
            1
        }
    }
}

/// Tells whether a number may say which majors are injected or enabled: its ones are at the bits 1,
/// 5, 9 and 13 only, where `sip` and `sie` have them.
///
/// The hypervisor extension 1.0: `hvip` and `vsie`. Profile: the four majors.
pub fn fits_hvip(v: u64) -> bool
    ensures { result ≡ fits_hvip v }
{
    Majors::of_word(v).word() == v
}

/// Tells whether `hviprio1` may hold a number: it is zero but for bits 15:8, 31:24 and 47:40.
///
/// AIA 1.0, Interrupts for Virtual Machines (VS Level). Profile: no other bits are kept.
pub fn fits_hviprio(v: u64) -> bool
    ensures { result ≡ fits_hviprio1 v }
{
    kept::hviprio1_kept(v) == v
}

/// Tells whether `hvictl` may hold a number: it is zero but for bits 30, 27:16 and 9:0, and bits
/// 27:16 are 1 to 63 where bit 30 is a one.
///
/// AIA 1.0, Interrupts for Virtual Machines (VS Level). Profile: the range of IID.
pub fn fits_hvictl(v: u64) -> bool
    ensures { result ≡ fits_hvictl v }
{
    kept::hvictl_kept(v) == v && kept::is_hvictl(v)
}

/// Gives the external interrupt, where it is live, by the identity that `stopei` shows.
fn external(live: bool, stopei: u64) -> Option<Candidate>
    ensures { listed result ≡ one_if live (record {
      major = 9;
      number = (if nat_eq stopei 0 then 256 else field stopei 10 0);
      rank = 1;
    }) }
{
    if !live {
        return None;
    }
    let number = if stopei == 0 {
        256
    } else {
        bits(stopei, 10, 0)
    };
    Some(Candidate {
        major: 9,
        number,
        rank: 1,
    })
}
