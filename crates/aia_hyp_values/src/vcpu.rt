ghost use Rattle.std.specs.Prelude.{◌≡◌};
ghost use Rattle.aia_hyp_values.specs.Core.{no_record, resident_at, entered_at, parked_at, runs_in, has_plan};

use aia_major::VsMajor;
use aia_model::Refusal;
use aia_move_values::KeptNumbers;
use aia_pool::FileLease;
use aia_vcpu::{GuestPlace, Rest};

/// Where a virtual hart is: what the hypervisor keeps of it there, and of one that is being moved
/// the plan.
#[derive(Drop)]
pub enum Stay<P> {
    /// Its interrupts rest in its slot of memory; its two numbers are kept here. Where it is
    /// entered it runs, and its instructions on the CSRs of its interrupt file are answered from
    /// there.
    InMemory(Rest, KeptNumbers),
    /// It is resident in the guest file of this lease.
    Resident(FileLease),
    /// It is being moved.
    Moving(P),
}

impl<P> Stay<P> {
    /// Tells the guest file of a virtual hart that is resident, `None` for one that is parked, runs
    /// from memory or is being moved.
    pub fn resident(&self) -> Option<GuestPlace>
        ensures { result ≡ resident_at self.now }
    {
        match self {
            Stay::Resident(lease) => Some(lease.place()),
            Stay::InMemory(..) | Stay::Moving(_) => None,
        }
    }

    /// Tells the numbers that are kept of a virtual hart that runs from memory, `None` for any
    /// other.
    pub fn entered(&self) -> Option<KeptNumbers>
        ensures { result ≡ entered_at self.now }
    {
        match self {
            Stay::InMemory(Rest::Entered, kept) => Some(*kept),
            Stay::InMemory(Rest::Parked, _) | Stay::Resident(_) | Stay::Moving(_) => None,
        }
    }

    /// Tells the numbers that are kept of a virtual hart that is parked. `Err` is `Entered` where
    /// it runs from memory, `Home` where it is resident, `Busy` where it is being moved.
    pub fn parked(&self) -> Result<KeptNumbers, Refusal>
        ensures { result ≡ parked_at self.now }
    {
        match self {
            Stay::InMemory(Rest::Parked, kept) => Ok(*kept),
            Stay::InMemory(Rest::Entered, _) => Err(Refusal::Entered),
            Stay::Resident(_) => Err(Refusal::Home),
            Stay::Moving(_) => Err(Refusal::Busy),
        }
    }

    /// Tells whether it runs, in a guest file or from memory.
    pub fn runs(&self) -> bool
        ensures { result ≡ runs_in self.now }
    {
        matches!(self, Stay::Resident(_) | Stay::InMemory(Rest::Entered, _))
    }

    /// Tells whether it is being moved.
    pub fn has_plan(&self) -> bool
        ensures { result ≡ has_plan self.now }
    {
        matches!(self, Stay::Moving(_))
    }
}

/// What the hypervisor keeps of a virtual hart.
#[derive(Drop)]
pub struct VcpuRecord<P> {
    /// Where it is.
    pub stay: Stay<P>,
    /// Its select number: what `siselect` holds.
    pub select: u64,
    /// Its major interrupts, which no move touches.
    pub majors: VsMajor,
}

impl<P> Default for VcpuRecord<P> {
    ghost use Rattle.std.specs.Prelude.{◌≡◌};
    ghost use Rattle.aia_hyp_values.specs.Core.{no_record};

    ghost is_default = { λ r. r ≡ no_record };

    /// Makes the record of a virtual hart as it is made; arrays of bounded size need one.
    fn default() -> VcpuRecord<P> {
        VcpuRecord::new()
    }
}

impl<P> VcpuRecord<P> {
    /// Makes the record of a virtual hart that was never moved: it is parked, all its numbers are
    /// 0, and no major interrupt of it is injected or enabled.
    pub fn new() -> VcpuRecord<P>
        ensures { result ≡ no_record }
    {
        VcpuRecord {
            stay: Stay::InMemory(
                Rest::Parked,
                KeptNumbers {
                    delivery: 0,
                    threshold: 0,
                },
            ),
            select: 0,
            majors: VsMajor::new(),
        }
    }
}
