ghost use Rattle.std.specs.Prelude.{◌≡◌, ◌+◌, ◌<◌, ◌≤◌, Bool, false, is_some, IfSome};
ghost use Rattle.aia_regs.specs.Fields.{field};
ghost use Rattle.aia_regs.specs.Top.{topi_value};
ghost use Rattle.aia_source.specs.Wired.SourceDeed.{Claimed};
ghost use Rattle.aia_domain.specs.InterruptSource.{EachSource, changed_at, with_deed};
ghost use Rattle.aia_domain.specs.Domain.{with_sources, IsPairOfSource};
ghost use Rattle.aia_direct.specs.Idc.{new_idc, control_read, control_written, top_shown, claimed_top, control_claimed, signals_hart};

use crate::front::front_search;
use crate::view::HartFront;
use aia_domain::Domain;
use aia_regs::{DomainReg, bit, bits};
use aia_word::Steps;
use std::marker::{Brand, Model};
use std::sync::ledger::{Blank, Ledger};

/// The interrupt delivery control of one hart in one domain: `idelivery`, `iforce` and
/// `ithreshold`.
///
/// AIA 1.0, APLIC, "Interrupt delivery directly by the APLIC".
#[derive(Debug, Drop)]
pub struct Idc {
    idelivery: bool,
    iforce: bool,
    ithreshold: u32,
}

impl Model for Idc {
    ghost use Rattle.aia_direct.specs.Idc.{IdcState};

    ghost Value = { IdcState };

    ghost view = { λ i. record {
      idelivery = i.idelivery;
      iforce = i.iforce;
      ithreshold = i.ithreshold;
    } };
}

impl Idc {
    /// Makes a control whose three registers are 0.
    pub fn new() -> Idc
        ensures { result ≡ new_idc }
    {
        Idc {
            idelivery: false,
            iforce: false,
            ithreshold: 0,
        }
    }

    /// Gives what `idelivery`, `iforce` or `ithreshold` reads, whatever hart the register names;
    /// every other register reads 0 here.
    pub fn load(&self, reg: DomainReg) -> u32
        ensures { result ≡ control_read self.now reg }
    {
        match reg {
            DomainReg::IDelivery(_) => u32::from(self.idelivery),
            DomainReg::IForce(_) => u32::from(self.iforce),
            DomainReg::IThreshold(_) => self.ithreshold,
            _ => 0,
        }
    }

    /// Writes `idelivery`, `iforce` or `ithreshold`, whatever hart the register names; every
    /// other register is nothing here.
    pub fn store(&mut self, reg: DomainReg, value: u32)
        ensures { self.new ≡ control_written reg value self.old }
    {
        match reg {
            DomainReg::IDelivery(_) => self.idelivery = bit(u64::from(value), 0),
            DomainReg::IForce(_) => self.iforce = bit(u64::from(value), 0),
            DomainReg::IThreshold(_) => self.ithreshold = bits(u64::from(value), 7, 0) as u32,
            _ => {}
        }
    }
}

/// Gives what `topi` of a hart reads: the number and the priority of the pending enabled source
/// aimed at the hart that has the least priority number, then the least number, among those that
/// `ithreshold` lets through; 0 where there is none, where the domain delivers by MSIs, and for a
/// hart that isn't there.
///
/// AIA 1.0, APLIC, "Interrupt delivery directly by the APLIC".
pub fn topi(idc: &Idc, domain: &Domain, hart: u32) -> u32
    ensures { result ≡ topi_value (top_shown idc.now domain.now hart) }
{
    top(idc, domain, hart)
}

/// Gives what `topi` gives, and counts just one step, for the look at the hart's candidates.
pub fn topi_counted<L: Ledger>(idc: &Idc, domain: &Domain, hart: u32, steps: &mut Steps<L>) -> u32
    ensures value { result ≡ topi_value (top_shown idc.now domain.now hart) }
    ensures small { IfSome (top_shown idc.now domain.now hart) IsPairOfSource }
    ensures one_look { steps.new ≡ steps.old + 1 }
{
    let mut front = HartFront {
        domain,
        hart,
        steps,
    };
    front_search(&mut front, idc.ithreshold)
}

/// Loads `claimi` of a hart: it reads what `topi` reads and claims the source that it shows,
/// whose pending bit falls but at a level mode; where it reads 0, `iforce` becomes 0. Where the
/// domain delivers by MSIs it reads 0 and does nothing (our profile).
///
/// AIA 1.0, APLIC, "Interrupt delivery directly by the APLIC".
pub fn claimi(idc: &mut Idc, domain: &mut Domain, hart: u32) -> u32
    ensures value { result ≡ topi_value (top_shown idc.old domain.old hart) }
    ensures idc { idc.new
        ≡ control_claimed domain.old.msi (top_shown idc.old domain.old hart) idc.old }
    ensures sources { EachSource domain.old.sources domain.new.sources
        (claimed_top (top_shown idc.old domain.old hart)) }
    ensures domain { domain.new ≡ with_sources domain.old domain.new.sources }
{
    if domain.delivers_by_msi() {
        return 0;
    }
    let top = top(idc, domain, hart);
    if top != 0 {
        claim_shown(domain, top);
    } else {
        idc.iforce = false;
    }
    top
}

/// Tells whether the hart is signalled: the domain delivers directly and its interrupts are
/// enabled, `idelivery` is 1, and a source is on top or `iforce` is 1.
///
/// AIA 1.0, APLIC, "Interrupt delivery directly by the APLIC".
pub fn signal(idc: &Idc, domain: &Domain, hart: u32) -> bool
    ensures { result ≡ signals_hart idc.now domain.now hart }
{
    !domain.delivers_by_msi()
        && domain.is_enabled()
        && idc.idelivery
        && (idc.iforce || has_top(idc, domain, hart))
}

/// Claims the source whose number `topi` shows.
fn claim_shown(domain: &mut Domain, top: u32)
    ensures sources { EachSource domain.old.sources domain.new.sources
        (changed_at (field top 25 16) (with_deed false Claimed)) }
    ensures domain { domain.new ≡ with_sources domain.old domain.new.sources }
{
    domain.claimed(bits(u64::from(top), 25, 16) as u32);
}

/// Tells whether a source is on top.
#[tactic(auto, using(crate::proofs::TopLemmas::top_is_some))]
fn has_top(idc: &Idc, domain: &Domain, hart: u32) -> bool
    ensures { result ≡ is_some (top_shown idc.now domain.now hart) }
{
    top(idc, domain, hart) != 0
}

/// Gives what `topi` reads.
fn top(idc: &Idc, domain: &Domain, hart: u32) -> u32
    ensures value { result ≡ topi_value (top_shown idc.now domain.now hart) }
    ensures small { IfSome (top_shown idc.now domain.now hart) IsPairOfSource }
{
    top_in::<Brand>(idc, domain, hart, Blank::new(1))
}

/// Gives what `topi` reads, by a look that is counted in a new ledger.
fn top_in<L: Ledger>(idc: &Idc, domain: &Domain, hart: u32, ledger: Blank) -> u32
    requires name { ledger.name ≡ L.name }
    requires parts { ledger.parts ≡ L.parts }
    requires some { 0 < L.parts }
    ensures value { result ≡ topi_value (top_shown idc.now domain.now hart) }
    ensures small { IfSome (top_shown idc.now domain.now hart) IsPairOfSource }
{
    topi_counted(idc, domain, hart, &mut Steps::<L>::new(ledger))
}
