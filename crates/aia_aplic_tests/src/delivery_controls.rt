//! What is on top for a hart, claims and signals.

ghost use Rattle.std.specs.Prelude.{◌≡◌, ◌<◌};

use crate::looks::{holds, is_same};
use crate::same;
use aia_direct::{Front, Idc, claimi, front_search, signal, topi, topi_counted};
use aia_domain::Domain;
use aia_regs::DomainReg;
use aia_word::Steps;
use std::marker::Brand;
use std::process::Abort;
use std::sync::ledger::{Blank, Ledger};
use std::test::Fail;

#[test]
fn the_least_priority_is_shown_and_claimed(rt: HostRuntime) -> Result<(), Fail> {
    let mut domain = Domain::new(rt.alloc(), 8, 2, false)?;
    let mut idc = Idc::new();
    domain.store(DomainReg::SourceCfg(1), 4);
    domain.store(DomainReg::SourceCfg(2), 4);
    domain.store(DomainReg::Target(1), 7);
    domain.store(DomainReg::Target(2), 3);
    domain.store(DomainReg::SetIe(0), 0b110);
    domain.wire(1, true);
    domain.wire(2, true);
    same!(rt; topi(&idc, &domain, 0), 0x0002_0003);
    same!(rt; claimi(&mut idc, &mut domain, 0), 0x0002_0003);
    same!(rt; claimi(&mut idc, &mut domain, 0), 0x0001_0007);
    same!(rt; topi(&idc, &domain, 1), 0);
    Ok(())
}

/// The candidates of hart 0 in a domain, looked at from outside.
#[derive(Drop)]
struct CandidatesOf<'a, L: Ledger> {
    domain: &'a Domain,
    steps: &'a mut Steps<L>,
}

impl<L: Ledger> Front for CandidatesOf<'_, L> {
    ghost use Rattle.std.specs.Prelude.{◌≡◌, ◌+◌};
    ghost use Rattle.std.proofs.Common.{◌∙◌};
    ghost use Rattle.aia_domain.specs.Domain.{candidates};

    ghost pairs = { λ v. candidates v.domain.now 0 };

    ghost count = { λ v. v.steps.now };

    ghost IsSamePlace = { λ v w. w.steps.ghost_name ≡ v.steps.ghost_name };

    fn at(&mut self, place: usize) -> Option<(u32, u32)> {
        self.steps.count_one();
        self.domain.candidate(0, place)
    }

    ghost same_place_follows = { λ a b c first second. second ∙ first };
}

/// Looks at what is on top by a counted call, and by the search itself. That each adds one step,
/// its clauses say: a count has no value while the program runs.
fn a_look_is_counted<L: Ledger>(rt: &impl Abort, domain: &Domain, blank: Blank)
    requires name { blank.name ≡ L.name }
    requires parts { blank.parts ≡ L.parts }
    requires some { 0 < L.parts }
{
    let mut idc = Idc::new();
    let mut steps = Steps::<L>::new(blank);
    is_same(rt, topi_counted(&idc, domain, 0, &mut steps), 0x0001_0003);
    idc.store(DomainReg::IThreshold(0), 3);
    is_same(rt, topi_counted(&idc, domain, 0, &mut steps), 0);
    is_same(rt, topi(&idc, domain, 1), 0);
    let mut front = CandidatesOf {
        domain,
        steps: &mut steps,
    };
    is_same(rt, front_search(&mut front, 0), 0x0001_0003);
    is_same(rt, front_search(&mut front, 3), 0);
}

#[test]
fn what_is_on_top_is_found_by_a_counted_look(rt: HostRuntime) -> Result<(), Fail> {
    let mut domain = Domain::new(rt.alloc(), 1023, 1, false)?;
    domain.store(DomainReg::SourceCfg(1), 1);
    domain.store(DomainReg::Target(1), 3);
    domain.store(DomainReg::SetIeNum, 1);
    domain.store(DomainReg::SetIpNum, 1);
    a_look_is_counted::<Brand>(&rt, &domain, Blank::new(1));
    Ok(())
}

#[test]
fn a_hart_is_signalled_while_its_control_delivers(rt: HostRuntime) -> Result<(), Fail> {
    let mut domain = Domain::new(rt.alloc(), 1, 1, false)?;
    let mut idc = Idc::new();
    domain.store(DomainReg::DomainCfg, 0x100);
    idc.store(DomainReg::IForce(0), 1);
    holds(&rt, !signal(&idc, &domain, 0));
    idc.store(DomainReg::IDelivery(0), 3);
    holds(&rt, signal(&idc, &domain, 0));
    same!(rt; idc.load(DomainReg::IDelivery(0)), 1);
    same!(rt; claimi(&mut idc, &mut domain, 0), 0);
    same!(rt; idc.load(DomainReg::IForce(0)), 0);
    Ok(())
}
