//! Both domains of an APLIC, and the MSIs that they send.

ghost use Rattle.std.specs.Prelude.{◌≡◌, ◌<◌, ◌≤◌};
ghost use Rattle.aia_regs.specs.declared.limits.TheConstants.{HARTS, IDENTITIES};

use crate::looks::{holds, is_same};
use crate::same;
use aia_aplic::{Aplic, Bits, Msi, bits_search};
use aia_domain::Domain;
use aia_model::DomainName;
use aia_regs::DomainReg;
use aia_word::Steps;
use std::alloc::{AllocError, Global};
use std::marker::Brand;
use std::process::Abort;
use std::sync::ledger::{Blank, Ledger};
use std::test::Fail;

/// Stores values at offsets of the root domain.
fn root_stores(aplic: &mut Aplic, stores: &[(u32, u32)]) {
    for (offset, value) in stores {
        aplic.store(DomainName::Root, *offset, *value);
    }
}

/// Stores values at offsets of the child domain.
fn child_stores(aplic: &mut Aplic, stores: &[(u32, u32)]) {
    for (offset, value) in stores {
        aplic.store(DomainName::Child, *offset, *value);
    }
}

/// Loads from an offset of a domain.
fn loads(aplic: &mut Aplic, name: DomainName, offset: u32) -> u32 {
    aplic.load(name, offset)
}

/// Tells whether a domain signals a hart.
fn signals(aplic: &Aplic, name: DomainName, hart: u32) -> bool {
    aplic.pin(name, hart)
}

/// Tells whether an MSI waits.
fn waits(aplic: &Aplic) -> bool {
    aplic.has_msi()
}

/// Sends what waits first.
fn sends(aplic: &mut Aplic) -> Option<Msi> {
    aplic.next_msi()
}

#[test]
fn a_child_signals_the_hart_that_a_source_is_aimed_at(rt: HostRuntime) -> Result<(), Fail> {
    let mut aplic = Aplic::new(rt.alloc(), 2, 8)?;
    same!(rt; aplic.sources(), 8);
    root_stores(&mut aplic, &[(0x0004, 0x400)]);
    child_stores(
        &mut aplic,
        &[(0x0004, 7), (0x1edc, 1), (0x3004, 0x0004_0003)],
    );
    same!(rt; loads(&mut aplic, DomainName::Child, 0x4038), 0x0001_0003);
    holds(&rt, !signals(&aplic, DomainName::Child, 1));
    child_stores(&mut aplic, &[(0x0000, 0x100), (0x4020, 1)]);
    holds(&rt, signals(&aplic, DomainName::Child, 1));
    holds(&rt, !signals(&aplic, DomainName::Child, 0));
    holds(&rt, !signals(&aplic, DomainName::Root, 1));
    Ok(())
}

/// The sources that two domains are to forward, looked at from outside.
#[derive(Drop)]
struct SourcesOf<'a, L: Ledger> {
    root: &'a Domain,
    child: &'a Domain,
    steps: &'a mut Steps<L>,
}

impl<L: Ledger> Bits for SourcesOf<'_, L> {
    ghost use Rattle.std.specs.Prelude.{◌≡◌, ◌+◌, if◌then◌else◌};
    ghost use Rattle.std.proofs.Common.{◌∙◌, refl};
    ghost use Rattle.aia_domain.specs.Domain.{is_ready};
    ghost use Rattle.aia_model.specs.Act.{is_domain};
    ghost use Rattle.aia_model.specs.declared.domain_name.DomainName.TheVariants.{Root};

    ghost members = { λ v name.
        is_ready (if is_domain name Root then v.root.now else v.child.now) };

    ghost count = { λ v. v.steps.now };

    ghost IsSamePlace = { λ v w. w.steps.ghost_name ≡ v.steps.ghost_name };

    fn word(&mut self, name: DomainName, k: u32) -> u64 {
        self.steps.count_one();
        match name {
            DomainName::Root => self.root.ready_word(k),
            DomainName::Child => self.child.ready_word(k),
        }
    }

    ghost same_place_begins = { λ a. refl };

    ghost same_place_follows = { λ a b c first second. second ∙ first };
}

/// Makes a domain that is to forward a source.
fn forwards(alloc: Global, s: u32) -> Result<Domain, AllocError>
    requires some { 1 ≤ s }
    requires few { s ≤ 1023 }
{
    let mut domain = Domain::new(alloc, 1023, 1, false)?;
    domain.store(DomainReg::DomainCfg, 0x104);
    domain.store(DomainReg::SourceCfg(s), 1);
    domain.store(DomainReg::SetIeNum, s);
    domain.store(DomainReg::SetIpNum, s);
    Ok(domain)
}

/// Searches the sources of two domains.
fn first_of<L: Ledger>(
    root: &Domain,
    child: &Domain,
    steps: &mut Steps<L>,
) -> Option<(DomainName, u32)> {
    let mut bits = SourcesOf { root, child, steps };
    bits_search(&mut bits)
}

/// Searches where one domain has a lesser source, where both have the same, and where none has one.
fn searches<L: Ledger>(
    rt: &impl Abort,
    of_70: &Domain,
    of_1023: &Domain,
    none: &Domain,
    blank: Blank,
)
    requires name { blank.name ≡ L.name }
    requires parts { blank.parts ≡ L.parts }
    requires some { 0 < L.parts }
{
    let mut steps = Steps::<L>::new(blank);
    is_same(
        rt,
        first_of(of_1023, of_70, &mut steps),
        Some((DomainName::Child, 70)),
    );
    is_same(
        rt,
        first_of(of_1023, of_1023, &mut steps),
        Some((DomainName::Root, 1023)),
    );
    is_same(rt, first_of(none, none, &mut steps), None);
}

#[test]
fn the_least_source_of_two_domains_is_found(rt: HostRuntime) -> Result<(), Fail> {
    let none = Domain::new(rt.alloc(), 8, 1, false)?;
    let of_70 = forwards(rt.alloc(), 70)?;
    let of_1023 = forwards(rt.alloc(), 1023)?;
    searches::<Brand>(&rt, &of_70, &of_1023, &none, Blank::new(1));
    drop(of_1023);
    drop(of_70);
    drop(none);
    Ok(())
}

/// Sends by counted calls the MSI of the last source, and then none. That the one adds 2 to 32
/// steps and the other none, its clauses say: a count has no value while the program runs.
fn looks_are_counted<L: Ledger>(rt: &impl Abort, aplic: &mut Aplic, blank: Blank)
    requires name { blank.name ≡ L.name }
    requires parts { blank.parts ≡ L.parts }
    requires some { 0 < L.parts }
{
    let mut steps = Steps::<L>::new(blank);
    let msi = Msi {
        address: 0x2400_0000,
        value: 9,
        source: Some(1023),
    };
    is_same(rt, aplic.next_msi_counted(&mut steps), Some(msi));
    is_same(rt, aplic.next_msi_counted(&mut steps), None);
}

#[test]
fn the_last_source_is_found_by_counted_looks(rt: HostRuntime) -> Result<(), Fail> {
    let mut aplic = Aplic::new(rt.alloc(), 1, 1023)?;
    root_stores(
        &mut aplic,
        &[
            (0x1bc0, 0x24000),
            (0x0000, 0x104),
            (0x0ffc, 4),
            (0x3ffc, 9),
            (0x1edc, 1023),
        ],
    );
    aplic.wire(1023, true);
    looks_are_counted::<Brand>(&rt, &mut aplic, Blank::new(1));
    Ok(())
}

#[test]
fn msis_are_sent_until_none_waits(rt: HostRuntime) -> Result<(), Fail> {
    let mut aplic = Aplic::new(rt.alloc(), 1, 8)?;
    root_stores(
        &mut aplic,
        &[
            (0x1bc0, 0x24000),
            (0x0000, 0x104),
            (0x0004, 4),
            (0x3004, 5),
            (0x1edc, 1),
        ],
    );
    holds(&rt, !waits(&aplic));
    same!(rt; sends(&mut aplic), None);
    aplic.wire(1, true);
    holds(&rt, waits(&aplic));
    let msi = Msi {
        address: 0x2400_0000,
        value: 5,
        source: Some(1),
    };
    same!(rt; sends(&mut aplic), Some(msi));
    holds(&rt, !waits(&aplic));
    same!(rt; sends(&mut aplic), None);
    same!(rt; loads(&mut aplic, DomainName::Root, 0x1c00), 0);
    Ok(())
}

/// Aims a source, and gives the target that its register in the child domain then shows.
fn aimed(aplic: &mut Aplic, s: u32, hart: u32, guest: u32, identity: u32) -> u32
    requires hart { hart < HARTS }
    requires guest { guest < 64 }
    requires identity { identity ≤ IDENTITIES }
{
    aplic.aim(s, hart, guest, identity);
    aplic.load(DomainName::Child, 0x3004)
}

#[test]
fn a_source_may_be_passed_once_all_registers_are_for_guests(rt: HostRuntime) -> Result<(), Fail> {
    let mut aplic = Aplic::new(rt.alloc(), 2, 8)?;
    root_stores(&mut aplic, &[(0x0004, 0x400), (0x1bc4, 0x2000)]);
    child_stores(&mut aplic, &[(0x0000, 0x104)]);
    root_stores(&mut aplic, &[(0x1bc8, 0x28000), (0x1bcc, 0x50_0000)]);
    // It is not active in the child domain.
    holds(&rt, !aplic.passable(1));
    child_stores(&mut aplic, &[(0x0004, 4)]);
    holds(&rt, aplic.passable(1));
    holds(&rt, !aplic.passable(0));
    holds(&rt, !aplic.passable(2));
    holds(&rt, !aplic.passable(9));
    // The domain delivers directly; the addresses are those of another map.
    child_stores(&mut aplic, &[(0x0000, 0x100)]);
    holds(&rt, !aplic.passable(1));
    same!(rt; aimed(&mut aplic, 1, 1, 1, 5), 1);
    child_stores(&mut aplic, &[(0x0000, 0x104)]);
    root_stores(&mut aplic, &[(0x1bcc, 0x30_0000)]);
    holds(&rt, !aplic.passable(1));
    same!(rt; aimed(&mut aplic, 1, 1, 1, 5), 0);
    Ok(())
}

#[test]
fn the_msi_of_a_source_that_is_aimed_goes_to_the_guest(rt: HostRuntime) -> Result<(), Fail> {
    let mut aplic = Aplic::new(rt.alloc(), 2, 8)?;
    root_stores(
        &mut aplic,
        &[
            (0x0004, 0x400),
            (0x1bc4, 0x2000),
            (0x1bc8, 0x28000),
            (0x1bcc, 0x50_0000),
        ],
    );
    child_stores(&mut aplic, &[(0x0000, 0x104), (0x0004, 4), (0x1edc, 1)]);
    same!(rt; aimed(&mut aplic, 1, 0, 1, 5), 0x0000_1005);
    same!(rt; aimed(&mut aplic, 1, 0, 0, 33), 0x0000_0021);
    same!(rt; aimed(&mut aplic, 1, 1, 1, 5), 0x0004_1005);
    same!(rt; sends(&mut aplic), None);
    aplic.wire(1, true);
    let msi = Msi {
        address: 0x2802_1000,
        value: 5,
        source: Some(1),
    };
    same!(rt; sends(&mut aplic), Some(msi));
    same!(rt; sends(&mut aplic), None);
    Ok(())
}
