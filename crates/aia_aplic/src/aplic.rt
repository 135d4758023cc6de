ghost use Rattle.std.specs.Prelude.{◌≡◌, ℕ, ◌+◌, ◌*◌, ◌<◌, ◌≤◌, ◌↔◌, ◌&&◌, [], ◌∷◌, length, Bool, true, false, None, IfOk, IfSome, IfNone, IsFalse, option_map};
ghost use Rattle.aia_word.specs.Sets.{word_of};
ghost use Rattle.aia_regs.specs.declared.limits.TheConstants.{HARTS, IDENTITIES, SOURCES, SOURCE_WORDS};
ghost use Rattle.aia_regs.specs.DomainRegisters.{domain_register_of};
ghost use Rattle.aia_model.specs.Act.{Past};
ghost use Rattle.aia_model.specs.declared.sender.Sender.{Sender};
ghost use Rattle.aia_model.specs.declared.domain_name.DomainName.TheVariants.{Root, Child};
ghost use Rattle.aia_model.specs.Act.Act.{Made, Driven, Written, Loaded, Sent, Aimed};
ghost use Rattle.aia_model.specs.Sent.{msi_of};
ghost use Rattle.aia_domain.specs.Domain.{is_ready};
ghost use Rattle.aia_vcpu.specs.Aims.{target_of};
ghost use Rattle.aia_model.specs.SourceOf.{harts_in, sources_in, register_read, is_signalled};
ghost use Rattle.aia_aplic_values.specs.Aplic.{AplicStands, IsNewAplic, side};
ghost use Rattle.aia_aplic_values.specs.Passing.{is_passable_source, with_aim, hart_count, is_passable_in, AimsIn};
ghost use Rattle.aia_aplic_values.specs.Sending.{IsFirst, IsBySource, asks_by_genmsi, does_wait, waiting, Next};
ghost use Rattle.aia_aplic_values.specs.Bits.{IsFirstSource, AreSources, source_sender};

use crate::bits::bits_search;
use crate::guests::{are_for_guests, target_of};
use crate::sender::{domain_of_sender, msi_by, source_of_sender};
use crate::side::Side;
use crate::view::ReadyView;
use aia_model::{DomainName, Msi, Sender};
use aia_msiaddr::Addresses;
use aia_regs::{DomainReg, domain_reg};
use aia_source::delegates;
use aia_word::Steps;
use std::alloc::{AllocError, Global};
use std::marker::{Brand, Model};
use std::sync::ledger::{Blank, Ledger};

/// The APLIC of a machine: the root domain, at machine level, and its child, at supervisor level,
/// which share the wired sources.
///
/// AIA 1.0, APLIC, "Interrupt domains".
#[derive(Drop)]
pub struct Aplic {
    root: Side,
    child: Side,
    addresses: Addresses,
}

impl Model for Aplic {
    ghost use Rattle.aia_aplic_values.specs.Aplic.{AplicState};

    ghost Value = { AplicState };

    ghost view = { λ a. record { root = a.root; child = a.child; addresses = a.addresses } };
}

impl Aplic {
    /// Makes the APLIC of `harts` harts, up to `HARTS`, and `sources` wired sources, 1 to
    /// `SOURCES`: every source is inactive, and every register 0 but `domaincfg`.
    pub fn new(alloc: Global, harts: u32, sources: u32) -> Result<Aplic, AllocError>
        requires some { 1 ≤ sources }
        requires few { sources ≤ SOURCES }
        requires harts { harts ≤ HARTS }
        ensures new { IfOk result (IsNewAplic sources harts) }
        ensures stands { IfOk result (λ aplic. AplicStands aplic (Made harts sources ∷ [])) }
    {
        let root = Side::new(alloc, sources, harts, false)?;
        let child = Side::new(alloc, sources, harts, true)?;
        Ok(Aplic {
            root,
            child,
            addresses: Addresses::new(),
        })
    }

    /// Tells how many wired sources there are, up to `SOURCES`.
    pub fn sources(&self) -> u32
        ensures count { (past : Past) → AplicStands self.now past → result ≡ sources_in past }
        ensures few { result ≤ SOURCES }
    {
        self.root.sources()
    }

    /// Tells how many harts there are, up to `HARTS`.
    pub fn harts(&self) -> u32
        ensures count { (past : Past) → AplicStands self.now past → result ≡ harts_in past }
        ensures value { result ≡ hart_count self.now }
        ensures few { result ≤ HARTS }
    {
        self.child.harts()
    }

    /// Gives the wire of a source a level; a number that is no source's changes none.
    pub fn wire(&mut self, s: u32, level: bool)
        ensures { (past : Past) → AplicStands self.old past
            → AplicStands self.new (Driven s level ∷ past) }
    {
        self.root.wire(s, level);
        self.child.wire(s, level);
    }

    /// Loads the register at an offset of a domain's control region. A load of a hart's `claimi`
    /// claims the source that it shows, or, where it shows none in a domain that delivers directly,
    /// makes its `iforce` 0.
    ///
    /// AIA 1.0, APLIC, "Memory-mapped control region for an interrupt domain".
    pub fn load(&mut self, name: DomainName, offset: u32) -> u32
        ensures reads { (past : Past) → AplicStands self.old past →
            result ≡ register_read past name (domain_register_of offset) }
        ensures stands { (past : Past) → AplicStands self.old past
            → AplicStands self.new (Loaded name (domain_register_of offset) ∷ past) }
    {
        match name {
            DomainName::Root => self.load_root(domain_reg(offset)),
            DomainName::Child => self.load_child(domain_reg(offset)),
        }
    }

    #[inline(always)]
    fn load_root(&mut self, reg: DomainReg) -> u32
        ensures reads { (past : Past) → AplicStands self.old past →
            result ≡ register_read past Root reg }
        ensures stands { (past : Past) → AplicStands self.old past →
            AplicStands self.new (Loaded Root reg ∷ past) }
    {
        let read = self.root.load(reg);
        self.addresses.load(reg).unwrap_or(read)
    }

    #[inline(always)]
    fn load_child(&mut self, reg: DomainReg) -> u32
        ensures reads { (past : Past) → AplicStands self.old past →
            result ≡ register_read past Child reg }
        ensures stands { (past : Past) → AplicStands self.old past →
            AplicStands self.new (Loaded Child reg ∷ past) }
    {
        self.child.load(reg)
    }

    /// Stores to the register at an offset of a domain's control region.
    ///
    /// AIA 1.0, APLIC, "Memory-mapped control region for an interrupt domain".
    pub fn store(&mut self, name: DomainName, offset: u32, value: u32)
        ensures { (past : Past) → AplicStands self.old past
            → AplicStands self.new (Written name (domain_register_of offset) value ∷ past) }
    {
        self.store_register(name, domain_reg(offset), value);
    }

    fn store_register(&mut self, name: DomainName, reg: DomainReg, value: u32)
        ensures { (past : Past) → AplicStands self.old past →
            AplicStands self.new (Written name reg value ∷ past) }
    {
        match name {
            DomainName::Root => self.store_root(reg, value),
            DomainName::Child => self.child.store(reg, value),
        }
    }

    fn store_root(&mut self, reg: DomainReg, value: u32)
        ensures { (past : Past) → AplicStands self.old past
            → AplicStands self.new (Written Root reg value ∷ past) }
    {
        self.addresses.store(reg, value);
        self.root.store(reg, value);
        if let DomainReg::SourceCfg(s) = reg {
            self.child.delegate(s, delegates(value));
        }
    }

    /// Tells whether MSIs to guests may be made of a source: it is there and active in the child
    /// domain, which delivers by MSIs, and the registers of MSI addresses make these reach the
    /// supervisor files and the guest files of the map.
    ///
    /// AIA 1.0, APLIC, "Interrupt forwarding by MSIs". Profile: passes.
    pub fn passable(&self, s: u32) -> bool
        ensures by_past { (past : Past) → AplicStands self.now past
            → result ≡ is_passable_source past s }
        ensures value { result ≡ is_passable_in self.now s }
    {
        self.is_passable(s)
    }

    fn is_passable(&self, s: u32) -> bool
        ensures { result ≡ is_passable_in self.now s }
    {
        self.child.is_active(s) && self.child.delivers_by_msi() && are_for_guests(&self.addresses)
    }

    /// Aims a source of the child domain, where MSIs to guests may be made of it: its MSIs go from
    /// now on to a guest of a hart, with an identity, or, with the guest index 0, to the hart's own
    /// supervisor file. Where none may be made of it, nothing is changed; and no MSI waits to be
    /// sent that did not wait before.
    ///
    /// AIA 1.0, APLIC, "Interrupt forwarding by MSIs". Profile: passes.
    pub fn aim(&mut self, s: u32, hart: u32, guest: u32, identity: u32)
        requires hart { hart < HARTS }
        requires guest { guest < 64 }
        requires identity { identity ≤ IDENTITIES }
        ensures stands { (past : Past) → AplicStands self.old past →
            AplicStands self.new (with_aim past s (target_of hart guest identity)) }
        ensures stays { (past : Past) → AplicStands self.old past
            → is_passable_source past s ≡ false → self.new ≡ self.old }
        ensures targets { AimsIn self.old s (target_of hart guest identity) self.new }
    {
        if self.passable(s) {
            self.put_target(s, target_of(hart, guest, identity));
        }
    }

    fn put_target(&mut self, s: u32, target: u32)
        ensures stands { (past : Past) → AplicStands self.old past →
            AplicStands self.new (Aimed s target ∷ past) }
        ensures targets { is_passable_in self.old s ≡ true
            → AimsIn self.old s target self.new }
    {
        self.child.aim(s, target);
    }

    /// Tells whether a hart is signalled by a domain: the domain delivers directly and its
    /// interrupts are enabled, the hart's `idelivery` is 1, and a source is on top for it or its
    /// `iforce` is 1. A hart that isn't there is not.
    ///
    /// AIA 1.0, APLIC, "Interrupt delivery directly by the APLIC".
    pub fn pin(&self, name: DomainName, hart: u32) -> bool
        ensures signal { (past : Past) → AplicStands self.now past → hart < harts_in past
            → result ≡ is_signalled past name hart }
        ensures away { (past : Past) → AplicStands self.now past → harts_in past ≤ hart
            → result ≡ false }
    {
        self.side(name).signal(hart)
    }

    fn side(&self, name: DomainName) -> &Side
        ensures { result.now ≡ side self.now name }
    {
        match name {
            DomainName::Root => &self.root,
            DomainName::Child => &self.child,
        }
    }

    /// Sends the next MSI: where a `genmsi` asked for one, that, the root domain's first; else
    /// that of the least source that a domain is to forward, whose pending bit falls (our profile's
    /// order). `None` exactly where nothing waits. Called until it answers `None`, it gives all
    /// MSIs that wait, in order, and then none waits.
    ///
    /// A machine calls it so after each line. Until it is called, a second `genmsi` takes the place
    /// of the first, a change of the delivery mode drops it, and a source may cease to be ready; no
    /// register shows that an MSI waits.
    ///
    /// AIA 1.0, APLIC, "Interrupt forwarding by MSIs".
    pub fn next_msi(&mut self) -> Option<Msi>
        ensures next { (past : Past) → AplicStands self.old past → Next self.new result past }
        ensures fewer { IfSome result (λ msi. waiting self.new < waiting self.old) }
    {
        self.next_msi_in::<Brand>(Blank::new(1))
    }

    /// Tells whether an MSI waits to be sent; where none does, `next_msi` sends none.
    ///
    /// AIA 1.0, APLIC, "Interrupt forwarding by MSIs".
    #[tactic(auto, using(aia_aplic_values::proofs::FirstLemmas::none_is_first))]
    pub fn has_msi(&self) -> bool
        ensures waits { IsFalse result ↔ ((sender : Sender) → does_wait self.now sender ≡ false) }
        ensures none { IsFalse result → (past : Past) → AplicStands self.now past
            → IsFirst None past }
    {
        self.genmsi_waits() || self.has_ready()
    }

    /// Tells whether an MSI that `genmsi` of either domain asked for waits.
    fn genmsi_waits(&self) -> bool
        ensures { result ≡ asks_by_genmsi self.now }
    {
        self.root.genmsi_waits() || self.child.genmsi_waits()
    }

    /// Sends the MSI that `next_msi` sends, and counts 32 steps at most, one for each look at 64
    /// sources of a domain: no step where nothing waits, and 2 at least where it sends that of a
    /// source.
    ///
    /// AIA 1.0, APLIC, "Interrupt forwarding by MSIs".
    pub fn next_msi_counted<L: Ledger>(&mut self, steps: &mut Steps<L>) -> Option<Msi>
        ensures next { (past : Past) → AplicStands self.old past → Next self.new result past }
        ensures fewer { IfSome result (λ msi. waiting self.new < waiting self.old) }
        ensures no_less { steps.old ≤ steps.new }
        ensures few { steps.new ≤ steps.old + 2 * SOURCE_WORDS }
        ensures idle { IfNone result (steps.new ≡ steps.old) }
        ensures looks { asks_by_genmsi self.old ≡ false
            → IfSome result (λ msi. steps.old + 2 ≤ steps.new) }
    {
        let first = self.first_waiting(steps)?;
        Some(self.send(first))
    }

    /// Sends the MSI that `next_msi` sends, by looks that are counted in a new ledger.
    fn next_msi_in<L: Ledger>(&mut self, ledger: Blank) -> Option<Msi>
        requires name { ledger.name ≡ L.name }
        requires parts { ledger.parts ≡ L.parts }
        requires some { 0 < L.parts }
        ensures next { (past : Past) → AplicStands self.old past → Next self.new result past }
        ensures fewer { IfSome result (λ msi. waiting self.new < waiting self.old) }
    {
        self.next_msi_counted(&mut Steps::<L>::new(ledger))
    }

    /// Tells what waits first, `None` where nothing waits.
    fn first_waiting<L: Ledger>(&self, steps: &mut Steps<L>) -> Option<Sender>
        ensures first { (past : Past) → AplicStands self.now past → IsFirst result past }
        ensures waits { IfSome result (λ sender. does_wait self.now sender ≡ true) }
        ensures no_less { steps.old ≤ steps.new }
        ensures few { steps.new ≤ steps.old + 2 * SOURCE_WORDS }
        ensures idle { IfNone result (steps.new ≡ steps.old) }
        ensures looks { IfSome result
            (λ sender. IsBySource sender → steps.old + 2 ≤ steps.new) }
    {
        if self.root.genmsi_waits() {
            return Some(Sender::ByGenMsi(DomainName::Root));
        }
        if self.child.genmsi_waits() {
            return Some(Sender::ByGenMsi(DomainName::Child));
        }
        sender_of(self.first_source(steps))
    }

    /// Gives the least source that is to be forwarded, `None` where none is: that it sees without a
    /// look at a word.
    fn first_source<L: Ledger>(&self, steps: &mut Steps<L>) -> Option<(DomainName, u32)>
        ensures first { IsFirstSource (is_ready self.now.root.domain)
            (is_ready self.now.child.domain) result }
        ensures no_less { steps.old ≤ steps.new }
        ensures few { steps.new ≤ steps.old + 2 * SOURCE_WORDS }
        ensures idle { IfNone result (steps.new ≡ steps.old) }
        ensures looks { IfSome result (λ source. steps.old + 2 ≤ steps.new) }
    {
        if !self.has_ready() {
            return None;
        }
        self.search_ready(steps)
    }

    /// Tells whether any source of either domain is to be forwarded.
    fn has_ready(&self) -> bool
        ensures { IsFalse result ↔ (((s : ℕ) → is_ready self.now.root.domain s ≡ false)
            × ((s : ℕ) → is_ready self.now.child.domain s ≡ false)) }
    {
        self.root.has_ready() || self.child.has_ready()
    }

    /// Gives the least source that is to be forwarded, by the words of both domains.
    fn search_ready<L: Ledger>(&self, steps: &mut Steps<L>) -> Option<(DomainName, u32)>
        ensures first { IsFirstSource (is_ready self.now.root.domain)
            (is_ready self.now.child.domain) result }
        ensures two_at_least { steps.old + 2 ≤ steps.new }
        ensures few { steps.new ≤ steps.old + 2 * SOURCE_WORDS }
    {
        let mut bits = ReadyView { aplic: self, steps };
        bits_search(&mut bits)
    }

    /// Gives word `k`, below `SOURCE_WORDS`, of the sources that a domain is to forward.
    pub(crate) fn ready_word(&self, name: DomainName, k: u32) -> u64
        requires { k < SOURCE_WORDS }
        ensures word { result ≡ word_of (is_ready (side self.now name).domain) (64 * k) 64 }
        ensures range { AreSources (is_ready (side self.now name).domain) }
    {
        self.side(name).ready_word(k)
    }

    /// Sends the MSI of a sender that waits.
    fn send(&mut self, sender: Sender) -> Msi
        requires { does_wait self.old sender ≡ true }
        ensures msi { (past : Past) → AplicStands self.old past → result ≡ msi_of past sender }
        ensures stands { (past : Past) → AplicStands self.old past →
            AplicStands self.new (Sent sender ∷ past) }
        ensures fewer { waiting self.new < waiting self.old }
    {
        let source = source_of_sender(sender);
        match domain_of_sender(sender) {
            DomainName::Root => {
                let register = self.root.send(sender);
                msi_by(&self.addresses, DomainName::Root, register, source)
            }
            DomainName::Child => {
                let register = self.child.send(sender);
                msi_by(&self.addresses, DomainName::Child, register, source)
            }
        }
    }
}

/// Gives the sender of a domain's source, where there is one.
fn sender_of(found: Option<(DomainName, u32)>) -> Option<Sender>
    ensures { result ≡ option_map source_sender found }
{
    let (name, s) = found?;
    Some(Sender::BySource(name, s))
}
