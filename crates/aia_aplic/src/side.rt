ghost use Rattle.aia_aplic_values.specs.Controls.{EachControl, control_after, control_at, claimed_at, hart_of_register};
ghost use Rattle.aia_regs.specs.Top.{topi_value};
ghost use Rattle.aia_source.specs.Wired.SourceDeed.{Forwarded};
ghost use Rattle.aia_domain.specs.InterruptSource.{EachSource, changed_at, with_deed, with_target, source_at, is_active_at};
ghost use Rattle.aia_domain.specs.Domain.{with_sources, source_after, domain_after, is_ready};
ghost use Rattle.aia_direct.specs.Idc.{top_shown, claimed_top};
ghost use Rattle.std.specs.Prelude.{Some, length, ◌≡◌, ◌*◌, ◌<◌, ◌≤◌, ◌↔◌, ◌∷◌, ℕ, Bool, true, false, IfOk, IsFalse};
ghost use Rattle.aia_word.specs.Sets.{word_of};
ghost use Rattle.aia_regs.specs.declared.limits.TheConstants.{HARTS, SOURCES, SOURCE_WORDS};
ghost use Rattle.aia_source.specs.Registers.{delegates, root_sourcecfg};
ghost use Rattle.aia_model.specs.declared.domain_name.DomainName.{DomainName};
ghost use Rattle.aia_model.specs.Act.{Past};
ghost use Rattle.aia_model.specs.declared.domain_name.DomainName.TheVariants.{Root, Child};
ghost use Rattle.aia_model.specs.declared.sender.Sender.TheVariants.{ByGenMsi, BySource};
ghost use Rattle.aia_model.specs.Act.Act.{Driven, Written, Loaded, Sent, Aimed};
ghost use Rattle.aia_model.specs.SourceOf.{harts_in, sources_in, target, genmsi_of, own_read, is_signalled};
ghost use Rattle.aia_model.specs.Sent.{domain_of_sender, register_of_sender};
ghost use Rattle.aia_aplic_values.specs.Bits.{AreSources};
ghost use Rattle.aia_aplic_values.specs.Side.{SideStands, IsNewSide};
ghost use Rattle.aia_aplic_values.specs.Sending.{waits_in, waiting_in};

use crate::controls::{claim, load_control, new_controls, signal_of, store_control, topi_of};
use aia_direct::Idc;
use aia_domain::Domain;
use aia_model::Sender;
use aia_regs::DomainReg;
use std::alloc::{AllocError, Global};
use std::marker::Model;

/// A domain with the delivery controls of its harts.
#[derive(Drop)]
pub struct Side {
    domain: Domain,
    controls: Vec<Idc>,
}

impl Model for Side {
    ghost use Rattle.aia_aplic_values.specs.Side.{SideState};

    ghost Value = { SideState };

    ghost view = { λ s. record { domain = s.domain; controls = s.controls.items } };
}

impl Side {
    pub(crate) fn new(
        alloc: Global,
        sources: u32,
        harts: u32,
        leaf: bool,
    ) -> Result<Side, AllocError>
        requires some { 1 ≤ sources }
        requires few { sources ≤ SOURCES }
        requires harts { harts ≤ HARTS }
        ensures { IfOk result (IsNewSide sources harts leaf) }
    {
        let domain = Domain::new(alloc, sources, harts, leaf)?;
        let controls = new_controls(alloc, harts)?;
        Ok(Side { domain, controls })
    }

    pub(crate) fn sources(&self) -> u32
        ensures count { (past : Past) (name : DomainName) → SideStands self.now past name
            → result ≡ sources_in past }
        ensures few { result ≤ SOURCES }
    {
        self.domain.sources()
    }

    /// Tells how many harts there are, up to `HARTS`.
    pub(crate) fn harts(&self) -> u32
        ensures value { result ≡ self.now.domain.harts }
        ensures few { result ≤ HARTS }
    {
        self.domain.harts()
    }

    pub(crate) fn wire(&mut self, s: u32, level: bool)
        ensures { (past : Past) (name : DomainName) → SideStands self.old past name
            → SideStands self.new (Driven s level ∷ past) name }
    {
        self.domain.wire(s, level);
    }

    /// Writes a register.
    pub(crate) fn store(&mut self, reg: DomainReg, value: u32)
        ensures { (past : Past) (name : DomainName) → SideStands self.old past name
            → SideStands self.new (Written name reg value ∷ past) name }
    {
        self.write(reg, value);
    }

    fn write(&mut self, reg: DomainReg, value: u32)
        ensures sources { EachSource self.old.domain.sources self.new.domain.sources
            (source_after self.old.domain reg value) }
        ensures domain { self.new.domain
            ≡ with_sources (domain_after reg value self.old.domain) self.new.domain.sources }
        ensures controls { EachControl self.old.controls self.new.controls
            (control_after reg value) }
    {
        self.domain.store(reg, value);
        store_control(&mut self.controls, reg, value);
    }

    /// Hears that the root domain's `sourcecfg` of a source is written; this is its child.
    pub(crate) fn delegate(&mut self, s: u32, given: bool)
        ensures { (past : Past) (v : ℕ) → given ≡ delegates (root_sourcecfg v)
            → SideStands self.old past Child
            → SideStands self.new (Written Root (DomainReg.SourceCfg s) v ∷ past) Child }
    {
        if given {
            self.domain.grant(s);
        } else {
            self.domain.withdraw(s);
        }
    }

    /// Tells whether a source is active here; one that isn't there is not.
    pub(crate) fn is_active(&self, s: u32) -> bool
        ensures { result ≡ is_active_at self.now.domain.sources s }
    {
        self.domain.is_active(s)
    }

    /// Tells whether the domain delivers by MSIs.
    pub(crate) fn delivers_by_msi(&self) -> bool
        ensures { result ≡ self.now.domain.msi }
    {
        self.domain.delivers_by_msi()
    }

    /// Gives a source a target; this is the child domain.
    pub(crate) fn aim(&mut self, s: u32, target: u32)
        ensures stands { (past : Past) → SideStands self.old past Child
            → SideStands self.new (Aimed s target ∷ past) Child }
        ensures sources { EachSource self.old.domain.sources self.new.domain.sources
            (changed_at s (with_target target)) }
        ensures domain { self.new.domain ≡ with_sources self.old.domain self.new.domain.sources }
    {
        self.domain.aim(s, target);
    }

    /// Reads a register.
    #[inline(always)]
    pub(crate) fn load(&mut self, reg: DomainReg) -> u32
        ensures reads { (past : Past) (name : DomainName) → SideStands self.old past name
            → result ≡ own_read past name reg }
        ensures stands { (past : Past) (name : DomainName) → SideStands self.old past name
            → SideStands self.new (Loaded name reg ∷ past) name }
    {
        match reg {
            DomainReg::IDelivery(hart) => self.load_control(hart, reg),
            DomainReg::IForce(hart) => self.load_control(hart, reg),
            DomainReg::IThreshold(hart) => self.load_control(hart, reg),
            DomainReg::TopI(hart) => self.topi(hart),
            DomainReg::ClaimI(hart) => self.claimi(hart),
            _ => self.domain.load(reg),
        }
    }

    fn load_control(&self, hart: u32, reg: DomainReg) -> u32
        requires { hart_of_register reg ≡ Some hart }
        ensures { (past : Past) (name : DomainName) → SideStands self.now past name
            → result ≡ own_read past name reg }
    {
        if (hart as usize) < self.controls.len() {
            load_control(&self.controls, hart, reg)
        } else {
            0
        }
    }

    fn topi(&self, hart: u32) -> u32
        ensures { (past : Past) (name : DomainName) → SideStands self.now past name
            → result ≡ own_read past name (DomainReg.TopI hart) }
    {
        if (hart as usize) < self.controls.len() {
            topi_of(&self.controls, &self.domain, hart)
        } else {
            0
        }
    }

    fn claimi(&mut self, hart: u32) -> u32
        ensures reads { (past : Past) (name : DomainName) → SideStands self.old past name
            → result ≡ own_read past name (DomainReg.ClaimI hart) }
        ensures stands { (past : Past) (name : DomainName) → SideStands self.old past name
            → SideStands self.new (Loaded name (DomainReg.ClaimI hart) ∷ past) name }
    {
        if (hart as usize) < self.controls.len() {
            self.claim(hart)
        } else {
            0
        }
    }

    fn claim(&mut self, hart: u32) -> u32
        requires { hart < length self.old.controls }
        ensures value { result
            ≡ topi_value (top_shown (control_at self.old.controls hart) self.old.domain hart) }
        ensures controls { EachControl self.old.controls self.new.controls
            (claimed_at self.old.domain hart) }
        ensures sources { EachSource self.old.domain.sources self.new.domain.sources
            (claimed_top
            (top_shown (control_at self.old.controls hart) self.old.domain hart)) }
        ensures domain { self.new.domain ≡ with_sources self.old.domain self.new.domain.sources }
    {
        claim(&mut self.controls, &mut self.domain, hart)
    }

    /// Tells whether an MSI that `genmsi` asked for waits.
    pub(crate) fn genmsi_waits(&self) -> bool
        ensures { result ≡ self.now.domain.genmsi_waits }
    {
        self.domain.genmsi_waits()
    }

    /// Tells whether any source is to be forwarded.
    pub(crate) fn has_ready(&self) -> bool
        ensures { IsFalse result ↔ ((s : ℕ) → is_ready self.now.domain s ≡ false) }
    {
        self.domain.has_ready()
    }

    /// Gives word `k`, below `SOURCE_WORDS`, of the sources that are to be forwarded.
    pub(crate) fn ready_word(&self, k: u32) -> u64
        requires { k < SOURCE_WORDS }
        ensures word { result ≡ word_of (is_ready self.now.domain) (64 * k) 64 }
        ensures range { AreSources (is_ready self.now.domain) }
    {
        self.domain.ready_word(k)
    }

    /// Sends the MSI of a sender of this domain, and gives what it is made of.
    pub(crate) fn send(&mut self, sender: Sender) -> u32
        requires { waits_in self.old.domain sender ≡ true }
        ensures value { (past : Past) → SideStands self.old past (domain_of_sender sender) →
            result ≡ register_of_sender past sender }
        ensures stands { (past : Past) → SideStands self.old past (domain_of_sender sender) →
            SideStands self.new (Sent sender ∷ past) (domain_of_sender sender) }
        ensures fewer { waiting_in self.new < waiting_in self.old }
    {
        match sender {
            Sender::ByGenMsi(_) => self.send_genmsi(),
            Sender::BySource(_, s) => self.forward(s),
        }
    }

    /// Sends the MSI that `genmsi` asked for, and gives what `genmsi` keeps.
    fn send_genmsi(&mut self) -> u32
        requires { self.old.domain.genmsi_waits ≡ true }
        ensures value { (past : Past) (name : DomainName) → SideStands self.old past name
            → result ≡ genmsi_of past name }
        ensures stands { (past : Past) (name : DomainName) → SideStands self.old past name
            → SideStands self.new (Sent (ByGenMsi name) ∷ past) name }
        ensures fewer { waiting_in self.new < waiting_in self.old }
    {
        self.take_genmsi()
    }

    fn take_genmsi(&mut self) -> u32
        requires { self.old.domain.genmsi_waits ≡ true }
        ensures value { result ≡ self.old.domain.genmsi }
        ensures domain { self.new.domain ≡ record self.old.domain { genmsi_waits = false } }
        ensures controls { self.new.controls ≡ self.old.controls }
    {
        match self.domain.take_genmsi() {
            Some(genmsi) => genmsi,
            None => unreachable!(),
        }
    }

    /// Forwards a source, and gives its target.
    fn forward(&mut self, s: u32) -> u32
        requires { is_ready self.old.domain s ≡ true }
        ensures value { (past : Past) (name : DomainName) → SideStands self.old past name
            → result ≡ target past name s }
        ensures stands { (past : Past) (name : DomainName) → SideStands self.old past name
            → SideStands self.new (Sent (BySource name s) ∷ past) name }
        ensures fewer { waiting_in self.new < waiting_in self.old }
    {
        self.forwarded(s)
    }

    fn forwarded(&mut self, s: u32) -> u32
        ensures value { result ≡ (source_at self.old.domain.sources s).target }
        ensures sources { EachSource self.old.domain.sources self.new.domain.sources
            (changed_at s (with_deed true Forwarded)) }
        ensures domain { self.new.domain ≡ with_sources self.old.domain self.new.domain.sources }
        ensures controls { self.new.controls ≡ self.old.controls }
    {
        let target = self.domain.target(s);
        self.domain.forwarded(s);
        target
    }

    /// Tells whether a hart is signalled; one that isn't there is not.
    pub(crate) fn signal(&self, hart: u32) -> bool
        ensures signal { (past : Past) (name : DomainName) → SideStands self.now past name
            → hart < harts_in past → result ≡ is_signalled past name hart }
        ensures away { (past : Past) (name : DomainName) → SideStands self.now past name
            → harts_in past ≤ hart → result ≡ false }
    {
        (hart as usize) < self.controls.len() && signal_of(&self.controls, &self.domain, hart)
    }
}
