ghost use Rattle.std.specs.Prelude.{◌≡◌, ℕ, suc, ◌*◌, ◌≤◌, ◌<◌, ◌↔◌, Bool, false, length, slice_get, All, Some, None, IfOk, IsFalse, if◌then◌else◌};
ghost use Rattle.aia_word.specs.Sets.{word_of};
ghost use Rattle.aia_regs.specs.declared.limits.TheConstants.{HARTS, SOURCES, SOURCE_WORDS};
ghost use Rattle.aia_domain.specs.Order.{IsRising};
ghost use Rattle.aia_source.specs.Registers.{enables, is_by_msi, same_bool};
ghost use Rattle.aia_source.specs.Wired.SourceDeed.{Claimed, Forwarded};
ghost use Rattle.aia_domain.specs.InterruptSource.{EachSource, changed_at, changed_if_named, granted, wired, with_deed, with_target, source_at, bit_at_source, is_active_at, target_at};
ghost use Rattle.aia_domain.specs.Domain.{IsNewDomain, with_sources, configured_by, source_after, domain_after, domaincfg_written, domain_read, is_ready, ready_from, candidates, IsPairOfSource};

use crate::by_number::{is_active_at, sourcecfg_at, target_at, waits_at, word_shown};
use crate::interrupt_source::{Change, SourceBit};
use crate::ready::Ready;
use crate::sources::Sources;
use aia_regs::{DomainReg, swap32};
use aia_source::{Touch, Wired, domaincfg_kept, domaincfg_read, enables, genmsi_kept, is_by_msi};
use std::alloc::{AllocError, Global};
use std::marker::Model;

/// One interrupt domain of an APLIC, as wired sources and registers see it. The registers of the
/// harts' delivery and of MSI addresses are not kept here: they read 0 and ignore writes.
///
/// AIA 1.0, APLIC, "Interrupt domains".
#[derive(Drop)]
pub struct Domain {
    on: bool,
    genmsi: u32,
    genmsi_waits: bool,
    sources: Sources,
}

impl Model for Domain {
    ghost use Rattle.aia_domain.specs.Domain.{DomainState};

    ghost Value = { DomainState };

    ghost view = { λ d. record {
      leaf = d.sources.leaf;
      harts = d.sources.harts;
      on = d.on;
      msi = d.sources.msi;
      genmsi = d.genmsi;
      genmsi_waits = d.genmsi_waits;
      sources = d.sources.sources;
    } };
}

impl Domain {
    /// Makes a domain of `sources` wired sources, 1 to `SOURCES`, and `harts` harts, up to `HARTS`:
    /// the root domain, or, as a `leaf`, its child. Every source is inactive, and every register 0
    /// but `domaincfg`.
    pub fn new(alloc: Global, sources: u32, harts: u32, leaf: bool) -> Result<Domain, AllocError>
        requires some { 1 ≤ sources }
        requires few { sources ≤ SOURCES }
        requires harts { harts ≤ HARTS }
        ensures { IfOk result (IsNewDomain sources harts leaf) }
    {
        let sources = Sources::new(alloc, sources, harts, leaf)?;
        Ok(Domain {
            on: false,
            genmsi: 0,
            genmsi_waits: false,
            sources,
        })
    }

    /// Tells how many wired sources there are, up to `SOURCES`.
    pub fn sources(&self) -> u32
        ensures count { length self.now.sources ≡ suc result }
        ensures few { result ≤ SOURCES }
    {
        self.sources.all().len() as u32 - 1
    }

    /// Tells how many harts there are, up to `HARTS`.
    pub fn harts(&self) -> u32
        ensures value { result ≡ self.now.harts }
        ensures few { result ≤ HARTS }
    {
        self.sources.harts()
    }

    /// Gives what a register reads: 0 where none is there, and at one that only takes writes or is
    /// not kept here.
    ///
    /// AIA 1.0, APLIC, "Memory-mapped control region for an interrupt domain".
    #[inline(always)]
    pub fn load(&self, reg: DomainReg) -> u32
        ensures { result ≡ domain_read self.now reg }
    {
        let sources = self.sources.all();
        match reg {
            DomainReg::DomainCfg => self.domaincfg(),
            DomainReg::SourceCfg(i) => sourcecfg_at(sources, i, self.sources.leaf()),
            DomainReg::SetIp(k) => word_shown(sources, k, SourceBit::Pending),
            DomainReg::InClrIp(k) => word_shown(sources, k, SourceBit::Input),
            DomainReg::SetIe(k) => word_shown(sources, k, SourceBit::Enable),
            DomainReg::GenMsi => self.genmsi,
            DomainReg::Target(i) => target_at(sources, i),
            _ => 0,
        }
    }

    fn domaincfg(&self) -> u32
        ensures { result ≡ domain_read self.now DomainReg.DomainCfg }
    {
        domaincfg_read(self.on, self.delivers_by_msi())
    }

    /// Writes a register; where none is there, or it is not kept here, nothing is done.
    ///
    /// AIA 1.0, APLIC, "Memory-mapped control region for an interrupt domain".
    pub fn store(&mut self, reg: DomainReg, value: u32)
        ensures sources { EachSource self.old.sources self.new.sources
            (source_after self.old reg value) }
        ensures domain { self.new
            ≡ with_sources (domain_after reg value self.old) self.new.sources }
    {
        let sources = &mut self.sources;
        let number = u64::from(value);
        let swapped = u64::from(swap32(value));
        match reg {
            DomainReg::DomainCfg => self.write_domaincfg(domaincfg_kept(value)),
            DomainReg::SourceCfg(i) => sources.change_named(i, Change::Configure(value)),
            DomainReg::SetIp(k) => sources.touch_word(k, value, Touch::SetPending),
            DomainReg::SetIpNum | DomainReg::SetIpNumLe => {
                sources.change(number, Change::Touch(Touch::SetPending));
            }
            DomainReg::SetIpNumBe => sources.change(swapped, Change::Touch(Touch::SetPending)),
            DomainReg::InClrIp(k) => sources.touch_word(k, value, Touch::ClearPending),
            DomainReg::ClrIpNum => sources.change(number, Change::Touch(Touch::ClearPending)),
            DomainReg::SetIe(k) => sources.touch_word(k, value, Touch::SetEnable),
            DomainReg::SetIeNum => sources.change(number, Change::Touch(Touch::SetEnable)),
            DomainReg::ClrIe(k) => sources.touch_word(k, value, Touch::ClearEnable),
            DomainReg::ClrIeNum => sources.change(number, Change::Touch(Touch::ClearEnable)),
            DomainReg::GenMsi => self.write_genmsi(value),
            DomainReg::Target(i) => sources.change(u64::from(i), Change::Target(value)),
            _ => {}
        }
    }

    fn write_domaincfg(&mut self, cfg: u32)
        ensures sources { EachSource self.old.sources self.new.sources
            (configured_by cfg self.old.msi) }
        ensures domain { self.new ≡ with_sources
            (domaincfg_written (same_bool self.old.msi (is_by_msi cfg)) (enables cfg)
            (is_by_msi cfg) self.old) self.new.sources }
    {
        let msi = is_by_msi(cfg);
        self.on = enables(cfg);
        if msi != self.delivers_by_msi() {
            self.genmsi = 0;
            self.genmsi_waits = false;
            self.sources.switch(msi);
        }
    }

    fn write_genmsi(&mut self, value: u32)
        ensures { self.new ≡ domain_after DomainReg.GenMsi value self.old }
    {
        if self.delivers_by_msi() {
            self.genmsi = genmsi_kept(self.sources.harts(), value);
            self.genmsi_waits = true;
        }
    }

    /// Gives the wire of a source a level; a number that is no source's changes none.
    pub fn wire(&mut self, s: u32, level: bool)
        ensures sources { EachSource self.old.sources self.new.sources
            (changed_at s (wired self.old.msi level)) }
        ensures domain { self.new ≡ with_sources self.old self.new.sources }
    {
        self.sources.wire(u64::from(s), level);
    }

    /// Gets a source that the root domain delegates to this one, its child: where that is new, the
    /// source begins inactive here.
    pub fn grant(&mut self, s: u32)
        ensures sources { EachSource self.old.sources self.new.sources
            (changed_if_named s (granted Bool.true self.old.msi)) }
        ensures domain { self.new ≡ with_sources self.old self.new.sources }
    {
        self.sources.change_named(s, Change::Grant(true));
    }

    /// Loses a source that the root domain does not delegate to this one, its child: where it did,
    /// the source is inactive here then.
    pub fn withdraw(&mut self, s: u32)
        ensures sources { EachSource self.old.sources self.new.sources
            (changed_if_named s (granted Bool.false self.old.msi)) }
        ensures domain { self.new ≡ with_sources self.old self.new.sources }
    {
        self.sources.change_named(s, Change::Grant(false));
    }

    /// Claims a source, as `claimi` in direct delivery does: its pending bit falls, but for one at
    /// a level mode.
    pub fn claimed(&mut self, s: u32)
        ensures sources { EachSource self.old.sources self.new.sources
            (changed_at s (with_deed Bool.false Claimed)) }
        ensures domain { self.new ≡ with_sources self.old self.new.sources }
    {
        self.sources.change(u64::from(s), Change::Claim);
    }

    /// Hears that the MSI of a source is sent: its pending bit falls.
    pub fn forwarded(&mut self, s: u32)
        ensures sources { EachSource self.old.sources self.new.sources
            (changed_at s (with_deed Bool.true Forwarded)) }
        ensures domain { self.new ≡ with_sources self.old self.new.sources }
    {
        self.sources.change(u64::from(s), Change::Forward);
    }

    /// Gives a source exactly this target, its guest index too, which a store of its register does
    /// not keep; an inactive source's is 0 then, and a number that is no source's changes none.
    ///
    /// AIA 1.0, APLIC, "Interrupt forwarding by MSIs". Profile: passes.
    pub fn aim(&mut self, s: u32, target: u32)
        ensures sources { EachSource self.old.sources self.new.sources
            (changed_at s (with_target target)) }
        ensures domain { self.new ≡ with_sources self.old self.new.sources }
    {
        self.sources.change(u64::from(s), Change::Aim(target));
    }

    /// Takes what `genmsi` keeps, where an MSI that it asked for is still to be sent, which is then
    /// done.
    pub fn take_genmsi(&mut self) -> Option<u32>
        ensures taken { result ≡ (if self.old.genmsi_waits then Some self.old.genmsi else None) }
        ensures domain { self.new ≡ record self.old { genmsi_waits = Bool.false } }
    {
        if !self.genmsi_waits {
            return None;
        }
        self.genmsi_waits = false;
        Some(self.genmsi)
    }

    /// Tells whether an MSI that `genmsi` asked for is still to be sent.
    pub fn genmsi_waits(&self) -> bool
        ensures { result ≡ self.now.genmsi_waits }
    {
        self.genmsi_waits
    }

    /// Gives the sources that are to be forwarded, in rising order: the pending enabled ones, where
    /// the domain delivers by MSIs and its interrupts are enabled.
    ///
    /// AIA 1.0, APLIC, "Interrupt forwarding by MSIs".
    pub fn ready(&self) -> Ready<'_>
        ensures { ready_from result.domain.now result.at ≡ ready_from self.now 0 }
    {
        Ready::new(self)
    }

    /// Gives a source that is there.
    pub fn source(&self, s: u32) -> &Wired
        requires there { s < length self.now.sources }
        ensures { result.now ≡ (source_at self.now.sources s).source }
    {
        self.sources.all()[s as usize].wired()
    }

    /// Tells whether a source is active, false where the source isn't there.
    pub fn is_active(&self, s: u32) -> bool
        ensures { result ≡ is_active_at self.now.sources s }
    {
        is_active_at(self.sources.all(), s)
    }

    /// Tells the enable bit of a source, false where the source isn't there.
    pub fn enabled(&self, s: u32) -> bool
        ensures { result ≡ (source_at self.now.sources s).enabled }
    {
        let sources = self.sources.all();
        (s as usize) < sources.len() && sources[s as usize].enabled()
    }

    /// Gives the `target` of a source, 0 where the source isn't there.
    pub fn target(&self, s: u32) -> u32
        ensures { result ≡ (source_at self.now.sources s).target }
    {
        match self.sources.all().get(s as usize) {
            Some(source) => source.target(),
            None => 0,
        }
    }

    /// Tells whether its interrupts are enabled: IE of `domaincfg`.
    pub fn is_enabled(&self) -> bool
        ensures { result ≡ self.now.on }
    {
        self.on
    }

    /// Tells whether it delivers by MSIs, and not directly: DM of `domaincfg`.
    pub fn delivers_by_msi(&self) -> bool
        ensures { result ≡ self.now.msi }
    {
        self.sources.delivers_by_msi()
    }

    /// Gives the candidate of a hart at a place, counted from 0: of its sources that are pending
    /// and enabled, in rising order by priority and then by number, the priority and the number;
    /// `None` exactly past the end. By MSIs there is none, nor for a hart that isn't there.
    ///
    /// AIA 1.0, APLIC, "Interrupt delivery directly by the APLIC".
    pub fn candidate(&self, hart: u32, place: usize) -> Option<(u32, u32)>
        ensures pair { result ≡ slice_get (candidates self.now hart) place }
        ensures rising { IsRising (candidates self.now hart) }
        ensures small { All IsPairOfSource (candidates self.now hart) }
    {
        self.sources.candidate(hart, place)
    }

    /// Gives word `k`, below `SOURCE_WORDS`, of the sources that are to be forwarded: bit `b` is a
    /// one exactly where `ready` gives source `64 * k + b`.
    ///
    /// AIA 1.0, APLIC, "Interrupt forwarding by MSIs".
    pub fn ready_word(&self, k: u32) -> u64
        requires { k < SOURCE_WORDS }
        ensures word { result ≡ word_of (is_ready self.now) (64 * k) 64 }
        ensures range { (s : ℕ) → is_ready self.now s ≡ Bool.true → s ≤ SOURCES }
    {
        if self.on {
            self.sources.waiting_word(k)
        } else {
            0
        }
    }

    /// Tells whether any source is to be forwarded.
    pub fn has_ready(&self) -> bool
        ensures { IsFalse result ↔ ((s : ℕ) → is_ready self.now s ≡ false) }
    {
        self.on && self.sources.has_waiting()
    }

    /// Gives the number after the greatest source's.
    pub(crate) fn places(&self) -> u32
        ensures { result ≡ length self.now.sources }
    {
        self.sources.all().len() as u32
    }

    /// Tells whether a source is to be forwarded.
    pub(crate) fn is_ready(&self, s: u32) -> bool
        ensures { result ≡ is_ready self.now s }
    {
        self.delivers_by_msi() && self.on && waits_at(self.sources.all(), s)
    }
}
