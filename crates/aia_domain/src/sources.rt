//! The sources of a domain, with what is kept beside them so that nothing is searched: of each hart
//! its candidates in direct delivery, and by MSIs which sources wait.

ghost use Rattle.std.specs.Prelude.{◌≡◌, ℕ, suc, ◌*◌, ◌<◌, ◌≤◌, ◌↔◌, ◌&&◌, length, slice_get, All, IfOk, IsFalse, true, false};
ghost use Rattle.aia_word.specs.Sets.{word_of};
ghost use Rattle.aia_regs.specs.declared.limits.TheConstants.{HARTS, SOURCES, SOURCE_WORDS};
ghost use Rattle.aia_source.specs.Registers.{in_word, touch_where};
ghost use Rattle.aia_domain.specs.InterruptSource.{EachSource, changed_at, changed_if_named, changed_by, wired, touched, all_switched, source_at, waits_at, candidates_of};
ghost use Rattle.aia_domain.specs.Waiting.{IsNewSources, IsWhatWaits};
ghost use Rattle.aia_domain.specs.Domain.{IsPairOfSource};
ghost use Rattle.aia_domain.specs.Order.{IsRising};

use crate::by_number::{aim_at, change_one, enabled_at, new_sources, switch_all};
use crate::interrupt_source::{Change, DirectAim, InterruptSource};
use crate::waiting::Waiting;
use aia_regs::bit;
use aia_source::Touch;
use std::alloc::{AllocError, Global};
use std::marker::Model;

/// The sources that a register has in one word.
const WORD: u32 = 32;

/// The sources of a domain, by their numbers, and what waits of them.
#[derive(Drop)]
pub(crate) struct Sources {
    leaf: bool,
    harts: u32,
    msi: bool,
    /// By number; the one of number 0 is no source, and inactive for good.
    sources: Vec<InterruptSource>,
    waiting: Waiting,
}

impl Model for Sources {
    ghost use Rattle.std.specs.Prelude.{◌≡◌, suc, ◌<◌, ◌≤◌, length};
    ghost use Rattle.aia_regs.specs.declared.limits.TheConstants.{HARTS, SOURCES};
    ghost use Rattle.aia_domain.specs.Waiting.{SourcesState, IsWhatWaits};

    ghost Value = { SourcesState };

    ghost view = { λ x. record {
      leaf = x.leaf;
      harts = x.harts;
      msi = x.msi;
      sources = x.sources.items;
    } };

    ghost invariant = { λ x. (x.harts ≤ HARTS) × (0 < length x.sources.items)
        × (length x.sources.items ≤ suc SOURCES) × (length x.waiting.fronts ≡ x.harts)
        × IsWhatWaits x.msi x.sources.items x.waiting };
}

impl Sources {
    /// Makes so many wired sources, all inactive, of a domain that delivers directly.
    pub(crate) fn new(
        alloc: Global,
        sources: u32,
        harts: u32,
        leaf: bool,
    ) -> Result<Sources, AllocError>
        requires some { 1 ≤ sources }
        requires few { sources ≤ SOURCES }
        requires harts { harts ≤ HARTS }
        ensures { IfOk result (IsNewSources sources harts leaf) }
    {
        let each = new_sources(alloc, sources + 1)?;
        let waiting = Waiting::new(alloc, harts, sources)?;
        Ok(Sources {
            leaf,
            harts,
            msi: false,
            sources: each,
            waiting,
        })
    }

    /// Gives what is kept of each source, by its number.
    pub(crate) fn all(&self) -> &[InterruptSource]
        ensures sources { result.now ≡ self.now.sources }
        ensures some { 0 < length self.now.sources }
        ensures few { length self.now.sources ≤ suc SOURCES }
    {
        &self.sources
    }

    /// Tells whether the domain delivers by MSIs.
    pub(crate) fn delivers_by_msi(&self) -> bool
        ensures { result ≡ self.now.msi }
    {
        self.msi
    }

    /// Tells how many harts there are, up to `HARTS`.
    pub(crate) fn harts(&self) -> u32
        ensures value { result ≡ self.now.harts }
        ensures few { result ≤ HARTS }
    {
        self.harts
    }

    /// Tells whether the domain is a leaf.
    pub(crate) fn leaf(&self) -> bool
        ensures { result ≡ self.now.leaf }
    {
        self.leaf
    }

    /// Does a change to one source, where it is there; number 0 names none.
    pub(crate) fn change_named(&mut self, s: u32, change: Change)
        ensures sources { EachSource self.old.sources self.new.sources (changed_if_named s
            (changed_by change self.old.leaf self.old.harts self.old.msi)) }
        ensures others { self.new ≡ record self.old { sources = self.new.sources } }
    {
        if s > 0 {
            self.change(u64::from(s), change);
        }
    }

    /// Touches the sources of word `k` whose bits are ones in `value`.
    pub(crate) fn touch_word(&mut self, k: u32, value: u32, touch: Touch)
        ensures sources { EachSource self.old.sources self.new.sources
            (λ s. touched self.old.msi (touch_where (in_word k value) touch s)) }
        ensures others { self.new ≡ record self.old { sources = self.new.sources } }
    {
        for place in 0..WORD {
            if bit(u64::from(value), place) {
                let s = u64::from(WORD) * u64::from(k) + u64::from(place);
                self.change(s, Change::Touch(touch));
            }
        }
    }

    /// Has all sources hear how the domain delivers from now on.
    pub(crate) fn switch(&mut self, msi: bool)
        ensures sources { EachSource self.old.sources self.new.sources (all_switched msi) }
        ensures others { self.new
            ≡ record self.old { msi = msi; sources = self.new.sources } }
    {
        self.msi = msi;
        switch_all(&mut self.sources, msi);
        self.waiting.begin(&self.sources, msi);
    }

    /// Gives the candidate of a hart at a place, in direct delivery.
    pub(crate) fn candidate(&self, hart: u32, place: usize) -> Option<(u32, u32)>
        ensures pair { result ≡ slice_get
            (candidates_of self.now.harts self.now.msi self.now.sources hart) place }
        ensures rising { IsRising
            (candidates_of self.now.harts self.now.msi self.now.sources hart) }
        ensures small { All IsPairOfSource
            (candidates_of self.now.harts self.now.msi self.now.sources hart) }
    {
        self.waiting.candidate(hart, place)
    }

    /// Gives word `k`, below `SOURCE_WORDS`, of the sources that wait for an MSI.
    pub(crate) fn waiting_word(&self, k: u32) -> u64
        requires { k < SOURCE_WORDS }
        ensures word { result
            ≡ word_of (λ s. self.now.msi && waits_at self.now.sources s) (64 * k) 64 }
        ensures range { (s : ℕ) → waits_at self.now.sources s ≡ true → s ≤ SOURCES }
    {
        self.waiting.word(k)
    }

    /// Tells whether a source waits for an MSI.
    pub(crate) fn has_waiting(&self) -> bool
        ensures { IsFalse result
            ↔ ((s : ℕ) → (self.now.msi && waits_at self.now.sources s) ≡ false) }
    {
        self.waiting.has_waiting()
    }

    /// Gives the wire of a source a level, where it is there.
    #[inline(always)]
    pub(crate) fn wire(&mut self, s: u64, level: bool)
        ensures sources { EachSource self.old.sources self.new.sources
            (changed_at s (wired self.old.msi level)) }
        ensures others { self.new ≡ record self.old { sources = self.new.sources } }
    {
        if enabled_at(&self.sources, s) {
            self.wire_enabled(s, level);
        } else {
            self.wire_disabled(s, level);
        }
    }

    /// Gives the wire of a source a level, where it is there. It stands apart from `wire`, so that
    /// the wire of one that isn't enabled, as of each that the other domain has, costs little.
    #[inline(never)]
    fn wire_enabled(&mut self, s: u64, level: bool)
        ensures sources { EachSource self.old.sources self.new.sources
            (changed_at s (wired self.old.msi level)) }
        ensures others { self.new ≡ record self.old { sources = self.new.sources } }
    {
        self.change(s, Change::Wire(level));
    }

    /// Gives the wire of a source that isn't enabled a level, where it is there.
    fn wire_disabled(&mut self, s: u64, level: bool)
        requires { (source_at self.old.sources s).enabled ≡ false }
        ensures sources { EachSource self.old.sources self.new.sources
            (changed_at s (wired self.old.msi level)) }
        ensures others { self.new ≡ record self.old { sources = self.new.sources } }
    {
        let (leaf, harts, msi) = (self.leaf, self.harts, self.msi);
        wire_one_disabled(&mut self.sources, &self.waiting, s, level, leaf, harts, msi);
    }

    /// Does a change to one source, where it is there.
    #[inline(always)]
    pub(crate) fn change(&mut self, s: u64, change: Change)
        ensures sources { EachSource self.old.sources self.new.sources
            (changed_at s (changed_by change self.old.leaf self.old.harts self.old.msi)) }
        ensures others { self.new ≡ record self.old { sources = self.new.sources } }
    {
        let (leaf, harts, msi) = (self.leaf, self.harts, self.msi);
        change_with_waiting(
            &mut self.sources,
            &mut self.waiting,
            s,
            change,
            leaf,
            harts,
            msi,
        );
    }
}

/// Gives the wire of a source that isn't enabled a level, where it is there. The source waits
/// neither before nor after, so what waits stays.
fn wire_one_disabled(
    sources: &mut [InterruptSource],
    waiting: &Waiting,
    s: u64,
    level: bool,
    leaf: bool,
    harts: u32,
    msi: bool,
)
    requires disabled { (source_at sources.old s).enabled ≡ false }
    requires keeps { IsWhatWaits msi sources.old waiting.now }
    ensures sources { EachSource sources.old sources.new (changed_at s (wired msi level)) }
    ensures keeps { IsWhatWaits msi sources.new waiting.now }
{
    change_one(sources, s, Change::Wire(level), leaf, harts, msi);
}

/// Does a change to one source, where it is there, and keeps what waits.
#[inline(always)]
fn change_with_waiting(
    sources: &mut [InterruptSource],
    waiting: &mut Waiting,
    s: u64,
    change: Change,
    leaf: bool,
    harts: u32,
    msi: bool,
)
    requires few { length sources.old ≤ suc SOURCES }
    requires keeps { IsWhatWaits msi sources.old waiting.old }
    ensures sources { EachSource sources.old sources.new
        (changed_at s (changed_by change leaf harts msi)) }
    ensures keeps { IsWhatWaits msi sources.new waiting.new }
    ensures lists { length waiting.new.fronts ≡ length waiting.old.fronts }
{
    if s >= sources.len() as u64 {
        return;
    }
    let stood = aim_at(sources, s);
    change_one(sources, s, change, leaf, harts, msi);
    let stands = aim_at(sources, s);
    if is_same(stood, stands) {
        return;
    }
    if msi {
        waiting.tell(s as u32, stands.is_some());
    } else if s > 0 {
        waiting.renew(s as u32, stood, stands);
    }
}

/// Tells whether a source is aimed as it was.
fn is_same(stood: Option<DirectAim>, stands: Option<DirectAim>) -> bool
    ensures { result ≡ true → stood ≡ stands }
{
    match (stood, stands) {
        (None, None) => true,
        (Some(was), Some(is)) => was.hart == is.hart && was.priority == is.priority,
        _ => false,
    }
}
