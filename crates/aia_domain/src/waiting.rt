//! What is kept of a domain's sources, so that none is searched for: in direct delivery the
//! candidates of each hart, by MSIs which sources wait.

ghost use Rattle.std.specs.Prelude.{◌≡◌, ℕ, suc, ◌-◌, ◌*◌, ◌<◌, ◌≤◌, ◌↔◌, ◌&&◌, nat_eq, length, slice_get, All, Some, [], IfOk, IsFalse, is_some, true, false, if◌then◌else◌};
ghost use Rattle.aia_word.specs.Sets.{is_in, word_of};
ghost use Rattle.aia_regs.specs.declared.limits.TheConstants.{SOURCES, SOURCE_WORDS};
ghost use Rattle.aia_domain.specs.Order.{CandidatesState, ordered};
ghost use Rattle.aia_domain.specs.InterruptSource.{EachAt, waits_at, waiting_pair_at, pairs_for};
ghost use Rattle.aia_domain.specs.Waiting.{IsWhatWaits, AllHave, HaveRoom, HasRoom, pairs_at, pair_of_aim, with_pair, without_pair, renewed};

use crate::by_number::{aim_at, waits_at};
use crate::interrupt_source::{DirectAim, InterruptSource};
use crate::{Candidates, ReadyBits};
use std::alloc::{AllocError, Global};
use std::marker::Model;

/// What waits in a domain.
#[derive(Drop)]
pub(crate) struct Waiting {
    /// By hart.
    fronts: Vec<Candidates>,
    ready: ReadyBits,
}

impl Model for Waiting {
    ghost use Rattle.aia_domain.specs.Waiting.{WaitingState};

    ghost Value = { WaitingState };

    ghost view = { λ k. record { fronts = k.fronts.items; ready = k.ready } };
}

impl Waiting {
    /// Begins with lists for so many harts, each with room for so many pairs, and nothing waits.
    pub(crate) fn new(alloc: Global, harts: u32, room: u32) -> Result<Waiting, AllocError>
        ensures lists { IfOk result (λ k. length k.fronts ≡ harts) }
        ensures pairs { IfOk result (λ k. AllHave (λ hart. []) room k.fronts) }
        ensures ready { IfOk result (λ k. (s : ℕ) → is_in k.ready s ≡ false) }
    {
        let fronts = new_fronts(alloc, harts, room as usize)?;
        Ok(Waiting {
            fronts,
            ready: ReadyBits::new(),
        })
    }

    /// Begins anew with these sources, in a domain that delivers by MSIs or directly.
    pub(crate) fn begin(&mut self, sources: &[InterruptSource], msi: bool)
        requires some { 0 < length sources.now }
        requires few { length sources.now ≤ suc SOURCES }
        requires room { HaveRoom (length sources.now - 1) self.old.fronts }
        ensures keeps { IsWhatWaits msi sources.now self.new }
        ensures lists { length self.new.fronts ≡ length self.old.fronts }
    {
        begin_all(&mut self.fronts, &mut self.ready, sources, msi);
    }

    /// Gives the pair of a hart's list at a place; `None` for a hart that isn't there.
    pub(crate) fn candidate(&self, hart: u32, place: usize) -> Option<(u32, u32)>
        ensures { result ≡ slice_get (pairs_at self.now.fronts hart) place }
    {
        self.fronts.get(hart as usize)?.at(place)
    }

    /// Gives word `k`, below `SOURCE_WORDS`, of the sources that wait for an MSI.
    pub(crate) fn word(&self, k: u32) -> u64
        requires { k < SOURCE_WORDS }
        ensures { result ≡ word_of (is_in self.now.ready) (64 * k) 64 }
    {
        self.ready.word(k)
    }

    /// Tells whether a source waits for an MSI.
    pub(crate) fn has_waiting(&self) -> bool
        ensures { IsFalse result ↔ ((s : ℕ) → is_in self.now.ready s ≡ false) }
    {
        !self.ready.is_empty()
    }

    /// Has a source that was aimed so be aimed otherwise, in direct delivery.
    #[inline(never)]
    pub(crate) fn renew(&mut self, s: u32, stood: Option<DirectAim>, stands: Option<DirectAim>)
        requires room { HasRoom s stood stands self.old.fronts }
        ensures fronts { EachAt self.old.fronts self.new.fronts (renewed s stood stands) }
        ensures ready { self.new.ready ≡ self.old.ready }
    {
        match (stood, stands) {
            (None, _) => put_into(&mut self.fronts, s, stands),
            (_, None) => take_from(&mut self.fronts, s, stood),
            _ => move_pair(&mut self.fronts, s, stood, stands),
        }
    }

    /// Notes by MSIs whether a source waits.
    #[inline(never)]
    pub(crate) fn tell(&mut self, s: u32, waits: bool)
        requires { s ≤ SOURCES }
        ensures ready { (t : ℕ) → is_in self.new.ready t
            ≡ (if nat_eq s t then waits else is_in self.old.ready t) }
        ensures fronts { self.new.fronts ≡ self.old.fronts }
    {
        self.ready.set(s, waits);
    }
}

/// Has the pair of a source stand where the source is aimed now.
#[inline(never)]
fn move_pair(fronts: &mut [Candidates], s: u32, stood: Option<DirectAim>, stands: Option<DirectAim>)
    requires room { HasRoom s stood stands fronts.old }
    ensures { EachAt fronts.old fronts.new (renewed s stood stands) }
{
    take_from(fronts, s, stood);
    put_into(fronts, s, stands);
}

/// Takes the pair of a source out of the list of the hart that it was aimed at.
#[inline(always)]
fn take_from(fronts: &mut [Candidates], s: u32, aim: Option<DirectAim>)
    ensures { EachAt fronts.old fronts.new (λ hart. without_pair (pair_of_aim hart s aim)) }
{
    if let Some(aim) = aim {
        let hart = aim.hart as usize;
        if hart < fronts.len() {
            fronts[hart].take_out((aim.priority, s));
        }
    }
}

/// Puts the pair of a source into the list of the hart that it is aimed at.
#[inline(always)]
fn put_into(fronts: &mut [Candidates], s: u32, aim: Option<DirectAim>)
    requires room { (hart : ℕ) (x : CandidatesState) → slice_get fronts.old hart ≡ Some x
        → is_some (pair_of_aim hart s aim) ≡ true → length x.pairs < x.room }
    ensures { EachAt fronts.old fronts.new (λ hart. with_pair (pair_of_aim hart s aim)) }
{
    if let Some(aim) = aim {
        let hart = aim.hart as usize;
        if hart < fronts.len() {
            fronts[hart].put((aim.priority, s));
        }
    }
}

/// Makes the lists of so many harts, each with room for so many pairs.
fn new_fronts(alloc: Global, harts: u32, room: usize) -> Result<Vec<Candidates>, AllocError>
    ensures lists { IfOk result (λ fronts. length fronts.items ≡ harts) }
    ensures each { IfOk result
        (λ fronts. All (λ x. x ≡ record { room = room; pairs = [] }) fronts.items) }
{
    let mut fronts = Vec::new(alloc);
    for _hart in 0..harts {
        fronts.push(Candidates::new(alloc, room)?)?;
    }
    Ok(fronts)
}

/// Has lists and bits begin anew with these sources.
fn begin_all(
    fronts: &mut [Candidates],
    ready: &mut ReadyBits,
    sources: &[InterruptSource],
    msi: bool,
)
    requires some { 0 < length sources.now }
    requires few { length sources.now ≤ suc SOURCES }
    requires room { HaveRoom (length sources.now - 1) fronts.old }
    ensures lists { AllHave (pairs_for msi sources.now) (length sources.now - 1) fronts.new }
    ensures bits { (s : ℕ) → is_in ready.new s ≡ (msi && waits_at sources.now s) }
{
    clear_all(fronts);
    ready.clear();
    if msi {
        tell_all(ready, sources);
    } else {
        put_all(fronts, sources);
    }
}

/// Takes all pairs out of all lists.
fn clear_all(fronts: &mut [Candidates])
    ensures { EachAt fronts.old fronts.new (λ hart x. record x { pairs = [] }) }
{
    for hart in 0..fronts.len() {
        clear_one(fronts, hart);
    }
}

fn clear_one(fronts: &mut [Candidates], at: usize)
    ensures { EachAt fronts.old fronts.new
        (λ hart x. if nat_eq at hart then record x { pairs = [] } else x) }
{
    if at < fronts.len() {
        fronts[at].clear();
    }
}

/// Puts the pairs of all sources that wait into the lists of their harts, which are empty.
fn put_all(fronts: &mut [Candidates], sources: &[InterruptSource])
    requires some { 0 < length sources.now }
    requires few { length sources.now ≤ suc SOURCES }
    requires empty { AllHave (λ hart. []) (length sources.now - 1) fronts.old }
    ensures { AllHave (λ hart. ordered (waiting_pair_at sources.now hart) 1
        (length sources.now - 1)) (length sources.now - 1) fronts.new }
{
    for s in (1..sources.len()).rev() {
        put_into(fronts, s as u32, aim_at(sources, s as u64));
    }
}

/// Puts all sources that wait into a set that is empty.
fn tell_all(ready: &mut ReadyBits, sources: &[InterruptSource])
    requires few { length sources.now ≤ suc SOURCES }
    requires empty { (s : ℕ) → is_in ready.old s ≡ false }
    ensures { (s : ℕ) → is_in ready.new s ≡ waits_at sources.now s }
{
    for s in 0..sources.len() {
        ready.set(s as u32, waits_at(sources, s as u32));
    }
}
