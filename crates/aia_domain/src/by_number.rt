//! The sources of a domain, by their numbers: each function here changes some of them, and leaves
//! the others as they are.

ghost use Rattle.std.specs.Prelude.{◌≡◌, ◌*◌, ◌≤◌, Bool, nat_eq, slice_get, length, All, IfOk, if◌then◌else◌};
ghost use Rattle.aia_word.specs.Sets.{word_of};
ghost use Rattle.aia_domain.specs.InterruptSource.{EachSource, new_source, changed_at, changed_by, all_switched, switched, sourcecfg_at, is_active_at, target_at, source_at, bit_at_source, waits_at};
ghost use Rattle.aia_domain.specs.Waiting.{aim_at};

use crate::interrupt_source::{Change, DirectAim, InterruptSource, SourceBit};
use std::alloc::{AllocError, Global};

/// The sources that a register has in one word.
const WORD: u32 = 32;

/// Makes so many sources as a domain begins with.
pub(crate) fn new_sources(alloc: Global, count: u32) -> Result<Vec<InterruptSource>, AllocError>
    ensures length { IfOk result (λ sources. length sources.items ≡ count) }
    ensures each { IfOk result (λ sources. All (λ x. x ≡ new_source) sources.items) }
{
    let mut sources = Vec::new(alloc);
    for _number in 0..count {
        sources.push(InterruptSource::new())?;
    }
    Ok(sources)
}

/// Does a change to one source, where it is there.
#[inline(always)]
pub(crate) fn change_one(
    sources: &mut [InterruptSource],
    s: u64,
    change: Change,
    leaf: bool,
    harts: u32,
    msi: bool,
)
    ensures { EachSource sources.old sources.new
        (changed_at s (changed_by change leaf harts msi)) }
{
    if s < sources.len() as u64 {
        sources[s as usize].change(change, leaf, harts, msi);
    }
}

/// Has all sources hear that the delivery mode of the domain is now this one.
pub(crate) fn switch_all(sources: &mut [InterruptSource], msi: bool)
    ensures { EachSource sources.old sources.new (all_switched msi) }
{
    for s in 0..sources.len() {
        switch_one(sources, s, msi);
    }
}

fn switch_one(sources: &mut [InterruptSource], s: usize, msi: bool)
    ensures { EachSource sources.old sources.new (changed_at s (switched msi)) }
{
    if s < sources.len() {
        sources[s].switch(msi);
    }
}

/// Gives the `sourcecfg` of a source, 0 where it isn't there.
pub(crate) fn sourcecfg_at(sources: &[InterruptSource], s: u32, leaf: bool) -> u32
    ensures { result ≡ sourcecfg_at sources.now leaf s }
{
    match sources.get(s as usize) {
        Some(source) => source.sourcecfg(leaf),
        None => 0,
    }
}

/// Tells whether a source is active; one that isn't there is not.
pub(crate) fn is_active_at(sources: &[InterruptSource], s: u32) -> bool
    ensures { result ≡ is_active_at sources.now s }
{
    match sources.get(s as usize) {
        Some(source) => source.is_active(),
        None => false,
    }
}

/// Gives the `target` of a source, 0 where it isn't there.
pub(crate) fn target_at(sources: &[InterruptSource], s: u32) -> u32
    ensures { result ≡ target_at sources.now s }
{
    match sources.get(s as usize) {
        Some(source) => source.target(),
        None => 0,
    }
}

/// Gives the bit of a source in a register, a zero where it isn't there.
fn bit_of(sources: &[InterruptSource], s: u64, which: SourceBit) -> u32
    ensures value { result ≡ (if bit_at_source sources.now which s then 1 else 0) }
    ensures small { result ≤ 1 }
{
    u32::from(s < sources.len() as u64 && sources[s as usize].bit(which))
}

/// Tells the enable bit of a source, false where it isn't there.
pub(crate) fn enabled_at(sources: &[InterruptSource], s: u64) -> bool
    ensures { result ≡ (source_at sources.now s).enabled }
{
    s < sources.len() as u64 && sources[s as usize].enabled()
}

/// Tells where a source is aimed, where it waits; one that isn't there does not.
pub(crate) fn aim_at(sources: &[InterruptSource], s: u64) -> Option<DirectAim>
    ensures { result ≡ aim_at sources.now s }
{
    if s < sources.len() as u64 {
        sources[s as usize].aim_of()
    } else {
        None
    }
}

/// Tells whether a source is pending and enabled; one that isn't there is not.
pub(crate) fn waits_at(sources: &[InterruptSource], s: u32) -> bool
    ensures { result ≡ waits_at sources.now s }
{
    (s as usize) < sources.len() && sources[s as usize].waits()
}

/// Gives word `k` of a register that shows the sources: their bits, the lowest source in the
/// lowest bit.
pub(crate) fn word_shown(sources: &[InterruptSource], k: u32, which: SourceBit) -> u32
    ensures { result ≡ word_of (bit_at_source sources.now which) (32 * k) 32 }
{
    let first = u64::from(WORD) * u64::from(k);
    let mut word = 0;
    for place in (0..WORD).rev() {
        word = 2 * word + bit_of(sources, first + u64::from(place), which);
    }
    word
}
