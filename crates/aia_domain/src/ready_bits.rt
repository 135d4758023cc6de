ghost use Rattle.std.specs.Prelude.{◌≡◌, ℕ, ◌*◌, ◌<◌, ◌≤◌, ◌/◌, ◌↔◌, Bool, false, length, nat_eq, if◌then◌else◌, IsTrue};
ghost use Rattle.aia_word.specs.Sets.{is_in, word_of};
ghost use Rattle.aia_regs.specs.declared.limits.TheConstants.{SOURCES, SOURCE_WORDS};
ghost use Rattle.aia_word.specs.Summary.{Summarizes, SummarizesAllBut};

use aia_regs::limits::SOURCE_WORDS;
use aia_word::sets;
use std::marker::Model;

/// A set of wired sources in words of 64 bits, by their numbers, up to `SOURCES`: source `s` is bit
/// `s % 64` of word `s / 64`.
#[derive(Drop)]
pub struct ReadyBits {
    words: [u64; SOURCE_WORDS],
    /// Which words are not 0.
    summary: u64,
}

impl Model for ReadyBits {
    ghost use Rattle.std.specs.Prelude.{◌≡◌, ℕ, List, length};
    ghost use Rattle.aia_regs.specs.declared.limits.TheConstants.{SOURCE_WORDS};
    ghost use Rattle.aia_word.specs.Sets.{is_in};
    ghost use Rattle.aia_word.specs.Summary.{Summarizes};

    ghost Value = { List ℕ };

    ghost view = { λ r. r.words };

    ghost invariant = { λ r. (length r.words ≡ SOURCE_WORDS)
        × Summarizes r.summary (is_in r.words) };
}

impl ReadyBits {
    /// Makes the empty set.
    pub fn new() -> ReadyBits
        ensures { (s : ℕ) → is_in result s ≡ false }
    {
        ReadyBits {
            words: [0; SOURCE_WORDS],
            summary: 0,
        }
    }

    /// Gives word `k`, below `SOURCE_WORDS`, which has the sources `64 * k` to `64 * k + 63`.
    pub fn word(&self, k: u32) -> u64
        requires { k < SOURCE_WORDS }
        ensures { result ≡ word_of (is_in self.now) (64 * k) 64 }
    {
        sets::word(&self.words, k as usize)
    }

    /// Puts a source into the set, or takes it out; every other source stays.
    pub fn set(&mut self, s: u32, ready: bool)
        requires { s ≤ SOURCES }
        ensures { (t : ℕ) → is_in self.new t ≡ (if nat_eq s t then ready else is_in self.old t) }
    {
        put(&mut self.words, s, ready);
        self.summary = refreshed(self.summary, &self.words, s / 64);
    }

    /// Takes all sources out.
    pub fn clear(&mut self)
        ensures { (s : ℕ) → is_in self.new s ≡ false }
    {
        self.words = [0; SOURCE_WORDS];
        self.summary = 0;
    }

    /// Tells whether no source is in the set.
    pub fn is_empty(&self) -> bool
        ensures { IsTrue result ↔ ((s : ℕ) → is_in self.now s ≡ false) }
    {
        shows_none(self.summary, &self.words)
    }
}

/// Tells whether no source is in the set that words show, by their summary.
fn shows_none(summary: u64, words: &[u64]) -> bool
    requires words { length words.now ≡ SOURCE_WORDS }
    requires summary { Summarizes summary (is_in words.now) }
    ensures { IsTrue result ↔ ((s : ℕ) → is_in words.now s ≡ false) }
{
    summary == 0
}

/// Puts a source into the set that words show, or takes it out.
fn put(words: &mut [u64], s: u32, ready: bool)
    requires { s / 64 < length words.old }
    ensures { (t : ℕ) → is_in words.new t ≡ (if nat_eq s t then ready else is_in words.old t) }
{
    if ready {
        sets::insert(words, s);
    } else {
        sets::remove(words, s);
    }
}

/// Gives the summary of the words, where all its bits but `k` tell of them already.
fn refreshed(summary: u64, words: &[u64], k: u32) -> u64
    requires word { k < SOURCE_WORDS }
    requires others { SummarizesAllBut k summary (is_in words.now) }
    ensures { Summarizes result (is_in words.now) }
{
    aia_word::refreshed(summary, k, sets::word(words, k as usize))
}
