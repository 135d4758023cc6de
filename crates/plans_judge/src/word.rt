//! What is known of a word of 64 identities.

ghost use Rattle.std.specs.Prelude.{◌≡◌, ◌&&◌, not, length};
ghost use Rattle.plans_rules.specs.Rules as rules;
ghost use Rattle.plans_rules.specs.Setting.{all_below};
ghost use Rattle.plans_judge.specs.Table.{AllAfter, flags_after, flags_there, is_blank_at, is_kept_at, is_reported_at, is_taken_at, looked_after, looked_by, reported_after, seen_after, spots_any_old, told_by, word_after, word_first, word_settled};

use crate::spots::{Effect, Spots, Stores};
use plans_rules::{AnyStep, WhichSet};

/// What the steps so far have made of a word of one set.
#[derive(Clone, Copy)]
pub(crate) struct Flags {
    /// Where an identity of it that is due may stand.
    pub(crate) spots: Spots,

    /// Nothing stands in the new place but what is due.
    pub(crate) blank: bool,
}

/// What they have made of the word of both sets, and of the host.
#[derive(Clone, Copy)]
pub(crate) struct Word {
    pub(crate) pending: Flags,
    pub(crate) enabled: Flags,

    /// It was looked at, all was there then and since that a look heeds, notices went to the host,
    /// and nobody may have stored into it since.
    pub(crate) seen: bool,

    /// It was looked at, and all that was so but for the stores. Behind an `untell` that counts
    /// only if nobody may have stored since the look.
    pub(crate) looked: bool,

    /// It was told of, or posted after such a look, if there was reason to, and all that was so
    /// then and since.
    pub(crate) reported: bool,
}

/// What is known of the whole move at a step.
#[derive(Clone, Copy)]
pub(crate) struct World {
    /// Nobody stores into the old place after it.
    pub(crate) still: bool,

    /// Somebody may store into the new place after it.
    pub(crate) reached: bool,

    /// After it both numbers are in the new place, if they are heeded there, and notices go to the
    /// host.
    pub(crate) ready: bool,
}

/// Tells whether a step looks at a word.
fn looks(step: AnyStep, word: usize) -> bool
    ensures { result ≡ rules.looks word step }
{
    match step {
        AnyStep::Look(w) => w as usize == word,
        _ => false,
    }
}

/// Tells whether a step posts what looks saw.
fn posts(step: AnyStep) -> bool
    ensures { result ≡ rules.posts step }
{
    match step {
        AnyStep::Post => true,
        _ => false,
    }
}

/// Tells whether it tells the host what stands out.
fn tells(step: AnyStep) -> bool
    ensures { result ≡ rules.tells step }
{
    match step {
        AnyStep::Tell => true,
        _ => false,
    }
}

/// Tells whether it takes back what the host was told.
fn untells(step: AnyStep) -> bool
    ensures { result ≡ rules.untells step }
{
    match step {
        AnyStep::Untell => true,
        _ => false,
    }
}

impl Flags {
    /// Tells whether all of the word that is due stands in the new place.
    fn is_there(self) -> bool
        ensures { result ≡ flags_there self }
    {
        !(self.spots.old || self.spots.hand || self.spots.old_hand)
    }

    /// Gives what a step makes of word `word` of a set, given who stores into that set after it.
    fn after(self, step: AnyStep, bank: WhichSet, word: usize, stores: Stores) -> Flags
        ensures { result ≡ flags_after bank stores.still stores.reached step word self }
    {
        let effect = Effect::of(step, bank, word);
        Flags {
            spots: self.spots.after(effect, stores),
            blank: effect.blanks || self.blank,
        }
    }
}

impl Word {
    /// Gives what is known of a word before the first step.
    pub(crate) fn first(is_fresh: bool) -> Word
        ensures { result ≡ word_first is_fresh }
    {
        let flags = Flags {
            spots: Spots::first(),
            blank: is_fresh,
        };
        Word {
            pending: flags,
            enabled: flags,
            seen: false,
            looked: false,
            reported: false,
        }
    }

    /// Tells whether word `word` was looked at after a step, is settled since, and nobody may have
    /// stored into it since.
    fn is_seen_after(self, step: AnyStep, word: usize, settled: bool, reached: bool) -> bool
        ensures { result ≡ seen_after settled reached step word self }
    {
        (looks(step, word) || self.seen) && settled && !reached
    }

    /// Tells whether it was looked at before a step that may take back what was told.
    fn is_looked_at(self, step: AnyStep) -> bool
        ensures { result ≡ looked_by step self }
    {
        if untells(step) {
            self.seen
        } else {
            self.looked
        }
    }

    /// Tells whether word `word` was looked at after a step, and is settled since.
    fn is_looked_after(self, step: AnyStep, word: usize, settled: bool) -> bool
        ensures { result ≡ looked_after settled step word self }
    {
        (looks(step, word) || self.is_looked_at(step)) && settled
    }

    /// Tells whether the host was told of the word by a step, or before it and it is not taken
    /// back.
    fn is_told_by(self, step: AnyStep) -> bool
        ensures { result ≡ told_by step self }
    {
        if untells(step) {
            self.reported && self.seen
        } else {
            posts(step) && self.looked || tells(step) || self.reported
        }
    }

    /// Tells whether the host was told of the word after a step, if there is reason to, and it is
    /// settled since.
    fn is_reported_after(self, step: AnyStep, settled: bool) -> bool
        ensures { result ≡ reported_after settled step self }
    {
        self.is_told_by(step) && settled
    }

    /// Gives what a step makes of word `word`.
    fn after(self, step: AnyStep, word: usize, world: World) -> Word
        ensures { result ≡ word_after world step word self }
    {
        let pending = Stores {
            still: world.still,
            reached: world.reached,
        };
        let enabled = Stores {
            still: true,
            reached: false,
        };
        let pending = self.pending.after(step, WhichSet::Pending, word, pending);
        let enabled = self.enabled.after(step, WhichSet::Enabled, word, enabled);
        let settled = is_settled(pending, enabled, world.ready);
        Word {
            pending,
            enabled,
            seen: self.is_seen_after(step, word, settled, world.reached),
            looked: self.is_looked_after(step, word, settled),
            reported: self.is_reported_after(step, settled),
        }
    }
}

/// Tells whether all of a word of both sets stands in the new place, and the move is ready for
/// notices.
fn is_settled(pending: Flags, enabled: Flags, ready: bool) -> bool
    ensures { result ≡ word_settled ready pending enabled }
{
    pending.is_there() && enabled.is_there() && ready
}

/// Makes of all words what a step makes of them.
pub(crate) fn step_all(words: &mut [Word], step: AnyStep, world: World)
    ensures { AllAfter (word_after world step) words.old words.new }
{
    for word in 0..words.len() {
        words[word] = words[word].after(step, word, world);
    }
}

/// Tells whether nothing due of the pending words may stand in the old place.
pub(crate) fn all_taken(words: &[Word]) -> bool
    ensures { result ≡ all_below (is_taken_at words.now) (length words.now) }
{
    let mut holds = true;
    for word in 0..words.len() {
        holds = !words[word].pending.spots.any_old() && holds;
    }
    holds
}

/// Tells whether no enable may stand in the old place, and nothing due only in the hand.
pub(crate) fn all_kept(words: &[Word]) -> bool
    ensures { result ≡ all_below (is_kept_at words.now) (length words.now) }
{
    let mut holds = true;
    for word in 0..words.len() {
        let now = words[word];
        holds = !now.pending.spots.hand && is_lifted(now.enabled) && holds;
    }
    holds
}

/// Tells whether nothing of a word may stand in the old place, nor only in the hand.
fn is_lifted(flags: Flags) -> bool
    ensures { result ≡ (not (spots_any_old flags.spots) && not flags.spots.hand) }
{
    !flags.spots.any_old() && !flags.spots.hand
}

/// Tells whether all words are blank in the new place.
pub(crate) fn all_blank(words: &[Word]) -> bool
    ensures { result ≡ all_below (is_blank_at words.now) (length words.now) }
{
    let mut holds = true;
    for word in 0..words.len() {
        let now = words[word];
        holds = now.pending.blank && now.enabled.blank && holds;
    }
    holds
}

/// Tells whether the host was told of each word.
pub(crate) fn all_reported(words: &[Word]) -> bool
    ensures { result ≡ all_below (is_reported_at words.now) (length words.now) }
{
    let mut holds = true;
    for word in 0..words.len() {
        holds = words[word].reported && holds;
    }
    holds
}
