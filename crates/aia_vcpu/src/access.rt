ghost use Rattle.std.specs.Prelude.{◌≡◌, ◌+◌, ◌*◌, ◌<◌, ◌≤◌};
ghost use Rattle.aia_regs.specs.declared.limits.TheConstants.{FILE_WORDS};
ghost use Rattle.aia_vcpu.specs.Plans.{one_at_file, one_at_memory, before_entry, word_steps, plan_steps, IsAt};

use crate::End;

/// One access of a plan. The old place is the one that the move leaves, the new place the one to
/// which it leads: a guest file, or the slot of memory. Words are those of 64 identities, counted
/// from 0. Profile: all plans.
#[derive(Clone, Copy, Debug, PartialEq, Eq)]
pub enum Access {
    /// eidelivery of the old file is taken, so that the file signals no more.
    TakeDelivery,
    /// eidelivery is put in the new file.
    PutDelivery,
    /// Word 1 of the MSI page table's entry is written: where notices go.
    WriteNotice,
    /// Word 0 of the entry is written: it names the new place.
    WriteEntry,
    /// The entry is put in force.
    Fence,
    /// The G-stage record is written: the new file, or nothing.
    Map,
    /// The G-stage record is put in force.
    GFence,
    /// A word of the pending set is taken from the old place.
    TakePending(u32),
    /// A word of the pending set is put in the new place.
    PutPending(u32),
    /// A word of the enabled set is taken from the old place.
    TakeEnables(u32),
    /// A word of the enabled set is put in the new place.
    PutEnables(u32),
    /// A word of both sets is read in memory.
    Look(u32),
    /// eithreshold of the old file is taken.
    TakeThreshold,
    /// eithreshold is put in the new file.
    PutThreshold,
    /// The notice is sent, where a look saw an identity both pending and enabled.
    Post,
}

/// Gives the access that a plan makes after `done` steps, of files of `words` words. Profile: all
/// plans.
#[inline(always)]
pub fn access_at(from: End, to: End, words: u32, done: u32) -> Access
    requires few { words ≤ FILE_WORDS }
    requires more { done < plan_steps from to words }
    ensures { IsAt from to words done result }
{
    let first = before_entry(from, to) + 4;
    if done < first {
        return of_routes(from, to, words, done);
    }
    let at = done - first;
    if at < 2 * words {
        if at % 2 == 0 {
            Access::TakePending(at / 2)
        } else {
            Access::PutPending(at / 2)
        }
    } else if at < 4 * words {
        let word = (at - 2 * words) / 2;
        if at % 2 == 0 {
            Access::TakeEnables(word)
        } else {
            Access::PutEnables(word)
        }
    } else {
        after_words(from, to, words, done, at - 4 * words)
    }
}

/// Tells how many accesses a plan makes before it writes the entry: up to 2. Profile: all plans.
pub fn before_entry(from: End, to: End) -> u32
    ensures value { result ≡ before_entry from to }
    ensures few { result ≤ 2 }
{
    match (from, to) {
        (End::File, End::Memory) => 2,
        (End::File, End::File) | (End::Memory, End::Memory) => 1,
        (End::Memory, End::File) => 0,
    }
}

/// Tells how many accesses a plan makes of both sets, word by word: it takes and puts each, and in
/// memory it looks at it. Profile: all plans.
pub fn word_steps(to: End, words: u32) -> u32
    requires { words ≤ FILE_WORDS }
    ensures value { result ≡ word_steps to words }
    ensures few { result ≤ 5 * words }
{
    match to {
        End::File => 4 * words,
        End::Memory => 5 * words,
    }
}

/// Tells how many accesses a plan makes in all. Profile: all plans.
pub fn plan_steps(from: End, to: End, words: u32) -> u32
    requires { words ≤ FILE_WORDS }
    ensures { result ≡ plan_steps from to words }
{
    let numbers = match (from, to) {
        (End::File, End::File) => 3,
        (End::File, End::Memory) | (End::Memory, End::File) => 2,
        (End::Memory, End::Memory) => 1,
    };
    before_entry(from, to) + 4 + word_steps(to, words) + numbers
}

/// Gives the access, of those that come before the words.
fn of_routes(from: End, to: End, words: u32, done: u32) -> Access
    requires { done < before_entry from to + 4 }
    ensures { IsAt from to words done result }
{
    let entry = before_entry(from, to);
    if done == entry {
        Access::WriteEntry
    } else if done == entry + 1 {
        Access::Fence
    } else if done == entry + 2 {
        Access::Map
    } else if done == entry + 3 {
        Access::GFence
    } else if from == End::File && done == 0 {
        Access::TakeDelivery
    } else {
        Access::WriteNotice
    }
}

/// Gives the `at`-th access of those that come after the words.
fn after_words(from: End, to: End, words: u32, done: u32, at: u32) -> Access
    requires more { done < plan_steps from to words }
    requires place { done ≡ before_entry from to + 4 + 4 * words + at }
    ensures { IsAt from to words done result }
{
    match (from, to) {
        (End::File, End::File) => match at {
            0 => Access::TakeThreshold,
            1 => Access::PutThreshold,
            _ => Access::PutDelivery,
        },
        (End::Memory, End::File) => match at {
            0 => Access::PutThreshold,
            _ => Access::PutDelivery,
        },
        (_, End::Memory) if at < words => Access::Look(at),
        (End::File, End::Memory) if at == words => Access::TakeThreshold,
        (_, End::Memory) => Access::Post,
    }
}
