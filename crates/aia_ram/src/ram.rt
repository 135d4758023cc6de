ghost use Rattle.std.specs.Prelude.{◌≡◌, ℕ, ◌+◌, ◌*◌, ◌/◌, ◌<◌, ◌≤◌, ◌↔◌, ◌++◌, length, take, drop, replicate, slice_index, slice_set, bit_or, IsTrue, IfOk};
ghost use Rattle.aia_ram.specs.Words.{HasWordAt, word_in, bytes_in};

use byteorder::{ByteOrder, LittleEndian};
use std::alloc::{AllocError, Global};
use std::marker::Model;

/// Memory of a fixed number of bytes, reached by its words of 64 bits. A place in it is the number
/// of a byte, counted from 0; a word begins at each multiple of 8, its lowest byte first.
#[derive(Drop)]
pub struct Ram {
    bytes: Vec<u8>,
}

impl Model for Ram {
    ghost use Rattle.std.specs.Prelude.{ℕ, ◌/◌, List, length};
    ghost use Rattle.aia_ram.specs.Words.{words_of};

    ghost Value = { List ℕ };

    ghost view = { λ r. words_of (length r.bytes.items / 8) r.bytes.items };
}

impl Ram {
    /// Makes memory of `len` bytes, all 0; bytes after the last whole word are not reached.
    /// `Err`: there is no memory for it.
    #[tactic(auto, using(crate::proofs::RamLemmas::zeros_are_words))]
    pub fn new(alloc: Global, len: usize) -> Result<Ram, AllocError>
        ensures { IfOk result (λ ram. ram ≡ replicate (len / 8) 0) }
    {
        let bytes = vec![in alloc; 0; len]?;
        Ok(Ram { bytes })
    }

    /// Tells whether a word begins at byte `at`: `at` is a multiple of 8, and all of the word is
    /// there.
    #[tactic(auto, using(crate::proofs::RamLemmas::words_there))]
    pub fn has_word_at(&self, at: usize) -> bool
        ensures { IsTrue result ↔ HasWordAt self.now at }
    {
        at % 8 == 0 && at / 8 < self.bytes.len() / 8
    }

    /// Gives how many bytes the words of memory have, a multiple of 8.
    #[tactic(auto, using(crate::proofs::RamLemmas::words_there))]
    pub fn len(&self) -> usize
        ensures { result ≡ 8 * length self.now }
    {
        self.bytes.len() / 8 * 8
    }

    /// Gives the word at byte `at`, where one begins.
    #[tactic(auto, using(crate::proofs::RamLemmas::words_there, crate::proofs::RamLemmas::word_loaded))]
    pub fn load(&self, at: usize) -> u64
        requires { HasWordAt self.now at }
        ensures { result ≡ slice_index self.now (at / 8) }
    {
        read_word(&self.bytes, at)
    }

    /// Makes `v` the word at byte `at`, where one begins; every other word stays.
    #[tactic(auto, using(crate::proofs::RamLemmas::words_there, crate::proofs::RamLemmas::word_stored))]
    pub fn store(&mut self, at: usize, v: u64)
        requires { HasWordAt self.old at }
        ensures { self.new ≡ slice_set self.old (at / 8) v }
    {
        put_word(&mut self.bytes, at, v);
    }

    /// Sets the ones of `v` in the word at byte `at`, where one begins; its other bits, and every
    /// other word, stay.
    pub fn or(&mut self, at: usize, v: u64)
        requires { HasWordAt self.old at }
        ensures { self.new
            ≡ slice_set self.old (at / 8) (bit_or (slice_index self.old (at / 8)) v) }
    {
        let word = self.load(at);
        self.store(at, word | v);
    }

    /// Makes `v` the word at byte `at`, where one begins, and gives what stood there; every other
    /// word stays.
    pub fn swap(&mut self, at: usize, v: u64) -> u64
        requires { HasWordAt self.old at }
        ensures stood { result ≡ slice_index self.old (at / 8) }
        ensures after { self.new ≡ slice_set self.old (at / 8) v }
    {
        let stood = self.load(at);
        self.store(at, v);
        stood
    }
}

/// Gives the word in the eight bytes from byte `at` on.
#[tactic(auto, using(crate::proofs::RamLemmas::word_read))]
fn read_word(bytes: &[u8], at: usize) -> u64
    requires { at + 8 ≤ length bytes.now }
    ensures { result ≡ word_in (drop at bytes.now) }
{
    LittleEndian::read_u64(&bytes[at..])
}

/// Makes the eight bytes from byte `at` on those of `v`.
#[tactic(auto, using(crate::proofs::RamLemmas::word_written))]
fn write_word(bytes: &mut [u8], at: usize, v: u64)
    requires { at + 8 ≤ length bytes.old }
    ensures { bytes.new ≡ take at bytes.old ++ (bytes_in v ++ drop (at + 8) bytes.old) }
{
    LittleEndian::write_u64(&mut bytes[at..], v);
}

/// Makes the eight bytes from byte `at` on those of `v`; there are as many bytes as before.
fn put_word(bytes: &mut Vec<u8>, at: usize, v: u64)
    requires { at + 8 ≤ length bytes.old.items }
    ensures after { bytes.new.items
        ≡ take at bytes.old.items ++ (bytes_in v ++ drop (at + 8) bytes.old.items) }
    ensures length { length bytes.new.items ≡ length bytes.old.items }
{
    write_word(bytes, at, v);
}
