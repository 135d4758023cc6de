//! A source in memory that fails at chosen calls.
ghost use Rattle.std.specs.Prelude.{◌≡◌, ◌<◌, ◌↔◌, [], length};
ghost use Rattle.aia_io.specs.Calls.{FailsNext};
ghost use Rattle.aia_io.specs.Ends.{Fills, Reads, ReadHasCause};
ghost use Rattle.aia_io.specs.MemSource.{GivesMost, after_read};
ghost use Rattle.aia_io.specs.Tape.{new_tape, told};

use crate::source::{Read, Source};
use crate::tape::Tape;
use std::marker::Model;

/// Gives the bytes that it was made of, at most `piece` a call, and fails at the calls whose
/// numbers it was given: a fake, for runs that have to meet a failure at a chosen place.
///
/// The first call has the number 1. Past u64::MAX calls the number stays there.
#[derive(Drop)]
pub struct MemSource {
    tape: Tape,
    piece: usize,
    fails: Vec<u64>,
    calls: u64,
    faults: u64,
}

impl Model for MemSource {
    ghost use Rattle.std.specs.Prelude.{◌<◌};
    ghost use Rattle.aia_io.specs.MemSource.{SourceState};

    ghost Value = { SourceState };

    ghost view = { λ s. record {
      tape = s.tape;
      piece = s.piece;
      fails = s.fails.items;
      calls = s.calls;
      faults = s.faults;
    } };

    ghost invariant = { λ s. 0 < s.piece };
}

impl MemSource {
    /// Makes a source that gives `bytes`, at most `piece` a call, which is at least 1, and fails at
    /// the calls numbered in `fails`.
    pub fn new(bytes: Vec<u8>, piece: usize, fails: Vec<u64>) -> MemSource
        requires { 0 < piece }
        ensures { result ≡ record {
          tape = new_tape bytes.items;
          piece = piece;
          fails = fails.items;
          calls = 0;
          faults = 0;
        } }
    {
        MemSource {
            tape: Tape::new(bytes),
            piece,
            fails,
            calls: 0,
            faults: 0,
        }
    }

    /// Gives the number of calls that failed, up to u64::MAX, where the count stays.
    pub fn faults(&self) -> u64
        ensures { result ≡ self.now.faults }
    {
        self.faults
    }
}

impl Source for MemSource {
    ghost supply = { λ s. told s.tape };

    ghost faults = { λ s. s.faults };

    /// Gives as many bytes, at least one, as the piece, the buffer and what is left allow. `Failed`
    /// comes exactly at the calls listed; then nothing is given, and a fault is counted. At the
    /// others `End` comes exactly where nothing is left.
    fn read(&mut self, buf: &mut [u8]) -> Read
        requires { 0 < length buf.old }
        ensures bytes { Reads (told self.old.tape) (told self.new.tape) buf.new result }
        ensures cause { ReadHasCause self.old.faults self.new.faults result }
        ensures failed { (result ≡ Read.Failed) ↔ FailsNext self.old.fails self.old.calls }
        ensures end { (result ≡ Read.End)
            ↔ ((self.old.tape.left ≡ []) × (¬ FailsNext self.old.fails self.old.calls)) }
        ensures buffer { Fills self.old.tape.left buf.old buf.new result }
        ensures most { GivesMost self.old (length buf.old) result }
        ensures after { self.new ≡ after_read self.old result }
    {
        self.calls = self.calls.saturating_add(1);
        if self.fails.contains(&self.calls) {
            self.faults = self.faults.saturating_add(1);
            return Read::Failed;
        }
        match self.tape.give(buf, self.piece) {
            0 => Read::End,
            count => Read::Got(count),
        }
    }
}
