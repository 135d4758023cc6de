//! A source in memory that never fails.
ghost use Rattle.std.specs.Prelude.{◌≡◌, ◌<◌, length};
ghost use Rattle.aia_io.specs.Ends.{Fills, Reads, ReadHasCause};
ghost use Rattle.aia_io.specs.QuietSource.{GivesFront};
ghost use Rattle.aia_io.specs.Tape.{new_tape, told};

use crate::source::{Read, Source};
use crate::tape::Tape;
use std::marker::Model;

/// Gives the bytes that it was made of, as many a call as the buffer has room for, and never fails.
#[derive(Drop)]
pub struct QuietSource {
    tape: Tape,
}

impl Model for QuietSource {
    ghost use Rattle.aia_io.specs.Tape.{TapeState};

    ghost Value = { TapeState };

    ghost view = { λ s. s.tape };
}

impl QuietSource {
    /// Makes a source that gives `bytes`.
    pub fn new(bytes: Vec<u8>) -> QuietSource
        ensures { result ≡ new_tape bytes.items }
    {
        QuietSource {
            tape: Tape::new(bytes),
        }
    }
}

impl Source for QuietSource {
    ghost supply = { told };

    ghost faults = { λ _. 0 };

    /// Gives as many bytes, at least one, as the buffer and what is left allow. `End` comes exactly
    /// where nothing is left, and `Failed` never.
    fn read(&mut self, buf: &mut [u8]) -> Read
        requires { 0 < length buf.old }
        ensures bytes { Reads (told self.old) (told self.new) buf.new result }
        ensures cause { ReadHasCause 0 0 result }
        ensures buffer { Fills self.old.left buf.old buf.new result }
        ensures most { GivesFront self.old self.new (length buf.old) result }
    {
        match self.tape.give(buf, buf.len()) {
            0 => Read::End,
            count => Read::Got(count),
        }
    }
}
