//! A sink that counts bytes and never fails.
ghost use Rattle.std.specs.Prelude.{◌≡◌, ◌+◌, ◌-◌, ◌^◌, ◌<◌, None, length, min};
ghost use Rattle.aia_io.specs.Ends.{Writes, WriteHasCause};

use crate::sink::{Sink, Write};
use std::marker::Model;

/// Takes all that it is offered, keeps only the number of bytes, and never fails.
#[derive(Drop)]
pub struct QuietSink {
    count: u64,
}

// Seen as the number of bytes taken.
impl Model for QuietSink {
    ghost use Rattle.std.specs.Prelude.{ℕ};

    ghost Value = { ℕ };

    ghost view = { λ s. s.count };
}

impl QuietSink {
    /// Makes a sink that has taken nothing.
    pub fn new() -> QuietSink
        ensures { result ≡ 0 }
    {
        QuietSink { count: 0 }
    }

    /// Gives the number of bytes that it took, up to u64::MAX, where the count stays.
    pub fn count(&self) -> u64
        ensures { result ≡ self.now }
    {
        self.count
    }
}

impl Sink for QuietSink {
    ghost taken = { λ _. None };

    ghost faults = { λ _. 0 };

    /// Takes all of `bytes`, at least one; `Failed` never comes.
    fn write(&mut self, bytes: &[u8]) -> Write
        requires { 0 < length bytes.now }
        ensures bytes { Writes None None bytes.now result }
        ensures cause { WriteHasCause 0 0 result }
        ensures all { result ≡ Write.Took (length bytes.now) }
        ensures count { self.new ≡ min (self.old + length bytes.now) (2 ^ 64 - 1) }
    {
        self.count = self.count.saturating_add(bytes.len() as u64);
        Write::Took(bytes.len())
    }
}
