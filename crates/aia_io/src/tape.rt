//! Bytes that are given once, from the front to the end.
ghost use Rattle.std.specs.Prelude.{◌≡◌, ◌++◌, min, length, take, drop};
ghost use Rattle.aia_io.specs.Ends.{RoseBy};
ghost use Rattle.aia_io.specs.Tape.{after_giving, new_tape};

use std::marker::Model;

#[derive(Drop)]
pub(crate) struct Tape {
    bytes: Vec<u8>,
    at: usize,
    ends: u64,
}

impl Model for Tape {
    ghost use Rattle.std.specs.Prelude.{◌≤◌, length, drop};
    ghost use Rattle.aia_io.specs.Tape.{TapeState};

    ghost Value = { TapeState };

    ghost view = { λ t. record {
      left = drop t.at t.bytes.items;
      given = t.at;
      ends = t.ends;
    } };

    ghost invariant = { λ t. t.at ≤ length t.bytes.items };
}

impl Tape {
    pub(crate) fn new(bytes: Vec<u8>) -> Tape
        ensures { result ≡ new_tape bytes.items }
    {
        Tape {
            bytes,
            at: 0,
            ends: 0,
        }
    }

    // Moves the next bytes to the front of `buf`: as many as `most`, its room and what is left
    // allow. Where that is none, it counts an end.
    pub(crate) fn give(&mut self, buf: &mut [u8], most: usize) -> usize
        ensures count { result ≡ min (min most (length buf.old)) (length self.old.left) }
        ensures buffer { buf.new ≡ take result self.old.left ++ drop result buf.old }
        ensures rest { self.new ≡ after_giving self.old result }
        ensures counted { RoseBy result self.old.given self.new.given }
    {
        let left = &self.bytes[self.at..];
        let count = most.min(buf.len()).min(left.len());
        buf[..count].copy_from_slice(&left[..count]);
        self.at += count;
        if count == 0 {
            self.ends = self.ends.saturating_add(1);
        }
        count
    }
}
