//! A sink in memory that has so much room and fails at chosen calls.
ghost use Rattle.std.specs.Prelude.{◌≡◌, ◌<◌, ◌⊎◌, ◌↔◌, [], Some, IfOk, length};
ghost use Rattle.aia_io.specs.Calls.{FailsNext};
ghost use Rattle.aia_io.specs.Ends.{Writes, WriteHasCause};
ghost use Rattle.aia_io.specs.MemSink.{TakesMost, after_write, room_left};

use crate::sink::{Sink, Write};
use std::alloc::{AllocError, Global};
use std::marker::Model;

/// Keeps the bytes that it took, and fails at the calls whose numbers it was given and where no
/// room is left: a fake, for runs that have to meet a failure at a chosen place.
///
/// The first call has the number 1. Past u64::MAX calls the number stays there.
#[derive(Drop)]
pub struct MemSink {
    bytes: Vec<u8>,
    room: usize,
    fails: Vec<u64>,
    calls: u64,
    faults: u64,
}

impl Model for MemSink {
    ghost use Rattle.std.specs.Prelude.{◌≤◌, length, vec_capacity};
    ghost use Rattle.aia_io.specs.MemSink.{SinkState};

    ghost Value = { SinkState };

    ghost view = { λ s. record {
      taken = s.bytes.items;
      room = s.room;
      fails = s.fails.items;
      calls = s.calls;
      faults = s.faults;
    } };

    ghost invariant = { λ s. (length s.bytes.items ≤ s.room) × (s.room ≤ vec_capacity s.bytes) };
}

impl MemSink {
    /// Makes a sink that takes `room` bytes in all, 0 or more, and fails at the calls numbered in
    /// `fails`. All the memory that it ever needs is taken here. `Err`: there is none for it; when
    /// that comes no clause says.
    pub fn new(alloc: Global, room: usize, fails: Vec<u64>) -> Result<MemSink, AllocError>
        ensures { IfOk result (λ sink. sink ≡ record {
          taken = [];
          room = room;
          fails = fails.items;
          calls = 0;
          faults = 0;
        }) }
    {
        let bytes = Vec::with_capacity(alloc, room)?;
        Ok(MemSink {
            bytes,
            room,
            fails,
            calls: 0,
            faults: 0,
        })
    }

    /// Gives the bytes that it took, in order.
    pub fn bytes(&self) -> &[u8]
        ensures { result.now ≡ self.now.taken }
    {
        &self.bytes
    }

    /// Gives the number of calls that failed, up to u64::MAX, where the count stays.
    pub fn faults(&self) -> u64
        ensures { result ≡ self.now.faults }
    {
        self.faults
    }
}

impl Sink for MemSink {
    ghost taken = { λ s. Some s.taken };

    ghost faults = { λ s. s.faults };

    /// Takes as many of `bytes`, at least one, as it has room for. `Failed` comes exactly at the
    /// calls listed and where no room is left; then none is taken, and a fault is counted.
    fn write(&mut self, bytes: &[u8]) -> Write
        requires { 0 < length bytes.now }
        ensures bytes { Writes (Some self.old.taken) (Some self.new.taken) bytes.now result }
        ensures cause { WriteHasCause self.old.faults self.new.faults result }
        ensures failed { (result ≡ Write.Failed)
            ↔ (FailsNext self.old.fails self.old.calls ⊎ (room_left self.old ≡ 0)) }
        ensures most { TakesMost self.old bytes.now result }
        ensures after { self.new ≡ after_write self.old bytes.now result }
    {
        self.calls = self.calls.saturating_add(1);
        let room = self.room - self.bytes.len();
        if room == 0 || self.fails.contains(&self.calls) {
            self.faults = self.faults.saturating_add(1);
            return Write::Failed;
        }
        let count = bytes.len().min(room);
        match self.bytes.extend_from_slice(&bytes[..count]) {
            Ok(()) => Write::Took(count),
            Err(_) => unreachable!(),
        }
    }
}
