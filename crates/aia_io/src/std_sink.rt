//! The standard library's writers as sinks.
ghost use Rattle.std.specs.Prelude.{◌≡◌, ◌<◌, None, Ok, length, IfOk, OnErr, OnOk};

use crate::sink::{Sink, Write};
use std::io;

/// A writer of the outside world. It tells nothing of its bytes, and counts the writer's errors.
#[derive(Drop)]
pub struct StdSink<W> {
    writer: W,
    faults: u64,
}

impl<W: io::Write> StdSink<W> {
    ghost use Rattle.aia_io.specs.Ends.{WriteHasCause};
    ghost use Rattle.aia_io.specs.StdSink.{writer_of, sink_faults, WriteCounts};

    /// Makes a sink that gives `writer` what it takes, and has no fault yet.
    pub fn new(writer: W) -> StdSink<W>
        ensures writer { writer_of result ≡ writer }
        ensures faults { sink_faults result ≡ 0 }
    {
        StdSink { writer, faults: 0 }
    }

    // Answers what the writer answered to a write, and to the flush after it: a write that takes
    // nothing is a fault, and so is an error of either.
    fn tell(&mut self, written: io::Result<usize>, flushed: io::Result<()>) -> Write
        ensures took { OnOk flushed
            (IfOk written (λ count. 0 < count → result ≡ Write.Took count)) }
        ensures nothing { written ≡ Ok 0 → result ≡ Write.Failed }
        ensures unwritten { OnErr written (result ≡ Write.Failed) }
        ensures unflushed { OnErr flushed (result ≡ Write.Failed) }
        ensures counted { WriteCounts (sink_faults self.old) (sink_faults self.new) result }
        ensures cause { WriteHasCause (sink_faults self.old) (sink_faults self.new) result }
        ensures writer { writer_of self.new ≡ writer_of self.old }
    {
        if let Ok(count) = written
            && count > 0
            && flushed.is_ok()
        {
            return Write::Took(count);
        }
        self.faults = self.faults.saturating_add(1);
        Write::Failed
    }
}

impl<W: io::Write> Sink for StdSink<W> {
    ghost use Rattle.aia_io.specs.Ends.{Writes, WriteHasCause};
    ghost use Rattle.aia_io.specs.StdSink.{writer_of, sink_faults, WriteCounts, PutsFront};

    ghost taken = { λ _. None };

    ghost faults = { sink_faults };

    /// Writes once to the writer, and flushes it, so that what a writer keeps in a buffer goes out.
    /// An error of either is `Failed` and a fault, and so is a write that takes nothing. After
    /// `Failed` some of the bytes may stand in the writer, from the front. That it writes once and
    /// flushes, and what becomes `Failed`, no clause says.
    fn write(&mut self, bytes: &[u8]) -> Write
        requires { 0 < length bytes.now }
        ensures bytes { Writes None None bytes.now result }
        ensures cause { WriteHasCause (sink_faults self.old) (sink_faults self.new) result }
        ensures counted { WriteCounts (sink_faults self.old) (sink_faults self.new) result }
        ensures passed { PutsFront (W.contents (writer_of self.old))
            (W.contents (writer_of self.new)) bytes.now result }
    {
        let written = self.writer.write(bytes);
        let flushed = match written {
            Ok(_) => self.writer.flush(),
            Err(_) => Ok(()),
        };
        self.tell(written, flushed)
    }
}
