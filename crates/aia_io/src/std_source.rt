//! The standard library's readers as sources.
ghost use Rattle.std.specs.Prelude.{◌≡◌, ◌<◌, None, Ok, length, IfOk, OnErr};

use crate::source::{Read, Source};
use std::io;

/// A reader of the outside world. It does not tell its bytes; it counts those that it gave, the
/// reader's ends and its errors.
#[derive(Drop)]
pub struct StdSource<R> {
    reader: R,
    given: u64,
    ends: u64,
    faults: u64,
}

impl<R: io::Read> StdSource<R> {
    ghost use Rattle.aia_io.specs.Ends.{RoseBy, ReadHasCause};
    ghost use Rattle.aia_io.specs.StdSource.{reader_of, bytes_given, ends_told, source_faults, ReadCounts, EndCounts};

    /// Makes a source that gives what `reader` gives, and has counted no byte, no end and no fault
    /// yet.
    pub fn new(reader: R) -> StdSource<R>
        ensures reader { reader_of result ≡ reader }
        ensures given { bytes_given result ≡ 0 }
        ensures ends { ends_told result ≡ 0 }
        ensures faults { source_faults result ≡ 0 }
    {
        StdSource {
            reader,
            given: 0,
            ends: 0,
            faults: 0,
        }
    }

    // Answers what the reader answered: no byte is the end, and an error is a fault.
    fn tell(&mut self, answer: io::Result<usize>) -> Read
        ensures end { answer ≡ Ok 0 → result ≡ Read.End }
        ensures got { IfOk answer (λ count. 0 < count → result ≡ Read.Got count) }
        ensures failed { OnErr answer (result ≡ Read.Failed) }
        ensures given { IfOk answer
            (λ count. RoseBy count (bytes_given self.old) (bytes_given self.new)) }
        ensures no_more { OnErr answer (bytes_given self.new ≡ bytes_given self.old) }
        ensures ends { EndCounts (ends_told self.old) (ends_told self.new) result }
        ensures counted { ReadCounts (source_faults self.old) (source_faults self.new) result }
        ensures cause { ReadHasCause (source_faults self.old) (source_faults self.new) result }
        ensures reader { reader_of self.new ≡ reader_of self.old }
    {
        match answer {
            Ok(0) => {
                self.ends = self.ends.saturating_add(1);
                Read::End
            }
            Ok(count) => {
                self.given = self.given.saturating_add(count as u64);
                Read::Got(count)
            }
            Err(_) => {
                self.faults = self.faults.saturating_add(1);
                Read::Failed
            }
        }
    }
}

impl<R: io::Read> Source for StdSource<R> {
    ghost use Rattle.aia_io.specs.Ends.{Reads, ReadHasCause};
    ghost use Rattle.aia_io.specs.StdSource.{reader_of, ends_told, source_supply, source_faults, ReadCounts, EndCounts};

    ghost supply = { source_supply None };

    ghost faults = { source_faults };

    /// Reads once from the reader, and counts the bytes that it gave. A read of nothing is `End`
    /// and an end, and every error, an interrupted read too, is `Failed` and a fault. That it reads
    /// once, and which answer of the reader becomes which, no clause says.
    fn read(&mut self, buf: &mut [u8]) -> Read
        requires { 0 < length buf.old }
        ensures bytes { Reads (source_supply None self.old) (source_supply None self.new)
            buf.new result }
        ensures cause { ReadHasCause (source_faults self.old) (source_faults self.new) result }
        ensures counted { ReadCounts (source_faults self.old) (source_faults self.new) result }
        ensures ends { EndCounts (ends_told self.old) (ends_told self.new) result }
        ensures passed { Reads (source_supply (R.remaining (reader_of self.old)) self.old)
            (source_supply (R.remaining (reader_of self.new)) self.new) buf.new result }
    {
        let answer = self.reader.read(buf);
        self.tell(answer)
    }
}
