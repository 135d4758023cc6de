ghost use Rattle.std.specs.Prelude.{◌≡◌, ◌≢◌, ℕ, ◌+◌, ◌*◌, ◌<◌, ◌≤◌, List, [], ◌∷◌, ◌++◌, take, Option, IfOk, OnOk, OnErr, Ok, Err};
ghost use Rattle.aia_io.specs.Ends.{Rose, CutOff};
ghost use Rattle.aia_model.specs.Forms.{IsListed};
ghost use Rattle.aia_model.specs.declared.line.Line.{Line};

use crate::buffered::Buffered;
use crate::engine::Engine;
use crate::pieces::{LINE, keep, line_end};
use crate::program::Status;
use crate::stop::Stop;
use aia_io::limits::PIECE_BYTES;
use aia_io::{Piece, Sink, SinkFault, Source, read_piece};
use aia_script::{Answer, Parsed, parse_line};
use arrayvec::ArrayVec;
use std::alloc::Global;

/// Answers a script that comes in pieces: the engine, the line that is being read, and the answers
/// that wait.
#[derive(Drop)]
pub struct Replayer {
    engine: Engine,
    line: ArrayVec<u8, LINE>,
    out: Buffered,
}

impl Replayer {
    ghost use Rattle.std.specs.Io.KnownBytes.{Appends};
    ghost use Rattle.aia_replay.specs.Streams.{Begins, AnswersRead, AnswersText, LacksMemory, LacksMemoryFor, WritesOut, WritesOutFront};
    ghost use Rattle.aia_replay.specs.Streams.{Feeds, FeedsFront, FeedsStop, Finishes, FinishesFront, FinishesStop, Streams, StreamsFront, StreamsStop};

    /// Makes a replayer that has read nothing.
    pub fn new() -> Replayer
        ensures { Begins result }
    {
        Replayer {
            engine: Engine::new(),
            line: ArrayVec::new(),
            out: Buffered::new(),
        }
    }

    /// Keeps a part of a line, as far as there is room.
    fn keep(&mut self, part: &[u8])
        ensures line { self.new.line.items ≡ take LINE (self.old.line.items ++ part.now) }
        ensures others { self.new ≡ record self.old { line = self.new.line } }
    {
        keep(&mut self.line, part);
    }

    /// Answers what a text reads as.
    #[inline(always)]
    fn answer<K: Sink>(&mut self, alloc: Global, sink: &mut K, read: &Parsed) -> Result<(), Stop>
        requires { (line : Line) → read.now ≡ Parsed.Line line → IsListed line }
        ensures ok { OnOk result (AnswersRead self.old self.new (K.taken sink.old)
            (K.taken sink.new) read.now) }
        ensures line { self.new.line ≡ self.old.line }
        ensures sink { result ≡ Err Stop.Sink → Rose (K.faults sink.old) (K.faults sink.new) }
        ensures cut { result ≡ Err Stop.Sink
            → CutOff (K.taken sink.old) (K.taken sink.new) self.old.out.bytes.items }
        ensures memory { result ≡ Err Stop.Memory
            → LacksMemoryFor self.old self.new (K.taken sink.old) (K.taken sink.new) read.now }
        ensures later { K.faults sink.old ≤ K.faults sink.new }
    {
        match read {
            Parsed::Line(line) => {
                let answer = self.engine.line(alloc, line)?;
                self.out.add_answer(sink, &answer)?;
            }
            Parsed::Skip => {}
            Parsed::Bad => self.out.add_answer(sink, &Answer::Bad)?,
        }
        Ok(())
    }

    /// Answers the line that was kept, and begins the next one.
    #[cold]
    #[inline(never)]
    fn answer_kept<K: Sink>(&mut self, alloc: Global, sink: &mut K) -> Result<(), Stop>
        ensures ok { OnOk result (AnswersText self.old self.new (K.taken sink.old)
            (K.taken sink.new) self.old.line.items) }
        ensures sink { result ≡ Err Stop.Sink → Rose (K.faults sink.old) (K.faults sink.new) }
        ensures cut { result ≡ Err Stop.Sink
            → CutOff (K.taken sink.old) (K.taken sink.new) self.old.out.bytes.items }
        ensures memory { result ≡ Err Stop.Memory
            → LacksMemory self.old self.new (K.taken sink.old) (K.taken sink.new)
            self.old.line.items }
        ensures later { K.faults sink.old ≤ K.faults sink.new }
    {
        let read = parse_line(self.line.as_slice());
        self.answer(alloc, sink, &read)?;
        self.line.clear();
        Ok(())
    }

    /// Answers the line that ends with `part`, and begins the next one. A line that begins with it
    /// too is read where it stands.
    fn answer_line<K: Sink>(&mut self, alloc: Global, sink: &mut K, part: &[u8]) -> Result<(), Stop>
        ensures ok { OnOk result (AnswersText self.old self.new (K.taken sink.old)
            (K.taken sink.new) (self.old.line.items ++ part.now)) }
        ensures sink { result ≡ Err Stop.Sink → Rose (K.faults sink.old) (K.faults sink.new) }
        ensures cut { result ≡ Err Stop.Sink
            → CutOff (K.taken sink.old) (K.taken sink.new) self.old.out.bytes.items }
        ensures memory { result ≡ Err Stop.Memory
            → LacksMemory self.old self.new (K.taken sink.old) (K.taken sink.new)
            (self.old.line.items ++ part.now) }
        ensures later { K.faults sink.old ≤ K.faults sink.new }
    {
        if !self.line.is_empty() {
            self.keep(part);
            return self.answer_kept(alloc, sink);
        }
        self.answer(alloc, sink, &parse_line(part))
    }

    /// Reads a piece of the script: answers each line that ends in it, and keeps what is left of
    /// the last one.
    fn feed<K: Sink>(&mut self, alloc: Global, sink: &mut K, piece: &[u8]) -> Result<(), Stop>
        ensures ok { OnOk result
            (Feeds self.old self.new (K.taken sink.old) (K.taken sink.new) piece.now) }
        ensures sink { result ≡ Err Stop.Sink → Rose (K.faults sink.old) (K.faults sink.new) }
        ensures cut { result ≡ Err Stop.Sink
            → FeedsFront self.old (K.taken sink.old) (K.taken sink.new) piece.now }
        ensures memory { result ≡ Err Stop.Memory
            → FeedsStop self.old self.new (K.taken sink.old) (K.taken sink.new) piece.now }
        ensures later { K.faults sink.old ≤ K.faults sink.new }
    {
        let mut rest = piece;
        while let Some(end) = line_end(rest) {
            self.answer_line(alloc, sink, &rest[..end])?;
            rest = &rest[end + 1..];
        }
        self.keep(rest);
        Ok(())
    }

    /// Answers a last line with no LF, where there is one, and writes all that waits.
    fn finish<K: Sink>(&mut self, alloc: Global, sink: &mut K) -> Result<(), Stop>
        ensures ok { OnOk result (Finishes self.old (K.taken sink.old) (K.taken sink.new)) }
        ensures sink { result ≡ Err Stop.Sink → Rose (K.faults sink.old) (K.faults sink.new) }
        ensures cut { result ≡ Err Stop.Sink
            → FinishesFront self.old (K.taken sink.old) (K.taken sink.new) }
        ensures memory { result ≡ Err Stop.Memory
            → FinishesStop self.old self.new (K.taken sink.old) (K.taken sink.new) }
        ensures later { K.faults sink.old ≤ K.faults sink.new }
    {
        if !self.line.is_empty() {
            self.answer_kept(alloc, sink)?;
        }
        self.write_out(sink)?;
        Ok(())
    }

    /// Reads the source to its end, or to its limit, and answers the lines that it gives. The
    /// status is `Done`, `ReadFault` or `TooLong`; `Err` is a sink that failed, or want of memory
    /// for a machine.
    pub fn read_all<S: Source, K: Sink>(
        &mut self,
        alloc: Global,
        source: &mut S,
        sink: &mut K,
    ) -> Result<Status, Stop>
        requires { Begins self.old }
        ensures ok { IfOk result (λ status. Streams status (S.supply source.old)
            (S.supply source.new) (K.taken sink.old) (K.taken sink.new)) }
        ensures ended { result ≡ Ok Status.Done
            → Rose (S.supply source.old).ends (S.supply source.new).ends }
        ensures source { result ≡ Ok Status.ReadFault
            → Rose (S.faults source.old) (S.faults source.new) }
        ensures sink { result ≡ Err Stop.Sink → Rose (K.faults sink.old) (K.faults sink.new) }
        ensures cut { result ≡ Err Stop.Sink → StreamsFront (S.supply source.old)
            (S.supply source.new) (K.taken sink.old) (K.taken sink.new) }
        ensures memory { result ≡ Err Stop.Memory → StreamsStop self.new (S.supply source.old)
            (S.supply source.new) (K.taken sink.old) (K.taken sink.new) }
        ensures later { (S.faults source.old ≤ S.faults source.new)
            × (K.faults sink.old ≤ K.faults sink.new) }
    {
        let mut piece = [0; PIECE_BYTES];
        let mut taken: usize = 0;
        loop {
            self.write_out(sink)?;
            match read_piece(source, &mut piece, taken) {
                Piece::Got(n) => {
                    self.feed(alloc, sink, &piece[..n])?;
                    taken += n;
                }
                Piece::End => {
                    self.finish(alloc, sink)?;
                    return Ok(Status::Done);
                }
                Piece::Failed => return Ok(Status::ReadFault),
                Piece::TooLong => return Ok(Status::TooLong),
            }
        }
    }

    /// Writes all answers that wait.
    pub fn write_out<K: Sink>(&mut self, sink: &mut K) -> Result<(), SinkFault>
        ensures ok { OnOk result
            (Appends (K.taken sink.old) (K.taken sink.new) self.old.out.bytes.items) }
        ensures held { OnOk result
            (WritesOut self.old self.new (K.taken sink.old) (K.taken sink.new)) }
        ensures err { OnErr result (Rose (K.faults sink.old) (K.faults sink.new)) }
        ensures cut { OnErr result
            (CutOff (K.taken sink.old) (K.taken sink.new) self.old.out.bytes.items) }
        ensures front { OnErr result
            (WritesOutFront self.old (K.taken sink.old) (K.taken sink.new)) }
        ensures later { K.faults sink.old ≤ K.faults sink.new }
    {
        self.out.write_out(sink)
    }
}
