//! A run of `audit`: a plan is read to its end, and judged.

ghost use Rattle.std.specs.Prelude.{◌≡◌, ◌≢◌, ◌≤◌, ℕ, [], ◌++◌, Some};
ghost use Rattle.aia_io.specs.Ends.{Rose};
ghost use Rattle.aia_plan.specs.Plan.{IsWidth};
ghost use Rattle.aia_audit.specs.PlanText.{with_text};
ghost use Rattle.aia_replay.specs.Plans.{AreInside, BeginsPlan, FeedsPlan, FinishesPlan, StreamsPlan, plan_read};
ghost use Rattle.aia_replay.specs.Runs.{RunEnds};

use crate::pieces::{LINE, keep, line_end};
use crate::plan_so_far::PlanSoFar;
use crate::program::Status;
use aia_audit::Kind;
use aia_command::Subcommand;
use aia_io::limits::PIECE_BYTES;
use aia_io::{Piece, Sink, Source, read_piece, write_all};
use arrayvec::ArrayVec;

/// Reads a plan that comes in pieces: the plan so far, and the line that is being read.
#[derive(Drop)]
pub struct PlanReader {
    plan: PlanSoFar,
    line: ArrayVec<u8, LINE>,
}

impl PlanReader {
    /// Makes a reader of a plan of which nothing was read.
    fn new(words: u32) -> PlanReader
        ensures { BeginsPlan result words }
    {
        PlanReader {
            plan: PlanSoFar::new(words),
            line: ArrayVec::new(),
        }
    }

    /// Reads the line that was kept, and begins the next one.
    fn read_kept(&mut self)
        requires { AreInside self.old.plan }
        ensures read { plan_read self.new.plan
            ≡ with_text self.old.plan.words (plan_read self.old.plan) self.old.line.items }
        ensures empty { self.new.line.items ≡ [] }
        ensures inside { AreInside self.new.plan }
        ensures words { self.new.plan.words ≡ self.old.plan.words }
    {
        self.plan.add_text(self.line.as_slice());
        self.line.clear();
    }

    /// Reads the line that ends with `part`, and begins the next one.
    fn read_line(&mut self, part: &[u8])
        requires { AreInside self.old.plan }
        ensures read { plan_read self.new.plan ≡ with_text self.old.plan.words
            (plan_read self.old.plan) (self.old.line.items ++ part.now) }
        ensures empty { self.new.line.items ≡ [] }
        ensures inside { AreInside self.new.plan }
        ensures words { self.new.plan.words ≡ self.old.plan.words }
    {
        if self.line.is_empty() {
            self.plan.add_text(part);
        } else {
            keep(&mut self.line, part);
            self.read_kept();
        }
    }

    /// Reads a piece of the plan: each line that ends in it; and keeps what is left of the last.
    fn feed(&mut self, piece: &[u8])
        requires { AreInside self.old.plan }
        ensures feeds { FeedsPlan self.old self.new piece.now }
        ensures inside { AreInside self.new.plan }
    {
        let mut rest = piece;
        while let Some(end) = line_end(rest) {
            self.read_line(&rest[..end]);
            rest = &rest[end + 1..];
        }
        keep(&mut self.line, rest);
    }

    /// Reads a last line with no LF, where there is one.
    fn finish(&mut self)
        requires { AreInside self.old.plan }
        ensures finishes { FinishesPlan self.old self.new }
        ensures inside { AreInside self.new.plan }
    {
        if !self.line.is_empty() {
            self.read_kept();
        }
    }

    /// Reads the source to its end, or to its limit: `Done`, `ReadFault` or `TooLong`.
    fn read_all<S: Source>(&mut self, source: &mut S) -> Status
        requires { BeginsPlan self.old self.old.plan.words }
        ensures streams { StreamsPlan result self.old.plan.words (plan_read self.new.plan)
            (S.supply source.old) (S.supply source.new) }
        ensures ended { result ≡ Status.Done
            → Rose (S.supply source.old).ends (S.supply source.new).ends }
        ensures fault { result ≡ Status.ReadFault
            → Rose (S.faults source.old) (S.faults source.new) }
        ensures later { S.faults source.old ≤ S.faults source.new }
        ensures inside { AreInside self.new.plan }
        ensures words { self.new.plan.words ≡ self.old.plan.words }
    {
        let mut piece = [0; PIECE_BYTES];
        let mut taken: usize = 0;
        loop {
            match read_piece(source, &mut piece, taken) {
                Piece::Got(n) => {
                    self.feed(&piece[..n]);
                    taken += n;
                }
                Piece::End => {
                    self.finish();
                    return Status::Done;
                }
                Piece::Failed => return Status::ReadFault,
                Piece::TooLong => return Status::TooLong,
            }
        }
    }
}

/// Judges the plan of a move of a kind that the source gives, of files of so many words, and writes
/// the answer.
pub fn audit_plan<S: Source, K: Sink>(
    kind: Kind,
    words: u32,
    source: &mut S,
    sink: &mut K,
) -> Status
    requires { IsWidth words }
    ensures usage { result ≢ Status.Usage }
    ensures memory { result ≢ Status.Memory }
    ensures ends { RunEnds (Some (Subcommand.Audit kind words)) result (S.supply source.old)
        (S.supply source.new) (K.taken sink.old) (K.taken sink.new) (S.faults source.old)
        (S.faults source.new) (K.faults sink.old) (K.faults sink.new) }
{
    let mut reader = PlanReader::new(words);
    let status = reader.read_all(source);
    if status != Status::Done {
        return status;
    }
    match write_all(sink, reader.plan.answer(kind).as_slice()) {
        Ok(()) => Status::Done,
        Err(_) => Status::WriteFault,
    }
}
