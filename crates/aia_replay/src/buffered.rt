ghost use Rattle.std.specs.Prelude.{◌≡◌, ◌≤◌, [], length, OnOk, OnErr};
ghost use Rattle.std.specs.Io.KnownBytes.{Appends};
ghost use Rattle.aia_io.specs.Ends.{Rose, CutOff};
ghost use Rattle.aia_model.specs.Answer.{answer_text};
ghost use Rattle.aia_replay.specs.Buffered.{Gathers};

use crate::limits::BUFFER_BYTES;
use aia_io::{Sink, SinkFault, write_all};
use aia_model::limits::ANSWER_BYTES;
use aia_script::{Answer, print_answer, push_answer};
use arrayvec::ArrayVec;

/// Answers on their way to a sink, at most [`BUFFER_BYTES`] bytes at a time.
#[derive(Drop)]
pub struct Buffered {
    bytes: ArrayVec<u8, BUFFER_BYTES>,
}

impl Buffered {
    /// Makes a buffer with no bytes waiting.
    pub fn new() -> Buffered
        ensures { result.bytes.items ≡ [] }
    {
        Buffered {
            bytes: ArrayVec::new(),
        }
    }

    /// Adds bytes; where they don't fit, those that wait are written first.
    fn add<K: Sink>(&mut self, sink: &mut K, bytes: &[u8]) -> Result<(), SinkFault>
        requires { length bytes.now ≤ BUFFER_BYTES }
        ensures ok { OnOk result (Gathers self.old.bytes.items self.new.bytes.items
            (K.taken sink.old) (K.taken sink.new) bytes.now) }
        ensures err { OnErr result (Rose (K.faults sink.old) (K.faults sink.new)) }
        ensures cut { OnErr result
            (CutOff (K.taken sink.old) (K.taken sink.new) self.old.bytes.items) }
        ensures later { K.faults sink.old ≤ K.faults sink.new }
    {
        if self.bytes.try_extend_from_slice(bytes).is_err() {
            self.write_out(sink)?;
            let _ = self.bytes.try_extend_from_slice(bytes);
        }
        Ok(())
    }

    /// Adds an answer, with its LF.
    pub fn add_answer<K: Sink>(&mut self, sink: &mut K, answer: &Answer) -> Result<(), SinkFault>
        ensures ok { OnOk result (Gathers self.old.bytes.items self.new.bytes.items
            (K.taken sink.old) (K.taken sink.new) (answer_text answer.now)) }
        ensures err { OnErr result (Rose (K.faults sink.old) (K.faults sink.new)) }
        ensures cut { OnErr result
            (CutOff (K.taken sink.old) (K.taken sink.new) self.old.bytes.items) }
        ensures later { K.faults sink.old ≤ K.faults sink.new }
    {
        if self.bytes.remaining_capacity() < ANSWER_BYTES {
            return self.add_last(sink, answer);
        }
        push_answer(&mut self.bytes, answer);
        Ok(())
    }

    /// Adds an answer, with its LF, for which there may be no room.
    #[cold]
    #[inline(never)]
    fn add_last<K: Sink>(&mut self, sink: &mut K, answer: &Answer) -> Result<(), SinkFault>
        ensures ok { OnOk result (Gathers self.old.bytes.items self.new.bytes.items
            (K.taken sink.old) (K.taken sink.new) (answer_text answer.now)) }
        ensures err { OnErr result (Rose (K.faults sink.old) (K.faults sink.new)) }
        ensures cut { OnErr result
            (CutOff (K.taken sink.old) (K.taken sink.new) self.old.bytes.items) }
        ensures later { K.faults sink.old ≤ K.faults sink.new }
    {
        let mut text = ArrayVec::new();
        print_answer(answer, &mut text);
        self.add(sink, text.as_slice())
    }

    /// Writes all bytes that wait.
    pub fn write_out<K: Sink>(&mut self, sink: &mut K) -> Result<(), SinkFault>
        ensures ok { OnOk result
            (Appends (K.taken sink.old) (K.taken sink.new) self.old.bytes.items) }
        ensures empty { OnOk result (self.new.bytes.items ≡ []) }
        ensures err { OnErr result (Rose (K.faults sink.old) (K.faults sink.new)) }
        ensures cut { OnErr result
            (CutOff (K.taken sink.old) (K.taken sink.new) self.old.bytes.items) }
        ensures later { K.faults sink.old ≤ K.faults sink.new }
    {
        write_all(sink, self.bytes.as_slice())?;
        self.bytes.clear();
        Ok(())
    }
}
