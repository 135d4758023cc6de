//! Bytes are written to a sink.

ghost use Rattle.std.specs.Prelude.{◌≤◌, OnOk, OnErr, length};
ghost use Rattle.std.specs.Io.KnownBytes.{Appends};
ghost use Rattle.aia_io.specs.Ends.{Rose, CutOff};

use crate::sink::{Sink, Write};

/// The sink failed, and its count of faults rose.
#[derive(Clone, Copy, Debug, PartialEq, Eq)]
pub struct SinkFault;

/// Writes all the bytes. `Err`: the sink failed, and took a front of them.
pub fn write_all<K: Sink>(sink: &mut K, bytes: &[u8]) -> Result<(), SinkFault>
    ensures ok { OnOk result (Appends (K.taken sink.old) (K.taken sink.new) bytes.now) }
    ensures err { OnErr result (Rose (K.faults sink.old) (K.faults sink.new)) }
    ensures cut { OnErr result (CutOff (K.taken sink.old) (K.taken sink.new) bytes.now) }
    ensures later { K.faults sink.old ≤ K.faults sink.new }
{
    let mut at = 0;
    while at < bytes.len() {
        match sink.write(&bytes[at..]) {
            Write::Took(n) => at += n,
            Write::Failed => return Err(SinkFault),
        }
    }
    Ok(())
}
