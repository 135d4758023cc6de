//! Each end, called through its bound as the code above does.
ghost use Rattle.std.specs.Prelude.{◌≡◌, ◌<◌, length, take, IfOk};
ghost use Rattle.std.specs.Io.KnownBytes.{Appends};
ghost use Rattle.aia_io.specs.Ends.{Gives, Rose};

use crate::same;
use aia_io::{
    MemSink, MemSource, QuietSink, QuietSource, Read, Sink, Source, StdSink, StdSource, Write,
};
use std::alloc::{AllocError, Global};
use std::io;
use std::test::Fail;

// What so many reads gave, failures passed over.
fn bytes_of<S: Source>(alloc: Global, source: &mut S, calls: u32) -> Result<Vec<u8>, AllocError>
    ensures { IfOk result (λ v. Gives (S.supply source.old) (S.supply source.new) v.items) }
{
    let mut bytes = Vec::new(alloc);
    let mut buf = [0; 4];
    for _ in 0..calls {
        if let Read::Got(count) = source.read(&mut buf) {
            bytes.extend_from_slice(&buf[..count])?;
        }
    }
    Ok(bytes)
}

// One write, and how many bytes it took.
fn put<K: Sink>(sink: &mut K, bytes: &[u8]) -> usize
    requires { 0 < length bytes.now }
    ensures bytes { Appends (K.taken sink.old) (K.taken sink.new) (take result bytes.now) }
    ensures cause { result ≡ 0 → Rose (K.faults sink.old) (K.faults sink.new) }
{
    match sink.write(bytes) {
        Write::Took(count) => count,
        Write::Failed => 0,
    }
}

// The same calls, and one read and one write, with no clause: a test knows nothing of them.
fn gives<S: Source>(alloc: Global, source: &mut S, calls: u32) -> Result<Vec<u8>, AllocError> {
    bytes_of(alloc, source, calls)
}

fn takes<K: Sink>(sink: &mut K, bytes: &[u8]) -> usize
    requires { 0 < length bytes.now }
{
    put(sink, bytes)
}

fn reads<S: Source>(source: &mut S, buf: &mut [u8]) -> Read
    requires { 0 < length buf.old }
{
    source.read(buf)
}

fn writes<K: Sink>(sink: &mut K, bytes: &[u8]) -> Write
    requires { 0 < length bytes.now }
{
    sink.write(bytes)
}

#[test]
fn a_source_in_memory_fails_at_the_calls_listed(rt: HostRuntime) -> Result<(), Fail> {
    let alloc = rt.alloc();
    let bytes = Vec::from_slice(alloc, b"abcdefg")?;
    let mut source = MemSource::new(bytes, 3, vec![in alloc; 2, 5]?);
    let mut buf = [0; 8];
    same!(rt; reads(&mut source, &mut buf), Read::Got(3));
    same!(rt; buf.as_slice(), b"abc\0\0\0\0\0".as_slice());
    same!(rt; reads(&mut source, &mut buf), Read::Failed);
    same!(rt; source.faults(), 1);
    same!(rt; gives(alloc, &mut source, 2)?.as_slice(), b"defg".as_slice());
    same!(rt; reads(&mut source, &mut buf), Read::Failed);
    same!(rt; reads(&mut source, &mut buf), Read::End);
    same!(rt; source.faults(), 2);
    Ok(())
}

#[test]
fn a_sink_in_memory_fails_at_the_calls_listed_and_when_full(rt: HostRuntime) -> Result<(), Fail> {
    let alloc = rt.alloc();
    let mut sink = MemSink::new(alloc, 5, vec![in alloc; 2]?)?;
    same!(rt; takes(&mut sink, b"abc"), 3);
    same!(rt; writes(&mut sink, b"def"), Write::Failed);
    same!(rt; takes(&mut sink, b"def"), 2);
    same!(rt; takes(&mut sink, b"f"), 0);
    same!(rt; sink.bytes(), b"abcde".as_slice());
    same!(rt; sink.faults(), 2);
    Ok(())
}

#[test]
fn the_quiet_ends_give_and_count_all(rt: HostRuntime) -> Result<(), Fail> {
    let alloc = rt.alloc();
    let mut source = QuietSource::new(Vec::from_slice(alloc, b"abcdef")?);
    same!(rt; gives(alloc, &mut source, 2)?.as_slice(), b"abcdef".as_slice());
    same!(rt; reads(&mut source, &mut [0]), Read::End);
    let mut sink = QuietSink::new();
    same!(rt; takes(&mut sink, b"abc"), 3);
    same!(rt; takes(&mut sink, b"de"), 2);
    same!(rt; sink.count(), 5);
    Ok(())
}

// A reader of nothing, whose first read is interrupted.
#[derive(Drop)]
struct Interrupted {
    done: bool,
}

impl io::Read for Interrupted {
    fn read(&mut self, _buf: &mut [u8]) -> io::Result<usize> {
        if self.done {
            return Ok(0);
        }
        self.done = true;
        Err(io::Error::from(io::ErrorKind::Interrupted))
    }
}

#[test]
fn a_reader_is_passed_on(rt: HostRuntime) -> Result<(), Fail> {
    let mut source = StdSource::new(b"abcdef".as_slice());
    same!(rt; gives(rt.alloc(), &mut source, 2)?.as_slice(), b"abcdef".as_slice());
    same!(rt; reads(&mut source, &mut [0]), Read::End);
    let mut interrupted = StdSource::new(Interrupted { done: false });
    same!(rt; reads(&mut interrupted, &mut [0]), Read::Failed);
    same!(rt; reads(&mut interrupted, &mut [0]), Read::End);
    Ok(())
}

// A writer that holds what it was last given until it is flushed, which fails beyond four bytes.
#[derive(Drop)]
struct Holding<'a> {
    held: usize,
    out: &'a mut usize,
}

impl io::Write for Holding<'_> {
    fn write(&mut self, buf: &[u8]) -> io::Result<usize> {
        self.held = buf.len();
        Ok(buf.len())
    }

    fn flush(&mut self) -> io::Result<()> {
        if self.held > 4 {
            return Err(io::Error::from(io::ErrorKind::Interrupted));
        }
        *self.out = self.held;
        Ok(())
    }
}

#[test]
fn a_writer_is_given_what_is_taken(rt: HostRuntime) -> Result<(), Fail> {
    let mut out = [0; 5];
    let mut sink = StdSink::new(out.as_mut_slice());
    same!(rt; takes(&mut sink, b"abc"), 3);
    same!(rt; takes(&mut sink, b"def"), 2);
    same!(rt; writes(&mut sink, b"f"), Write::Failed);
    same!(rt; out.as_slice(), b"abcde".as_slice());
    Ok(())
}

#[test]
fn a_writer_is_flushed(rt: HostRuntime) {
    let mut flushed = 0;
    let mut sink = StdSink::new(Holding {
        held: 0,
        out: &mut flushed,
    });
    same!(rt; takes(&mut sink, b"abc"), 3);
    same!(rt; writes(&mut sink, b"defgh"), Write::Failed);
    same!(rt; flushed, 3);
}
