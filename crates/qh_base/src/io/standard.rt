ghost use Rattle.std.specs.Prelude.{◌≡◌, ◌<◌, ◌≤◌, length, take, is_err, None, IfOk, OnErr};
ghost use Rattle.std.specs.Io.KnownBytes.{Appends, Consumes, IsAtEnd, Keeps, ReadConsumes, WriteAppends};
ghost use Rattle.qh_spec.specs.Fault.{CountsFaults};
ghost use Rattle.qh_base.specs.Io.{moves_none};
ghost use Rattle.qh_base.specs.Standard.{reader_of, writer_of};

use super::{Failed, Sink, Source};
use std::io::{ErrorKind, Read, Write};

/// A source over std's readers. It tells no bytes, and counts each error but an interruption, after which it reads
/// again.
#[derive(Drop)]
pub struct StdSource<R> {
    inner: R,
    faults: u64,
}

impl<R> StdSource<R> {
    /// A source that has not failed yet.
    pub fn new(inner: R) -> StdSource<R>
        ensures reader { reader_of result ≡ inner }
        ensures faults { result.faults ≡ 0 }
    {
        StdSource { inner, faults: 0 }
    }
}

impl<R: Read> Source for StdSource<R> {
    ghost left = { λ _. None };

    ghost faults = { λ s. s.faults };

    /// Reads from the reader and hands on what its contract tells. No clause says when a call fails.
    fn read(&mut self, buf: &mut [u8]) -> Result<usize, Failed>
        ensures fits { IfOk result (λ n. n ≤ length buf.new) }
        ensures reader { ReadConsumes (R.remaining (reader_of self.old)) (R.remaining (reader_of self.new)) result buf.new }
        ensures cause { CountsFaults self.old.faults self.new.faults (is_err result) }
    {
        let read = read_uninterrupted(&mut self.inner, buf);
        if read.is_err() {
            self.faults = self.faults.saturating_add(1);
        }
        read
    }
}

// Reads until that isn't interrupted.
fn read_uninterrupted<R: Read>(inner: &mut R, buf: &mut [u8]) -> Result<usize, Failed>
    ensures fits { IfOk result (λ n. n ≤ length buf.new) }
    ensures consumes { ReadConsumes (R.remaining inner.old) (R.remaining inner.new) result buf.new }
{
    for _try in 0..u64::MAX {
        match inner.read(buf) {
            Ok(n) => return Ok(n),
            Err(error) if error.kind() == ErrorKind::Interrupted => {}
            Err(_) => return Err(Failed),
        }
    }
    Err(Failed)
}

/// A sink over std's writers. It tells no bytes, and counts each error but an interruption, after which it writes
/// again, and each write of nothing.
#[derive(Drop)]
pub struct StdSink<W> {
    inner: W,
    faults: u64,
}

impl<W> StdSink<W> {
    /// A sink that has not failed yet.
    pub fn new(inner: W) -> StdSink<W>
        ensures writer { writer_of result ≡ inner }
        ensures faults { result.faults ≡ 0 }
    {
        StdSink { inner, faults: 0 }
    }
}

impl<W: Write> Sink for StdSink<W> {
    ghost written = { λ _. None };

    ghost faults = { λ s. s.faults };

    /// Writes to the writer and hands on what its contract tells. No clause says when a call fails or writes nothing.
    fn write(&mut self, piece: &[u8]) -> Result<usize, Failed>
        ensures fits { IfOk result (λ n. n ≤ length piece.now) }
        ensures writer { WriteAppends (W.contents (writer_of self.old)) (W.contents (writer_of self.new)) result piece.now }
        ensures cause { CountsFaults self.old.faults self.new.faults (moves_none (length piece.now) result) }
    {
        let written = write_uninterrupted(&mut self.inner, piece);
        if written.is_err() || (written == Ok(0) && !piece.is_empty()) {
            self.faults = self.faults.saturating_add(1);
        }
        written
    }
}

// Writes until that isn't interrupted.
fn write_uninterrupted<W: Write>(inner: &mut W, piece: &[u8]) -> Result<usize, Failed>
    ensures fits { IfOk result (λ n. n ≤ length piece.now) }
    ensures appends { WriteAppends (W.contents inner.old) (W.contents inner.new) result piece.now }
{
    for _try in 0..u64::MAX {
        match inner.write(piece) {
            Ok(n) => return Ok(n),
            Err(error) if error.kind() == ErrorKind::Interrupted => {}
            Err(_) => return Err(Failed),
        }
    }
    Err(Failed)
}
