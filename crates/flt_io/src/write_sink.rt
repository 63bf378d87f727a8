ghost use Rattle.std.specs.Prelude.{◌≡◌, ◌<◌, length, is_err, IfOk, OnOk, OnErr, if◌then◌else◌};
ghost use Rattle.std.specs.Io.{WritesAtMost};
ghost use Rattle.std.specs.Io.KnownBytes.{Appends, Keeps, WriteAppends};
ghost use Rattle.flt_io.specs.Fault.{HasCause, one_more};
ghost use Rattle.flt_io.specs.Sink.{AppendsFront};

use crate::TRIES;
use crate::stream::{Failed, Sink};
use std::io::{ErrorKind, Write};

/// A sink over any writer. It reveals what it holds if the writer does.
///
/// A write that was interrupted is made again, at most 16 times in all. Every other error, the last interruption and a write of no
/// byte are faults.
#[derive(Debug, Drop)]
pub struct WriteSink<W> {
    inner: W,
    faults: u64,
}

impl<W> WriteSink<W> {
    ghost use Rattle.flt_io.specs.Stream.{writer_of, write_faults};

    /// A sink over this writer, without a fault so far.
    #[must_use]
    pub fn new(inner: W) -> WriteSink<W>
        ensures writer { writer_of result ≡ inner }
        ensures sound { write_faults result ≡ 0 }
    {
        WriteSink { inner, faults: 0 }
    }

    /// The writer, as the pushes left it.
    #[must_use]
    pub fn into_inner(self) -> W
        ensures { result ≡ writer_of self }
    {
        self.inner
    }
}

impl<W: Write> WriteSink<W> {
    ghost use Rattle.flt_io.specs.Stream.{writer_of, write_faults};

    /// Has the writer write what it keeps back.
    ///
    /// # Errors
    ///
    /// `Failed` only where the count of faults rose. What the writer kept back may be lost, or a part of it.
    pub fn flush(&mut self) -> Result<(), Failed>
        ensures bytes { Keeps (W.contents (writer_of self.old)) (W.contents (writer_of self.new)) }
        ensures cause { HasCause (write_faults self.old) (write_faults self.new) result }
        ensures counted { write_faults self.new ≡ (if is_err result then one_more (write_faults self.old) else write_faults self.old) }
    {
        match self.inner.flush() {
            Ok(()) => Ok(()),
            Err(_) => {
                self.faults = self.faults.saturating_add(1);
                Err(Failed)
            }
        }
    }

    /// Writes a prefix of a piece that is not empty, at least one byte, and returns how many.
    #[inline(always)]
    fn write_front(&mut self, piece: &[u8]) -> Result<usize, Failed>
        requires { 0 < length piece.now }
        ensures some { IfOk result (λ n. 0 < n) }
        ensures bound { WritesAtMost result piece.now }
        ensures bytes { WriteAppends (W.contents (writer_of self.old)) (W.contents (writer_of self.new)) result piece.now }
        ensures counted { write_faults self.new ≡ (if is_err result then one_more (write_faults self.old) else write_faults self.old) }
    {
        for _ in 0..TRIES {
            match self.inner.write(piece) {
                Ok(0) => break,
                Ok(count) => return Ok(count),
                Err(error) if error.kind() == ErrorKind::Interrupted => {}
                Err(_) => break,
            }
        }
        self.faults = self.faults.saturating_add(1);
        Err(Failed)
    }
}

impl<W: Write> Sink for WriteSink<W> {
    ghost use Rattle.flt_io.specs.Stream.{writer_of, write_faults};

    ghost held = { λ s. W.contents (writer_of s) };

    ghost faults = { λ s. write_faults s };

    fn push(&mut self, piece: &[u8]) -> Result<(), Failed>
        ensures ok { OnOk result (Appends (W.contents (writer_of self.old)) (W.contents (writer_of self.new)) piece.now) }
        ensures err { OnErr result (AppendsFront (W.contents (writer_of self.old)) (W.contents (writer_of self.new)) piece.now) }
        ensures cause { HasCause (write_faults self.old) (write_faults self.new) result }
        ensures counted { write_faults self.new ≡ (if is_err result then one_more (write_faults self.old) else write_faults self.old) }
    {
        let mut sent = 0;
        while sent < piece.len() {
            sent += self.write_front(&piece[sent..])?;
        }
        Ok(())
    }
}
