ghost use Rattle.std.specs.Prelude.{◌≡◌, is_err, if◌then◌else◌};
ghost use Rattle.std.specs.Io.{ReadsAtMost};
ghost use Rattle.std.specs.Io.KnownBytes.{ReadConsumes};
ghost use Rattle.flt_io.specs.Fault.{HasCause, one_more};

use crate::TRIES;
use crate::stream::{Failed, Source};
use std::io::{ErrorKind, Read};

/// A source over any reader. It reveals what is left if the reader does.
///
/// A read that was interrupted is made again, at most 16 times in all. Every other error, and the last interruption, is a fault.
#[derive(Debug, Drop)]
pub struct ReadSource<R> {
    inner: R,
    faults: u64,
}

impl<R> ReadSource<R> {
    ghost use Rattle.flt_io.specs.Stream.{reader_of, read_faults};

    /// A source over this reader, without a fault so far.
    #[must_use]
    pub fn new(inner: R) -> ReadSource<R>
        ensures reader { reader_of result ≡ inner }
        ensures sound { read_faults result ≡ 0 }
    {
        ReadSource { inner, faults: 0 }
    }
}

impl<R: Read> Source for ReadSource<R> {
    ghost use Rattle.flt_io.specs.Stream.{reader_of, read_faults};

    ghost left = { λ s. R.remaining (reader_of s) };

    ghost faults = { λ s. read_faults s };

    fn pull(&mut self, out: &mut [u8]) -> Result<usize, Failed>
        ensures bound { ReadsAtMost result out.new }
        ensures bytes { ReadConsumes (R.remaining (reader_of self.old)) (R.remaining (reader_of self.new)) result out.new }
        ensures cause { HasCause (read_faults self.old) (read_faults self.new) result }
        ensures counted { read_faults self.new ≡ (if is_err result then one_more (read_faults self.old) else read_faults self.old) }
    {
        for _ in 0..TRIES {
            match self.inner.read(out) {
                Ok(count) => return Ok(count),
                Err(error) if error.kind() == ErrorKind::Interrupted => {}
                Err(_) => break,
            }
        }
        self.faults = self.faults.saturating_add(1);
        Err(Failed)
    }
}
