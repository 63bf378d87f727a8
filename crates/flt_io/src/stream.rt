ghost use Rattle.std.specs.Prelude.{◌≡◌, ℕ, ◌<◌, List, Option, length, OnOk, OnErr};
ghost use Rattle.std.specs.Io.{ReadsAtMost};
ghost use Rattle.std.specs.Io.KnownBytes.{Appends, ReadConsumes};
ghost use Rattle.flt_io.specs.Fault.{HasCause};
ghost use Rattle.flt_io.specs.Sink.{AppendsFront};

use std::alloc::AllocError;
use thiserror::Error;

/// A source or a sink could not do what it was asked, and its count of faults rose.
#[derive(Clone, Copy, Debug, PartialEq, Eq, Error)]
#[error("the source or the sink failed")]
pub struct Failed;

/// Why the bytes of a source could not be read, or a text not be written to a sink.
#[derive(Clone, Copy, Debug, PartialEq, Eq, Error)]
pub enum StreamFault {
    /// Memory ran out. This says nothing about the bytes.
    #[error("memory ran out")]
    Memory,
    /// The source or the sink failed, and its count of faults rose.
    #[error("the source or the sink failed")]
    Failed,
}

impl From<AllocError> for StreamFault {
    ghost use Rattle.flt_io.specs.declared.stream.StreamFault.TheVariants.{Memory};

    ghost from_gives = { λ _ fault. fault ≡ Memory };

    fn from(_: AllocError) -> StreamFault {
        StreamFault::Memory
    }
}

impl From<Failed> for StreamFault {
    ghost use Rattle.flt_io.specs.declared.stream.StreamFault.TheVariants as faults;

    ghost from_gives = { λ _ fault. fault ≡ faults.Failed };

    fn from(_: Failed) -> StreamFault {
        StreamFault::Failed
    }
}

/// Where bytes come from.
pub trait Source {
    /// The bytes that are left, if the source reveals them.
    ghost left: { Self → Option (List ℕ) };

    /// How often the source has failed. The count stops at 2^64 - 1.
    ghost faults: { Self → ℕ };

    /// Moves the next bytes, 1 to `out.len()` of them, to the start of `out`, and returns how many. It returns 0 only at
    /// the end.
    ///
    /// # Errors
    ///
    /// `Failed` only where the count of faults rose. Nothing was taken, and `out` holds anything.
    fn pull(&mut self, out: &mut [u8]) -> Result<usize, Failed>
        requires { 0 < length out.old }
        ensures bound { ReadsAtMost result out.new }
        ensures bytes { ReadConsumes (left self.old) (left self.new) result out.new }
        ensures cause { HasCause (faults self.old) (faults self.new) result };
}

/// Where bytes go.
pub trait Sink {
    /// The bytes that the sink holds, if it reveals them.
    ghost held: { Self → Option (List ℕ) };

    /// How often the sink has failed. The count stops at 2^64 - 1.
    ghost faults: { Self → ℕ };

    /// Takes the whole piece.
    ///
    /// # Errors
    ///
    /// `Failed` only where the count of faults rose. A prefix of the piece may have been taken.
    fn push(&mut self, piece: &[u8]) -> Result<(), Failed>
        ensures ok { OnOk result (Appends (held self.old) (held self.new) piece.now) }
        ensures err { OnErr result (AppendsFront (held self.old) (held self.new) piece.now) }
        ensures cause { HasCause (faults self.old) (faults self.new) result };
}
