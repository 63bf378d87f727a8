ghost use Rattle.std.specs.Prelude.{ℕ, List, ◌≡◌, ◌≤◌, ◌<◌, ◌+◌, [], ◌∷◌, ◌++◌, IfOk, IfSome, OnOk, OnErr, MatchOption, length, take, vec_len};
ghost use Rattle.std.specs.Vec.{vec_capacity};
ghost use Rattle.std.specs.Io.KnownBytes.{Keeps};
ghost use Rattle.flt_io.specs.Fault.{HasCause};

use flt_io::{Failed, Source};
use std::sync::Wait;

/// How many bytes are pulled at once at most.
const PIECE: usize = 4096;

/// How many bytes of a line are kept.
pub const KEPT: usize = 514;

/// The bytes that were pulled of a source and not taken yet.
#[derive(Drop)]
pub struct LineReader {
    piece: [u8; PIECE],
    from: usize,
    to: usize,
    ghost within: { from ≤ to },
    ghost most: { to ≤ 4096 },
}

/// How a line ended.
#[derive(Clone, Copy, Debug, PartialEq, Eq)]
pub enum Line {
    /// By a line feed.
    Fed,
    /// By the end of the source; it has a byte.
    Cut,
    /// There is no line.
    Ended,
}

impl LineReader {
    ghost use Rattle.flt_live.specs.Ahead.{IsLast, ahead_of, pulled, TakesByte, TakesLine};

    /// None was pulled.
    pub fn new() -> LineReader
        ensures { pulled result ≡ [] }
    {
        LineReader {
            piece: [0; PIECE],
            from: 0,
            to: 0,
        }
    }

    /// Pulls more where nothing is left of what was pulled.
    fn fill<S: Source>(&mut self, source: &mut S) -> Result<(), Failed>
        ensures same { OnOk result (Keeps (ahead_of (S.left source.old) self.old) (ahead_of (S.left source.new) self.new)) }
        ensures end { OnOk result (self.new.from ≡ self.new.to → IfSome (S.left source.new) (λ left. left ≡ [])) }
        ensures cause { HasCause (S.faults source.old) (S.faults source.new) result }
    {
        if self.from < self.to {
            return Ok(());
        }
        let count = source.pull(&mut self.piece)?;
        self.from = 0;
        self.to = count;
        Ok(())
    }

    /// Takes a byte of what was pulled.
    fn take(&mut self) -> u8
        requires { self.old.from < self.old.to }
        ensures { pulled self.old ≡ result ∷ pulled self.new }
    {
        let byte = self.piece[self.from];
        self.from += 1;
        byte
    }

    /// The next byte, or none at the end.
    fn next<S: Source>(&mut self, source: &mut S) -> Result<Option<u8>, Failed>
        ensures taken { IfOk result (λ byte. TakesByte (ahead_of (S.left source.old) self.old) (ahead_of (S.left source.new) self.new) byte) }
        ensures cause { HasCause (S.faults source.old) (S.faults source.new) result }
    {
        self.fill(source)?;
        if self.from == self.to {
            return Ok(None);
        }
        Ok(Some(self.take()))
    }

    /// What the end of the source makes of the bytes before it.
    fn last(line: &[u8]) -> Line
        ensures { IsLast result line.now }
    {
        if line.is_empty() {
            Line::Ended
        } else {
            Line::Cut
        }
    }

    /// Takes the next line in place of what `line` holds, without its line feed; of a longer line than 514 bytes, the first 514.
    /// The error means that the source failed.
    pub fn line<R: Wait, S: Source>(
        &mut self,
        rt: &R,
        source: &mut S,
        line: &mut Vec<u8>,
    ) -> Result<Line, Failed>
        requires { 514 ≤ vec_capacity line.old }
        ensures line { IfOk result (λ ended. TakesLine (ahead_of (S.left source.old) self.old) (ahead_of (S.left source.new) self.new) ended line.new.items) }
        ensures room { vec_capacity line.new ≡ vec_capacity line.old }
        ensures cause { HasCause (S.faults source.old) (S.faults source.new) result }
    {
        line.clear();
        for _ in rt.forever() {
            match self.next(source)? {
                None => return Ok(Self::last(line)),
                Some(b'\n') => return Ok(Line::Fed),
                Some(byte) => keep(line, byte),
            }
        }
        unreachable!()
    }
}

/// Keeps one byte more of a line, if it is one of its first 514.
fn keep(line: &mut Vec<u8>, byte: u8)
    requires { 514 ≤ vec_capacity line.old }
    ensures kept { (whole : List ℕ) → line.old.items ≡ take 514 whole → line.new.items ≡ take 514 (whole ++ byte ∷ []) }
    ensures room { vec_capacity line.new ≡ vec_capacity line.old }
{
    if line.len() < KEPT {
        line.push_reserved(byte);
    }
}
