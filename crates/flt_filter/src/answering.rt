//! A whole input that is judged, and what is reported about it.
ghost use Rattle.std.specs.Prelude.{ℕ, List, IfOk, option_map};
ghost use Rattle.flt_filter.specs.Verdict.{Due, IsVerdictMade, Tells, due_of, reading_of, writing_of};

use crate::reading::read_input;
use crate::telling::tell;
use crate::verdict::Verdict;
use flt_io::{Sink, Source};
use std::alloc::{AllocError, Global};

/// What judges the bytes of a whole input.
pub trait Judge: Drop + Sized {
    /// What is due of bytes.
    ghost is_judged: { Self → List ℕ → Due → Type 0 };

    /// What is reported about these bytes. The error means that memory ran out.
    fn judge(self, alloc: Global, bytes: &[u8]) -> Result<Verdict, AllocError>
        ensures { IfOk result (λ verdict. is_judged self bytes.now (due_of verdict)) };
}

/// What is reported about what a source has left; nothing where memory runs out.
fn reckon<J: Judge, S: Source>(judge: J, alloc: Global, source: &mut S) -> Option<Verdict>
    ensures { IsVerdictMade (J.is_judged judge) (reading_of S.left S.faults source.old source.new) (option_map due_of result) }
{
    match read_input(alloc, source) {
        Ok(bytes) => judge.judge(alloc, &bytes).ok(),
        Err(fault) => fault.verdict(alloc),
    }
}

/// Reads a source to its end, reports what is judged of its bytes, and answers the exit status: that of the verdict; 3 where the source
/// failed; 4 in place of another where the sink did; 7 where memory ran out; 9 where more than 16,777,216 bytes came.
pub fn answer<J: Judge, S: Source, K: Sink>(
    judge: J,
    alloc: Global,
    source: &mut S,
    sink: &mut K,
) -> u8
    ensures { Tells (J.is_judged judge) (reading_of S.left S.faults source.old source.new) (writing_of K.held K.faults sink.old sink.new) result }
{
    let verdict = reckon(judge, alloc, source);
    tell(verdict, sink)
}
