//! What is reported about an input.
ghost use Rattle.std.specs.Prelude.{option_map};
ghost use Rattle.flt_filter.specs.Verdict.{IsToldOf, due_of, writing_of};

use crate::verdict::Verdict;
use flt_io::{Sink, Status};

/// Reports a verdict, and answers its status: 4 in its place where the sink failed; no verdict means that memory ran out, and answers 7.
pub fn tell<K: Sink>(verdict: Option<Verdict>, sink: &mut K) -> u8
    ensures { IsToldOf (writing_of K.held K.faults sink.old sink.new) (option_map due_of verdict) result }
{
    let Some(Verdict { status, text }) = verdict else {
        return Status::OutOfMemory.number();
    };
    match sink.push(&text) {
        Ok(()) => status,
        Err(_) => Status::WriteFault.number(),
    }
}
