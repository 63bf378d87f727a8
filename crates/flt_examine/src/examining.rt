//! The three commands.
ghost use Rattle.std.specs.Prelude.{◌≡◌, ◌≢◌, None, Some, map};
ghost use Rattle.std.specs.String.{string_bytes};
ghost use Rattle.flt_did.specs.Table.{dids_of};
ghost use Rattle.flt_examine.specs.Command.{command_of};
ghost use Rattle.flt_examine.specs.Examination.{Examines, Traces};
ghost use Rattle.flt_filter.specs.Verdict.{reading_of, writing_of};

use crate::command::{Command, command_of};
use crate::inspecting::inspect;
use crate::tracing::{Traced, trace_bytes};
use flt_audit::audit;
use flt_did::{DID_ROWS, DidTable};
use flt_filter::{Verdict, read_input, tell};
use flt_flash::FlashMem;
use flt_io::{Sink, Source, Status};
use flt_run::Outcome;
use std::alloc::Global;
use std::marker::Sync;
use std::sync::Wait;
use std::thread::Threads;

/// What an examination answers.
#[derive(Drop)]
pub struct Examined {
    /// The exit status: that of `inspect`, of `audit` or of a trace, or 1 if the words are not a command.
    pub status: u8,
    /// The run of which a trace was made.
    pub traced: Option<Outcome<FlashMem>>,
}

/// The answer with this status of a trace that was made of a run, which is kept if memory did not run out.
fn with_status(status: u8, outcome: Outcome<FlashMem>) -> Examined
    ensures status { result.status ≡ status }
    ensures wanting { status ≡ 7 → result.traced ≡ None }
    ensures kept { status ≢ 7 → result.traced ≡ Some outcome }
{
    if status == Status::OutOfMemory.number() {
        return Examined {
            status,
            traced: None,
        };
    }
    Examined {
        status,
        traced: Some(outcome),
    }
}

/// Writes the trace of the last life of a script, as one line of JSON.
fn trace<R: Threads + Wait + Sync, S: Source, K: Sink>(
    rt: &R,
    alloc: Global,
    source: &mut S,
    sink: &mut K,
    dids: DidTable<DID_ROWS>,
) -> Examined
    ensures { Traces (dids_of dids) (reading_of S.left S.faults source.old source.new) (writing_of K.held K.faults sink.old sink.new) result.traced result.status }
{
    let bytes = match read_input(alloc, source) {
        Ok(bytes) => bytes,
        Err(fault) => {
            let verdict = fault.verdict(alloc);
            return Examined {
                status: tell(verdict, sink),
                traced: None,
            };
        }
    };
    let Some(traced) = trace_bytes(rt, alloc, bytes, dids) else {
        return Examined {
            status: tell(None, sink),
            traced: None,
        };
    };
    let Traced { outcome, verdict } = traced;
    let status = tell(Some(verdict), sink);
    with_status(status, outcome)
}

/// Does what one word asks: `inspect`, `audit` or `trace`. A trace reads a script, runs it over a blank flash of 1,024
/// pages a sector with an open gate, and prints the last of its lives as one line of JSON, which `audit` reads. For other
/// words it prints the usage line, with the status 1.
///
/// The status of a trace is that of its run: 0 if the last life was started, and its line was printed; 2 if the input is not a script, 5, 6
/// or 8 if the last life was not started, with nothing printed; 3 if the source failed; 4 instead of another if the sink failed; 7
/// if memory ran out; 9 if more than 16,777,216 bytes came.
pub fn examine<R: Threads + Wait + Sync, S: Source, K: Sink>(
    rt: &R,
    alloc: Global,
    words: &[String],
    source: &mut S,
    sink: &mut K,
    dids: DidTable<DID_ROWS>,
) -> Examined
    ensures { Examines (dids_of dids) (reading_of S.left S.faults source.old source.new) (writing_of K.held K.faults sink.old sink.new) (command_of (map string_bytes words.now)) result.traced result.status }
{
    let Some(command) = command_of(words) else {
        let usage = Verdict::line(
            alloc,
            Status::Usage,
            b"usage: flt_inspect inspect | trace | audit",
        );
        return Examined {
            status: tell(usage.ok(), sink),
            traced: None,
        };
    };
    match command {
        Command::Inspect => Examined {
            status: inspect(alloc, source, sink, &dids),
            traced: None,
        },
        Command::Audit => Examined {
            status: audit(alloc, source, sink, dids),
            traced: None,
        },
        Command::Trace => trace(rt, alloc, source, sink, dids),
    }
}
