//! The second program: it reads a dump, a script or a trace on standard input, and writes to standard output what is to be said of it.
//!
//! It depends on `flt_io`, `flt_did` and `flt_examine`, and makes the one call `examine` over the real streams, with the program's table of
//! data identifiers.
#![tactic(auto)]

ghost use Rattle.std.specs.Prelude.{◌≡◌};
ghost use Rattle.flt_did.specs.Program.{program_dids};
ghost use Rattle.flt_did.specs.Table.{dids_of};

use flt_did::{DID_ROWS, DidTable, program_table};
use flt_examine::examine;
use flt_io::{ReadSource, Status, WriteSink, command_words};
use std::io;
use std::io::{Input, Print};
use std::marker::Sync;
use std::process::ExitCode;
use std::rt::Env;
use std::sync::Wait;
use std::thread::Threads;

/// Runs the program over the real streams, with these data identifiers, and answers its exit status.
fn perform<R: Env + AllocGlobal + Input + Print + Threads + Wait + Sync>(
    rt: &R,
    dids: DidTable<DID_ROWS>,
) -> u8
    requires { dids_of dids ≡ program_dids }
{
    let Ok(words) = command_words(rt) else {
        return Status::OutOfMemory.number();
    };
    let mut source = ReadSource::new(rt.reader());
    let mut sink = WriteSink::new(io::writer(rt));
    let examined = examine(rt, rt.alloc(), &words, &mut source, &mut sink, dids);
    examined.status
}

fn main(rt: HostRuntime) -> ExitCode {
    ExitCode::from(perform(&rt, program_table!()))
}
