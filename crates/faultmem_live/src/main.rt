//! A session of the fault memory over the real streams: `live CONFIG [IMAGE]` reads the configuration from the file CONFIG, keeps the flash in
//! the file IMAGE, or in memory, and answers each line of standard input by one line of standard output.
//!
//! It depends on `flt_io`, `flt_did` and `flt_live`, and makes the one call `run_live`, with the program's table of data identifiers.
#![tactic(auto)]

use flt_did::{DID_ROWS, DidTable, program_table};
use flt_io::{ReadSource, Status, WriteSink, command_words};
use flt_live::run_live;
use std::fs::File;
use std::io::{self, Input, Print};
use std::process::ExitCode;
use std::rt::{Env, Files};
use std::sync::Wait;

/// Runs the program over the real streams, with these data identifiers.
fn perform<R: Env + AllocGlobal + Input + Print + Files<File = File> + Wait>(
    rt: &R,
    dids: DidTable<DID_ROWS>,
) -> Status {
    let Ok(words) = command_words(rt) else {
        return Status::OutOfMemory;
    };
    let mut source = ReadSource::new(rt.reader());
    let mut sink = WriteSink::new(io::writer(rt));
    run_live(rt, &words, dids, &mut source, &mut sink)
}

fn main(rt: HostRuntime) -> ExitCode {
    ExitCode::from(perform(&rt, program_table!()).number())
}
