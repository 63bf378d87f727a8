//! The examples and the vectors: runs each script of `data/` in memory, and compares its status and its report with what is written down
//! for it.
//!
//! An example is a script in a file of its own, beside its report (`listed`). A vector is one of the many scripts of a pack, each with the
//! report that an independent program gives for it (`vectors`, and `pack` for the form of a pack). The crate depends on `flt_program` and
//! `flt_examine`, and makes the one call `program` as `faultmem` does, and the one call `examine` as `flt_inspect` does, over streams in
//! memory (`running`).
#![tactic(auto)]

mod case;
mod listed;
mod pack;
mod running;
mod vectors;

use crate::listed::run_examples;
use crate::vectors::run_vectors;
use std::io;
use std::marker::Sync;
use std::process::ExitCode;
use std::rt::Files;
use std::sync::Wait;
use std::thread::Threads;

/// Reports on the examples and the vectors, and answers whether all are as written.
fn run_all<R: Files + AllocGlobal + Print + Threads + Wait + Sync>(rt: &R) -> io::Result<bool> {
    let examples = run_examples(rt)?;
    let vectors = run_vectors(rt)?;
    Ok(examples && vectors)
}

fn main(rt: HostRuntime) -> ExitCode {
    match run_all(&rt) {
        Ok(true) => ExitCode::from(0),
        _ => ExitCode::from(1),
    }
}
