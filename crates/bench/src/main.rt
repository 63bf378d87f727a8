//! Makes what `bench/lock.sh` and `bench/storage.sh` time and count: calls over one lock, and calls on the drivers and the store over
//! their devices in memory.
//!
//! The first word is `lock` or `storage`; the module of that name says which words follow it. It depends on `flt_turn`, on `flt_store` and
//! on `Driver` of `flt_lives`, and keeps no contract of its own but that of its machine.
#![tactic(auto)]

mod blocks;
mod counter;
mod generations;
mod lanes;
mod lock;
mod storage;

use std::process::ExitCode;
use std::rt::Env;
use std::sync::Wait;
use std::thread::Threads;
use std::{env, io};

/// The words after the program's name.
fn words(rt: &(impl Env + AllocGlobal)) -> io::Result<Vec<String>> {
    let mut words = Vec::new(rt.alloc());
    for word in env::args(rt)?.skip(1) {
        words.push(word)?;
    }
    Ok(words)
}

/// What is reported of what the words ask for.
fn told<R: Threads + Wait + AllocGlobal + Sync>(rt: &R, words: &[String]) -> Option<String> {
    let (what, words) = words.split_first()?;
    match what.as_str() {
        "lock" => {
            let calls = lock::run(rt, words)?;
            format!(in rt.alloc(); "{calls} calls").ok()
        }
        "storage" => {
            let (operations, erases) = storage::run(rt, words)?;
            format!(in rt.alloc(); "{operations} operations, {erases} erases").ok()
        }
        _ => None,
    }
}

fn main(rt: HostRuntime) -> ExitCode {
    let Ok(words) = words(&rt) else {
        return ExitCode::FAILURE;
    };
    let Some(told) = told(&rt, &words) else {
        return ExitCode::FAILURE;
    };
    if println!(rt; "{told}").is_err() {
        return ExitCode::FAILURE;
    }
    ExitCode::SUCCESS
}
