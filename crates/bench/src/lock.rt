//! Calls over one lock. The words are `turn` or `mutex`, the number of lanes and the calls of each.
use crate::lanes::{run_mutex, run_turn};
use std::sync::Wait;
use std::thread::Threads;

/// How many calls the lock took, if the words ask for some.
pub fn run<R: Threads + Wait + AllocGlobal + Sync>(rt: &R, words: &[String]) -> Option<u64> {
    let [lock, lanes, calls] = words else {
        return None;
    };
    let lanes: u32 = lanes.parse().ok()?;
    let calls: u32 = calls.parse().ok()?;
    lanes.checked_mul(calls)?;
    match lock.as_str() {
        "turn" => run_turn(rt, rt.alloc(), lanes, calls).ok(),
        "mutex" => run_mutex(rt, rt.alloc(), lanes, calls).ok(),
        _ => None,
    }
}
