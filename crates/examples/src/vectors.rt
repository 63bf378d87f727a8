//! The vectors: scripts with the reports that an independent program gives for them. Others wrote it from the same requirements, and it
//! shares no line with this one.
use crate::case::{Answer, Case, tell};
use crate::pack::{Malformed, Pack};
use crate::running::answer_to;
use std::marker::Sync;
use std::rt::Files;
use std::sync::Wait;
use std::thread::Threads;
use std::{fs, io};

/// The kinds of the vectors. Those of a kind are in one pack.
static KINDS: [&str; 11] = [
    // One lane, without a save.
    "plain",
    // Saves, cuts, faults, mutes and power-ups.
    "power",
    // The same over an EEPROM.
    "ea",
    // Lanes at once.
    "lanes",
    // Watches.
    "watch",
    // Scripts that are refused, and some that only seem to be wrong.
    "broken",
    // Checks.
    "check",
    // Boundaries, written by hand: saturation, conditions, long lists, counters, the widest numbers.
    "hand",
    // Dumps, spoiled ones among them.
    "inspect",
    // Traces that are judged, wrong ones among them.
    "audit",
    // Traces that are made.
    "trace",
];

/// Runs what a pack of this kind has at this place, reports it if it is no vector or not as written, and answers whether it is as
/// written.
fn run_vector<R: AllocGlobal + Print + Threads + Wait + Sync>(
    rt: &R,
    place: (&str, u64),
    vector: Result<Case<'_>, Malformed>,
) -> io::Result<bool> {
    let Ok(case) = vector else {
        let (kind, number) = place;
        println!(rt; "vectors {kind}: the vector {number} is malformed")?;
        return Ok(false);
    };
    let answer = answer_to(rt, rt.alloc(), &case)?;
    if answer == Answer::AsWritten {
        return Ok(true);
    }
    tell(rt, &case, answer)?;
    Ok(false)
}

/// Reports how many vectors of a kind are as written, and which are not, and answers whether all are.
fn run_pack<R: Files + AllocGlobal + Print + Threads + Wait + Sync>(
    rt: &R,
    kind: &str,
) -> io::Result<bool> {
    let bytes = fs::read(rt, format!(in rt.alloc(); "vectors_{kind}")?)?;
    let mut seen = 0u64;
    let mut same = 0u64;
    for vector in Pack::new(&bytes) {
        seen = seen.saturating_add(1);
        if run_vector(rt, (kind, seen), vector)? {
            same = same.saturating_add(1);
        }
    }
    println!(rt; "vectors {kind}: {same} as written")?;
    Ok(same == seen)
}

/// Reports the vectors of each kind, and answers whether all are as written.
pub(crate) fn run_vectors<R: Files + AllocGlobal + Print + Threads + Wait + Sync>(
    rt: &R,
) -> io::Result<bool> {
    let mut all = true;
    for kind in &KINDS {
        let same = run_pack(rt, kind)?;
        all = all && same;
    }
    Ok(all)
}
