//! Worked scripts, with what is written of them, and the scripts that a watch does not make.
ghost use Rattle.flt_notify.specs.Table.{IsAtZero};

use super::holds;
use flt_did::DidTable;
use flt_io::{MemSink, MemSource};
use flt_lane::OpenGate;
use flt_notify::{KINDS, SubTable, note_0, note_1, note_2};
use flt_watch::{WatchGate, WatchOutcome, watch};
use std::alloc::{AllocError, Global};
use std::marker::Sync;
use std::sync::Wait;
use std::test::Fail;
use std::thread::Threads;

/// The calls of a stream that fail, if any: the first.
const NONE: &[u32] = &[];

const FIRST: &[u32] = &[0];

/// An event fails and passes.
pub(super) const ONE: &str = "event 0 dtc 000001\ncycle 0\nfail 0\npass 0\n";

pub(super) const ONE_TOLD: &str =
    "life 1 generation 0\ncycle 0 -> taken\nfail 0 -> taken\npass 0 -> taken\nwatch 0 value 2\n\
     watch 1 value 12078\nwatch 2 value 648415\n";

/// Two events fail, and a tester clears all.
const TWO: &str =
    "event 0 dtc 000001\nevent 1 dtc 000002\ncycle 0\nfail 0\nfail 1\nt A 14 FF FF FF\n";

const TWO_TOLD: &str = "life 1 generation 0\ncycle 0 -> taken\nfail 0 -> taken\nfail 1 -> taken\n\
     t A 14 FF FF FF -> 54\nwatch 0 value 4\nwatch 1 value 77648\nwatch 2 value 694679520\n";

/// The memory is full: an event fails and passes, and gives way to another one that fails. This one call changes both.
const DISPLACED: &str =
    "memory 1\nevent 0 dtc 000001\nevent 1 dtc 000002\ncycle 0\nfail 0\npass 0\nfail 1\n";

const DISPLACED_TOLD: &str =
    "life 1 generation 0\ncycle 0 -> taken\nfail 0 -> taken\npass 0 -> taken\n\
     fail 1 -> taken\nwatch 0 value 4\nwatch 1 value 86063\nwatch 2 value 623579112\n";

/// Each kind of step that a watch makes. The event is disabled at its one report, so there is no change.
const EACH: &str =
    "event 0 dtc 000001 needs 1\ncycle 0\nsig 0 7\ntick 5\nenable 0 0\nprefail 0\nshow 0\nt A 3E 00\n";

const EACH_TOLD: &str = "life 1 generation 0\ncycle 0 -> taken\nsig 0 7 -> taken\ntick 5 -> taken\n\
     enable 0 0 -> taken\nprefail 0 -> ignored enable\n\
     show 0 -> status 50 fdc 0 failed 0 clean 0 stored 0 overflow 0\nt A 3E 00 -> 7E 00\n\
     watch 0 value 0\nwatch 1 value 0\nwatch 2 value 0\n";

/// Each script, on a source and a sink that fail so, with its status and what is written.
static CASES: [(&str, &[u32], &[u32], u8, &str); 10] = [
    (EACH, NONE, NONE, 0, EACH_TOLD),
    (ONE, NONE, NONE, 0, ONE_TOLD),
    (TWO, NONE, NONE, 0, TWO_TOLD),
    (DISPLACED, NONE, NONE, 0, DISPLACED_TOLD),
    (
        "event 0 dtc 000001\nsave\n",
        NONE,
        NONE,
        2,
        "script other\n",
    ),
    (
        "event 0 dtc 000001\ncycle 0\npower\ncycle 0\n",
        NONE,
        NONE,
        2,
        "script other\n",
    ),
    (
        "event 0 dtc 000001\npar\nlane\nfail 0\nlane\nget 0\nend\n",
        NONE,
        NONE,
        2,
        "script other\n",
    ),
    ("\0", NONE, NONE, 2, "script line 1 byte\n"),
    (ONE, FIRST, NONE, 3, "read fault\n"),
    (ONE, NONE, FIRST, 4, ""),
];

/// The table of the program.
pub(super) fn table() -> SubTable<KINDS>
    ensures { IsAtZero result }
{
    let mut subs = SubTable::new();
    let _added = subs.add(0, note_0).is_ok()
        && subs.add(1, note_1).is_ok()
        && subs.add(2, note_2).is_ok();
    subs
}

/// Watches a script, and answers what it came to and what is written. The gate is asked around each step.
pub(super) fn watched<R: Threads + Wait + Sync, G: WatchGate>(
    rt: &R,
    gate: &G,
    script: &str,
    failing: (&[u32], &[u32]),
    alloc: Global,
) -> Result<(WatchOutcome, MemSink), AllocError> {
    let bytes = Vec::from_slice(alloc, script.as_bytes())?;
    let mut source = MemSource::new(bytes, Vec::from_slice(alloc, failing.0)?);
    let mut sink = MemSink::new(alloc, 8000, Vec::from_slice(alloc, failing.1)?)?;
    let outcome = watch(
        rt,
        alloc,
        &mut source,
        &mut sink,
        DidTable::new(),
        table(),
        gate,
    );
    Ok((outcome, sink))
}

#[test]
fn scripts_are_watched(rt: HostRuntime) -> Result<(), Fail> {
    for (script, reads, writes, status, told) in &CASES {
        let (outcome, sink) = watched(&rt, &OpenGate, script, (reads, writes), rt.alloc())?;
        let is_told = outcome.status == *status && sink.bytes() == told.as_bytes();
        holds(&rt, is_told, script);
    }
    Ok(())
}
