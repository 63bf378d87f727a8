//! Sessions whose flash is cut off from its bytes at each of its writes, and the lives after them.
use super::holds;
use flt_did::DidTable;
use flt_io::{MemSink, MemSource, Status};
use flt_live::{MemShelf, Stop, run_session};
use std::alloc::{AllocError, Global};
use std::process::Abort;
use std::sync::Wait;
use std::test::Fail;

const CONFIG: &[u8] = b"memory 1\nblocks 1\nflash 2 64\nevent 0 dtc 123456\n";

/// Two saves and a drain, the power, and what is found then.
const LINES: &[u8] =
    b"cycle 0\nfail 0\nsave\npost 0 01\ndrain\npass 0\nsave\npower\nget 0\nshow 0\n";

/// What is written of a whole session.
const WHOLE: &str =
    "life 1 generation 0\ncycle 0 -> taken\nfail 0 -> taken\nsave -> 1\npost 0 01 -> accepted\n\
     drain -> written 1 failed 0\npass 0 -> taken\nsave -> 2\nlife 2 generation 2\nget 0 -> 01\n\
     show 0 -> status 2E fdc 0 failed 1 clean 0 stored 1 overflow 0\n";

/// How many writes a whole first life makes.
const WRITES: u64 = 37;

/// A session that stops so, with what is written of it.
fn session_that_stops<R: AllocGlobal + Wait>(
    rt: &R,
    alloc: Global,
    stop: Stop,
) -> Result<(Status, MemSink), AllocError> {
    let mut config = MemSource::new(Vec::from_slice(alloc, CONFIG)?, Vec::new(alloc));
    let mut lines = MemSource::new(Vec::from_slice(alloc, LINES)?, Vec::new(alloc));
    let mut sink = MemSink::new(alloc, 4000, Vec::new(alloc))?;
    let mut shelf = MemShelf::stopping(rt, stop);
    let status = run_session(
        rt,
        alloc,
        DidTable::new(),
        &mut config,
        &mut lines,
        &mut sink,
        &mut shelf,
    );
    Ok((status, sink))
}

/// Whether the life after the stop began with what was acknowledged before it, or with what was saved later.
fn goes_on(text: &str) -> bool {
    let first = text.contains("life 2 generation 1\n");
    let second = text.contains("life 2 generation 2\n");
    let generation = if text.contains("save -> 2\n") {
        second
    } else if text.contains("save -> 1\n") {
        first || second
    } else {
        first || second || text.contains("life 2 generation 0\n")
    };
    let block = !text.contains("drain -> written 1 failed 0\n") || text.contains("get 0 -> 01\n");
    generation && block
}

/// Whether the next life goes on after a session that stopped.
fn is_gone_on(status: Status, written: &[u8]) -> bool {
    let text = str::from_utf8(written).unwrap_or("");
    status == Status::Done && text != WHOLE && goes_on(text)
}

/// Stops the test unless this is so of a session that stops so.
fn holds_of(rt: &impl Abort, is_so: bool, stop: Stop) {
    let Stop { writes, torn } = stop;
    assert!(rt; is_so, "{writes} {torn}");
}

/// How many bytes are written of the write at which a session stops.
static TORN: [usize; 4] = [0, 1, 17, 32];

/// After a stop at each write, torn or not, the next life goes on.
#[test]
fn next_life_goes_on(rt: HostRuntime) -> Result<(), Fail> {
    for writes in 0..WRITES {
        for torn in &TORN {
            let stop = Stop {
                writes,
                torn: *torn,
            };
            let (status, sink) = session_that_stops(&rt, rt.alloc(), stop)?;
            holds_of(&rt, is_gone_on(status, sink.bytes()), stop);
        }
    }
    Ok(())
}

#[test]
fn a_session_behind_its_writes_is_whole(rt: HostRuntime) -> Result<(), Fail> {
    let stop = Stop {
        writes: WRITES,
        torn: 0,
    };
    let (status, sink) = session_that_stops(&rt, rt.alloc(), stop)?;
    let is_whole = status == Status::Done && sink.bytes() == WHOLE.as_bytes();
    holds(&rt, is_whole, "the whole session");
    Ok(())
}
