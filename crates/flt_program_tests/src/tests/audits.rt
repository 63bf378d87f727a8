//! A worked trace with one change at a time, and what the audit reports of each.
use super::holds;
use flt_audit::audit;
use flt_did::DidTable;
use flt_io::{MemSink, MemSource};
use std::alloc::{AllocError, Global};
use std::process::Abort;
use std::test::Fail;

/// The script of the trace: one entry, one event.
const SCRIPT: &str = "memory 1\\nevent 0 dtc 000001\\ncycle 0\\nfail 0\\nshow 0\\n";

/// The blocks of its base: a summary, the states of 16 events, and one entry, all as they are at first.
static BASE: [&str; 3] = [
    "01000000FFFFFFFFFFFFFFFF0000000000000000000000000000000000000000",
    "50000000500000005000000050000000500000005000000050000000500000005000000050000000500000005000000050000000500000005000000050000000",
    "FFFF000000000000000000000000000000000000000000000000000000000000000000000000000000000000000000000000000000000000000000000000000000000000",
];

/// Its calls: reports, a request, a show of another lane, and what a save makes.
static JOURNAL: [&str; 7] = [
    "0 cycle 0",
    "0 fail 0",
    "0 t A 19 02 08",
    "1 show 0",
    "0 snapshot",
    "0 saved 1",
    "0 tick 5",
];

/// Their answers.
static ANSWERS: [&str; 7] = [
    "taken",
    "taken",
    "59 02 FF 00 00 01 2F",
    "status 2F fdc 127 failed 1 clean 0 stored 1 overflow 0",
    "taken",
    "taken",
    "taken",
];

/// A part of a trace.
#[derive(Clone, Copy, PartialEq, Eq)]
enum Part {
    None,
    Keys,
    Script,
    Base,
    Journal,
    Answers,
}

/// A text in the place of the one that is due: the part and the place in it.
type Change<'a> = (Part, usize, &'a str);

/// Each change, and what the audit reports then.
static CHANGES: [(Part, usize, &str, &str); 42] = [
    (Part::None, 0, "", "yes 7"),
    (Part::Keys, 0, "text", "shape"),
    (Part::Keys, 1, "state", "shape"),
    (Part::Keys, 2, "calls", "shape"),
    (Part::Keys, 3, "journal", "shape"),
    // The script: none, one of another configuration that holds the same base, and one whose base has more blocks.
    (Part::Script, 0, "", "shape"),
    (
        Part::Script,
        0,
        "memory 1\\nevent 0 dtc 000001 confirm 2\\n",
        "no 2",
    ),
    (Part::Script, 0, "memory 1\\nevent 0 dtc 000002\\n", "no 2"),
    (Part::Script, 0, "memory 2\\nevent 0 dtc 000001\\n", "shape"),
    (Part::Script, 0, "nothing\\n", "shape"),
    // The summary: an overflow, an entry that is nowhere, one byte less, a small letter, no digit.
    (
        Part::Base,
        0,
        "01010000FFFFFFFFFFFFFFFF0000000000000000000000000000000000000000",
        "no 3",
    ),
    (
        Part::Base,
        0,
        "01000100FFFFFFFFFFFFFFFF0000000000000000000000000000000000000000",
        "shape",
    ),
    (
        Part::Base,
        0,
        "01000000FFFFFFFFFFFFFFFF00000000000000000000000000000000000000",
        "shape",
    ),
    (
        Part::Base,
        0,
        "01000000ffFFFFFFFFFFFFFF0000000000000000000000000000000000000000",
        "shape",
    ),
    (
        Part::Base,
        0,
        "0x000000FFFFFFFFFFFFFFFF0000000000000000000000000000000000000000",
        "shape",
    ),
    // The states: event 0 failed once before, and a second event that is not there.
    (
        Part::Base,
        1,
        "50010000500000005000000050000000500000005000000050000000500000005000000050000000500000005000000050000000500000005000000050000000",
        "no 3",
    ),
    (
        Part::Base,
        1,
        "50000000510000005000000050000000500000005000000050000000500000005000000050000000500000005000000050000000500000005000000050000000",
        "shape",
    ),
    (Part::Base, 2, "FFFF", "shape"),
    // The calls: another one, one that changes a later answer, one that is none, a lane without a call, a number as it is not printed.
    (Part::Journal, 0, "0 cycle 1", "no 1"),
    (Part::Journal, 0, "0 cycle 4", "shape"),
    (Part::Journal, 0, "cycle 0", "shape"),
    (Part::Journal, 0, "0  cycle 0", "shape"),
    (Part::Journal, 0, "4294967295 cycle 0", "yes 7"),
    (Part::Journal, 0, "4294967296 cycle 0", "shape"),
    (Part::Journal, 1, "0 pass 0", "no 2"),
    (Part::Journal, 1, "0 fail 1", "shape"),
    (Part::Journal, 1, "0 fail 00", "shape"),
    (Part::Journal, 2, "0 t A 19 02 01", "yes 7"),
    (Part::Journal, 2, "0 t A 19 02 80", "no 2"),
    (Part::Journal, 3, "0 show 0", "yes 7"),
    (Part::Journal, 3, "0 save", "shape"),
    (Part::Journal, 4, "0 snap", "shape"),
    (Part::Journal, 5, "0 saved 01", "shape"),
    (Part::Journal, 6, "0 power", "shape"),
    // The answers, each at its place.
    (Part::Answers, 0, "ignored cycle", "no 0"),
    (Part::Answers, 1, "ignored setting", "no 1"),
    (Part::Answers, 2, "59 02 FF 00 00 01 2E", "no 2"),
    (
        Part::Answers,
        3,
        "status 2E fdc 127 failed 1 clean 0 stored 1 overflow 0",
        "no 3",
    ),
    (Part::Answers, 4, "silent", "no 4"),
    (Part::Answers, 5, "", "no 5"),
    (Part::Answers, 6, "taken ", "no 6"),
    (Part::Answers, 6, "Taken", "no 6"),
];

/// Puts the text at a place of a part, in quotation marks and after a comma where it is not the first.
fn put_text(
    out: &mut String,
    part: Part,
    place: usize,
    due: &str,
    change: Change<'_>,
) -> Result<(), AllocError> {
    let is_changed = part == change.0 && place == change.1;
    out.push_str(if place == 0 { "\"" } else { ",\"" })?;
    out.push_str(if is_changed { change.2 } else { due })?;
    out.push_str("\"")
}

/// Puts the list of a part.
fn put_list(
    out: &mut String,
    part: Part,
    texts: &[&str],
    change: Change<'_>,
) -> Result<(), AllocError> {
    out.push_str("[")?;
    for (place, due) in texts.iter().enumerate() {
        put_text(out, part, place, due, change)?;
    }
    out.push_str("]")
}

/// Puts a key and a colon.
fn put_key(
    out: &mut String,
    place: usize,
    due: &str,
    change: Change<'_>,
) -> Result<(), AllocError> {
    put_text(out, Part::Keys, place, due, change)?;
    out.push_str(":")
}

/// The trace with one change, in JSON.
fn trace_with(alloc: Global, change: Change<'_>) -> Result<String, AllocError> {
    let mut out = String::from_str(alloc, "{")?;
    put_key(&mut out, 0, "script", change)?;
    put_text(&mut out, Part::Script, 0, SCRIPT, change)?;
    put_key(&mut out, 1, "base", change)?;
    put_list(&mut out, Part::Base, &BASE, change)?;
    put_key(&mut out, 2, "journal", change)?;
    put_list(&mut out, Part::Journal, &JOURNAL, change)?;
    put_key(&mut out, 3, "answers", change)?;
    put_list(&mut out, Part::Answers, &ANSWERS, change)?;
    out.push_str("}")?;
    Ok(out)
}

/// The status that comes with what is reported.
fn status_of(told: &str) -> u8 {
    if told.starts_with("yes") {
        0
    } else if told.starts_with("no") {
        13
    } else if told == "shape" {
        12
    } else {
        11
    }
}

/// Of these bytes the audit reports this.
fn is_told(rt: &impl Abort, alloc: Global, bytes: &[u8], told: &str) -> Result<(), Fail> {
    let mut source = MemSource::new(Vec::from_slice(alloc, bytes)?, Vec::new(alloc));
    let mut sink = MemSink::new(alloc, 100, Vec::new(alloc))?;
    let status = audit(alloc, &mut source, &mut sink, DidTable::new());
    let is_told = sink.bytes().strip_suffix(b"\n") == Some(told.as_bytes())
        && status == status_of(told);
    holds(rt, is_told, told);
    Ok(())
}

#[test]
fn each_change_of_a_trace_is_told(rt: HostRuntime) -> Result<(), Fail> {
    for (part, place, text, told) in &CHANGES {
        let trace = trace_with(rt.alloc(), (*part, *place, text))?;
        is_told(&rt, rt.alloc(), trace.as_bytes(), told)?;
    }
    Ok(())
}

/// Bytes that are no trace.
static OTHERS: [(&[u8], &str); 6] = [
    (b"", "json"),
    (b"{\"script\":\"\"", "json"),
    (b"[]", "shape"),
    (
        b"{\"script\":\"\",\"base\":[],\"journal\":[],\"answers\":[]}",
        "shape",
    ),
    (
        b"{\"script\":\"memory 1\",\"base\":\"\",\"journal\":[],\"answers\":[]}",
        "shape",
    ),
    (
        b"{\"script\":\"memory 1\",\"base\":[1],\"journal\":[],\"answers\":[]}",
        "shape",
    ),
];

#[test]
fn other_bytes_are_told(rt: HostRuntime) -> Result<(), Fail> {
    for (bytes, told) in &OTHERS {
        is_told(&rt, rt.alloc(), bytes, told)?;
    }
    Ok(())
}
