//! The three commands over streams in memory: a worked dump, a worked script, and each status.
use super::holds;
use flt_did::DidTable;
use flt_examine::{Examined, examine};
use flt_io::{MemSink, MemSource};
use std::alloc::{AllocError, Global};
use std::marker::Sync;
use std::process::Abort;
use std::sync::Wait;
use std::test::Fail;
use std::thread::Threads;

/// The calls of a stream that fail, if any: the first.
const NONE: &[u32] = &[];

const FIRST: &[u32] = &[0];

/// The configuration of the dump: two sectors of 64 pages.
const CONFIGURED: &str = "memory 1\nblocks 0\nflash 2 64\nevent 0 dtc 123456\nimage\n";

/// The pages of both sectors.
const PAGES: usize = 128;

/// A page that was never written.
const BLANK: &str = "FFFFFFFFFFFFFFFFFFFFFFFFFFFFFFFFFFFFFFFFFFFFFFFFFFFFFFFFFFFFFFFF";

/// A page whose bits are all 0.
const ZEROS: &str = "0000000000000000000000000000000000000000000000000000000000000000";

/// The first pages of sector 0 after `cycle 0`, `fail 0` and `save`; all others are blank.
static FRONT: [&str; 23] = [
    "53010000000100400000000000000000ACFEFFFFFFFEFFBFFFFFFFFFFFFFFFFF",
    "41010000000100000000000000000000BEFEFFFFFFFEFFFFFFFFFFFFFFFFFFFF",
    "48010008000800020000000000000000B7FEFFF7FFF7FFFDFFFFFFFFFFFFFFFF",
    "0200000001010000FFFFFFFFFFFFFFFFFFFFFFFFFFFFFFFFFFFFFFFFFFFFFFFF",
    "47010008000200000000000000000000B8FEFFF7FFFDFFFFFFFFFFFFFFFFFFFF",
    "48010018002000050000000000000000B7FEFFE7FFDFFFFAFFFFFFFFFFFFFFFF",
    "0100010000000000000000000000000000000000000000000000000000000000",
    "47010018000500000000000000000000B8FEFFE7FFFAFFFFFFFFFFFFFFFFFFFF",
    "48010020004000080000000000000000B7FEFFDFFFBFFFF7FFFFFFFFFFFFFFFF",
    "2F01000050000000500000005000000050000000500000005000000050000000",
    "5000000050000000500000005000000050000000500000005000000050000000",
    "47010020000800000000000000000000B8FEFFDFFFF7FFFFFFFFFFFFFFFFFFFF",
    "480100400044000C0000000000000000B7FEFFBFFFBBFFF3FFFFFFFFFFFFFFFF",
    "0000010000000000000000000000000000000000000000000000000000000000",
    "0000000000000000000000000000000000000000000000000000000000000000",
    "00000000FFFFFFFFFFFFFFFFFFFFFFFFFFFFFFFFFFFFFFFFFFFFFFFFFFFFFFFF",
    "47010040000C00000000000000000000B8FEFFBFFFF3FFFFFFFFFFFFFFFFFFFF",
    "48010010000A00110000000000000000B7FEFFEFFFF5FFEEFFFFFFFFFFFFFFFF",
    "02000000010000000000FFFFFFFFFFFFFFFFFFFFFFFFFFFFFFFFFFFFFFFFFFFF",
    "47010010001100000000000000000000B8FEFFEFFFEEFFFFFFFFFFFFFFFFFFFF",
    "48010011000A00140000000000000000B7FEFFEEFFF5FFEBFFFFFFFFFFFFFFFF",
    "02000000010000000000FFFFFFFFFFFFFFFFFFFFFFFFFFFFFFFFFFFFFFFFFFFF",
    "47010011001400000000000000000000B8FEFFEEFFEBFFFFFFFFFFFFFFFFFFFF",
];

/// Its mark and its commits as version 1 of the format has them: the place of each page, and the page.
const VERSION_1: &[(usize, &str)] = &[
    (
        3,
        "0100000001010000FFFFFFFFFFFFFFFFFFFFFFFFFFFFFFFFFFFFFFFFFFFFFFFF",
    ),
    (
        17,
        "48010010001A00110000000000000000B7FEFFEFFFE5FFEEFFFFFFFFFFFFFFFF",
    ),
    (
        18,
        "01000000010000FFFFFF00FFFFFFFFFFFFFFFFFFFFFFFFFFFFFFFFFFFFFFFFFF",
    ),
    (
        20,
        "48010011001A00140000000000000000B7FEFFEEFFE5FFEBFFFFFFFFFFFFFFFF",
    ),
    (
        21,
        "01000000010000FFFFFF00FFFFFFFFFFFFFFFFFFFFFFFFFFFFFFFFFFFFFFFFFF",
    ),
];

/// The lines of its sector 0 up to the commit.
const RECORDS: &str = "sector 0 sequence 1\npage 2 block 8 length 8 complete\n\
     page 5 block 24 length 32 complete\npage 8 block 32 length 64 complete\npage 12 block 64 length 68 complete\n";

/// Pages in the place of those of the dump, with the status, what is written before the records, and the lines of the commit, none if no
/// record is listed.
static SPOILED: [(&[(usize, &str)], u8, &str, &str); 9] = [
    (
        &[],
        0,
        "generation 1\n",
        "page 17 block 16 length 10 complete\npage 20 block 17 length 10 complete\n",
    ),
    (
        VERSION_1,
        0,
        "generation 1\n",
        "page 17 block 16 length 26 complete\npage 20 block 17 length 26 complete\n",
    ),
    // The gate of the first copy of the commit, and of the second: the other copy names the generation.
    (
        &[(19, ZEROS)],
        0,
        "generation 1\n",
        "page 17 block 16 length 10 incomplete\npage 20 block 17 length 10 complete\n",
    ),
    (
        &[(22, ZEROS)],
        0,
        "generation 1\n",
        "page 17 block 16 length 10 complete\npage 20 block 17 length 10 incomplete\n",
    ),
    // The bytes of the first copy: it is no commit, though it is complete.
    (
        &[(18, ZEROS)],
        6,
        "refused block 2\n",
        "page 17 block 16 length 10 complete\npage 20 block 17 length 10 complete\n",
    ),
    // The mark of another configuration, of two events.
    (
        &[(
            3,
            "0200000002010000FFFFFFFFFFFFFFFFFFFFFFFFFFFFFFFFFFFFFFFFFFFFFFFF",
        )],
        6,
        "refused config 0 events 2 entries 1 wanted config 0 events 1 entries 1\n",
        "page 17 block 16 length 10 complete\npage 20 block 17 length 10 complete\n",
    ),
    // The start gate of the sector, its active gate, without which no sector is valid, and a page after the records.
    (&[(0, ZEROS)], 6, "refused sector 0 page 0\n", ""),
    (&[(1, BLANK)], 0, "generation 0\nno sector\n", ""),
    (&[(40, ZEROS)], 6, "refused sector 0 page 40\n", ""),
];

/// The page at a place, by those that take the place of others.
fn page_at(place: usize, pages: &[(usize, &'static str)]) -> &'static str {
    for (other, page) in pages {
        if *other == place {
            return page;
        }
    }
    if place < FRONT.len() {
        FRONT[place]
    } else {
        BLANK
    }
}

/// The dump, with these pages in place of others.
fn dump_with(alloc: Global, pages: &[(usize, &'static str)]) -> Result<String, AllocError> {
    let mut dump = String::from_str(alloc, CONFIGURED)?;
    for place in 0..PAGES {
        dump.push_str(page_at(place, pages))?;
        dump.push_str("\n")?;
    }
    Ok(dump)
}

/// What comes of a word and an input, on a source and a sink that fail so, and what is written.
fn examined<R: Threads + Wait + Sync>(
    rt: &R,
    alloc: Global,
    word: &str,
    input: &[u8],
    failing: (&[u32], &[u32]),
) -> Result<(Examined, MemSink), AllocError> {
    let mut words = Vec::new(alloc);
    words.push(String::from_str(alloc, word)?)?;
    let reads = Vec::from_slice(alloc, failing.0)?;
    let writes = Vec::from_slice(alloc, failing.1)?;
    let mut source = MemSource::new(Vec::from_slice(alloc, input)?, reads);
    let mut sink = MemSink::new(alloc, 2000, writes)?;
    let examined = examine(rt, alloc, &words, &mut source, &mut sink, DidTable::new());
    Ok((examined, sink))
}

/// Whether these lines are written: the first, and where there are lines of the commit, those of the records and they.
fn is_written(written: &[u8], first: &str, commits: &str) -> bool {
    match written.strip_prefix(first.as_bytes()) {
        None => false,
        Some(rest) if commits.is_empty() => rest.is_empty(),
        Some(rest) => rest.strip_prefix(RECORDS.as_bytes()) == Some(commits.as_bytes()),
    }
}

#[test]
fn each_spoiled_page_is_told(rt: HostRuntime) -> Result<(), Fail> {
    let alloc = rt.alloc();
    for (pages, status, first, commits) in &SPOILED {
        let dump = dump_with(alloc, pages)?;
        let (examined, sink) = examined(&rt, alloc, "inspect", dump.as_bytes(), (NONE, NONE))?;
        let is_told = examined.status == *status
            && examined.traced.is_none()
            && is_written(sink.bytes(), first, commits);
        holds(&rt, is_told, first);
    }
    Ok(())
}

/// The script of the trace.
const SCRIPT: &str = "memory 1\nevent 0 dtc 000001\ncycle 0\nfail 0\n";

/// A script whose last life is dark: the device fails at the first read of its start-up.
const DARK: &str = "memory 1\nmute 0 0 3\npower\n";

/// The trace of it, and the same with an answer that is not due.
const TRACE: &str =
    "{\"answers\":[\"taken\",\"taken\"],\"base\":[\"01000000FFFFFFFFFFFFFFFF0000000000000000000000000000000000000000\",\
     \"50000000500000005000000050000000500000005000000050000000500000005000000050000000500000005000000050000000500000005000000050000000\",\
     \"FFFF000000000000000000000000000000000000000000000000000000000000000000000000000000000000000000000000000000000000000000000000000000000000\"],\
     \"journal\":[\"0 cycle 0\",\"0 fail 0\"],\"script\":\"memory 1\\nevent 0 dtc 000001\\ncycle 0\\nfail 0\\n\"}\n";

/// A word and an input, on a source and a sink that fail so, with the status, what is written, and whether a run was traced.
static CASES: [(&str, &str, &[u32], &[u32], u8, &str, bool); 17] = [
    (
        "look",
        "",
        NONE,
        NONE,
        1,
        "usage: flt_inspect inspect | trace | audit\n",
        false,
    ),
    ("look", "", NONE, FIRST, 4, "", false),
    ("inspect", "", NONE, NONE, 2, "script line 1 form\n", false),
    (
        "inspect",
        "event 0\nimage\n",
        NONE,
        NONE,
        2,
        "script line 1 form\n",
        false,
    ),
    (
        "inspect",
        "cycle 0\nimage\n",
        NONE,
        NONE,
        2,
        "script other\n",
        false,
    ),
    (
        "inspect",
        "memory 1\nimage\n00\n",
        NONE,
        NONE,
        10,
        "dump line 3\n",
        false,
    ),
    ("inspect", "", FIRST, NONE, 3, "read fault\n", false),
    ("inspect", "", NONE, FIRST, 4, "", false),
    ("trace", SCRIPT, NONE, NONE, 0, TRACE, true),
    ("trace", "nothing", NONE, NONE, 2, "", true),
    ("trace", DARK, NONE, NONE, 5, "", true),
    ("trace", SCRIPT, FIRST, NONE, 3, "read fault\n", false),
    ("trace", SCRIPT, NONE, FIRST, 4, "", true),
    ("audit", TRACE, NONE, NONE, 0, "yes 2\n", false),
    ("audit", "{", NONE, NONE, 11, "json\n", false),
    ("audit", "{}", NONE, NONE, 12, "shape\n", false),
    ("audit", TRACE, FIRST, NONE, 3, "read fault\n", false),
];

/// Stops the test unless this is so of a word and an input.
fn holds_of(rt: &impl Abort, is_so: bool, word: &str, input: &str) {
    assert!(rt; is_so, "{word} {input}");
}

#[test]
fn each_command_has_its_statuses(rt: HostRuntime) -> Result<(), Fail> {
    for (word, input, reads, writes, status, told, is_traced) in &CASES {
        let failing: (&[u32], &[u32]) = (reads, writes);
        let (examined, sink) = examined(&rt, rt.alloc(), word, input.as_bytes(), failing)?;
        let is_told = examined.status == *status
            && sink.bytes() == told.as_bytes()
            && examined.traced.is_some() == *is_traced;
        holds_of(&rt, is_told, word, input);
    }
    Ok(())
}

#[test]
fn a_large_input_is_told(rt: HostRuntime) -> Result<(), Fail> {
    let mut input = Vec::new(rt.alloc());
    input.resize(16_777_217, b' ')?;
    for word in ["inspect", "trace", "audit"] {
        let (examined, sink) = examined(&rt, rt.alloc(), word, &input, (NONE, NONE))?;
        let is_large = examined.status == 9 && sink.bytes() == "input large\n".as_bytes();
        holds(&rt, is_large, word);
    }
    Ok(())
}
