//! Tables of images, scripts and streams, each with what a run reports of it.
use super::reports::{ends_so, ends_so_on_blank, run_over};
use super::{holds, holds_at};
use flt_code::seal;
use flt_flash::{Flash, FlashMem};
use flt_io::MemSink;
use std::alloc::{AllocError, Global};
use std::marker::Sync;
use std::process::Abort;
use std::sync::Wait;
use std::test::Fail;
use std::thread::Threads;

/// The pages of each sector, and how often the power may come.
const PAGES: u16 = 1024;

const BOOTS: u16 = 256;

/// The calls of a stream that fail, if any.
const NONE: &[u32] = &[];

/// The configuration lines of the image that is changed.
const CONFIGURED: &str = "memory 1\nblocks 0\nevent 0 dtc 123456\n";

/// The script that leaves it: its sector 0 has a mark in pages 2 to 4, a summary in 5 to 7, states in 8 to 11, an entry in 12 to 16
/// and the two copies of a commit in 17 to 19 and 20 to 22.
const SAVED: &str = "memory 1\nblocks 0\nevent 0 dtc 123456\ncycle 0\nfail 0\nsave\n";

/// What is written to a page.
#[derive(Clone, Copy)]
enum Change {
    /// 32 bytes 00.
    Zeros,
    /// The code page of a word.
    Word([u8; 16]),
    /// Its first two bytes.
    Front(u8, u8),
    /// These bytes, filled up with FF.
    Plain(&'static [u8]),
}

/// The words of a start gate and an active gate of number 1, and of an active gate of number 2.
const START: [u8; 16] = [0x53, 1, 0, 0, 0, 1, 2, 0, 0, 0, 0, 0, 0, 0, 0, 0];

const ACTIVE: [u8; 16] = [0x41, 1, 0, 0, 0, 1, 0, 0, 0, 0, 0, 0, 0, 0, 0, 0];

const NEXT_ACTIVE: [u8; 16] = [0x41, 1, 0, 0, 0, 2, 0, 0, 0, 0, 0, 0, 0, 0, 0, 0];

/// The words of a head in page 2, of 8 bytes, and of its gate, of a block that no image has.
const HEAD: [u8; 16] = [0x48, 1, 0, 9, 0, 8, 0, 2, 0, 0, 0, 0, 0, 0, 0, 0];

const GATE: [u8; 16] = [0x47, 1, 0, 9, 0, 2, 0, 0, 0, 0, 0, 0, 0, 0, 0, 0];

/// The commit of generation 1 in version 1: its number, and the indices of the blocks 3 to 23, of which 3, 4 and 8 are used.
const OLD_COMMIT: &[u8] = &[
    1, 0, 0, 0, 1, 0, 0, 0xFF, 0xFF, 0xFF, 0, 0xFF, 0xFF, 0xFF, 0xFF, 0xFF, 0xFF, 0xFF, 0xFF, 0xFF,
    0xFF, 0xFF, 0xFF, 0xFF, 0xFF, 0xFF,
];

/// The words of the heads of its copies, of 26 bytes.
const OLD_HEAD: [u8; 16] = [0x48, 1, 0, 16, 0, 26, 0, 17, 0, 0, 0, 0, 0, 0, 0, 0];

const OLD_SECOND_HEAD: [u8; 16] = [0x48, 1, 0, 17, 0, 26, 0, 20, 0, 0, 0, 0, 0, 0, 0, 0];

/// What makes that image one of version 1: the version of the mark, and the copies of the commit.
const OLD: &[(usize, Change)] = &[
    (3, Change::Front(1, 0)),
    (17, Change::Word(OLD_HEAD)),
    (18, Change::Plain(OLD_COMMIT)),
    (20, Change::Word(OLD_SECOND_HEAD)),
    (21, Change::Plain(OLD_COMMIT)),
];

/// Changes of an image, each with its page, of which sector 0 has the first 1,024, with what the next run reports and its status.
static IMAGES: [(&[(usize, Change)], &str, u8); 12] = [
    (&[], "life 1 generation 1\n", 0),
    (&[(0, Change::Zeros)], "life 1 refused sector 0 page 0\n", 6),
    (
        &[(1, Change::Word(NEXT_ACTIVE))],
        "life 1 refused sector 0 page 1\n",
        6,
    ),
    (
        &[(1024, Change::Word(START)), (1025, Change::Word(ACTIVE))],
        "life 1 refused sector 1 page 0\n",
        6,
    ),
    (
        &[(2, Change::Word(HEAD))],
        "life 1 refused sector 0 page 2\n",
        6,
    ),
    (
        &[(4, Change::Word(GATE))],
        "life 1 refused sector 0 page 4\n",
        6,
    ),
    (&[(4, Change::Zeros)], "life 1 refused block 1\n", 6),
    (&[(13, Change::Front(0, 7))], "life 1 refused block 8\n", 6),
    (&[(19, Change::Zeros)], "life 1 generation 1\n", 0),
    (
        &[(19, Change::Zeros), (22, Change::Zeros)],
        "life 1 generation 0\n",
        0,
    ),
    (&[(23, Change::Zeros)], "life 1 generation 1\n", 0),
    (
        &[(511, Change::Zeros)],
        "life 1 refused sector 0 page 511\n",
        6,
    ),
];

/// Scripts that are none, each with what is reported of it.
static REFUSED: [(&[u8], &str); 12] = [
    (b"# \x80\n", "script line 1 byte\n"),
    (b"nothing\n", "script line 1 word\n"),
    (b"event 0 count 1 1 1 1\n", "script line 1 form\n"),
    (b"event 1 dtc 000001\n", "script line 1 order\n"),
    (b"cycle 0\nmemory 1\n", "script line 2 order\n"),
    (b"event 0 dtc 000000\n", "script line 1 range\n"),
    (b"fail 0\n", "script line 1 range\n"),
    (b"event 0 dtc 000001\ndid 0 FFFF\n", "script line 2 did\n"),
    (
        b"event 0 dtc 000001\ndid 0 0101\ndid 0 0101\ndid 0 0101\ndid 0 0101\ndid 0 0101\ndid 0 0101\ndid 0 0101\n\
          did 0 0101\ndid 0 0101\n",
        "script line 10 many\n",
    ),
    (b"par\n", "script line 1 block\n"),
    (b"par\nend\n", "script line 2 block\n"),
    (b"par\nlane\nsave\nlane\ndrain\n", "script line 5 block\n"),
];

/// One byte more than a script has at most.
const TOO_MANY: usize = 1_048_577;

/// A script with a line that ends in a carriage return and a line feed, and one that ends in neither.
const ACCEPTED: &[u8] = b"event 0 dtc 123456\r\ncycle 0";

/// A script without a trouble code, and what is reported of it.
const UNFORMED: &[u8] = b"event 0 count 1 1 1 1\n";

const UNFORMED_TOLD: &str = "script line 1 form\n";

/// How many calls of a stream are made to fail, one in each run.
const CALLS: u32 = 10;

/// Runs these bytes under a word over a blank flash, of a source and a sink that fail at these calls: the status and what was written.
fn run_blank<R: Threads + Wait + Sync>(
    rt: &R,
    alloc: Global,
    word: &str,
    script: &[u8],
    failing: (&[u32], &[u32]),
) -> Result<(u8, MemSink), AllocError> {
    let flash = FlashMem::blank(alloc, PAGES, BOOTS)?;
    let (status, sink, _) = run_over(rt, flash, &[word], script, failing, alloc)?;
    Ok((status, sink))
}

/// A script under a word over a blank flash writes this, and ends with this status.
fn is_told_of_a_blank<R: Threads + Wait + Sync + Abort>(
    rt: &R,
    alloc: Global,
    word: &str,
    script: &[u8],
    told: (u8, &str),
) -> Result<(), Fail> {
    ends_so_on_blank(rt, alloc, (&[word], script), (NONE, NONE), told)
}

/// A script over this flash writes this, and its run ends with this status.
fn is_told<R: Threads + Wait + Sync + Abort>(
    rt: &R,
    alloc: Global,
    flash: FlashMem,
    script: &str,
    told: (u8, &str),
) -> Result<(), Fail> {
    ends_so(
        rt,
        alloc,
        flash,
        (&["run"], script.as_bytes()),
        (NONE, NONE),
        told,
    )?;
    Ok(())
}

/// The pages of a flash, sector 0's first.
fn pages_of(alloc: Global, flash: &FlashMem) -> Result<Vec<[u8; 32]>, AllocError> {
    let mut image = Vec::new(alloc);
    for sector in 0..2 {
        for page in 0..flash.pages() {
            image.push(*flash.page(sector, page))?;
        }
    }
    Ok(image)
}

/// The code page of a word.
fn code_page(word: [u8; 16]) -> [u8; 32] {
    seal(&word)
}

/// A page after a change.
fn changed(page: &[u8; 32], change: Change) -> [u8; 32] {
    match change {
        Change::Zeros => [0; 32],
        Change::Word(word) => code_page(word),
        Change::Front(first, second) => {
            let mut page = *page;
            page[0] = first;
            page[1] = second;
            page
        }
        Change::Plain(bytes) => {
            let mut page = [0xFF; 32];
            for (at, byte) in bytes.iter().enumerate() {
                if at < page.len() {
                    page[at] = *byte;
                }
            }
            page
        }
    }
}

/// The pages that the script leaves.
fn saved_image<R: Threads + Wait + Sync + Abort>(
    rt: &R,
    alloc: Global,
) -> Result<Vec<[u8; 32]>, AllocError> {
    let blank = FlashMem::blank(alloc, PAGES, BOOTS)?;
    let (status, _, saved) = run_over(rt, blank, &["run"], SAVED.as_bytes(), (NONE, NONE), alloc)?;
    holds(rt, status == 0, "the run that leaves the image");
    pages_of(alloc, &saved)
}

/// Makes changes of pages that the image has, and answers whether it has them all.
fn change_all(image: &mut Vec<[u8; 32]>, changes: &[(usize, Change)]) -> bool {
    for (page, change) in changes {
        if *page >= image.len() {
            return false;
        }
        image[*page] = changed(&image[*page], *change);
    }
    true
}

/// The pages that the script leaves, in version 2 or in version 1, with changes.
fn image_with<R: Threads + Wait + Sync + Abort>(
    rt: &R,
    alloc: Global,
    version: &[(usize, Change)],
    changes: &[(usize, Change)],
) -> Result<FlashMem, AllocError> {
    let mut image = saved_image(rt, alloc)?;
    let are_made = change_all(&mut image, version) && change_all(&mut image, changes);
    holds(rt, are_made, "the changes of the image");
    assert!(rt; image.len() == 2048);
    FlashMem::of(alloc, image, BOOTS)
}

/// Both versions, each by the changes that make an image of it.
static VERSIONS: [&[(usize, Change)]; 2] = [&[], OLD];

#[test]
fn changed_images_are_told(rt: HostRuntime) -> Result<(), Fail> {
    let alloc = rt.alloc();
    for version in &VERSIONS {
        for (changes, told, status) in &IMAGES {
            let flash = image_with(&rt, alloc, version, changes)?;
            is_told(&rt, alloc, flash, CONFIGURED, (*status, told))?;
        }
    }
    Ok(())
}

/// Scripts after an image of version 1, which is restored, each with its report. A save that is cut before its first program leaves
/// generation 1; one that is cut after the first copy of its commit leaves generation 2, beside a second copy that still names
/// generation 1 in version 1.
static RESTORED: [(&str, &str); 2] = [
    (
        "memory 1\nblocks 0\nevent 0 dtc 123456\nshow 0\ncut 1 none\nsave\npower\n",
        "life 1 generation 1\nshow 0 -> status 2F fdc 0 failed 1 clean 0 stored 1 overflow 0\ncut 1 none -> armed\n\
         save -> flash\nlife 2 generation 1\n",
    ),
    (
        "memory 1\nblocks 0\nevent 0 dtc 123456\nshow 0\ncut 4 none\nsave\npower\n",
        "life 1 generation 1\nshow 0 -> status 2F fdc 0 failed 1 clean 0 stored 1 overflow 0\ncut 4 none -> armed\n\
         save -> flash\nlife 2 generation 2\n",
    ),
];

#[test]
fn an_image_of_version_1_is_restored(rt: HostRuntime) -> Result<(), Fail> {
    for (script, told) in &RESTORED {
        let flash = image_with(&rt, rt.alloc(), OLD, &[])?;
        is_told(&rt, rt.alloc(), flash, script, (0, told))?;
    }
    Ok(())
}

/// This many event lines, with DTCs from 020000 on.
fn event_lines(alloc: Global, count: u32) -> Result<String, AllocError> {
    let mut lines = String::new(alloc);
    for number in 0..count {
        lines.push_str(format!(in alloc; "event {number} dtc 02{number:04X}\n")?.as_str())?;
    }
    Ok(lines)
}

/// A configuration of 256 events, the most of a script.
#[test]
fn many_events_are_told(rt: HostRuntime) -> Result<(), Fail> {
    let alloc = rt.alloc();
    let mut script = event_lines(alloc, 256)?;
    let told = "ok events 256 entries 16 needed 334 pages 512 steps 0 lives 1\n";
    is_told_of_a_blank(&rt, alloc, "check", script.as_bytes(), (0, told))?;
    script.push_str("t A 19 01 50\ncycle 0\nfail 200\nsave\npower\nt A 19 02 08\n")?;
    let told =
        "life 1 generation 0\nt A 19 01 50 -> 59 01 FF 01 01 00\ncycle 0 -> taken\nfail 200 -> taken\nsave -> 1\n\
                life 2 generation 1\nt A 19 02 08 -> 59 02 FF 02 00 C8 2F\n";
    is_told_of_a_blank(&rt, alloc, "run", script.as_bytes(), (0, told))
}

/// The words that read a script.
static READERS: [&str; 2] = ["run", "check"];

#[test]
fn one_event_too_many_is_told(rt: HostRuntime) -> Result<(), Fail> {
    let more = event_lines(rt.alloc(), 257)?;
    for word in &READERS {
        let told = "script line 257 many\n";
        is_told_of_a_blank(&rt, rt.alloc(), word, more.as_bytes(), (2, told))?;
    }
    Ok(())
}

#[test]
fn scripts_are_refused(rt: HostRuntime) -> Result<(), Fail> {
    for word in &READERS {
        for (script, told) in &REFUSED {
            is_told_of_a_blank(&rt, rt.alloc(), word, script, (2, told))?;
        }
    }
    Ok(())
}

#[test]
fn large_scripts_are_refused(rt: HostRuntime) -> Result<(), Fail> {
    let mut large = Vec::new(rt.alloc());
    large.resize(TOO_MANY, b'#')?;
    for word in &READERS {
        is_told_of_a_blank(&rt, rt.alloc(), word, &large, (2, "script line 0 large\n"))?;
    }
    Ok(())
}

#[test]
fn line_ends_are_accepted(rt: HostRuntime) -> Result<(), Fail> {
    for word in &READERS {
        let (status, _) = run_blank(&rt, rt.alloc(), word, ACCEPTED, (NONE, NONE))?;
        holds(&rt, status == 0, word);
    }
    Ok(())
}

/// The status of a run whose source fails at this call, and whether what it writes is due: `read fault`, or what is reported of the script.
fn status_of_a_pull<R: Threads + Wait + Sync>(
    rt: &R,
    alloc: Global,
    call: u32,
) -> Result<(u8, bool), AllocError> {
    let (status, sink) = run_blank(rt, alloc, "run", UNFORMED, (&[call], NONE))?;
    let told = if status == 3 {
        "read fault\n"
    } else {
        UNFORMED_TOLD
    };
    Ok((status, sink.bytes() == told.as_bytes()))
}

/// The status of a run whose sink fails at this call, and whether what it writes is due: all that is reported of the script, or a front of it.
fn status_of_a_push<R: Threads + Wait + Sync>(
    rt: &R,
    alloc: Global,
    call: u32,
) -> Result<(u8, bool), AllocError> {
    let (status, sink) = run_blank(rt, alloc, "run", UNFORMED, (NONE, &[call]))?;
    let is_whole = sink.bytes().len() == UNFORMED_TOLD.len();
    let is_front = UNFORMED_TOLD.as_bytes().starts_with(sink.bytes());
    Ok((status, is_front && (status == 4 || is_whole)))
}

/// Each call of the source, and then of the sink, is the one that fails: the first ones are made, and those from some call on are not.
#[test]
fn streams_fail_at_each_call(rt: HostRuntime) -> Result<(), Fail> {
    let mut read = 3;
    let mut write = 4;
    for call in 0..CALLS {
        let (status, is_due) = status_of_a_pull(&rt, rt.alloc(), call)?;
        let is_told = is_due && (status == read || status == 2 && call > 0);
        holds_at(&rt, is_told, "pull", call as usize);
        read = status;
        let (status, is_due) = status_of_a_push(&rt, rt.alloc(), call)?;
        let is_told = is_due && (status == write || status == 2 && call > 0);
        holds_at(&rt, is_told, "push", call as usize);
        write = status;
    }
    holds(&rt, (read, write) == (2, 2), "the last calls are not made");
    Ok(())
}
