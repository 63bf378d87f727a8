//! The bytes of each block written out by hand, what is read back of them, and what is refused.
ghost use Rattle.std.specs.Prelude.{◌<◌, IsTrue};
ghost use Rattle.flt_store_model.specs.Form.{HasNoLater};
ghost use Rattle.flt_store_model.specs.Holding.{last_number};
ghost use Rattle.flt_store_model.specs.Successor.{number_in};

use super::{holds, holds_at};
use arrayvec::ArrayVec;
use flt_config::{
    Config, DidUse, EntryState, EventCfg, EventState, Frame, Persist, ValidConfig, check, fits,
    initial,
};
use flt_image::{
    BlockBytes, Commit, StateBlocks, block_table, fee_numbers, get_block, get_commit, get_mark,
    is_used, mark_of, next_commit, put_block, put_commit, put_commit_1, put_mark, put_mark_1,
    used_ids,
};
use flt_nvm::{BlockCfg, Kind};
use flt_store_model::INDICES;
use std::process::Abort;
use std::test::Fail;

/// Each note names another event.
static SUMMARY: [u8; 32] = [
    1, 1, 1, 0, 0, 1, 0, 3, 0, 0, 0, 2, 0, 0, 0, 0, 0, 0, 0, 0, 0, 0, 0, 0, 0, 0, 0, 0, 0, 0, 0, 0,
];

/// No entry, no note and no overflow.
static NO_SUMMARY: [u8; 32] = [
    1, 0, 0, 0, 0xFF, 0xFF, 0xFF, 0xFF, 0xFF, 0xFF, 0xFF, 0xFF, 0, 0, 0, 0, 0, 0, 0, 0, 0, 0, 0, 0,
    0, 0, 0, 0, 0, 0, 0, 0,
];

static STATES: [u8; 64] = [
    0x2F, 3, 0, 1, 0xAC, 1, 0x80, 2, 0x50, 0, 0, 0, 0x50, 0, 0, 0, 0x50, 0, 0, 0, 0x50, 0, 0, 0,
    0x50, 0, 0, 0, 0x50, 0, 0, 0, 0x50, 0, 0, 0, 0x50, 0, 0, 0, 0x50, 0, 0, 0, 0x50, 0, 0, 0, 0x50,
    0, 0, 0, 0x50, 0, 0, 0, 0x50, 0, 0, 0, 0x50, 0, 0, 0,
];

static ENTRY: [u8; 68] = [
    0, 0, 5, 3, 1, 2, 3, 0, 0, 0, 0, 0, 0, 0, 0, 0, 0, 0, 0, 0, 0, 0, 0, 0, 0, 0, 0, 0, 0, 0, 0, 0,
    0, 0, 0, 0, 4, 5, 6, 0, 0, 0, 0, 0, 0, 0, 0, 0, 0, 0, 0, 0, 0, 0, 0, 0, 0, 0, 0, 0, 0, 0, 0, 0,
    0, 0, 0, 0,
];

static NO_ENTRY: [u8; 68] = [
    0xFF, 0xFF, 0, 0, 0, 0, 0, 0, 0, 0, 0, 0, 0, 0, 0, 0, 0, 0, 0, 0, 0, 0, 0, 0, 0, 0, 0, 0, 0, 0,
    0, 0, 0, 0, 0, 0, 0, 0, 0, 0, 0, 0, 0, 0, 0, 0, 0, 0, 0, 0, 0, 0, 0, 0, 0, 0, 0, 0, 0, 0, 0, 0,
    0, 0, 0, 0, 0, 0,
];

/// The summary at index 0, the states at 1, the first entry at 1 and the second at 0.
static COMMIT: [u8; 10] = [2, 1, 2, 3, 4, 0x22, 0, 0, 0, 0];

static OLD_COMMIT: [u8; 26] = [
    1, 1, 2, 3, 4, 0, 1, 0xFF, 0xFF, 0xFF, 1, 0, 0xFF, 0xFF, 0xFF, 0xFF, 0xFF, 0xFF, 0xFF, 0xFF,
    0xFF, 0xFF, 0xFF, 0xFF, 0xFF, 0xFF,
];

static MARK: [u8; 8] = [2, 1, 2, 0, 4, 2, 0, 0];

static OLD_MARK: [u8; 8] = [1, 1, 2, 0, 4, 2, 0, 0];

/// Four events, the first with frames of three bytes, the second with a warning indicator; two entries.
fn config() -> Config {
    let mut dids = ArrayVec::new();
    dids.push(DidUse {
        id: 0x0101,
        width: 2,
    });
    dids.push(DidUse {
        id: 0x0103,
        width: 1,
    });
    let mut events = ArrayVec::new();
    events.push(EventCfg {
        dids,
        ..EventCfg::new(1)
    });
    events.push(EventCfg {
        indicator: true,
        ..EventCfg::new(2)
    });
    events.push(EventCfg::new(3));
    events.push(EventCfg::new(4));
    Config {
        id: 0x0102,
        memory: 2,
        pages: 512,
        blocks: 1,
        events,
    }
}

/// The configuration, which is valid.
fn valid(rt: &impl Abort) -> ValidConfig {
    check(config()).expect(rt, "the configuration is valid")
}

fn frame(first: u8, second: u8, third: u8) -> Frame {
    let mut frame = Frame::new();
    frame.push(first);
    frame.push(second);
    frame.push(third);
    frame
}

fn entry() -> EntryState {
    EntryState {
        event: 0,
        occurrence: 5,
        first: frame(1, 2, 3),
        recent: frame(4, 5, 6),
    }
}

fn never_tested() -> EventState {
    EventState {
        status: 0x50,
        failed: 0,
        clean: 0,
        lit: false,
    }
}

/// A state of one entry, of two where the second is of this event.
fn state(second: Option<u16>) -> Persist {
    let mut events = ArrayVec::new();
    events.push(EventState {
        status: 0x2F,
        failed: 3,
        clean: 1,
        lit: false,
    });
    events.push(EventState {
        status: 0xAC,
        failed: 1,
        clean: 2,
        lit: true,
    });
    events.push(never_tested());
    events.push(never_tested());
    let mut entries = ArrayVec::new();
    entries.push(entry());
    if let Some(event) = second {
        entries.push(EntryState {
            event,
            occurrence: 1,
            first: Frame::new(),
            recent: Frame::new(),
        });
    }
    Persist {
        events,
        entries,
        overflow: true,
        first_failed: Some(1),
        first_confirmed: Some(3),
        recent_failed: Some(0),
        recent_confirmed: Some(2),
    }
}

fn put(config: &ValidConfig, state: &Persist, id: u16) -> BlockBytes {
    let mut out = BlockBytes::new();
    if is_used(config, id) && fits(config, state) {
        put_block(config, state, id, &mut out);
    }
    out
}

fn get(config: &ValidConfig, id: u16, bytes: &[u8], into: &mut Persist) -> bool {
    is_used(config, id)
        && into.events.len() == config.config().events.len()
        && get_block(config, id, bytes, into)
}

fn changed(bytes: &[u8], at: usize, value: u8) -> BlockBytes {
    let mut out = BlockBytes::new();
    for (place, byte) in bytes.iter().enumerate() {
        if !out.is_full() {
            out.push(if place == at { value } else { *byte });
        }
    }
    out
}

fn is_put(config: &ValidConfig, state: &Persist, id: u16, bytes: &[u8]) -> bool {
    &put(config, state, id)[..] == bytes
}

/// The bytes of a block of the state of one entry.
fn bytes_of(id: u16) -> &'static [u8] {
    match id {
        3 => &SUMMARY,
        4 => &STATES,
        8 => &ENTRY,
        _ => &NO_ENTRY,
    }
}

/// The blocks of a state, in the order in which they are taken.
static BLOCKS: [u16; 4] = [3, 4, 8, 9];

#[test]
fn blocks_have_the_bytes_written_by_hand(rt: HostRuntime) {
    let valid = valid(&rt);
    let state = state(None);
    holds(&rt, fits(&valid, &state), "the state fits");
    for id in &BLOCKS {
        let has_its_bytes = is_put(&valid, &state, *id, bytes_of(*id));
        holds_at(&rt, has_its_bytes, "block", *id as usize);
    }
    let is_first = is_put(&valid, &initial(&valid), 3, &NO_SUMMARY);
    holds(&rt, is_first, "the first summary");
    let are_used = &used_ids(&valid)[..] == &BLOCKS[..];
    holds(&rt, are_used, "the blocks in use");
}

/// Whether the state has one entry, of no event.
fn has_an_unknown_entry(state: &Persist) -> bool {
    state.entries.len() == 1 && state.entries[0].event == 0xFFFF
}

#[test]
fn blocks_taken_in_order_give_the_state(rt: HostRuntime) {
    let valid = valid(&rt);
    let mut into = initial(&valid);
    for id in &BLOCKS {
        let is_taken = get(&valid, *id, bytes_of(*id), &mut into)
            && (*id != 3 || has_an_unknown_entry(&into));
        holds_at(&rt, is_taken, "block", *id as usize);
    }
    holds(&rt, into == state(None), "the state");
}

/// Whether these bytes of a block are refused, and leave the state of one entry, or of two, as it was.
fn is_refused(config: &ValidConfig, second: Option<u16>, id: u16, bytes: &[u8]) -> bool {
    let mut after = state(second);
    !get(config, id, bytes, &mut after) && after == state(second)
}

/// The byte of a block that is another one.
static ODD_BYTES: [(u16, usize, u8); 21] = [
    (3, 0, 2), // another version
    (3, 1, 2), // an overflow flag that is none
    (3, 2, 3), // more entries than the memory has room for
    (3, 3, 1), // a byte that is not 00
    (3, 5, 4), // a noted event that is not configured
    (3, 6, 0xFF), // half of none
    (3, 31, 1), // a byte that is not 00
    (4, 2, 0x80), // lit without a warning indicator
    (4, 6, 0), // the warning bit without being lit
    (4, 4, 0x2C), // lit without the warning bit
    (4, 16, 0x51), // a state past the last event
    (4, 63, 1), // a state past the last event
    (8, 1, 4), // an event that is not configured
    (8, 2, 0), // an entry that never occurred
    (8, 3, 4), // frames of another length
    (8, 3, 33), // frames longer than any
    (8, 7, 1), // the first frame filled up with another byte
    (8, 39, 1), // the recent frame filled up with another byte
    (8, 67, 1), // the recent frame filled up with another byte
    (9, 0, 0), // an event past the number of entries
    (9, 67, 1), // a byte that is not 00
];

#[test]
fn bytes_of_no_block_that_fits_are_refused(rt: HostRuntime) {
    let valid = valid(&rt);
    let mut row = 0usize;
    for (id, at, byte) in &ODD_BYTES {
        let bytes = changed(bytes_of(*id), *at, *byte);
        let is_refused = is_refused(&valid, None, *id, &bytes);
        holds_at(&rt, is_refused, "odd byte", row);
        row = row.wrapping_add(1);
    }
}

/// Whether these bytes of a block are taken into the state of two entries.
fn is_taken(config: &ValidConfig, id: u16, bytes: &[u8]) -> bool {
    get(config, id, bytes, &mut state(Some(1)))
}

/// Whether an entry is refused in the place of the second one and taken in that of the first.
fn is_taken_once(config: &ValidConfig) -> bool {
    let mut after = state(Some(1));
    !get(config, 9, &ENTRY, &mut after) && get(config, 8, &ENTRY, &mut after)
}

#[test]
fn counts_and_second_entries_are_refused(rt: HostRuntime) {
    let valid = valid(&rt);
    let clean = changed(&changed(&STATES, 2, 1), 3, 0xFF);
    holds(&rt, fits(&valid, &state(Some(1))), "the state fits");
    holds(&rt, !is_taken(&valid, 4, &clean), "the clean cycles");
    holds(&rt, is_taken_once(&valid), "the second entry");
}

/// Whether a block of the state of two entries is taken, and neither with a byte less nor with a byte more.
fn takes_one_length(config: &ValidConfig, id: u16) -> bool {
    let mut shorter = put(config, &state(Some(1)), id);
    let taken = is_taken(config, id, &shorter);
    shorter.pop();
    let mut longer = put(config, &state(Some(1)), id);
    if !longer.is_full() {
        longer.push(0);
    }
    taken && is_refused(config, Some(1), id, &shorter) && !is_taken(config, id, &longer)
}

#[test]
fn lengths_are_refused(rt: HostRuntime) {
    let valid = valid(&rt);
    for id in &BLOCKS {
        let takes_it = takes_one_length(&valid, *id);
        holds_at(&rt, takes_it, "block", *id as usize);
    }
}

/// The blocks of the first state, or of one that differs from it in its summary alone.
fn blocks_of(config: &ValidConfig, overflow: bool) -> StateBlocks {
    let mut state = initial(config);
    state.overflow = overflow;
    let mut blocks = StateBlocks::unknown();
    if fits(config, &state) {
        blocks.put_all(config, &state);
    }
    blocks
}

/// Whether a commit can follow.
fn can_follow(current: &Option<Commit>) -> bool
    ensures { IsTrue result → (number_in current.now < last_number) }
{
    match current {
        None => true,
        Some(commit) => commit.generation < u32::MAX,
    }
}

/// Whether this is the commit of this number.
fn is_of(commit: Option<Commit>, generation: u32) -> bool {
    match commit {
        None => false,
        Some(commit) => commit.generation == generation,
    }
}

/// The number of the commit after this one, and the first byte of its bits.
fn after(
    config: &ValidConfig,
    current: Option<Commit>,
    before: &StateBlocks,
    blocks: &StateBlocks,
) -> Option<(u32, u8)> {
    if !can_follow(&current) {
        return None;
    }
    let next = next_commit(config, &current, before, blocks);
    Some((next.generation, put_commit(&next)[5]))
}

#[test]
fn a_commit_has_its_successor(rt: HostRuntime) {
    let valid = valid(&rt);
    let commit = get_commit(&valid, &COMMIT);
    holds(&rt, is_of(commit, 0x01020304), "the commit");
    let blocks = blocks_of(&valid, true);
    let first = after(&valid, None, &blocks, &blocks) == Some((1, 0x00));
    holds(&rt, first, "the first commit");
    let unknown = StateBlocks::unknown();
    let next = after(&valid, commit, &unknown, &blocks) == Some((0x01020305, 0x41));
    holds(&rt, next, "the next commit of unknown blocks");
    let before = blocks_of(&valid, false);
    let next = after(&valid, commit, &before, &blocks) == Some((0x01020305, 0x23));
    holds(&rt, next, "the next commit of known blocks");
}

/// The byte of a commit that is another one.
static ODD_COMMITS: [(usize, u8); 8] = [
    (0, 0),
    (0, 1),
    (0, 3),
    (5, 0x26),
    (6, 0x80),
    (7, 0x20),
    (9, 1),
    (9, 2),
];

/// The same of a commit of version 1.
static ODD_OLD_COMMITS: [(usize, u8); 8] = [
    (0, 2),
    (5, 2),
    (5, 0xFF),
    (6, 3),
    (7, 0),
    (8, 1),
    (10, 0xFF),
    (25, 0),
];

/// Whether each of these changes of a commit is refused.
fn are_no_commits(config: &ValidConfig, commit: &[u8], odd: &[(usize, u8)]) -> bool {
    for odd in odd {
        if get_commit(config, &changed(commit, odd.0, odd.1)).is_some() {
            return false;
        }
    }
    true
}

/// Whether the bytes are those of no commit.
fn is_no_commit(config: &ValidConfig, bytes: &[u8]) -> bool {
    get_commit(config, bytes).is_none()
}

/// The commit with a byte more.
fn longer() -> BlockBytes {
    let mut longer = changed(&COMMIT, 0, 2);
    if !longer.is_full() {
        longer.push(0xFF);
    }
    longer
}

#[test]
fn commits_are_read_of_their_own_configuration(rt: HostRuntime) {
    let valid = valid(&rt);
    let are_refused = are_no_commits(&valid, &COMMIT, &ODD_COMMITS);
    holds(&rt, are_refused, "commits with an odd byte");
    let first = Commit {
        generation: 0,
        index: [0; INDICES],
    };
    let is_refused = is_no_commit(&valid, &put_commit(&first));
    holds(&rt, is_refused, "a commit of generation 0");
    let is_refused = is_no_commit(&valid, &[2, 0, 0, 0, 0, 0x22, 0, 0, 0, 0]);
    holds(&rt, is_refused, "the bytes of one");
    let is_refused = is_no_commit(&valid, &COMMIT[..9]);
    holds(&rt, is_refused, "a byte less");
    holds(&rt, is_no_commit(&valid, &longer()), "a byte more");
}

/// The commit of either version.
fn commit() -> Commit
    ensures { HasNoLater result }
{
    let mut index = [0xFF; INDICES];
    index[0] = 0;
    index[1] = 1;
    index[5] = 1;
    index[6] = 0;
    Commit {
        generation: 0x01020304,
        index,
    }
}

/// Whether the commit has its bytes in both versions.
fn are_put(commit: &Commit) -> bool
    requires { HasNoLater commit.now }
{
    put_commit_1(commit) == OLD_COMMIT && put_commit(commit) == COMMIT
}

/// Whether these are the bytes of this commit.
fn is_commit(config: &ValidConfig, bytes: &[u8], commit: &Commit) -> bool {
    match get_commit(config, bytes) {
        None => false,
        Some(found) => found == *commit,
    }
}

#[test]
fn commits_of_both_versions_are_read(rt: HostRuntime) {
    let commit = commit();
    holds(&rt, are_put(&commit), "the bytes of both versions");
    let valid = valid(&rt);
    let is_read = is_commit(&valid, &OLD_COMMIT, &commit);
    holds(&rt, is_read, "the commit of version 1");
    let is_read = is_commit(&valid, &COMMIT, &commit);
    holds(&rt, is_read, "the commit of version 2");
    let are_refused = are_no_commits(&valid, &OLD_COMMIT, &ODD_OLD_COMMITS);
    holds(&rt, are_refused, "commits with an odd byte");
    let is_refused = is_no_commit(&valid, &OLD_COMMIT[..25]);
    holds(&rt, is_refused, "a byte less");
}

/// A configuration of 256 events, which uses each of the blocks 24 to 35.
fn of_many(rt: &impl Abort) -> ValidConfig {
    let mut events = ArrayVec::new();
    for dtc in 1..257 {
        if !events.is_full() {
            events.push(EventCfg::new(dtc));
        }
    }
    check(Config {
        id: 7,
        memory: 1,
        pages: 512,
        blocks: 0,
        events,
    })
    .expect(rt, "the configuration is valid")
}

/// The bytes of a commit, with the first and the last of the blocks 24 to 35 that it names at index 1.
static LATER_COMMITS: [([u8; 10], u16, u16); 3] = [
    ([2, 0, 0, 0, 1, 0, 0, 0, 0x01, 0x00], 27, 27),
    ([2, 0, 0, 0, 1, 0, 0, 0, 0x00, 0x01], 35, 35),
    ([2, 0, 0, 0, 1, 0, 0, 0, 0x82, 0x00], 28, 34),
];

/// Whether a commit names these of the blocks 24 to 35 at index 1 and the others at index 0.
fn names_later(commit: &Commit, first: u16, last: u16) -> bool {
    for id in 24..36 {
        if commit.index_of(id) != (id == first || id == last) as u8 {
            return false;
        }
    }
    true
}

/// Whether these are the bytes of such a commit.
fn are_of_later(config: &ValidConfig, bytes: &[u8; 10], first: u16, last: u16) -> bool {
    match get_commit(config, bytes) {
        None => false,
        Some(commit) => names_later(&commit, first, last) && put_commit(&commit) == *bytes,
    }
}

#[test]
fn later_blocks_have_their_own_bits(rt: HostRuntime) {
    let valid = of_many(&rt);
    for (bytes, first, last) in &LATER_COMMITS {
        let are_so = are_of_later(&valid, bytes, *first, *last);
        holds_at(&rt, are_so, "block", *first as usize);
    }
}

/// The byte of a mark that is another one.
static ODD_MARKS: [(usize, u8); 4] = [(0, 0), (0, 3), (6, 1), (7, 1)];

/// Whether the bytes are those of no mark.
fn is_no_mark(bytes: &[u8]) -> bool {
    get_mark(bytes).is_none()
}

#[test]
fn marks_are_read(rt: HostRuntime) {
    let mark = mark_of(&valid(&rt));
    let are_put = put_mark(&mark) == MARK && put_mark_1(&mark) == OLD_MARK;
    holds(&rt, are_put, "the bytes of both versions");
    let are_read = get_mark(&MARK) == Some(mark) && get_mark(&OLD_MARK) == Some(mark);
    holds(&rt, are_read, "the mark of both versions");
    let another = get_mark(&changed(&MARK, 2, 3));
    let is_another = another.is_some() && another != Some(mark);
    holds(&rt, is_another, "another mark");
    let mut row = 0usize;
    for (at, byte) in &ODD_MARKS {
        let is_refused = is_no_mark(&changed(&MARK, *at, *byte));
        holds_at(&rt, is_refused, "odd mark", row);
        row = row.wrapping_add(1);
    }
    let are_refused = is_no_mark(&MARK[..7]) && is_no_mark(&OLD_COMMIT[..9]);
    holds(&rt, are_refused, "another length");
}

/// Whether numbers begin and end as those of the image do.
fn are_of_image(numbers: &[u16]) -> bool {
    numbers.starts_with(&[8, 16, 17, 24, 25, 32]) && numbers.last().copied() == Some(824)
}

#[test]
fn drivers_have_a_hundred_and_nine_numbers(rt: HostRuntime) -> Result<(), Fail> {
    let numbers = fee_numbers(rt.alloc())?;
    holds(&rt, numbers.len() == 109, "how many");
    holds(&rt, are_of_image(&numbers), "the first and the last");
    Ok(())
}

static FIRST_BLOCK: BlockCfg = BlockCfg {
    id: 1,
    kind: Kind::Native,
    length: 8,
};

static LAST_BLOCK: BlockCfg = BlockCfg {
    id: 103,
    kind: Kind::Native,
    length: 32,
};

/// Whether blocks begin and end as those of the table do.
fn are_of_table(blocks: &[BlockCfg]) -> bool {
    blocks.first() == Some(&FIRST_BLOCK) && blocks.last() == Some(&LAST_BLOCK)
}

#[test]
fn the_table_has_seventy_five_blocks(rt: HostRuntime) -> Result<(), Fail> {
    let table = block_table(rt.alloc())?;
    holds(&rt, table.len() == 75, "how many");
    holds(&rt, are_of_table(&table), "the first and the last");
    Ok(())
}
