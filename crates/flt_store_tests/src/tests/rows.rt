//! Worked examples.
ghost use Rattle.std.specs.Prelude.{◌≡◌, IfOk, vec_len};
ghost use Rattle.flt_nvm.specs.Driver.{table_of};
ghost use Rattle.flt_image.specs.Table.{block_table};
ghost use Rattle.flt_store_tests.specs.Room.{IsRoomy, SameRoom};

use super::steps::{Step, play, play_on};
use super::*;

/// A page of a flash, or a blank one where there is none.
fn page_of(flash: &FlashMem, sector: u8, page: u16) -> [u8; 32] {
    if sector > 1 || page >= flash.pages() {
        return BLANK_PAGE;
    }
    *flash.page(sector, page)
}

/// The word on a page of sector 0.
fn word_on(flash: &FlashMem, page: u16) -> Option<Word> {
    match unseal(&page_of(flash, 0, page)) {
        None => None,
        Some(bytes) => get_word(&bytes),
    }
}

/// Whether a complete record of the block, of this many bytes, begins at this page of sector 0.
fn is_record(flash: &FlashMem, page: u16, block: u16, length: u16) -> bool {
    let head = Word::Head {
        block,
        length,
        valid: true,
        page,
    };
    let end = page.saturating_add(1).saturating_add(length.div_ceil(32));
    word_on(flash, page) == Some(head) && word_on(flash, end) == Some(Word::Gate { block, page })
}

/// The answer of a save that the flash stops.
const FLASH: Result<u32, SaveFault> = Err(SaveFault::Flash);

/// A first save of the second state.
const SAVED: &[Step] = &[Step::Save(1, Ok(1))];

/// It, and a save of the third state.
const SAVED_TWICE: &[Step] = &[Step::Save(1, Ok(1)), Step::Save(2, Ok(2))];

/// It, and such a save that fails at each of its three tries.
const SAVED_AND_FAILED: &[Step] = &[
    Step::Save(1, Ok(1)),
    Step::Fault(1),
    Step::Fault(2),
    Step::Fault(3),
    Step::Save(2, FLASH),
];

/// The records of the states of the first save, and of the second copy of the second commit.
const OLD_STATES: &[Record] = &[(8, 32, 64, true), (30, 17, 10, true)];

/// A page, a block, a length, and whether a complete record of that begins there.
type Record = (u16, u16, u16, bool);

/// Steps on a blank flash, further ones, and what is on sector 0 after them.
type Row = (&'static [Step], &'static [Step], &'static [Record]);

/// A flash after a start-up and the first save of an event that failed.
pub(super) fn saved_flash(rt: &impl Abort, alloc: Global) -> Result<FlashMem, Fail> {
    let config = configured(rt, 1, 0, 1);
    play(
        rt,
        alloc,
        &config,
        &[failed()],
        &[Step::Save(0, Ok(1))],
        &[],
    )
}

/// The records of the first save: a page, a block and a length.
static FIRST_SAVE: [(u16, u16, u16); 6] = [
    (2, 8, 8),
    (5, 24, 32),
    (8, 32, 64),
    (12, 64, 68),
    (17, 16, 10),
    (20, 17, 10),
];

#[test]
fn the_first_save_writes_each_block_once(rt: HostRuntime) -> Result<(), Fail> {
    let flash = saved_flash(&rt, rt.alloc())?;
    for (page, block, length) in &FIRST_SAVE {
        let is_there = is_record(&flash, *page, *block, *length);
        holds_at(&rt, is_there, "page", *page as usize);
    }
    holds(
        &rt,
        page_of(&flash, 0, 23) == BLANK_PAGE,
        "the page after them",
    );
    Ok(())
}

/// Rows of one event, of the states at first, of a failure, and of a pass after it. The commit decides: where its first gate is cut, the
/// first generation or the new one is left by what takes effect, and the third fault is answered. Where the first copy of the commit can't
/// be read, a start-up and a save after a failed one go by the second, and write the first anew where that can't be read again. A
/// start-up reads neither page of the states of the generation before, so mutes of them remain; where the second copy of the commit can't
/// be read, it is written. The second save of a state that stays makes 6 programs, and of one in which each block changes 18; a save
/// after a failed one compares with what is there, and makes 6 again.
static ROWS: [Row; 18] = [
    // The programs of the first save.
    (
        &[Step::Fault(1)],
        &[Step::Save(1, Ok(1)), Step::Armed(0)],
        &[],
    ),
    (
        &[Step::Fault(18)],
        &[Step::Save(1, Ok(1)), Step::Armed(0)],
        &[],
    ),
    (
        &[Step::Fault(19)],
        &[Step::Save(1, Ok(1)), Step::Armed(1)],
        &[],
    ),
    // The gate of the first copy decides.
    (
        &[Step::Cut(15, Pattern::Nothing)],
        &[Step::Save(1, FLASH), Step::Life(0, 0)],
        &[],
    ),
    (
        &[Step::Cut(15, Pattern::All)],
        &[Step::Save(1, FLASH), Step::Life(1, 1)],
        &[],
    ),
    (
        &[Step::Fault(1), Step::Fault(2), Step::Fault(3)],
        &[Step::Save(1, FLASH), Step::Save(1, Ok(1)), Step::Life(1, 1)],
        &[],
    ),
    // A muted first copy stops no start-up, and is written anew by the second one where that needs it.
    (
        SAVED,
        &[
            Step::Mute(18, 3),
            Step::Life(1, 1),
            Step::Armed(0),
            Step::Life(1, 1),
        ],
        &[(23, 16, 10, false)],
    ),
    (
        SAVED,
        &[
            Step::Mute(18, 6),
            Step::Life(1, 1),
            Step::Armed(0),
            Step::Life(1, 1),
        ],
        &[(23, 16, 10, true)],
    ),
    (
        SAVED,
        &[
            Step::Mute(18, 9),
            Step::Life(1, 1),
            Step::Armed(1),
            Step::Life(1, 1),
        ],
        &[(23, 16, 10, true)],
    ),
    // Nor does it stop a save after a failed one.
    (
        SAVED_AND_FAILED,
        &[
            Step::Mute(18, 3),
            Step::Save(2, Ok(2)),
            Step::Armed(0),
            Step::Life(2, 2),
        ],
        &[],
    ),
    (
        SAVED_AND_FAILED,
        &[
            Step::Mute(18, 6),
            Step::Save(2, Ok(2)),
            Step::Armed(0),
            Step::Life(2, 2),
        ],
        &[],
    ),
    (
        SAVED_AND_FAILED,
        &[
            Step::Mute(18, 9),
            Step::Save(2, Ok(2)),
            Step::Armed(1),
            Step::Life(2, 2),
        ],
        &[],
    ),
    // Pages that no generation needs may be worn.
    (
        SAVED_TWICE,
        &[Step::Mute(9, 3), Step::Life(2, 2), Step::Armed(1)],
        OLD_STATES,
    ),
    (
        SAVED_TWICE,
        &[Step::Mute(10, 3), Step::Life(2, 2), Step::Armed(1)],
        OLD_STATES,
    ),
    (
        SAVED_TWICE,
        &[Step::Mute(31, 3), Step::Life(2, 2), Step::Armed(0)],
        OLD_STATES,
    ),
    // Blocks that stay are not written.
    (
        &[Step::Save(0, Ok(1)), Step::Cut(7, Pattern::Nothing)],
        &[Step::Save(0, Ok(2)), Step::Save(0, FLASH), Step::Life(2, 0)],
        &[],
    ),
    (
        &[Step::Save(0, Ok(1)), Step::Cut(18, Pattern::Nothing)],
        &[Step::Save(1, FLASH), Step::Save(1, FLASH), Step::Life(2, 1)],
        &[],
    ),
    (
        SAVED_AND_FAILED,
        &[
            Step::Fault(7),
            Step::Save(1, Ok(2)),
            Step::Armed(1),
            Step::Life(2, 1),
        ],
        &[],
    ),
];

/// Whether the flash has these records, and has not those that must not be there.
fn are_records(flash: &FlashMem, records: &[Record]) -> bool {
    for (page, block, length, stands) in records {
        if is_record(flash, *page, *block, *length) != *stands {
            return false;
        }
    }
    true
}

/// Each row goes as it says.
fn play_all(
    rt: &impl Abort,
    alloc: Global,
    config: &ValidConfig,
    states: &[Persist],
    rows: &[Row],
) -> Result<(), Fail> {
    for (at, (first, rest, records)) in rows.iter().enumerate() {
        let flash = play(rt, alloc, config, states, first, rest)?;
        holds_at(rt, are_records(&flash, records), "row", at);
    }
    Ok(())
}

#[test]
fn saves_of_one_event_go_as_written(rt: HostRuntime) -> Result<(), Fail> {
    let config = configured(&rt, 1, 0, 1);
    let states = [initial(&config), failed(), state(&[PASSED], &[1])];
    play_all(&rt, rt.alloc(), &config, &states, &ROWS)
}

/// A save of the first state, and one of the second that is cut.
const SECOND_CUT: &[Step] = &[
    Step::Save(0, Ok(1)),
    Step::Cut(21, Pattern::Nothing),
    Step::Save(1, FLASH),
];

/// Rows of two events. The second save is cut at the head of the second copy of its commit. Where the first copy is muted then, both
/// lives after it have the generation before.
static ROWS_OF_TWO: [Row; 2] = [
    (
        SECOND_CUT,
        &[Step::Mute(46, 3), Step::Life(1, 0), Step::Life(1, 0)],
        &[(45, 16, 10, true)],
    ),
    (
        SECOND_CUT,
        &[Step::Armed(0), Step::Life(2, 1), Step::Life(2, 1)],
        &[(45, 16, 10, true)],
    ),
];

#[test]
fn a_muted_first_copy_gives_the_generation_before(rt: HostRuntime) -> Result<(), Fail> {
    let config = configured(&rt, 2, 0, 2);
    let states = [
        state(&[FAILED, NOT_TESTED], &[1]),
        state(&[FAILED, FAILED], &[2, 1]),
    ];
    play_all(&rt, rt.alloc(), &config, &states, &ROWS_OF_TWO)
}

/// The pages of both sectors.
pub(super) fn image_of(alloc: Global, flash: &FlashMem) -> Result<Vec<[u8; 32]>, AllocError>
    ensures { IfOk result (λ image. vec_len image ≡ 128) }
{
    let mut image = vec![in alloc; BLANK_PAGE; 128]?;
    for page in 0..PAGES {
        image[page as usize] = page_of(flash, 0, page);
        image[(page + PAGES) as usize] = page_of(flash, 1, page);
    }
    Ok(image)
}

/// Puts a page into an image that has it.
pub(super) fn put_page(image: &mut Vec<[u8; 32]>, page: usize, bytes: [u8; 32])
    ensures { vec_len image.new ≡ vec_len image.old }
{
    if page < image.len() {
        image[page] = bytes;
    }
}

/// A flash after the first save, of which the gate of the first copy of the commit is 32 bytes 00, so that this copy is missing.
fn without_first_copy(rt: &impl Abort, alloc: Global) -> Result<FlashMem, Fail> {
    let mut image = image_of(alloc, &saved_flash(rt, alloc)?)?;
    put_page(&mut image, 19, [0; 32]);
    Ok(FlashMem::of(alloc, image, 2)?)
}

/// Makes the first copy of the commit equal to the second, which has 10 bytes.
fn repair_first_copy<B: Blocks + Drop>(nvm: &mut Nvm<B>) -> Result<(), Fail>
    requires { table_of nvm.old ≡ block_table }
    ensures { table_of nvm.new ≡ table_of nvm.old }
{
    let mut out = [0; 128];
    match nvm.read_copy(COMMIT_ID, 2, &mut out)? {
        Got::Bytes { length: 10, .. } => Ok(nvm.repair(COMMIT_ID, 2, &out[..10])?),
        _ => Err(Fail::from("no commit in copy 2")),
    }
}

/// Whether the commit, of 10 bytes, is read from this copy.
fn reads_from<B: Blocks + Drop>(nvm: &mut Nvm<B>, copy: u8, out: &mut [u8; 128]) -> bool
    requires { table_of nvm.old ≡ block_table }
    ensures { table_of nvm.new ≡ table_of nvm.old }
{
    nvm.read(COMMIT_ID, 0, out) == Ok(Got::Bytes { length: 10, copy })
}

/// Reads the commit from its second copy while the first is missing, and from the first once that was repaired.
fn read_and_repair<B: Blocks + Drop>(rt: &impl Abort, nvm: &mut Nvm<B>) -> Result<(), Fail>
    requires { table_of nvm.old ≡ block_table }
{
    let mut out = [0; 128];
    let mut again = [0; 128];
    let is_missing = nvm.read_copy(COMMIT_ID, 1, &mut out) == Ok(Got::Missing);
    holds(rt, is_missing, "the first copy");
    holds(rt, reads_from(nvm, 2, &mut out), "a read");
    repair_first_copy(nvm)?;
    holds(
        rt,
        reads_from(nvm, 1, &mut again),
        "a read after the repair",
    );
    holds(rt, out == again, "the bytes of both copies");
    Ok(())
}

#[test]
fn a_missing_first_copy_is_repaired(rt: HostRuntime) -> Result<(), Fail> {
    let config = configured(&rt, 1, 0, 1);
    let flash = without_first_copy(&rt, rt.alloc())?;
    read_and_repair(&rt, &mut blocks_over(rt.alloc(), flash, &config)?)
}

/// Whether a start-up answers that the flash failed it.
fn is_dark<B: Blocks + Drop>(store: &mut Store<B>, config: &ValidConfig) -> bool
    requires { IsRoomy config.now store.old }
    ensures { SameRoom store.old store.new }
{
    matches!(start(store, config), Err(StartFault::Flash))
}

/// With the second copy muted a start-up can say nothing, and the next one restores by it.
#[test]
fn a_missing_first_copy_beside_a_muted_one_is_dark(rt: HostRuntime) -> Result<(), Fail> {
    let config = configured(&rt, 1, 0, 1);
    let flash = without_first_copy(&rt, rt.alloc())?;
    let mut store = store_over(rt.alloc(), flash, &config)?;
    let mute = Arm::Mute {
        sector: 0,
        page: 21,
        times: 3,
    };
    arm(&rt, &mut store, mute);
    holds(&rt, is_dark(&mut store, &config), "a start-up that is dark");
    play_on(&rt, &mut store, &config, (1, failed()), &[], &[])
}

/// Gives a page of a commit the number 2^32 - 1.
fn name_last(image: &mut Vec<[u8; 32]>, page: usize)
    ensures { vec_len image.new ≡ vec_len image.old }
{
    if page < image.len() {
        let mut bytes = image[page];
        for at in 1..5 {
            bytes[at] = 0xFF;
        }
        image[page] = bytes;
    }
}

/// A save after the last generation, and the life after it.
static LAST: [Step; 2] = [
    Step::Save(0, Err(SaveFault::Spent)),
    Step::Life(u32::MAX, 0),
];

#[test]
fn the_last_generation_is_not_followed(rt: HostRuntime) -> Result<(), Fail> {
    let config = configured(&rt, 1, 0, 1);
    let mut image = image_of(rt.alloc(), &saved_flash(&rt, rt.alloc())?)?;
    name_last(&mut image, 18);
    name_last(&mut image, 21);
    let flash = FlashMem::of(rt.alloc(), image, 2)?;
    let mut store = store_over(rt.alloc(), flash, &config)?;
    let first = (u32::MAX, failed());
    play_on(&rt, &mut store, &config, first, &[failed()], &LAST)
}

/// Whether block 0 is missing after a start-up, and holds a byte once that was put.
fn keeps_a_byte<B: Blocks + Drop>(
    rt: &impl Abort,
    store: &mut Store<B>,
    config: &ValidConfig,
) -> bool
    requires { IsRoomy config.now store.old }
{
    start(store, config).is_ok()
        && get(rt, store, config) == Ok(None)
        && put(rt, store, config, 1) == Ok(())
        && get(rt, store, config) == Ok(Some(1))
}

#[test]
fn an_application_block_is_missing_until_it_is_put(rt: HostRuntime) -> Result<(), Fail> {
    let config = configured(&rt, 1, 1, 1);
    let mut store = blank_store(rt.alloc(), &config)?;
    holds(&rt, keeps_a_byte(&rt, &mut store, &config), "block 0");
    Ok(())
}

/// The head of a record of 26 bytes under this number, at this page.
fn old_head(number: u8, page: u8) -> [u8; 32] {
    let mut bytes = [0; 32];
    bytes[0] = 0x48;
    bytes[1] = 1;
    bytes[3] = number;
    bytes[5] = 26;
    bytes[7] = page;
    for at in 0..16 {
        bytes[16 + at] = !bytes[at];
    }
    bytes
}

/// The commit of the first save in version 1: a page of plain bytes.
fn old_commit() -> [u8; 32] {
    let mut bytes = [0xFF; 32];
    bytes[0] = 1;
    for at in 1..4 {
        bytes[at] = 0;
    }
    bytes[4] = 1;
    bytes[5] = 0;
    bytes[6] = 0;
    bytes[10] = 0;
    bytes
}

/// A flash after the first save whose mark and copies of the commit are of version 1.
pub(super) fn of_version_1(rt: &impl Abort, alloc: Global) -> Result<FlashMem, Fail> {
    let mut image = image_of(alloc, &saved_flash(rt, alloc)?)?;
    let mut mark = [0xFF; 32];
    for at in 0..8 {
        mark[at] = 0;
    }
    mark[0] = 1;
    mark[4] = 1;
    mark[5] = 1;
    put_page(&mut image, 3, mark);
    put_page(&mut image, 17, old_head(16, 17));
    put_page(&mut image, 18, old_commit());
    put_page(&mut image, 20, old_head(17, 20));
    put_page(&mut image, 21, old_commit());
    Ok(FlashMem::of(alloc, image, 2)?)
}

/// A start-up writes the mark anew; the save after it is cut at its first program, or at the fourth, where the first copy of its
/// commit is there in version 2 and the second still names the generation before in version 1.
static OLD_ROWS: [[Step; 4]; 2] = [
    [
        Step::Cut(1, Pattern::Nothing),
        Step::Save(0, FLASH),
        Step::Life(1, 0),
        Step::Save(0, Ok(2)),
    ],
    [
        Step::Cut(4, Pattern::Nothing),
        Step::Save(0, FLASH),
        Step::Life(2, 0),
        Step::Save(0, Ok(3)),
    ],
];

#[test]
fn an_image_of_version_1_is_restored(rt: HostRuntime) -> Result<(), Fail> {
    let config = configured(&rt, 1, 0, 1);
    for steps in &OLD_ROWS {
        let flash = of_version_1(&rt, rt.alloc())?;
        let mut store = store_over(rt.alloc(), flash, &config)?;
        play_on(&rt, &mut store, &config, (1, failed()), &[failed()], steps)?;
        let flash = store.retire().retire();
        holds(&rt, is_record(&flash, 23, 8, 8), "the new mark");
    }
    Ok(())
}
