//! Worked rows of the driver.
ghost use Rattle.std.specs.Prelude.{◌≡◌, ◌+◌, ◌*◌, ◌≤◌, IfOk, vec_len};
ghost use Rattle.flt_flash.specs.Memory.{flash_state as flash_state};
ghost use Rattle.flt_code.specs.Word.{IsWord};

use super::*;

/// The first page of plain bytes on a flash that was blank.
const FIRST_BYTES: Arm = Arm::Mute {
    sector: 0,
    page: 3,
    times: 1,
};

/// Rows on a blank flash, and how often each sector was erased after them.
static ROWS: [(&str, &[Step], (u64, u64)); 3] = [
    ("a block is written and made invalid", WRITTEN, (1, 0)),
    (
        "the record after the last page switches",
        &[
            Step::Fill(21),
            Step::Read(8, Ok(Found::Bytes(1)), 20),
            Step::Spent(false),
        ],
        (1, 1),
    ),
    (
        "a mount reads no plain bytes",
        &[
            Step::Write(8, 1, 1, Ok(())),
            Step::Arm(FIRST_BYTES),
            Step::Mount(Ok(())),
            Step::Read(8, Err(BlockFault::Flash), UNREAD),
            Step::Read(8, Ok(Found::Bytes(1)), 1),
        ],
        (1, 0),
    ),
];

#[test]
fn rows_go_as_written(rt: HostRuntime) -> Result<(), Fail> {
    for (row, steps, (first, second)) in &ROWS {
        let flash = play_on_blank(&rt, rt.alloc(), row, steps)?;
        holds(&rt, is_worn(&flash, *first, *second), row);
    }
    Ok(())
}

#[test]
fn twenty_records_fill_the_log(rt: HostRuntime) -> Result<(), Fail> {
    let flash = play_on_blank(&rt, rt.alloc(), "twenty records", &[Step::Fill(20)])?;
    let last = Word::Gate { block: 8, page: 59 };
    let is_full = word_at(&flash, 0, 61) == Some(last);
    holds(&rt, is_full, "the last gate");
    let ends_there = is_blank(&flash, 0, 62) && is_blank(&flash, 0, 63);
    holds(&rt, ends_there, "the pages after it");
    holds(&rt, is_worn(&flash, 1, 0), "the wear");
    Ok(())
}

/// The answer where two records of 6 pages leave no room for one of three.
const FULL: Result<(), BlockFault> = Err(BlockFault::Full {
    live: 12,
    needed: 3,
});

/// Two records fill 14 pages, of which the gates have two, and then one byte more finds no room.
static FILLED: [Step; 5] = [
    Step::Write(8, 128, 7, Ok(())),
    Step::Write(9, 128, 9, Ok(())),
    Step::Write(8, 1, 7, FULL),
    Step::Read(8, Ok(Found::Bytes(128)), 7),
    Step::Read(9, Ok(Found::Bytes(128)), 9),
];

#[test]
fn a_record_without_room_is_refused(rt: HostRuntime) -> Result<(), Fail> {
    let flash = FlashMem::blank(rt.alloc(), 14, 2)?;
    let mut fee = two_blocks(rt.alloc(), flash, 14)?;
    play(&rt, &mut fee, "no room", &FILLED);
    Ok(())
}

/// The page of a word.
fn page_of(word: Word) -> [u8; 32]
    requires { IsWord word }
{
    seal(&put_word(&word))
}

/// Two sectors of 64 pages, of which sector 0 is valid under this number.
fn valid_image(alloc: Global, sequence: u32) -> Result<Vec<[u8; 32]>, AllocError>
    ensures { IfOk result (λ image. vec_len image ≡ 128) }
{
    let mut image = vec![in alloc; BLANK_PAGE; 128]?;
    image[0] = page_of(Word::Start {
        sequence,
        pages: 64,
    });
    image[1] = page_of(Word::Active { sequence });
    Ok(image)
}

/// Such sectors under the last number, with a log that is full of records that make block 8 invalid.
fn spent_image(alloc: Global) -> Result<Vec<[u8; 32]>, AllocError>
    ensures { IfOk result (λ image. vec_len image ≡ 128) }
{
    let mut image = valid_image(alloc, u32::MAX)?;
    for record in 0..31_u16 {
        let page = 2 + 2 * record;
        image[page as usize] = page_of(Word::Head {
            block: 8,
            length: 0,
            valid: false,
            page,
        });
        image[page as usize + 1] = page_of(Word::Gate { block: 8, page });
    }
    Ok(image)
}

/// More than the last sequence number allows.
static OVERSPENT: [Step; 5] = [
    Step::Read(8, Ok(Found::Invalid), UNREAD),
    Step::Write(9, 1, 1, Err(BlockFault::SequenceSpent)),
    Step::Invalidate(8, Err(BlockFault::SequenceSpent)),
    Step::Read(9, Ok(Found::Missing), UNREAD),
    Step::Spent(true),
];

#[test]
fn a_full_log_under_the_last_number_is_spent(rt: HostRuntime) -> Result<(), Fail> {
    let flash = FlashMem::of(rt.alloc(), spent_image(rt.alloc())?, 2)?;
    play_on(&rt, rt.alloc(), flash, "spent", &OVERSPENT)?;
    Ok(())
}

/// The gate with which a log begins, and so its damage.
const GATE: Word = Word::Gate { block: 8, page: 2 };

const DAMAGED: BlockFault = BlockFault::Damaged { sector: 0, page: 2 };

/// Such sectors, with a log that begins with a gate.
fn damaged_image(alloc: Global) -> Result<Vec<[u8; 32]>, AllocError>
    ensures { IfOk result (λ image. vec_len image ≡ 128) }
{
    let mut image = valid_image(alloc, 1)?;
    image[2] = page_of(GATE);
    Ok(image)
}

/// Each call that mounts answers the place of the damage.
static MET: [Step; 4] = [
    Step::Mount(Err(DAMAGED)),
    Step::Write(8, 1, 1, Err(DAMAGED)),
    Step::Invalidate(8, Err(DAMAGED)),
    Step::Read(8, Err(DAMAGED), UNREAD),
];

#[test]
fn a_damaged_log_is_told_and_left(rt: HostRuntime) -> Result<(), Fail> {
    let flash = FlashMem::of(rt.alloc(), damaged_image(rt.alloc())?, 2)?;
    let flash = play_on(&rt, rt.alloc(), flash, "damaged", &MET)?;
    holds(&rt, is_worn(&flash, 0, 0), "the wear");
    let is_left = word_at(&flash, 0, 2) == Some(GATE) && is_blank(&flash, 0, 3);
    holds(&rt, is_left, "the log");
    Ok(())
}

/// Block 9 is written, and then block 8 until the log is full and once more.
static SWITCHED: [Step; 2] = [Step::Write(9, 1, 9, Ok(())), Step::Fill(20)];

/// Whether the record of one byte of a block begins at this page of sector 1.
fn is_record(flash: &FlashMem, block: u16, page: u16) -> bool {
    let head = Word::Head {
        block,
        length: 1,
        valid: true,
        page,
    };
    word_at(flash, 1, page) == Some(head)
}

#[test]
fn a_switch_copies_in_ascending_order(rt: HostRuntime) -> Result<(), Fail> {
    let flash = play_on_blank(&rt, rt.alloc(), "switched", &SWITCHED)?;
    holds(&rt, is_record(&flash, 8, 2), "the first record");
    holds(&rt, is_record(&flash, 9, 5), "the second record");
    holds(&rt, is_record(&flash, 8, 8), "the third record");
    Ok(())
}
