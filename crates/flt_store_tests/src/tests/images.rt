//! Images that were changed after a save: what a start-up reports of them.
ghost use Rattle.flt_code.specs.Word.{IsWord};

use super::rows::{image_of, put_page, saved_flash};
use super::*;

/// The first page of an entry of event 7, which occurred once.
static FOREIGN_ENTRY: [u8; 32] = [
    0, 7, 1, 0, 0, 0, 0, 0, 0, 0, 0, 0, 0, 0, 0, 0, 0, 0, 0, 0, 0, 0, 0, 0, 0, 0, 0, 0, 0, 0, 0, 0,
];

/// What is put on a page.
#[derive(Clone, Copy)]
enum Put {
    Blank,
    // All its bits are 0.
    Zeros,
    ForeignEntry,
    // A start gate and an active gate of this number.
    Start(u32),
    Active(u32),
    // The head of a record of a block that no image has, and the gate of that.
    Head,
    Gate,
}

/// The page of a word.
fn word(word: Word) -> [u8; 32]
    requires { IsWord word }
{
    seal(&put_word(&word))
}

fn bytes_of(put: Put) -> [u8; 32] {
    match put {
        Put::Blank => BLANK_PAGE,
        Put::Zeros => [0; 32],
        Put::ForeignEntry => FOREIGN_ENTRY,
        Put::Start(sequence) => word(Word::Start {
            sequence,
            pages: PAGES,
        }),
        Put::Active(sequence) => word(Word::Active { sequence }),
        Put::Head => word(Word::Head {
            block: 9,
            length: 8,
            valid: true,
            page: 2,
        }),
        Put::Gate => word(Word::Gate { block: 9, page: 2 }),
    }
}

/// What a start-up is to report: the number of its generation, or its fault.
#[derive(Clone, Copy)]
enum Told {
    Number(u32),
    // A page of a sector, or a block, is damaged.
    Page(u8, u16),
    Block(u16),
    Spent,
    // The image has room for one entry, and two are wanted.
    OtherRoom,
}

/// The mark of a configuration of one event.
fn mark(entries: u8) -> Mark {
    Mark {
        id: 0,
        events: 1,
        entries,
    }
}

fn answer(told: Told) -> Result<u32, StartFault> {
    match told {
        Told::Number(number) => Ok(number),
        Told::Page(sector, page) => Err(StartFault::Damaged(Place::Page { sector, page })),
        Told::Block(id) => Err(StartFault::Damaged(Place::Block { id })),
        Told::Spent => Err(StartFault::SequenceSpent),
        Told::OtherRoom => Err(StartFault::OtherConfig {
            found: mark(1),
            wanted: mark(2),
        }),
    }
}

/// How many entries there is room for, two pages of the image of a first save that are changed, and what a start-up reports then.
type Row = (u8, (usize, Put), (usize, Put), Told);

static IMAGES: [Row; 13] = [
    (1, (0, Put::Zeros), (0, Put::Zeros), Told::Page(0, 0)),
    (
        1,
        (1, Put::Active(2)),
        (1, Put::Active(2)),
        Told::Page(0, 1),
    ),
    (1, (2, Put::Head), (2, Put::Head), Told::Page(0, 2)),
    (1, (4, Put::Gate), (4, Put::Gate), Told::Page(0, 4)),
    (1, (4, Put::Zeros), (4, Put::Zeros), Told::Block(1)),
    (
        1,
        (13, Put::ForeignEntry),
        (13, Put::ForeignEntry),
        Told::Block(8),
    ),
    (1, (19, Put::Zeros), (19, Put::Zeros), Told::Number(1)),
    (1, (23, Put::Zeros), (23, Put::Zeros), Told::Number(1)),
    (1, (63, Put::Zeros), (63, Put::Zeros), Told::Page(0, 63)),
    // Both copies of the commit are missing.
    (1, (19, Put::Zeros), (22, Put::Zeros), Told::Number(0)),
    // Both sectors are valid under one number.
    (
        1,
        (64, Put::Start(1)),
        (65, Put::Active(1)),
        Told::Page(1, 0),
    ),
    // The last sequence number is in use.
    (
        1,
        (0, Put::Start(u32::MAX)),
        (1, Put::Active(u32::MAX)),
        Told::Spent,
    ),
    // The image is another configuration's.
    (2, (63, Put::Blank), (63, Put::Blank), Told::OtherRoom),
];

/// What a start-up reports of the image of a row: the number of the generation, whose state is the first one or the one that was saved.
fn told_of(rt: &impl Abort, alloc: Global, row: Row) -> Result<Result<u32, StartFault>, Fail> {
    let (memory, first, second, _) = row;
    let config = configured(rt, memory, 0, 1);
    let mut image = image_of(alloc, &saved_flash(rt, alloc)?)?;
    put_page(&mut image, first.0, bytes_of(first.1));
    put_page(&mut image, second.0, bytes_of(second.1));
    let mut store = store_over(alloc, FlashMem::of(alloc, image, 2)?, &config)?;
    match start(&mut store, &config) {
        Err(fault) => Ok(Err(fault)),
        Ok((number, state)) => {
            let is_first = number != 0 || state == initial(&config);
            holds(rt, is_first, "the first state");
            holds(rt, number == 0 || state == failed(), "the saved state");
            Ok(Ok(number))
        }
    }
}

#[test]
fn changed_images_are_told(rt: HostRuntime) -> Result<(), Fail> {
    for row in &IMAGES {
        let told = told_of(&rt, rt.alloc(), *row)?;
        assert!(rt; told == answer(row.3), "page {}: {told:?}", row.1.0);
    }
    Ok(())
}
