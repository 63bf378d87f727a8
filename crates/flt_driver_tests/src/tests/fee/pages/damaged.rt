//! What the definitions say of images that were damaged, one page at a time.
use super::holds_at;
use super::worked::{Image, eight, image, piece, prepared, word};
use flt_flash::BLANK_PAGE;
use flt_pages::{Item, PageFault, blank_from, gates, item};
use std::test::Fail;

/// What is put on a page.
#[derive(Clone, Copy)]
enum Put {
    Blank,
    // 32 bytes 00.
    Spoiled,
    // The page of a word that begins with these bytes.
    Word([u8; 8]),
    // The same with its first 16 bytes blank.
    TailOf([u8; 8]),
}

/// The words of the worked image: a start gate, an active gate, a head and its gate.
const START: [u8; 8] = [0x53, 1, 0, 0, 0, 1, 0, 8];

const ACTIVE: [u8; 8] = [0x41, 1, 0, 0, 0, 1, 0, 0];

const HEAD: [u8; 8] = [0x48, 1, 0, 8, 0, 1, 0, 2];

const GATE: [u8; 8] = [0x47, 1, 0, 8, 0, 2, 0, 0];

/// A code word of no known form.
const NO_WORD: Put = Put::Word([0; 8]);

/// The page with its first 16 bytes blank.
fn tail_of(page: [u8; 32]) -> [u8; 32] {
    let mut torn = page;
    for byte in 0..16 {
        torn[byte] = 0xff;
    }
    torn
}

fn bytes_of(put: Put) -> [u8; 32] {
    match put {
        Put::Blank => BLANK_PAGE,
        Put::Spoiled => [0; 32],
        Put::Word(front) => word(front),
        Put::TailOf(front) => tail_of(word(front)),
    }
}

/// The worked image with these bytes on one page.
fn with_page(at: usize, bytes: [u8; 32]) -> Image {
    let mut image = image();
    if at < 16 {
        image[at] = bytes;
    }
    image
}

/// What is reported of a page of sector 0 that is damaged.
const PAGE_0: PageFault = PageFault::Damaged { sector: 0, page: 0 };

const PAGE_1: PageFault = PageFault::Damaged { sector: 0, page: 1 };

const PAGE_2: PageFault = PageFault::Damaged { sector: 0, page: 2 };

const PAGE_4: PageFault = PageFault::Damaged { sector: 0, page: 4 };

const PAGE_5: PageFault = PageFault::Damaged { sector: 0, page: 5 };

const PAGE_7: PageFault = PageFault::Damaged { sector: 0, page: 7 };

/// What is put on a page of sector 0, and what its gates give then.
static GATES: [(usize, Put, Result<Option<u32>, PageFault>); 13] = [
    (0, Put::Word(START), Ok(Some(1))),
    (0, Put::Blank, Ok(None)),
    (0, Put::TailOf(START), Ok(None)),
    (0, Put::Spoiled, Err(PAGE_0)),
    (0, NO_WORD, Err(PAGE_0)),
    (0, Put::Word(ACTIVE), Err(PAGE_0)),
    (0, Put::Word([0x53, 1, 0, 0, 0, 1, 0, 9]), Err(PAGE_0)),
    (1, Put::Blank, Ok(None)),
    (1, Put::TailOf(ACTIVE), Ok(None)),
    (1, Put::Spoiled, Err(PAGE_1)),
    (1, NO_WORD, Err(PAGE_1)),
    (1, Put::Word(START), Err(PAGE_1)),
    (1, Put::Word([0x41, 1, 0, 0, 0, 2, 0, 0]), Err(PAGE_1)),
];

#[test]
fn gates_are_told(rt: HostRuntime) -> Result<(), Fail> {
    for (page, put, want) in &GATES {
        let mut flash = prepared(rt.alloc(), with_page(*page, bytes_of(*put)))?;
        let is_told = gates(&mut flash, 0, 8) == *want;
        holds_at(&rt, is_told, "page", *page);
    }
    Ok(())
}

/// The record of the worked image with and without its gate, and a record without one that makes the block invalid.
const COMPLETE: Item = Item::Kept {
    block: 8,
    length: 1,
    valid: true,
    complete: true,
};

const UNENDED: Item = Item::Kept {
    block: 8,
    length: 1,
    valid: true,
    complete: false,
};

const INVALID: Item = Item::Kept {
    block: 8,
    length: 0,
    valid: false,
    complete: false,
};

/// What is put on a page of sector 0, and what the item at a page is then.
static ITEMS: [(usize, Put, u16, Result<Item, PageFault>); 18] = [
    (4, Put::Word(GATE), 2, Ok(COMPLETE)),
    (4, Put::Blank, 2, Ok(UNENDED)),
    (4, Put::TailOf(GATE), 2, Ok(UNENDED)),
    (4, Put::Word([0x47, 1, 0, 9, 0, 2, 0, 0]), 2, Err(PAGE_4)),
    (4, Put::Word([0x47, 1, 0, 8, 0, 3, 0, 0]), 2, Err(PAGE_4)),
    (4, NO_WORD, 2, Err(PAGE_4)),
    (2, Put::Blank, 2, Ok(Item::End)),
    (2, Put::Spoiled, 2, Ok(Item::Torn)),
    (2, Put::TailOf(HEAD), 2, Ok(Item::Torn)),
    (2, Put::Word([0x48, 2, 0, 8, 0, 0, 0, 2]), 2, Ok(INVALID)),
    (2, Put::Word([0x48, 1, 0, 9, 0, 1, 0, 2]), 2, Err(PAGE_2)),
    (2, Put::Word([0x48, 1, 0, 8, 0, 1, 0, 3]), 2, Err(PAGE_2)),
    (2, Put::Word([0x48, 1, 0, 8, 0, 0, 0, 2]), 2, Err(PAGE_2)),
    (2, Put::Word([0x48, 1, 0, 8, 0, 129, 0, 2]), 2, Err(PAGE_2)),
    (2, Put::Word(GATE), 2, Err(PAGE_2)),
    (2, NO_WORD, 2, Err(PAGE_2)),
    (5, Put::Word([0x48, 1, 0, 8, 0, 33, 0, 5]), 5, Err(PAGE_5)),
    (7, NO_WORD, 8, Ok(Item::End)),
];

#[test]
fn items_are_told(rt: HostRuntime) -> Result<(), Fail> {
    let numbers = eight(rt.alloc())?;
    for (page, put, at, want) in &ITEMS {
        let mut flash = prepared(rt.alloc(), with_page(*page, bytes_of(*put)))?;
        let is_told = *at <= 8 && item(&mut flash, 0, 8, *at, &numbers) == *want;
        holds_at(&rt, is_told, "page", *page);
    }
    Ok(())
}

/// A page with bytes, the page from which on all are to be blank, and what is reported.
static WRITTEN: [(usize, u16, Result<(), PageFault>); 4] = [
    (7, 4, Err(PAGE_7)),
    (4, 4, Err(PAGE_4)),
    (5, 6, Ok(())),
    (7, 8, Ok(())),
];

#[test]
fn written_pages_are_told(rt: HostRuntime) -> Result<(), Fail> {
    for (page, from, want) in &WRITTEN {
        let mut flash = prepared(rt.alloc(), with_page(*page, piece(3)))?;
        let is_told = *from <= 8 && blank_from(&mut flash, 0, 8, *from) == *want;
        holds_at(&rt, is_told, "page", *page);
    }
    Ok(())
}
