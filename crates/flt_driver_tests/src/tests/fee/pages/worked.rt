//! Worked pages, written by hand.
ghost use Rattle.std.specs.Prelude.{◌≡◌, IfOk};
ghost use Rattle.flt_flash.specs.Memory.{flash_state};

use flt_flash::{BLANK_PAGE, FlashMem};
use flt_pages::{Item, Numbers};
use std::alloc::{AllocError, Global};

/// Sectors 0 and 1, of 8 pages each.
pub type Image = [[u8; 32]; 16];

/// The page of a word that begins with these bytes.
pub fn word(front: [u8; 8]) -> [u8; 32] {
    let mut page = [0; 32];
    for byte in 0..16 {
        if byte < 8 {
            page[byte] = front[byte];
        }
        page[16 + byte] = !page[byte];
    }
    page
}

/// The numbers of a driver of the one block 8.
pub fn eight(alloc: Global) -> Result<Numbers, AllocError> {
    Numbers::make(alloc, vec![in alloc; 8]?)
}

/// The page of one byte, filled up.
pub fn piece(byte: u8) -> [u8; 32] {
    let mut page = BLANK_PAGE;
    page[0] = byte;
    page
}

/// Sector 0 is valid and holds a record of block 8 without its gate, sector 1 a start gate and old bytes.
pub fn image() -> Image {
    let mut image = [BLANK_PAGE; 16];
    image[0] = word([0x53, 1, 0, 0, 0, 1, 0, 8]);
    image[1] = word([0x41, 1, 0, 0, 0, 1, 0, 0]);
    image[2] = word([0x48, 1, 0, 8, 0, 1, 0, 2]);
    image[3] = piece(7);
    image[8] = word([0x53, 1, 0, 0, 0, 2, 0, 8]);
    image[10] = piece(9);
    image[15] = piece(9);
    image
}

/// A flash of an image, whose power may come back once.
pub fn prepared(alloc: Global, image: Image) -> Result<FlashMem, AllocError>
    ensures pages { IfOk result (λ flash. (flash_state flash).pages ≡ 8) }
    ensures boots { IfOk result (λ flash. (flash_state flash).bench.boots_left ≡ 1) }
    ensures armed { IfOk result (λ flash. (flash_state flash).bench.armed ≡ 0) }
{
    FlashMem::of(alloc, Vec::from_array(alloc, image)?, 1)
}

/// The record of one byte of block 8.
pub fn record(complete: bool) -> Item {
    Item::Kept {
        block: 8,
        length: 1,
        valid: true,
        complete,
    }
}
