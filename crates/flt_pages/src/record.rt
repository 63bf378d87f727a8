//! Records after the log of a sector.
ghost use Rattle.std.specs.Prelude.{◌≡◌, ◌+◌, ◌<◌, ◌≤◌, ℕ, true, length, OnOk};
ghost use Rattle.flt_flash.specs.Image.{sector_at};
ghost use Rattle.flt_code.specs.Word.{is_length};
ghost use Rattle.flt_flash.specs.Blocks.{byte_pages, record_pages};
ghost use Rattle.flt_pages.specs.Blank.{AreBlank};
ghost use Rattle.flt_pages.specs.Recorded.{Fills, Records};

use crate::append::{append_gate, append_head, append_piece};
use crate::items::byte_pages;
use flt_flash::{Flash, FlashFailed};

/// Programs the pages of plain bytes of a record.
fn fill<F: Flash>(flash: &mut F, sector: u8, first: u16, bytes: &[u8]) -> Result<(), FlashFailed>
    requires sector { sector < 2 }
    requires most { length bytes.now ≤ 128 }
    requires room { first + byte_pages (length bytes.now) ≤ (F.state flash.old).pages }
    requires blank { AreBlank (sector_at (F.state flash.old).image sector) first (first + byte_pages (length bytes.now)) }
    ensures fills { Fills (F.state flash.old) (F.state flash.new) sector first bytes.now result }
    ensures operations { OnOk result ((F.state flash.new).operations ≤ (F.state flash.old).operations + byte_pages (length bytes.now)) }
{
    for index in 0..byte_pages(bytes.len() as u16) {
        let start = 32 * index as usize;
        let end = if start + 32 <= bytes.len() {
            start + 32
        } else {
            bytes.len()
        };
        append_piece(flash, sector, first + index, &bytes[start..end])?;
    }
    Ok(())
}

/// Appends a record at a page from which on the sector is blank: its head, its bytes (1 to 128 for a valid record, none
/// for an invalid one), and its gate.
///
/// After a failure the record is whole, or it lacks its gate, or its head is not a code word; nothing else changed.
pub fn append_record<F: Flash>(
    flash: &mut F,
    sector: u8,
    page: u16,
    block: u16,
    bytes: &[u8],
    valid: bool,
) -> Result<(), FlashFailed>
    requires sector { sector < 2 }
    requires most { length bytes.now ≤ 128 }
    requires length { is_length valid (length bytes.now) ≡ true }
    requires room { page + 2 + byte_pages (length bytes.now) ≤ (F.state flash.old).pages }
    requires blank { AreBlank (sector_at (F.state flash.old).image sector) page (page + 2 + byte_pages (length bytes.now)) }
    ensures records { Records (F.state flash.old) (F.state flash.new) sector page block bytes.now valid result }
    ensures operations { OnOk result ((F.state flash.new).operations ≤ (F.state flash.old).operations + record_pages (length bytes.now)) }
{
    let size = bytes.len() as u16;
    append_head(flash, sector, page, block, size, valid)?;
    fill(flash, sector, page + 1, bytes)?;
    append_gate(flash, sector, page + 1 + byte_pages(size), block, page)
}
