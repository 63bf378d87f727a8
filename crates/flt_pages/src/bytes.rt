//! The plain bytes of a record.
ghost use Rattle.std.specs.Prelude.{◌≡◌, ◌+◌, ◌-◌, ◌*◌, ◌<◌, ◌≤◌, ◌≢◌, ◌++◌, min, drop, OnOk, OnErr};
ghost use Rattle.flt_flash.specs.Image.{sector_at};
ghost use Rattle.flt_flash.specs.State.{OnlyReads, HasRisenBy};
ghost use Rattle.flt_flash.specs.Blocks.{byte_pages, record_pages};
ghost use Rattle.flt_pages.specs.Blank.{AreBlank};
ghost use Rattle.flt_pages.specs.RecordPlace.{IsPlaceWithin, record_bytes_at};
ghost use Rattle.flt_pages.specs.Recorded.{Fills, Records};

use crate::append::{append_gate, append_head, append_piece};
use crate::items::byte_pages;
use crate::place::RecordPlace;
use flt_flash::{Flash, FlashFailed};

/// Reads the bytes of a record to the start of `out`. What is past them does not change, nor does any of `out` after a failure.
pub fn read_record<F: Flash>(
    flash: &mut F,
    sector: u8,
    place: RecordPlace,
    out: &mut [u8; 128],
) -> Result<(), FlashFailed>
    requires sector { sector < 2 }
    requires within { IsPlaceWithin (F.state flash.old).pages place }
    ensures read { OnOk result (out.new ≡ record_bytes_at (sector_at (F.state flash.old).image sector) place ++ drop place.length out.old) }
    ensures nothing { OnErr result (out.new ≡ out.old) }
    ensures operations { OnOk result ((F.state flash.new).operations ≤ (F.state flash.old).operations + byte_pages place.length) }
    ensures reads { OnlyReads (F.state flash.old) (F.state flash.new) }
    ensures cause { OnErr result (HasRisenBy 1 (F.state flash.old).faults (F.state flash.new).faults) }
{
    let mut held = [0; 128];
    for index in 0..byte_pages(place.length) {
        let mut bytes = [0; 32];
        flash.read_page(sector, place.page + 1 + index, &mut bytes)?;
        let start = 32 * index as usize;
        held[start..start + 32].copy_from_slice(&bytes);
    }
    let length = place.length as usize;
    out[..length].copy_from_slice(&held[..length]);
    Ok(())
}

/// The number of bytes on the page of this index, if the record has this many bytes.
fn piece_size(length: u16, index: u16) -> usize
    requires { 32 * index < 65536 }
    ensures { result ≡ min 32 (length - 32 * index) }
{
    usize::from(length.saturating_sub(32 * index)).min(32)
}

/// Copies the plain bytes of a record to pages of the other sector.
fn copy_bytes<F: Flash>(
    flash: &mut F,
    sector: u8,
    place: RecordPlace,
    other: u8,
    first: u16,
) -> Result<(), FlashFailed>
    requires sector { sector < 2 }
    requires other { other < 2 }
    requires apart { other ≢ sector }
    requires within { IsPlaceWithin (F.state flash.old).pages place }
    requires room { first + byte_pages place.length ≤ (F.state flash.old).pages }
    requires blank { AreBlank (sector_at (F.state flash.old).image other) first (first + byte_pages place.length) }
    ensures fills { Fills (F.state flash.old) (F.state flash.new) other first (record_bytes_at (sector_at (F.state flash.old).image sector) place) result }
    ensures operations { OnOk result ((F.state flash.new).operations ≤ (F.state flash.old).operations + 2 * byte_pages place.length) }
{
    for index in 0..byte_pages(place.length) {
        let mut bytes = [0; 32];
        flash.read_page(sector, place.page + 1 + index, &mut bytes)?;
        let size = piece_size(place.length, index);
        append_piece(flash, other, first + index, &bytes[..size])?;
    }
    Ok(())
}

/// Copies a complete record of `block` to a page of the other sector, which is blank from that page on, in the order of an
/// append: its head, then each page of its bytes as it is read, and its gate.
pub fn copy_record<F: Flash>(
    flash: &mut F,
    sector: u8,
    place: RecordPlace,
    block: u16,
    other: u8,
    page: u16,
) -> Result<(), FlashFailed>
    requires sector { sector < 2 }
    requires other { other < 2 }
    requires apart { other ≢ sector }
    requires within { IsPlaceWithin (F.state flash.old).pages place }
    requires room { page + record_pages place.length ≤ (F.state flash.old).pages }
    requires blank { AreBlank (sector_at (F.state flash.old).image other) page (page + record_pages place.length) }
    ensures records { Records (F.state flash.old) (F.state flash.new) other page block
        (record_bytes_at (sector_at (F.state flash.old).image sector) place) place.valid result }
    ensures operations { OnOk result ((F.state flash.new).operations ≤ (F.state flash.old).operations + (2 + 2 * byte_pages place.length)) }
{
    append_head(flash, other, page, block, place.length, place.valid)?;
    copy_bytes(flash, sector, place, other, page + 1)?;
    append_gate(
        flash,
        other,
        page + 1 + byte_pages(place.length),
        block,
        page,
    )
}
