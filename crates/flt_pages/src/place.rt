//! The places of current records, and the look at a log that finds them.
ghost use Rattle.std.specs.Prelude.{◌≡◌, ◌+◌, ◌<◌, ◌≤◌, ◌==◌, ◌&&◌, ℕ, if◌then◌else◌, Some, None, IfOk, IfSome, IfNone, IsErrOf, Contains, length, slice_index_or};
ghost use Rattle.flt_flash.specs.Image.{sector_at};
ghost use Rattle.flt_flash.specs.State.{OnlyReads, HasRisenBy};
ghost use Rattle.flt_sector_model.specs.Log.{log};
ghost use Rattle.flt_pages.specs.Told.{TellsOrFails, told_log};
ghost use Rattle.flt_pages.specs.Live.{held_in};
ghost use Rattle.flt_pages.specs.Needs.{IsTableOf};
ghost use Rattle.flt_pages.specs.RecordPlace.{IsPlaceOf, TellsPlaces};

use crate::PageFault;
use crate::current::CurrentSector;
use crate::items::{blank_from, byte_pages, item};
use crate::numbers::Numbers;
use flt_flash::Flash;
use flt_sector_model::Item;

/// Where a complete record is, and what its head says of it.
#[derive(Clone, Copy, Debug, PartialEq, Eq)]
pub struct RecordPlace {
    /// The page of the head.
    pub page: u16,
    /// The number of bytes that it holds, 1 to 128, or 0 if it makes its block invalid.
    pub length: u16,
    /// Whether it holds bytes, and does not make its block invalid.
    pub valid: bool,
}

/// The place of one of the blocks, by the table.
pub fn place_of(
    numbers: &Numbers,
    places: &[Option<RecordPlace>],
    block: u16,
) -> Option<RecordPlace>
    requires size { length places.now ≡ length numbers.now }
    requires number { Contains numbers.now block }
    ensures { IsPlaceOf numbers.now places.now block result }
{
    match numbers.index_of(block) {
        None => None,
        Some(index) => places[index],
    }
}

/// Notes a record in the table of places as the current one of its block, if it is complete.
pub fn note(
    numbers: &Numbers,
    places: &mut [Option<RecordPlace>],
    block: u16,
    complete: bool,
    place: RecordPlace,
)
    requires table { IsTableOf numbers.now places.old }
    ensures size { length places.new ≡ length places.old }
    ensures noted { (k : ℕ) → k < length numbers.now → slice_index_or places.new k None
        ≡ (if complete && (block == slice_index_or numbers.now k 0) then Some place else slice_index_or places.old k None) }
{
    if !complete {
        return;
    }
    if let Some(index) = numbers.index_of(block) {
        places[index] = Some(place);
    }
}

/// Makes each place of a table that of a block without a record.
pub fn forget(places: &mut [Option<RecordPlace>])
    ensures size { length places.new ≡ length places.old }
    ensures none { (k : ℕ) → k < length places.old → slice_index_or places.new k None ≡ None }
{
    for index in 0..places.len() {
        places[index] = None;
    }
}

/// The page at which the log of a sector with `used` pages ends, for these block numbers; `Damaged` is its first fault, of an
/// item or of the pages after the end. It fills the table with the place of each block's current record.
///
/// It goes over the log once: it reads heads, gates and the pages after the end, and changes nothing of the flash. After an error
/// the table has no meaning.
pub fn find_places<F: Flash>(
    flash: &mut F,
    at: CurrentSector,
    numbers: &Numbers,
    places: &mut [Option<RecordPlace>],
) -> Result<u16, PageFault>
    requires most { at.used ≤ (F.state flash.old).pages }
    requires table { IsTableOf numbers.now places.old }
    ensures end { TellsOrFails result (told_log at.sector (log at.used numbers.now (sector_at (F.state flash.old).image at.sector))) }
    ensures places { IfOk result (λ end. TellsPlaces numbers.now places.new (sector_at (F.state flash.old).image at.sector) end
        (held_in at.used numbers.now (sector_at (F.state flash.old).image at.sector))) }
    ensures size { length places.new ≡ length numbers.now }
    ensures reads { OnlyReads (F.state flash.old) (F.state flash.new) }
    ensures operations { (F.state flash.new).operations + 1 ≤ (F.state flash.old).operations + at.used }
    ensures cause { IsErrOf result PageFault.Flash → HasRisenBy 1 (F.state flash.old).faults (F.state flash.new).faults }
{
    forget(places);
    let mut page = 2;
    'log: loop {
        match item(flash, at.sector, at.used, page, numbers)? {
            Item::End => {
                blank_from(flash, at.sector, at.used, page)?;
                return Ok(page);
            }
            Item::Torn => page += 1,
            Item::Kept {
                block,
                length,
                valid,
                complete,
            } => {
                let here = RecordPlace {
                    page,
                    length,
                    valid,
                };
                note(numbers, places, block, complete, here);
                page = (u32::from(page) + 2 + u32::from(byte_pages(length))) as u16;
            }
        }
    }
}
