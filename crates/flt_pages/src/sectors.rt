//! The two sectors of a flash: the current one, the first one, and the switch from one to the other.
ghost use Rattle.std.specs.Prelude.{◌≡◌, ◌+◌, ◌-◌, ◌≤◌, Ok, None, IfOk, OnOk, OnErr, IsErrOf, length, slice_index, slice_set};
ghost use Rattle.flt_flash.specs.Image.{sector_at};
ghost use Rattle.flt_flash.specs.State.{OnlyReads, MakesOperations, HasRisenBy, counted_up};
ghost use Rattle.flt_sector_model.specs.Blocks.{current};
ghost use Rattle.flt_pages.specs.Told.{GivesCurrent};
ghost use Rattle.flt_pages.specs.Live.{held_in};
ghost use Rattle.flt_pages.specs.Needs.{CanBeCopied, CanCopyBlock, CanSwitch, HasBlankOther, HasSoundLog, IsTableOf};
ghost use Rattle.flt_pages.specs.RecordPlace.{TellsPlaces};
ghost use Rattle.flt_pages.specs.SetUp.{IsFresh, HoldsNothing};
ghost use Rattle.flt_pages.specs.Switch.{CopiesBlock, CopiesBlocks, GivesValues, HasSwitched, Replaces, TakesTwoForEach};

use crate::PageFault;
use crate::append::{activate, begin};
use crate::bytes::copy_record;
use crate::current::CurrentSector;
use crate::gate_pages::gates;
use crate::items::byte_pages;
use crate::numbers::Numbers;
use crate::place::{RecordPlace, note, place_of};
use flt_flash::{Flash, FlashFailed};

/// The valid sector of the greatest number; `None` where no sector is valid. It reads the four gates, and changes nothing. `Damaged` is
/// the first fault of the gates.
pub fn current_sector<F: Flash>(
    flash: &mut F,
    used: u16,
) -> Result<Option<CurrentSector>, PageFault>
    requires least { 2 ≤ used }
    requires most { used ≤ (F.state flash.old).pages }
    ensures current { GivesCurrent used result (current used (F.state flash.old).image) }
    ensures reads { OnlyReads (F.state flash.old) (F.state flash.new) }
    ensures operations { (F.state flash.new).operations ≤ (F.state flash.old).operations + 4 }
    ensures cause { IsErrOf result PageFault.Flash → HasRisenBy 1 (F.state flash.old).faults (F.state flash.new).faults }
{
    let first = gates(flash, 0, used)?;
    let second = gates(flash, 1, used)?;
    match (first, second) {
        (None, None) => Ok(None),
        (Some(sequence), None) => Ok(Some(CurrentSector {
            sector: 0,
            used,
            sequence,
        })),
        (None, Some(sequence)) => Ok(Some(CurrentSector {
            sector: 1,
            used,
            sequence,
        })),
        (Some(first), Some(second)) => {
            if first == second {
                Err(PageFault::Damaged { sector: 1, page: 0 })
            } else if first < second {
                Ok(Some(CurrentSector {
                    sector: 1,
                    used,
                    sequence: second,
                }))
            } else {
                Ok(Some(CurrentSector {
                    sector: 0,
                    used,
                    sequence: first,
                }))
            }
        }
    }
}

/// Makes the first sector of a flash, of which no sector is valid, the current one, with the number 1 and an empty log.
pub fn set_up_flash<F: Flash>(flash: &mut F, used: u16) -> Result<(), FlashFailed>
    requires least { 4 ≤ used }
    requires most { used ≤ (F.state flash.old).pages }
    requires none { current used (F.state flash.old).image ≡ Ok None }
    ensures fresh { OnOk result (IsFresh used (F.state flash.new).image) }
    ensures wear { OnOk result ((F.state flash.new).wear ≡ slice_set (F.state flash.old).wear 0 (counted_up (slice_index (F.state flash.old).wear 0))) }
    ensures holds_nothing { HoldsNothing used (F.state flash.new).image }
    ensures runs { MakesOperations (F.state flash.old) (F.state flash.new) }
    ensures operations { (F.state flash.new).operations ≤ (F.state flash.old).operations + 3 }
    ensures cause { OnErr result (HasRisenBy 1 (F.state flash.old).faults (F.state flash.new).faults) }
{
    begin(flash, 0, used, 1)?;
    activate(flash, 0, 1)
}

/// Copies the current record of a block, if it has one, after the log of the other sector, and answers where that ends then.
fn copy_block<F: Flash>(
    flash: &mut F,
    at: CurrentSector,
    numbers: &Numbers,
    places: &mut [Option<RecordPlace>],
    number: u16,
    end: u16,
) -> Result<u16, FlashFailed>
    requires log { HasSoundLog (F.state flash.old) at numbers.now }
    requires table { IsTableOf numbers.now places.old }
    requires block { CanCopyBlock (F.state flash.old) at numbers.now places.old number end }
    requires other { HasBlankOther (F.state flash.old) at end }
    ensures copies { CopiesBlock (F.state flash.old) (F.state flash.new) at numbers.now number end result }
    ensures size { length places.new ≡ length numbers.now }
    ensures operations { TakesTwoForEach end (F.state flash.old) (F.state flash.new) result }
    ensures table { IfOk result (λ last. Replaces numbers.now (sector_at (F.state flash.new).image (1 - at.sector)) places.old places.new number last
        (held_in at.used numbers.now (sector_at (F.state flash.old).image at.sector) number)) }
{
    match place_of(numbers, places, number) {
        None => Ok(end),
        Some(place) => {
            copy_record(flash, at.sector, place, number, 1 - at.sector, end)?;
            let copy = RecordPlace { page: end, ..place };
            note(numbers, places, number, true, copy);
            Ok(end + (2 + byte_pages(place.length)))
        }
    }
}

/// Copies the current records of all blocks, in ascending order of their numbers, after the gates of the other sector.
fn copy_blocks<F: Flash>(
    flash: &mut F,
    at: CurrentSector,
    numbers: &Numbers,
    places: &mut [Option<RecordPlace>],
) -> Result<u16, FlashFailed>
    requires source { CanBeCopied (F.state flash.old) at numbers.now places.old }
    requires other { HasBlankOther (F.state flash.old) at 2 }
    ensures size { length places.new ≡ length numbers.now }
    ensures table { IfOk result (λ end. TellsPlaces numbers.now places.new (sector_at (F.state flash.new).image (1 - at.sector)) end
        (held_in at.used numbers.now (sector_at (F.state flash.old).image at.sector))) }
    ensures operations { TakesTwoForEach 2 (F.state flash.old) (F.state flash.new) result }
    ensures copies { CopiesBlocks (F.state flash.old) (F.state flash.new) at numbers.now result }
{
    let mut end = 2;
    let mut from = 0;
    'copies: while let Some(number) = numbers.next_from(from) {
        end = copy_block(flash, at, numbers, places, number, end)?;
        from = u32::from(number) + 1;
    }
    Ok(end)
}

/// Makes the other sector the current one with the next sequence number, and copies all that the blocks hold. It answers where
/// the log ends then. After a failure the image gives each block what it held, whichever sector is the current one.
pub fn switch_sectors<F: Flash>(
    flash: &mut F,
    at: CurrentSector,
    numbers: &Numbers,
    places: &mut [Option<RecordPlace>],
) -> Result<u16, FlashFailed>
    requires can { CanSwitch (F.state flash.old) at numbers.now places.old }
    ensures switched { IfOk result (λ end. HasSwitched (F.state flash.old) (F.state flash.new) at numbers.now places.new end) }
    ensures values { GivesValues at.used numbers.now (F.state flash.new).image (held_in at.used numbers.now (sector_at (F.state flash.old).image at.sector)) }
    ensures size { length places.new ≡ length numbers.now }
    ensures runs { MakesOperations (F.state flash.old) (F.state flash.new) }
    ensures cause { OnErr result (HasRisenBy 1 (F.state flash.old).faults (F.state flash.new).faults) }
{
    let other = 1 - at.sector;
    begin(flash, other, at.used, at.sequence + 1)?;
    let end = copy_blocks(flash, at, numbers, places)?;
    activate(flash, other, at.sequence + 1)?;
    Ok(end)
}
