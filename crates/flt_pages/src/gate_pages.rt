//! The gates of a sector.
ghost use Rattle.std.specs.Prelude.{◌≡◌, ◌+◌, ◌<◌, ◌≤◌, Ok, IsErrOf};
ghost use Rattle.flt_flash.specs.Image.{sector_at};
ghost use Rattle.flt_flash.specs.State.{OnlyReads, HasRisenBy};
ghost use Rattle.flt_sector_model.specs.Gates.{gate_by, started_by, activated_by, both_gates, gates_of};
ghost use Rattle.flt_pages.specs.Told.{told, TellsOrFails};

use crate::PageFault;
use crate::items::read;
use flt_code::{Word, get_word, is_spoiled, unseal};
use flt_flash::Flash;

/// The number that a start gate names, or its page if it is faulty.
fn started(used: u16, page: &[u8; 32]) -> Result<Option<u32>, u16>
    ensures { result ≡ gate_by (started_by used) 0 page.now }
{
    if is_spoiled(page) {
        return Err(0);
    }
    let Some(code) = unseal(page) else {
        return Ok(None);
    };
    match get_word(&code) {
        Some(Word::Start { sequence, pages }) if pages == used => Ok(Some(sequence)),
        _ => Err(0),
    }
}

/// The number that an active gate names, or its page if it is faulty.
fn activated(page: &[u8; 32]) -> Result<Option<u32>, u16>
    ensures { result ≡ gate_by activated_by 1 page.now }
{
    if is_spoiled(page) {
        return Err(1);
    }
    let Some(code) = unseal(page) else {
        return Ok(None);
    };
    match get_word(&code) {
        Some(Word::Active { sequence }) => Ok(Some(sequence)),
        _ => Err(1),
    }
}

/// The number of a valid sector by its two gate pages.
fn by_pages(used: u16, start: &[u8; 32], active: &[u8; 32]) -> Result<Option<u32>, u16>
    ensures { result ≡ both_gates (gate_by (started_by used) 0 start.now) (gate_by activated_by 1 active.now) }
{
    let start = started(used, start)?;
    let active = activated(active)?;
    match (start, active) {
        (Some(start), Some(active)) => {
            if start == active {
                Ok(Some(start))
            } else {
                Err(1)
            }
        }
        _ => Ok(None),
    }
}

/// The sequence number of a valid sector with `used` pages; `None` if a gate is missing.
///
/// It reads pages 0 and 1. It returns `Damaged` if and only if a gate page is spoiled or another code word, or, at page 1, if the
/// gates name two numbers. It changes nothing.
pub fn gates<F: Flash>(flash: &mut F, sector: u8, used: u16) -> Result<Option<u32>, PageFault>
    requires sector { sector < 2 }
    requires least { 2 ≤ used }
    requires most { used ≤ (F.state flash.old).pages }
    ensures gates { TellsOrFails result (told sector (gates_of used (sector_at (F.state flash.old).image sector))) }
    ensures reads { OnlyReads (F.state flash.old) (F.state flash.new) }
    ensures operations { (F.state flash.new).operations ≤ (F.state flash.old).operations + 2 }
    ensures cause { IsErrOf result PageFault.Flash → HasRisenBy 1 (F.state flash.old).faults (F.state flash.new).faults }
{
    let start = read(flash, sector, 0)?;
    let active = read(flash, sector, 1)?;
    by_pages(used, &start, &active).map_err(|page| PageFault::Damaged { sector, page })
}
