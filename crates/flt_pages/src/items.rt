//! The items of a sector's log, and the pages after its end.
ghost use Rattle.std.specs.Prelude.{◌≡◌, ◌+◌, ◌-◌, ◌*◌, ◌/◌, ◌<◌, ◌≤◌, ℕ, List, [], slice_index_or, Bool, IfOk, OnErr, IsErrOf};
ghost use Rattle.flt_flash.specs.Image.{page_at, sector_at};
ghost use Rattle.flt_flash.specs.State.{OnlyReads, HasRisenBy};
ghost use Rattle.flt_flash.specs.Blocks.{byte_pages};
ghost use Rattle.flt_code.specs.Seal.{unsealed};
ghost use Rattle.flt_sector_model.specs.Log.{item_at, item_by_gate, item_by_head, first_written};
ghost use Rattle.flt_pages.specs.First.{item_begun, GateBelow, item_completed, reads_of};
ghost use Rattle.flt_pages.specs.Told.{told, told_fault, TellsOrFails};

use crate::PageFault;
use crate::numbers::Numbers;
use flt_code::{Word, get_word, unseal};
use flt_flash::{BLANK_PAGE, Flash, FlashFailed};
use flt_sector_model::Item;

/// An item as far as its first page determines it.
#[derive(Clone, Copy)]
enum Begin {
    /// The page is the whole item.
    Whole(Item),
    /// The page is a code word that is not allowed there.
    Damaged,
    /// A record whose gate belongs at this page.
    Record {
        block: u16,
        length: u16,
        valid: bool,
        gate: u16,
    },
}

/// The pages of plain bytes of a record of this many bytes: one for every 32 bytes or part of 32.
pub fn byte_pages(length: u16) -> u16
    ensures { result ≡ byte_pages length }
{
    length.div_ceil(32)
}

fn begin_by_head(used: u16, page: u16, numbers: &Numbers, word: Option<Word>) -> Begin
    requires { page < used }
    ensures means { (pages : List (List ℕ)) → item_by_head used numbers.now pages page word ≡ item_begun result pages page }
    ensures gate { GateBelow used result }
{
    let Some(
        Word::Head {
            block,
            length,
            valid,
            page: own,
        },
    ) = word
    else {
        return Begin::Damaged;
    };
    let end = u32::from(page) + 2 + u32::from(byte_pages(length));
    if own == page && numbers.contains(block) && end <= u32::from(used) {
        Begin::Record {
            block,
            length,
            valid,
            gate: (end - 1) as u16,
        }
    } else {
        Begin::Damaged
    }
}

/// What the first page of the item at `page` says.
fn first_page_says(used: u16, page: u16, numbers: &Numbers, bytes: &[u8; 32]) -> Begin
    requires { page < used }
    ensures means { (pages : List (List ℕ)) → slice_index_or pages page [] ≡ bytes.now → item_at used numbers.now pages page ≡ item_begun result pages page }
    ensures gate { GateBelow used result }
{
    if *bytes == BLANK_PAGE {
        return Begin::Whole(Item::End);
    }
    match unseal(bytes) {
        None => Begin::Whole(Item::Torn),
        Some(code) => begin_by_head(used, page, numbers, get_word(&code)),
    }
}

/// Whether the record is complete, by the page in the place of its gate; `None` if another word is there.
fn is_complete(block: u16, head: u16, bytes: &[u8; 32]) -> Option<bool>
    ensures { (length gate : ℕ) (valid : Bool) → item_by_gate block length valid head gate (unsealed bytes.now)
        ≡ item_completed block length valid gate result }
{
    let Some(code) = unseal(bytes) else {
        return Some(false);
    };
    match get_word(&code) {
        Some(Word::Gate { block: own, page }) if own == block && page == head => Some(true),
        _ => None,
    }
}

/// A page of a sector.
pub(crate) fn read<F: Flash>(flash: &mut F, sector: u8, page: u16) -> Result<[u8; 32], FlashFailed>
    requires sector { sector < 2 }
    requires page { page < (F.state flash.old).pages }
    ensures read { IfOk result (λ bytes. bytes ≡ page_at (F.state flash.old).image sector page) }
    ensures reads { OnlyReads (F.state flash.old) (F.state flash.new) }
    ensures operations { (F.state flash.new).operations ≤ (F.state flash.old).operations + 1 }
    ensures cause { OnErr result (HasRisenBy 1 (F.state flash.old).faults (F.state flash.new).faults) }
{
    let mut bytes = [0; 32];
    flash.read_page(sector, page, &mut bytes)?;
    Ok(bytes)
}

/// The item at a page of the log of a sector with `used` pages, for these block numbers; at `used` it is the end.
///
/// It reads the page, and for a record the page of its gate: at most two pages. It returns `Damaged` if and only if the first
/// page is a code word but not a head of a record that is allowed there, or if another code word is in the place of
/// the gate. It changes nothing.
pub fn item<F: Flash>(
    flash: &mut F,
    sector: u8,
    used: u16,
    page: u16,
    numbers: &Numbers,
) -> Result<Item, PageFault>
    requires sector { sector < 2 }
    requires used { used ≤ (F.state flash.old).pages }
    requires page { page ≤ used }
    ensures item { TellsOrFails result (told sector (item_at used numbers.now (sector_at (F.state flash.old).image sector) page)) }
    ensures reads { OnlyReads (F.state flash.old) (F.state flash.new) }
    ensures operations { (F.state flash.new).operations ≤ (F.state flash.old).operations + 2 }
    ensures costs { IfOk result (λ item. (F.state flash.new).operations ≤ (F.state flash.old).operations + reads_of item) }
    ensures nothing { page ≡ used → (F.state flash.new).operations ≡ (F.state flash.old).operations }
    ensures cause { IsErrOf result PageFault.Flash → HasRisenBy 1 (F.state flash.old).faults (F.state flash.new).faults }
{
    if page == used {
        return Ok(Item::End);
    }
    let head = read(flash, sector, page)?;
    match first_page_says(used, page, numbers, &head) {
        Begin::Whole(item) => Ok(item),
        Begin::Damaged => Err(PageFault::Damaged { sector, page }),
        Begin::Record {
            block,
            length,
            valid,
            gate,
        } => {
            let bytes = read(flash, sector, gate)?;
            match is_complete(block, page, &bytes) {
                Some(complete) => Ok(Item::Kept {
                    block,
                    length,
                    valid,
                    complete,
                }),
                None => Err(PageFault::Damaged { sector, page: gate }),
            }
        }
    }
}

/// Checks that all pages from `page` to `used - 1` are blank; the first that is not is `Damaged`. It reads each of them once, up
/// to that one, and changes nothing.
pub fn blank_from<F: Flash>(
    flash: &mut F,
    sector: u8,
    used: u16,
    page: u16,
) -> Result<(), PageFault>
    requires sector { sector < 2 }
    requires used { used ≤ (F.state flash.old).pages }
    requires page { page ≤ used }
    ensures blank { TellsOrFails result (told_fault sector (first_written (sector_at (F.state flash.old).image sector) page (used - page))) }
    ensures reads { OnlyReads (F.state flash.old) (F.state flash.new) }
    ensures operations { (F.state flash.new).operations ≤ (F.state flash.old).operations + (used - page) }
    ensures cause { IsErrOf result PageFault.Flash → HasRisenBy 1 (F.state flash.old).faults (F.state flash.new).faults }
{
    for at in page..used {
        if read(flash, sector, at)? != BLANK_PAGE {
            return Err(PageFault::Damaged { sector, page: at });
        }
    }
    Ok(())
}
