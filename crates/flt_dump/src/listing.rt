//! What an image says line by line.
ghost use Rattle.std.specs.Prelude.{◌≡◌, ◌++◌, ◌≤◌, IfOk, OnOk};
ghost use Rattle.flt_flash.specs.Image.{sector_at};
ghost use Rattle.flt_sector_model.specs.Log.{log};
ghost use Rattle.flt_store_model.specs.Layout.{numbers};
ghost use Rattle.flt_pages.specs.Told.{current_of};
ghost use Rattle.flt_dump.specs.Copy.{copy_state};
ghost use Rattle.flt_dump.specs.Listing.{ending_text, listing_text, record_line, sector_line, torn_line};
ghost use Rattle.flt_dump.specs.Listed.{IsListed, entry_of};

use crate::copy::ImageCopy;
use flt_image::fee_numbers;
use flt_pages::{CurrentSector, Item, Numbers, blank_from, byte_pages, current_sector, item};
use std::alloc::{AllocError, Global};
use std::fmt::Write;

/// A record of a log, as its line gives it.
#[derive(Clone, Copy)]
struct Record {
    page: u16,
    block: u16,
    length: u16,
    valid: bool,
    complete: bool,
}

/// Puts the line of a page with a torn head.
#[tactic(auto, unfolding(crate::specs::Listing::torn_line))]
fn put_torn(page: u16, out: &mut Vec<u8>) -> Result<(), AllocError>
    ensures { OnOk result (out.new.items ≡ out.old.items ++ torn_line page) }
{
    let line = format!(in *out.allocator(); "page {page} torn\n")?;
    out.extend_from_slice(line.as_bytes())
}

/// How a record ends.
fn ending(valid: bool, complete: bool) -> &'static str
    ensures { result.now ≡ ending_text valid complete }
{
    match (valid, complete) {
        (_, false) => " incomplete",
        (true, true) => " complete",
        (false, true) => " invalid",
    }
}

/// Puts the line of a record.
#[tactic(auto, unfolding(crate::specs::Listing::record_line))]
fn put_record(found: Record, out: &mut Vec<u8>) -> Result<(), AllocError>
    ensures { OnOk result (out.new.items ≡ out.old.items ++ record_line (entry_of found)) }
{
    let Record {
        page,
        block,
        length,
        valid,
        complete,
    } = found;
    let ending = ending(valid, complete);
    let line = format!(in *out.allocator(); "page {page} block {block} length {length}{ending}\n")?;
    out.extend_from_slice(line.as_bytes())
}

/// Puts the line of the current sector.
#[tactic(auto, unfolding(crate::specs::Listing::sector_line))]
fn put_sector(at: CurrentSector, out: &mut Vec<u8>) -> Result<(), AllocError>
    ensures { OnOk result (out.new.items ≡ out.old.items ++ sector_line (current_of at)) }
{
    let CurrentSector {
        sector,
        sequence,
        ..
    } = at;
    let line = format!(in *out.allocator(); "sector {sector} sequence {sequence}\n")?;
    out.extend_from_slice(line.as_bytes())
}

/// Puts the lines of the log of a sector, and answers whether the log has no fault.
fn put_log(
    copy: &mut ImageCopy,
    at: CurrentSector,
    numbers: &Numbers,
    out: &mut Vec<u8>,
) -> Result<bool, AllocError>
    requires { at.used ≤ (copy_state copy.old).pages }
    ensures listed { IfOk result (λ whole. IsListed whole (log at.used numbers.now (sector_at (copy_state copy.old).image at.sector)) out.old.items out.new.items) }
    ensures image { (copy_state copy.new).image ≡ (copy_state copy.old).image }
    ensures pages { (copy_state copy.new).pages ≡ (copy_state copy.old).pages }
{
    let mut page = 2;
    'log: loop {
        match item(copy, at.sector, at.used, page, numbers) {
            Err(_) => return Ok(false),
            Ok(Item::End) => return Ok(blank_from(copy, at.sector, at.used, page).is_ok()),
            Ok(Item::Torn) => {
                put_torn(page, out)?;
                page += 1;
            }
            Ok(
                Item::Kept {
                    block,
                    length,
                    valid,
                    complete,
                },
            ) => {
                put_record(
                    Record {
                        page,
                        block,
                        length,
                        valid,
                        complete,
                    },
                    out,
                )?;
                page = (u32::from(page) + 2 + u32::from(byte_pages(length))) as u16;
            }
        }
    }
}

/// The lines of an image, of which each sector has this many pages in use: the current sector and its log; none where the pages have a
/// fault. The image stays.
pub(crate) fn list(alloc: Global, copy: &mut ImageCopy, used: u16) -> Result<Vec<u8>, AllocError>
    requires least { 2 ≤ used }
    requires most { used ≤ (copy_state copy.old).pages }
    ensures lines { IfOk result (λ text. text.items ≡ listing_text used numbers (copy_state copy.old).image) }
    ensures image { (copy_state copy.new).image ≡ (copy_state copy.old).image }
    ensures pages { (copy_state copy.new).pages ≡ (copy_state copy.old).pages }
{
    let numbers = Numbers::make(alloc, fee_numbers(alloc)?)?;
    let mut out = Vec::new(alloc);
    match current_sector(copy, used) {
        Err(_) => Ok(out),
        Ok(None) => {
            out.extend_from_slice(b"no sector\n")?;
            Ok(out)
        }
        Ok(Some(at)) => {
            put_sector(at, &mut out)?;
            let is_whole = put_log(copy, at, &numbers, &mut out)?;
            if is_whole {
                return Ok(out);
            }
            Ok(Vec::new(alloc))
        }
    }
}
