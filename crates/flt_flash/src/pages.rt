//! The pages of a device in memory: made, written and torn.
ghost use Rattle.std.specs.Prelude.{◌≡◌, ◌<◌, length, replicate, vec_capacity, Some, IfNone, IfSome, OnSome, IfOk, is_err, is_some, slice_set};
ghost use Rattle.flt_flash.specs.declared.arm.Pattern.TheVariants.{Nothing};
ghost use Rattle.flt_flash.specs.Tearing.{IsTornSector};
ghost use Rattle.flt_flash.specs.Image.{blank_page, ArePages};
ghost use Rattle.flt_flash.specs.Arms.{IsTornBy, IsTornPageBy, IsProgrammedBy, IsErasedBy, erase_tail};

use crate::{FlashFailed, Pattern};
use std::alloc::{AllocError, Global};

/// An erased page: all its bits are 1.
pub const BLANK_PAGE: [u8; 32] = [255; 32];

/// A copy of these pages. The error means that memory ran out.
pub(crate) fn pages_of(alloc: Global, pages: &[[u8; 32]]) -> Result<Vec<[u8; 32]>, AllocError>
    ensures items { IfOk result (λ made. made.items ≡ pages.now) }
    ensures bytes { IfOk result (λ made. ArePages made.items) }
{
    let mut made = Vec::with_capacity(alloc, pages.len())?;
    for page in pages {
        made.push(*page)?;
    }
    Ok(made)
}

/// The bits of a byte that take effect from `after`, and the others from `before`.
fn torn_byte(before: u8, after: u8, pattern: Pattern, in_tail: bool) -> u8
    ensures { IsTornBy pattern in_tail before after result }
{
    match pattern {
        Pattern::Nothing => before,
        Pattern::All => after,
        Pattern::Tail => { if in_tail { after } else { before } }
        Pattern::Odd => (before & 0x55) | (after & 0xaa),
    }
}

/// Tears a page by a pattern, whose tail begins at the byte `tail`.
fn tear_page(page: &mut [u8], after: &[u8], pattern: Pattern, tail: usize)
    requires { length after.now ≡ length page.old }
    ensures { IsTornPageBy pattern tail page.old after.now page.new }
{
    for byte in 0..page.len() {
        page[byte] = torn_byte(page[byte], after[byte], pattern, tail <= byte);
    }
}

/// Where the tail of a page begins in an erase that tears.
fn erase_tail(page: usize) -> usize
    ensures { result ≡ erase_tail page }
{
    if page >= 2 { 0 } else { 32 }
}

/// Tears the erase of a sector by a pattern.
pub(crate) fn tear_sector(pages: &mut [[u8; 32]], pattern: Pattern)
    ensures { IsErasedBy pattern pages.old pages.new }
{
    for page in 0..pages.len() {
        tear_page(&mut pages[page], &BLANK_PAGE, pattern, erase_tail(page));
    }
}

/// Writes a page, or tears it by the pattern.
pub(crate) fn write_page(
    pages: &mut Vec<[u8; 32]>,
    page: usize,
    bytes: &[u8; 32],
    failing: Option<Pattern>,
)
    requires { page < length pages.old.items }
    ensures whole { IfNone failing (pages.new.items ≡ slice_set pages.old.items page bytes.now) }
    ensures torn { OnSome failing (IsTornSector pages.old.items (slice_set pages.old.items page bytes.now) pages.new.items) }
    ensures by_pattern { IfSome failing (λ pattern. IsProgrammedBy pattern pages.old.items page bytes.now pages.new.items) }
    ensures untouched { failing ≡ Some Nothing → pages.new.items ≡ pages.old.items }
    ensures size { length pages.new.items ≡ length pages.old.items }
    ensures room { vec_capacity pages.new ≡ vec_capacity pages.old }
    ensures bytes { ArePages pages.old.items → ArePages pages.new.items }
{
    match failing {
        None => pages[page] = *bytes,
        Some(pattern) => tear_page(&mut pages[page], bytes, pattern, 16),
    }
}

/// What a write or an erase answers that fails by this pattern, or does not fail.
pub fn outcome(failing: Option<Pattern>) -> Result<(), FlashFailed>
    ensures { is_err result ≡ is_some failing }
{
    match failing {
        None => Ok(()),
        Some(_) => Err(FlashFailed),
    }
}
