//! The driver over a flash in memory: worked rows, and each operation of a job cut and made to fail.
ghost use Rattle.std.specs.Prelude.{◌≤◌, IfOk, Contains};
ghost use Rattle.flt_flash.specs.Memory.{flash_state as flash_state};
ghost use Rattle.flt_fee.specs.Fee.{fee_state};

mod costs;
mod cuts;
mod pages;
mod rows;

use super::*;
use flt_code::{Word, get_word, put_word, seal, unseal};
use flt_fee::Fee;
use flt_flash::{BLANK_PAGE, Bench, Flash, FlashMem, Pattern};
use std::alloc::{AllocError, Global};
use std::test::Fail;

/// A driver of the blocks 9 and 8, in this order.
pub fn two_blocks<F: Bench + Drop>(alloc: Global, flash: F, used: u16) -> Result<Fee<F>, Fail>
    requires least { 4 ≤ used }
    requires most { used ≤ (F.state flash).pages }
    ensures first { IfOk result (λ fee. Contains (fee_state F.state fee).numbers 8) }
    ensures second { IfOk result (λ fee. Contains (fee_state F.state fee).numbers 9) }
{
    match Fee::make(alloc, flash, used, vec![in alloc; 9, 8]?) {
        Ok(fee) => Ok(fee),
        Err(_) => Err(Fail::from("refused")),
    }
}

/// Takes the steps of a row on a driver over a flash of at least 64 pages, which comes back.
fn play_on(
    rt: &impl Abort,
    alloc: Global,
    flash: FlashMem,
    row: &str,
    steps: &[Step],
) -> Result<FlashMem, Fail>
    requires { 64 ≤ (flash_state flash).pages }
{
    let mut fee = two_blocks(alloc, flash, 64)?;
    play(rt, &mut fee, row, steps);
    Ok(fee.retire())
}

/// The same over a blank flash, whose power may come back twice.
fn play_on_blank(
    rt: &impl Abort,
    alloc: Global,
    row: &str,
    steps: &[Step],
) -> Result<FlashMem, Fail> {
    play_on(rt, alloc, FlashMem::blank(alloc, 64, 2)?, row, steps)
}

/// A page of the flash, or a blank one where there is no such page.
fn page_of_flash(flash: &FlashMem, sector: u8, page: u16) -> [u8; 32] {
    if sector > 1 || page >= flash.pages() {
        return BLANK_PAGE;
    }
    *flash.page(sector, page)
}

/// Whether a page of the flash is blank.
fn is_blank(flash: &FlashMem, sector: u8, page: u16) -> bool {
    page_of_flash(flash, sector, page) == BLANK_PAGE
}

/// The word of a page of the flash, or none.
fn word_at(flash: &FlashMem, sector: u8, page: u16) -> Option<Word> {
    get_word(&unseal(&page_of_flash(flash, sector, page))?)
}

/// Whether the sectors were erased so often.
fn is_worn(flash: &FlashMem, first: u64, second: u64) -> bool {
    flash.wear(0) == first && flash.wear(1) == second
}
