//! What the definitions say of worked pages, and what torn programs and erases leave of a flash in memory.
ghost use Rattle.std.specs.Prelude.{◌≡◌, ◌<◌, ◌≤◌, IfOk};
ghost use Rattle.flt_flash.specs.Image.{page_at, blank_page};
ghost use Rattle.flt_flash.specs.Memory.{flash_state};

mod damaged;
mod torn;
mod worked;

use super::{holds, holds_at};
use flt_code::{Word, get_word, is_spoiled, put_word, seal, unseal};
use flt_flash::{Arm, BLANK_PAGE, Bench, Flash, FlashFailed, FlashMem, Pattern};
use flt_pages::*;
use std::alloc::Global;
use std::process::Abort;
use std::test::Fail;
use worked::{eight, record};

const START: [u8; 32] = [
    0x53, 0x01, 0, 0, 0, 1, 2, 0, 0, 0, 0, 0, 0, 0, 0, 0, 0xac, 0xfe, 0xff, 0xff, 0xff, 0xfe, 0xfd,
    0xff, 0xff, 0xff, 0xff, 0xff, 0xff, 0xff, 0xff, 0xff,
];

/// Stops the test unless the page is blank.
#[tactic(auto, unfolding(flt_flash::specs::Image::blank_page))]
fn assert_blank(rt: &impl Abort, flash: &FlashMem, sector: u8, page: u16)
    requires sector { sector < 2 }
    requires page { page < (flash_state flash.now).pages }
    ensures { page_at (flash_state flash.now).image sector page ≡ blank_page }
{
    assert!(rt;
        *flash.page(sector, page) == BLANK_PAGE,
        "page {page} of sector {sector} is written"
    );
}

/// The word of a page, or none.
fn word_of(page: &[u8; 32]) -> Option<Word> {
    get_word(&unseal(page)?)
}

/// Whether the start gate has no word with this bit changed.
fn is_no_word(bit: u16) -> bool
    requires { bit < 256 }
{
    let mut changed = START;
    changed[bit as usize / 8] ^= 1 << (bit % 8);
    unseal(&changed).is_none()
}

#[test]
fn a_start_gate_is_sealed(rt: HostRuntime) {
    let word = Word::Start {
        sequence: 1,
        pages: 512,
    };
    let page = seal(&put_word(&word));
    holds(&rt, page == START && !is_spoiled(&page), "the start gate");
    holds(&rt, word_of(&page) == Some(word), "its word");
    holds(&rt, unseal(&[255; 32]).is_none(), "a blank page");
    for bit in 0..256u16 {
        holds_at(&rt, is_no_word(bit), "bit", bit as usize);
    }
}

/// A flash of two sectors of 64 blank pages, of which the first is begun under number 1.
fn begun(alloc: Global) -> Result<FlashMem, Fail>
    ensures pages { IfOk result (λ flash. (flash_state flash).pages ≡ 64) }
    ensures boots { IfOk result (λ flash. (flash_state flash).bench.boots_left ≡ 2) }
    ensures armed { IfOk result (λ flash. (flash_state flash).bench.armed ≡ 0) }
{
    let mut flash = FlashMem::blank(alloc, 64, 2)?;
    begin(&mut flash, 0, 64, 1)?;
    Ok(flash)
}

/// Stops the test unless the item of sector 0 at this page is reported so.
fn assert_item(
    rt: &impl Abort,
    flash: &mut FlashMem,
    numbers: &Numbers,
    page: u16,
    wanted: Result<Item, PageFault>,
)
    requires pages { (flash_state flash.old).pages ≡ 64 }
    requires page { page ≤ 64 }
    ensures pages { (flash_state flash.new).pages ≡ 64 }
    ensures boots { (flash_state flash.new).bench.boots_left ≡ (flash_state flash.old).bench.boots_left }
{
    holds_at(
        rt,
        item(flash, 0, 64, page, numbers) == wanted,
        "page",
        page as usize,
    );
}

/// Stops the test unless the gates of sector 0 give this number.
fn assert_gates(rt: &impl Abort, flash: &mut FlashMem, wanted: Option<u32>)
    requires { (flash_state flash.old).pages ≡ 64 }
    ensures { (flash_state flash.new).pages ≡ 64 }
{
    holds(rt, gates(flash, 0, 64) == Ok(wanted), "the gates");
}

/// Puts the head of one byte of block 8 on page 2.
fn put_head(rt: &impl Abort, flash: &mut FlashMem) -> Result<(), FlashFailed>
    requires { (flash_state flash.old).pages ≡ 64 }
    ensures pages { (flash_state flash.new).pages ≡ 64 }
    ensures boots { (flash_state flash.new).bench.boots_left ≡ (flash_state flash.old).bench.boots_left }
{
    assert_blank(rt, flash, 0, 2);
    append_head(flash, 0, 2, 8, 1, true)
}

/// Puts the byte on page 3.
fn put_piece(rt: &impl Abort, flash: &mut FlashMem) -> Result<(), FlashFailed>
    requires { (flash_state flash.old).pages ≡ 64 }
    ensures { (flash_state flash.new).pages ≡ 64 }
{
    assert_blank(rt, flash, 0, 3);
    append_piece(flash, 0, 3, &[0x07])
}

/// Puts the gate on page 4.
fn put_gate(rt: &impl Abort, flash: &mut FlashMem) -> Result<(), FlashFailed>
    requires { (flash_state flash.old).pages ≡ 64 }
    ensures { (flash_state flash.new).pages ≡ 64 }
{
    assert_blank(rt, flash, 0, 4);
    append_gate(flash, 0, 4, 8, 2)
}

/// Makes the sector valid.
fn put_active(rt: &impl Abort, flash: &mut FlashMem) -> Result<(), FlashFailed>
    requires { (flash_state flash.old).pages ≡ 64 }
    ensures { (flash_state flash.new).pages ≡ 64 }
{
    assert_blank(rt, flash, 0, 1);
    activate(flash, 0, 1)
}

/// Puts a record on a sector that is begun, and looks at it before and after its gate.
fn keep(rt: &impl Abort, flash: &mut FlashMem, numbers: &Numbers) -> Result<(), FlashFailed>
    requires { (flash_state flash.old).pages ≡ 64 }
    ensures { (flash_state flash.new).pages ≡ 64 }
{
    put_head(rt, flash)?;
    put_piece(rt, flash)?;
    assert_item(rt, flash, numbers, 2, Ok(record(false)));
    put_gate(rt, flash)?;
    assert_item(rt, flash, numbers, 2, Ok(record(true)));
    assert_item(rt, flash, numbers, 5, Ok(Item::End));
    Ok(())
}

/// Makes a sector with such a record valid.
fn make_valid(rt: &impl Abort, flash: &mut FlashMem) -> Result<(), PageFault>
    requires { (flash_state flash.old).pages ≡ 64 }
    ensures { (flash_state flash.new).pages ≡ 64 }
{
    blank_from(flash, 0, 64, 5)?;
    assert_gates(rt, flash, None);
    put_active(rt, flash)?;
    assert_gates(rt, flash, Some(1));
    Ok(())
}

/// Puts the record, makes the sector valid, and looks at the bytes and at the wear.
fn keep_whole(rt: &impl Abort, flash: &mut FlashMem, numbers: &Numbers) -> Result<(), PageFault>
    requires { (flash_state flash.old).pages ≡ 64 }
{
    keep(rt, flash, numbers)?;
    make_valid(rt, flash)?;
    let has_byte = flash.page(0, 3)[0] == 0x07 && flash.page(0, 3)[31] == 0xff;
    holds(rt, has_byte, "the bytes");
    holds(rt, flash.wear(0) == 1 && flash.wear(1) == 0, "the wear");
    Ok(())
}

#[test]
fn a_record_is_kept(rt: HostRuntime) -> Result<(), Fail> {
    let numbers = eight(rt.alloc())?;
    let mut flash = begun(rt.alloc())?;
    keep_whole(&rt, &mut flash, &numbers)?;
    Ok(())
}

/// Whether the power came back once, after four operations, and no arm is left.
fn is_up(flash: &FlashMem) -> bool {
    flash.boots_left() == 1 && flash.armed() == 0 && flash.operations() == 4
}

/// Cuts the program of a head, and looks at it before the power comes back and after that.
fn tear(rt: &impl Abort, flash: &mut FlashMem, numbers: &Numbers)
    requires pages { (flash_state flash.old).pages ≡ 64 }
    requires boots { (flash_state flash.old).bench.boots_left ≡ 2 }
    requires armed { (flash_state flash.old).bench.armed ≡ 0 }
{
    flash.arm(Arm::Cut {
        after: 1,
        pattern: Pattern::Tail,
    });
    holds(rt, flash.armed() == 1, "one arm");
    holds(rt, put_head(rt, flash).is_err(), "the head that is cut");
    assert_item(rt, flash, numbers, 2, Err(PageFault::Flash));
    holds(rt, flash.boots_left() == 2, "two boots are left");
    flash.power_up();
    holds(rt, is_up(flash), "the flash with power");
    let is_booted = flash.boot_page(0, 0, 0) == flash.page(0, 0);
    holds(rt, is_booted, "the page at the boot");
    assert_item(rt, flash, numbers, 2, Ok(Item::Torn));
}

#[test]
fn a_head_is_torn(rt: HostRuntime) -> Result<(), Fail> {
    let numbers = eight(rt.alloc())?;
    tear(&rt, &mut begun(rt.alloc())?, &numbers);
    Ok(())
}
