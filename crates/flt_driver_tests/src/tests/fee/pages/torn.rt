//! Every pattern of a cut and of a fault at each call on a sector.
ghost use Rattle.std.specs.Prelude.{◌≡◌, ◌<◌};
ghost use Rattle.flt_flash.specs.Memory.{flash_state};
ghost use Rattle.flt_flash.specs.State.{CanArm};

use super::worked::{Image, eight, image, piece, prepared, record, word};
use super::{assert_blank, holds_at};
use flt_flash::{Arm, BLANK_PAGE, Bench, Flash, FlashFailed, FlashMem, Pattern};
use flt_pages::{
    Item, Numbers, activate, append_gate, append_head, append_piece, begin, blank_from, gates, item,
};
use std::alloc::Global;
use std::process::Abort;
use std::test::Fail;

const PATTERNS: [Pattern; 4] = [Pattern::Nothing, Pattern::All, Pattern::Tail, Pattern::Odd];

#[derive(Clone, Copy, Debug, PartialEq, Eq)]
enum Call {
    Gates,
    Item,
    BlankFrom,
    Begin,
    Head,
    Piece,
    Gate,
    Activate,
}

const CALLS: [Call; 8] = [
    Call::Gates,
    Call::Item,
    Call::BlankFrom,
    Call::Begin,
    Call::Head,
    Call::Piece,
    Call::Gate,
    Call::Activate,
];

/// The image that one operation of a call asks for.
fn asked(call: Call, start: &Image) -> Image {
    let mut asked = *start;
    match call {
        Call::Gates | Call::Item | Call::BlankFrom => {}
        Call::Begin => asked[8] = word([0x53, 1, 0, 0, 0, 3, 0, 8]),
        Call::Head => asked[5] = word([0x48, 1, 0, 8, 0, 1, 0, 5]),
        Call::Piece => asked[6] = piece(5),
        Call::Gate => asked[4] = word([0x47, 1, 0, 8, 0, 2, 0, 0]),
        Call::Activate => asked[9] = word([0x41, 1, 0, 0, 0, 2, 0, 0]),
    }
    asked
}

fn erased(start: &Image) -> Image {
    let mut erased = *start;
    for page in 8..16 {
        erased[page] = BLANK_PAGE;
    }
    erased
}

/// What a pattern leaves of a page of which the bytes from `tail` on are its tail.
fn torn(pattern: Pattern, start: &[u8; 32], asked: &[u8; 32], tail: usize) -> [u8; 32] {
    let mut page = *start;
    for byte in 0..32 {
        page[byte] = match pattern {
            Pattern::Nothing => start[byte],
            Pattern::All => asked[byte],
            Pattern::Tail => {
                if byte < tail {
                    start[byte]
                } else {
                    asked[byte]
                }
            }
            Pattern::Odd => start[byte] & 0b0101_0101 | asked[byte] & 0b1010_1010,
        };
    }
    page
}

/// The answer of a call that only reads, by whether it gave what the image holds.
fn ok_if(is_told: bool) -> Result<(), FlashFailed> {
    if is_told { Ok(()) } else { Err(FlashFailed) }
}

fn run(
    rt: &impl Abort,
    flash: &mut FlashMem,
    numbers: &Numbers,
    call: Call,
) -> Result<(), FlashFailed>
    requires { (flash_state flash.old).pages ≡ 8 }
    ensures pages { (flash_state flash.new).pages ≡ 8 }
    ensures boots { (flash_state flash.new).bench.boots_left ≡ (flash_state flash.old).bench.boots_left }
{
    match call {
        Call::Gates => ok_if(gates(flash, 0, 8) == Ok(Some(1))),
        Call::Item => ok_if(item(flash, 0, 8, 2, numbers) == Ok(record(false))),
        Call::BlankFrom => ok_if(blank_from(flash, 0, 8, 4).is_ok()),
        Call::Begin => begin(flash, 1, 8, 3),
        Call::Head => {
            assert_blank(rt, flash, 0, 5);
            append_head(flash, 0, 5, 8, 1, true)
        }
        Call::Piece => {
            assert_blank(rt, flash, 0, 6);
            append_piece(flash, 0, 6, &[5])
        }
        Call::Gate => {
            assert_blank(rt, flash, 0, 4);
            append_gate(flash, 0, 4, 8, 2)
        }
        Call::Activate => {
            assert_blank(rt, flash, 1, 1);
            activate(flash, 1, 2)
        }
    }
}

/// A cut or a fault at this operation.
fn arm_at(operation: u32, pattern: Pattern, is_cut: bool) -> Arm
    requires { 0 < operation }
    ensures { CanArm result }
{
    if is_cut {
        Arm::Cut {
            after: operation,
            pattern,
        }
    } else {
        Arm::Fault {
            after: operation,
            pattern,
        }
    }
}

/// The first byte of the tail of a page, by an erase or a program.
fn tail_from(is_erase: bool, page: u16) -> usize {
    match (is_erase, page < 2) {
        (false, _) => 16,
        (true, true) => 32,
        (true, false) => 0,
    }
}

/// The image before an operation of a call, of which the second is the first program of a sector that was erased.
fn start_of(operation: u32) -> Image {
    if operation == 2 {
        erased(&image())
    } else {
        image()
    }
}

/// The image that the operation asks for.
fn asked_of(call: Call, is_erase: bool, start: &Image) -> Image {
    if is_erase {
        erased(start)
    } else {
        asked(call, start)
    }
}

/// The word of a pattern.
fn name_of(pattern: Pattern) -> &'static str {
    match pattern {
        Pattern::Nothing => "none",
        Pattern::All => "all",
        Pattern::Tail => "tail",
        Pattern::Odd => "odd",
    }
}

/// Each page is what the pattern leaves of an operation of a call, which is an erase of the second sector or a program. The pages of sector 1
/// are numbered from 8.
fn compare(rt: &impl Abort, flash: &FlashMem, call: Call, operation: u32, pattern: Pattern)
    requires { (flash_state flash.now).pages ≡ 8 }
{
    let is_erase = call == Call::Begin && operation == 1;
    let start = start_of(operation);
    let asked = asked_of(call, is_erase, &start);
    for sector in 0..2 {
        for page in 0..8 {
            let place = sector as usize * 8 + page as usize;
            let tail = tail_from(is_erase, page);
            let is_torn = *flash.page(sector, page)
                == torn(pattern, &start[place], &asked[place], tail);
            holds_at(rt, is_torn, name_of(pattern), place);
        }
    }
}

/// Whether the arm fired unless the call only reads, and a cut that fired turned the power off.
fn is_left(flash: &mut FlashMem, is_cut: bool, only_reads: bool) -> bool
    requires { (flash_state flash.old).pages ≡ 8 }
    ensures pages { (flash_state flash.new).pages ≡ 8 }
    ensures boots { (flash_state flash.new).bench.boots_left ≡ (flash_state flash.old).bench.boots_left }
{
    let mut out = [0; 32];
    (flash.armed() == 1) == only_reads
        && flash.read_page(0, 0, &mut out).is_err() == (is_cut && !only_reads)
}

/// Stops the test unless this is so of a call.
fn holds_of(rt: &impl Abort, is_so: bool, call: Call, pattern: Pattern) {
    assert!(rt; is_so, "{call:?} {pattern:?}");
}

/// A call fails unless it only reads, and leaves the arm and the power so.
fn fails(
    rt: &impl Abort,
    flash: &mut FlashMem,
    numbers: &Numbers,
    call: Call,
    pattern: Pattern,
    is_cut: bool,
)
    requires { (flash_state flash.old).pages ≡ 8 }
    ensures pages { (flash_state flash.new).pages ≡ 8 }
    ensures boots { (flash_state flash.new).bench.boots_left ≡ (flash_state flash.old).bench.boots_left }
{
    let only_reads = matches!(call, Call::Gates | Call::Item | Call::BlankFrom);
    let is_ok = run(rt, flash, numbers, call).is_ok();
    let is_so = is_ok == only_reads && is_left(flash, is_cut, only_reads);
    holds_of(rt, is_so, call, pattern);
}

/// One operation of a call is cut, or fails by a fault.
fn try_case(
    rt: &impl Abort,
    alloc: Global,
    call: Call,
    operation: u32,
    pattern: Pattern,
    is_cut: bool,
) -> Result<(), Fail>
    requires { 0 < operation }
{
    let numbers = eight(alloc)?;
    let mut flash = prepared(alloc, image())?;
    flash.arm(arm_at(operation, pattern, is_cut));
    fails(rt, &mut flash, &numbers, call, pattern, is_cut);
    flash.power_up();
    compare(rt, &flash, call, operation, pattern);
    let is_told = is_told(&mut flash, &numbers, call, pattern);
    holds_of(rt, is_told, call, pattern);
    Ok(())
}

/// What a pattern leaves of a head, read as an item.
fn head_by(pattern: Pattern) -> Item {
    match pattern {
        Pattern::Nothing => Item::End,
        Pattern::All => record(false),
        _ => Item::Torn,
    }
}

/// Whether a look at the flash gives what a call that failed by this pattern leaves.
fn is_told(flash: &mut FlashMem, numbers: &Numbers, call: Call, pattern: Pattern) -> bool
    requires { (flash_state flash.old).pages ≡ 8 }
{
    let all = pattern == Pattern::All;
    match call {
        Call::Head => item(flash, 0, 8, 5, numbers) == Ok(head_by(pattern)),
        Call::Gate => item(flash, 0, 8, 2, numbers) == Ok(record(all)),
        Call::Activate if all => gates(flash, 1, 8) == Ok(Some(2)),
        _ => gates(flash, 1, 8) == Ok(None),
    }
}

#[test]
fn each_operation_is_torn(rt: HostRuntime) -> Result<(), Fail> {
    for pattern in PATTERNS {
        for is_cut in [false, true] {
            for call in CALLS {
                try_case(&rt, rt.alloc(), call, 1, pattern, is_cut)?;
            }
            try_case(&rt, rt.alloc(), Call::Begin, 2, pattern, is_cut)?;
        }
    }
    Ok(())
}
