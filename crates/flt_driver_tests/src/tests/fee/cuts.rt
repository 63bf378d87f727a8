//! A fixed job, each of whose programs and erases is cut or fails by each pattern: what is there then is what the definition says.
ghost use Rattle.flt_flash.specs.State.{CanArm};

use super::*;
use crate::tests::job::{Held, held_of, holds_of, run_armed};

/// The pages of each sector.
const PAGES: u16 = 14;

/// How many programs and erases the job makes: 3 of the first mount, 22 of the seven records, and 8 and 10 of the switches.
const OPERATIONS: u32 = 43;

/// Two pages of plain bytes from one on.
fn bytes_from(flash: &FlashMem, sector: u8, page: u16) -> [u8; 128] {
    let mut bytes = [0; 128];
    bytes[..32].copy_from_slice(&page_of_flash(flash, sector, page));
    let next = page.saturating_add(1);
    bytes[32..64].copy_from_slice(&page_of_flash(flash, sector, next));
    bytes
}

/// The number of a valid sector, by the definition.
fn number(flash: &FlashMem, sector: u8) -> Option<u32> {
    match (word_at(flash, sector, 0)?, word_at(flash, sector, 1)?) {
        (Word::Start { sequence, pages }, Word::Active { sequence: active }) => {
            if sequence == active && pages == PAGES {
                Some(sequence)
            } else {
                None
            }
        }
        _ => None,
    }
}

/// What a block holds by the log of a sector, by the definition: its last record with a gate.
fn held_in(flash: &FlashMem, sector: u8, block: u16) -> Held {
    let mut held = Held::Missing;
    let mut page: u16 = 2;
    for _item in 2..PAGES {
        let head = word_at(flash, sector, page);
        let mut next = page.saturating_add(1);
        if let Some(
            Word::Head {
                block: of,
                length,
                valid,
                ..
            },
        ) = head
        {
            let gate = next.saturating_add(length.saturating_add(31) / 32);
            if of == block && word_at(flash, sector, gate) == Some(Word::Gate { block, page }) {
                held = if valid {
                    held_of(block, length as usize, &bytes_from(flash, sector, next))
                } else {
                    Held::Invalid
                };
            }
            next = gate.saturating_add(1);
        }
        page = next;
    }
    held
}

/// What the image says of a block, by the definition.
fn told(flash: &FlashMem, block: u16) -> Held {
    match (number(flash, 0), number(flash, 1)) {
        (None, None) => Held::Missing,
        (Some(_), None) => held_in(flash, 0, block),
        (None, Some(_)) => held_in(flash, 1, block),
        (Some(first), Some(second)) => held_in(flash, u8::from(second > first), block),
    }
}

/// Runs the job over a blank flash with this arm, and reads the blocks with the power on again, a second time where the arm
/// made that fail. It answers whether all of the job was made.
fn run_case(rt: &impl Abort, alloc: Global, arm: Arm) -> Result<bool, Fail>
    requires { CanArm arm }
{
    let mut flash = FlashMem::blank(alloc, PAGES, 1)?;
    flash.arm(arm);
    let mut fee = two_blocks(alloc, flash, PAGES)?;
    let (is_whole, held) = run_armed(rt, &mut fee, arm)?;
    let flash = fee.retire();
    holds_of(rt, held == (told(&flash, 8), told(&flash, 9)), arm);
    Ok(is_whole)
}

/// Runs the job with this arm at an operation of this number. It has all of it where the operation is after its last one.
fn is_whole_after(rt: &impl Abort, alloc: Global, arm: Arm, after: u32) -> Result<(), Fail>
    requires { CanArm arm }
{
    let is_whole = run_case(rt, alloc, arm)?;
    holds_of(rt, is_whole == (after > OPERATIONS), arm);
    Ok(())
}

/// The patterns of a cut and of a fault.
static PATTERNS: [Pattern; 4] = [Pattern::Nothing, Pattern::All, Pattern::Tail, Pattern::Odd];

#[test]
fn each_operation_is_cut_and_fails(rt: HostRuntime) -> Result<(), Fail> {
    for pattern in &PATTERNS {
        let pattern = *pattern;
        for after in 1..60 {
            is_whole_after(&rt, rt.alloc(), Arm::Cut { after, pattern }, after)?;
            is_whole_after(&rt, rt.alloc(), Arm::Fault { after, pattern }, after)?;
        }
    }
    Ok(())
}

#[test]
fn each_page_is_muted(rt: HostRuntime) -> Result<(), Fail> {
    for sector in 0..2 {
        for page in 0..PAGES {
            let times = 1;
            run_case(
                &rt,
                rt.alloc(),
                Arm::Mute {
                    sector,
                    page,
                    times,
                },
            )?;
        }
    }
    Ok(())
}
