//! A flash and an EEPROM that a store of bytes keeps, and the drivers over them.
ghost use Rattle.std.specs.Prelude.{Contains, IfOk};
ghost use Rattle.flt_fee.specs.Fee.{fee_state as fee_state};
ghost use Rattle.flt_ea.specs.Ea.{ea_state as ea_state};

mod keeping;
mod layout;
mod opening;

use super::ea::two_blocks as two_blocks_of_units;
use super::fee::two_blocks;
use super::job::{Held, Progress, read_both, run_job};
use super::{holds, restart};
use flt_ea::{Ea, Eeprom};
use flt_fee::Fee;
use flt_file::{
    EepromFile, FlashFile, LoadFault, MemBytes, OpenFault, StoreFault, open_eeprom, open_flash,
};
use flt_flash::{Bench, Blocks, Flash};
use std::alloc::Global;
use std::fs;
use std::process::Abort;
use std::test::Fail;

/// The pages of each sector of a flash, 896 bytes in all.
const PAGES: u16 = 14;

/// The units of an EEPROM, 640 bytes in all.
const UNITS: u16 = 20;

/// A driver of the blocks 9 and 8 over a flash of this many pages a sector.
fn fee_over<F: Bench + Drop>(alloc: Global, flash: F) -> Result<Fee<F>, Fail>
    ensures first { IfOk result (λ fee. Contains (fee_state F.state fee).numbers 8) }
    ensures second { IfOk result (λ fee. Contains (fee_state F.state fee).numbers 9) }
{
    if flash.pages() < PAGES {
        return Err(Fail::from("pages"));
    }
    two_blocks(alloc, flash, PAGES)
}

/// A driver of the blocks 8 and 9 over an EEPROM of this many units.
fn ea_over<E: Eeprom + Drop>(alloc: Global, device: E) -> Result<Ea<E>, Fail>
    ensures first { IfOk result (λ ea. Contains (ea_state E.state ea).numbers 8) }
    ensures second { IfOk result (λ ea. Contains (ea_state E.state ea).numbers 9) }
{
    if device.units() < UNITS {
        return Err(Fail::from("units"));
    }
    two_blocks_of_units(alloc, device)
}

/// Turns the power on, and makes the job.
fn live<B: Blocks>(driver: &mut B) -> Progress
    requires first { Contains (B.state driver.old).numbers 8 }
    requires second { Contains (B.state driver.old).numbers 9 }
{
    restart(driver);
    run_job(driver)
}

/// Turns the power on, and reads both blocks.
fn look<B: Blocks>(driver: &mut B) -> Result<(Held, Held), Fail>
    requires first { Contains (B.state driver.old).numbers 8 }
    requires second { Contains (B.state driver.old).numbers 9 }
{
    restart(driver);
    Ok(read_both(driver)?)
}

/// What the blocks of a flash in these bytes hold.
fn look_into_flash(alloc: Global, bytes: Vec<u8>) -> Result<(Held, Held), Fail> {
    if bytes.len() != 896 {
        return Err(Fail::from("size"));
    }
    let flash = FlashFile::load(alloc, MemBytes::new(bytes), PAGES)?;
    look(&mut fee_over(alloc, flash)?)
}

/// What the blocks of an EEPROM in these bytes hold.
fn look_into_eeprom(alloc: Global, bytes: Vec<u8>) -> Result<(Held, Held), Fail> {
    if bytes.len() != 640 {
        return Err(Fail::from("size"));
    }
    let device = EepromFile::load(alloc, MemBytes::new(bytes), UNITS)?;
    look(&mut ea_over(alloc, device)?)
}
