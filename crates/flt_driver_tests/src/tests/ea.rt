//! The driver over an EEPROM in memory: worked rows, and each write of a job cut and made to fail.
ghost use Rattle.std.specs.Prelude.{◌≤◌, IfOk, Contains};
ghost use Rattle.flt_ea.specs.Memory.{eeprom_state as device_state};
ghost use Rattle.flt_ea.specs.Ea.{ea_state};

mod cuts;
mod order;
mod rows;

use super::*;
use flt_code::seal;
use flt_ea::{Ea, Eeprom, EepromMem, Gate, put_gate};
use flt_flash::{BLANK_PAGE, Pattern};
use std::alloc::{AllocError, Global};
use std::test::Fail;

/// A driver of the blocks 8 and 9.
pub fn two_blocks<E: Eeprom + Drop>(alloc: Global, device: E) -> Result<Ea<E>, Fail>
    requires { 20 ≤ (E.state device).pages }
    ensures first { IfOk result (λ ea. Contains (ea_state E.state ea).numbers 8) }
    ensures second { IfOk result (λ ea. Contains (ea_state E.state ea).numbers 9) }
{
    match Ea::make(alloc, device, vec![in alloc; 8, 9]?) {
        Ok(ea) => Ok(ea),
        Err(_) => Err(Fail::from("refused")),
    }
}

/// Takes the steps of a row on a driver over an EEPROM of at least 20 units, which comes back.
fn play_on(
    rt: &impl Abort,
    alloc: Global,
    device: EepromMem,
    row: &str,
    steps: &[Step],
) -> Result<EepromMem, Fail>
    requires { 20 ≤ (device_state device).pages }
{
    let mut ea = two_blocks(alloc, device)?;
    play(rt, &mut ea, row, steps);
    Ok(ea.retire())
}
