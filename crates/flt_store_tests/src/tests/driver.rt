//! A user of any driver, over the driver of an EEPROM.
ghost use Rattle.std.specs.Prelude.{◌≡◌, Contains};

use super::*;
use flt_flash::{BlockFault, Found};

/// Whether the driver finds this in block 8, with these bytes at its front, and says the same without a read.
fn finds<B: Blocks>(driver: &mut B, wanted: Found, front: &[u8]) -> bool
    requires { Contains (B.state driver.old).numbers 8 }
    ensures { (B.state driver.new).numbers ≡ (B.state driver.old).numbers }
{
    let mut out = [0xee; 128];
    match driver.read(8, &mut out) {
        Err(_) => false,
        Ok(found) => found == wanted && driver.look_up(8) == found && out.starts_with(front),
    }
}

/// What any driver answers of block 8, which was never written, and then of its bytes.
fn write_first<B: Blocks>(rt: &impl Abort, driver: &mut B) -> Result<(), BlockFault>
    requires { Contains (B.state driver.old).numbers 8 }
    ensures { (B.state driver.new).numbers ≡ (B.state driver.old).numbers }
{
    driver.mount()?;
    holds(rt, !driver.spent(), "numbers are left");
    let is_missing = finds(driver, Found::Missing, &[0xee]);
    holds(rt, is_missing, "a block that was not written");
    driver.write(8, &[1, 2])?;
    let is_found = finds(driver, Found::Bytes(2), &[1, 2, 0xee]);
    holds(rt, is_found, "a block that was written");
    Ok(())
}

/// What it answers of them with the power on again, and of the block made invalid.
fn drive<B: Blocks>(rt: &impl Abort, driver: &mut B) -> Result<(), BlockFault>
    requires { Contains (B.state driver.old).numbers 8 }
{
    write_first(rt, driver)?;
    assert!(rt; driver.boots_left() == 1);
    driver.power_up();
    let is_found = finds(driver, Found::Bytes(2), &[1, 2, 0xee]);
    holds(rt, is_found, "a block after the power");
    driver.invalidate(8)?;
    let is_invalid = finds(driver, Found::Invalid, &[0xee]);
    holds(rt, is_invalid, "a block that was made invalid");
    Ok(())
}

#[test]
fn a_block_outlives_the_power(rt: HostRuntime) -> Result<(), Fail> {
    let mut driver = units_driver(rt.alloc(), 1)?;
    drive(&rt, &mut driver)?;
    Ok(())
}
