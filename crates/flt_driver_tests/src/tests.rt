//! Drivers of blocks over a device in memory: worked rows, and each operation of a job cut and made to fail.
ghost use Rattle.std.specs.Prelude.{◌≡◌, Contains, IsTrue};
ghost use Rattle.flt_flash.specs.State.{CanArm};

mod ea;
mod fee;
mod file;
mod job;
mod worked;

use flt_flash::{Arm, BlockFault, Blocks, Found};
use std::process::Abort;

/// Stops the test unless this is so.
fn holds(rt: &impl Abort, is_so: bool, what: &str) {
    assert!(rt; is_so, "{what}");
}

/// Stops the test unless this is so of the case of this number.
fn holds_at(rt: &impl Abort, is_so: bool, what: &str, number: usize) {
    assert!(rt; is_so, "{what} {number}");
}

/// A step of a worked row, on the block 8 or 9, with its answer.
#[derive(Clone, Copy)]
pub enum Step {
    Mount(Result<(), BlockFault>),
    // This many bytes of one value are written.
    Write(u16, usize, u8, Result<(), BlockFault>),
    // Block 8 is given one byte, this many times.
    Fill(u8),
    Invalidate(u16, Result<(), BlockFault>),
    // A read finds bytes that are all this one, and leaves the place after them as it was. The driver then says the same without a read.
    Read(u16, Result<Found, BlockFault>, u8),
    // Block 9 can be read, and then the sequence numbers are used up or not.
    Spent(bool),
    Arm(Arm),
    Restart,
    // This often the power may come back, and this many arms remain.
    Bench(u16, u8),
}

/// The byte of a place into which nothing was read.
const UNREAD: u8 = 0xee;

/// Whether this many of the bytes are this one, and those after them were not read.
fn are_read(bytes: &[u8; 128], count: usize, byte: u8) -> bool {
    for (at, found) in bytes.iter().enumerate() {
        let wanted = if at < count { byte } else { UNREAD };
        if *found != wanted {
            return false;
        }
    }
    true
}

/// Whether the driver finds this in a block that it has, at a read and when it looks it up.
fn finds<B: Blocks>(driver: &mut B, block: u16, wanted: Result<Found, BlockFault>, byte: u8) -> bool
    requires { Contains (B.state driver.old).numbers block }
    ensures { (B.state driver.new).numbers ≡ (B.state driver.old).numbers }
{
    let mut out = [UNREAD; 128];
    match driver.read(block, &mut out) {
        Err(fault) => wanted == Err(fault) && are_read(&out, 0, byte),
        Ok(found) => {
            let count = if let Found::Bytes(count) = found {
                count
            } else {
                0
            };
            wanted == Ok(found) && driver.look_up(block) == found && are_read(&out, count, byte)
        }
    }
}

/// Whether a read goes as it says.
fn reads<B: Blocks>(driver: &mut B, block: u16, wanted: Result<Found, BlockFault>, byte: u8) -> bool
    requires first { Contains (B.state driver.old).numbers 8 }
    requires second { Contains (B.state driver.old).numbers 9 }
    ensures { (B.state driver.new).numbers ≡ (B.state driver.old).numbers }
{
    match block {
        8 => finds(driver, 8, wanted, byte),
        9 => finds(driver, 9, wanted, byte),
        _ => false,
    }
}

/// Whether a write goes as it says.
fn writes<B: Blocks>(
    driver: &mut B,
    block: u16,
    count: usize,
    byte: u8,
    wanted: Result<(), BlockFault>,
) -> bool
    requires first { Contains (B.state driver.old).numbers 8 }
    requires second { Contains (B.state driver.old).numbers 9 }
    ensures { (B.state driver.new).numbers ≡ (B.state driver.old).numbers }
{
    if count < 1 || count > 128 {
        return false;
    }
    let bytes = [byte; 128];
    match block {
        8 => driver.write(8, &bytes[..count]) == wanted,
        9 => driver.write(9, &bytes[..count]) == wanted,
        _ => false,
    }
}

/// Writes one byte to block 8, this many times.
fn fill<B: Blocks>(driver: &mut B, times: u8) -> Result<(), BlockFault>
    requires { Contains (B.state driver.old).numbers 8 }
    ensures { (B.state driver.new).numbers ≡ (B.state driver.old).numbers }
{
    for value in 0..times {
        driver.write(8, &[value])?;
    }
    Ok(())
}

/// Whether a block is made invalid as it says.
fn invalidates<B: Blocks>(driver: &mut B, block: u16, wanted: Result<(), BlockFault>) -> bool
    requires first { Contains (B.state driver.old).numbers 8 }
    requires second { Contains (B.state driver.old).numbers 9 }
    ensures { (B.state driver.new).numbers ≡ (B.state driver.old).numbers }
{
    match block {
        8 => driver.invalidate(8) == wanted,
        9 => driver.invalidate(9) == wanted,
        _ => false,
    }
}

/// Whether the sequence numbers are used up as it says.
fn is_spent<B: Blocks>(driver: &mut B, wanted: bool) -> bool
    requires { Contains (B.state driver.old).numbers 9 }
    ensures { (B.state driver.new).numbers ≡ (B.state driver.old).numbers }
{
    let mut out = [UNREAD; 128];
    driver.read(9, &mut out).is_ok() && driver.spent() == wanted
}

/// Whether an arm is of an operation to come.
fn can_arm(arm: Arm) -> bool
    ensures { IsTrue result → CanArm arm }
{
    match arm {
        Arm::Cut { after, .. } => after > 0,
        Arm::Fault { after, .. } => after > 0,
        Arm::Mute { .. } => true,
    }
}

/// Whether an arm is made.
fn arms<B: Blocks>(driver: &mut B, arm: Arm) -> bool
    ensures { (B.state driver.new).numbers ≡ (B.state driver.old).numbers }
{
    if driver.armed() >= 64 || !can_arm(arm) {
        return false;
    }
    driver.arm(arm);
    true
}

/// Turns the power on again, where it may come back.
fn restart<B: Blocks>(driver: &mut B) -> bool
    ensures { (B.state driver.new).numbers ≡ (B.state driver.old).numbers }
{
    let can_restart = driver.boots_left() > 0;
    if can_restart {
        driver.power_up();
    }
    can_restart
}

/// Whether a step goes as it says.
fn goes<B: Blocks>(driver: &mut B, step: Step) -> bool
    requires first { Contains (B.state driver.old).numbers 8 }
    requires second { Contains (B.state driver.old).numbers 9 }
    ensures { (B.state driver.new).numbers ≡ (B.state driver.old).numbers }
{
    match step {
        Step::Mount(wanted) => driver.mount() == wanted,
        Step::Write(block, count, byte, wanted) => writes(driver, block, count, byte, wanted),
        Step::Fill(times) => fill(driver, times).is_ok(),
        Step::Invalidate(block, wanted) => invalidates(driver, block, wanted),
        Step::Read(block, wanted, byte) => reads(driver, block, wanted, byte),
        Step::Spent(wanted) => is_spent(driver, wanted),
        Step::Arm(arm) => arms(driver, arm),
        Step::Restart => restart(driver),
        Step::Bench(boots, armed) => (driver.boots_left(), driver.armed()) == (boots, armed),
    }
}

/// Takes the steps of a row, of which each has to go as it says. They are numbered from 0.
fn play<B: Blocks>(rt: &impl Abort, driver: &mut B, row: &str, steps: &[Step])
    requires first { Contains (B.state driver.old).numbers 8 }
    requires second { Contains (B.state driver.old).numbers 9 }
{
    for (at, step) in steps.iter().enumerate() {
        holds_at(rt, goes(driver, *step), row, at);
    }
}

/// The steps of a driver of whose blocks none was written: block 8 is written, made invalid, and given the most bytes. The power may come
/// back twice.
const WRITTEN: &[Step] = &[
    Step::Mount(Ok(())),
    Step::Read(8, Ok(Found::Missing), UNREAD),
    Step::Write(8, 1, 1, Ok(())),
    Step::Read(8, Ok(Found::Bytes(1)), 1),
    Step::Invalidate(8, Ok(())),
    Step::Read(8, Ok(Found::Invalid), UNREAD),
    Step::Write(8, 128, 7, Ok(())),
    Step::Read(8, Ok(Found::Bytes(128)), 7),
    Step::Spent(false),
    Step::Bench(2, 0),
];
