//! Calls on a driver of blocks that has written.
ghost use Rattle.std.specs.Prelude.{◌≡◌, ◌<◌, length, Contains};

use flt_config::ValidConfig;
use flt_flash::{BlockFault, Blocks};
use flt_image::{fee_numbers, laws};
use flt_lives::Driver;
use std::alloc::Global;

/// One of the numbers, in turn.
fn number_at(numbers: &[u16], turn: u16) -> u16
    requires { 0 < length numbers.now }
    ensures { Contains numbers.now result }
{
    numbers[turn as usize % numbers.len()]
}

fn mount_again<B: Blocks>(driver: &mut B, times: u16) -> Result<(), BlockFault> {
    for _time in 0..times {
        driver.mount()?;
    }
    Ok(())
}

fn read_in_turn<B: Blocks>(driver: &mut B, numbers: &[u16], times: u16) -> Result<(), BlockFault>
    requires some { 0 < length numbers.now }
    requires numbers { (B.state driver.old).numbers ≡ numbers.now }
{
    let mut out = [0; 128];
    for turn in 0..times {
        driver.read(number_at(numbers, turn), &mut out)?;
    }
    Ok(())
}

/// Gives each block 32 bytes, in turn.
fn write_in_turn<B: Blocks>(driver: &mut B, numbers: &[u16], times: u16) -> Result<(), BlockFault>
    requires some { 0 < length numbers.now }
    requires numbers { (B.state driver.old).numbers ≡ numbers.now }
    ensures { (B.state driver.new).numbers ≡ numbers.now }
{
    for turn in 0..times {
        driver.write(number_at(numbers, turn), &[7; 32])?;
    }
    Ok(())
}

/// Writes 340 records of three pages, one block after the other, which fill the log of a flash, and then makes the calls that the word
/// names.
fn call<B: Blocks>(
    driver: &mut B,
    numbers: &[u16],
    what: &str,
    times: u16,
) -> Result<(), BlockFault>
    requires some { 0 < length numbers.now }
    requires numbers { (B.state driver.old).numbers ≡ numbers.now }
{
    write_in_turn(driver, numbers, 340)?;
    match what {
        "mounts" => mount_again(driver, times),
        "reads" => read_in_turn(driver, numbers, times),
        _ => write_in_turn(driver, numbers, times),
    }
}

/// Makes the calls that the word names on a driver that has written 340 records: over a flash its log is full
/// then. The device comes back.
pub fn run_blocks<D: Driver>(
    alloc: Global,
    device: D::Device,
    config: &ValidConfig,
    what: &str,
    times: u16,
) -> Option<D::Device>
    requires { D.serves config.now (D.device_state device) }
{
    let Ok(numbers) = fee_numbers(alloc) else {
        return None;
    };
    if numbers.is_empty() {
        return None;
    }
    laws::numbers_are_distinct();
    let mut driver = D::open(alloc, device, config, fee_numbers(alloc).ok()?).ok()?;
    call(&mut driver, &numbers, what, times).ok()?;
    Some(driver.close())
}
