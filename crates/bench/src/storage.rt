//! Mounts, reads, writes, start-ups and saves on the flash or on the EEPROM in memory, and how many operations of the device and how many
//! erases they take.
//!
//! The words are `flash` or `eeprom`; `mounts`, `reads`, `writes`, `first-start-up`, `start-ups`, `saves-of-nothing`, `saves-of-one` or
//! `saves-of-all`; how often; and of how many events, 64 where that is left out.
ghost use Rattle.flt_lives.specs.Devices.{ServesAll};

use crate::blocks::run_blocks;
use crate::generations::{config, run_store};
use flt_ea::{Ea, Eeprom, EepromMem};
use flt_fee::Fee;
use flt_flash::{Flash, FlashMem};
use flt_lives::Driver;
use std::alloc::Global;

/// The pages of a sector of the flash.
pub const PAGES: u16 = 1024;

/// The units of the EEPROM.
const UNITS: u16 = 1090;

/// How many events a state has where no word says it.
const FEW_EVENTS: u16 = 64;

/// Makes the calls that the word names, for a configuration of this many events, over a blank device, which comes back.
fn run_on<D: Driver>(
    alloc: Global,
    device: D::Device,
    what: &str,
    times: u16,
    events: u16,
) -> Option<D::Device>
    requires { ServesAll D.serves (D.device_state device) }
{
    let config = config(events)?;
    match what {
        "mounts" | "reads" | "writes" => run_blocks::<D>(alloc, device, &config, what, times),
        _ => run_store::<D>(alloc, device, &config, what, times),
    }
}

/// The operations and the erases of such calls on the flash.
fn run_on_flash(alloc: Global, what: &str, times: u16, events: u16) -> Option<(u64, u64)> {
    let flash = FlashMem::blank(alloc, PAGES, 1).ok()?;
    let flash = run_on::<Fee<FlashMem>>(alloc, flash, what, times, events)?;
    let erases = flash.wear(0).saturating_add(flash.wear(1));
    Some((flash.operations(), erases))
}

/// The operations of such calls on the EEPROM.
fn run_on_eeprom(alloc: Global, what: &str, times: u16, events: u16) -> Option<u64> {
    let device = EepromMem::blank(alloc, UNITS, 1).ok()?;
    let device = run_on::<Ea<EepromMem>>(alloc, device, what, times, events)?;
    Some(device.operations())
}

/// The operations and the erases that the words ask for.
pub fn run(rt: &impl AllocGlobal, words: &[String]) -> Option<(u64, u64)> {
    let (device, what, times, events) = match words {
        [device, what, times] => (device, what, times, FEW_EVENTS),
        [device, what, times, events] => (device, what, times, events.parse().ok()?),
        _ => return None,
    };
    let times: u16 = times.parse().ok()?;
    match device.as_str() {
        "flash" => run_on_flash(rt.alloc(), what, times, events),
        "eeprom" => Some((run_on_eeprom(rt.alloc(), what, times, events)?, 0)),
        _ => None,
    }
}
