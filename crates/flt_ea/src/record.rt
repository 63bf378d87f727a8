//! Records in the places of blocks.
ghost use Rattle.std.specs.Prelude.{◌≡◌, ◌+◌, ◌≤◌, ◌++◌, false, drop, length, OnOk, OnErr};
ghost use Rattle.flt_flash.specs.Blocks.{byte_pages, record_pages};
ghost use Rattle.flt_flash.specs.Image.{sector_at};
ghost use Rattle.flt_flash.specs.State.{HasRisenBy, OnlyReads};
ghost use Rattle.flt_code.specs.Spoiled.{is_spoiled};
ghost use Rattle.flt_pages.specs.Recorded.{Fills};
ghost use Rattle.flt_ea.specs.Gate.{IsGate};
ghost use Rattle.flt_ea.specs.Image.{bytes_after_gate};
ghost use Rattle.flt_ea.specs.State.{unit_at};
ghost use Rattle.flt_ea.specs.Written.{WritesRecord};

use crate::{Eeprom, Gate, put_gate};
use flt_code::seal;
use flt_flash::{BLANK_PAGE, FlashFailed};
use flt_pages::{byte_pages, fill_up};

/// Reads the first bytes after a gate to the start of `out`. What lies past them, and all of `out` after a failure, stays.
pub(crate) fn read_bytes<E: Eeprom>(
    device: &mut E,
    gate: u16,
    size: u16,
    out: &mut [u8; 128],
) -> Result<(), FlashFailed>
    requires most { size ≤ 128 }
    requires room { gate + 1 + byte_pages size ≤ (E.state device.old).pages }
    ensures read { OnOk result (out.new ≡ bytes_after_gate (sector_at (E.state device.old).image 0) gate size ++ drop size out.old) }
    ensures nothing { OnErr result (out.new ≡ out.old) }
    ensures operations { OnOk result ((E.state device.new).operations ≤ (E.state device.old).operations + byte_pages size) }
    ensures reads { OnlyReads (E.state device.old) (E.state device.new) }
    ensures cause { OnErr result (HasRisenBy 1 (E.state device.old).faults (E.state device.new).faults) }
{
    let mut held = [0; 128];
    for index in 0..byte_pages(size) {
        let mut bytes = [0; 32];
        device.read_unit(gate + 1 + index, &mut bytes)?;
        let start = 32 * index as usize;
        held[start..start + 32].copy_from_slice(&bytes);
    }
    let size = size as usize;
    out[..size].copy_from_slice(&held[..size]);
    Ok(())
}

/// Writes plain bytes to units, the last of which is filled up with ones.
fn fill<E: Eeprom>(device: &mut E, first: u16, bytes: &[u8]) -> Result<(), FlashFailed>
    requires most { length bytes.now ≤ 128 }
    requires room { first + byte_pages (length bytes.now) ≤ (E.state device.old).pages }
    ensures fills { Fills (E.state device.old) (E.state device.new) 0 first bytes.now result }
    ensures operations { OnOk result ((E.state device.new).operations ≤ (E.state device.old).operations + byte_pages (length bytes.now)) }
{
    for index in 0..byte_pages(bytes.len() as u16) {
        let start = 32 * index as usize;
        let end = if start + 32 <= bytes.len() {
            start + 32
        } else {
            bytes.len()
        };
        device.write_unit(first + index, &fill_up(&bytes[start..end]))?;
    }
    Ok(())
}

/// Writes a record to a place, whose gate is this unit: makes the gate blank, writes the bytes, 1 to 128 for a valid record and none
/// for an invalid one, and then the gate.
///
/// After a failure the place holds the record whole, or is empty, or its gate is as it was; no unit of another place changed.
pub(crate) fn write_record<E: Eeprom>(
    device: &mut E,
    unit: u16,
    gate: &Gate,
    bytes: &[u8],
) -> Result<(), FlashFailed>
    requires room { unit + 5 ≤ (E.state device.old).pages }
    requires gate { IsGate gate.now }
    requires most { length bytes.now ≤ 128 }
    requires unspoiled { is_spoiled (unit_at (E.state device.old).image unit) ≡ false }
    ensures writes { WritesRecord (E.state device.old) (E.state device.new) unit gate.now bytes.now result }
    ensures operations { OnOk result ((E.state device.new).operations ≤ (E.state device.old).operations + record_pages (length bytes.now)) }
{
    device.write_unit(unit, &BLANK_PAGE)?;
    fill(device, unit + 1, bytes)?;
    device.write_unit(unit, &seal(&put_gate(gate)))
}
