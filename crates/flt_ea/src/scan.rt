//! One look at every gate.
ghost use Rattle.std.specs.Prelude.{◌≡◌, ◌≤◌, ◌*◌, ◌+◌, ℕ, length, Some, None, OnOk, OnErr, IfOk, IsErrOf};
ghost use Rattle.flt_flash.specs.declared.blocks.BlockFault.TheVariants.{Flash, Damaged};
ghost use Rattle.flt_flash.specs.Calls.{NeverFull};
ghost use Rattle.flt_flash.specs.Image.{sector_at};
ghost use Rattle.flt_flash.specs.State.{HasRisenBy, OnlyReads};
ghost use Rattle.flt_ea.specs.Image.{gate_at, judged_places, damage_in};
ghost use Rattle.flt_ea.specs.Scan.{IsTable};

use crate::{Eeprom, Held, judge};
use flt_flash::{BlockFault, FlashFailed};
use flt_pages::Numbers;

/// What the gates of the two places of a position say of the block of this number.
pub(crate) fn look<E: Eeprom>(
    device: &mut E,
    number: u16,
    position: u16,
) -> Result<Result<Option<Held>, u8>, FlashFailed>
    requires { 10 * position + 10 ≤ (E.state device.old).pages }
    ensures reads { OnlyReads (E.state device.old) (E.state device.new) }
    ensures operations { (E.state device.new).operations ≤ (E.state device.old).operations + 2 }
    ensures failed { OnErr result (HasRisenBy 1 (E.state device.old).faults (E.state device.new).faults) }
    ensures judged { IfOk result (λ found. found ≡ judged_places number
        (gate_at (sector_at (E.state device.old).image 0) position 0) (gate_at (sector_at (E.state device.old).image 0) position 1)) }
{
    let mut first = [0; 32];
    let mut second = [0; 32];
    device.read_unit(10 * position, &mut first)?;
    device.read_unit(10 * position + 5, &mut second)?;
    Ok(judge(number, &first, &second))
}

/// Reads the gates of all places once, in order, as far as the first that is damaged, and notes each block's current place.
pub(crate) fn scan<E: Eeprom>(
    device: &mut E,
    numbers: &Numbers,
    table: &mut [Option<Held>],
) -> Result<(), BlockFault>
    requires units { 10 * length numbers.now ≤ (E.state device.old).pages }
    requires table { length table.old ≡ length numbers.now }
    ensures reads { OnlyReads (E.state device.old) (E.state device.new) }
    ensures operations { (E.state device.new).operations ≤ (E.state device.old).operations + 2 * length numbers.now }
    ensures size { length table.new ≡ length table.old }
    ensures sound { OnOk result (damage_in numbers.now (E.state device.old).image ≡ None) }
    ensures table { OnOk result (IsTable (length numbers.now) (sector_at (E.state device.old).image 0) table.new) }
    ensures failed { IsErrOf result Flash → HasRisenBy 1 (E.state device.old).faults (E.state device.new).faults }
    ensures damaged { (sector page : ℕ) → IsErrOf result (Damaged sector page) → damage_in numbers.now (E.state device.old).image ≡ Some (sector, page) }
    ensures never_full { NeverFull result }
{
    for position in 0..numbers.len() {
        match look(device, numbers.at(position), position as u16)? {
            Err(place) => {
                return Err(BlockFault::Damaged {
                    sector: place,
                    page: position as u16,
                });
            }
            Ok(held) => table[position] = held,
        }
    }
    Ok(())
}
