//! An EEPROM, and the bench that cuts its power.
ghost use Rattle.std.specs.Prelude.{◌≡◌, ◌<◌, OnOk, OnErr};
ghost use Rattle.flt_flash.specs.Tearing.{IsTorn};
ghost use Rattle.flt_flash.specs.State.{FlashState, Operates, CanArm, Arms, PowersUp};
ghost use Rattle.flt_ea.specs.State.{HasUnits, unit_at, with_unit};

use flt_flash::{Arm, FlashFailed};

/// An EEPROM of units of 32 bytes, each of which is written over at will.
///
/// While it is off every read and write fails, raises the count of faults, and changes nothing else but the count of
/// operations. One that is no bench has no boots, none left, and no arms.
pub trait Eeprom {
    /// What a flash of one sector means, whose pages are the units; it counts no erases.
    ghost state: { Self → FlashState };

    /// How many units it has.
    fn units(&self) -> u16
        ensures { result ≡ (state self.now).pages };

    /// Reads a unit. A read that fails changes nothing of the device, and says nothing of `out`. At `Err` read the unit again.
    fn read_unit(&mut self, unit: u16, out: &mut [u8; 32]) -> Result<(), FlashFailed>
        requires { unit < (state self.old).pages }
        ensures read { OnOk result (out.new ≡ unit_at (state self.old).image unit) }
        ensures image { (state self.new).image ≡ (state self.old).image }
        ensures operation { Operates (state self.old) (state self.new) result };

    /// Writes a unit, whatever it held. At `Err` each of its bits is as before or as asked: write it again.
    fn write_unit(&mut self, unit: u16, bytes: &[u8; 32]) -> Result<(), FlashFailed>
        requires { unit < (state self.old).pages }
        ensures written { OnOk result ((state self.new).image ≡ with_unit (state self.old).image unit bytes.now) }
        ensures torn { OnErr result (IsTorn (state self.old).image (with_unit (state self.old).image unit bytes.now) (state self.new).image) }
        ensures operation { Operates (state self.old) (state self.new) result };

    /// How many reads and writes were made, failed ones too. It stays at 2^64 - 1.
    fn operations(&self) -> u64
        ensures { result ≡ (state self.now).operations };

    /// How often the power may still come back.
    fn boots_left(&self) -> u16
        ensures { result ≡ (state self.now).bench.boots_left };

    /// How many arms remain, 64 at most.
    fn armed(&self) -> u8
        ensures { result ≡ (state self.now).bench.armed };

    /// Makes an arm, which remains until it has fired, over power-ups too. A `Mute` of sector s and page p is one of unit
    /// 1,024 s + p.
    fn arm(&mut self, arm: Arm)
        requires room { (state self.old).bench.armed < 64 }
        requires number { CanArm arm }
        ensures { Arms arm (state self.old) (state self.new) };

    /// Turns the device on, changes no bit, and adds the count of faults and the image to the list of boots.
    fn power_up(&mut self)
        requires { 0 < (state self.old).bench.boots_left }
        ensures { PowersUp (state self.old) (state self.new) };

    ghost shape: { (device : Self) → HasUnits (state device) };
}
