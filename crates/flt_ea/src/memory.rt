//! An EEPROM in memory, and the bench that cuts its power and makes its operations fail.
ghost use Rattle.std.specs.Prelude.{◌≡◌, false, ◌<◌, ◌≤◌, [], ◌∷◌, ◌++◌, length, replicate, is_err, OnOk, OnErr, IfOk};
ghost use Rattle.flt_flash.specs.State.{Operates, CanArm, Arms, PowersUp};
ghost use Rattle.flt_flash.specs.Tearing.{IsTorn};
ghost use Rattle.flt_flash.specs.Image.{blank_page};
ghost use Rattle.flt_flash.specs.PageArrays.{all_pages};
ghost use Rattle.flt_flash.specs.Arms.{arms_told_with};
ghost use Rattle.flt_flash.specs.Power.{first_power};
ghost use Rattle.flt_ea.specs.State.{unit_at, with_unit, in_units, first_units};

use crate::Eeprom;
use arrayvec::ArrayVec;
use flt_flash::{Arm, ArmMade, ArmsTold, Boots, FlashFailed, PageArray, Power, outcome};
use std::alloc::{AllocError, Global};

/// An EEPROM in memory that reports everything, its arms while at most 64 were made. It reserves its memory when it is made, and touches that
/// of a unit when it or a later one is written. `rest` is the second sector that the bench saves, of no unit.
#[derive(Drop)]
pub struct EepromMem {
    units: PageArray,
    rest: PageArray,
    power: Power,
    arms: ArmsTold,
    boots: Boots,
    ghost most: { units.count < 65536 },
    ghost one: { rest.count ≡ 0 },
    ghost boots_units: { boots.first.count ≡ units.count },
    ghost boots_rest: { boots.second.count ≡ 0 },
}

impl EepromMem {
    ghost use Rattle.flt_ea.specs.Memory.{eeprom_state, eeprom_power};

    /// A device of this many units of 32 bytes FF, whose power may come back `boots` times. The error means that memory ran out.
    pub fn blank(alloc: Global, units: u16, boots: u16) -> Result<EepromMem, AllocError>
        ensures state { IfOk result (λ device. eeprom_state device ≡ first_units (replicate units blank_page) boots) }
        ensures power { IfOk result (λ device. eeprom_power device ≡ first_power) }
    {
        Self::made(alloc, PageArray::blank(alloc, units as usize)?, boots)
    }

    /// A device with these units, whose power may come back `boots` times. The error means that memory ran out.
    pub fn of(alloc: Global, image: Vec<[u8; 32]>, boots: u16) -> Result<EepromMem, AllocError>
        requires { length image.items ≤ 65535 }
        ensures state { IfOk result (λ device. eeprom_state device ≡ first_units image.items boots) }
        ensures power { IfOk result (λ device. eeprom_power device ≡ first_power) }
    {
        Self::made(alloc, PageArray::of(alloc, &image)?, boots)
    }

    fn made(alloc: Global, units: PageArray, boots: u16) -> Result<EepromMem, AllocError>
        requires { units.count ≤ 65535 }
        ensures state { IfOk result (λ device. eeprom_state device ≡ first_units (all_pages units) boots) }
        ensures power { IfOk result (λ device. eeprom_power device ≡ first_power) }
    {
        let boots = Boots::reserved(alloc, units.count, 0, boots)?;
        let rest = PageArray::blank(alloc, 0)?;
        Ok(EepromMem {
            units,
            rest,
            power: Power {
                is_off: false,
                faults: 0,
                operations: 0,
                standing: ArrayVec::new(),
            },
            arms: ArmsTold::none(),
            boots,
        })
    }

    /// A unit as it is; it counts for no operation.
    pub fn unit(&self, unit: u16) -> &[u8; 32]
        requires { unit < (eeprom_state self.now).pages }
        ensures { result.now ≡ unit_at (eeprom_state self.now).image unit }
    {
        self.units.page(unit as usize)
    }
}

impl Eeprom for EepromMem {
    ghost use Rattle.flt_ea.specs.Memory.{WriteFails, eeprom_power, eeprom_state};
    ghost use Rattle.flt_ea.specs.Shape.{eeprom_memory_shape};
    ghost use Rattle.flt_flash.specs.Power.{read_fails, power_after_read};

    ghost state = { eeprom_state };

    ghost shape = { eeprom_memory_shape };

    fn units(&self) -> u16 {
        self.units.count as u16
    }

    fn read_unit(&mut self, unit: u16, out: &mut [u8; 32]) -> Result<(), FlashFailed>
        requires { unit < (eeprom_state self.old).pages }
        ensures read { OnOk result (out.new ≡ unit_at (eeprom_state self.old).image unit) }
        ensures image { (eeprom_state self.new).image ≡ (eeprom_state self.old).image }
        ensures operation { Operates (eeprom_state self.old) (eeprom_state self.new) result }

        // It fails exactly where the power is off or an arm mutes the unit, and uses up the arms that mute it.
        ensures fails { is_err result ≡ read_fails 0 unit (eeprom_power self.old) }
        ensures power { eeprom_power self.new ≡ power_after_read 0 unit (eeprom_power self.old) }
    {
        if self.power.count_read(0, unit) {
            return Err(FlashFailed);
        }
        *out = *self.unit(unit);
        Ok(())
    }

    fn write_unit(&mut self, unit: u16, bytes: &[u8; 32]) -> Result<(), FlashFailed>
        requires { unit < (eeprom_state self.old).pages }
        ensures written { OnOk result ((eeprom_state self.new).image ≡ with_unit (eeprom_state self.old).image unit bytes.now) }
        ensures torn { OnErr result (IsTorn (eeprom_state self.old).image (with_unit (eeprom_state self.old).image unit bytes.now) (eeprom_state self.new).image) }
        ensures operation { Operates (eeprom_state self.old) (eeprom_state self.new) result }

        // It fails exactly where the power is off or an arm acts at it, and is torn by the pattern.
        ensures fails { WriteFails self.old self.new unit bytes.now result }
    {
        let failing = self.power.count_write();
        self.units.write(unit as usize, bytes, failing);
        outcome(failing)
    }

    fn operations(&self) -> u64 {
        self.power.operations
    }

    fn boots_left(&self) -> u16 {
        self.boots.left()
    }

    fn armed(&self) -> u8 {
        self.power.standing.len() as u8
    }

    fn arm(&mut self, arm: Arm)
        requires room { (eeprom_state self.old).bench.armed < 64 }
        requires number { CanArm arm }
        ensures arms { Arms arm (eeprom_state self.old) (eeprom_state self.new) }

        // The arm comes after those that were there, and is reported where at most 64 were made.
        ensures power { eeprom_power self.new ≡ record (eeprom_power self.old) { standing = (eeprom_power self.old).standing ++ in_units arm ∷ [] } }
        ensures told { (eeprom_state self.new).bench.arms ≡ arms_told_with (eeprom_state self.old).bench.arms
            (record { arm = arm; boots = length (eeprom_state self.old).bench.boots; faults = (eeprom_state self.old).faults }) }
    {
        self.power.standing.push(in_units(arm));
        self.arms.take(ArmMade {
            arm,
            boots: self.boots.used(),
            faults: self.power.faults,
        });
    }

    fn power_up(&mut self)
        requires { 0 < (eeprom_state self.old).bench.boots_left }
        ensures powers_up { PowersUp (eeprom_state self.old) (eeprom_state self.new) }

        // The arms that were there remain.
        ensures power { eeprom_power self.new ≡ record (eeprom_power self.old) { is_off = false } }
    {
        self.boots.save(self.power.faults, &self.units, &self.rest);
        self.power.is_off = false;
    }
}

/// The arm by the number of the unit that it mutes, if one of 16 bits has it.
fn in_units(arm: Arm) -> Arm
    ensures { result ≡ in_units arm }
{
    match arm {
        Arm::Mute {
            sector,
            page,
            times,
        } => {
            let unit = 1024 * sector as u32 + page as u32;
            if unit < 65536 {
                Arm::Mute {
                    sector: 0,
                    page: unit as u16,
                    times,
                }
            } else {
                arm
            }
        }
        _ => arm,
    }
}
