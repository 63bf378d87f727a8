//! Blocks of each kind over the driver of an EEPROM.
ghost use Rattle.std.specs.Prelude.{◌≡◌, ◌≤◌};
ghost use Rattle.flt_nvm.specs.Driver.{table_of};
ghost use Rattle.flt_nvm.specs.Table.{HasIndex, IsRedundant};

use super::*;
use flt_nvm::{BlockCfg, Kind};

/// A native block, a redundant one, and a dataset of two.
const TABLE: [BlockCfg; 3] = [
    BlockCfg {
        id: 1,
        kind: Kind::Native,
        length: 8,
    },
    BlockCfg {
        id: 2,
        kind: Kind::Redundant,
        length: 26,
    },
    BlockCfg {
        id: 3,
        kind: Kind::Dataset(2),
        length: 32,
    },
];

fn found(length: usize, copy: u8) -> Got {
    Got::Bytes { length, copy }
}

/// Whether a read of a block finds this, with these bytes at its front.
fn reads(nvm: &mut Nvm<Ea<EepromMem>>, id: u16, index: u8, wanted: Got, front: &[u8]) -> bool
    requires { HasIndex (table_of nvm.old) id index }
    ensures { table_of nvm.new ≡ table_of nvm.old }
{
    let mut out = [0xee; 128];
    nvm.read(id, index, &mut out) == Ok(wanted) && out.starts_with(front)
}

/// Whether a read of one copy finds this.
fn reads_copy(nvm: &mut Nvm<Ea<EepromMem>>, id: u16, copy: u8, wanted: Got) -> bool
    requires redundant { IsRedundant (table_of nvm.old) id }
    requires least { 1 ≤ copy }
    requires most { copy ≤ 2 }
    ensures { table_of nvm.new ≡ table_of nvm.old }
{
    nvm.read_copy(id, copy, &mut [0xee; 128]) == Ok(wanted)
}

#[test]
fn blocks_are_kept_by_their_kind(rt: HostRuntime) -> Result<(), Fail> {
    let mut driver = units_driver(rt.alloc(), 1)?;
    driver.write(17, &[7, 8])?;
    let mut nvm = Nvm::make(driver, Vec::from_array(rt.alloc(), TABLE)?);
    nvm.start()?;
    let is_found = reads(&mut nvm, 2, 0, found(2, 2), &[7, 8, 0xee]);
    holds(&rt, is_found, "the second copy of block 2");
    let is_missing = reads_copy(&mut nvm, 2, 1, Got::Missing);
    holds(&rt, is_missing, "its first copy");
    nvm.write(1, 0, &[1])?;
    nvm.write(3, 1, &[3, 3, 3])?;
    let is_found = reads(&mut nvm, 1, 0, found(1, 1), &[1, 0xee]);
    holds(&rt, is_found, "block 1");
    let is_missing = reads(&mut nvm, 3, 0, Got::Missing, &[0xee]);
    holds(&rt, is_missing, "the first of block 3");
    let is_found = reads(&mut nvm, 3, 1, found(3, 1), &[3, 3, 3, 0xee]);
    holds(&rt, is_found, "the second of block 3");
    Ok(())
}

#[test]
fn copies_outlive_the_power(rt: HostRuntime) -> Result<(), Fail> {
    let driver = units_driver(rt.alloc(), 1)?;
    let mut nvm = Nvm::make(driver, Vec::from_array(rt.alloc(), TABLE)?);
    nvm.start()?;
    assert!(rt; !nvm.spent() && (nvm.boots_left(), nvm.armed()) == (1, 0));
    nvm.power_up();
    nvm.write(2, 0, &[9])?;
    let is_found = reads_copy(&mut nvm, 2, 2, found(1, 2));
    holds(&rt, is_found, "the second copy of block 2");
    nvm.invalidate(2, 0)?;
    let is_invalid = reads(&mut nvm, 2, 0, Got::Invalid, &[0xee]);
    holds(&rt, is_invalid, "block 2");
    holds(&rt, nvm.retire().boots_left() == 0, "no boot is left");
    Ok(())
}
