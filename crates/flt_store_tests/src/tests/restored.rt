//! What is restored of an image, over the driver of an EEPROM.
ghost use Rattle.std.specs.Prelude.{◌≡◌, IfOk};
ghost use Rattle.flt_ea.specs.Ea.{ea_state};
ghost use Rattle.flt_ea.specs.Memory.{eeprom_state as device_state};
ghost use Rattle.flt_store_model.specs.Layout.{numbers};

use super::*;
use flt_flash::BlockFault;
use flt_restore::{Restored, restore};

static MARK: [u8; 8] = [1, 1, 2, 0, 0, 1, 0, 0];

/// Generation 7: the summary at index 0, the only entry at index 1.
static COMMIT: [u8; 26] = [
    1, 0, 0, 0, 7, 0, 0xFF, 0xFF, 0xFF, 0xFF, 1, 0xFF, 0xFF, 0xFF, 0xFF, 0xFF, 0xFF, 0xFF, 0xFF,
    0xFF, 0xFF, 0xFF, 0xFF, 0xFF, 0xFF, 0xFF,
];

/// No entry, and an overflow.
static SUMMARY: [u8; 32] = [
    1, 1, 0, 0, 0xFF, 0xFF, 0xFF, 0xFF, 0xFF, 0xFF, 0xFF, 0xFF, 0, 0, 0, 0, 0, 0, 0, 0, 0, 0, 0, 0,
    0, 0, 0, 0, 0, 0, 0, 0,
];

static NO_ENTRY: [u8; 68] = [
    0xFF, 0xFF, 0, 0, 0, 0, 0, 0, 0, 0, 0, 0, 0, 0, 0, 0, 0, 0, 0, 0, 0, 0, 0, 0, 0, 0, 0, 0, 0, 0,
    0, 0, 0, 0, 0, 0, 0, 0, 0, 0, 0, 0, 0, 0, 0, 0, 0, 0, 0, 0, 0, 0, 0, 0, 0, 0, 0, 0, 0, 0, 0, 0,
    0, 0, 0, 0, 0, 0,
];

/// No event, one entry, one application block.
fn config() -> Config {
    Config {
        id: 0x0102,
        memory: 1,
        pages: 64,
        blocks: 1,
        events: ArrayVec::new(),
    }
}

fn restored(
    alloc: Global,
    driver: Ea<EepromMem>,
    config: &ValidConfig,
    out: &mut Persist,
) -> Result<Result<Restored, StartFault>, Fail>
    requires { (ea_state device_state driver).numbers ≡ numbers }
{
    laws::numbers_serve_table();
    let mut nvm = Nvm::make(driver, block_table(alloc)?);
    nvm.start()?;
    Ok(restore(&mut nvm, config, out))
}

/// The configuration, which is valid.
fn valid(rt: &impl Abort) -> ValidConfig {
    check(config()).expect(rt, "the configuration is valid")
}

/// Whether the image holds the first generation, and its mark is due.
fn is_blank(found: &Result<Restored, StartFault>) -> bool {
    match found {
        Ok(
            Restored {
                commit: None,
                is_mark_due,
            },
        ) => *is_mark_due,
        _ => false,
    }
}

#[test]
fn a_blank_image_holds_the_first_generation(rt: HostRuntime) -> Result<(), Fail> {
    let config = valid(&rt);
    let mut out = initial(&config);
    let driver = units_driver(rt.alloc(), 0)?;
    let found = restored(rt.alloc(), driver, &config, &mut out)?;
    let is_first = is_blank(&found) && out == initial(&config);
    holds(&rt, is_first, "the first generation");
    Ok(())
}

/// Writes these blocks.
fn write_all(driver: &mut Ea<EepromMem>) -> Result<(), BlockFault>
    requires { (ea_state device_state driver.old).numbers ≡ numbers }
    ensures { (ea_state device_state driver.new).numbers ≡ numbers }
{
    driver.write(8, &MARK)?;
    driver.write(17, &COMMIT)?;
    driver.write(24, &SUMMARY)?;
    driver.write(65, &NO_ENTRY)
}

/// The blocks of generation 7, under a mark of version 1. The first copy of the commit is missing.
fn saved(alloc: Global) -> Result<Ea<EepromMem>, Fail>
    ensures { IfOk result (λ driver. (ea_state device_state driver).numbers ≡ numbers) }
{
    let mut driver = units_driver(alloc, 0)?;
    write_all(&mut driver)?;
    Ok(driver)
}

/// Whether the commit was read from its second copy, and a mark is due.
fn is_by_second_copy(found: &Result<Restored, StartFault>) -> bool {
    match found {
        Ok(
            Restored {
                commit: Some(read),
                is_mark_due: true,
            },
        ) => { read.commit.generation == 7 && read.copy == 2 && &read.bytes[..] == &COMMIT[..] }
        _ => false,
    }
}

#[test]
fn an_image_is_restored_by_its_second_copy(rt: HostRuntime) -> Result<(), Fail> {
    let config = valid(&rt);
    let mut out = initial(&config);
    let found = restored(rt.alloc(), saved(rt.alloc())?, &config, &mut out)?;
    holds(&rt, is_by_second_copy(&found), "the second copy");
    let is_restored = out.overflow && out.entries.is_empty();
    holds(&rt, is_restored, "the state");
    Ok(())
}

/// Whether a block is reported as damaged.
fn is_damaged(found: &Result<Restored, StartFault>, id: u16) -> bool {
    match found {
        Err(fault) => *fault == StartFault::Damaged(Place::Block { id }),
        Ok(_) => false,
    }
}

#[test]
fn a_long_application_block_is_damage(rt: HostRuntime) -> Result<(), Fail> {
    let config = valid(&rt);
    let mut out = initial(&config);
    let mut driver = units_driver(rt.alloc(), 0)?;
    driver.write(520, &[0; 33])?;
    let found = restored(rt.alloc(), driver, &config, &mut out)?;
    holds(&rt, is_damaged(&found, 65), "the damage");
    Ok(())
}
