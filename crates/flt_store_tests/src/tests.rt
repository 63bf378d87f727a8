//! The store over a flash in memory, and over an EEPROM in memory: worked examples, changed images, and each operation of a job cut and made to fail; and the layers
//! beneath it: the bytes of blocks, a driver of blocks, blocks by their kind, and what an image holds.
ghost use Rattle.std.specs.Prelude.{◌≡◌, IfOk, IsTrue, None, OnOk};
ghost use Rattle.flt_flash.specs.State.{CanArm};
ghost use Rattle.flt_ea.specs.Ea.{ea_state};
ghost use Rattle.flt_ea.specs.Memory.{eeprom_state as device_state};
ghost use Rattle.flt_config.specs.declared.config.Config.{Config};
ghost use Rattle.flt_nvm.specs.Driver.{driver_of as driver_beneath, table_of};
ghost use Rattle.flt_store_model.specs.Layout.{numbers};
ghost use Rattle.flt_image.specs.Table.{block_table};
ghost use Rattle.flt_store.specs.Cause.{HasRoom};
ghost use Rattle.flt_store.specs.Store.{IsAlive};
ghost use Rattle.flt_store_tests.specs.Room.{IsRoomy, SameRoom};

mod bytes;
mod cuts;
mod driver;
mod images;
mod kinds;
mod restored;
mod rows;
mod steps;
mod stops;
mod worked;

use arrayvec::ArrayVec;
use flt_code::{Word, get_word, put_word, seal, unseal};
use flt_config::{
    Config, EntryState, EventCfg, EventState, Frame, Persist, ValidConfig, check, fits, initial,
};
use flt_ea::{Ea, Eeprom, EepromMem};
use flt_fee::Fee;
use flt_flash::{Arm, BLANK_PAGE, Bench, Blocks, Flash, FlashFailed, FlashMem, Pattern};
use flt_image::{block_table, fee_numbers, laws};
use flt_nvm::{Got, Nvm};
use flt_store::{Mark, Place, PutFault, SaveFault, StartFault, Store};
use flt_store_model::COMMIT_ID;
use std::alloc::{AllocError, Global};
use std::process::Abort;
use std::test::Fail;

/// The pages of each sector.
const PAGES: u16 = 64;

/// The units of an EEPROM.
const UNITS: u16 = 1090;

/// The status of an event that was never tested.
const NOT_TESTED: u8 = 0x50;

/// The status of an event that failed in this cycle, and of one that passed after that.
const FAILED: u8 = 0x2F;

const PASSED: u8 = 0x2E;

/// Stops the test unless this is so.
fn holds(rt: &impl Abort, is_so: bool, what: &str) {
    assert!(rt; is_so, "{what}");
}

/// Stops the test unless this is so of the case of this number.
fn holds_at(rt: &impl Abort, is_so: bool, what: &str, number: usize) {
    assert!(rt; is_so, "{what} {number}");
}

/// A configuration of this many entries, application blocks and events.
fn configured(rt: &impl Abort, memory: u8, blocks: u8, count: u8) -> ValidConfig {
    let mut events = ArrayVec::new();
    for number in 0..count {
        if !events.is_full() {
            events.push(EventCfg::new(1 + number as u32));
        }
    }
    check(Config {
        id: 0,
        memory,
        pages: PAGES,
        blocks,
        events,
    })
    .expect(rt, "the configuration is valid")
}

/// A state of events of these statuses, those that were tested having failed in one cycle, and of entries of the first events,
/// which occurred so often.
fn state(statuses: &[u8], occurrences: &[u8]) -> Persist {
    let mut events = ArrayVec::new();
    for status in statuses {
        if !events.is_full() {
            events.push(EventState {
                status: *status,
                failed: u8::from(*status != NOT_TESTED),
                clean: 0,
                lit: false,
            });
        }
    }
    let mut entries = ArrayVec::new();
    let mut last = None;
    for (event, occurrence) in (0..16).zip(occurrences) {
        last = Some(event);
        if !entries.is_full() {
            entries.push(EntryState {
                event,
                occurrence: *occurrence,
                first: Frame::new(),
                recent: Frame::new(),
            });
        }
    }
    let first = if occurrences.is_empty() {
        None
    } else {
        Some(0)
    };
    Persist {
        events,
        entries,
        overflow: false,
        first_failed: first,
        first_confirmed: first,
        recent_failed: last,
        recent_confirmed: last,
    }
}

/// The state of one event that failed.
fn failed() -> Persist {
    state(&[FAILED], &[1])
}

/// Blocks by identifier over a flash whose sectors have the configuration's pages.
fn blocks_over<F: Bench + Drop>(
    alloc: Global,
    flash: F,
    config: &ValidConfig,
) -> Result<Nvm<Fee<F>>, Fail>
    ensures numbers { IfOk result (λ nvm. (driver_beneath nvm).numbers ≡ numbers) }
    ensures table { IfOk result (λ nvm. table_of nvm ≡ block_table) }
    ensures room { IfOk result (λ nvm. HasRoom config.now (driver_beneath nvm).room) }
{
    let used = config.config().pages;
    if used > flash.pages() {
        return Err(Fail::from("the flash is too small"));
    }
    laws::numbers_are_distinct();
    laws::numbers_serve_table();
    match Fee::make(alloc, flash, used, fee_numbers(alloc)?) {
        Ok(fee) => Ok(Nvm::make(fee, block_table(alloc)?)),
        Err(_) => Err(Fail::from("no memory")),
    }
}

/// A store over such a flash.
fn store_over<F: Bench + Drop>(
    alloc: Global,
    flash: F,
    config: &ValidConfig,
) -> Result<Store<Fee<F>>, Fail>
    ensures { IfOk result (λ store. IsRoomy config.now store) }
{
    Ok(Store::make(blocks_over(alloc, flash, config)?))
}

/// A store over a blank flash whose power may come back twice.
fn blank_store(alloc: Global, config: &ValidConfig) -> Result<Store<Fee<FlashMem>>, Fail>
    ensures { IfOk result (λ store. IsRoomy config.now store) }
{
    let flash = FlashMem::blank(alloc, PAGES, 2)?;
    store_over(alloc, flash, config)
}

/// A driver of the blocks of an image over an EEPROM.
fn units_over<E: Eeprom + Drop>(alloc: Global, device: E) -> Result<Ea<E>, Fail>
    ensures { IfOk result (λ driver. ((ea_state E.state driver).numbers ≡ numbers) × ((ea_state E.state driver).room ≡ None)) }
{
    if device.units() < UNITS {
        return Err(Fail::from("the EEPROM is too small"));
    }
    laws::numbers_are_distinct();
    match Ea::make(alloc, device, fee_numbers(alloc)?) {
        Ok(ea) => Ok(ea),
        Err(_) => Err(Fail::from("no memory")),
    }
}

/// A driver over a blank EEPROM whose power may come back so often.
fn units_driver(alloc: Global, boots: u16) -> Result<Ea<EepromMem>, Fail>
    ensures { IfOk result (λ driver. ((ea_state device_state driver).numbers ≡ numbers) × ((ea_state device_state driver).room ≡ None)) }
{
    units_over(alloc, EepromMem::blank(alloc, UNITS, boots)?)
}

/// A store over such a driver.
fn store_of_units<E: Eeprom + Drop>(alloc: Global, driver: Ea<E>) -> Result<Store<Ea<E>>, Fail>
    requires numbers { (ea_state E.state driver).numbers ≡ numbers }
    requires room { (ea_state E.state driver).room ≡ None }
    ensures { (c : Config) → IfOk result (λ store. IsRoomy c store) }
{
    laws::numbers_serve_table();
    Ok(Store::make(Nvm::make(driver, block_table(alloc)?)))
}

/// A store over a blank EEPROM whose power may come back twice.
fn units_store(alloc: Global) -> Result<Store<Ea<EepromMem>>, Fail>
    ensures { (c : Config) → IfOk result (λ store. IsRoomy c store) }
{
    store_of_units(alloc, units_driver(alloc, 2)?)
}

/// Starts up: the number of the generation and its state.
fn start<B: Blocks + Drop>(
    store: &mut Store<B>,
    config: &ValidConfig,
) -> Result<(u32, Persist), StartFault>
    requires { IsRoomy config.now store.old }
    ensures alive { OnOk result (IsAlive config.now store.new) }
    ensures room { SameRoom store.old store.new }
{
    let mut out = initial(config);
    let number = store.start_up(config, &mut out)?;
    Ok((number, out))
}

/// Saves a state that fits.
fn save<B: Blocks + Drop>(
    rt: &impl Abort,
    store: &mut Store<B>,
    config: &ValidConfig,
    state: &Persist,
) -> Result<u32, SaveFault>
    requires { IsAlive config.now store.old }
    ensures alive { IsAlive config.now store.new }
    ensures room { SameRoom store.old store.new }
{
    assert!(rt; fits(config, state));
    store.save(config, state)
}

/// Puts a byte into block 0.
fn put<B: Blocks + Drop>(
    rt: &impl Abort,
    store: &mut Store<B>,
    config: &ValidConfig,
    byte: u8,
) -> Result<(), PutFault>
    requires { IsAlive config.now store.old }
    ensures alive { IsAlive config.now store.new }
    ensures room { SameRoom store.old store.new }
{
    assert!(rt; config.config().blocks > 0);
    store.put_block(0, &[byte])
}

/// The byte of block 0, where it was put.
fn get<B: Blocks + Drop>(
    rt: &impl Abort,
    store: &mut Store<B>,
    config: &ValidConfig,
) -> Result<Option<u8>, FlashFailed>
    requires { IsAlive config.now store.old }
    ensures { IsAlive config.now store.new }
{
    assert!(rt; config.config().blocks > 0);
    let mut out = ArrayVec::new();
    let found = store.get_block(0, &mut out)?;
    holds(rt, found == (out.len() == 1), "the length of block 0");
    Ok(out.first().copied())
}

/// Turns the power on again.
fn power_up<B: Blocks + Drop>(store: &mut Store<B>)
    ensures { SameRoom store.old store.new }
{
    if store.boots_left() > 0 {
        store.power_up();
    }
}

/// Whether an arm is of an operation to come.
fn can_arm(arm: Arm) -> bool
    ensures { IsTrue result → CanArm arm }
{
    match arm {
        Arm::Cut { after, .. } => after > 0,
        Arm::Fault { after, .. } => after > 0,
        Arm::Mute { .. } => true,
    }
}

/// Makes an arm.
fn arm<B: Blocks + Drop>(rt: &impl Abort, store: &mut Store<B>, arm: Arm)
    ensures alive { (c : Config) → IsAlive c store.old → IsAlive c store.new }
    ensures room { SameRoom store.old store.new }
{
    assert!(rt; can_arm(arm) && store.armed() < 64);
    store.arm(arm);
}
