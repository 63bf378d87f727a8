//! Saves and start-ups of a state of a number of events and a full memory.
ghost use Rattle.std.specs.Prelude.{◌≡◌, IfSome};
ghost use Rattle.flt_store.specs.Cause.{HasRoom};
ghost use Rattle.flt_store.specs.Store.{IsAlive, driver_of};

use crate::storage::PAGES;
use arrayvec::ArrayVec;
use flt_config::{Config, EntryState, EventCfg, Frame, Persist, ValidConfig, check, fits, initial};
use flt_flash::Blocks;
use flt_image::{block_table, fee_numbers, laws};
use flt_lives::Driver;
use flt_nvm::Nvm;
use flt_store::Store;
use std::alloc::Global;

/// Which blocks of the state change from save to save.
#[derive(Clone, Copy, PartialEq, Eq)]
enum Changed {
    Nothing,
    One,
    All,
}

/// This many events, room for 16 entries, and no application block.
pub fn config(count: u16) -> Option<ValidConfig> {
    let mut events = ArrayVec::new();
    for number in 0..count {
        if !events.is_full() {
            events.push(EventCfg::new(1 + number as u32));
        }
    }
    check(Config {
        id: 0,
        memory: 16,
        pages: PAGES,
        blocks: 0,
        events,
    })
    .ok()
}

/// A state with an entry of each of the first 16 events.
fn full_state(config: &ValidConfig) -> Persist {
    let mut state = initial(config);
    for event in 0..16 {
        if !state.entries.is_full() {
            state.entries.push(EntryState {
                event,
                occurrence: 1,
                first: Frame::new(),
                recent: Frame::new(),
            });
        }
    }
    state
}

/// Changes the state as asked, the `turn`th time.
fn change(state: &mut Persist, changed: Changed, turn: u16) {
    if changed == Changed::Nothing {
        return;
    }
    let count = 1 + (turn % 255) as u8;
    for event in state.events.iter_mut() {
        event.failed = count;
        if changed == Changed::One {
            return;
        }
    }
    for entry in state.entries.iter_mut() {
        entry.occurrence = count;
    }
    state.overflow = turn % 2 == 0;
}

/// Starts up on a blank device, and saves a state whose every block is new. The state.
fn save_first<B: Blocks + Drop>(store: &mut Store<B>, config: &ValidConfig) -> Option<Persist>
    requires { HasRoom config.now (driver_of store.old).room }
    ensures alive { IfSome result (λ _. IsAlive config.now store.new) }
    ensures room { (driver_of store.new).room ≡ (driver_of store.old).room }
{
    let mut found = initial(config);
    let Ok(_number) = store.start_up(config, &mut found) else {
        return None;
    };
    let state = full_state(config);
    if !fits(config, &state) {
        return None;
    }
    store.save(config, &state).ok()?;
    Some(state)
}

/// Saves the state as often as asked, changed before each save.
fn save_again<B: Blocks + Drop>(
    store: &mut Store<B>,
    config: &ValidConfig,
    changed: Changed,
    times: u16,
) -> Option<()>
    requires { HasRoom config.now (driver_of store.old).room }
{
    let mut state = save_first(store, config)?;
    for turn in 0..times {
        change(&mut state, changed, turn);
        if !fits(config, &state) {
            return None;
        }
        store.save(config, &state).ok()?;
    }
    Some(())
}

/// Starts up again and again on the image of a save.
fn start_again<B: Blocks + Drop>(
    store: &mut Store<B>,
    config: &ValidConfig,
    times: u16,
) -> Option<()>
    requires { HasRoom config.now (driver_of store.old).room }
{
    let mut found = save_first(store, config)?;
    for _turn in 0..times {
        store.start_up(config, &mut found).ok()?;
    }
    Some(())
}

/// Starts up, and no more.
fn start_once<B: Blocks + Drop>(store: &mut Store<B>, config: &ValidConfig) -> Option<()>
    requires { HasRoom config.now (driver_of store.old).room }
{
    store.start_up(config, &mut initial(config)).ok()?;
    Some(())
}

/// Makes the calls that the word names on a store over a blank device.
fn call<B: Blocks + Drop>(
    store: &mut Store<B>,
    config: &ValidConfig,
    what: &str,
    times: u16,
) -> Option<()>
    requires { HasRoom config.now (driver_of store.old).room }
{
    match what {
        "first-start-up" => start_once(store, config),
        "start-ups" => start_again(store, config, times),
        "saves-of-nothing" => save_again(store, config, Changed::Nothing, times),
        "saves-of-one" => save_again(store, config, Changed::One, times),
        "saves-of-all" => save_again(store, config, Changed::All, times),
        _ => None,
    }
}

/// A store over a device.
fn store_over<D: Driver>(alloc: Global, device: D::Device, config: &ValidConfig) -> Option<Store<D>>
    requires { D.serves config.now (D.device_state device) }
    ensures { IfSome result (λ store. HasRoom config.now (driver_of store).room) }
{
    laws::numbers_are_distinct();
    laws::numbers_serve_table();
    let driver = D::open(alloc, device, config, fee_numbers(alloc).ok()?).ok()?;
    Some(Store::make(Nvm::make(driver, block_table(alloc).ok()?)))
}

/// Makes the calls that the word names on a store over a blank device, which comes back: a start-up and no more; or a start-up, a save of a
/// state whose every block is new, and then as often as asked a start-up, or a save of what the word says.
pub fn run_store<D: Driver>(
    alloc: Global,
    device: D::Device,
    config: &ValidConfig,
    what: &str,
    times: u16,
) -> Option<D::Device>
    requires { D.serves config.now (D.device_state device) }
{
    let mut store: Store<D> = store_over(alloc, device, config)?;
    call(&mut store, config, what, times)?;
    Some(store.retire().close())
}
