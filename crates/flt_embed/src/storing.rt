//! The store over a copy of the image that a caller keeps.
ghost use Rattle.std.specs.Prelude.{◌≡◌, ◌+◌, ◌*◌, ◌<◌, ◌≤◌, IfErr, IfOk, OnOk, IfSome, length, replicate};
ghost use Rattle.flt_config.specs.Durable.{Fits};
ghost use Rattle.flt_store_model.specs.Holding.{Generation};
ghost use Rattle.flt_store.specs.Cause.{HasRoom};
ghost use Rattle.flt_store.specs.Store.{driver_of, numbered, IsAlive, IsRunning};
ghost use Rattle.flt_embed.specs.declared.fault.Fault.TheVariants.{Flash};
ghost use Rattle.flt_embed.specs.Carried.{carried};

use crate::diary::Diary;
use crate::fault::Fault;
use crate::operation::{Operation, carry_out};
use flt_config::{Persist, ValidConfig, initial};
use flt_dcm::ReplyKind;
use flt_fee::Fee;
use flt_file::FlashFile;
use flt_flash::Blocks;
use flt_image::{block_table, fee_numbers, laws};
use flt_life_model::StepAnswer;
use flt_lives::{drain, get};
use flt_nvm::Nvm;
use flt_queue::JobQueue;
use flt_store::{SaveFault, StartFault, Store};
use std::alloc::{AllocError, Global};

/// A store over a copy of an image, and another copy on which what it does is carried out.
#[derive(Drop)]
pub(crate) struct Mounted {
    pub(crate) store: Store<Fee<FlashFile<Diary>>>,
    pub(crate) image: Vec<u8>,
    pub(crate) blank: Vec<u8>,
}

/// The image as a store left it, and what is to be done to the one before.
#[derive(Drop)]
pub(crate) struct Settled {
    pub(crate) image: Vec<u8>,
    pub(crate) operations: Vec<Operation>,
}

/// A copy of these bytes.
pub(crate) fn copy_of(alloc: Global, bytes: &[u8]) -> Result<Vec<u8>, AllocError>
    ensures { IfOk result (λ copy. copy.items ≡ bytes.now) }
{
    let mut copy = Vec::with_capacity(alloc, bytes.len())?;
    copy.extend_from_slice(bytes)?;
    Ok(copy)
}

/// A store over a copy of the image, off yet.
pub(crate) fn mount(
    alloc: Global,
    config: &ValidConfig,
    image: &[u8],
) -> Result<Mounted, AllocError>
    requires size { length image.now ≡ 64 * config.now.pages }
    ensures room { IfOk result (λ mounted. HasRoom config.now (driver_of mounted.store).room) }
    ensures boots { IfOk result (λ mounted. 0 < (driver_of mounted.store).device.bench.boots_left) }
    ensures image { IfOk result (λ mounted. mounted.image.items ≡ image.now) }
    ensures blank { IfOk result (λ mounted. mounted.blank.items ≡ replicate (32 * config.now.pages) 255) }
{
    let pages = config.config().pages;
    let operations = Vec::with_capacity(alloc, 4 * pages as usize)?;
    let diary = Diary::new(copy_of(alloc, image)?, pages, operations);
    let Ok(flash) = FlashFile::load(alloc, diary, pages) else {
        return Err(AllocError);
    };
    let numbers = fee_numbers(alloc)?;
    let blocks = block_table(alloc)?;
    let image = copy_of(alloc, image)?;
    let blank = Vec::from_elem(alloc, 255u8, 32 * pages as usize)?;
    laws::numbers_are_distinct();
    let Ok(driver) = Fee::make(alloc, flash, pages, numbers) else {
        return Err(AllocError);
    };
    laws::numbers_serve_table();
    Ok(Mounted {
        store: Store::make(Nvm::make(driver, blocks)),
        image,
        blank,
    })
}

/// Makes the power come, and starts the store up.
pub(crate) fn begin<D: Blocks + Drop>(
    store: &mut Store<D>,
    config: &ValidConfig,
    state: &mut Persist,
) -> Result<u32, StartFault>
    requires room { HasRoom config.now (driver_of store.old).room }
    requires boots { 0 < (driver_of store.old).device.bench.boots_left }
    ensures running { IfOk result (λ number. IsRunning config.now (numbered number state.new) (numbered number state.new) store.new) }
    ensures fits { OnOk result (Fits config.now state.new) }
{
    store.power_up();
    store.start_up(config, state)
}

/// A store over a copy of the image that runs.
pub(crate) fn start(alloc: Global, config: &ValidConfig, image: &[u8]) -> Result<Mounted, Fault>
    requires size { length image.now ≡ 64 * config.now.pages }
    ensures alive { IfOk result (λ mounted. (held : Generation) × IsRunning config.now held held mounted.store) }
    ensures image { IfOk result (λ mounted. mounted.image.items ≡ image.now) }
    ensures blank { IfOk result (λ mounted. mounted.blank.items ≡ replicate (32 * config.now.pages) 255) }
{
    let mut state = initial(config);
    let mut mounted = mount(alloc, config, image)?;
    match begin(&mut mounted.store, config, &mut state) {
        Ok(_) => Ok(mounted),
        Err(_) => Err(Fault::Flash),
    }
}

/// The image as the store left it, and what is to be done to the one before. There is none where the two do not agree.
pub(crate) fn settle(mounted: Mounted, pages: u16) -> Option<Settled>
    requires { mounted.blank.items ≡ replicate (32 * pages) 255 }
    ensures operations_give_image { IfSome result (λ settled. settled.image.items ≡ carried pages settled.operations.items mounted.image.items) }
    ensures size { IfSome result (λ settled. length settled.image.items ≡ length mounted.image.items) }
{
    let Mounted {
        store,
        mut image,
        blank,
    } = mounted;
    let (bytes, operations) = store.retire().retire().into_store().into_parts();
    carry_out(&mut image, pages, &blank, &operations);
    if image == bytes {
        Some(Settled { image, operations })
    } else {
        None
    }
}

/// What a start-up came to, and what it left.
#[derive(Drop)]
pub(crate) struct Begun {
    pub(crate) found: Result<u32, StartFault>,
    pub(crate) settled: Settled,
}

/// Starts up over a copy of the image.
pub(crate) fn restart(
    alloc: Global,
    config: &ValidConfig,
    image: &[u8],
    state: &mut Persist,
) -> Result<Begun, Fault>
    requires size { length image.now ≡ 64 * config.now.pages }
    ensures operations_give_image { IfOk result (λ begun. begun.settled.image.items ≡ carried config.now.pages begun.settled.operations.items image.now) }
    ensures size { IfOk result (λ begun. length begun.settled.image.items ≡ 64 * config.now.pages) }
    ensures fits { IfOk result (λ begun. OnOk begun.found (Fits config.now state.new)) }
{
    let mut mounted = mount(alloc, config, image)?;
    let found = begin(&mut mounted.store, config, state);
    let settled = settle(mounted, config.config().pages).ok_or(Fault::Flash)?;
    Ok(Begun { found, settled })
}

/// Saves a state on a store that runs.
pub(crate) fn save_on(
    mounted: Mounted,
    config: &ValidConfig,
    state: &Persist,
) -> Result<(Settled, Result<u32, SaveFault>), Fault>
    requires alive { IsAlive config.now mounted.store }
    requires blank { mounted.blank.items ≡ replicate (32 * config.now.pages) 255 }
    requires fits { Fits config.now state.now }
    ensures next { (held : Generation) → IsRunning config.now held held mounted.store
        → IfOk result (λ saved. IfOk saved.1 (λ number. number ≡ held.number + 1)) }
    ensures operations_give_image { IfOk result (λ saved. saved.0.image.items ≡ carried config.now.pages saved.0.operations.items mounted.image.items) }
    ensures size { IfOk result (λ saved. length saved.0.image.items ≡ length mounted.image.items) }
    ensures flash { IfErr result (λ fault. fault ≡ Flash) }
{
    let mut mounted = mounted;
    let saved = mounted.store.save(config, state);
    let settled = settle(mounted, config.config().pages).ok_or(Fault::Flash)?;
    Ok((settled, saved))
}

/// Reads an application block on a store that runs.
pub(crate) fn get_on(
    mounted: Mounted,
    config: &ValidConfig,
    block: u8,
) -> Result<(Settled, StepAnswer<ReplyKind>), Fault>
    requires block { block < config.now.blocks }
    requires alive { IsAlive config.now mounted.store }
    requires blank { mounted.blank.items ≡ replicate (32 * config.now.pages) 255 }
    ensures operations_give_image { IfOk result (λ got. got.0.image.items ≡ carried config.now.pages got.0.operations.items mounted.image.items) }
    ensures size { IfOk result (λ got. length got.0.image.items ≡ length mounted.image.items) }
    ensures flash { IfErr result (λ fault. fault ≡ Flash) }
{
    let mut mounted = mounted;
    let answer = get(&mut mounted.store, config, block);
    let settled = settle(mounted, config.config().pages).ok_or(Fault::Flash)?;
    Ok((settled, answer))
}

/// Puts bytes into an application block on a store that runs: whether they are there.
pub(crate) fn put_on(
    mounted: Mounted,
    config: &ValidConfig,
    block: u8,
    bytes: &[u8],
) -> Result<(Settled, bool), Fault>
    requires block { block < config.now.blocks }
    requires least { 1 ≤ length bytes.now }
    requires most { length bytes.now ≤ 32 }
    requires alive { IsAlive config.now mounted.store }
    requires blank { mounted.blank.items ≡ replicate (32 * config.now.pages) 255 }
    ensures operations_give_image { IfOk result (λ put. put.0.image.items ≡ carried config.now.pages put.0.operations.items mounted.image.items) }
    ensures size { IfOk result (λ put. length put.0.image.items ≡ length mounted.image.items) }
    ensures flash { IfErr result (λ fault. fault ≡ Flash) }
{
    let mut mounted = mounted;
    let put = mounted.store.put_block(block, bytes).is_ok();
    let settled = settle(mounted, config.config().pages).ok_or(Fault::Flash)?;
    Ok((settled, put))
}

/// Writes the jobs that wait on a store that runs.
pub(crate) fn drain_on(
    mounted: Mounted,
    config: &ValidConfig,
    queue: &mut JobQueue,
) -> Result<(Settled, StepAnswer<ReplyKind>), Fault>
    requires blocks { queue.old.blocks ≡ config.now.blocks }
    requires alive { IsAlive config.now mounted.store }
    requires blank { mounted.blank.items ≡ replicate (32 * config.now.pages) 255 }
    ensures blocks { queue.new.blocks ≡ queue.old.blocks }
    ensures operations_give_image { IfOk result (λ drained. drained.0.image.items ≡ carried config.now.pages drained.0.operations.items mounted.image.items) }
    ensures size { IfOk result (λ drained. length drained.0.image.items ≡ length mounted.image.items) }
    ensures flash { IfErr result (λ fault. fault ≡ Flash) }
{
    let mut mounted = mounted;
    let (written, failed) = drain(queue, &mut mounted.store, config);
    let settled = settle(mounted, config.config().pages).ok_or(Fault::Flash)?;
    Ok((settled, StepAnswer::Drained { written, failed }))
}
