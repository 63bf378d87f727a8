//! A session: its configuration, and its lives one after the other.
ghost use Rattle.std.specs.Prelude.{◌≡◌, ◌⊎◌, ◌↔◌, ◌<◌, ◌≤◌, ℕ, List, IfErr, IfOk, IsTrue};
ghost use Rattle.std.specs.Io.KnownBytes.{Appends};
ghost use Rattle.flt_did.specs.Serves.{Serves};
ghost use Rattle.flt_did.specs.Table.{dids_of};
ghost use Rattle.flt_io.specs.Fault.{Rose};
ghost use Rattle.flt_io.specs.Status.{status_number};
ghost use Rattle.flt_dcm.specs.Whole.{config_of};
ghost use Rattle.flt_flash.specs.Blocks.{device_of};
ghost use Rattle.flt_store_model.specs.Layout.{numbers};
ghost use Rattle.flt_store.specs.Cause.{HasRoom};
ghost use Rattle.flt_store.specs.Store.{driver_of};
ghost use Rattle.flt_script.specs.Script.{content};
ghost use Rattle.flt_life_model.specs.declared.life.Boot.{Boot};
ghost use Rattle.flt_life_model.specs.Lives.{lists};
ghost use Rattle.flt_life_model.specs.Moment.{IsOn};
ghost use Rattle.flt_life_model.specs.Statuses.{status_by};
ghost use Rattle.flt_live.specs.Heard.{talk};
ghost use Rattle.flt_live.specs.Span.{AreSpans};
ghost use Rattle.flt_live.specs.declared.living.LifeEnd.TheVariants.{Ended};
ghost use Rattle.flt_live.specs.Session.{EndsFor, HasFailed, IsCutBy, IsEndOf, AreIdleLives, IsSession, reading, status_of_shelf};

use crate::ear::Ear;
use crate::living::{LifeEnd, Room, live};
use crate::program::status_told;
use crate::shelf::Shelf;
use flt_config::ValidConfig;
use flt_dcm::Unit;
use flt_dem::Dem;
use flt_did::{DID_ROWS, DidTable};
use flt_fee::Fee;
use flt_file::OpenFault;
use flt_flash::Bench;
use flt_image::{block_table, fee_numbers, laws};
use flt_io::{Sink, Source, Status};
use flt_lives::Driver;
use flt_nvm::Nvm;
use flt_script::{Fetched, Script, fetch, write_script_fault, write_unread};
use flt_step::Part;
use flt_store::Store;
use std::alloc::{AllocError, Global};
use std::sync::Wait;

/// Why a session ended.
#[derive(Drop)]
enum End {
    /// The source failed.
    Unread,
    /// The sink failed.
    Unwritten,
    /// Memory ran out.
    Memory,
    /// The flash was not opened.
    Shelf(OpenFault),
}

/// A store over the device of a life.
fn store_over<D: Driver>(
    alloc: Global,
    device: D::Device,
    config: &ValidConfig,
) -> Result<Store<D>, AllocError>
    requires serves { D.serves config.now (D.device_state device) }
    requires boots { 0 < (D.device_state device).bench.boots_left }
    ensures room { IfOk result (λ store. HasRoom config.now (driver_of store).room) }
    ensures boots { IfOk result (λ store. 0 < (driver_of store).device.bench.boots_left) }
    ensures numbers { IfOk result (λ store. (driver_of store).numbers ≡ numbers) }
    ensures device { IfOk result (λ store. (driver_of store).device ≡ device_of (D.device_state device)) }
    ensures on { IfOk result (λ store. IsOn (D.medium config.now) (driver_of store)) }
{
    let numbers = fee_numbers(alloc)?;
    let blocks = block_table(alloc)?;
    laws::numbers_are_distinct();
    match D::open(alloc, device, config, numbers) {
        Ok(driver) => {
            laws::numbers_serve_table();
            Ok(Store::make(Nvm::make(driver, blocks)))
        }
        Err(_) => Err(AllocError),
    }
}

/// The device of a life that ended, as its store left it.
fn device_of_life<D: Driver>(store: Store<D>, config: &ValidConfig) -> D::Device
    requires numbers { (driver_of store).numbers ≡ numbers }
    requires room { HasRoom config.now (driver_of store).room }
    ensures device { device_of (D.device_state result) ≡ (driver_of store).device }
    ensures on { IsOn (D.medium config.now) (driver_of store) }
{
    store.retire().close()
}

/// Lives one after the other, each over the flash that the shelf gives, until the source ends or a life is refused. It answers the status
/// by how the last life began.
fn live_on<R: Wait, S: Source, K: Sink, B: Bench + Drop, H: Shelf<B>>(
    rt: &R,
    alloc: Global,
    unit: &mut Unit,
    config: &ValidConfig,
    source: &mut S,
    sink: &mut K,
    shelf: &mut H,
) -> Result<Status, End>
    requires same { config_of unit.old ≡ config.now }
    ensures lived { IfOk result (λ status. (boot : Boot) × (status_number status ≡ status_by boot)
        × AreSpans H.tells config.now (talk (S.left source.old) (S.faults source.old) (K.held sink.old) (K.faults sink.old))
        (talk (S.left source.new) (S.faults source.new) (K.held sink.new) (K.faults sink.new)) boot Ended) }
    ensures failed { IfErr result (HasFailed H.tells config.now (talk (S.left source.old) (S.faults source.old) (K.held sink.old) (K.faults sink.old))
        (talk (S.left source.new) (S.faults source.new) (K.held sink.new) (K.faults sink.new))) }
{
    let Ok(mut room) = Room::new(alloc, config) else {
        return Err(End::Memory);
    };
    let Ok(mut ear) = Ear::new(alloc) else {
        return Err(End::Memory);
    };
    let mut number: u32 = 0;
    for _ in rt.forever() {
        number = number.saturating_add(1);
        let flash = match shelf.open(config.config().pages) {
            Ok(flash) => flash,
            Err(fault) => return Err(End::Shelf(fault)),
        };
        let Ok(mut store) = store_over::<Fee<B>>(alloc, flash, config) else {
            return Err(End::Memory);
        };
        let lived = live(
            rt, alloc, number, unit, &mut store, config, &mut room, &mut ear, source, sink,
        );
        match lived.end {
            LifeEnd::Power => shelf.close(device_of_life::<Fee<B>>(store, config)),
            LifeEnd::Ended => return Ok(lived.status),
            LifeEnd::Unread => return Err(End::Unread),
            LifeEnd::Unwritten => return Err(End::Unwritten),
            LifeEnd::Memory => return Err(End::Memory),
        }
    }
    unreachable!()
}

/// The status of a shelf that did not give its flash.
fn status_of_shelf(fault: &OpenFault) -> Status
    ensures { status_number result ≡ status_of_shelf fault.now }
{
    match fault {
        OpenFault::Size { .. } => Status::ImageSize,
        OpenFault::InUse => Status::ImageInUse,
        OpenFault::Memory => Status::OutOfMemory,
        _ => Status::ImageUnopened,
    }
}

/// Pushes why a shelf did not give its flash.
fn tell_shelf<K: Sink>(alloc: Global, fault: &OpenFault, sink: &mut K) -> Status
    ensures status { (status_number result ≡ status_of_shelf fault.now)
        ⊎ ((status_number result ≡ 7) ⊎ ((status_number result ≡ 4) × Rose (K.faults sink.old) (K.faults sink.new))) }
    ensures written { (text : List ℕ) × Appends (K.held sink.old) (K.held sink.new) text }
{
    let Ok(line) = format!(in alloc; "image refused: {fault}\n") else {
        return Status::OutOfMemory;
    };
    match sink.push(line.as_bytes()) {
        Ok(()) => status_of_shelf(fault),
        Err(_) => Status::WriteFault,
    }
}

/// Whether nothing is done in these lives.
fn is_idle(lives: &[Vec<Part>]) -> bool
    ensures { IsTrue result ↔ AreIdleLives (lists lives.now) }
{
    match lives {
        [life] => life.is_empty(),
        _ => false,
    }
}

/// Lives under the configuration of a script that has nothing else.
fn live_by<R: Wait, S: Source, K: Sink, B: Bench + Drop, H: Shelf<B>>(
    rt: &R,
    alloc: Global,
    script: &Script,
    dids: DidTable<DID_ROWS>,
    source: &mut S,
    sink: &mut K,
    shelf: &mut H,
) -> Status
    requires served { Serves (dids_of dids) script.now.config.events.items }
    ensures { let before = talk (S.left source.old) (S.faults source.old) (K.held sink.old) (K.faults sink.old) in
        let after = talk (S.left source.new) (S.faults source.new) (K.held sink.new) (K.faults sink.new) in
        EndsFor (IsEndOf H.tells (content script.now) before after) (IsCutBy H.tells (content script.now) before after) before after (status_number result) }
{
    if !is_idle(&script.lives) {
        return match sink.push(b"script other\n") {
            Ok(()) => Status::Refused,
            Err(_) => Status::WriteFault,
        };
    }
    let mut unit = Unit::make(Dem::make(script.config.twin(), dids));
    match live_on(rt, alloc, &mut unit, &script.config, source, sink, shelf) {
        Ok(status) => status,
        Err(End::Unread) => Status::ReadFault,
        Err(End::Unwritten) => Status::WriteFault,
        Err(End::Memory) => Status::OutOfMemory,
        Err(End::Shelf(fault)) => tell_shelf(alloc, &fault, sink),
    }
}

/// Holds a session: reads the configuration from its source, and then lives under it, one life after the other, each over the flash that
/// the shelf gives. Each line of the source is answered by one line, which is pushed before the next line is read. It answers how the
/// session ended.
pub fn run_session<R: Wait, C: Source, S: Source, K: Sink, B: Bench + Drop, H: Shelf<B>>(
    rt: &R,
    alloc: Global,
    dids: DidTable<DID_ROWS>,
    configuration: &mut C,
    source: &mut S,
    sink: &mut K,
    shelf: &mut H,
) -> Status
    ensures { IsSession H.tells (dids_of dids) (reading (C.left configuration.old) (C.left configuration.new) (C.faults configuration.old) (C.faults configuration.new))
        (talk (S.left source.old) (S.faults source.old) (K.held sink.old) (K.faults sink.old))
        (talk (S.left source.new) (S.faults source.new) (K.held sink.new) (K.faults sink.new)) (status_number result) }
{
    match fetch(alloc, configuration, &dids) {
        Fetched::Script(script) => live_by(rt, alloc, &script, dids, source, sink, shelf),
        Fetched::Refused(fault) => {
            status_told(Status::Refused, write_script_fault(alloc, &fault, sink))
        }
        Fetched::Failed => status_told(Status::ReadFault, write_unread(sink)),
        Fetched::Memory => Status::OutOfMemory,
    }
}
