//! A whole life on two locks, from the state that a start-up restored to the unit for the next one, and such lives over a device.
ghost use Rattle.std.specs.Thread.{IsSync};
ghost use Rattle.flt_flash.specs.Blocks.{device_of};
ghost use Rattle.flt_did.specs.Serves.{Serves};
ghost use Rattle.flt_did.specs.Table.{dids_of};
ghost use Rattle.flt_life_model.specs.Lives.{lists};
ghost use Rattle.flt_lives.specs.Devices.{CanLiveOn, LivesOn};
ghost use Rattle.flt_shared.specs.Boxed.{config_in};

use arrayvec::ArrayVec;
use flt_config::ValidConfig;
use flt_did::{DID_ROWS, DidTable};
use flt_flash::Blocks;
use flt_lane::{Common, LifeAnswers, LocksOf, SeatsOf, SharedGate, live};
use flt_life_model::{Boot, CallRoom, LifeRoom, life_of};
use flt_lives::{Buffers, Driver, Engine, Lived, Run, run_on_device};
use flt_queue::{QueueEnd, QueueLock};
use flt_shared::{BoxedUnit, DemEnd, DemLock};
use flt_step::Part;
use flt_store::Store;
use std::alloc::{AllocError, Global};
use std::marker::Sync;
use std::sync::Wait;
use std::thread::Threads;

/// Makes the steps of lives under a lock, with a runtime for the threads of their lanes and a gate that may hold them.
#[derive(Drop)]
pub(crate) struct LockEngine<'a, R, G> {
    pub(crate) rt: &'a R,
    pub(crate) gate: &'a G,
    pub(crate) unit: BoxedUnit,
}

impl<D: Blocks + Drop, R: Threads + Wait + Sync, G: SharedGate> Engine<D> for LockEngine<'_, R, G> {
    ghost machine_config = { λ engine. config_in engine.unit };

    ghost can_make = { λ parts. IsSync R.row };

    /// Lives on two locks, of the machine and of the queue: lane 0 makes its steps, and the lanes of each block at once. All memory is
    /// taken before the first call.
    fn live(
        self,
        alloc: Global,
        store: &mut Store<D>,
        config: &ValidConfig,
        buffers: &mut Buffers,
        generation: u32,
        parts: &[Part],
        room: LifeRoom<'_>,
    ) -> Result<Lived<Self>, AllocError> {
        let LockEngine { rt, gate, mut unit } = self;
        let LifeRoom {
            own,
            lanes,
            told,
            replies,
        } = room;
        let start = buffers.state.twin();
        unit.boot(&buffers.state);
        let calls = CallRoom::for_parts(parts);
        let Ok((dem, main)) = DemLock::make(alloc, unit, calls.machine) else {
            return Err(AllocError);
        };
        let blocks = config.config().blocks;
        let Ok((queue, jobs)) = QueueLock::make(alloc, blocks, calls.queue) else {
            return Err(AllocError);
        };
        let locks = LocksOf { dem, queue };
        let mut seats = SeatsOf {
            dem: main,
            queue: jobs,
        };
        let mut answers = LifeAnswers {
            own,
            told,
            response: ArrayVec::new(),
        };
        let common = Common {
            rt,
            locks: &locks,
            config,
            gate,
        };
        live(
            alloc,
            &common,
            store,
            &mut seats,
            parts,
            lanes,
            &mut answers,
        )?;
        let LifeAnswers { own, told, .. } = answers;
        let LocksOf { dem, queue } = locks;
        let SeatsOf {
            dem: main,
            queue: jobs,
        } = seats;
        let DemEnd { journal, unit } = dem.close(main);
        let QueueEnd {
            journal: queued,
            ..
        } = queue.close(jobs);
        let boot = Boot::Started { generation, start };
        let life = life_of(boot, journal, queued, own, told, replies);
        Ok(Lived {
            engine: LockEngine { rt, gate, unit },
            life,
        })
    }
}

/// Lives one after the other over a device, up to the first that is refused, on a machine under a lock: the lanes of each block make
/// their steps at once. Each step is made between the two calls of the gate.
pub(crate) fn run_in_lanes<R: Threads + Wait + Sync, G: SharedGate, D: Driver>(
    rt: &R,
    gate: &G,
    alloc: Global,
    device: D::Device,
    config: &ValidConfig,
    dids: DidTable<DID_ROWS>,
    lives: &[Vec<Part>],
) -> Run<D::Device>
    requires served { Serves (dids_of dids) config.now.events.items }
    requires serves { D.serves config.now (D.device_state device) }
    requires ready { CanLiveOn config.now (device_of (D.device_state device)) lives.now }
    ensures { LivesOn (D.medium config.now) config.now (device_of (D.device_state device)) (device_of (D.device_state result.device))
        (lists lives.now) result.lives }
{
    match BoxedUnit::make(alloc, config, dids) {
        Ok(unit) => run_on_device::<D, LockEngine<'_, R, G>>(
            alloc,
            LockEngine { rt, gate, unit },
            device,
            config,
            lives,
        ),
        Err(_) => Run {
            lives: None,
            device,
        },
    }
}
