//! A watched life, from the state of a controller that never saved one to its journal.
ghost use Rattle.std.specs.Prelude.{◌≡◌, ◌<◌, ◌≤◌, ◌+◌, ◌^◌, All, IfOk, IsTrue, length, sum_by};
ghost use Rattle.flt_config.specs.Durable.{initial_state};
ghost use Rattle.flt_did.specs.Serves.{Serves};
ghost use Rattle.flt_did.specs.Table.{dids_of};
ghost use Rattle.flt_life_model.specs.declared.life.Boot.TheVariants as boots;
ghost use Rattle.flt_life_model.specs.Parts.{IsPossiblePart, steps_in, widths};
ghost use Rattle.flt_step.specs.Part.{parts_of};
ghost use Rattle.flt_notify.specs.Table.{IsAtZero, kinds_in};
ghost use Rattle.flt_watch.specs.Asked.{are_watched};
ghost use Rattle.flt_watch.specs.Watched.{CanBeWatched, IsWatchedLife};

use crate::keeping::{NoStore, WatchGate};
use crate::lock::{WatchEnd, WatchLock};
use arrayvec::ArrayVec;
use flt_config::{ValidConfig, initial};
use flt_did::{DID_ROWS, DidTable};
use flt_lane::{Common, LifeAnswers, LocksOf, SeatsOf};
use flt_life_model::{Boot, CallRoom, Life, LifeRoom, life_of};
use flt_notify::{KINDS, SubTable};
use flt_queue::{QueueEnd, QueueLock};
use flt_shared::BoxedUnit;
use flt_step::Part;
use std::alloc::{AllocError, Global};
use std::marker::Sync;
use std::sync::Wait;
use std::thread::Threads;

/// A watched life that came to its end, and the subscribers with the values that its changes gave them.
#[derive(Drop)]
pub(crate) struct WatchedLife {
    pub(crate) life: Life,
    pub(crate) subs: SubTable<KINDS>,
}

/// Lives without a store, on a lock over the watched machine and on one over a queue that no step calls: lane 0 makes its steps, and the
/// lanes of each block make theirs at once, each step between the two calls of the gate. The life starts from the state of a controller that
/// never saved one.
pub(crate) fn live<R: Threads + Wait + Sync, G: WatchGate>(
    rt: &R,
    alloc: Global,
    gate: &G,
    config: &ValidConfig,
    parts: &[Part],
    dids: DidTable<DID_ROWS>,
    subs: SubTable<KINDS>,
) -> Result<WatchedLife, AllocError>
    requires served { Serves (dids_of dids) config.now.events.items }
    requires zero { IsAtZero subs }
    requires can { CanBeWatched config.now parts.now }
    ensures boot { IfOk result (λ lived. lived.life.boot ≡ boots.Started 0 (initial_state config.now)) }
    ensures life { IfOk result (λ lived. IsWatchedLife config.now (parts_of parts.now) lived.life lived.subs) }
    ensures kinds { IfOk result (λ lived. kinds_in lived.subs ≡ kinds_in subs) }
{
    let LifeRoom {
        own,
        lanes,
        told,
        replies,
    } = LifeRoom::for_parts(alloc, parts)?;
    let unit = BoxedUnit::make(alloc, config, dids)?;
    let calls = CallRoom::for_parts(parts);
    let (dem, main) = WatchLock::make(alloc, unit, subs, calls.machine)?;
    let Ok((queue, jobs)) = QueueLock::make(alloc, config.config().blocks, calls.queue) else {
        return Err(AllocError);
    };
    let locks = LocksOf { dem, queue };
    let mut seats = SeatsOf {
        dem: main,
        queue: jobs,
    };
    let mut answers = LifeAnswers {
        own,
        told,
        response: ArrayVec::new(),
    };
    let common = Common {
        rt,
        locks: &locks,
        config,
        gate,
    };
    flt_lane::live(
        alloc,
        &common,
        &mut NoStore,
        &mut seats,
        parts,
        lanes,
        &mut answers,
    )?;
    let LifeAnswers { own, told, .. } = answers;
    let WatchEnd { journal, subs } = locks.dem.close(seats.dem);
    let QueueEnd {
        journal: queued,
        ..
    } = locks.queue.close(seats.queue);
    let boot = Boot::Started {
        generation: 0,
        start: initial(config),
    };
    let life = life_of(boot, journal, queued, own, told, replies);
    Ok(WatchedLife { life, subs })
}
