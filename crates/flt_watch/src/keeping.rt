//! What a watch has beside its locks: no store.
ghost use Rattle.std.specs.Prelude.{All};
ghost use Rattle.std.specs.Thread.{IsSync};
ghost use Rattle.flt_lane.specs.Keeping.{AreAllowed};
ghost use Rattle.flt_lane.specs.Stored.{HaveRun};
ghost use Rattle.flt_lane.specs.Views.{known_by};
ghost use Rattle.flt_lane.specs.Work.{AreSeatsOf, IsPrepared};
ghost use Rattle.flt_watch.specs.NoStore.{known_watch, no_store, no_store_laws};

use crate::lock::{WatchLock, WatchSeat};
use arrayvec::ArrayVec;
use flt_fork::work_beside;
use flt_lane::{Common, Gate, LaneOf, LifeStore, LocksOf, OpenGate, SeatsOf, make_call};
use flt_life_model::{LaneReplies, action_of};
use flt_model::RESPONSE;
use flt_step::Step;
use std::marker::Sync;
use std::sync::Wait;
use std::thread::Threads;

/// Makes the steps of each lane, all lanes at once: each in a thread of its own where one can be made.
pub fn run_beside<R: Threads + Wait + Sync, G: Gate + Sync>(
    rt: &R,
    locks: &LocksOf<WatchLock>,
    lanes: &mut [LaneOf<'_, WatchSeat>],
    gate: &G,
)
    requires ready { All (IsPrepared (known_by known_watch locks.now)) lanes.old }
    requires allowed { All (λ lane. AreAllowed no_store lane.steps.now) lanes.old }
    ensures ran { HaveRun lanes.old lanes.new }
    ensures seats { All (AreSeatsOf (known_by known_watch locks.now)) lanes.new }
{
    work_beside(rt, locks, gate, lanes);
}

/// A gate that the lanes of a block of a watch may ask at once. What may be shared between threads is known of each type by itself, so each
/// gate runs lanes on its own behalf: by `run_beside(rt, locks, lanes, self)`.
pub trait WatchGate: Gate {
    /// Makes the steps of each lane, all lanes at once, each step between the two calls of this gate.
    fn run_lanes<R: Threads + Wait + Sync>(
        &self,
        rt: &R,
        locks: &LocksOf<WatchLock>,
        lanes: &mut [LaneOf<'_, WatchSeat>],
    )
        requires sync { IsSync R.row }
        requires ready { All (IsPrepared (known_by known_watch locks.now)) lanes.old }
        requires allowed { All (λ lane. AreAllowed no_store lane.steps.now) lanes.old }
        ensures ran { HaveRun lanes.old lanes.new }
        ensures seats { All (AreSeatsOf (known_by known_watch locks.now)) lanes.new };
}

impl WatchGate for OpenGate {
    fn run_lanes<R: Threads + Wait + Sync>(
        &self,
        rt: &R,
        locks: &LocksOf<WatchLock>,
        lanes: &mut [LaneOf<'_, WatchSeat>],
    ) {
        run_beside(rt, locks, lanes, self);
    }
}

/// No store: each step makes a call of what is under a lock, and nothing else.
#[derive(Drop)]
pub struct NoStore;

impl<G: WatchGate> LifeStore<WatchLock, G> for NoStore {
    ghost keeping = { no_store };

    ghost laws = { no_store_laws };

    #[inline(always)]
    fn make_step<R: Wait>(
        &mut self,
        common: &Common<'_, R, G, WatchLock>,
        seats: &mut SeatsOf<WatchSeat>,
        step: &Step,
        replies: &mut LaneReplies,
        response: &mut ArrayVec<u8, RESPONSE>,
    ) {
        make_call(
            common.rt,
            common.locks,
            seats,
            action_of(step),
            replies,
            response,
        );
    }

    fn run_lanes<R: Threads + Wait + Sync>(
        &mut self,
        common: &Common<'_, R, G, WatchLock>,
        lanes: &mut [LaneOf<'_, WatchSeat>],
    ) {
        common.gate.run_lanes(common.rt, common.locks, lanes);
    }
}
