//! Where a lane may be held.
ghost use Rattle.std.specs.Prelude.{◌≡◌, ◌≤◌, All, map};
ghost use Rattle.std.specs.Thread.{IsSync};
ghost use Rattle.flt_step.specs.Step.{store_lanes};
ghost use Rattle.flt_store.specs.Store.{IsAlive, driver_of};
ghost use Rattle.flt_lane.specs.Stored.{AreRun};
ghost use Rattle.flt_lane.specs.Work.{AreSeatsOf, HasConfig, IsPrepared};
ghost use Rattle.flt_lane.specs.Views.{LaneWork, known_locks};

use crate::lane::{LaneWork, run_block};
use crate::locks::Locks;
use flt_config::ValidConfig;
use flt_flash::Blocks;
use flt_store::Store;
use std::marker::Sync;
use std::sync::Wait;
use std::thread::Threads;

/// Is asked before each step of a lane and after it, and may hold the lane there. It changes nothing of what a lane does.
pub trait Gate {
    /// Is asked before the step of this number of a lane, counted from 0.
    fn before<R: Wait>(&self, rt: &R, lane: u32, step: u32);

    /// Is asked after it.
    fn after<R: Wait>(&self, rt: &R, lane: u32, step: u32);
}

/// A gate that the lanes of a block may ask at once. What may be shared between threads is known of each type by itself, so each gate
/// runs lanes on its own behalf: by `run_block(rt, locks, store, config, lanes, self)`.
pub trait SharedGate: Gate {
    /// Makes the steps of each lane, all lanes at once, each step between the two calls of this gate.
    fn run_lanes<R: Threads + Wait + Sync, B: Blocks + Drop>(
        &self,
        rt: &R,
        locks: &Locks,
        store: &mut Store<B>,
        config: &ValidConfig,
        lanes: &mut [LaneWork<'_>],
    )
        requires sync { IsSync R.row }
        requires ready { All (IsPrepared (known_locks locks.now)) lanes.old }
        requires one_stores { store_lanes (map (λ (lane : LaneWork). lane.steps.now) lanes.old) ≤ 1 }
        requires config { All (λ lane. HasConfig config.now lane.seats.dem) lanes.old }
        requires alive { IsAlive config.now store.old }
        requires arms { (driver_of store.old).device.bench.armed ≤ 64 }
        ensures ran { AreRun config.now lanes.old lanes.new store.old store.new }
        ensures seats { All (AreSeatsOf (known_locks locks.now)) lanes.new };
}

/// Holds no lane.
#[derive(Clone, Copy)]
pub struct OpenGate;

impl Gate for OpenGate {
    fn before<R: Wait>(&self, _rt: &R, _lane: u32, _step: u32) {}

    fn after<R: Wait>(&self, _rt: &R, _lane: u32, _step: u32) {}
}

impl SharedGate for OpenGate {
    fn run_lanes<R: Threads + Wait + Sync, B: Blocks + Drop>(
        &self,
        rt: &R,
        locks: &Locks,
        store: &mut Store<B>,
        config: &ValidConfig,
        lanes: &mut [LaneWork<'_>],
    ) {
        run_block(rt, locks, store, config, lanes, self);
    }
}
