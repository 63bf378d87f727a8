//! One lane, and the lanes of a block at once.
ghost use Rattle.std.specs.Prelude.{◌≡◌, ◌≤◌, All, IfNone, IfSome, false, map};
ghost use Rattle.flt_step.specs.Step.{store_lanes};
ghost use Rattle.flt_store.specs.Store.{IsAlive, driver_of};
ghost use Rattle.flt_lane.specs.Work.{AreSeatsOf, HasConfig, IsPrepared, HasRun};
ghost use Rattle.flt_lane.specs.Stored.{AreRun, CanStore, HasRunStore, HaveRun, RunsStore, StoresAt, is_store_lane};
ghost use Rattle.flt_lane.specs.Views.{LaneWork, known_by, known_locks};

use crate::gate::Gate;
use crate::locks::{Common, Locks, LocksOf, SeatsOf, StatusLock};
use crate::step::{do_step, make_call};
use arrayvec::ArrayVec;
use flt_config::ValidConfig;
use flt_flash::Blocks;
use flt_fork::{Owned, Work, work_beside, work_first};
use flt_life_model::{LaneReplies, action_of};
use flt_shared::DemSeat;
use flt_step::Step;
use flt_store::Store;
use flt_turn::Seat;
use std::marker::Sync;
use std::sync::Wait;
use std::thread::Threads;

/// The steps of a lane, with the seats on which it makes their calls, and the answers so far.
#[derive(Drop)]
pub struct LaneOf<'a, S> {
    /// The number of the lane, 1 or more.
    pub number: u32,
    /// Its steps, in order.
    pub steps: &'a [Step],
    /// Its seats on the two locks.
    pub seats: SeatsOf<S>,
    /// Has room for an answer to each step.
    pub replies: LaneReplies,
}

/// A lane of a life with a store.
pub type LaneWork<'a> = LaneOf<'a, DemSeat>;

impl<G: Gate, L: StatusLock> Work<LocksOf<L>, G> for LaneOf<'_, Seat<L::Machine>> {
    ghost ready = { λ locks lane. IsPrepared (known_by L.known locks) lane × (is_store_lane lane ≡ false) };

    ghost done = { λ locks before after. HasRun before after × AreSeatsOf (known_by L.known locks) after };

    /// Makes the steps of a lane that does not touch the store in their order, each between the two calls of the gate.
    fn work<R: Wait>(&mut self, rt: &R, locks: &LocksOf<L>, gate: &G) {
        let steps = self.steps;
        let mut response = ArrayVec::new();
        for (index, step) in steps.iter().enumerate() {
            gate.before(rt, self.number, index as u32);
            make_call(
                rt,
                locks,
                &mut self.seats,
                action_of(step),
                &mut self.replies,
                &mut response,
            );
            gate.after(rt, self.number, index as u32);
        }
    }
}

/// Makes the steps of the lane that touches the store, in the same way.
fn run_store_lane<R: Wait, G: Gate, B: Blocks + Drop>(
    rt: &R,
    locks: &Locks,
    gate: &G,
    store: &mut Store<B>,
    config: &ValidConfig,
    lane: &mut LaneWork<'_>,
)
    requires ready { IsPrepared (known_locks locks.now) lane.old }
    requires store { CanStore config.now lane.old store.old }
    ensures ran { HasRunStore config.now lane.old lane.new store.old store.new }
    ensures seats { AreSeatsOf (known_locks locks.now) lane.new }
{
    let common = Common {
        rt,
        locks,
        config,
        gate,
    };
    let steps = lane.steps;
    let mut response = ArrayVec::new();
    for (index, step) in steps.iter().enumerate() {
        gate.before(rt, lane.number, index as u32);
        do_step(
            &common,
            store,
            &mut lane.seats,
            step,
            &mut lane.replies,
            &mut response,
        );
        gate.after(rt, lane.number, index as u32);
    }
}

impl<'a, G: Gate, B: Blocks + Drop> Owned<LaneWork<'a>, Locks, G, ValidConfig> for Store<B> {
    ghost able = { λ locks config store lane. IsPrepared (known_locks locks) lane × CanStore config lane store };

    ghost made = { λ locks config store now before after. HasRunStore config before after store now × AreSeatsOf (known_locks locks) after };

    fn work<R: Wait>(
        &mut self,
        rt: &R,
        locks: &Locks,
        gate: &G,
        config: &ValidConfig,
        lane: &mut LaneWork<'a>,
    ) {
        run_store_lane(rt, locks, gate, self, config, lane);
    }
}

/// Whether a lane touches the store.
fn touches_store(lane: &LaneWork<'_>) -> bool
    ensures { result ≡ is_store_lane lane.now }
{
    lane.steps.iter().any(|step| step.is_store_step())
}

/// The place of the lane that touches the store, of which there is one at most.
fn store_place(lanes: &[LaneWork<'_>]) -> Option<usize>
    requires { store_lanes (map (λ (lane : LaneWork). lane.steps.now) lanes.now) ≤ 1 }
    ensures some { IfSome result (λ place. StoresAt place lanes.now) }
    ensures none { IfNone result (All (λ lane. is_store_lane lane ≡ false) lanes.now) }
{
    for (place, lane) in lanes.iter().enumerate() {
        if touches_store(lane) {
            return Some(place);
        }
    }
    None
}

/// Runs lanes that do not touch the store, all at once.
fn run_others<R: Threads + Wait + Sync, G: Gate + Sync>(
    rt: &R,
    locks: &Locks,
    gate: &G,
    lanes: &mut [LaneWork<'_>],
)
    requires ready { All (IsPrepared (known_locks locks.now)) lanes.old }
    requires no_store { All (λ lane. is_store_lane lane ≡ false) lanes.old }
    ensures ran { HaveRun lanes.old lanes.new }
    ensures seats { All (AreSeatsOf (known_locks locks.now)) lanes.new }
{
    work_beside(rt, locks, gate, lanes);
}

/// Runs the first lane, which touches the store, in this thread, and the others beside it.
fn run_first<R: Threads + Wait + Sync, G: Gate + Sync, B: Blocks + Drop>(
    rt: &R,
    locks: &Locks,
    gate: &G,
    store: &mut Store<B>,
    config: &ValidConfig,
    lanes: &mut [LaneWork<'_>],
)
    requires first { StoresAt 0 lanes.old }
    requires ready { All (IsPrepared (known_locks locks.now)) lanes.old }
    requires config { All (λ lane. HasConfig config.now lane.seats.dem) lanes.old }
    requires alive { IsAlive config.now store.old }
    requires arms { (driver_of store.old).device.bench.armed ≤ 64 }
    ensures ran { RunsStore config.now 0 lanes.old lanes.new store.old store.new }
    ensures seats { All (AreSeatsOf (known_locks locks.now)) lanes.new }
{
    work_first(rt, locks, gate, config, store, lanes);
}

/// Makes the steps of each lane, all lanes at once: each in a thread of its own where one can be made, but that the lane that touches
/// the store runs in this one.
pub fn run_block<R: Threads + Wait + Sync, G: Gate + Sync, B: Blocks + Drop>(
    rt: &R,
    locks: &Locks,
    store: &mut Store<B>,
    config: &ValidConfig,
    lanes: &mut [LaneWork<'_>],
    gate: &G,
)
    requires ready { All (IsPrepared (known_locks locks.now)) lanes.old }
    requires one_stores { store_lanes (map (λ (lane : LaneWork). lane.steps.now) lanes.old) ≤ 1 }
    requires config { All (λ lane. HasConfig config.now lane.seats.dem) lanes.old }
    requires alive { IsAlive config.now store.old }
    requires arms { (driver_of store.old).device.bench.armed ≤ 64 }
    ensures ran { AreRun config.now lanes.old lanes.new store.old store.new }
    ensures seats { All (AreSeatsOf (known_locks locks.now)) lanes.new }
{
    let Some(place) = store_place(lanes) else {
        run_others(rt, locks, gate, lanes);
        return;
    };
    lanes.swap(0, place);
    run_first(rt, locks, gate, store, config, lanes);
    lanes.swap(0, place);
}
