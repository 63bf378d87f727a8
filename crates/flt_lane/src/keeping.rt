//! What the lanes of a life have beside their locks: a store, or none.
ghost use Rattle.std.specs.Prelude.{◌≤◌, All, map};
ghost use Rattle.std.specs.Thread.{IsSync};
ghost use Rattle.flt_life_model.specs.Actions.{IsPossible, action_of, arm_count};
ghost use Rattle.flt_step.specs.Step.{store_lanes};
ghost use Rattle.flt_turn.specs.Seats as turn;
ghost use Rattle.flt_lane.specs.Keeping.{AreAllowed, CarriesLanes, Keeping, KeepingLaws, TakesStepWith};
ghost use Rattle.flt_lane.specs.Kept.{store_keeping};
ghost use Rattle.flt_lane.specs.KeptLaws.{store_laws};
ghost use Rattle.flt_lane.specs.Stepped.{HasRoomForAnswer, HaveCallsOf};
ghost use Rattle.flt_lane.specs.Stored.{HaveRun};
ghost use Rattle.flt_lane.specs.Views.{IsOfLock, LaneWork, known_by};
ghost use Rattle.flt_lane.specs.Work.{AreReady, AreSeatsOf, HasConfig, IsPrepared};

use crate::gate::{Gate, SharedGate};
use crate::lane::{LaneOf, LaneWork};
use crate::locks::{Common, Seats, SeatsOf, StatusLock};
use crate::step::do_step;
use arrayvec::ArrayVec;
use flt_flash::Blocks;
use flt_life_model::LaneReplies;
use flt_model::RESPONSE;
use flt_shared::DemLock;
use flt_step::Step;
use flt_store::Store;
use flt_turn::Seat;
use std::marker::Sync;
use std::sync::Wait;
use std::thread::Threads;

/// What lane 0 of a life has to itself beside its seats, and lends to one lane of a block: a store, or none.
pub trait LifeStore<L: StatusLock, G: Gate> {
    // What is asked of it before steps, and what they leave of it.
    ghost keeping: { Keeping Self };

    /// Makes a step on seats that have its calls left, and keeps its answer. The bytes of a response are written in place of what
    /// `response` holds.
    fn make_step<R: Wait>(
        &mut self,
        common: &Common<'_, R, G, L>,
        seats: &mut SeatsOf<Seat<L::Machine>>,
        step: &Step,
        replies: &mut LaneReplies,
        response: &mut ArrayVec<u8, RESPONSE>,
    )
        requires ready { AreReady (known_by L.known common.now.locks.now) common.now.config.now seats.old.dem seats.old.queue }
        requires able { keeping.is_ready common.now.config.now (arm_count (action_of step.now)) self.old }
        requires allowed { keeping.allows step.now }
        requires step { IsPossible common.now.config.now (action_of step.now) }
        requires calls { HaveCallsOf seats.old (action_of step.now) }
        requires room { HasRoomForAnswer replies.old (action_of step.now) }
        ensures takes { TakesStepWith keeping common.now.config.now seats.old seats.new step.now replies.old replies.new self.old self.new }
        ensures lock { IsOfLock (L.known common.now.locks.now.dem) seats.new.dem }
        ensures queue { turn.IsSeatOf common.now.locks.now.queue.turn seats.new.queue };

    /// Makes the steps of each lane of a block, all lanes at once, each step between the two calls of the gate.
    fn run_lanes<R: Threads + Wait + Sync>(
        &mut self,
        common: &Common<'_, R, G, L>,
        lanes: &mut [LaneOf<'_, Seat<L::Machine>>],
    )
        requires sync { IsSync R.row }
        requires ready { All (IsPrepared (known_by L.known common.now.locks.now)) lanes.old }
        requires one_stores { store_lanes (map (λ (lane : LaneWork). lane.steps.now) lanes.old) ≤ 1 }
        requires allowed { All (λ lane. AreAllowed keeping lane.steps.now) lanes.old }
        requires config { All (λ lane. HasConfig common.now.config.now lane.seats.dem) lanes.old }
        requires able { keeping.is_ready common.now.config.now 0 self.old }
        ensures ran { HaveRun lanes.old lanes.new }
        ensures carries { CarriesLanes keeping common.now.config.now lanes.old lanes.new self.old self.new }
        ensures seats { All (AreSeatsOf (known_by L.known common.now.locks.now)) lanes.new };

    // What holds of it from one step to the next.
    ghost laws: { KeepingLaws keeping };
}

impl<G: SharedGate, B: Blocks + Drop> LifeStore<DemLock, G> for Store<B> {
    ghost keeping = { store_keeping };

    ghost laws = { store_laws };

    #[inline(always)]
    fn make_step<R: Wait>(
        &mut self,
        common: &Common<'_, R, G, DemLock>,
        seats: &mut Seats,
        step: &Step,
        replies: &mut LaneReplies,
        response: &mut ArrayVec<u8, RESPONSE>,
    ) {
        do_step(common, self, seats, step, replies, response);
    }

    fn run_lanes<R: Threads + Wait + Sync>(
        &mut self,
        common: &Common<'_, R, G, DemLock>,
        lanes: &mut [LaneWork<'_>],
    ) {
        let Common {
            rt,
            locks,
            config,
            gate,
        } = *common;
        gate.run_lanes(rt, locks, self, config, lanes);
    }
}
