//! One step of a lane: what it does, and the answer that is kept.
ghost use Rattle.std.specs.Prelude.{◌≡◌, ◌+◌, ◌<◌, ◌≤◌};
ghost use Rattle.flt_config.specs.declared.config.Config.{Config};
ghost use Rattle.flt_flash.specs.State.{CanArm};
ghost use Rattle.flt_life_model.specs.Actions.{IsPossible, action_of, arm_count};
ghost use Rattle.flt_life_model.specs.declared.action.Action.TheVariants as action;
ghost use Rattle.flt_step.specs.declared.step.Step.{Step as StepView};
ghost use Rattle.flt_step.specs.declared.step.Step.TheVariants as steps;
ghost use Rattle.flt_shared.specs.Call.{Seat as DemView};
ghost use Rattle.flt_store.specs.Store.{IsAlive, driver_of};
ghost use Rattle.flt_turn.specs.Seats as turn;
ghost use Rattle.flt_lane.specs.Runs.{QueueSeat as Jobs};
ghost use Rattle.flt_lane.specs.Stepped.{HasRoomForAnswer, HaveCallsOf, IsLockCall, MakesStep, TakesStep};
ghost use Rattle.flt_lane.specs.Views.{IsOfLock, known_by, known_dem, known_locks};
ghost use Rattle.flt_lane.specs.Work.{AreOfLocks, AreReady, CanSave};

use crate::drain::drain;
use crate::gate::Gate;
use crate::locks::{Common, LocksOf, Seats, SeatsOf, StatusLock};
use arrayvec::ArrayVec;
use flt_config::ValidConfig;
use flt_flash::{Arm, Blocks};
use flt_life_model::{Action, LaneReplies, StepAnswer, action_of};
use flt_model::RESPONSE;
use flt_shared::{DemLock, DemSeat, no_state};
use flt_step::Step;
use flt_store::Store;
use flt_turn::Seat;
use std::sync::Wait;

/// Makes a call on seats that have it left, and keeps its answer. The bytes of a response are written in place of what `response` holds.
/// It is all that a lane without the store does.
#[inline(always)]
pub fn make_call<R: Wait, L: StatusLock>(
    rt: &R,
    locks: &LocksOf<L>,
    seats: &mut SeatsOf<Seat<L::Machine>>,
    call: Action,
    replies: &mut LaneReplies,
    response: &mut ArrayVec<u8, RESPONSE>,
)
    requires seats { AreOfLocks (known_by L.known locks.now) seats.old }
    requires call { IsLockCall call }
    requires possible { IsPossible seats.old.dem.start.config call }
    requires calls { HaveCallsOf seats.old call }
    requires room { HasRoomForAnswer replies.old call }
    ensures made { (step : StepView) → action_of step ≡ call
        → MakesStep seats.old.dem seats.new.dem seats.old.queue seats.new.queue step replies.old replies.new }
    ensures lock { IsOfLock (L.known locks.now.dem) seats.new.dem }
    ensures queue { turn.IsSeatOf locks.now.queue.turn seats.new.queue }
{
    match call {
        Action::Call(op) => {
            let Ok(told) = locks.dem.call_into(rt, &mut seats.dem, op, response) else {
                unreachable!()
            };
            // A witness for the checker: the bytes are at most those of a response.
            let witness = response.len();
            prove!(witness <= RESPONSE);
            replies.keep(StepAnswer::Dem(told), response.as_slice());
        }
        Action::Queue(op) => {
            let Ok(told) = locks.queue.call(rt, &mut seats.queue, op) else {
                unreachable!()
            };
            replies.keep(StepAnswer::Queue(told), &[]);
        }
        Action::Save | Action::Drain | Action::Get(_) | Action::Arm(_) => unreachable!(),
    }
}

/// Saves the durable state, and keeps the answer: the lock is held for the snapshot, and again for the note of its number, but not
/// while it is written.
fn save<R: Wait, B: Blocks + Drop>(
    rt: &R,
    dem: &DemLock,
    store: &mut Store<B>,
    config: &ValidConfig,
    seat: &mut DemSeat,
    replies: &mut LaneReplies,
)
    requires ready { CanSave (known_dem dem.now) config.now seat.old }
    requires alive { IsAlive config.now store.old }
    requires calls { 2 ≤ seat.old.left }
    requires room { HasRoomForAnswer replies.old action.Save }
    ensures takes { (jobs : Jobs) → TakesStep config.now seat.old seat.new jobs jobs steps.Save replies.old replies.new store.old store.new }
    ensures lock { IsOfLock (known_dem dem.now) seat.new }
{
    let mut state = no_state();
    let Ok(_taken) = dem.snapshot_into(rt, seat, &mut state) else {
        unreachable!()
    };
    match store.save(config, &state) {
        Ok(generation) => {
            let Ok(_noted) = dem.saved(rt, seat, generation) else {
                unreachable!()
            };
            replies.keep(StepAnswer::Saved(generation), &[]);
        }
        Err(fault) => replies.keep(StepAnswer::SaveFailed(fault), &[]),
    }
}

/// Reads an application block, and keeps what it holds.
fn get<B: Blocks + Drop>(store: &mut Store<B>, block: u8, replies: &mut LaneReplies)
    requires alive { (c : Config) × (block < c.blocks) × IsAlive c store.old }
    requires room { HasRoomForAnswer replies.old (action.Get block) }
    ensures takes { (c : Config) (seat : DemView) (jobs : Jobs)
        → TakesStep c seat seat jobs jobs (steps.Get block) replies.old replies.new store.old store.new }
{
    let mut bytes = ArrayVec::new();
    match store.get_block(block, &mut bytes) {
        Ok(true) => replies.keep(StepAnswer::Bytes(bytes), &[]),
        Ok(false) => replies.keep(StepAnswer::NoBlock, &[]),
        Err(_) => replies.keep(StepAnswer::BlockFlash, &[]),
    }
}

/// Makes an arm on the bench, and keeps that it is made.
fn make_arm<B: Blocks + Drop>(store: &mut Store<B>, arm: Arm, replies: &mut LaneReplies)
    requires arm { CanArm arm }
    requires arms { (driver_of store.old).device.bench.armed < 64 }
    requires room { HasRoomForAnswer replies.old (action.Arm arm) }
    ensures takes { (c : Config) (seat : DemView) (jobs : Jobs)
        → TakesStep c seat seat jobs jobs (steps.Arming arm) replies.old replies.new store.old store.new }
{
    store.arm(arm);
    replies.keep(StepAnswer::Armed, &[]);
}

/// Makes a step of a lane that has the store, on seats that have its calls left, and keeps its answer.
#[inline(always)]
pub(crate) fn do_step<R: Wait, G: Gate, B: Blocks + Drop>(
    common: &Common<'_, R, G, DemLock>,
    store: &mut Store<B>,
    seats: &mut Seats,
    step: &Step,
    replies: &mut LaneReplies,
    response: &mut ArrayVec<u8, RESPONSE>,
)
    requires ready { AreReady (known_locks common.now.locks.now) common.now.config.now seats.old.dem seats.old.queue }
    requires alive { IsAlive common.now.config.now store.old }
    requires step { IsPossible common.now.config.now (action_of step.now) }
    requires arms { (driver_of store.old).device.bench.armed + arm_count (action_of step.now) ≤ 64 }
    requires calls { HaveCallsOf seats.old (action_of step.now) }
    requires room { HasRoomForAnswer replies.old (action_of step.now) }
    ensures takes { TakesStep common.now.config.now seats.old.dem seats.new.dem seats.old.queue seats.new.queue step.now replies.old replies.new store.old store.new }
    ensures lock { IsOfLock (known_dem common.now.locks.now.dem) seats.new.dem }
    ensures queue { turn.IsSeatOf common.now.locks.now.queue.turn seats.new.queue }
{
    let Common {
        rt,
        locks,
        config,
        gate: _,
    } = *common;
    match action_of(step) {
        Action::Save => save(rt, &locks.dem, store, config, &mut seats.dem, replies),
        Action::Drain => drain(rt, &locks.queue, store, config, &mut seats.queue, replies),
        Action::Get(block) => get(store, block, replies),
        Action::Arm(arm) => make_arm(store, arm, replies),
        call => make_call(rt, locks, seats, call, replies, response),
    }
}
