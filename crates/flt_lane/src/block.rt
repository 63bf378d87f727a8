//! A block: its lanes get their seats, run, and are joined.
ghost use Rattle.std.specs.Prelude.{◌≡◌, ◌≤◌, ◌+◌, ◌∷◌, All, List, length, map, vec_len};
ghost use Rattle.std.specs.Vec.{vec_capacity};
ghost use Rattle.std.proofs.Common.{inr};
ghost use Rattle.flt_step.specs.declared.step.Step.{Step};
ghost use Rattle.flt_step.specs.Part.{PartOf};
ghost use Rattle.flt_life_model.specs.Room.{steps_of, told_in};
ghost use Rattle.flt_life_model.specs.declared.room.LaneRoom.{LaneRoom as RoomView};
ghost use Rattle.flt_lane.specs.Parts.{CanRunBehind, CanRunParts, RunsPart};
ghost use Rattle.flt_lane.specs.Room.{IsBlockRoom, lanes_of};
ghost use Rattle.flt_lane.specs.Seating.{AreSeated, CanJoin, CanSeat, HaveJoined, IsJoined, IsSeated};
ghost use Rattle.flt_lane.specs.Keeping.{AreAllowed, CarriesLanes};
ghost use Rattle.flt_lane.specs.Stored.{HaveRun};
ghost use Rattle.flt_lane.specs.Work.{AreSeatsOf, HasConfig, IsPrepared};
ghost use Rattle.flt_step.specs.Step.{store_lanes};
ghost use Rattle.flt_lane.specs.Views.{BlockRoom, LaneWork, known_by};

use crate::gate::Gate;
use crate::keeping::LifeStore;
use crate::lane::LaneOf;
use crate::living::LifeAnswers;
use crate::locks::{Common, LocksOf, SeatsOf, StatusLock};
use crate::room::RoomOf;
use flt_fork::{Passing, pass_all};
use flt_life_model::{CallRoom, LaneReplies, LaneRoom};
use flt_turn::Seat;
use std::marker::Sync;
use std::sync::Wait;
use std::thread::Threads;

/// Splits the seats for a lane, with exactly the calls that its steps need.
fn split_lane<'a, L: StatusLock>(
    locks: &LocksOf<L>,
    main: &mut SeatsOf<Seat<L::Machine>>,
    room: LaneRoom<'a>,
) -> LaneOf<'a, Seat<L::Machine>>
    requires can { (later : List RoomView) × CanSeat (known_by L.known locks.now) main.old (room ∷ later) }
    ensures seated { IsSeated (known_by L.known locks.now) main.old room.entry main.new result }
{
    let LaneRoom { steps, replies } = room;
    let calls = CallRoom::for_lane(steps);
    let dem = locks.dem.turn().split(&mut main.dem, calls.machine);
    let queue = locks.queue.split(&mut main.queue, calls.queue);
    let number = dem.number();
    LaneOf {
        number,
        steps,
        seats: SeatsOf { dem, queue },
        replies,
    }
}

/// Joins the seats of a lane, and gives its answers.
fn join_lane<L: StatusLock>(
    locks: &LocksOf<L>,
    main: &mut SeatsOf<Seat<L::Machine>>,
    work: LaneOf<'_, Seat<L::Machine>>,
) -> LaneReplies
    requires can { (later : List LaneWork) × CanJoin (known_by L.known locks.now) main.old (work ∷ later) }
    ensures joined { IsJoined main.old work.entry main.new result }
{
    let LaneOf {
        number: _,
        steps: _,
        seats,
        replies,
    } = work;
    locks.dem.turn().join(&mut main.dem, seats.dem);
    locks.queue.join(&mut main.queue, seats.queue);
    replies
}

impl<'a, L: StatusLock> Passing<
    SeatsOf<Seat<L::Machine>>,
    LaneRoom<'a>,
    LaneOf<'a, Seat<L::Machine>>,
> for LocksOf<L> {
    ghost can_pass = { λ locks. CanSeat (known_by L.known locks) };

    ghost passes = { λ locks. IsSeated (known_by L.known locks) };

    fn pass(
        &self,
        main: &mut SeatsOf<Seat<L::Machine>>,
        lane: LaneRoom<'a>,
    ) -> LaneOf<'a, Seat<L::Machine>> {
        split_lane(self, main, lane)
    }
}

impl<'a, L: StatusLock> Passing<
    SeatsOf<Seat<L::Machine>>,
    LaneOf<'a, Seat<L::Machine>>,
    LaneReplies,
> for LocksOf<L> {
    ghost can_pass = { λ locks. CanJoin (known_by L.known locks) };

    ghost passes = { λ locks. IsJoined };

    fn pass(
        &self,
        main: &mut SeatsOf<Seat<L::Machine>>,
        lane: LaneOf<'a, Seat<L::Machine>>,
    ) -> LaneReplies {
        join_lane(self, main, lane)
    }
}

/// Gives the lanes of a block their seats.
fn seat_lanes<'a, L: StatusLock>(
    locks: &LocksOf<L>,
    main: &mut SeatsOf<Seat<L::Machine>>,
    room: RoomOf<'a, Seat<L::Machine>>,
) -> Vec<LaneOf<'a, Seat<L::Machine>>>
    requires can { CanSeat (known_by L.known locks.now) main.old room.lanes.items }
    requires room { IsBlockRoom room }
    ensures seated { AreSeated (known_by L.known locks.now) main.old main.new (steps_of room.entry.lanes.items) result.items }
    ensures count { length result.items ≡ length room.entry.lanes.items }
{
    let RoomOf { lanes, mut works } = room;
    pass_all(locks, main, lanes, &mut works);
    works
}

/// Joins the seats of lanes, and puts their answers after those that are there.
fn join_lanes<L: StatusLock>(
    locks: &LocksOf<L>,
    main: &mut SeatsOf<Seat<L::Machine>>,
    works: Vec<LaneOf<'_, Seat<L::Machine>>>,
    told: &mut Vec<LaneReplies>,
)
    requires can { CanJoin (known_by L.known locks.now) main.old works.items }
    requires room { vec_len told.old + length works.items ≤ vec_capacity told.old }
    ensures joined { HaveJoined main.old main.new works.entry.items (map told_in told.old.items) (map told_in told.new.items) }
    ensures len { vec_len told.new ≡ vec_len told.old + length works.entry.items }
    ensures capacity { vec_capacity told.new ≡ vec_capacity told.old }
{
    pass_all(locks, main, works, told);
}

/// Runs lanes that are ready.
fn run_works<R: Threads + Wait + Sync, G: Gate, L: StatusLock, S: LifeStore<L, G>>(
    common: &Common<'_, R, G, L>,
    store: &mut S,
    works: &mut Vec<LaneOf<'_, Seat<L::Machine>>>,
)
    requires ready { All (IsPrepared (known_by L.known common.now.locks.now)) works.old.items }
    requires one_stores { store_lanes (map (λ (lane : LaneWork). lane.steps.now) works.old.items) ≤ 1 }
    requires allowed { All (λ lane. AreAllowed S.keeping lane.steps.now) works.old.items }
    requires config { All (λ lane. HasConfig common.now.config.now lane.seats.dem) works.old.items }
    requires able { S.keeping.is_ready common.now.config.now 0 store.old }
    ensures ran { HaveRun works.old.items works.new.items }
    ensures carries { CarriesLanes S.keeping common.now.config.now works.old.items works.new.items store.old store.new }
    ensures seats { All (AreSeatsOf (known_by L.known common.now.locks.now)) works.new.items }
{
    store.run_lanes(common, works.as_mut_slice());
}

/// Runs the lanes of a block, and puts their answers after those that are there. No memory is taken: there is room for the seats
/// in `room`, and in `answers` for the answers.
pub(crate) fn run_lanes<'a, R: Threads + Wait + Sync, G: Gate, L: StatusLock, S: LifeStore<L, G>>(
    common: &Common<'_, R, G, L>,
    store: &mut S,
    seats: &mut SeatsOf<Seat<L::Machine>>,
    room: RoomOf<'a, Seat<L::Machine>>,
    answers: &mut LifeAnswers,
)
    requires can { (later : List BlockRoom) × (rest : List (PartOf Step))
        × CanRunParts S.keeping (known_by L.known common.now.locks.now) common.now.config.now seats.old store.old (room ∷ later) answers.old (inr (lanes_of room) ∷ rest) }
    ensures runs { RunsPart S.keeping common.now.config.now seats.old seats.new (inr (lanes_of room.entry)) answers.old answers.new store.old store.new }
    ensures can { (later : List BlockRoom) → CanRunBehind S.keeping (known_by L.known common.now.locks.now) common.now.config.now (inr (lanes_of room.entry))
        seats.old seats.new store.old store.new (room.entry ∷ later) later answers.old answers.new }
{
    let mut works = seat_lanes(common.locks, seats, room);
    run_works(common, store, &mut works);
    join_lanes(common.locks, seats, works, &mut answers.told);
}
