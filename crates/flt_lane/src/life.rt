//! A life on its locks.
ghost use Rattle.std.specs.Prelude.{◌≡◌, [], All, OnErr, OnOk, vec_len};
ghost use Rattle.flt_step.specs.Part.{parts_of};
ghost use Rattle.flt_life_model.specs.Parts.{lanes_in};
ghost use Rattle.flt_life_model.specs.Room.{IsLaneRoom, steps_of, told_in};
ghost use Rattle.flt_turn.specs.Seats as turn;
ghost use Rattle.flt_lane.specs.Parts.{CanLive, HasRoomForParts, HaveLivedParts};
ghost use Rattle.flt_lane.specs.Views.{IsOfLock, known_by};

use crate::gate::Gate;
use crate::keeping::LifeStore;
use crate::living::{LifeAnswers, run_parts};
use crate::locks::{Common, SeatsOf, StatusLock};
use crate::room::block_rooms;
use flt_life_model::LaneRoom;
use flt_step::Part;
use flt_turn::Seat;
use std::alloc::{AllocError, Global};
use std::marker::Sync;
use std::sync::Wait;
use std::thread::Threads;

/// Carries out the parts of a life on main seats that made no call: lane 0 makes its steps, and the lanes of each block make theirs at once.
/// The lanes have room for their answers, and so has `answers` for all.
///
/// All memory is taken before the first step. At `Err` there was not enough: no call was made, and the store is as it was.
pub fn live<'a, R: Threads + Wait + Sync, G: Gate, L: StatusLock, S: LifeStore<L, G>>(
    alloc: Global,
    common: &Common<'_, R, G, L>,
    store: &mut S,
    seats: &mut SeatsOf<Seat<L::Machine>>,
    parts: &'a [Part],
    lanes: Vec<LaneRoom<'a>>,
    answers: &mut LifeAnswers,
) -> Result<(), AllocError>
    requires can { CanLive S.keeping (known_by L.known common.now.locks.now) common.now.config.now seats.old store.old parts.now }
    requires lanes { (steps_of lanes.items ≡ lanes_in (parts_of parts.now)) × All IsLaneRoom lanes.items }
    requires room { HasRoomForParts answers.old (parts_of parts.now) }
    requires no_answers { told_in answers.old.own ≡ [] }
    requires none_told { (answers.old.told.items ≡ []) × (vec_len answers.old.told ≡ 0) }
    ensures untouched { OnErr result (store.new ≡ store.old) }
    ensures lived { OnOk result (HaveLivedParts S.keeping common.now.config.now seats.old seats.new store.old store.new answers.new (parts_of parts.now)) }
    ensures lock { OnOk result (IsOfLock (L.known common.now.locks.now.dem) seats.new.dem) }
    ensures queue { OnOk result (turn.IsSeatOf common.now.locks.now.queue.turn seats.new.queue) }
{
    let rooms = block_rooms(alloc, parts, lanes)?;
    run_parts(common, store, seats, parts, rooms, answers);
    Ok(())
}
