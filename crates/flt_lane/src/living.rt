//! The parts of a life, one after the other, on its locks.
ghost use Rattle.std.specs.Prelude.{◌≡◌, ◌∷◌, [], List, vec_len};
ghost use Rattle.flt_step.specs.declared.step.Step.{Step as StepView};
ghost use Rattle.flt_step.specs.Part.{PartOf, part_of, parts_of};
ghost use Rattle.flt_life_model.specs.Room.{told_in};
ghost use Rattle.flt_turn.specs.Seats as turn;
ghost use Rattle.flt_lane.specs.Views.{IsOfLock, known_by};
ghost use Rattle.flt_lane.specs.Parts.{CanRunBehind, CanRunParts, HaveLivedParts, RunsPart};

use crate::block::run_lanes;
use crate::gate::Gate;
use crate::keeping::LifeStore;
use crate::locks::{Common, SeatsOf, StatusLock};
use crate::room::RoomOf;
use arrayvec::ArrayVec;
use flt_life_model::LaneReplies;
use flt_model::RESPONSE;
use flt_step::Part;
use flt_turn::Seat;
use std::marker::Sync;
use std::sync::Wait;
use std::thread::Threads;
use std::vec::IntoIter;

/// The answers of a life so far, with room for the others.
#[derive(Drop)]
pub struct LifeAnswers {
    /// Those of lane 0.
    pub own: LaneReplies,
    /// Those of the lanes of blocks.
    pub told: Vec<LaneReplies>,
    /// Where the bytes of lane 0's next response are written.
    pub response: ArrayVec<u8, RESPONSE>,
}

/// Carries out a part of a life, and puts its answers after those that are there. A step of lane 0 is made between the two calls of
/// the gate. The room of a block is the next one.
fn run_part<'a, R: Threads + Wait + Sync, G: Gate, L: StatusLock, S: LifeStore<L, G>>(
    common: &Common<'_, R, G, L>,
    store: &mut S,
    seats: &mut SeatsOf<Seat<L::Machine>>,
    part: &Part,
    rooms: &mut IntoIter<RoomOf<'a, Seat<L::Machine>>>,
    answers: &mut LifeAnswers,
)
    requires can { (rest : List (PartOf StepView))
        × CanRunParts S.keeping (known_by L.known common.now.locks.now) common.now.config.now seats.old store.old rooms.old.rest.items answers.old (part_of part.now ∷ rest) }
    ensures runs { RunsPart S.keeping common.now.config.now seats.old seats.new (part_of part.now) answers.old answers.new store.old store.new }
    ensures can { CanRunBehind S.keeping (known_by L.known common.now.locks.now) common.now.config.now (part_of part.now)
        seats.old seats.new store.old store.new rooms.old.rest.items rooms.new.rest.items answers.old answers.new }
{
    match part {
        Part::One(step) => {
            let index = answers.own.answers.len() as u32;
            common.gate.before(common.rt, 0, index);
            store.make_step(common, seats, step, &mut answers.own, &mut answers.response);
            common.gate.after(common.rt, 0, index);
        }
        Part::Lanes(_) => {
            let Some(room) = rooms.next() else {
                unreachable!()
            };
            run_lanes(common, store, seats, room, answers);
        }
    }
}

/// Carries out the parts of a life, one after the other, with a room for each block. No memory is taken.
pub(crate) fn run_parts<'a, R: Threads + Wait + Sync, G: Gate, L: StatusLock, S: LifeStore<L, G>>(
    common: &Common<'_, R, G, L>,
    store: &mut S,
    seats: &mut SeatsOf<Seat<L::Machine>>,
    parts: &[Part],
    rooms: Vec<RoomOf<'a, Seat<L::Machine>>>,
    answers: &mut LifeAnswers,
)
    requires can { CanRunParts S.keeping (known_by L.known common.now.locks.now) common.now.config.now seats.old store.old rooms.items answers.old (parts_of parts.now) }
    requires no_answers { told_in answers.old.own ≡ [] }
    requires none_told { (answers.old.told.items ≡ []) × (vec_len answers.old.told ≡ 0) }
    ensures lived { HaveLivedParts S.keeping common.now.config.now seats.old seats.new store.old store.new answers.new (parts_of parts.now) }
    ensures lock { IsOfLock (L.known common.now.locks.now.dem) seats.new.dem }
    ensures queue { turn.IsSeatOf common.now.locks.now.queue.turn seats.new.queue }
{
    let mut rooms = rooms.into_iter();
    for part in parts {
        run_part(common, store, seats, part, &mut rooms, answers);
    }
}
