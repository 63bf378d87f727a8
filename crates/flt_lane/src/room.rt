//! What the blocks of a life take of memory: all of it at its start.
ghost use Rattle.std.specs.Prelude.{◌≡◌, ◌≤◌, ◌++◌, List, All, IfOk, OnOk, length, map};
ghost use Rattle.flt_life_model.specs.Parts.{lanes_in};
ghost use Rattle.flt_life_model.specs.Room.{IsLaneRoom, steps_of};
ghost use Rattle.flt_step.specs.Part.{parts_of};
ghost use Rattle.flt_step.specs.declared.step.Step.{Step};
ghost use Rattle.flt_lane.specs.Room.{AreRoomsOf, IsBlockRoom};

use crate::lane::LaneOf;
use flt_life_model::LaneRoom;
use flt_shared::{DemStart, Op};
use flt_step::{Part, Step};
use flt_turn::{Machine, Seat};
use std::alloc::{AllocError, Global};
use std::vec::IntoIter;

/// The lanes of a block, and room for as many seats.
#[derive(Drop)]
pub struct RoomOf<'a, S> {
    pub lanes: Vec<LaneRoom<'a>>,
    pub works: Vec<LaneOf<'a, S>>,
}

/// Takes the next lanes, this many.
fn next_lanes<'a>(
    alloc: Global,
    count: usize,
    lanes: &mut IntoIter<LaneRoom<'a>>,
) -> Result<Vec<LaneRoom<'a>>, AllocError>
    requires { count ≤ length lanes.old.rest.items }
    ensures lanes { IfOk result (λ rooms. rooms.items ++ lanes.new.rest.items ≡ lanes.old.rest.items) }
    ensures count { IfOk result (λ rooms. length rooms.items ≡ count) }
{
    let mut rooms = Vec::with_capacity(alloc, count)?;
    for taken in 0..count {
        let Some(room) = lanes.next() else {
            unreachable!()
        };
        rooms.push(room)?;
    }
    Ok(rooms)
}

/// A block with its lanes, which are the next ones, and with room for their seats.
fn block_room<'a, M: Machine<Start = DemStart, Op = Op>>(
    alloc: Global,
    block: &[Vec<Step>],
    lanes: &mut IntoIter<LaneRoom<'a>>,
) -> Result<RoomOf<'a, Seat<M>>, AllocError>
    requires lanes { (later : List (List Step)) × (steps_of lanes.old.rest.items ≡ map (λ lane. lane.items) block.now ++ later) }
    requires ready { All IsLaneRoom lanes.old.rest.items }
    ensures lanes { IfOk result (λ room. steps_of room.lanes.items ≡ map (λ lane. lane.items) block.now) }
    ensures room { IfOk result IsBlockRoom }
    ensures later { OnOk result ((later : List (List Step)) → steps_of lanes.old.rest.items ≡ map (λ lane. lane.items) block.now ++ later
        → steps_of lanes.new.rest.items ≡ later) }
    ensures ready { OnOk result (All IsLaneRoom lanes.new.rest.items) }
{
    let lanes = next_lanes(alloc, block.len(), lanes)?;
    let works = Vec::with_capacity(alloc, block.len())?;
    Ok(RoomOf { lanes, works })
}

/// The blocks of a life, each with its lanes, and with room for their seats.
pub(crate) fn block_rooms<'a, M: Machine<Start = DemStart, Op = Op>>(
    alloc: Global,
    parts: &[Part],
    lanes: Vec<LaneRoom<'a>>,
) -> Result<Vec<RoomOf<'a, Seat<M>>>, AllocError>
    requires lanes { steps_of lanes.items ≡ lanes_in (parts_of parts.now) }
    requires ready { All IsLaneRoom lanes.items }
    ensures { IfOk result (λ rooms. AreRoomsOf (parts_of parts.now) rooms.items) }
{
    let mut lanes = lanes.into_iter();
    let mut rooms = Vec::new(alloc);
    for part in parts {
        if let Part::Lanes(block) = part {
            let room = block_room(alloc, block, &mut lanes)?;
            rooms.push(room)?;
        }
    }
    Ok(rooms)
}
