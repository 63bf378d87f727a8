//! The room that a life needs: for its calls, which are counted, and for its answers, whose memory is allocated at its start.
ghost use Rattle.std.specs.Prelude.{◌≡◌, ◌<◌, ◌≤◌, ◌+◌, ◌^◌, ◌++◌, ◌∷◌, [], List, All, IfOk, length, map, reverse, sum_by, vec_len};
ghost use Rattle.std.specs.Vec.{vec_capacity};
ghost use Rattle.flt_step.specs.declared.step.Step.{Step};
ghost use Rattle.flt_step.specs.Part.{PartOf, part_of, parts_of};
ghost use Rattle.flt_life_model.specs.Actions.{action_of, call_count, queue_count};
ghost use Rattle.flt_life_model.specs.Lives.{view_of};
ghost use Rattle.flt_life_model.specs.Parts.{calls_in, calls_of, lanes_in, own_steps, queued_in, queued_of, steps_in, widths};
ghost use Rattle.flt_life_model.specs.Room.{IsLaneRoom, IsLifeRoom, sizes_of, steps_of, told_in};

use crate::action::{call_count, queue_count, response_size};
use crate::life::{Boot, Life};
use crate::replies::LaneReplies;
use flt_model::Op;
use flt_queue::QueueOp;
use flt_step::{Part, Step};
use flt_turn::Entry;
use std::alloc::{AllocError, Global};

/// How many calls steps make at most, of each of the two machines under a lock.
#[derive(Clone, Copy, Debug, PartialEq, Eq)]
pub struct CallRoom {
    /// Calls of the status machine.
    pub machine: u32,
    /// Calls of the queue of write jobs.
    pub queue: u32,
}

impl CallRoom {
    /// The room for the calls of these parts, of 65,536 steps at most.
    pub fn for_parts(parts: &[Part]) -> CallRoom
        requires { sum_by steps_in (parts_of parts.now) ≤ 65536 }
        ensures machine { result.machine ≡ sum_by calls_in (parts_of parts.now) }
        ensures queue { result.queue ≡ sum_by queued_in (parts_of parts.now) }
    {
        let mut room = CallRoom::none();
        for part in parts {
            room.grow(CallRoom::for_part(part));
        }
        room
    }

    /// The room for the calls of a part.
    fn for_part(part: &Part) -> CallRoom
        requires { steps_in (part_of part.now) ≤ 65536 }
        ensures machine { result.machine ≡ calls_in (part_of part.now) }
        ensures queue { result.queue ≡ queued_in (part_of part.now) }
    {
        match part {
            Part::One(step) => CallRoom::for_step(step),
            Part::Lanes(lanes) => {
                let mut room = CallRoom::none();
                for lane in lanes {
                    room.grow(CallRoom::for_lane(lane));
                }
                room
            }
        }
    }

    /// The room for the calls of a lane, of 65,536 steps at most.
    pub fn for_lane(steps: &[Step]) -> CallRoom
        requires { length steps.now ≤ 65536 }
        ensures machine { result.machine ≡ calls_of steps.now }
        ensures queue { result.queue ≡ queued_of steps.now }
    {
        let mut room = CallRoom::none();
        for step in steps {
            room.grow(CallRoom::for_step(step));
        }
        room
    }

    /// The room for the calls of a step.
    #[tactic(auto, using(crate::proofs::Calls::step_calls_most, crate::proofs::Calls::step_queued_most))]
    fn for_step(step: &Step) -> CallRoom
        ensures machine { result.machine ≡ call_count (action_of step.now) }
        ensures queue { result.queue ≡ queue_count (action_of step.now) }
    {
        CallRoom {
            machine: call_count(step) as u32,
            queue: queue_count(step) as u32,
        }
    }

    /// No room.
    fn none() -> CallRoom
        ensures machine { result.machine ≡ 0 }
        ensures queue { result.queue ≡ 0 }
    {
        CallRoom {
            machine: 0,
            queue: 0,
        }
    }

    /// Adds the room for more calls.
    fn grow(&mut self, more: CallRoom)
        requires machine { self.old.machine + more.machine < 2 ^ 32 }
        requires queue { self.old.queue + more.queue < 2 ^ 32 }
        ensures machine { self.new.machine ≡ self.old.machine + more.machine }
        ensures queue { self.new.queue ≡ self.old.queue + more.queue }
    {
        self.machine += more.machine;
        self.queue += more.queue;
    }
}

/// The steps of a lane of a block, and room for an answer to each.
#[derive(Drop)]
pub struct LaneRoom<'a> {
    /// The steps, in order.
    pub steps: &'a [Step],
    /// Takes the answer to each of them.
    pub replies: LaneReplies,
}

/// Room for the answers of a life, with the places where they are put in the end.
#[derive(Drop)]
pub struct LifeRoom<'a> {
    /// For the answers of lane 0.
    pub own: LaneReplies,
    /// The lanes of all blocks, in order.
    pub lanes: Vec<LaneRoom<'a>>,
    /// Takes the answers of the lanes that have made their steps.
    pub told: Vec<LaneReplies>,
    /// Takes the answers of all lanes in the end.
    pub replies: Vec<LaneReplies>,
}

/// A lane of a block, with room for an answer to each of its steps.
fn lane_room(alloc: Global, steps: &[Step]) -> Result<LaneRoom<'_>, AllocError>
    requires { length steps.now ≤ 65536 }
    ensures steps { IfOk result (λ room. room.steps.now ≡ steps.now) }
    ensures room { IfOk result IsLaneRoom }
{
    let mut bytes = 0;
    for step in steps {
        bytes += response_size(step);
    }
    let replies = LaneReplies::with_room(alloc, steps.len(), bytes)?;
    Ok(LaneRoom { steps, replies })
}

/// Adds the lanes of a block, each with room for its answers.
fn add_lanes<'a>(
    alloc: Global,
    lanes: &'a [Vec<Step>],
    rooms: &mut Vec<LaneRoom<'a>>,
) -> Result<(), AllocError>
    requires few { All (λ lane. length lane.items ≤ 65536) lanes.now }
    requires ready { All IsLaneRoom rooms.old.items }
    ensures lanes { IfOk result (λ _. steps_of rooms.new.items ≡ steps_of rooms.old.items ++ map (λ lane. lane.items) lanes.now) }
    ensures len { IfOk result (λ _. vec_len rooms.new ≡ vec_len rooms.old + length lanes.now) }
    ensures ready { All IsLaneRoom rooms.new.items }
{
    for lane in lanes {
        let room = lane_room(alloc, lane)?;
        rooms.push(room)?;
    }
    Ok(())
}

/// What the answers to some parts need: how many lane 0 gives, how many bytes they have at most, and the lanes of all blocks.
#[derive(Drop)]
struct Needs<'a> {
    answers: usize,
    bytes: usize,
    lanes: Vec<LaneRoom<'a>>,
}

/// What the answers to these parts need, found in one walk over them. Each lane comes with room for its answers.
fn needs_of<'a>(alloc: Global, parts: &'a [Part]) -> Result<Needs<'a>, AllocError>
    requires few { sum_by steps_in (parts_of parts.now) ≤ 65536 }
    requires numbers { widths (parts_of parts.now) + 1 < 2 ^ 32 }
    ensures answers { IfOk result (λ needs. needs.answers ≡ length (own_steps (parts_of parts.now))) }
    ensures bytes { IfOk result (λ needs. needs.bytes ≡ sizes_of (own_steps (parts_of parts.now))) }
    ensures lanes { IfOk result (λ needs. steps_of needs.lanes.items ≡ lanes_in (parts_of parts.now)) }
    ensures ready { IfOk result (λ needs. All IsLaneRoom needs.lanes.items) }
{
    let mut answers = 0;
    let mut bytes = 0;
    let mut rooms = Vec::new(alloc);
    for part in parts {
        match part {
            Part::One(step) => {
                answers += 1;
                bytes += response_size(step);
            }
            Part::Lanes(lanes) => add_lanes(alloc, lanes, &mut rooms)?,
        }
    }
    Ok(Needs {
        answers,
        bytes,
        lanes: rooms,
    })
}

impl<'a> LifeRoom<'a> {
    /// Allocates all memory that the answers of a life with these parts need: at most 65,536 steps. The error means that memory ran out.
    pub fn for_parts(alloc: Global, parts: &'a [Part]) -> Result<LifeRoom<'a>, AllocError>
        requires few { sum_by steps_in (parts_of parts.now) ≤ 65536 }
        requires numbers { widths (parts_of parts.now) + 1 < 2 ^ 32 }
        ensures { IfOk result (λ room. IsLifeRoom (parts_of parts.now) room) }
    {
        let Needs {
            answers,
            bytes,
            lanes,
        } = needs_of(alloc, parts)?;
        let own = LaneReplies::with_room(alloc, answers, bytes)?;
        let told = Vec::with_capacity(alloc, lanes.len())?;
        let replies = Vec::with_capacity(alloc, lanes.len() + 1)?;
        Ok(LifeRoom {
            own,
            lanes,
            told,
            replies,
        })
    }
}

/// The life that began in this way and made these calls, with the answers of lane 0 and of the other lanes, which are put in the
/// reserved places.
pub fn life_of(
    boot: Boot,
    journal: Vec<Entry<Op>>,
    queue: Vec<Entry<QueueOp>>,
    own: LaneReplies,
    told: Vec<LaneReplies>,
    replies: Vec<LaneReplies>,
) -> Life
    requires none { replies.items ≡ [] }
    requires room { vec_len replies + length told.items + 1 ≤ vec_capacity replies }
    ensures { (parts : List (PartOf Step)) → view_of parts result ≡ record {
      parts = parts;
      boot = boot;
      journal = reverse journal.items;
      queue = reverse queue.items;
      own = told_in own;
      lanes = map told_in told.items;
    } }
{
    let mut replies = replies;
    replies.push_reserved(own);
    for lane in told {
        replies.push_reserved(lane);
    }
    Life {
        boot,
        journal,
        queue,
        replies,
    }
}
