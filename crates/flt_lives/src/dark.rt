//! Lives whose start-up met three faults of the device: they make no step but arms.
ghost use Rattle.std.specs.Prelude.{◌≡◌, ◌+◌, ◌≤◌, ◌∷◌, [], ℕ, All, List, length, map, sum_by, vec_len};
ghost use Rattle.std.specs.Vec.{vec_capacity};
ghost use Rattle.flt_step.specs.Part.{part_of, parts_of};
ghost use Rattle.flt_store.specs.Store.{driver_of};
ghost use Rattle.flt_life_model.specs.Actions.{IsPossibleArm, arm_count, arms_of, all_arms};
ghost use Rattle.flt_life_model.specs.Answers.{byte_room, told_with, response_length};
ghost use Rattle.flt_life_model.specs.declared.life.Boot.TheVariants as boots;
ghost use Rattle.flt_life_model.specs.Lives.{view_of};
ghost use Rattle.flt_life_model.specs.Moment.{moment_of};
ghost use Rattle.flt_life_model.specs.Parts.{arms_in, lanes_in, own_actions, own_steps};
ghost use Rattle.flt_life_model.specs.Played.{dark_answer, dark_answers};
ghost use Rattle.flt_life_model.specs.Room.{HasRoomForSteps, IsLaneRoom, IsLifeRoom, steps_of, told_in};
ghost use Rattle.flt_lives.specs.Dark.{AddsDarkAnswers, IsLaneSteps};
ghost use Rattle.flt_lives.specs.Steps.{GivesArms};

use flt_dcm::ReplyKind;
use flt_flash::Blocks;
use flt_life_model::{
    Action, Boot, LaneReplies, LaneRoom, Life, LifeRoom, StepAnswer, action_of, life_of,
};
use flt_step::Part;
use flt_store::Store;
use std::alloc::Global;

/// What a dark life answers to a step: arms alone are made.
fn take_dark_step<D: Blocks + Drop>(store: &mut Store<D>, action: Action) -> StepAnswer<ReplyKind>
    requires possible { IsPossibleArm action }
    requires arms { (driver_of store.old).device.bench.armed + arm_count action ≤ 64 }
    ensures answer { (response : List ℕ) → told_with response result ≡ dark_answer action }
    ensures size { (response : List ℕ) → response_length result response ≡ 0 }
    ensures same { moment_of (driver_of store.new) ≡ moment_of (driver_of store.old) }
    ensures gives { GivesArms (arms_of action) (arm_count action) (driver_of store.old) (driver_of store.new) }
{
    match action {
        Action::Arm(arm) => {
            store.arm(arm);
            StepAnswer::Armed
        }
        Action::Call(_) => StepAnswer::Dark,
        Action::Queue(_) => StepAnswer::Dark,
        Action::Save => StepAnswer::Dark,
        Action::Drain => StepAnswer::Dark,
        Action::Get(_) => StepAnswer::Dark,
    }
}

/// Takes a part of a dark life, as lane 0.
fn take_dark_part<D: Blocks + Drop>(store: &mut Store<D>, part: &Part, own: &mut LaneReplies)
    requires possible { All IsPossibleArm (own_actions (part_of part.now ∷ [])) }
    requires arms { (driver_of store.old).device.bench.armed + arms_in (part_of part.now) ≤ 64 }
    requires room { vec_len own.old.answers + length (own_steps (part_of part.now ∷ [])) ≤ vec_capacity own.old.answers }
    requires bytes { vec_len own.old.responses ≤ byte_room own.old.responses }
    ensures answers { AddsDarkAnswers (part_of part.now ∷ []) own.old own.new }
    ensures same { moment_of (driver_of store.new) ≡ moment_of (driver_of store.old) }
    ensures gives { GivesArms (all_arms (own_actions (part_of part.now ∷ []))) (arms_in (part_of part.now)) (driver_of store.old) (driver_of store.new) }
{
    match part {
        Part::One(step) => {
            let answer = take_dark_step(store, action_of(step));
            own.keep(answer, &[]);
        }
        Part::Lanes(_lanes) => {}
    }
}

/// Takes the steps of lane 0 of a dark life.
fn take_dark_steps<D: Blocks + Drop>(store: &mut Store<D>, parts: &[Part], own: &mut LaneReplies)
    requires possible { All IsPossibleArm (own_actions (parts_of parts.now)) }
    requires arms { (driver_of store.old).device.bench.armed + sum_by arms_in (parts_of parts.now) ≤ 64 }
    requires room { HasRoomForSteps own.old (own_steps (parts_of parts.now)) }
    requires no_answers { told_in own.old ≡ [] }
    ensures answers { told_in own.new ≡ map dark_answer (own_actions (parts_of parts.now)) }
    ensures same { moment_of (driver_of store.new) ≡ moment_of (driver_of store.old) }
    ensures gives { GivesArms (all_arms (own_actions (parts_of parts.now))) (sum_by arms_in (parts_of parts.now)) (driver_of store.old) (driver_of store.new) }
{
    for part in parts {
        take_dark_part(store, part, own);
    }
}

/// Answers each step of a lane, none of which is made.
fn take_dark_lane(lane: LaneRoom<'_>) -> LaneReplies
    requires steps { IsLaneSteps lane.steps.now }
    requires room { IsLaneRoom lane }
    ensures { told_in result ≡ dark_answers lane.entry.steps.now }
{
    let LaneRoom { steps, mut replies } = lane;
    for _step in steps {
        replies.keep(StepAnswer::Dark, &[]);
    }
    replies
}

/// Answers each step of the lanes of all blocks, none of which is made.
fn take_dark_lanes(lanes: Vec<LaneRoom<'_>>, told: &mut Vec<LaneReplies>)
    requires steps { All IsLaneSteps (steps_of lanes.items) }
    requires ready { All IsLaneRoom lanes.items }
    requires none { told.old.items ≡ [] }
    requires room { vec_len told.old + length lanes.items ≤ vec_capacity told.old }
    ensures { map told_in told.new.items ≡ map dark_answers (steps_of lanes.entry.items) }
{
    for lane in lanes {
        let replies = take_dark_lane(lane);
        told.push_reserved(replies);
    }
}

/// A dark life with these parts.
pub(crate) fn dark_life<D: Blocks + Drop>(
    alloc: Global,
    store: &mut Store<D>,
    parts: &[Part],
    room: LifeRoom<'_>,
) -> Life
    requires possible { All IsPossibleArm (own_actions (parts_of parts.now)) }
    requires steps { All IsLaneSteps (lanes_in (parts_of parts.now)) }
    requires arms { (driver_of store.old).device.bench.armed + sum_by arms_in (parts_of parts.now) ≤ 64 }
    requires room { IsLifeRoom (parts_of parts.now) room }
    ensures life { view_of (parts_of parts.now) result ≡ record {
      parts = parts_of parts.now;
      boot = boots.Dark;
      journal = [];
      queue = [];
      own = map dark_answer (own_actions (parts_of parts.now));
      lanes = map dark_answers (lanes_in (parts_of parts.now));
    } }
    ensures same { moment_of (driver_of store.new) ≡ moment_of (driver_of store.old) }
    ensures gives { GivesArms (all_arms (own_actions (parts_of parts.now))) (sum_by arms_in (parts_of parts.now)) (driver_of store.old) (driver_of store.new) }
{
    let LifeRoom {
        mut own,
        lanes,
        mut told,
        replies,
    } = room;
    take_dark_steps(store, parts, &mut own);
    take_dark_lanes(lanes, &mut told);
    let journal = Vec::new(alloc);
    let queue = Vec::new(alloc);
    life_of(Boot::Dark, journal, queue, own, told, replies)
}
