//! Whether parts are possible: the test of what the calls require that make lives.
ghost use Rattle.std.specs.Prelude.{◌≡◌, ◌≤◌, ◌↔◌, All, IsTrue, count_by};
ghost use Rattle.flt_flash.specs.State.{CanArm};
ghost use Rattle.flt_step.specs.Part.{part_of, parts_of};
ghost use Rattle.flt_step.specs.Step.{has_store_step};
ghost use Rattle.flt_dcm.specs.Unit.{IsAdmitted};
ghost use Rattle.flt_queue.specs.Queue as jobs;
ghost use Rattle.flt_life_model.specs.Actions.{IsPossible, IsQueueCall, IsStepCall, action_of};
ghost use Rattle.flt_life_model.specs.Parts.{IsPossibleInLane, IsPossiblePart};

use crate::action::{Action, action_of};
use flt_config::Config;
use flt_flash::Arm;
use flt_model::Op;
use flt_queue::QueueOp;
use flt_step::{Part, Step};

/// Whether a bench accepts the arm: a cut or a fault comes after at least one operation.
fn can_arm(arm: &Arm) -> bool
    ensures { IsTrue result ↔ CanArm arm.now }
{
    match arm {
        Arm::Cut { after, .. } => 0 < *after,
        Arm::Fault { after, .. } => 0 < *after,
        Arm::Mute { .. } => true,
    }
}

/// Whether a step may make the call, and its numbers are in their ranges.
fn is_possible_call(config: &Config, op: &Op) -> bool
    ensures { IsTrue result ↔ (IsStepCall op.now × IsAdmitted config.now op.now) }
{
    match op {
        Op::Report { event, .. } => usize::from(*event) < config.events.len(),
        Op::Show { event } => usize::from(*event) < config.events.len(),
        Op::Cycle { cycle } => *cycle < 4,
        Op::Tick { .. } => true,
        Op::Signal { index, .. } => *index < 8,
        Op::Enable { condition, .. } => *condition < 8,
        Op::Request { tester, bytes } => *tester < 4 && 0 < bytes.len(),
        Op::Snapshot | Op::Saved { .. } => false,
    }
}

/// Whether a step may make the call of the queue, and its numbers are in their ranges.
fn is_possible_job(config: &Config, op: &QueueOp) -> bool
    ensures { IsTrue result ↔ (IsQueueCall op.now × jobs.IsQueueCallFor config.now.blocks op.now) }
{
    match op {
        QueueOp::Post { job, .. } => job.block < config.blocks && 0 < job.bytes.len(),
        QueueOp::Ask { block } => *block < config.blocks,
        QueueOp::Take | QueueOp::Done { .. } => false,
    }
}

/// Whether the numbers of a step are in their ranges.
fn is_possible_step(config: &Config, step: &Step) -> bool
    ensures { IsTrue result ↔ IsPossible config.now (action_of step.now) }
{
    match action_of(step) {
        Action::Call(op) => is_possible_call(config, &op),
        Action::Queue(op) => is_possible_job(config, &op),
        Action::Save | Action::Drain => true,
        Action::Get(block) => block < config.blocks,
        Action::Arm(arm) => can_arm(&arm),
    }
}

/// Whether the steps are possible in a lane, where no step arms.
fn is_possible_lane(config: &Config, steps: &[Step]) -> bool
    ensures { IsTrue result ↔ All (IsPossibleInLane config.now) steps.now }
{
    steps.iter().all(|step| step.is_lane_step() && is_possible_step(config, step))
}

/// Whether each of these lanes is possible.
fn are_possible_lanes(config: &Config, lanes: &[Vec<Step>]) -> bool
    ensures { IsTrue result ↔ All (λ lane. All (IsPossibleInLane config.now) lane.items) lanes.now }
{
    lanes.iter().all(|lane| is_possible_lane(config, lane))
}

/// Whether a lane uses the store.
fn uses_store(steps: &[Step]) -> bool
    ensures { result ≡ has_store_step steps.now }
{
    steps.iter().any(|step| step.is_store_step())
}

/// Whether at most one of these lanes uses the store.
fn share_no_store(lanes: &[Vec<Step>]) -> bool
    ensures { IsTrue result ↔ (count_by (λ lane. has_store_step lane.items) lanes.now ≤ 1) }
{
    lanes.iter().filter(|lane| uses_store(lane)).count() <= 1
}

/// Whether a part is possible.
fn is_possible_part(config: &Config, part: &Part) -> bool
    ensures { IsTrue result ↔ IsPossiblePart config.now (part_of part.now) }
{
    match part {
        Part::One(step) => is_possible_step(config, step),
        Part::Lanes(lanes) => are_possible_lanes(config, lanes) && share_no_store(lanes),
    }
}

/// Whether a life of this configuration can be made of these parts: the numbers of each step are in their ranges, no lane of a
/// block arms the bench, and at most one saves, drains or gets.
pub fn are_possible(config: &Config, parts: &[Part]) -> bool
    ensures { IsTrue result ↔ All (IsPossiblePart config.now) (parts_of parts.now) }
{
    parts.iter().all(|part| is_possible_part(config, part))
}
